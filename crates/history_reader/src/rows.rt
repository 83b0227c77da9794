//! Lists of words with a byte between each two.

ghost use Rattle.std.specs.Prelude.{◌≡◌, ◌<◌, ℕ, List, Option, IfOk, decimal, length, map};
ghost use Rattle.std.specs.List.{AllByRecursion, join_with_byte};
ghost use Rattle.history_reader.specs.Reading.{Gives, GivesSeen, each_read, parts, read_byte};

use crate::cuts::cut;
use crate::fault::Fault;
use crate::numbers::small;
use std::alloc::Global;

/// What a word of a line may stand for.
pub(crate) trait Row: Drop {
    ghost text: { Self → List ℕ };

    ghost read: { List ℕ → Option Self };

    /// What the fields may be.
    ghost fits: { Self → Type 0 };

    /// What the word stands for.
    fn of(alloc: Global, word: &[u8]) -> Result<Self, Fault>
        ensures text { IfOk result (λ row. word.now ≡ text row) }
        ensures fits { IfOk result (λ row. fits row) }
        ensures gives { Gives result (read word.now) };
}

impl Row for u8 {
    ghost use Rattle.std.specs.Prelude.{◌<◌, ◌^◌, decimal};
    ghost use Rattle.history_reader.specs.Reading.{read_byte};

    ghost text = { decimal };

    ghost read = { read_byte };

    ghost fits = { λ b. b < 2 ^ 8 };

    fn of(_alloc: Global, word: &[u8]) -> Result<u8, Fault> {
        small(word).ok_or(Fault::Bad)
    }
}

/// Rows with a byte between each two, at least one.
pub(crate) fn rows_of<R: Row>(alloc: Global, bytes: &[u8], separator: u8) -> Result<Vec<R>, Fault>
    ensures text { IfOk result (λ rows. bytes.now ≡ join_with_byte separator (map R.text rows.items)) }
    ensures some { IfOk result (λ rows. 0 < length rows.items) }
    ensures fits { IfOk result (λ rows. AllByRecursion R.fits rows.items) }
    ensures gives { GivesSeen (λ rows. rows.items) result (each_read R.read (parts separator bytes.now)) }
{
    let mut rows = Vec::new(alloc);
    let mut rest = bytes;
    while let Some((word, others)) = cut(rest, separator) {
        rows.push(R::of(alloc, word)?)?;
        rest = others;
    }
    let last = R::of(alloc, rest)?;
    rows.push(last)?;
    Ok(rows)
}
