//! Reading names, words and bytes in hexadecimal.

ghost use Rattle.std.specs.Prelude.{◌≡◌, [], ◌∷◌, ◌<◌, IfNone, IfOk, IfSome, length, IsTrue};
ghost use Rattle.scr_base.specs.Words.{is_name, is_word};
ghost use Rattle.ckpt_model.specs.Text.{bytes_text, hex_digit, hex_text, lost_text};
ghost use Rattle.history_reader.specs.Reading.{Gives, GivesSeen, read_bytes, read_digit, read_hex, read_lost, read_name, read_pair, read_pairs, read_word};
ghost use Rattle.history_reader.specs.Spelled.{FitsBytes};

use crate::cuts::{is, is_empty};
use crate::fault::Fault;
use crate::rows::rows_of;
use scr_base::{Bytes, Name, NameError, Word, WordError};
use std::alloc::Global;

#[tactic(auto, unfolding(crate::specs::Reading::read_name))]
pub(crate) fn name_of(alloc: Global, bytes: &[u8]) -> Result<Name, Fault>
    ensures text { IfOk result (λ name. name ≡ bytes.now) }
    ensures fits { IfOk result (λ name. IsTrue (is_name name)) }
    ensures gives { Gives result (read_name bytes.now) }
{
    match Name::read(alloc, bytes) {
        Ok(name) => Ok(name),
        Err(NameError::BadName) => Err(Fault::Bad),
        Err(NameError::Memory) => Err(Fault::Memory),
    }
}

#[tactic(auto, unfolding(crate::specs::Reading::read_word))]
pub(crate) fn word_of(alloc: Global, bytes: &[u8]) -> Result<Word, Fault>
    ensures text { IfOk result (λ word. word ≡ bytes.now) }
    ensures fits { IfOk result (λ word. IsTrue (is_word word)) }
    ensures gives { Gives result (read_word bytes.now) }
{
    match Word::read(alloc, bytes) {
        Ok(word) => Ok(word),
        Err(WordError::BadWord) => Err(Fault::Bad),
        Err(WordError::Memory) => Err(Fault::Memory),
    }
}

/// The lost nodes of a dataset: numbers with a plus between each two, or a dash for none.
#[tactic(auto, unfolding(crate::specs::Reading::read_lost))]
pub(crate) fn lost_of(alloc: Global, bytes: &[u8]) -> Result<Bytes, Fault>
    ensures text { IfOk result (λ lost. bytes.now ≡ lost_text lost) }
    ensures fits { IfOk result (λ lost. FitsBytes lost) }
    ensures gives { Gives result (read_lost bytes.now) }
{
    if is(bytes, b"-") {
        return Ok(Bytes::of(Vec::new(alloc)));
    }
    Ok(Bytes::of(rows_of::<u8>(alloc, bytes, b'+')?))
}

/// The value of a digit in lower case hexadecimal.
#[tactic(auto, unfolding(crate::specs::Reading::read_digit))]
fn digit(byte: u8) -> Option<u8>
    ensures text { IfSome result (λ value. (value < 16) × (byte ≡ hex_digit value)) }
    ensures gives { result ≡ read_digit byte }
{
    match byte {
        b'0'..=b'9' => Some(byte - b'0'),
        b'a'..=b'f' => Some(byte - b'a' + 10),
        _ => None,
    }
}

/// The byte of two digits.
#[tactic(auto, unfolding(crate::specs::Reading::read_pair))]
fn byte_of(high: u8, low: u8) -> Option<u8>
    ensures text { IfSome result (λ byte. hex_text (byte ∷ []) ≡ high ∷ low ∷ []) }
    ensures gives { result ≡ read_pair high low }
{
    Some(16 * digit(high)? + digit(low)?)
}

/// The first two bytes, and those behind them.
fn first_pair(bytes: &[u8]) -> Option<(u8, u8, &[u8])>
    ensures some { IfSome result (λ found. bytes.now ≡ found.0 ∷ found.1 ∷ found.2.now) }
    ensures none { IfNone result (length bytes.now < 2) }
{
    match bytes {
        [first, second, rest @ ..] => Some((*first, *second, rest)),
        _ => None,
    }
}

/// Bytes in hexadecimal, two digits each.
fn pairs_of(alloc: Global, digits: &[u8]) -> Result<Vec<u8>, Fault>
    ensures text { IfOk result (λ bytes. digits.now ≡ hex_text bytes.items) }
    ensures fits { IfOk result (λ bytes. FitsBytes bytes.items) }
    ensures gives { GivesSeen (λ bytes. bytes.items) result (read_pairs digits.now) }
{
    let mut bytes = Vec::new(alloc);
    let mut rest = digits;
    while let Some((high, low, others)) = first_pair(rest) {
        let Some(byte) = byte_of(high, low) else {
            return Err(Fault::Bad);
        };
        bytes.push(byte)?;
        rest = others;
    }
    if is_empty(rest) {
        Ok(bytes)
    } else {
        Err(Fault::Bad)
    }
}

/// Bytes in hexadecimal, at least one.
#[tactic(auto, unfolding(crate::specs::Reading::read_hex))]
pub(crate) fn hex_of(alloc: Global, digits: &[u8]) -> Result<Bytes, Fault>
    ensures text { IfOk result (λ bytes. digits.now ≡ hex_text bytes) }
    ensures some { IfOk result (λ bytes. 0 < length bytes) }
    ensures fits { IfOk result (λ bytes. FitsBytes bytes) }
    ensures gives { Gives result (read_hex digits.now) }
{
    if is_empty(digits) {
        return Err(Fault::Bad);
    }
    Ok(Bytes::of(pairs_of(alloc, digits)?))
}

/// Bytes in hexadecimal, or a dash for none.
#[tactic(auto, unfolding(crate::specs::Reading::read_bytes))]
pub(crate) fn bytes_of(alloc: Global, text: &[u8]) -> Result<Bytes, Fault>
    ensures text { IfOk result (λ bytes. text.now ≡ bytes_text bytes) }
    ensures fits { IfOk result (λ bytes. FitsBytes bytes) }
    ensures gives { Gives result (read_bytes text.now) }
{
    if is(text, b"-") {
        return Ok(Bytes::of(Vec::new(alloc)));
    }
    hex_of(alloc, text)
}
