//! Reading the lines of what happens between runs.

ghost use Rattle.std.specs.Prelude.{◌≡◌, ◌<◌, ◌^◌, ◌∷◌, ◌++◌, IfOk, IfSome, Some, codes};
ghost use Rattle.std.specs.List.{AllByRecursion};
ghost use Rattle.ckpt_model.specs.Text.{halt_text, list_text, list_word, note_text, scavenged_text, state_text};
ghost use Rattle.ckpt_model.specs.Text.{text_of, answer_text, flags_text};
ghost use Rattle.history_reader.specs.Pieces.{mark_text};
ghost use Rattle.history_reader.specs.Spelled.{IsSpelled, Fits, FitsHalt, FitsListRow, FitsNote, FitsScavenged};
ghost use Rattle.history_reader.specs.Reading.{Gives, read_changing_note, read_counted_halt, read_halt, read_halt_word, read_list, read_list_fault, read_list_note, read_marked, read_note, read_scavenge, read_scavenged, read_state};

use crate::cuts::{cut, cut_at_equals, is, is_empty};
use crate::fault::Fault;
use crate::numbers::{dataset, device, medium, number};
use crate::read_answers::{answer_of, prefix_device, prefix_full};
use crate::read_bytes::name_of;
use crate::read_steps::flags_of;
use crate::rows::{Row, rows_of};
use ckpt_model::{CommandAnswer, Event, IndexNote, ScavAnswer};
use scr_base::{Flags, HaltWord, Items, ListRow};
use std::alloc::Global;

/// What follows the word `scavenged`.
#[tactic(auto, unfolding(crate::specs::Reading::read_scavenged))]
pub(crate) fn scavenged_of(rest: &[u8]) -> Option<ScavAnswer>
    ensures text { IfSome result (λ answer. scavenged_text answer ≡ codes "scavenged " ++ rest.now) }
    ensures fits { IfSome result (λ answer. FitsScavenged answer) }
    ensures gives { result ≡ read_scavenged rest.now }
{
    match dataset(rest) {
        Some(which) => Some(ScavAnswer::Done { which }),
        None if is(rest, b"none") => Some(ScavAnswer::NoneLeft),
        None => None,
    }
}

/// What follows the word `scavenge`.
#[tactic(auto, unfolding(crate::specs::Reading::read_scavenge))]
pub(crate) fn scavenge_of(rest: &[u8]) -> Option<ScavAnswer>
    ensures text { IfSome result (λ answer. scavenged_text answer ≡ codes "scavenge " ++ rest.now) }
    ensures fits { IfSome result (λ answer. FitsScavenged answer) }
    ensures gives { result ≡ read_scavenge rest.now }
{
    if is(rest, b"cut") {
        return Some(ScavAnswer::Cut);
    }
    let (word, rest) = cut(rest, b' ')?;
    if is(word, b"device") {
        let (node, count) = device(rest)?;
        Some(ScavAnswer::Device { node, count })
    } else if is(word, b"full") {
        let (used, capacity) = prefix_full(rest)?;
        Some(ScavAnswer::Full { used, capacity })
    } else {
        None
    }
}

/// What follows the word `index`.
#[tactic(auto, unfolding(crate::specs::Reading::read_note))]
pub(crate) fn note_of(alloc: Global, rest: &[u8]) -> Result<IndexNote, Fault>
    ensures text { IfOk result (λ note. note_text note ≡ codes "index " ++ rest.now) }
    ensures fits { IfOk result (λ note. FitsNote note) }
    ensures gives { Gives result (read_note rest.now) }
{
    let (what, answer) = cut_at_equals(rest).ok_or(Fault::Bad)?;
    if is(what, b"list") {
        list_note_of(alloc, answer)
    } else {
        changing_note_of(what, answer).ok_or(Fault::Bad)
    }
}

#[tactic(auto, unfolding(crate::specs::Reading::read_changing_note))]
fn changing_note_of(what: &[u8], answer: &[u8]) -> Option<IndexNote>
    ensures text { IfSome result (λ note. note_text note ≡ codes "index " ++ (what.now ++ (codes " = " ++ answer.now))) }
    ensures fits { IfSome result (λ note. FitsNote note) }
    ensures gives { result ≡ read_changing_note what.now answer.now }
{
    let (word, id) = cut(what, b' ')?;
    let id = medium(id)?;
    let answer = answer_of(answer)?;
    if is(word, b"drop") {
        Some(IndexNote::Drop { id, answer })
    } else if is(word, b"current") {
        Some(IndexNote::Current { id, answer })
    } else {
        None
    }
}

#[tactic(auto, unfolding(crate::specs::Reading::read_list_note))]
fn list_note_of(alloc: Global, rest: &[u8]) -> Result<IndexNote, Fault>
    ensures text { IfOk result (λ note. note_text note ≡ codes "index list = " ++ rest.now) }
    ensures fits { IfOk result (λ note. FitsNote note) }
    ensures gives { Gives result (read_list_note rest.now) }
{
    match list_fault_of(rest) {
        Some(count) => Ok(IndexNote::ListFault { count }),
        None => Ok(IndexNote::List {
            rows: list_of(alloc, rest)?,
        }),
    }
}

/// The count of the prefix's calls, where reading the index failed.
#[tactic(auto, unfolding(crate::specs::Reading::read_list_fault))]
fn list_fault_of(rest: &[u8]) -> Option<u64>
    ensures text { IfSome result (λ count. note_text (IndexNote.ListFault count) ≡ codes "index list = " ++ rest.now) }
    ensures fits { IfSome result (λ count. count < 2 ^ 64) }
    ensures gives { result ≡ read_list_fault rest.now }
{
    let (word, rest) = cut(rest, b' ')?;
    if is(word, b"device") {
        prefix_device(rest)
    } else {
        None
    }
}

#[tactic(auto, unfolding(crate::specs::Reading::read_list))]
fn list_of(alloc: Global, bytes: &[u8]) -> Result<Items<ListRow>, Fault>
    ensures text { IfOk result (λ rows. bytes.now ≡ list_text rows) }
    ensures fits { IfOk result (λ rows. AllByRecursion FitsListRow rows) }
    ensures gives { Gives result (read_list bytes.now) }
{
    if is(bytes, b"none") {
        return Ok(Items::of(Vec::new(alloc)));
    }
    Ok(Items::of(rows_of::<ListRow>(alloc, bytes, b' ')?))
}

impl Row for ListRow {
    ghost use Rattle.ckpt_model.specs.Text.{list_word};
    ghost use Rattle.history_reader.specs.Reading.{read_list_row};
    ghost use Rattle.history_reader.specs.Spelled.{FitsListRow};

    ghost text = { list_word };

    ghost read = { read_list_row };

    ghost fits = { FitsListRow };

    #[tactic(auto, unfolding(crate::specs::Reading::read_list_row))]
    fn of(alloc: Global, word: &[u8]) -> Result<ListRow, Fault> {
        let (which, rest) = cut(word, b'/').ok_or(Fault::Bad)?;
        let (name, rest) = cut(rest, b'/').ok_or(Fault::Bad)?;
        let (state, flags) = cut(rest, b'/').ok_or(Fault::Bad)?;
        let which = dataset(which).ok_or(Fault::Bad)?;
        let failed = state_of(state).ok_or(Fault::Bad)?;
        let (flags, marked) = marked_flags_of(flags).ok_or(Fault::Bad)?;
        Ok(ListRow {
            which,
            name: name_of(alloc, name)?,
            failed,
            flags,
            marked,
        })
    }
}

/// Flags, with a star behind them where the entry is marked.
#[tactic(auto, unfolding(crate::specs::Reading::read_marked))]
fn marked_flags_of(word: &[u8]) -> Option<(Flags, bool)>
    ensures text { IfSome result (λ found. word.now ≡ flags_text found.0 ++ mark_text found.1) }
    ensures gives { result ≡ read_marked word.now }
{
    match cut(word, b'*') {
        None => Some((flags_of(word)?, false)),
        Some((flags, rest)) if is_empty(rest) => Some((flags_of(flags)?, true)),
        Some(_) => None,
    }
}

/// Whether an entry is failed: it is flushed or failed.
#[tactic(auto, unfolding(crate::specs::Reading::read_state))]
pub(crate) fn state_of(word: &[u8]) -> Option<bool>
    ensures text { IfSome result (λ failed. word.now ≡ state_text failed) }
    ensures gives { result ≡ read_state word.now }
{
    if is(word, b"failed") {
        Some(true)
    } else if is(word, b"flushed") {
        Some(false)
    } else {
        None
    }
}

/// What follows the word `halt`.
#[tactic(auto, unfolding(crate::specs::Reading::read_halt))]
pub(crate) fn halt_of(alloc: Global, rest: &[u8]) -> Result<Event, Fault>
    ensures text { IfOk result (λ event. text_of event ≡ codes "halt " ++ rest.now) }
    ensures spelled { IfOk result (λ event. IsSpelled event) }
    ensures fits { IfOk result (λ event. Fits event) }
    ensures gives { Gives result (read_halt rest.now) }
{
    let (words, answer) = cut_at_equals(rest).ok_or(Fault::Bad)?;
    let answer = answer_of(answer).ok_or(Fault::Bad)?;
    Ok(Event::HaltSet {
        word: halt_word_of(alloc, words)?,
        answer,
    })
}

#[tactic(auto, unfolding(crate::specs::Reading::read_halt_word))]
fn halt_word_of(alloc: Global, words: &[u8]) -> Result<Option<HaltWord>, Fault>
    ensures text { IfOk result (λ halt. halt_text halt ≡ words.now) }
    ensures fits { IfOk result (λ halt. FitsHalt halt) }
    ensures gives { Gives result (read_halt_word words.now) }
{
    if is(words, b"clear") {
        return Ok(None);
    }
    let (word, value) = cut(words, b' ').ok_or(Fault::Bad)?;
    if is(word, b"reason") {
        let name = name_of(alloc, value)?;
        Ok(Some(HaltWord::Reason { name }))
    } else {
        let counted = counted_halt_of(word, value).ok_or(Fault::Bad)?;
        Ok(Some(counted))
    }
}

#[tactic(auto, unfolding(crate::specs::Reading::read_counted_halt))]
fn counted_halt_of(word: &[u8], value: &[u8]) -> Option<HaltWord>
    ensures text { IfSome result (λ halt. halt_text (Some halt) ≡ word.now ++ 32 ∷ value.now) }
    ensures fits { IfSome result (λ halt. FitsHalt (Some halt)) }
    ensures gives { result ≡ read_counted_halt word.now value.now }
{
    if is(word, b"checkpoints") {
        Some(HaltWord::Checkpoints {
            left: medium(value)?,
        })
    } else if is(word, b"before") {
        Some(HaltWord::Before { at: number(value)? })
    } else if is(word, b"after") {
        Some(HaltWord::After { at: number(value)? })
    } else if is(word, b"seconds") {
        Some(HaltWord::Seconds {
            seconds: number(value)?,
        })
    } else {
        None
    }
}
