//! Reading the lines of what happens in a run.

ghost use Rattle.std.specs.Prelude.{◌≡◌, ◌∷◌, ◌++◌, IfOk, IfSome, codes};
ghost use Rattle.std.specs.List.{AllByRecursion};
ghost use Rattle.ckpt_model.specs.Text.{text_of, id_text, found_word, entry_word};
ghost use Rattle.history_reader.specs.Pieces.{each_after, each_before};
ghost use Rattle.history_reader.specs.Spelled.{IsSpelled, Fits, FitsEntryRow, FitsFoundRow, FitsId};
ghost use Rattle.history_reader.specs.Reading.{Gives, dataset_event, read_call, read_decided, read_event, read_found, read_giving_up, read_index, read_kept, read_local, read_run, read_short, read_taken_reply, read_worded};

use crate::cuts::{cut, cut_at_equals, cut_last, is, is_empty};
use crate::fault::Fault;
use crate::numbers::{dataset, medium, number, place, small};
use crate::read_answers::{cause_of, given_up_of, kind_of, reply_of};
use crate::read_bytes::lost_of;
use crate::read_commands::{halt_of, note_of, scavenge_of, scavenged_of, state_of};
use crate::read_steps::step_of;
use crate::rows::{Row, rows_of};
use ckpt_model::{EntryRow, Event, FoundRow};
use scr_base::{Bytes, DataId, Items};
use std::alloc::Global;

/// The event of which this is the text.
#[tactic(auto, unfolding(crate::specs::Reading::read_event))]
pub(crate) fn event_of(alloc: Global, line: &[u8]) -> Result<Event, Fault>
    ensures text { IfOk result (λ event. text_of event ≡ line.now) }
    ensures spelled { IfOk result (λ event. IsSpelled event) }
    ensures fits { IfOk result (λ event. Fits event) }
    ensures gives { Gives result (read_event line.now) }
{
    let (word, rest) = cut(line, b' ').ok_or(Fault::Bad)?;
    worded_event_of(alloc, word, rest)
}

#[tactic(auto, unfolding(crate::specs::Reading::read_worded))]
fn worded_event_of(alloc: Global, word: &[u8], rest: &[u8]) -> Result<Event, Fault>
    ensures text { IfOk result (λ event. text_of event ≡ word.now ++ 32 ∷ rest.now) }
    ensures spelled { IfOk result (λ event. IsSpelled event) }
    ensures fits { IfOk result (λ event. Fits event) }
    ensures gives { Gives result (read_worded word.now rest.now) }
{
    if is(word, b"call") {
        call_of(alloc, rest)
    } else if is(word, b"reply") {
        taken_reply_of(alloc, rest)
    } else if is(word, b"local") {
        local_of(alloc, rest)
    } else if is(word, b"decided") {
        decided_of(alloc, rest)
    } else if is(word, b"run") {
        run_of(alloc, rest)
    } else if is(word, b"found") {
        found_of(alloc, rest)
    } else if is(word, b"index") {
        Ok(Event::IndexCommand {
            note: note_of(alloc, rest)?,
        })
    } else if is(word, b"halt") {
        halt_of(alloc, rest)
    } else {
        short_event_of(word, rest).ok_or(Fault::Bad)
    }
}

#[tactic(auto, unfolding(crate::specs::Reading::read_short))]
fn short_event_of(word: &[u8], rest: &[u8]) -> Option<Event>
    ensures text { IfSome result (λ event. text_of event ≡ word.now ++ 32 ∷ rest.now) }
    ensures spelled { IfSome result (λ event. IsSpelled event) }
    ensures fits { IfSome result (λ event. Fits event) }
    ensures gives { result ≡ read_short word.now rest.now }
{
    if is(word, b"time") {
        Some(Event::Time { now: number(rest)? })
    } else if is(word, b"emptied") {
        Some(Event::Emptied { node: small(rest)? })
    } else if is(word, b"lost") {
        Some(Event::Lost { node: small(rest)? })
    } else if is(word, b"stop") {
        Some(Event::Stop {
            cause: cause_of(rest)?,
        })
    } else if is(word, b"givenup") {
        giving_up_of(rest)
    } else if is(word, b"scavenged") {
        Some(Event::Scavenged {
            answer: scavenged_of(rest)?,
        })
    } else if is(word, b"scavenge") {
        Some(Event::Scavenged {
            answer: scavenge_of(rest)?,
        })
    } else {
        dataset_event_of(word, dataset(rest)?)
    }
}

/// An event of which the line is a word and a dataset.
#[tactic(auto, unfolding(crate::specs::Reading::dataset_event))]
fn dataset_event_of(word: &[u8], which: DataId) -> Option<Event>
    ensures text { IfSome result (λ event. text_of event ≡ word.now ++ 32 ∷ id_text which) }
    ensures spelled { IfSome result (λ event. IsSpelled event) }
    ensures fits { FitsId which → IfSome result (λ event. Fits event) }
    ensures gives { result ≡ dataset_event word.now which }
{
    if is(word, b"sealing") {
        Some(Event::Sealing { which })
    } else if is(word, b"settled") {
        Some(Event::Settled { which })
    } else if is(word, b"flushing") {
        Some(Event::Flushing { which })
    } else if is(word, b"indexing") {
        Some(Event::Indexing { which })
    } else if is(word, b"flushed") {
        Some(Event::Flushed { which })
    } else if is(word, b"mended") {
        Some(Event::Mended { which })
    } else if is(word, b"evicting") {
        Some(Event::Evicting { which })
    } else if is(word, b"evicted") {
        Some(Event::Evicted { which })
    } else if is(word, b"discarding") {
        Some(Event::Discarding { which })
    } else if is(word, b"discarded") {
        Some(Event::Discarded { which })
    } else if is(word, b"fetching") {
        Some(Event::Fetching { which })
    } else if is(word, b"fetched") {
        Some(Event::Fetched { which })
    } else if is(word, b"failing") {
        Some(Event::Failing { which })
    } else if is(word, b"failed") {
        Some(Event::Failed { which })
    } else if is(word, b"scavenging") {
        Some(Event::Scavenging { which })
    } else {
        None
    }
}

#[tactic(auto, unfolding(crate::specs::Reading::read_run))]
fn run_of(alloc: Global, rest: &[u8]) -> Result<Event, Fault>
    ensures text { IfOk result (λ event. text_of event ≡ codes "run " ++ rest.now) }
    ensures spelled { IfOk result (λ event. IsSpelled event) }
    ensures fits { IfOk result (λ event. Fits event) }
    ensures gives { Gives result (read_run rest.now) }
{
    let (run, rest) = cut(rest, b' ').ok_or(Fault::Bad)?;
    let run = medium(run).ok_or(Fault::Bad)?;
    let (at, places) = cut(rest, b' ').ok_or(Fault::Bad)?;
    if !is(at, b"at") {
        return Err(Fault::Bad);
    }
    Ok(Event::Run {
        run,
        places: Bytes::of(rows_of::<u8>(alloc, places, b',')?),
    })
}

#[tactic(auto, unfolding(crate::specs::Reading::read_call))]
fn call_of(alloc: Global, rest: &[u8]) -> Result<Event, Fault>
    ensures text { IfOk result (λ event. text_of event ≡ codes "call " ++ rest.now) }
    ensures spelled { IfOk result (λ event. IsSpelled event) }
    ensures fits { IfOk result (λ event. Fits event) }
    ensures gives { Gives result (read_call rest.now) }
{
    let (rank, number, step) = place(rest).ok_or(Fault::Bad)?;
    Ok(Event::Call {
        rank,
        number,
        step: step_of(alloc, step)?,
    })
}

#[tactic(auto, unfolding(crate::specs::Reading::read_taken_reply))]
fn taken_reply_of(alloc: Global, rest: &[u8]) -> Result<Event, Fault>
    ensures text { IfOk result (λ event. text_of event ≡ codes "reply " ++ rest.now) }
    ensures spelled { IfOk result (λ event. IsSpelled event) }
    ensures fits { IfOk result (λ event. Fits event) }
    ensures gives { Gives result (read_taken_reply rest.now) }
{
    let (rank, number, answer) = place(rest).ok_or(Fault::Bad)?;
    Ok(Event::Reply {
        rank,
        number,
        answer: reply_of(alloc, answer)?,
    })
}

#[tactic(auto, unfolding(crate::specs::Reading::read_local))]
fn local_of(alloc: Global, rest: &[u8]) -> Result<Event, Fault>
    ensures text { IfOk result (λ event. text_of event ≡ codes "local " ++ rest.now) }
    ensures spelled { IfOk result (λ event. IsSpelled event) }
    ensures fits { IfOk result (λ event. Fits event) }
    ensures gives { Gives result (read_local rest.now) }
{
    let (rank, number, rest) = place(rest).ok_or(Fault::Bad)?;
    let (step, answer) = cut_at_equals(rest).ok_or(Fault::Bad)?;
    let answer = reply_of(alloc, answer)?;
    Ok(Event::Local {
        rank,
        number,
        step: step_of(alloc, step)?,
        answer,
    })
}

#[tactic(auto, unfolding(crate::specs::Reading::read_decided))]
fn decided_of(alloc: Global, rest: &[u8]) -> Result<Event, Fault>
    ensures text { IfOk result (λ event. text_of event ≡ codes "decided " ++ rest.now) }
    ensures spelled { IfOk result (λ event. IsSpelled event) }
    ensures fits { IfOk result (λ event. Fits event) }
    ensures gives { Gives result (read_decided rest.now) }
{
    let (kind, answer) = cut(rest, b' ').ok_or(Fault::Bad)?;
    let kind = kind_of(kind).ok_or(Fault::Bad)?;
    Ok(Event::Decided {
        kind,
        answer: reply_of(alloc, answer)?,
    })
}

#[tactic(auto, unfolding(crate::specs::Reading::read_giving_up))]
fn giving_up_of(rest: &[u8]) -> Option<Event>
    ensures text { IfSome result (λ event. text_of event ≡ codes "givenup " ++ rest.now) }
    ensures spelled { IfSome result (λ event. IsSpelled event) }
    ensures fits { IfSome result (λ event. Fits event) }
    ensures gives { result ≡ read_giving_up rest.now }
{
    let (which, rest) = cut(rest, b' ')?;
    let (word, rest) = cut(rest, b' ')?;
    Some(Event::GivenUp {
        which: dataset(which)?,
        cause: given_up_of(word, rest)?,
    })
}

#[tactic(auto, unfolding(crate::specs::Reading::read_found))]
fn found_of(alloc: Global, rest: &[u8]) -> Result<Event, Fault>
    ensures text { IfOk result (λ event. text_of event ≡ codes "found " ++ rest.now) }
    ensures spelled { IfOk result (λ event. IsSpelled event) }
    ensures fits { IfOk result (λ event. Fits event) }
    ensures gives { Gives result (read_found rest.now) }
{
    let Some((front, behind)) = cut(rest, b'|') else {
        return Err(Fault::Bad);
    };
    let kept = kept_rows_of(alloc, front)?;
    let index = index_rows_of(alloc, behind)?;
    Ok(Event::Found { kept, index })
}

/// Rows, each with a space behind it.
#[tactic(auto, unfolding(crate::specs::Reading::read_kept))]
fn kept_rows_of(alloc: Global, bytes: &[u8]) -> Result<Items<FoundRow>, Fault>
    ensures text { IfOk result (λ rows. bytes.now ≡ each_before 32 found_word rows) }
    ensures fits { IfOk result (λ rows. AllByRecursion FitsFoundRow rows) }
    ensures gives { Gives result (read_kept bytes.now) }
{
    if is_empty(bytes) {
        return Ok(Items::of(Vec::new(alloc)));
    }
    let Some((rows, rest)) = cut_last(bytes, b' ') else {
        return Err(Fault::Bad);
    };
    if !is_empty(rest) {
        return Err(Fault::Bad);
    }
    Ok(Items::of(rows_of::<FoundRow>(alloc, rows, b' ')?))
}

impl Row for FoundRow {
    ghost use Rattle.ckpt_model.specs.Text.{found_word};
    ghost use Rattle.history_reader.specs.Reading.{read_found_row};
    ghost use Rattle.history_reader.specs.Spelled.{FitsFoundRow};

    ghost text = { found_word };

    ghost read = { read_found_row };

    ghost fits = { FitsFoundRow };

    #[tactic(auto, unfolding(crate::specs::Reading::read_found_row))]
    fn of(alloc: Global, word: &[u8]) -> Result<FoundRow, Fault> {
        let (which, lost) = cut(word, b':').ok_or(Fault::Bad)?;
        let which = dataset(which).ok_or(Fault::Bad)?;
        Ok(FoundRow {
            which,
            lost: lost_of(alloc, lost)?,
        })
    }
}

/// Rows, each with a space before it.
#[tactic(auto, unfolding(crate::specs::Reading::read_index))]
fn index_rows_of(alloc: Global, bytes: &[u8]) -> Result<Items<EntryRow>, Fault>
    ensures text { IfOk result (λ rows. bytes.now ≡ each_after 32 entry_word rows) }
    ensures fits { IfOk result (λ rows. AllByRecursion FitsEntryRow rows) }
    ensures gives { Gives result (read_index bytes.now) }
{
    if is_empty(bytes) {
        return Ok(Items::of(Vec::new(alloc)));
    }
    let Some((front, rows)) = cut(bytes, b' ') else {
        return Err(Fault::Bad);
    };
    if !is_empty(front) {
        return Err(Fault::Bad);
    }
    Ok(Items::of(rows_of::<EntryRow>(alloc, rows, b' ')?))
}

impl Row for EntryRow {
    ghost use Rattle.ckpt_model.specs.Text.{entry_word};
    ghost use Rattle.history_reader.specs.Reading.{read_entry_row};
    ghost use Rattle.history_reader.specs.Spelled.{FitsEntryRow};

    ghost text = { entry_word };

    ghost read = { read_entry_row };

    ghost fits = { FitsEntryRow };

    #[tactic(auto, unfolding(crate::specs::Reading::read_entry_row))]
    fn of(_alloc: Global, word: &[u8]) -> Result<EntryRow, Fault> {
        let (which, state) = cut(word, b':').ok_or(Fault::Bad)?;
        Ok(EntryRow {
            which: dataset(which).ok_or(Fault::Bad)?,
            failed: state_of(state).ok_or(Fault::Bad)?,
        })
    }
}
