//! Histories read from their text.

ghost use Rattle.std.specs.Prelude.{◌≡◌, ◌∷◌, ◌++◌, ℕ, List, IfOk, IfErr, All, length};
ghost use Rattle.ckpt_model.specs.declared.event.Event.{Event};
ghost use Rattle.ckpt_model.specs.Text.{text_of, history_text};
ghost use Rattle.history_reader.specs.Spelled.{IsSpelled, IsPrintable, Fits};
ghost use Rattle.history_reader.specs.Parsed.{Answers, AnswersBad, IsBadAt, IsErrorOf};
ghost use Rattle.history_reader.specs.Reading.{GivesSeen, read_line};

use crate::cuts::cut;
use crate::fault::Fault;
use crate::read_runs::event_of;
use ckpt_model::{Event, History};
use scr_base::Memory;
use std::alloc::Global;
use thiserror::Error;

/// Why a text was not read.
#[derive(Clone, Copy, Debug, PartialEq, Eq, Error)]
pub enum HistoryError {
    /// This is the first line that is no event's text; lines are counted from 1.
    #[error("line {line} is no event's")]
    Bad { line: u64 },
    /// There is no memory for the history.
    #[error("want of memory")]
    Memory,
}

impl From<Memory> for HistoryError {
    ghost use Rattle.std.specs.Prelude.{◌≡◌};
    ghost use Rattle.history_reader.specs.declared.parsing.HistoryError.TheVariants as errors;

    ghost from_gives = { λ _ e. e ≡ errors.Memory };

    fn from(_error: Memory) -> HistoryError {
        HistoryError::Memory
    }
}

/// The history of which these bytes are the text: a line for each event, each ended by a line feed.
///
/// `Bad` comes exactly where the bytes are the text of no history, with the first line that is no
/// event's text; an end without a line feed is such a line.
pub fn parse(alloc: Global, bytes: &[u8]) -> Result<History, HistoryError>
    // What is read has these bytes as its text.
    ensures text { IfOk result (λ history. bytes.now ≡ history_text history.events) }
    ensures printable { IfOk result (λ history. All IsPrintable history.events) }
    // Each text of a history is read, as that history and no other.
    ensures only { (events : List Event) → All IsPrintable events → bytes.now ≡ history_text events → Answers events result }
    // A bad line is the first that is no event's text, and where there is one, it is the answer.
    ensures bad { IfErr result (λ error. IsBadAt bytes.now error) }
    ensures first { (line : ℕ) → IsBadAt bytes.now (HistoryError.Bad line) → AnswersBad line result }
{
    let mut history = History::new(alloc);
    let mut rest = bytes;
    while rest.len() > 0 {
        match line_of(alloc, rest) {
            Ok((event, others)) => {
                history.push(event)?;
                rest = others;
            }
            Err(fault) => return Err(error_at(&history, fault)),
        }
    }
    Ok(history)
}

/// The event of the first line, and the lines after it.
#[tactic(auto, unfolding(crate::specs::Reading::read_line))]
fn line_of(alloc: Global, bytes: &[u8]) -> Result<(Event, &[u8]), Fault>
    ensures text { IfOk result (λ found. bytes.now ≡ text_of found.0 ++ 10 ∷ found.1.now) }
    ensures spelled { IfOk result (λ found. IsSpelled found.0) }
    ensures fits { IfOk result (λ found. Fits found.0) }
    ensures gives { GivesSeen (λ found. (found.0, found.1.now)) result (read_line bytes.now) }
{
    let (line, rest) = cut(bytes, b'\n').ok_or(Fault::Bad)?;
    Ok((event_of(alloc, line)?, rest))
}

/// The error of the line behind a history's.
fn error_at(history: &History, fault: Fault) -> HistoryError
    ensures { IsErrorOf fault (length history.now.events) result }
{
    match fault {
        Fault::Bad => HistoryError::Bad {
            line: history.events().len() as u64 + 1,
        },
        Fault::Memory => HistoryError::Memory,
    }
}

/// One spelling: no two histories have the same text.
pub fn one_spelling()
    ensures { (events others : List Event) → All IsPrintable events → All IsPrintable others → history_text events ≡ history_text others → events ≡ others }
{}
