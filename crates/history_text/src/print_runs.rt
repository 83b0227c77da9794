//! The lines of what happens in a run.

ghost use Rattle.std.specs.Prelude.{◌≡◌, ◌++◌, ◌∷◌, [], OnOk, decimal};
ghost use Rattle.ckpt_model.specs.declared.event.Event.TheVariants as event;
ghost use Rattle.history_reader.specs.Pieces.{each_after};
ghost use Rattle.ckpt_model.specs.Text.{text_of, found_word, entry_word, id_text};

use crate::pieces::{put, put_id, put_lost, put_number, put_numbers};
use crate::print_answers::{kind_word, put_cause, put_given_up, put_reply};
use crate::print_commands::put_state;
use crate::print_steps::put_step;
use ckpt_model::{EntryRow, FoundRow, GivenUpCause, Kind, StopCause};
use scr_base::{DataId, Memory, Reply, Step};

pub(crate) fn put_run(out: &mut Vec<u8>, run: u32, places: &[u8]) -> Result<(), Memory>
    ensures { OnOk result (out.new.items ≡ out.old.items ++ text_of (event.Run run places.now)) }
{
    put(out, b"run ")?;
    put_number(out, run as u64)?;
    put(out, b" at ")?;
    put_numbers(out, b',', places)
}

pub(crate) fn put_found(
    out: &mut Vec<u8>,
    kept: &[FoundRow],
    index: &[EntryRow],
) -> Result<(), Memory>
    ensures { OnOk result (out.new.items ≡ out.old.items ++ text_of (event.Found kept.now index.now)) }
{
    put(out, b"found")?;
    put_found_rows(out, kept)?;
    put(out, b" |")?;
    put_entry_rows(out, index)
}

fn put_found_rows(out: &mut Vec<u8>, rows: &[FoundRow]) -> Result<(), Memory>
    ensures { OnOk result (out.new.items ≡ out.old.items ++ each_after 32 found_word rows.now) }
{
    for row in rows {
        put_found_row(out, row)?;
    }
    Ok(())
}

fn put_found_row(out: &mut Vec<u8>, row: &FoundRow) -> Result<(), Memory>
    ensures { OnOk result (out.new.items ≡ out.old.items ++ 32 ∷ found_word row.now) }
{
    put(out, b" ")?;
    put_id(out, row.which)?;
    put(out, b":")?;
    put_lost(out, row.lost.list())
}

fn put_entry_rows(out: &mut Vec<u8>, rows: &[EntryRow]) -> Result<(), Memory>
    ensures { OnOk result (out.new.items ≡ out.old.items ++ each_after 32 entry_word rows.now) }
{
    for row in rows {
        put_entry_row(out, *row)?;
    }
    Ok(())
}

fn put_entry_row(out: &mut Vec<u8>, row: EntryRow) -> Result<(), Memory>
    ensures { OnOk result (out.new.items ≡ out.old.items ++ 32 ∷ entry_word row) }
{
    put(out, b" ")?;
    put_id(out, row.which)?;
    put(out, b":")?;
    put_state(out, row.failed)
}

/// A word and a dataset; the word comes with its space.
pub(crate) fn put_dataset(out: &mut Vec<u8>, word: &[u8], which: DataId) -> Result<(), Memory>
    ensures { OnOk result (out.new.items ≡ out.old.items ++ (word.now ++ id_text which)) }
{
    put(out, word)?;
    put_id(out, which)
}

pub(crate) fn put_call(out: &mut Vec<u8>, rank: u8, number: u32, step: &Step) -> Result<(), Memory>
    ensures { OnOk result (out.new.items ≡ out.old.items ++ text_of (event.Call rank number step.now)) }
{
    put(out, b"call ")?;
    put_place(out, rank, number)?;
    put_step(out, step)
}

/// A rank and the number of its step, each with a space behind it.
fn put_place(out: &mut Vec<u8>, rank: u8, number: u32) -> Result<(), Memory>
    ensures { OnOk result (out.new.items ≡ out.old.items ++ (decimal rank ++ 32 ∷ (decimal number ++ 32 ∷ []))) }
{
    put_number(out, rank as u64)?;
    put(out, b" ")?;
    put_number(out, number as u64)?;
    put(out, b" ")
}

pub(crate) fn put_decided(out: &mut Vec<u8>, kind: Kind, answer: &Reply) -> Result<(), Memory>
    ensures { OnOk result (out.new.items ≡ out.old.items ++ text_of (event.Decided kind answer.now)) }
{
    put(out, b"decided ")?;
    put(out, kind_word(kind))?;
    put(out, b" ")?;
    put_reply(out, answer)
}

pub(crate) fn put_taken_reply(
    out: &mut Vec<u8>,
    rank: u8,
    number: u32,
    answer: &Reply,
) -> Result<(), Memory>
    ensures { OnOk result (out.new.items ≡ out.old.items ++ text_of (event.Reply rank number answer.now)) }
{
    put(out, b"reply ")?;
    put_place(out, rank, number)?;
    put_reply(out, answer)
}

pub(crate) fn put_local(
    out: &mut Vec<u8>,
    rank: u8,
    number: u32,
    step: &Step,
    answer: &Reply,
) -> Result<(), Memory>
    ensures { OnOk result (out.new.items ≡ out.old.items ++ text_of (event.Local rank number step.now answer.now)) }
{
    put(out, b"local ")?;
    put_place(out, rank, number)?;
    put_step(out, step)?;
    put(out, b" = ")?;
    put_reply(out, answer)
}

pub(crate) fn put_giving_up(
    out: &mut Vec<u8>,
    which: DataId,
    cause: GivenUpCause,
) -> Result<(), Memory>
    ensures { OnOk result (out.new.items ≡ out.old.items ++ text_of (event.GivenUp which cause)) }
{
    put(out, b"givenup ")?;
    put_id(out, which)?;
    put(out, b" ")?;
    put_given_up(out, cause)
}

pub(crate) fn put_stop(out: &mut Vec<u8>, cause: StopCause) -> Result<(), Memory>
    ensures { OnOk result (out.new.items ≡ out.old.items ++ text_of (event.Stop cause)) }
{
    put(out, b"stop ")?;
    put_cause(out, cause)
}
