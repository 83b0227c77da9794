//! The lines of what happens between runs: losses, scavenges and commands.

ghost use Rattle.std.specs.Prelude.{◌≡◌, ◌++◌, OnOk, decimal, Some};
ghost use Rattle.ckpt_model.specs.Text.{text_of, halt_text, list_text, list_word, note_text, scavenged_text, state_text};
ghost use Rattle.ckpt_model.specs.declared.event.Event.TheVariants as event;
ghost use Rattle.history_reader.specs.Pieces.{each_after, mark_text};
ghost use Rattle.history_text.specs.Pieces.{row_end};

use crate::pieces::{put, put_device, put_flags, put_full, put_id, put_number};
use crate::print_answers::{PREFIX, put_answer};
use ckpt_model::{CommandAnswer, IndexNote, ScavAnswer};
use scr_base::{DataId, HaltWord, ListRow, Memory, Name};

pub(crate) fn put_scavenged(out: &mut Vec<u8>, answer: ScavAnswer) -> Result<(), Memory>
    ensures { OnOk result (out.new.items ≡ out.old.items ++ scavenged_text answer) }
{
    match answer {
        ScavAnswer::Done { which } => put_scavenge_done(out, which),
        ScavAnswer::NoneLeft => put(out, b"scavenged none"),
        ScavAnswer::Device { node, count } => put_scavenge_device(out, node, count),
        ScavAnswer::Full { used, capacity } => put_scavenge_full(out, used, capacity),
        ScavAnswer::Cut => put(out, b"scavenge cut"),
    }
}

fn put_scavenge_done(out: &mut Vec<u8>, which: DataId) -> Result<(), Memory>
    ensures { OnOk result (out.new.items ≡ out.old.items ++ scavenged_text (ScavAnswer.Done which)) }
{
    put(out, b"scavenged ")?;
    put_id(out, which)
}

fn put_scavenge_device(out: &mut Vec<u8>, node: u8, count: u64) -> Result<(), Memory>
    ensures { OnOk result (out.new.items ≡ out.old.items ++ scavenged_text (ScavAnswer.Device node count)) }
{
    put(out, b"scavenge ")?;
    put_device(out, node, count)
}

fn put_scavenge_full(out: &mut Vec<u8>, used: u64, capacity: u64) -> Result<(), Memory>
    ensures { OnOk result (out.new.items ≡ out.old.items ++ scavenged_text (ScavAnswer.Full used capacity)) }
{
    put(out, b"scavenge ")?;
    put_full(out, PREFIX, used, capacity)
}

pub(crate) fn put_note(out: &mut Vec<u8>, note: &IndexNote) -> Result<(), Memory>
    ensures { OnOk result (out.new.items ≡ out.old.items ++ note_text note.now) }
{
    match note {
        IndexNote::List { rows } => put_list(out, rows.list()),
        IndexNote::ListFault { count } => put_list_fault(out, *count),
        IndexNote::Drop { id, answer } => put_drop(out, *id, *answer),
        IndexNote::Current { id, answer } => put_current(out, *id, *answer),
    }
}

fn put_list(out: &mut Vec<u8>, rows: &[ListRow]) -> Result<(), Memory>
    ensures { OnOk result (out.new.items ≡ out.old.items ++ note_text (IndexNote.List rows.now)) }
{
    put(out, b"index list = ")?;
    put_rows(out, rows)
}

/// The rows of the index, or `none`.
fn put_rows(out: &mut Vec<u8>, rows: &[ListRow]) -> Result<(), Memory>
    ensures { OnOk result (out.new.items ≡ out.old.items ++ list_text rows.now) }
{
    match rows.split_first() {
        None => put(out, b"none"),
        Some((first, others)) => {
            put_row(out, first)?;
            put_more_rows(out, others)
        }
    }
}

/// Rows with a space before each.
fn put_more_rows(out: &mut Vec<u8>, rows: &[ListRow]) -> Result<(), Memory>
    ensures { OnOk result (out.new.items ≡ out.old.items ++ each_after 32 list_word rows.now) }
{
    for row in rows {
        put(out, b" ")?;
        put_row(out, row)?;
    }
    Ok(())
}

fn put_row(out: &mut Vec<u8>, row: &ListRow) -> Result<(), Memory>
    ensures { OnOk result (out.new.items ≡ out.old.items ++ list_word row.now) }
{
    put_id(out, row.which)?;
    put(out, b"/")?;
    put(out, row.name.bytes())?;
    put_row_end(out, row)
}

/// What follows a row's name: its state, its flags, and a star where it is marked.
fn put_row_end(out: &mut Vec<u8>, row: &ListRow) -> Result<(), Memory>
    ensures { OnOk result (out.new.items ≡ out.old.items ++ row_end row.now) }
{
    put(out, b"/")?;
    put_state(out, row.failed)?;
    put(out, b"/")?;
    put_flags(out, row.flags)?;
    put_mark(out, row.marked)
}

fn put_mark(out: &mut Vec<u8>, marked: bool) -> Result<(), Memory>
    ensures { OnOk result (out.new.items ≡ out.old.items ++ mark_text marked) }
{
    if marked { put(out, b"*") } else { Ok(()) }
}

/// Whether an entry is flushed or failed.
pub(crate) fn put_state(out: &mut Vec<u8>, failed: bool) -> Result<(), Memory>
    ensures { OnOk result (out.new.items ≡ out.old.items ++ state_text failed) }
{
    match failed {
        true => put(out, b"failed"),
        false => put(out, b"flushed"),
    }
}

fn put_list_fault(out: &mut Vec<u8>, count: u64) -> Result<(), Memory>
    ensures { OnOk result (out.new.items ≡ out.old.items ++ note_text (IndexNote.ListFault count)) }
{
    put(out, b"index list = ")?;
    put_device(out, PREFIX, count)
}

fn put_drop(out: &mut Vec<u8>, id: u32, answer: CommandAnswer) -> Result<(), Memory>
    ensures { OnOk result (out.new.items ≡ out.old.items ++ note_text (IndexNote.Drop id answer)) }
{
    put(out, b"index drop ")?;
    put_number(out, id as u64)?;
    put(out, b" = ")?;
    put_answer(out, answer)
}

fn put_current(out: &mut Vec<u8>, id: u32, answer: CommandAnswer) -> Result<(), Memory>
    ensures { OnOk result (out.new.items ≡ out.old.items ++ note_text (IndexNote.Current id answer)) }
{
    put(out, b"index current ")?;
    put_number(out, id as u64)?;
    put(out, b" = ")?;
    put_answer(out, answer)
}

pub(crate) fn put_halt(
    out: &mut Vec<u8>,
    word: &Option<HaltWord>,
    answer: CommandAnswer,
) -> Result<(), Memory>
    ensures { OnOk result (out.new.items ≡ out.old.items ++ text_of (event.HaltSet word.now answer)) }
{
    put(out, b"halt ")?;
    put_halt_words(out, word)?;
    put(out, b" = ")?;
    put_answer(out, answer)
}

fn put_halt_words(out: &mut Vec<u8>, word: &Option<HaltWord>) -> Result<(), Memory>
    ensures { OnOk result (out.new.items ≡ out.old.items ++ halt_text word.now) }
{
    match word {
        None => put(out, b"clear"),
        Some(HaltWord::Checkpoints { left }) => put_counted(out, b"checkpoints ", *left as u64),
        Some(HaltWord::Before { at }) => put_counted(out, b"before ", *at),
        Some(HaltWord::After { at }) => put_counted(out, b"after ", *at),
        Some(HaltWord::Seconds { seconds }) => put_counted(out, b"seconds ", *seconds),
        Some(HaltWord::Reason { name }) => put_halt_reason(out, name),
    }
}

/// A word, a space and a number; the word comes with its space.
pub(crate) fn put_counted(out: &mut Vec<u8>, word: &[u8], number: u64) -> Result<(), Memory>
    ensures { OnOk result (out.new.items ≡ out.old.items ++ (word.now ++ decimal number)) }
{
    put(out, word)?;
    put_number(out, number)
}

fn put_halt_reason(out: &mut Vec<u8>, name: &Name) -> Result<(), Memory>
    ensures { OnOk result (out.new.items ≡ out.old.items ++ halt_text (Some (HaltWord.Reason name.now))) }
{
    put(out, b"reason ")?;
    put(out, name.bytes())
}
