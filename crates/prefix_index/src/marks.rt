//! The mark: the entry to restart from.
ghost use Rattle.std.specs.Prelude.{◌≡◌, ◌≢◌, ◌&&◌, not, None, Some, true, fold, IfOk, IfSome, IsNone};
ghost use Rattle.scr_base.specs.Index.{marked, later_id, is_id_among};
ghost use Rattle.scr_base.specs.Same.{same_id};
ghost use Rattle.scr_base.specs.declared.shape.DataId.{DataId};
ghost use Rattle.node_device.specs.DeviceState.{IsUnchanged};
ghost use Rattle.node_device.specs.Answers.{HasDeviceCause, NamesAnswers};
ghost use Rattle.prefix_index.specs.Marks.{mark_tree, mark_of, stored_mark, flushed_ids, IsSmall};
ghost use Rattle.prefix_index.specs.Calls.{IsMark, TellsMark};

use crate::listing::entries;
use crate::{Entry, IndexError};
use gated_record::pair_load;
use kvtree::{Tree, TreeError};
use node_device::{DevError, Device};
use scr_base::{DataId, Memory};
use std::alloc::Global;

/// The marked entry where it is flushed, else the flushed one with the largest id. `Device`; `Memory`.
pub fn mark<D: Device>(alloc: Global, dev: &mut D) -> Result<Option<DataId>, IndexError>
    ensures { TellsMark result (D.state dev.old) (D.state dev.new) }
{
    match told_mark(alloc, dev) {
        Ok(which) => Ok(which),
        Err(fault) => Err(IndexError::of(dev, fault)),
    }
}

/// The marked entry, or the last flushed one. `Failed`; `Memory`.
fn told_mark<D: Device>(alloc: Global, dev: &mut D) -> Result<Option<DataId>, DevError>
    ensures answer { NamesAnswers result }
    ensures mark { (D.state dev.old).tells ≡ true → IfOk result (IsMark (D.state dev.old)) }
    ensures same { IsUnchanged (D.state dev.old) (D.state dev.new) }
    ensures cause { HasDeviceCause (D.state dev.old) (D.state dev.new) result }
{
    let found = stored(alloc, dev)?;
    let known = entries(alloc, dev)?;
    Ok(marked_among(found, &known))
}

/// The mark that the pair `cur` tells. `Failed`; `Memory`.
fn stored<D: Device>(alloc: Global, dev: &mut D) -> Result<Option<DataId>, DevError>
    ensures answer { NamesAnswers result }
    ensures stored { (D.state dev.old).tells ≡ true → IfOk result (λ which. which ≡ stored_mark (D.state dev.old)) }
    ensures same { IsUnchanged (D.state dev.old) (D.state dev.new) }
    ensures cause { HasDeviceCause (D.state dev.old) (D.state dev.new) result }
{
    match pair_load(alloc, dev, b"cur")? {
        None => Ok(None),
        Some(value) => Ok(spelled_by(alloc, value.body.list())?),
    }
}

/// The identity that a payload spells, if it spells one.
fn spelled_by(alloc: Global, payload: &[u8]) -> Result<Option<DataId>, Memory>
    ensures { IfOk result (λ which. which ≡ mark_of payload.now) }
{
    match Tree::decode(alloc, payload) {
        Ok(tree) => Ok(told_by(&tree)),
        Err(TreeError::Memory) => Err(Memory),
        Err(_) => Ok(None),
    }
}

/// The identity that a tree tells, if it tells one and nothing else.
fn told_by(tree: &Tree) -> Option<DataId>
    ensures told { IfSome result (λ which. tree.now ≡ mark_tree which) }
    ensures small { IfSome result IsSmall }
    ensures none { IsNone result → (which : DataId) → IsSmall which → tree.now ≢ mark_tree which }
{
    let under_id = tree.child_under(0, b"ID")?;
    let under_run = tree.child_under(1, b"RUN")?;
    let id = under_id.only_number()?;
    let run = under_run.only_number()?;
    if tree.width() != 2 {
        return None;
    }
    Some(DataId { id, run })
}

/// The stored mark where it is one of the flushed entries, else the flushed one with the largest id.
fn marked_among(stored: Option<DataId>, entries: &[Entry]) -> Option<DataId>
    ensures { result ≡ marked stored (flushed_ids entries.now) }
{
    match stored {
        Some(which) => {
            if is_flushed(entries, which) {
                Some(which)
            } else {
                last_flushed(entries)
            }
        }
        None => last_flushed(entries),
    }
}

/// Is this one of the flushed entries?
fn is_flushed(entries: &[Entry], which: DataId) -> bool
    ensures { result ≡ is_id_among (flushed_ids entries.now) which }
{
    for entry in entries {
        if is_flushed_as(entry, which) {
            return true;
        }
    }
    false
}

/// Is this entry flushed, and of this identity?
fn is_flushed_as(entry: &Entry, which: DataId) -> bool
    ensures { result ≡ (not entry.now.failed && same_id which entry.now.desc.which) }
{
    let own = entry.desc.which;
    !entry.failed && (which.id == own.id && which.run == own.run)
}

/// The flushed entry with the largest id.
fn last_flushed(entries: &[Entry]) -> Option<DataId>
    ensures { result ≡ fold later_id None (flushed_ids entries.now) }
{
    let mut last = None;
    for entry in entries {
        if !entry.failed {
            last = Some(later(last, entry.desc.which));
        }
    }
    last
}

/// The one of the larger id; the first where they are equal.
fn later(last: Option<DataId>, which: DataId) -> DataId
    ensures { later_id last which ≡ Some result }
{
    match last {
        None => which,
        Some(last) => { if last.id < which.id { which } else { last } }
    }
}
