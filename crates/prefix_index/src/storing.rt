//! The mark is stored.
ghost use Rattle.std.specs.Prelude.{◌≡◌, ◌≤◌, codes, length, true, IfOk, MatchOption};
ghost use Rattle.node_device.specs.DeviceState.{IsUnchanged};
ghost use Rattle.node_device.specs.Answers.{HasDeviceCause, NamesAnswers};
ghost use Rattle.gated_record.specs.PairStages.{IsStageOf};
ghost use Rattle.gated_record.specs.PairNext.{StepsNext};
ghost use Rattle.prefix_index.specs.Marks.{mark_tree, mark_payload};
ghost use Rattle.prefix_index.specs.Storing.{NoneIsFlushed, FirstIsFlushed, FindsFlushed, StepsMark, MarksEntry};

use crate::listing::entries;
use crate::{Entry, IndexError};
use gated_record::pair_next_step;
use kvtree::Tree;
use node_device::{DevError, Device};
use scr_base::{Bytes, DataId, Memory, Stage};
use std::alloc::Global;

/// Makes one change, at most, towards a stored mark: the first entry of an id that isn't failed, in the pair `cur`; true exactly
/// where nothing is left to do. A stage serves one mark alone. `NoEntry` exactly where no entry of the id is flushed; `Device`;
/// `Full` where a write of the pair passes the capacity; `Memory`. Whatever a stop leaves, the mark of before is stored or this one.
pub fn current_step<D: Device>(
    alloc: Global,
    dev: &mut D,
    id: u32,
    stage: &mut Stage,
) -> Result<bool, IndexError>
    requires { IsStageOf (codes "cur") stage.old }
    ensures step { MarksEntry id result stage.old stage.new (D.state dev.old) (D.state dev.new) }
    ensures stage { IsStageOf (codes "cur") stage.new }
{
    match flushed_of(alloc, dev, id) {
        Ok(Some(which)) => store(alloc, dev, which, stage),
        Ok(None) => Err(IndexError::NoEntry),
        Err(fault) => Err(IndexError::of(dev, fault)),
    }
}

/// The first entry of an id that isn't failed.
fn flushed_of<D: Device>(alloc: Global, dev: &mut D, id: u32) -> Result<Option<DataId>, DevError>
    ensures answer { NamesAnswers result }
    ensures found { (D.state dev.old).tells ≡ true → IfOk result (FindsFlushed id (D.state dev.old)) }
    ensures same { IsUnchanged (D.state dev.old) (D.state dev.new) }
    ensures cause { HasDeviceCause (D.state dev.old) (D.state dev.new) result }
{
    let known = entries(alloc, dev)?;
    Ok(first_flushed(&known, id))
}

/// The first of these entries that has an id and isn't failed.
fn first_flushed(entries: &[Entry], id: u32) -> Option<DataId>
    ensures { MatchOption result (NoneIsFlushed entries.now id) (FirstIsFlushed entries.now id) }
{
    for entry in entries {
        if entry.desc.which.id == id && !entry.failed {
            return Some(entry.desc.which);
        }
    }
    None
}

/// Makes one change, at most, towards a mark.
fn store<D: Device>(
    alloc: Global,
    dev: &mut D,
    which: DataId,
    stage: &mut Stage,
) -> Result<bool, IndexError>
    requires { IsStageOf (codes "cur") stage.old }
    ensures { StepsMark which result stage.old stage.new (D.state dev.old) (D.state dev.new) }
{
    match put_mark(alloc, dev, which, stage) {
        Ok(over) => Ok(over),
        Err(fault) => Err(IndexError::of(dev, fault)),
    }
}

/// Makes one change, at most, towards a mark's payload in the pair `cur`. `Failed`; `Full`; `Memory`.
fn put_mark<D: Device>(
    alloc: Global,
    dev: &mut D,
    which: DataId,
    stage: &mut Stage,
) -> Result<bool, DevError>
    requires { IsStageOf (codes "cur") stage.old }
    ensures { StepsNext (codes "cur") (mark_payload which) result stage.old stage.new (D.state dev.old) (D.state dev.new) }
{
    match payload_of(alloc, which) {
        Ok(payload) => pair_next_step(alloc, dev, b"cur", payload.list(), stage),
        Err(fault) => Err(DevError::from(fault)),
    }
}

/// The payload that spells an identity.
fn payload_of(alloc: Global, which: DataId) -> Result<Bytes, Memory>
    ensures payload { IfOk result (λ payload. payload ≡ mark_payload which) }
    ensures short { IfOk result (λ payload. length payload ≤ 1048572) }
{
    let payload = tree_of(alloc, which)?.encode()?;
    Ok(payload)
}

/// The tree that tells an identity.
fn tree_of(alloc: Global, which: DataId) -> Result<Tree, Memory>
    ensures { IfOk result (λ tree. tree ≡ mark_tree which) }
{
    let mut tree = Tree::empty(alloc);
    tree.put(b"ID", Tree::number(alloc, which.id)?)?;
    tree.put(b"RUN", Tree::number(alloc, which.run)?)?;
    Ok(tree)
}
