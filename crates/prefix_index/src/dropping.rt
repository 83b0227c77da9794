//! An entry is taken out of the index.
ghost use Rattle.std.specs.Prelude.{◌≡◌, ◌<◌, ◌^◌, ℕ, List, true, Some, IfOk, IfSome, OnOk, OnErr, MatchOption, All, is_none};
ghost use Rattle.scr_base.specs.Stages.{left, passed, is_over};
ghost use Rattle.node_device.specs.DeviceState.{IsDeviceName, IsUnchanged};
ghost use Rattle.node_device.specs.Answers.{HasDeviceCause, NamesAnswers};
ghost use Rattle.prefix_store.specs.Calls.{AreFilesUnder};
ghost use Rattle.prefix_index.specs.Names.{entry_name};
ghost use Rattle.prefix_index.specs.Drops.{Closing, drop_changes, IsDropChange, MayMakeNext, MakesDrop, MakesNext, RemovesAny, IsDropStageOf, Drops};
ghost use Rattle.prefix_index.specs.DropParts.{FindsDrop, NoneHasId, FirstHasId, HasBegun};

use crate::entry_name::EntryName;
use crate::listing::entries;
use crate::{Entry, IndexError};
use gated_record::close_gate;
use node_device::{DevError, Device};
use prefix_store::removals_under;
use scr_base::{Bytes, Change, Memory, Stage};
use std::alloc::Global;
use std::collections::VecDeque;

/// Makes one change, at most, towards an index without the first entry of an id: its gate `indexed` is closed, that is made
/// stable, the files under its folder are removed, and then its record; true exactly where nothing is left to do. A file that
/// isn't there any more counts as removed. A stage serves one drop alone. `NoEntry` exactly where the stage is new and no entry
/// has the id; `Device`; `Full` where the record isn't there any more when its gate is closed, and that write passes the
/// capacity; `Memory`.
pub fn drop_step<D: Device>(
    alloc: Global,
    dev: &mut D,
    id: u32,
    stage: &mut Stage,
) -> Result<bool, IndexError>
    requires { IsDropStageOf stage.old }
    ensures { Drops id result stage.old stage.new (D.state dev.old) (D.state dev.new) }
{
    if stage.is_new() {
        return first_step(alloc, dev, id, stage);
    }
    match make_next(dev, stage) {
        Ok(over) => Ok(over),
        Err(fault) => Err(IndexError::of(dev, fault)),
    }
}

/// The first change of a drop.
fn first_step<D: Device>(
    alloc: Global,
    dev: &mut D,
    id: u32,
    stage: &mut Stage,
) -> Result<bool, IndexError>
    requires { is_none stage.old ≡ true }
    ensures { Drops id result stage.old stage.new (D.state dev.old) (D.state dev.new) }
{
    let mut begun = match begun(alloc, dev, id) {
        Ok(Some(begun)) => begun,
        Ok(None) => return Err(IndexError::NoEntry),
        Err(fault) => return Err(IndexError::of(dev, fault)),
    };
    match make_next(dev, &mut begun) {
        Ok(over) => {
            *stage = begun;
            Ok(over)
        }
        Err(fault) => Err(IndexError::of(dev, fault)),
    }
}

/// The stage of a drop that knows its changes and has made none; none where no entry has the id.
fn begun<D: Device>(alloc: Global, dev: &mut D, id: u32) -> Result<Option<Stage>, DevError>
    ensures answer { NamesAnswers result }
    ensures found { IfOk result (FindsDrop id (D.state dev.old)) }
    ensures same { IsUnchanged (D.state dev.old) (D.state dev.new) }
    ensures cause { HasDeviceCause (D.state dev.old) (D.state dev.new) result }
{
    let known = entries(alloc, dev)?;
    let Some(entry) = with_id(&known, id) else {
        return Ok(None);
    };
    let mut stage = Stage::new();
    stage.begin(changes_of(alloc, dev, entry)?);
    Ok(Some(stage))
}

/// The first of these entries that has an id.
fn with_id(entries: &[Entry], id: u32) -> Option<&Entry>
    ensures { MatchOption result (NoneHasId entries.now id) (λ e. FirstHasId entries.now id e.now) }
{
    for entry in entries {
        if entry.desc.which.id == id {
            return Some(entry);
        }
    }
    None
}

/// The changes of the drop of an entry.
fn changes_of<D: Device>(
    alloc: Global,
    dev: &mut D,
    entry: &Entry,
) -> Result<VecDeque<Change>, DevError>
    ensures answer { NamesAnswers result }
    ensures changes { IfOk result (λ changes. HasBegun entry.now.desc.which entry.now.desc.name (D.state dev.old) changes.items) }
    ensures same { IsUnchanged (D.state dev.old) (D.state dev.new) }
    ensures cause { HasDeviceCause (D.state dev.old) (D.state dev.new) result }
{
    let mut changes = removals_under(alloc, dev, &entry.desc.name)?;
    let record = EntryName::of(entry.desc.which);
    let name = own(alloc, record.bytes())?;
    changes.push_back(Change::Remove { name })?;
    changes.push_front(Change::Sync)?;
    let name = own(alloc, record.bytes())?;
    changes.push_front(Change::Close { name, gate: 0 })?;
    Ok(changes)
}

/// A name of one's own.
fn own(alloc: Global, name: &[u8]) -> Result<Bytes, Memory>
    ensures { IfOk result (λ own. own ≡ name.now) }
{
    Ok(Bytes::of(Vec::from_slice(alloc, name)?))
}

/// Makes the change that comes next, if there is one; true exactly where none is left.
fn make_next<D: Device>(dev: &mut D, stage: &mut Stage) -> Result<bool, DevError>
    requires { MayMakeNext stage.old }
    ensures made { MakesNext stage.old result (D.state dev.old) (D.state dev.new) }
    ensures passed { OnOk result (stage.new ≡ passed stage.old) }
    ensures over { IfOk result (λ over. over ≡ is_over stage.new) }
    ensures refused { OnErr result (stage.new ≡ stage.old) }
{
    if let Some(change) = stage.next() {
        make(dev, change)?;
        stage.pass();
    }
    Ok(stage.is_over())
}

/// Makes a change of a drop.
fn make<D: Device>(dev: &mut D, change: &Change) -> Result<(), DevError>
    requires { IsDropChange change.now }
    ensures { MakesDrop change.now result (D.state dev.old) (D.state dev.new) }
{
    match change {
        Change::Close { name, gate } => close_gate(dev, name.list(), *gate),
        Change::Sync => dev.sync(),
        Change::Remove { name } => remove_any(dev, name.list()),
        _ => unreachable!(),
    }
}

/// Removes a file, if it is there.
fn remove_any<D: Device>(dev: &mut D, name: &[u8]) -> Result<(), DevError>
    requires { IsDeviceName name.now }
    ensures { RemovesAny name.now result (D.state dev.old) (D.state dev.new) }
{
    match dev.remove(name) {
        Err(DevError::NoFile) => Ok(()),
        told => told,
    }
}
