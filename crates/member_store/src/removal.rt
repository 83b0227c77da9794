//! The removal of a member's files.
ghost use Rattle.std.specs.Prelude.{◌≡◌, ℕ, List, Some, length, map, IfOk, OnOk, OnErr};
ghost use Rattle.scr_base.specs.Stages.{passed, is_over};
ghost use Rattle.scr_base.specs.declared.change.Change.TheVariants.{Remove};
ghost use Rattle.node_device.specs.DeviceState.{IsAscending, IsUnchanged};
ghost use Rattle.node_device.specs.Answers.{HasDeviceCause, NamesAnswers};
ghost use Rattle.member_store.specs.Calls.{Drops, IsDropStage, IsDropStageOf};
ghost use Rattle.member_store.specs.DropSteps.{Picks, MayRemoveNext, RemovesNext};

use crate::device_name::DeviceName;
use crate::part_names::is_part_name;
use node_device::{DevError, Device};
use scr_base::{Bytes, Change, Copies, DataId, Memory, Stage};
use std::alloc::Global;
use std::collections::VecDeque;

/// Removes one file of a member, its record last; true exactly where nothing is left to do. A stage serves one member
/// alone. Where nothing else changed that member's files since the stage was new, that is exactly where none of them is
/// left, and the record is the last. `Failed`; `NoFile` exactly where the file that comes next isn't there; `Memory`.
pub fn drop_step<D: Device>(
    alloc: Global,
    dev: &mut D,
    which: DataId,
    node: u8,
    stage: &mut Stage,
) -> Result<bool, DevError>
    requires { IsDropStageOf which node stage.old }
    ensures { Drops which node result stage.old stage.new (D.state dev.old) (D.state dev.new) }
{
    if !stage.is_new() {
        return remove_next(dev, stage);
    }
    let mut begun = Stage::new();
    begun.begin(removals(alloc, dev, which, node)?);
    let over = remove_next(dev, &mut begun)?;
    *stage = begun;
    Ok(over)
}

/// Removes the file that comes next, if there is one; true exactly where none is left.
fn remove_next<D: Device>(dev: &mut D, stage: &mut Stage) -> Result<bool, DevError>
    requires { MayRemoveNext stage.old }
    ensures made { RemovesNext stage.old result (D.state dev.old) (D.state dev.new) }
    ensures passed { OnOk result (stage.new ≡ passed stage.old) }
    ensures over { IfOk result (λ over. over ≡ is_over stage.new) }
    ensures refused { OnErr result (stage.new ≡ stage.old) }
{
    if let Some(Change::Remove { name }) = stage.next() {
        dev.remove(name.list())?;
        stage.pass();
    }
    Ok(stage.is_over())
}

/// The removals of a member's files, its record's the last.
fn removals<D: Device>(
    alloc: Global,
    dev: &mut D,
    which: DataId,
    node: u8,
) -> Result<VecDeque<Change>, DevError>
    ensures answer { NamesAnswers result }
    ensures found { IfOk result (λ changes. IsDropStage which node (D.state dev.old) (Some changes.items)) }
    ensures same { IsUnchanged (D.state dev.old) (D.state dev.new) }
    ensures cause { HasDeviceCause (D.state dev.old) (D.state dev.new) result }
{
    let names = dev.names()?;
    Ok(removals_among(alloc, which, node, &names)?)
}

/// The removals of those files among these that are of a member. The record's goes to the back.
fn removals_among(
    alloc: Global,
    which: DataId,
    node: u8,
    names: &[Bytes],
) -> Result<VecDeque<Change>, Memory>
    requires { IsAscending names.now }
    ensures { IfOk result (λ changes. (picked : List (List ℕ)) × (changes.items ≡ map Remove picked) × Picks which node names.now (length names.now) picked) }
{
    let record = DeviceName::of_record(which, node);
    let mut changes = VecDeque::new(alloc);
    for name in names {
        if name.list() == record.bytes() {
            let name = name.copy(alloc)?;
            changes.push_back(Change::Remove { name })?;
        } else if is_part_name(which, node, name.list()) {
            let name = name.copy(alloc)?;
            changes.push_front(Change::Remove { name })?;
        }
    }
    Ok(changes)
}
