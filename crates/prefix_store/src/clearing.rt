//! The removal of the files under a folder.
ghost use Rattle.std.specs.Prelude.{◌≡◌, ℕ, List, Some, length, map, IfOk, OnOk, OnErr};
ghost use Rattle.scr_base.specs.Stages.{passed, is_over};
ghost use Rattle.scr_base.specs.declared.change.Change.TheVariants.{Remove};
ghost use Rattle.node_device.specs.DeviceState.{IsAscending, IsUnchanged};
ghost use Rattle.node_device.specs.Answers.{HasDeviceCause, NamesAnswers};
ghost use Rattle.prefix_store.specs.Calls.{Clears, IsClearStageOf};
ghost use Rattle.prefix_store.specs.ClearSteps.{AreRemovalsUnder, Picks, MayRemoveNext, RemovesNext};

use crate::under::is_under;
use node_device::{DevError, Device};
use scr_base::{Bytes, Change, Copies, Memory, Name, Stage};
use std::alloc::Global;
use std::collections::VecDeque;

/// Removes one file under the folder of a name; true exactly where nothing is left to do. A stage serves one folder alone.
/// Where nothing else changed the folder's files since the stage was new, that is exactly where none is left under it.
/// `Failed`; `NoFile` exactly where the file that comes next isn't there; `Memory`.
pub fn clear_step<D: Device>(
    alloc: Global,
    dev: &mut D,
    name: &Name,
    stage: &mut Stage,
) -> Result<bool, DevError>
    requires { IsClearStageOf name.now stage.old }
    ensures { Clears name.now result stage.old stage.new (D.state dev.old) (D.state dev.new) }
{
    if !stage.is_new() {
        return remove_next(dev, stage);
    }
    let mut begun = Stage::new();
    begun.begin(removals_under(alloc, dev, name)?);
    let over = remove_next(dev, &mut begun)?;
    *stage = begun;
    Ok(over)
}

/// Removes the file that comes next, if there is one; true exactly where none is left.
fn remove_next<D: Device>(dev: &mut D, stage: &mut Stage) -> Result<bool, DevError>
    requires { MayRemoveNext stage.old }
    ensures made { RemovesNext stage.old result (D.state dev.old) (D.state dev.new) }
    ensures passed { OnOk result (stage.new ≡ passed stage.old) }
    ensures over { IfOk result (λ over. over ≡ is_over stage.new) }
    ensures refused { OnErr result (stage.new ≡ stage.old) }
{
    if let Some(Change::Remove { name }) = stage.next() {
        dev.remove(name.list())?;
        stage.pass();
    }
    Ok(stage.is_over())
}

/// The removals of the files under the folder of a name, for a stage to begin with. `Failed`; `Memory`.
pub fn removals_under<D: Device>(
    alloc: Global,
    dev: &mut D,
    name: &Name,
) -> Result<VecDeque<Change>, DevError>
    ensures answer { NamesAnswers result }
    ensures found { IfOk result (λ changes. AreRemovalsUnder name.now (D.state dev.old) changes.items) }
    ensures same { IsUnchanged (D.state dev.old) (D.state dev.new) }
    ensures cause { HasDeviceCause (D.state dev.old) (D.state dev.new) result }
{
    let names = dev.names()?;
    Ok(removals_among(alloc, name.bytes(), &names)?)
}

/// The removals of those files among these that are under a folder.
fn removals_among(alloc: Global, folder: &[u8], names: &[Bytes]) -> Result<VecDeque<Change>, Memory>
    requires { IsAscending names.now }
    ensures { IfOk result (λ changes. (picked : List (List ℕ)) × (changes.items ≡ map Remove picked) × Picks folder.now names.now (length names.now) picked) }
{
    let mut changes = VecDeque::new(alloc);
    for name in names {
        if is_under(folder, name.list()) {
            let name = name.copy(alloc)?;
            changes.push_back(Change::Remove { name })?;
        }
    }
    Ok(changes)
}
