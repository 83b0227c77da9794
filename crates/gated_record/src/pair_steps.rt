//! A pair's way from one value to the next, one change a call.
ghost use Rattle.std.specs.Prelude.{◌≡◌, ◌≢◌, ◌≤◌, ◌<◌, ◌+◌, ◌-◌, ◌^◌, ◌++◌, ◌∷◌, [], ℕ, List, length, true, false, Option, None, Some, OnOk, OnErr, IfOk, IsOk, IsTrue, ◌↔◌, unwrap_or};
ghost use Rattle.scr_base.specs.Stages.{passed};
ghost use Rattle.node_device.specs.DeviceState.{IsDeviceName, IsUnchanged};
ghost use Rattle.node_device.specs.Answers.{HasDeviceCause, NamesAnswers};
ghost use Rattle.gated_record.specs.Record.{is_open};
ghost use Rattle.gated_record.specs.Pair.{copy_of, copy_name, pair_body};
ghost use Rattle.gated_record.specs.PairStages.{IsStageOf, HasGate, closings, open_from, ending};
ghost use Rattle.gated_record.specs.PairSteps.{Closes, Begins, Finds, MayStep, StepMade, StepsPair};
ghost use Rattle.scr_base.specs.declared.change.Change.{Change};
ghost use Rattle.scr_base.specs.declared.change.Change.TheVariants.{Open, Write, Sync};
ghost use Rattle.gated_record.specs.declared.pair.PairValue.{PairValue};

use crate::making::make;
use crate::pair::{PairValue, copy_name, load_copy};
use crate::record::OPEN;
use node_device::{DevError, Device};
use scr_base::{Bytes, Change, Memory, Stage};
use std::alloc::Global;
use std::collections::VecDeque;

/// A name of one's own.
fn own(alloc: Global, name: &[u8]) -> Result<Bytes, Memory>
    ensures { IfOk result (λ own. own ≡ name.now) }
{
    Ok(Bytes::of(Vec::from_slice(alloc, name)?))
}

/// The length of a file, and 0 where there is none.
fn len_of<D: Device>(dev: &mut D, name: &[u8]) -> Result<u64, DevError>
    requires { IsDeviceName name.now }
    ensures answer { NamesAnswers result }
    ensures len { IfOk result (λ len. len ≡ unwrap_or ((D.state dev.old).file name.now).len 0) }
    ensures same { IsUnchanged (D.state dev.old) (D.state dev.new) }
    ensures cause { HasDeviceCause (D.state dev.old) (D.state dev.new) result }
{
    match dev.size(name) {
        Ok(len) => Ok(len),
        Err(DevError::NoFile) => Ok(0),
        Err(fault) => Err(fault),
    }
}

/// Is gate 0 of a file open?
fn is_open<D: Device>(dev: &mut D, name: &[u8]) -> Result<bool, DevError>
    requires { IsDeviceName name.now }
    ensures answer { NamesAnswers result }
    ensures gate { IfOk result (λ found. found ≡ true → HasGate ((D.state dev.old).file name.now) 0) }
    ensures told { (D.state dev.old).tells ≡ true → IfOk result (λ found. found ≡ is_open ((D.state dev.old).file name.now).now 0) }
    ensures same { IsUnchanged (D.state dev.old) (D.state dev.new) }
    ensures cause { HasDeviceCause (D.state dev.old) (D.state dev.new) result }
{
    if len_of(dev, name)? == 0 {
        return Ok(false);
    }
    let mut gate = [0u8; 1];
    dev.read(name, 0, &mut gate)?;
    Ok(gate[0] == OPEN)
}

/// Closes each open gate of a file, gate 0 first.
fn closings<D: Device>(
    alloc: Global,
    dev: &mut D,
    name: &[u8],
) -> Result<VecDeque<Change>, DevError>
    requires { IsDeviceName name.now }
    ensures answer { NamesAnswers result }
    ensures closes { IfOk result (λ changes. Closes name.now (D.state dev.old) changes.items) }
    ensures same { IsUnchanged (D.state dev.old) (D.state dev.new) }
    ensures cause { HasDeviceCause (D.state dev.old) (D.state dev.new) result }
{
    let len = len_of(dev, name)?.min(8);
    if len == 0 {
        return Ok(VecDeque::new(alloc));
    }
    let mut front = vec![in alloc; 0u8; len as usize]?;
    dev.read(name, 0, &mut front)?;
    Ok(closing(alloc, name, &front)?)
}

/// Closes each gate that these bytes say is open.
fn closing(alloc: Global, name: &[u8], front: &[u8]) -> Result<VecDeque<Change>, Memory>
    requires { length front.now ≤ 8 }
    ensures { IfOk result (λ changes. changes.items ≡ closings name.now (open_from 0 front.now)) }
{
    let mut changes = VecDeque::new(alloc);
    let mut gate = 0;
    for byte in front {
        if *byte == OPEN {
            let name = own(alloc, name)?;
            changes.push_back(Change::Close { name, gate })?;
        }
        gate += 1;
    }
    Ok(changes)
}

/// Is this the wanted value?
fn is_wanted(standing: &Option<PairValue>, want: &PairValue) -> bool
    ensures { IsTrue result ↔ (standing.now ≡ Some want.now) }
{
    match standing {
        None => false,
        Some(value) => value.version == want.version && value.body.list() == want.body.list(),
    }
}

/// The changes that make the wanted value stand in its copy, up to its last sync.
fn beginning<D: Device>(
    alloc: Global,
    dev: &mut D,
    copy: u8,
    name: &[u8],
    want: &PairValue,
) -> Result<VecDeque<Change>, DevError>
    requires { IsDeviceName name.now }
    ensures answer { NamesAnswers result }
    ensures begins { IfOk result (λ changes. Begins copy name.now want.now (D.state dev.old) changes.items) }
    ensures same { IsUnchanged (D.state dev.old) (D.state dev.new) }
    ensures cause { HasDeviceCause (D.state dev.old) (D.state dev.new) result }
{
    let standing = load_copy(alloc, dev, copy, name)?;
    if is_wanted(&standing, want) {
        return Ok(VecDeque::new(alloc));
    }
    let mut changes = closings(alloc, dev, name)?;
    filling(alloc, &mut changes, name)?;
    Ok(changes)
}

/// Fills a copy whose gates are shut, and opens it.
fn filling(alloc: Global, changes: &mut VecDeque<Change>, name: &[u8]) -> Result<(), Memory>
    ensures { OnOk result (changes.new.items ≡ changes.old.items ++ Sync ∷ Write name.now ∷ Sync ∷ Open name.now 0 ∷ []) }
{
    changes.push_back(Change::Sync)?;
    let owned = own(alloc, name)?;
    changes.push_back(Change::Write { name: owned })?;
    changes.push_back(Change::Sync)?;
    let owned = own(alloc, name)?;
    changes.push_back(Change::Open {
        name: owned,
        gate: 0,
    })?;
    Ok(())
}

/// Makes the wanted value's gate stable, and closes the other copy where its gate is open.
fn ending(
    alloc: Global,
    changes: &mut VecDeque<Change>,
    other: &[u8],
    gate: bool,
) -> Result<(), Memory>
    ensures { OnOk result (changes.new.items ≡ changes.old.items ++ Sync ∷ ending other.now gate) }
{
    changes.push_back(Change::Sync)?;
    if gate {
        let name = own(alloc, other)?;
        changes.push_back(Change::Close { name, gate: 0 })?;
        changes.push_back(Change::Sync)?;
    }
    Ok(())
}

/// The changes that are left of the way to the wanted value.
fn changes_to<D: Device>(
    alloc: Global,
    dev: &mut D,
    stem: &[u8],
    copy: u8,
    want: &PairValue,
) -> Result<VecDeque<Change>, DevError>
    requires stem { length stem.now ≤ 158 }
    requires copy { copy ≡ copy_of want.now }
    ensures answer { NamesAnswers result }
    ensures finds { IfOk result (λ changes. Finds stem.now (copy_of want.now) want.now (D.state dev.old) changes.items) }
    ensures same { IsUnchanged (D.state dev.old) (D.state dev.new) }
    ensures cause { HasDeviceCause (D.state dev.old) (D.state dev.new) result }
{
    let other = copy_name(alloc, stem, 1 - copy)?;
    let gate = is_open(dev, other.list())?;
    let name = copy_name(alloc, stem, copy)?;
    let mut changes = beginning(alloc, dev, copy, name.list(), want)?;
    ending(alloc, &mut changes, other.list(), gate)?;
    Ok(changes)
}

/// Makes the change that comes next, if there is one.
fn step<D: Device>(
    alloc: Global,
    dev: &mut D,
    want: &PairValue,
    stage: &mut Stage,
) -> Result<(), DevError>
    requires { MayStep stage.old (pair_body want.now) }
    ensures made { StepMade stage.old (pair_body want.now) result (D.state dev.old) (D.state dev.new) }
    ensures passed { OnOk result (stage.new ≡ passed stage.old) }
    ensures refused { OnErr result (stage.new ≡ stage.old) }
{
    match stage.next() {
        None => Ok(()),
        Some(change) => match make(alloc, dev, change, want) {
            Ok(()) => {
                stage.pass();
                Ok(())
            }
            Err(fault) => Err(fault),
        },
    }
}

/// Makes one change, at most, towards a wanted value, from the value that stands or from none; true exactly where nothing is
/// left to do. The changes come in this order: each open gate of the copy that the version belongs in is closed, gate 0
/// first; a sync; its body is written; a sync; its gate 0 is opened; a sync; the other copy's gate 0 is closed where it is
/// open; a sync. A stage serves one pair and one wanted value alone. Where nothing else changed the pair's files since the
/// stage was new, and every stop would have left the old value then: whatever a stop leaves, the old value stands or the
/// wanted one, and at the end the wanted value stands, stable, and the other copy is shut, stable; until the body is written,
/// each file keeps its length. `Failed`; `Full` where a write passes the capacity, there exactly that of the body; `Memory`.
pub fn pair_step<D: Device>(
    alloc: Global,
    dev: &mut D,
    stem: &[u8],
    want: &PairValue,
    stage: &mut Stage,
) -> Result<bool, DevError>
    requires stem { length stem.now ≤ 158 }
    requires version { 1 ≤ want.now.version }
    requires short { length want.now.body ≤ 1048572 }
    requires stage { IsStageOf stem.now stage.old }
    ensures { StepsPair stem.now want.now result stage.old stage.new (D.state dev.old) (D.state dev.new) }
{
    let copy = want.copy();
    if !stage.is_new() {
        return match step(alloc, dev, want, stage) {
            Ok(()) => Ok(stage.is_over()),
            Err(fault) => Err(fault),
        };
    }
    match changes_to(alloc, dev, stem, copy, want) {
        Ok(changes) => begin(alloc, dev, stem, want, stage, changes),
        Err(fault) => Err(fault),
    }
}

/// Makes the first of the changes that were found.
fn begin<D: Device>(
    alloc: Global,
    dev: &mut D,
    stem: &[u8],
    want: &PairValue,
    stage: &mut Stage,
    changes: VecDeque<Change>,
) -> Result<bool, DevError>
    requires stem { length stem.now ≤ 158 }
    requires version { 1 ≤ want.now.version }
    requires short { length want.now.body ≤ 1048572 }
    requires fits { want.now.version < 2 ^ 32 }
    requires new { stage.old ≡ None }
    requires found { Finds stem.now (copy_of want.now) want.now (D.state dev.old) changes.items }
    ensures { StepsPair stem.now want.now result stage.old stage.new (D.state dev.old) (D.state dev.new) }
{
    let mut begun = Stage::new();
    begun.begin(changes);
    match step(alloc, dev, want, &mut begun) {
        Ok(()) => {
            let over = begun.is_over();
            *stage = begun;
            Ok(over)
        }
        Err(fault) => Err(fault),
    }
}
