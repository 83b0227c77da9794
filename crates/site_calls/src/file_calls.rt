// What the moves do to a bay's devices, with the refusals as the site's.
ghost use Rattle.std.specs.Prelude.{◌≡◌, ◌≤◌, ◌<◌, ◌+◌, ◌*◌, ℕ, List, IfOk, IfErr, OnOk, OnErr, true, false, length, codes, take, drop};
ghost use Rattle.node_device.specs.File.{bytes_of};
ghost use Rattle.node_device.specs.Rack.{states_of, OnlyAt};
ghost use Rattle.gated_record.specs.Record.{HasPlace};
ghost use Rattle.gated_record.specs.PairSteps.{StepsPair};
ghost use Rattle.member_store.specs.Calls.{gate_number};
ghost use Rattle.member_store.specs.Names.{record_name, part_name};
ghost use Rattle.member_store.specs.Members.{AreMembers, member_body};
ghost use Rattle.site_calls.specs.Calls.{TellsAlike, Same, Written, Synced, Recorded, Turned, Refused, Unrecorded, Unturned, Unnumbered, KeptAlike, FileDropped};
ghost use Rattle.site_calls.specs.Causes.{CallCause, is_device_fault};
ghost use Rattle.site_calls.specs.Writes.{IsWrite, IsNoWrite, PassesOn, WayWrites, MayWayWrite};
ghost use Rattle.halt_file.specs.Conditions.{conditions};
ghost use Rattle.site_calls.specs.Numbers.{run_number};
ghost use Rattle.gated_record.specs.Pair.{pair_now};
ghost use Rattle.halt_file.specs.Stores as stores;

use crate::bay_calls::{
    drop_file_at, load_halt, load_number, open_gate_at, read_part_at, scan_at, step_number,
    write_member_at, write_part_at,
};
use crate::removal::Removal;
use crate::storing::Storing;
use crate::trouble::{Trouble, trouble_at};
use dataset_desc::Desc;
use filemap::Filemap;
use halt_file::Halt;
use member_store::{Member, MemberGate, Part};
use node_device::{Bay, DevError, Device};
use scr_base::{DataId, Shape};
use std::alloc::Global;

/// The number of the last run, 0 for none.
pub fn last_run<D: Device>(alloc: Global, bay: &mut Bay<D>) -> Result<u32, Trouble>
    ensures run { IfOk result (λ run. (states_of D.state bay.old 32).tells ≡ true → run ≡ run_number (pair_now (codes "run") (states_of D.state bay.old 32))) }
    ensures refused { OnErr result (OnlyAt 32 KeptAlike (states_of D.state bay.old) (states_of D.state bay.new)) }
    ensures same { OnOk result (OnlyAt 32 Same (states_of D.state bay.old) (states_of D.state bay.new)) }
    ensures cause { CallCause IsNoWrite (states_of D.state bay.old) (states_of D.state bay.new) result }
    ensures spared { IfErr result (λ trouble. is_device_fault trouble ≡ false → states_of D.state bay.new ≡ states_of D.state bay.old) }
    ensures tells { TellsAlike (states_of D.state bay.old) (states_of D.state bay.new) }
{
    match load_number(alloc, bay) {
        Ok(None) => Ok(0),
        Ok(Some(value)) => Ok(value.version),
        Err(error) => Err(trouble_at(bay, 32, error)),
    }
}

/// The conditions on which jobs are to stop.
pub fn halt_now<D: Device>(alloc: Global, bay: &mut Bay<D>) -> Result<Halt, Trouble>
    ensures halt { IfOk result (λ halt. (states_of D.state bay.old 32).tells ≡ true → conditions halt ≡ stores.halt_now (states_of D.state bay.old 32)) }
    ensures refused { OnErr result (OnlyAt 32 KeptAlike (states_of D.state bay.old) (states_of D.state bay.new)) }
    ensures same { OnOk result (OnlyAt 32 Same (states_of D.state bay.old) (states_of D.state bay.new)) }
    ensures cause { CallCause IsNoWrite (states_of D.state bay.old) (states_of D.state bay.new) result }
    ensures spared { IfErr result (λ trouble. is_device_fault trouble ≡ false → states_of D.state bay.new ≡ states_of D.state bay.old) }
    ensures tells { TellsAlike (states_of D.state bay.old) (states_of D.state bay.new) }
{
    match load_halt(alloc, bay) {
        Ok(halt) => Ok(halt),
        Err(error) => Err(trouble_at(bay, 32, error)),
    }
}

/// One change, at most, that brings a run's number to the prefix; true exactly where nothing is left to do.
pub fn store_number<D: Device>(
    alloc: Global,
    bay: &mut Bay<D>,
    storing: &mut Storing,
) -> Result<bool, Trouble>
    ensures want { storing.new.want ≡ storing.old.want }
    ensures stays { OnErr result (storing.new ≡ storing.old) }
    ensures refused { OnErr result (OnlyAt 32 (Unnumbered storing.old.want storing.old.changes) (states_of D.state bay.old) (states_of D.state bay.new)) }
    ensures steps { IfOk result (λ over. OnlyAt 32 (λ a b. StepsPair (codes "run") storing.old.want (Rattle.std.specs.Prelude.Ok over) storing.old.changes storing.new.changes a b) (states_of D.state bay.old) (states_of D.state bay.new)) }
    ensures cause { CallCause (MayWayWrite storing.old) (states_of D.state bay.old) (states_of D.state bay.new) result }
    ensures spared { IfErr result (λ trouble. is_device_fault trouble ≡ false → states_of D.state bay.new ≡ states_of D.state bay.old) }
    ensures fits { OnOk result ((p at count : ℕ) → (name : List ℕ) → WayWrites storing.old p name at count → PassesOn (states_of D.state bay.old) p name at count → ⊥) }
    ensures tells { TellsAlike (states_of D.state bay.old) (states_of D.state bay.new) }
{
    let used = bay.used_at(32);
    match step_number(alloc, bay, storing) {
        Ok(over) => Ok(over),
        Err(DevError::Full) => Err(Trouble::Full {
            node: 32,
            used,
            capacity: bay.capacity_at(32),
        }),
        Err(error) => Err(trouble_at(bay, 32, error)),
    }
}

/// The members that a node holds.
pub fn members_at<D: Device>(
    alloc: Global,
    bay: &mut Bay<D>,
    place: u8,
    shape: Shape,
) -> Result<Vec<Member>, Trouble>
    requires { place < 32 }
    ensures members { IfOk result (λ members. (states_of D.state bay.old place).tells ≡ true → AreMembers shape (states_of D.state bay.old place) members.items) }
    ensures same { OnOk result (OnlyAt place Same (states_of D.state bay.old) (states_of D.state bay.new)) }
    ensures refused { OnErr result (OnlyAt place KeptAlike (states_of D.state bay.old) (states_of D.state bay.new)) }
    ensures cause { CallCause IsNoWrite (states_of D.state bay.old) (states_of D.state bay.new) result }
    ensures spared { IfErr result (λ trouble. is_device_fault trouble ≡ false → states_of D.state bay.new ≡ states_of D.state bay.old) }
    ensures tells { TellsAlike (states_of D.state bay.old) (states_of D.state bay.new) }
{
    match scan_at(alloc, bay, place, shape) {
        Ok(members) => Ok(members),
        Err(error) => Err(trouble_at(bay, place, error)),
    }
}

/// Writes at a place of a rank's file.
pub fn put_part<D: Device>(
    bay: &mut Bay<D>,
    place: u8,
    which: DataId,
    node: u8,
    part: Part,
    at: u64,
    bytes: &[u8],
) -> Result<(), Trouble>
    requires { place < 32 }
    ensures written { OnOk result (OnlyAt place (Written (part_name which node part) at bytes.now) (states_of D.state bay.old) (states_of D.state bay.new)) }
    ensures refused { OnErr result (OnlyAt place (Refused (part_name which node part)) (states_of D.state bay.old) (states_of D.state bay.new)) }
    ensures cause { CallCause (IsWrite place (part_name which node part) at (length bytes.now)) (states_of D.state bay.old) (states_of D.state bay.new) result }
    ensures spared { IfErr result (λ trouble. is_device_fault trouble ≡ false → states_of D.state bay.new ≡ states_of D.state bay.old) }
    ensures fits { OnOk result (PassesOn (states_of D.state bay.old) place (part_name which node part) at (length bytes.now) → ⊥) }
    ensures tells { TellsAlike (states_of D.state bay.old) (states_of D.state bay.new) }
{
    match write_part_at(bay, place, which, node, part, at, bytes) {
        Ok(()) => Ok(()),
        Err(error) => Err(trouble_at(bay, place, error)),
    }
}

/// Reads from a place of a rank's file on.
pub fn get_part<D: Device>(
    bay: &mut Bay<D>,
    place: u8,
    which: DataId,
    node: u8,
    part: Part,
    at: u64,
    into: &mut [u8],
) -> Result<(), Trouble>
    requires { place < 32 }
    ensures bytes { OnOk result ((states_of D.state bay.old place).tells ≡ true → into.new ≡ take (length into.old) (drop at (bytes_of ((states_of D.state bay.old place).file (part_name which node part)).now))) }
    ensures same { OnOk result (OnlyAt place Same (states_of D.state bay.old) (states_of D.state bay.new)) }
    ensures refused { OnErr result (OnlyAt place KeptAlike (states_of D.state bay.old) (states_of D.state bay.new)) }
    ensures cause { CallCause IsNoWrite (states_of D.state bay.old) (states_of D.state bay.new) result }
    ensures spared { IfErr result (λ trouble. is_device_fault trouble ≡ false → states_of D.state bay.new ≡ states_of D.state bay.old) }
    ensures tells { TellsAlike (states_of D.state bay.old) (states_of D.state bay.new) }
{
    match read_part_at(bay, place, which, node, part, at, into) {
        Ok(()) => Ok(()),
        Err(error) => Err(trouble_at(bay, place, error)),
    }
}

/// Writes a node's record, with its gates closed.
pub fn put_member<D: Device>(
    alloc: Global,
    bay: &mut Bay<D>,
    place: u8,
    node: u8,
    desc: &Desc,
    files: &Filemap,
) -> Result<(), Trouble>
    requires place { place < 32 }
    requires node { node < desc.now.nodes }
    requires ranks { length files.now ≡ desc.now.nodes * desc.now.ranks }
    ensures refused { OnErr result (OnlyAt place (Unrecorded (record_name desc.now.which node)) (states_of D.state bay.old) (states_of D.state bay.new)) }
    ensures recorded { OnOk result (OnlyAt place (Recorded (record_name desc.now.which node) (member_body desc.now node files.now)) (states_of D.state bay.old) (states_of D.state bay.new)) }
    ensures cause { CallCause (IsWrite place (record_name desc.now.which node) 8 (8 + length (member_body desc.now node files.now))) (states_of D.state bay.old) (states_of D.state bay.new) result }
    ensures spared { IfErr result (λ trouble. is_device_fault trouble ≡ false → states_of D.state bay.new ≡ states_of D.state bay.old) }
    ensures fits { OnOk result (PassesOn (states_of D.state bay.old) place (record_name desc.now.which node) 8 (8 + length (member_body desc.now node files.now)) → ⊥) }
    ensures tells { TellsAlike (states_of D.state bay.old) (states_of D.state bay.new) }
{
    match write_member_at(alloc, bay, place, node, desc, files) {
        Ok(()) => Ok(()),
        Err(error) => Err(trouble_at(bay, place, error)),
    }
}

/// Opens a gate of a node's record.
pub fn put_gate<D: Device>(
    bay: &mut Bay<D>,
    place: u8,
    which: DataId,
    node: u8,
    gate: MemberGate,
) -> Result<(), Trouble>
    requires { place < 32 }
    ensures turned { OnOk result (OnlyAt place (Turned (record_name which node) (gate_number gate)) (states_of D.state bay.old) (states_of D.state bay.new)) }
    ensures refused { OnErr result (OnlyAt place (Unturned (record_name which node) (gate_number gate)) (states_of D.state bay.old) (states_of D.state bay.new)) }
    ensures cause { CallCause (IsWrite place (record_name which node) (gate_number gate) 1) (states_of D.state bay.old) (states_of D.state bay.new) result }
    ensures spared { IfErr result (λ trouble. is_device_fault trouble ≡ false → states_of D.state bay.new ≡ states_of D.state bay.old) }
    ensures fits { OnOk result (PassesOn (states_of D.state bay.old) place (record_name which node) (gate_number gate) 1 → ⊥) }
    ensures alone { HasPlace ((states_of D.state bay.old place).file (record_name which node)) (gate_number gate) → IfErr result (λ trouble. is_device_fault trouble ≡ true) }
    ensures tells { TellsAlike (states_of D.state bay.old) (states_of D.state bay.new) }
{
    match open_gate_at(bay, place, which, node, gate) {
        Ok(()) => Ok(()),
        Err(error) => Err(trouble_at(bay, place, error)),
    }
}

/// Makes a node stable.
pub fn sync_node<D: Device>(bay: &mut Bay<D>, place: u8) -> Result<(), Trouble>
    requires { place < 32 }
    ensures refused { OnErr result (OnlyAt place KeptAlike (states_of D.state bay.old) (states_of D.state bay.new)) }
    ensures synced { OnOk result (OnlyAt place Synced (states_of D.state bay.old) (states_of D.state bay.new)) }
    ensures cause { CallCause IsNoWrite (states_of D.state bay.old) (states_of D.state bay.new) result }
    ensures spared { IfErr result (λ trouble. is_device_fault trouble ≡ false → states_of D.state bay.new ≡ states_of D.state bay.old) }
    ensures tells { TellsAlike (states_of D.state bay.old) (states_of D.state bay.new) }
{
    match bay.sync_at(place) {
        Ok(()) => Ok(()),
        Err(error) => Err(trouble_at(bay, place, error)),
    }
}

/// Removes one file of a member, at most; true exactly where nothing is left to do.
pub fn drop_file<D: Device>(
    alloc: Global,
    bay: &mut Bay<D>,
    place: u8,
    removal: &mut Removal,
) -> Result<bool, Trouble>
    requires { place < 32 }
    ensures which { removal.new.which ≡ removal.old.which }
    ensures node { removal.new.node ≡ removal.old.node }
    ensures dropped { IfOk result (λ over. OnlyAt place (FileDropped removal.old.which removal.old.node over removal.old.changes removal.new.changes) (states_of D.state bay.old) (states_of D.state bay.new)) }
    ensures stays { OnErr result (removal.new ≡ removal.old) }
    ensures refused { OnErr result (OnlyAt place KeptAlike (states_of D.state bay.old) (states_of D.state bay.new)) }
    ensures cause { CallCause IsNoWrite (states_of D.state bay.old) (states_of D.state bay.new) result }
    ensures spared { IfErr result (λ trouble. is_device_fault trouble ≡ false → states_of D.state bay.new ≡ states_of D.state bay.old) }
    ensures tells { TellsAlike (states_of D.state bay.old) (states_of D.state bay.new) }
{
    match drop_file_at(alloc, bay, place, removal) {
        Ok(over) => Ok(over),
        Err(error) => Err(trouble_at(bay, place, error)),
    }
}
