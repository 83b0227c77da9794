// The calls on a bay's devices that the moves are made of.
ghost use Rattle.std.specs.Prelude.{◌≡◌, ◌≤◌, ◌<◌, ◌*◌, true, [], codes, length};
ghost use Rattle.node_device.specs.Rack.{states_of, OnlyAt};
ghost use Rattle.member_store.specs.Calls.{Drops, Scans, WritesPart, ReadsPart, WritesMember, SetsGate};
ghost use Rattle.gated_record.specs.PairSteps.{StepsPair};
ghost use Rattle.site_calls.specs.Numbers.{LoadsNumber, LoadsHalt};

use crate::removal::Removal;
use crate::storing::Storing;
use dataset_desc::Desc;
use filemap::Filemap;
use gated_record::{PairValue, pair_load};
use halt_file::Halt;
use member_store::{Member, MemberGate, Part, read_part, scan, set_gate, write_member, write_part};
use node_device::{Bay, DevError, Device};
use scr_base::{DataId, Shape};
use std::alloc::Global;

/// The value of the pair `run`.
pub(crate) fn load_number<D: Device>(
    alloc: Global,
    bay: &mut Bay<D>,
) -> Result<Option<PairValue>, DevError>
    ensures { OnlyAt 32 (LoadsNumber result) (states_of D.state bay.old) (states_of D.state bay.new) }
{
    pair_load(alloc, bay.device(32), b"run")
}

/// The conditions that the pair `halt` tells.
pub(crate) fn load_halt<D: Device>(alloc: Global, bay: &mut Bay<D>) -> Result<Halt, DevError>
    ensures { OnlyAt 32 (LoadsHalt result) (states_of D.state bay.old) (states_of D.state bay.new) }
{
    halt_file::load(alloc, bay.device(32))
}

/// One change, at most, that brings a run's number to the prefix.
pub(crate) fn step_number<D: Device>(
    alloc: Global,
    bay: &mut Bay<D>,
    storing: &mut Storing,
) -> Result<bool, DevError>
    ensures want { storing.new.want ≡ storing.old.want }
    ensures plain { storing.old.want.body ≡ [] }
    ensures steps { OnlyAt 32 (StepsPair (codes "run") storing.old.want result storing.old.changes storing.new.changes) (states_of D.state bay.old) (states_of D.state bay.new) }
{
    storing.step(alloc, bay.device(32))
}

/// The members that a node holds.
pub(crate) fn scan_at<D: Device>(
    alloc: Global,
    bay: &mut Bay<D>,
    place: u8,
    shape: Shape,
) -> Result<Vec<Member>, DevError>
    requires { place ≤ 32 }
    ensures { OnlyAt place (Scans shape result) (states_of D.state bay.old) (states_of D.state bay.new) }
{
    scan(alloc, bay.device(place), shape)
}

/// Writes at a place of a file.
pub(crate) fn write_part_at<D: Device>(
    bay: &mut Bay<D>,
    place: u8,
    which: DataId,
    node: u8,
    part: Part,
    at: u64,
    bytes: &[u8],
) -> Result<(), DevError>
    requires { place ≤ 32 }
    ensures { OnlyAt place (WritesPart which node part at bytes.now result) (states_of D.state bay.old) (states_of D.state bay.new) }
{
    write_part(bay.device(place), which, node, part, at, bytes)
}

/// Reads from a place of a file on.
pub(crate) fn read_part_at<D: Device>(
    bay: &mut Bay<D>,
    place: u8,
    which: DataId,
    node: u8,
    part: Part,
    at: u64,
    into: &mut [u8],
) -> Result<(), DevError>
    requires { place ≤ 32 }
    ensures { OnlyAt place (ReadsPart which node part at (length into.old) into.new result) (states_of D.state bay.old) (states_of D.state bay.new) }
{
    read_part(bay.device(place), which, node, part, at, into)
}

/// Writes a node's record, with its gates closed.
pub(crate) fn write_member_at<D: Device>(
    alloc: Global,
    bay: &mut Bay<D>,
    place: u8,
    node: u8,
    desc: &Desc,
    files: &Filemap,
) -> Result<(), DevError>
    requires place { place ≤ 32 }
    requires node { node < desc.now.nodes }
    requires ranks { length files.now ≡ desc.now.nodes * desc.now.ranks }
    ensures { OnlyAt place (WritesMember desc.now.which node desc.now files.now result) (states_of D.state bay.old) (states_of D.state bay.new) }
{
    write_member(alloc, bay.device(place), desc.which, node, desc, files)
}

/// Opens a gate of a node's record.
pub(crate) fn open_gate_at<D: Device>(
    bay: &mut Bay<D>,
    place: u8,
    which: DataId,
    node: u8,
    gate: MemberGate,
) -> Result<(), DevError>
    requires { place ≤ 32 }
    ensures { OnlyAt place (SetsGate which node gate true result) (states_of D.state bay.old) (states_of D.state bay.new) }
{
    set_gate(bay.device(place), which, node, gate, true)
}

/// Removes one file of a member, at most.
pub(crate) fn drop_file_at<D: Device>(
    alloc: Global,
    bay: &mut Bay<D>,
    place: u8,
    removal: &mut Removal,
) -> Result<bool, DevError>
    requires { place ≤ 32 }
    ensures which { removal.new.which ≡ removal.old.which }
    ensures node { removal.new.node ≡ removal.old.node }
    ensures drops { OnlyAt place (Drops removal.old.which removal.old.node result removal.old.changes removal.new.changes) (states_of D.state bay.old) (states_of D.state bay.new) }
{
    removal.step(alloc, bay.device(place))
}
