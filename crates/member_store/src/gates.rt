//! The record of a member and its gates.
ghost use Rattle.std.specs.Prelude.{◌≡◌, ◌<◌, ◌≤◌, ◌*◌, length};
ghost use Rattle.node_device.specs.DeviceState.{IsDeviceName};
ghost use Rattle.gated_record.specs.Calls.{WritesBody, TurnsGate};
ghost use Rattle.member_store.specs.Members.{member_body};
ghost use Rattle.member_store.specs.Calls.{WritesMember, SetsGate, gate_number, gate_byte};

use crate::device_name::DeviceName;
use crate::tree::member_body;
use dataset_desc::Desc;
use filemap::Filemap;
use gated_record::{close_gate, open_gate, write_body};
use node_device::{DevError, Device};
use scr_base::DataId;
use std::alloc::Global;

/// A gate of a member's record.
#[derive(Clone, Copy, Debug, PartialEq, Eq)]
pub enum MemberGate {
    /// The member's files and shares stand.
    Whole,
    /// The dataset is complete on all nodes.
    Sealed,
}

impl MemberGate {
    fn number(self) -> u8
        ensures is { result ≡ gate_number self }
        ensures below { result < 8 }
    {
        match self {
            MemberGate::Whole => 0,
            MemberGate::Sealed => 1,
        }
    }
}

/// Writes the body of a member's record, by one write. Where its gates are shut, they stay so. `Failed`; `Full` exactly
/// where the write passes the capacity; `Memory`.
pub fn write_member<D: Device>(
    alloc: Global,
    dev: &mut D,
    which: DataId,
    node: u8,
    desc: &Desc,
    files: &Filemap,
) -> Result<(), DevError>
    ensures { WritesMember which node desc.now files.now result (D.state dev.old) (D.state dev.new) }
{
    let name = DeviceName::of_record(which, node);
    let body = member_body(alloc, node, desc, files)?;
    fill(alloc, dev, name.bytes(), body.list())
}

/// Writes the body of a record.
fn fill<D: Device>(alloc: Global, dev: &mut D, name: &[u8], body: &[u8]) -> Result<(), DevError>
    requires name { IsDeviceName name.now }
    requires size { length body.now ≤ 1048576 }
    ensures { WritesBody name.now body.now result (D.state dev.old) (D.state dev.new) }
{
    write_body(alloc, dev, name, body)
}

/// Opens a gate of a member's record, or closes it, by one write of one byte. Where the file is longer than the gate's
/// place it takes no memory and no room: `Failed` alone. Elsewhere it makes the file as long as that: `Full` exactly where
/// that passes the capacity; `Memory`.
pub fn set_gate<D: Device>(
    dev: &mut D,
    which: DataId,
    node: u8,
    gate: MemberGate,
    up: bool,
) -> Result<(), DevError>
    ensures { SetsGate which node gate up result (D.state dev.old) (D.state dev.new) }
{
    let name = DeviceName::of_record(which, node);
    turn(dev, name.bytes(), gate.number(), up)
}

/// Opens or closes a gate of a record.
fn turn<D: Device>(dev: &mut D, name: &[u8], gate: u8, up: bool) -> Result<(), DevError>
    requires name { IsDeviceName name.now }
    requires gate { gate < 8 }
    ensures { TurnsGate name.now gate (gate_byte up) result (D.state dev.old) (D.state dev.new) }
{
    if up {
        open_gate(dev, name, gate)
    } else {
        close_gate(dev, name, gate)
    }
}
