//! The files and shares of a member.
ghost use Rattle.std.specs.Prelude.{◌≡◌, length, IfOk};
ghost use Rattle.member_store.specs.Names.{part_name};
ghost use Rattle.member_store.specs.Calls.{WritesPart, ReadsPart};

use crate::device_name::DeviceName;
use crate::part::Part;
use node_device::{DevError, Device};
use scr_base::{Bytes, DataId, Memory};
use std::alloc::Global;

/// The name of the file of a part.
pub fn part_file_name(alloc: Global, which: DataId, node: u8, part: Part) -> Result<Bytes, Memory>
    ensures { IfOk result (λ name. name ≡ part_name which node part) }
{
    let name = DeviceName::of_part(which, node, part);
    Ok(Bytes::of(Vec::from_slice(alloc, name.bytes())?))
}

/// Writes at a place of a part, and takes no memory of its own. It answers as the device's own write: `Failed`; `Range`;
/// `Full`; `Memory`.
pub fn write_part<D: Device>(
    dev: &mut D,
    which: DataId,
    node: u8,
    part: Part,
    at: u64,
    bytes: &[u8],
) -> Result<(), DevError>
    ensures { WritesPart which node part at bytes.now result (D.state dev.old) (D.state dev.new) }
{
    let name = DeviceName::of_part(which, node, part);
    dev.write(name.bytes(), at, bytes)
}

/// Fills `into` with a part's bytes from a place on. It answers as the device's own read: `Failed`; `NoFile`; `Range`.
pub fn read_part<D: Device>(
    dev: &mut D,
    which: DataId,
    node: u8,
    part: Part,
    at: u64,
    into: &mut [u8],
) -> Result<(), DevError>
    ensures { ReadsPart which node part at (length into.old) into.new result (D.state dev.old) (D.state dev.new) }
{
    let name = DeviceName::of_part(which, node, part);
    dev.read(name.bytes(), at, into)
}
