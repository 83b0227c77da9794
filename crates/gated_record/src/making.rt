//! One change to a device, as a stage tells it.
ghost use Rattle.std.specs.Prelude.{◌≤◌, length};
ghost use Rattle.node_device.specs.DeviceState.{IsDeviceName};
ghost use Rattle.gated_record.specs.Pair.{pair_body};
ghost use Rattle.gated_record.specs.Calls.{WritesBody};
ghost use Rattle.gated_record.specs.Changes.{MayMake, Makes};

use crate::pair::PairValue;
use crate::record::{close_gate, open_gate, write_body};
use node_device::{DevError, Device};
use scr_base::Change;
use std::alloc::Global;

/// Makes a change; a body that is written is that of the wanted value.
pub(crate) fn make<D: Device>(
    alloc: Global,
    dev: &mut D,
    change: &Change,
    want: &PairValue,
) -> Result<(), DevError>
    requires { MayMake change.now (pair_body want.now) }
    ensures { Makes change.now (pair_body want.now) result (D.state dev.old) (D.state dev.new) }
{
    match change {
        Change::Open { name, gate } => open_gate(dev, name.list(), *gate),
        Change::Close { name, gate } => close_gate(dev, name.list(), *gate),
        Change::Write { name } => fill(alloc, dev, name.list(), want),
        Change::Sync => dev.sync(),
        Change::Remove { name } => dev.remove(name.list()),
    }
}

/// Writes the body of the wanted value.
fn fill<D: Device>(
    alloc: Global,
    dev: &mut D,
    name: &[u8],
    want: &PairValue,
) -> Result<(), DevError>
    requires name { IsDeviceName name.now }
    requires short { length (pair_body want.now) ≤ 1048576 }
    ensures { WritesBody name.now (pair_body want.now) result (D.state dev.old) (D.state dev.new) }
{
    let body = want.framed(alloc)?;
    write_body(alloc, dev, name, body.list())
}
