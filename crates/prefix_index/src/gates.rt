//! The gates of index records.
ghost use Rattle.std.specs.Prelude.{◌<◌};
ghost use Rattle.node_device.specs.DeviceState.{IsDeviceName};
ghost use Rattle.gated_record.specs.Record.{open_gate_byte};
ghost use Rattle.gated_record.specs.Calls.{TurnsGate};
ghost use Rattle.prefix_index.specs.Calls.{OpensGate};

use crate::IndexError;
use crate::entry_name::EntryName;
use gated_record::open_gate;
use node_device::{DevError, Device};
use scr_base::DataId;

/// Opens the gate `indexed` of a dataset's record, by one write of one byte: it is an entry of the index then. Where the
/// record is there, `Device` alone. Elsewhere the write makes its file: `Full` where that passes the capacity; `Memory`.
pub fn add_gate<D: Device>(dev: &mut D, which: DataId) -> Result<(), IndexError>
    ensures { OpensGate which 0 result (D.state dev.old) (D.state dev.new) }
{
    opened(dev, which, 0)
}

/// Opens the gate `failed` of a dataset's record, by one write of one byte: its entry is failed then. Where the record is
/// there, `Device` alone. Elsewhere the write makes its file: `Full` where that passes the capacity; `Memory`.
pub fn fail_gate<D: Device>(dev: &mut D, which: DataId) -> Result<(), IndexError>
    ensures { OpensGate which 1 result (D.state dev.old) (D.state dev.new) }
{
    opened(dev, which, 1)
}

/// Opens a gate of a dataset's record.
fn opened<D: Device>(dev: &mut D, which: DataId, gate: u8) -> Result<(), IndexError>
    requires { gate < 8 }
    ensures { OpensGate which gate result (D.state dev.old) (D.state dev.new) }
{
    let name = EntryName::of(which);
    match turn(dev, name.bytes(), gate) {
        Ok(()) => Ok(()),
        Err(fault) => Err(IndexError::of(dev, fault)),
    }
}

/// Opens a gate of a record.
fn turn<D: Device>(dev: &mut D, name: &[u8], gate: u8) -> Result<(), DevError>
    requires name { IsDeviceName name.now }
    requires gate { gate < 8 }
    ensures { TurnsGate name.now gate open_gate_byte result (D.state dev.old) (D.state dev.new) }
{
    open_gate(dev, name, gate)
}
