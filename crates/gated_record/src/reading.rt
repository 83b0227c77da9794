ghost use Rattle.std.specs.Prelude.{◌≡◌, ◌≤◌, true, Some, IfOk};
ghost use Rattle.node_device.specs.DeviceState.{IsDeviceName, IsUnchanged};
ghost use Rattle.node_device.specs.Answers.{HasDeviceCause, NamesAnswers};
ghost use Rattle.gated_record.specs.Loads.{LoadsAs, HoldsRecord};

use crate::Loaded;
use crate::record::gates_from;
use node_device::{DevError, Device};
use scr_base::Bytes;
use std::alloc::Global;

/// What a file reads as. `Failed`; `Memory`.
pub fn load<D: Device>(alloc: Global, dev: &mut D, name: &[u8]) -> Result<Loaded, DevError>
    requires { IsDeviceName name.now }
    ensures answer { NamesAnswers result }
    ensures loads { (D.state dev.old).tells ≡ true → IfOk result (LoadsAs ((D.state dev.old).file name.now).now) }
    ensures same { IsUnchanged (D.state dev.old) (D.state dev.new) }
    ensures cause { HasDeviceCause (D.state dev.old) (D.state dev.new) result }
{
    Loaded::of_file(alloc, dev, name)
}

/// A whole record, whatever its gates.
#[derive(Debug, Drop)]
pub struct Record {
    /// Bit g is set where gate g is open.
    pub gates: u8,
    pub body: Bytes,
}

/// The record that a file is, also where its gates are closed; none where there is no file, or where it is too short for a
/// record or for its body. `Failed`; `Memory`.
pub fn read_record<D: Device>(
    alloc: Global,
    dev: &mut D,
    name: &[u8],
) -> Result<Option<Record>, DevError>
    requires { IsDeviceName name.now }
    ensures answer { NamesAnswers result }
    ensures record { (D.state dev.old).tells ≡ true → IfOk result (HoldsRecord ((D.state dev.old).file name.now).now) }
    ensures same { IsUnchanged (D.state dev.old) (D.state dev.new) }
    ensures cause { HasDeviceCause (D.state dev.old) (D.state dev.new) result }
{
    let len = match dev.size(name) {
        Ok(len) => len,
        Err(DevError::NoFile) => return Ok(None),
        Err(fault) => return Err(fault),
    };
    if len < 16 {
        return Ok(None);
    }
    record_of(alloc, dev, name, len)
}

/// The record that a file of this length is, if its body is whole.
fn record_of<D: Device>(
    alloc: Global,
    dev: &mut D,
    name: &[u8],
    len: u64,
) -> Result<Option<Record>, DevError>
    requires name { IsDeviceName name.now }
    requires len { ((D.state dev.old).file name.now).len ≡ Some len }
    requires header { 16 ≤ len }
    ensures answer { NamesAnswers result }
    ensures record { (D.state dev.old).tells ≡ true → IfOk result (HoldsRecord ((D.state dev.old).file name.now).now) }
    ensures same { IsUnchanged (D.state dev.old) (D.state dev.new) }
    ensures cause { HasDeviceCause (D.state dev.old) (D.state dev.new) result }
{
    let mut number = [0u8; 8];
    dev.read(name, 8, &mut number)?;
    let body_len = u64::from_be_bytes(number);
    if body_len > len - 16 {
        return Ok(None);
    }
    let mut gates = [0u8; 8];
    dev.read(name, 0, &mut gates)?;
    let mut body = vec![in alloc; 0u8; body_len as usize]?;
    dev.read(name, 16, &mut body)?;
    Ok(Some(Record {
        gates: gates_from(&gates),
        body: Bytes::of(body),
    }))
}
