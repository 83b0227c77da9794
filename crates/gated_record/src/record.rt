ghost use Rattle.std.specs.Prelude.{◌≡◌, ◌<◌, ◌≤◌, ◌+◌, ◌^◌, ◌++◌, ℕ, List, length, set, true, Some, OnOk, OnErr, IfOk, IsSomeAnd};
ghost use Rattle.std.specs.Int.{to_be_bytes, w64};
ghost use Rattle.node_device.specs.File.{IsAtRest, Torn, bytes_of};
ghost use Rattle.node_device.specs.DeviceState.{IsDeviceName, IsUnchanged, ChangesOnly, ReadsAlike, used_of};
ghost use Rattle.node_device.specs.Answers.{HasDeviceCause, IsSpared, WriteAnswers, SyncAnswers, NamesAnswers};
ghost use Rattle.gated_record.specs.Record.{HasBody, HasShutGates, HasPlace, KeepsBody, IsOpen, BodyAnswers, gates_of, open_gate_byte};
ghost use Rattle.gated_record.specs.Calls.{TurnsGate};

use node_device::{DevError, Device};
use scr_base::Bytes;
use std::alloc::{AllocError, Global};

pub(crate) const OPEN: u8 = 0x4F;

const SHUT: u8 = 0;

/// What a file reads as.
#[derive(Debug, Drop)]
pub enum Loaded {
    /// There is no file.
    Absent,
    /// Gate 0 is closed.
    Shut,
    /// Gate 0 is open, and the file is too short for a record or for its body.
    Foreign,
    /// Gate 0 is open, and the body is whole. Bit g of `gates` is gate g.
    Standing { gates: u8, body: Bytes },
}

/// The length of a body, and the body.
fn framed(alloc: Global, body: &[u8]) -> Result<Vec<u8>, AllocError>
    requires { length body.now ≤ 1048576 }
    ensures { IfOk result (λ v. v.items ≡ to_be_bytes w64 (length body.now) ++ body.now) }
{
    let mut all = Vec::new(alloc);
    all.extend_from_slice(&(body.len() as u64).to_be_bytes())?;
    all.extend_from_slice(body)?;
    Ok(all)
}

/// Writes the body of a record, by one write. Where its gates are shut, they stay shut. `Failed`; `Full` exactly where the
/// write passes the capacity; `Memory`.
pub fn write_body<D: Device>(
    alloc: Global,
    dev: &mut D,
    name: &[u8],
    body: &[u8],
) -> Result<(), DevError>
    requires name { IsDeviceName name.now }
    requires size { length body.now ≤ 1048576 }
    ensures answer { BodyAnswers (D.state dev.old) name.now (length body.now) result }
    ensures body { (D.state dev.old).tells ≡ true → OnOk result (HasBody ((D.state dev.new).file name.now).now body.now) }
    ensures len { OnOk result (IsSomeAnd ((D.state dev.new).file name.now).len (λ len. 16 + length body.now ≤ len)) }
    ensures shut { HasShutGates ((D.state dev.old).file name.now) → HasShutGates ((D.state dev.new).file name.now) }
    ensures torn { Torn 8 (8 + length body.now) ((D.state dev.old).file name.now) ((D.state dev.new).file name.now) }
    ensures refused { OnErr result (ReadsAlike (D.state dev.old) (D.state dev.new)) }
    ensures spared { IsSpared (D.state dev.old) (D.state dev.new) result }
    ensures only { ChangesOnly name.now (D.state dev.old) (D.state dev.new) }
    ensures cause { HasDeviceCause (D.state dev.old) (D.state dev.new) result }
{
    let all = framed(alloc, body)?;
    dev.write(name, 8, &all)
}

/// Opens a gate, by one write of one byte. Where the body was whole and stable before, a stop leaves it whole. Where the file
/// is longer than the gate's place, `Failed` alone. Elsewhere the write makes the file as long as that: `Full` exactly where
/// that passes the capacity; `Memory`.
pub fn open_gate<D: Device>(dev: &mut D, name: &[u8], gate: u8) -> Result<(), DevError>
    requires name { IsDeviceName name.now }
    requires gate { gate < 8 }
    ensures answer { WriteAnswers ((D.state dev.old).file name.now) (used_of (D.state dev.old)) (D.state dev.old).capacity gate 1 result }
    ensures failed_alone { HasPlace ((D.state dev.old).file name.now) gate → SyncAnswers result }
    ensures len { HasPlace ((D.state dev.old).file name.now) gate → ((D.state dev.new).file name.now).len ≡ ((D.state dev.old).file name.now).len }
    ensures now { HasPlace ((D.state dev.old).file name.now) gate → (D.state dev.old).tells ≡ true → OnOk result (((D.state dev.new).file name.now).now ≡ Some (set (bytes_of ((D.state dev.old).file name.now).now) gate open_gate_byte)) }
    ensures torn { Torn gate 1 ((D.state dev.old).file name.now) ((D.state dev.new).file name.now) }
    ensures kept { IsAtRest ((D.state dev.old).file name.now) → (body : List ℕ) → HasBody ((D.state dev.old).file name.now).now body → KeepsBody ((D.state dev.new).file name.now) body }
    ensures refused { OnErr result (ReadsAlike (D.state dev.old) (D.state dev.new)) }
    ensures spared { IsSpared (D.state dev.old) (D.state dev.new) result }
    ensures only { ChangesOnly name.now (D.state dev.old) (D.state dev.new) }
    ensures cause { HasDeviceCause (D.state dev.old) (D.state dev.new) result }
{
    turn_gate(dev, name, gate, OPEN)
}

/// Closes a gate, by one write of one byte. Where the body was whole and stable before, a stop leaves it whole. Where the file
/// is longer than the gate's place, `Failed` alone. Elsewhere the write makes the file as long as that: `Full` exactly where
/// that passes the capacity; `Memory`.
pub fn close_gate<D: Device>(dev: &mut D, name: &[u8], gate: u8) -> Result<(), DevError>
    requires name { IsDeviceName name.now }
    requires gate { gate < 8 }
    ensures answer { WriteAnswers ((D.state dev.old).file name.now) (used_of (D.state dev.old)) (D.state dev.old).capacity gate 1 result }
    ensures failed_alone { HasPlace ((D.state dev.old).file name.now) gate → SyncAnswers result }
    ensures len { HasPlace ((D.state dev.old).file name.now) gate → ((D.state dev.new).file name.now).len ≡ ((D.state dev.old).file name.now).len }
    ensures now { HasPlace ((D.state dev.old).file name.now) gate → (D.state dev.old).tells ≡ true → OnOk result (((D.state dev.new).file name.now).now ≡ Some (set (bytes_of ((D.state dev.old).file name.now).now) gate 0)) }
    ensures torn { Torn gate 1 ((D.state dev.old).file name.now) ((D.state dev.new).file name.now) }
    ensures kept { IsAtRest ((D.state dev.old).file name.now) → (body : List ℕ) → HasBody ((D.state dev.old).file name.now).now body → KeepsBody ((D.state dev.new).file name.now) body }
    ensures refused { OnErr result (ReadsAlike (D.state dev.old) (D.state dev.new)) }
    ensures spared { IsSpared (D.state dev.old) (D.state dev.new) result }
    ensures only { ChangesOnly name.now (D.state dev.old) (D.state dev.new) }
    ensures cause { HasDeviceCause (D.state dev.old) (D.state dev.new) result }
{
    turn_gate(dev, name, gate, SHUT)
}

/// Writes the byte of a gate.
fn turn_gate<D: Device>(dev: &mut D, name: &[u8], gate: u8, byte: u8) -> Result<(), DevError>
    requires name { IsDeviceName name.now }
    requires gate { gate < 8 }
    ensures turns { TurnsGate name.now gate byte result (D.state dev.old) (D.state dev.new) }
    ensures kept { IsAtRest ((D.state dev.old).file name.now) → (body : List ℕ) → HasBody ((D.state dev.old).file name.now).now body → KeepsBody ((D.state dev.new).file name.now) body }
{
    dev.write(name, gate as u64, &[byte])
}

/// The open gates as a number.
pub(crate) fn gates_from(bytes: &[u8]) -> u8
    requires { length bytes.now ≤ 8 }
    ensures is { result ≡ gates_of bytes.now }
    ensures below { result < 2 ^ length bytes.now }
{
    match bytes {
        [] => 0,
        [first, rest @ ..] => u8::from(*first == OPEN) + 2 * gates_from(rest),
    }
}

impl Loaded {
    ghost use Rattle.gated_record.specs.Loads.{LoadsAs};

    /// Reads a record whose gate 0 is open, of a file that has this length.
    fn of_open<D: Device>(
        alloc: Global,
        dev: &mut D,
        name: &[u8],
        len: u64,
    ) -> Result<Loaded, DevError>
        requires name { IsDeviceName name.now }
        requires len { ((D.state dev.old).file name.now).len ≡ Some len }
        requires header { 16 ≤ len }
        requires is_open { (D.state dev.old).tells ≡ true → IsOpen ((D.state dev.old).file name.now).now 0 }
        ensures answer { NamesAnswers result }
        ensures loads { (D.state dev.old).tells ≡ true → IfOk result (LoadsAs ((D.state dev.old).file name.now).now) }
        ensures same { IsUnchanged (D.state dev.old) (D.state dev.new) }
        ensures cause { HasDeviceCause (D.state dev.old) (D.state dev.new) result }
    {
        let mut number = [0u8; 8];
        dev.read(name, 8, &mut number)?;
        let body_len = u64::from_be_bytes(number);
        if body_len > len - 16 {
            return Ok(Loaded::Foreign);
        }
        let mut gates = [0u8; 8];
        dev.read(name, 0, &mut gates)?;
        let mut body = vec![in alloc; 0u8; body_len as usize]?;
        dev.read(name, 16, &mut body)?;
        Ok(Loaded::Standing {
            gates: gates_from(&gates),
            body: Bytes::of(body),
        })
    }

    /// What a file reads as.
    pub fn of_file<D: Device>(alloc: Global, dev: &mut D, name: &[u8]) -> Result<Loaded, DevError>
        requires { IsDeviceName name.now }
        ensures answer { NamesAnswers result }
        ensures loads { (D.state dev.old).tells ≡ true → IfOk result (LoadsAs ((D.state dev.old).file name.now).now) }
        ensures same { IsUnchanged (D.state dev.old) (D.state dev.new) }
        ensures cause { HasDeviceCause (D.state dev.old) (D.state dev.new) result }
    {
        let len = match dev.size(name) {
            Ok(len) => len,
            Err(DevError::NoFile) => return Ok(Loaded::Absent),
            Err(fault) => return Err(fault),
        };
        if len == 0 {
            return Ok(Loaded::Shut);
        }
        let mut gate = [0u8; 1];
        dev.read(name, 0, &mut gate)?;
        if gate[0] != OPEN {
            return Ok(Loaded::Shut);
        }
        if len < 16 {
            return Ok(Loaded::Foreign);
        }
        Loaded::of_open(alloc, dev, name, len)
    }
}
