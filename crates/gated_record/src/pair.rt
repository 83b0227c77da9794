//! Pairs of records, of which one stands.
ghost use Rattle.std.specs.Prelude.{◌≡◌, ◌≤◌, ◌<◌, ◌+◌, ◌++◌, ◌∷◌, ◌^◌, [], length, true, Some, IfOk};
ghost use Rattle.node_device.specs.DeviceState.{IsDeviceName, IsUnchanged};
ghost use Rattle.node_device.specs.Answers.{HasDeviceCause, NamesAnswers};
ghost use Rattle.gated_record.specs.Pair.{copy_name, value_of, value_in, newer, pair_now, pair_body, copy_of};

use crate::reading::load;
use crate::record::Loaded;
use node_device::{DevError, Device};
use scr_base::{Bytes, Memory};
use std::alloc::Global;

/// What stands in a pair.
#[derive(Debug, Drop)]
pub struct PairValue {
    /// Counted from 1. After 4,294,967,295 comes 2.
    pub version: u32,
    pub body: Bytes,
}

impl PairValue {
    /// The body of the record.
    pub(crate) fn framed(&self, alloc: Global) -> Result<Bytes, Memory>
        ensures { IfOk result (λ body. body ≡ pair_body self.now) }
    {
        let mut all = Vec::new(alloc);
        all.extend_from_slice(&self.version.to_be_bytes())?;
        all.extend_from_slice(self.body.list())?;
        Ok(Bytes::of(all))
    }

    /// The copy that the version belongs in.
    pub(crate) fn copy(&self) -> u8
        ensures copy { result ≡ copy_of self.now }
        ensures fits { self.now.version < 2 ^ 32 }
    {
        (self.version % 2) as u8
    }

    /// The value that a body is in a copy, if it is one.
    fn of_body(alloc: Global, copy: u8, body: &[u8]) -> Result<Option<PairValue>, Memory>
        ensures { IfOk result (λ value. value ≡ value_of copy body.now) }
    {
        let Some((head, rest)) = body.split_first_chunk::<4>() else {
            return Ok(None);
        };
        let version = u32::from_be_bytes(*head);
        if version == 0 || version % 2 != copy as u32 {
            return Ok(None);
        }
        Ok(Some(PairValue {
            version,
            body: Bytes::of(Vec::from_slice(alloc, rest)?),
        }))
    }
}

/// The name of a copy.
pub(crate) fn copy_name(alloc: Global, stem: &[u8], copy: u8) -> Result<Bytes, Memory>
    requires { copy < 2 }
    ensures { IfOk result (λ name. name ≡ copy_name stem.now copy) }
{
    let mut name = Vec::from_slice(alloc, stem)?;
    name.push(b'.')?;
    name.push(b'0' + copy)?;
    Ok(Bytes::of(name))
}

/// The value that stands in a copy.
pub(crate) fn load_copy<D: Device>(
    alloc: Global,
    dev: &mut D,
    copy: u8,
    name: &[u8],
) -> Result<Option<PairValue>, DevError>
    requires { IsDeviceName name.now }
    ensures answer { NamesAnswers result }
    ensures value { (D.state dev.old).tells ≡ true → IfOk result (λ value. value ≡ value_in copy ((D.state dev.old).file name.now).now) }
    ensures same { IsUnchanged (D.state dev.old) (D.state dev.new) }
    ensures cause { HasDeviceCause (D.state dev.old) (D.state dev.new) result }
{
    match load(alloc, dev, name)? {
        Loaded::Standing { body, .. } => Ok(PairValue::of_body(alloc, copy, body.list())?),
        Loaded::Absent | Loaded::Shut | Loaded::Foreign => Ok(None),
    }
}

/// The value of the greater version.
fn newer(a: Option<PairValue>, b: Option<PairValue>) -> Option<PairValue>
    ensures { result ≡ newer a b }
{
    match (a, b) {
        (Some(a), Some(b)) => Some(if a.version < b.version { b } else { a }),
        (a, None) => a,
        (None, b) => b,
    }
}

/// The value that stands in a pair, if one does. The stem has at most 158 bytes. `Failed`; `Memory`.
pub fn pair_load<D: Device>(
    alloc: Global,
    dev: &mut D,
    stem: &[u8],
) -> Result<Option<PairValue>, DevError>
    requires { length stem.now ≤ 158 }
    ensures answer { NamesAnswers result }
    ensures value { (D.state dev.old).tells ≡ true → IfOk result (λ value. value ≡ pair_now stem.now (D.state dev.old)) }
    ensures same { IsUnchanged (D.state dev.old) (D.state dev.new) }
    ensures cause { HasDeviceCause (D.state dev.old) (D.state dev.new) result }
{
    let name = copy_name(alloc, stem, 0)?;
    let zero = load_copy(alloc, dev, 0, name.list())?;
    let name = copy_name(alloc, stem, 1)?;
    let one = load_copy(alloc, dev, 1, name.list())?;
    Ok(newer(zero, one))
}
