//! A pair's way to a payload, in the version after the one that stands.
ghost use Rattle.std.specs.Prelude.{◌≡◌, ◌<◌, ◌≤◌, ◌^◌, length, true, IfOk};
ghost use Rattle.node_device.specs.DeviceState.{IsUnchanged};
ghost use Rattle.node_device.specs.Answers.{HasDeviceCause, NamesAnswers};
ghost use Rattle.gated_record.specs.Pair.{pair_now};
ghost use Rattle.gated_record.specs.PairStages.{IsStageOf};
ghost use Rattle.gated_record.specs.PairNext.{version_after, following, StepsNext};

use crate::pair::{PairValue, pair_load};
use crate::pair_steps::pair_step;
use node_device::{DevError, Device};
use scr_base::{Bytes, Stage};
use std::alloc::Global;

/// The version after that of a standing value. After 4,294,967,295 comes 2.
fn version_after(standing: &Option<PairValue>) -> u32
    ensures next { result ≡ version_after standing.now }
    ensures from_one { 1 ≤ result }
{
    match standing {
        None => 1,
        Some(value) => {
            if value.version == u32::MAX {
                2
            } else {
                value.version + 1
            }
        }
    }
}

/// A payload in the version after the one that stands.
fn following<D: Device>(
    alloc: Global,
    dev: &mut D,
    stem: &[u8],
    payload: &[u8],
) -> Result<PairValue, DevError>
    requires { length stem.now ≤ 158 }
    ensures answer { NamesAnswers result }
    ensures payload { IfOk result (λ want. want.body ≡ payload.now) }
    ensures from_one { IfOk result (λ want. 1 ≤ want.version) }
    ensures fits { IfOk result (λ want. want.version < 2 ^ 32) }
    ensures following { (D.state dev.old).tells ≡ true → IfOk result (λ want. want ≡ following (pair_now stem.now (D.state dev.old)) payload.now) }
    ensures same { IsUnchanged (D.state dev.old) (D.state dev.new) }
    ensures cause { HasDeviceCause (D.state dev.old) (D.state dev.new) result }
{
    let standing = pair_load(alloc, dev, stem)?;
    Ok(PairValue {
        version: version_after(&standing),
        body: Bytes::of(Vec::from_slice(alloc, payload)?),
    })
}

/// Makes one change, at most, towards a payload in the version after the one that stood when the stage was new, by
/// `pair_step`, whose order of changes and whose promises it has; true exactly where nothing is left to do. A stage serves
/// one pair and one payload alone. `Failed`; `Full`; `Memory`, as `pair_step`.
pub fn pair_next_step<D: Device>(
    alloc: Global,
    dev: &mut D,
    stem: &[u8],
    payload: &[u8],
    stage: &mut Stage,
) -> Result<bool, DevError>
    requires stem { length stem.now ≤ 158 }
    requires short { length payload.now ≤ 1048572 }
    requires stage { IsStageOf stem.now stage.old }
    ensures { StepsNext stem.now payload.now result stage.old stage.new (D.state dev.old) (D.state dev.new) }
{
    match following(alloc, dev, stem, payload) {
        Ok(want) => pair_step(alloc, dev, stem, &want, stage),
        Err(fault) => Err(fault),
    }
}
