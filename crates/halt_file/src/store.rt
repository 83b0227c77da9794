//! The conditions on a device.
ghost use Rattle.std.specs.Prelude.{◌≡◌, codes, true, IfOk};
ghost use Rattle.node_device.specs.DeviceState.{IsUnchanged};
ghost use Rattle.node_device.specs.Answers.{HasDeviceCause, NamesAnswers};
ghost use Rattle.gated_record.specs.PairStages.{IsStageOf};
ghost use Rattle.halt_file.specs.Conditions.{conditions};
ghost use Rattle.halt_file.specs.Stores.{halt_now, StoresHalt};

use crate::Halt;
use crate::payload::{halt_of, payload_of};
use gated_record::{pair_load, pair_next_step};
use node_device::{DevError, Device};
use scr_base::Stage;
use std::alloc::Global;

/// The conditions that the device's pair `halt` tells; nothing is set where none stands, or where its payload doesn't read.
/// `Failed`; `Memory`.
pub fn load<D: Device>(alloc: Global, dev: &mut D) -> Result<Halt, DevError>
    ensures answer { NamesAnswers result }
    ensures told { (D.state dev.old).tells ≡ true → IfOk result (λ halt. conditions halt ≡ halt_now (D.state dev.old)) }
    ensures same { IsUnchanged (D.state dev.old) (D.state dev.new) }
    ensures cause { HasDeviceCause (D.state dev.old) (D.state dev.new) result }
{
    match pair_load(alloc, dev, b"halt")? {
        None => Ok(Halt::none()),
        Some(value) => Ok(halt_of(alloc, value.body.list())?),
    }
}

/// Makes one change, at most, towards conditions that the device is to tell, in the version after the one that stands;
/// true exactly where nothing is left to do: `load` gives the wanted ones then, and after any stop too. Whatever a stop leaves
/// before that, `load` gives the conditions of before or the wanted ones. A stage serves one store of the same conditions
/// alone. `Failed`; `Full` where the write of the payload passes the capacity; `Memory`.
pub fn store_step<D: Device>(
    alloc: Global,
    dev: &mut D,
    want: &Halt,
    stage: &mut Stage,
) -> Result<bool, DevError>
    requires { IsStageOf (codes "halt") stage.old }
    ensures { StoresHalt (conditions want.now) result stage.old stage.new (D.state dev.old) (D.state dev.new) }
{
    match payload_of(alloc, want) {
        Ok(payload) => pair_next_step(alloc, dev, b"halt", payload.list(), stage),
        Err(fault) => Err(DevError::from(fault)),
    }
}
