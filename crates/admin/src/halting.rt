//! The commands on the halt conditions, on the device of the prefix.
ghost use Rattle.std.specs.Prelude.{codes, None};
ghost use Rattle.std.specs.Option.{option_copied};
ghost use Rattle.admin.specs.Causes.{IsRefusal};
ghost use Rattle.admin.specs.Halting.{FindsWanted, SetsHalt};

use crate::Answer;
use halt_file::{Halt, load, store_step};
use node_device::{DevError, Device};
use scr_base::{Copies, HaltWord, Memory, Stage};
use std::alloc::Global;

/// The conditions that stand, with one of them set; or none, where all are to be unset.
fn wanted<D: Device>(alloc: Global, dev: &mut D, word: Option<&HaltWord>) -> Result<Halt, DevError>
    ensures { FindsWanted (option_copied word.entry) result (D.state dev.old) (D.state dev.new) }
{
    let Some(word) = word else {
        return Ok(Halt::none());
    };
    let mut halt = load(alloc, dev)?;
    halt.set(word.copy(alloc)?);
    Ok(halt)
}

/// What is answered where the device refuses.
fn refusal<D: Device>(dev: &D, fault: DevError) -> Result<Answer, Memory>
    ensures { IsRefusal (D.state dev.now) fault result }
{
    match fault {
        DevError::Failed => Ok(Answer::Device {
            count: dev.faults(),
        }),
        DevError::Full => Ok(Answer::Full {
            used: dev.used(),
            capacity: dev.capacity(),
        }),
        _ => Err(Memory),
    }
}

/// Sets one condition, or unsets all where there is none, and stores that, one change a step.
pub(crate) fn set_halt<D: Device>(
    alloc: Global,
    dev: &mut D,
    word: Option<&HaltWord>,
) -> Result<Answer, Memory>
    ensures { SetsHalt (option_copied word.entry) result (D.state dev.old) (D.state dev.new) }
{
    let want = match wanted(alloc, dev, word) {
        Ok(want) => want,
        Err(fault) => return refusal(dev, fault),
    };
    let mut stage = Stage::new();
    let mut over = false;
    while !over {
        match store_step(alloc, dev, &want, &mut stage) {
            Ok(done) => over = done,
            Err(fault) => return refusal(dev, fault),
        }
    }
    Ok(Answer::Done)
}
