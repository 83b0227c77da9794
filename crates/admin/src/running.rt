//! The commands, on a bay.
ghost use Rattle.node_device.specs.Rack.{states_of};
ghost use Rattle.admin.specs.Commands.{IsHaltCommand, word_of};
ghost use Rattle.admin.specs.Running.{RunsHalt};

use crate::halting::set_halt;
use crate::{Answer, Command};
use node_device::{Bay, Device};
use scr_base::Memory;
use std::alloc::Global;

/// Runs a command on the halt conditions, to its end. After another answer than `Done` a stop of all devices leaves the
/// conditions of before or the wanted ones, and every other file as before. Where nothing was pending, `Full` comes only where
/// the write of the record's body passes the capacity, and `Done` never there.
pub fn run_command<D: Device>(
    alloc: Global,
    bay: &mut Bay<D>,
    command: &Command,
) -> Result<Answer, Memory>
    requires halt_command { IsHaltCommand command.now }
    ensures halt { RunsHalt (word_of command.now) result (states_of D.state bay.old) (states_of D.state bay.new) }
{
    match command {
        Command::HaltSet { halt } => set_halt(alloc, bay.device(32), Some(halt)),
        Command::HaltClear => set_halt(alloc, bay.device(32), None),
        _ => unreachable!(),
    }
}
