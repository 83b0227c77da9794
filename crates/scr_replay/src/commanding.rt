// The commands between two runs.
ghost use Rattle.std.specs.Prelude.{ℕ, ◌≡◌, ◌++◌, ◌∷◌, [], true, IfOk, IfErr, OnOk, Option};
ghost use Rattle.node_device.specs.Rack.{states_of};
ghost use Rattle.node_device.specs.Calls.{Crashes};
ghost use Rattle.ckpt_model.specs.Machine.{Setup};
ghost use Rattle.ckpt_model.specs.declared.event.Event.TheVariants as event;
ghost use Rattle.ckpt_model.specs.declared.event.StopCause.TheVariants as cause;
ghost use Rattle.script_reader.specs.declared.script.Item.TheVariants as item;
ghost use Rattle.admin.specs.Commands.{word_of};
ghost use Rattle.site_core.specs.Readings.{TellsReadings};
ghost use Rattle.site_core.specs.Faults.{TellsCauses};
ghost use Rattle.scr_replay.specs.Commands.{told_answer};
ghost use Rattle.scr_replay.specs.Forms.{is_halt_command};
ghost use Rattle.scr_replay.specs.Items.{legal_item};
ghost use Rattle.scr_replay.specs.Runs.{RunEnds, IsReplayed, IsPlayed};

use crate::telling::{Untold, tell};
use admin::{Answer, Command, run_command};
use ckpt_model::{CommandAnswer, Event, History, StopCause};
use node_device::{Bay, Device, Ran};
use scr_base::{Copies, HaltWord, Memory, Sink};
use site_core::Closed;
use std::alloc::Global;

/// Carries out a command on the conditions on which the job is to stop, and prints its answer: the bay for what follows, or how
/// the call ends.
pub fn play_command<D: Device, K: Sink>(
    alloc: Global,
    bay: Bay<D>,
    command: &Command,
    sink: &mut K,
) -> Result<Bay<D>, Ran<D>>
    requires { is_halt_command command.now ≡ true }
    ensures replayed { IfOk result (λ after. (s : Setup) (next : Option ℕ) → IsReplayed s (legal_item (item.Admin command.now) ∷ []) (states_of D.state bay) (states_of D.state after) (K.held sink.old) (K.held sink.new) next next) }
    ensures quiet { OnOk result (K.fault_count sink.new ≡ K.fault_count sink.old) }
    ensures ends { IfErr result (λ ran. (s : Setup) → RunEnds s (legal_item (item.Admin command.now)) (states_of D.state bay) (states_of D.state ran.bay) (K.held sink.old) (K.held sink.new) (K.fault_count sink.old) (K.fault_count sink.new) ran.status) }
{
    let Closed { history, bay } = match carry_out(alloc, bay, command) {
        Ok(closed) => closed,
        Err(ran) => return Err(ran),
    };
    match tell(alloc, sink, &history) {
        Ok(()) => Ok(bay),
        Err(Untold::Failed) => Err(Ran { status: 4, bay }),
        Err(Untold::Memory) => Err(Ran { status: 5, bay }),
    }
}

/// The condition that the command sets; none where it unsets all.
fn word_of(alloc: Global, command: &Command) -> Result<Option<HaltWord>, Memory>
    ensures { IfOk result (λ word. word ≡ word_of command.now) }
{
    match command {
        Command::HaltSet { halt } => Ok(Some(halt.copy(alloc)?)),
        _ => Ok(None),
    }
}

/// The answer as it is told.
fn told_answer(answer: Answer) -> CommandAnswer
    ensures { result ≡ told_answer answer }
{
    match answer {
        Answer::Done => CommandAnswer::Done,
        Answer::Device { count } => CommandAnswer::Device { count },
        Answer::Full { used, capacity } => CommandAnswer::Full { used, capacity },
    }
}

/// Carries a command out; where a device refuses it, all devices are stopped: what is to be told, and the bay.
fn carry_out<D: Device>(alloc: Global, bay: Bay<D>, command: &Command) -> Result<Closed<D>, Ran<D>>
    requires { is_halt_command command.now ≡ true }
    ensures played { IfOk result (λ closed. (s : Setup) → IsPlayed s (legal_item (item.Admin command.now) ∷ []) (states_of D.state bay) (states_of D.state closed.bay) closed.history.events) }
    ensures timed { IfOk result (λ closed. (next : Option ℕ) → TellsReadings next next closed.history.events) }
    ensures causes { IfOk result (λ closed. TellsCauses (states_of D.state bay) (states_of D.state closed.bay) closed.history.events) }
    ensures ends { IfErr result (λ ran. ran.status ≡ 5) }
{
    let mut bay = bay;
    let mut history = History::new(alloc);
    let Ok(()) = history.reserve(2) else {
        return Err(Ran { status: 5, bay });
    };
    let Ok(word) = word_of(alloc, command) else {
        return Err(Ran { status: 5, bay });
    };
    let Ok(answer) = run_command(alloc, &mut bay, command) else {
        return Err(Ran { status: 5, bay });
    };
    let told = Event::HaltSet {
        word,
        answer: told_answer(answer),
    };
    let Ok(()) = history.push(told) else {
        return Err(Ran { status: 5, bay });
    };
    match answer {
        Answer::Done => Ok(Closed { history, bay }),
        _ => stop_behind(history, bay),
    }
}

/// Stops all devices behind a refused command, which is told.
fn stop_behind<D: Device>(history: History, bay: Bay<D>) -> Result<Closed<D>, Ran<D>>
    ensures told { IfOk result (λ closed. closed.history.events ≡ history.events ++ event.Stop cause.Command ∷ []) }
    ensures stopped { IfOk result (λ closed. (place : ℕ) → Crashes (states_of D.state bay place) (states_of D.state closed.bay place)) }
    ensures ends { IfErr result (λ ran. ran.status ≡ 5) }
{
    let mut history = history;
    let mut bay = bay;
    bay.stop(0);
    let stop = Event::Stop {
        cause: StopCause::Command,
    };
    match history.push(stop) {
        Ok(()) => Ok(Closed { history, bay }),
        Err(_) => Err(Ran { status: 5, bay }),
    }
}
