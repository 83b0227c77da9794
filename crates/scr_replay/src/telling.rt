// Printing a history.
ghost use Rattle.std.specs.Prelude.{◌≡◌, OnOk, OnErr, IsErrOf};
ghost use Rattle.scr_base.specs.Streams.{Joins};
ghost use Rattle.ckpt_model.specs.Text.{history_text};
ghost use Rattle.scr_replay.specs.Outputs.{JoinsFront, UntoldCause};

use crate::output::put_all;
use ckpt_model::History;
use history_text::print;
use scr_base::{Memory, Sink, SinkFailed};
use std::alloc::Global;

/// Why a history isn't printed whole.
#[derive(Clone, Copy, Debug, PartialEq, Eq)]
pub enum Untold {
    /// The sink failed; a front of the text went out.
    Failed,
    /// Memory ran out; nothing went out.
    Memory,
}

/// Prints a history's text to a sink.
pub fn tell<K: Sink>(alloc: Global, sink: &mut K, history: &History) -> Result<(), Untold>
    ensures told { OnOk result (Joins (K.held sink.old) (K.held sink.new) (history_text history.now.events)) }
    ensures cut { OnErr result (JoinsFront (K.held sink.old) (K.held sink.new) (history_text history.now.events)) }
    ensures silent { IsErrOf result Untold.Memory → K.held sink.new ≡ K.held sink.old }
    ensures cause { UntoldCause (K.fault_count sink.old) (K.fault_count sink.new) result }
{
    let text = match print(alloc, history) {
        Ok(text) => text,
        Err(Memory) => return Err(Untold::Memory),
    };
    match put_all(sink, text.list()) {
        Ok(()) => Ok(()),
        Err(SinkFailed) => Err(Untold::Failed),
    }
}
