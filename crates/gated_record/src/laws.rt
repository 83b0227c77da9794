//! What a stop leaves of a record, from the writing of its body to the opening of a gate.
ghost use Rattle.std.specs.Prelude.{ℕ, List};
ghost use Rattle.node_device.specs.DeviceState.{DeviceState};
ghost use Rattle.gated_record.specs.Whole.{Answer, Saves, IsShutOrSaved};

/// Where the body of a record is written over shut gates by `write_body`, then synced, and a gate is then opened by
/// `open_gate`, a stop at any time leaves it shut, or open with the whole body that was synced.
pub fn shut_or_whole()
    ensures { (name body : List ℕ) (gate : ℕ) (wrote synced opened : Answer) (before written stable after : DeviceState) → Saves name body gate wrote synced opened before written stable after → IsShutOrSaved name body gate wrote synced opened before written stable after }
{}
