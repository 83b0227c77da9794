//! What payloads tell, and where a store may begin.
ghost use Rattle.std.specs.Prelude.{◌≡◌, ◌≢◌, ℕ, List, None, codes};
ghost use Rattle.scr_base.specs.Halt.{Halt, no_halt};
ghost use Rattle.node_device.specs.File.{IsAtRest};
ghost use Rattle.node_device.specs.DeviceState.{DeviceState};
ghost use Rattle.gated_record.specs.Pair.{copy_name, pair_now};
ghost use Rattle.halt_file.specs.Payloads.{IsHalt, halt_payload, halt_of};
ghost use Rattle.halt_file.specs.Stores.{IsStoring};

/// A payload tells the conditions that it spells, and a payload that spells none tells that nothing is set.
pub fn payloads_tell()
    ensures spelled { (h : Halt) → IsHalt h → halt_of (halt_payload h) ≡ h }
    ensures unspelled { (payload : List ℕ) → ((h : Halt) → IsHalt h → halt_payload h ≢ payload) → halt_of payload ≡ no_halt }
{}

/// Where both files of the pair are at rest, a new stage is one of storing where the value that stands stood.
pub fn a_store_begins_at_rest()
    ensures { (d : DeviceState) (want : Halt) → IsAtRest (d.file (copy_name (codes "halt") 0)) → IsAtRest (d.file (copy_name (codes "halt") 1)) → IsStoring (pair_now (codes "halt") d) want d None }
{}
