//! How long what is said of a record's gates stays true.
ghost use Rattle.std.specs.Prelude.{◌≡◌, ◌≢◌, ◌<◌, ℕ, false, List};
ghost use Rattle.node_device.specs.File.{File, MayLeave, IsAtRest, IsPartlySynced, Torn, IsRemoved};
ghost use Rattle.gated_record.specs.Record.{HasBody, HasShutGates, IsOpen, is_open, KeepsBody};
ghost use Rattle.gate_outcomes.specs.Leaves.{HasByte};
ghost use Rattle.gate_outcomes.specs.Gates.{StaysShut, StaysOpen, StaysWhole};

/// A sync, done or refused, leaves no more than there was to leave: gates that stay shut or open go on so, and so does a whole record.
pub fn a_sync_leaves_no_more()
    ensures shut { (f g : File) (gate : ℕ) → IsPartlySynced f g → StaysShut f gate → StaysShut g gate }
    ensures stays_open { (f g : File) (gate : ℕ) → IsPartlySynced f g → StaysOpen f gate → StaysOpen g gate }
    ensures whole { (f g : File) (body : List ℕ) → IsPartlySynced f g → StaysWhole f body → StaysWhole g body }
{}

/// The write of one gate's byte, done or refused, leaves the other gates and the body as they were, whatever a stop leaves: of a file that
/// is there, and long enough. The file need not be at rest.
pub fn a_gate_write_leaves_the_rest()
    ensures shut { (gate other : ℕ) (f g : File) → other ≢ gate → HasByte f gate → Torn gate 1 f g → StaysShut f other → StaysShut g other }
    ensures stays_open { (gate other : ℕ) (f g : File) → other ≢ gate → HasByte f gate → Torn gate 1 f g → StaysOpen f other → StaysOpen g other }
    ensures body { (gate : ℕ) (f g : File) (body : List ℕ) → gate < 8 → HasByte f gate → Torn gate 1 f g → KeepsBody f body → KeepsBody g body }
{}

/// A removal opens no gate: what may come back after a stop has the bytes that the last sync made sure of.
pub fn a_removal_opens_no_gate()
    ensures { (f g : File) (gate : ℕ) → MayLeave f f.stable → IsRemoved f g → StaysShut f gate → StaysShut g gate }
{}

/// Where no gate may be left open, each stays shut: so it is of a name with nothing under it, and of a record whose body was written alone.
pub fn a_body_opens_no_gate()
    ensures { (f : File) (gate : ℕ) → gate < 8 → HasShutGates f → StaysShut f gate }
{}

/// Of a file at rest a gate stays as a read gives it, and so does a whole record.
pub fn a_gate_at_rest_stays()
    ensures shut { (f : File) (gate : ℕ) → IsAtRest f → is_open f.now gate ≡ false → StaysShut f gate }
    ensures whole { (f : File) (body : List ℕ) → IsAtRest f → IsOpen f.now 0 → HasBody f.now body → StaysWhole f body }
{}
