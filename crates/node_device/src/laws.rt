//! What follows from the crash model for every device.
ghost use Rattle.std.specs.Prelude.{◌≡◌, ◌≢◌, ◌<◌, ℕ, List, Option, Some, length, slice_set};
ghost use Rattle.node_device.specs.File.{File, IsAtRest, IsPartlySynced, MayLeave, Torn};
ghost use Rattle.node_device.specs.DeviceState.{DeviceState, ChangesOnly, IsOutcome};

/// A change to one file keeps what every outcome says of all others.
pub fn others_stay()
    ensures { (name : List ℕ) (old new : DeviceState) → ChangesOnly name old new → (after : List ℕ → Option (List ℕ)) → IsOutcome new after → (q : List ℕ) → q ≢ name → MayLeave (old.file q) (after q) }
{}

/// What a stop may leave after a sync, done or refused, it might have left before; and after one that was done it leaves
/// what a read gave.
pub fn synced_was_allowed()
    ensures before { (old new : DeviceState) → ((q : List ℕ) → IsPartlySynced (old.file q) (new.file q)) → (after : List ℕ → Option (List ℕ)) → IsOutcome new after → IsOutcome old after }
    ensures done { (new : DeviceState) → ((q : List ℕ) → IsAtRest (new.file q)) → (after : List ℕ → Option (List ℕ)) → IsOutcome new after → (q : List ℕ) → after q ≡ (new.file q).now }
{}

/// After the write of one byte in a file at rest, done or refused, a stop leaves that byte old, new or any other, and
/// nothing else changed.
pub fn gate_is_one_byte()
    ensures { (at : ℕ) (f g : File) (bytes : List ℕ) → IsAtRest f → f.now ≡ Some bytes → at < length bytes → Torn at 1 f g → (after : Option (List ℕ)) → MayLeave g after → (byte : ℕ) × (after ≡ Some (slice_set bytes at byte)) }
{}
