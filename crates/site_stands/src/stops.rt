//! What a stop leaves.
ghost use Rattle.std.specs.Prelude.{ℕ, IsTrue, List, fold};
ghost use Rattle.node_device.specs.DeviceState.{DeviceState};
ghost use Rattle.ckpt_model.specs.declared.event.Event.{Event};
ghost use Rattle.ckpt_model.specs.declared.event.StopCause.{StopCause};
ghost use Rattle.ckpt_model.specs.Machine.{Machine, Setup};
ghost use Rattle.ckpt_model.specs.Moves.{after};
ghost use Rattle.ckpt_model.specs.Stops.{may_stop, may_make};
ghost use Rattle.site_stands.specs.Cells.{IsLeftBy};
ghost use Rattle.site_stands.specs.Site.{SiteStands, IsSafeToStop, StandsAfterStop};

/// A stop is safe while the devices hold each part for the state that refused writes may have made of the machine's: at every moment between two
/// moves, whatever is pending.
pub fn a_stop_is_safe()
    ensures { (s : Setup) (states : ℕ → DeviceState) (m : Machine) (why : StopCause) (made : List Event) → IsTrue (may_stop m why) → IsTrue (may_make s m why made) → SiteStands s states (fold (after s) m made) → IsSafeToStop s states why m }
{}

/// What a safe stop leaves stands for a state after that stop.
pub fn a_safe_stop_leaves_what_stands()
    ensures { (s : Setup) (old new : ℕ → DeviceState) (m : Machine) (why : StopCause) → IsSafeToStop s old why m → IsLeftBy s.shape old new → StandsAfterStop s new why m }
{}
