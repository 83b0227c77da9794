//! What devices stand for between two runs.
ghost use Rattle.std.specs.Prelude.{◌≡◌, ◌≢◌, ◌<◌, ◌≤◌, ℕ, List};
ghost use Rattle.node_device.specs.File.{IsEmpty, MayLeave};
ghost use Rattle.node_device.specs.DeviceState.{DeviceState};
ghost use Rattle.ckpt_model.specs.Machine.{Machine, Setup, empty_machine};
ghost use Rattle.ckpt_model.specs.Steps.{after_loss};
ghost use Rattle.site_stands.specs.Cells.{physical_nodes, prefix_place};
ghost use Rattle.site_stands.specs.Site.{Stands, SiteStands};

/// Devices that stand for a state between two runs hold it dataset by dataset, entry by entry and pair by pair.
pub fn devices_hold_what_they_stand_for()
    ensures { (s : Setup) (states : ℕ → DeviceState) (m : Machine) → Stands s states m → SiteStands s states m }
{}

/// Devices that hold nothing stand for the state before the first run.
pub fn empty_devices_stand()
    ensures { (s : Setup) (states : ℕ → DeviceState) → ((p : ℕ) (q : List ℕ) → p ≤ prefix_place → IsEmpty ((states p).file q)) → Stands s states empty_machine }
{}

/// Once a physical node holds nothing any more, and all other devices are as they were, they stand for the state after its loss.
pub fn a_lost_node_leaves_what_stands()
    ensures { (s : Setup) (old new : ℕ → DeviceState) (m : Machine) (lost : ℕ) → lost < physical_nodes s.shape → Stands s old m → ((q : List ℕ) → IsEmpty ((new lost).file q)) → ((p : ℕ) → p ≢ lost → new p ≡ old p)
        → ((p : ℕ) (q : List ℕ) → MayLeave ((new p).file q) ((new p).file q).now) → Stands s new (after_loss m lost) }
{}
