//! Where a dataset begins to leave, and what is left once it has left: for the sites above.
ghost use Rattle.std.specs.Prelude.{◌≡◌, ◌<◌, ℕ, true, false, IsTrue, length, slice_get, Some};
ghost use Rattle.node_device.specs.DeviceState.{DeviceState};
ghost use Rattle.gated_record.specs.Record.{HasShutGates};
ghost use Rattle.member_store.specs.Names.{record_name};
ghost use Rattle.ckpt_model.specs.Dataset.{Dataset};
ghost use Rattle.ckpt_model.specs.Machine.{Machine, Setup};
ghost use Rattle.ckpt_model.specs.Moves.{may};
ghost use Rattle.ckpt_model.specs.Proper.{IsProper};
ghost use Rattle.ckpt_model.specs.Questions.{is_kept, is_running};
ghost use Rattle.site_stands.specs.Cells.{physical_nodes};
ghost use Rattle.site_stands.specs.Site.{SiteStands};
ghost use Rattle.evict_core.specs.Evicting.{Evicting, closing_from, leaving_from, ends};
ghost use Rattle.evict_core.specs.Holds.{IsEvictOf, IsKeptAs, IsOutOfCache, settled_at, going_at, ShutTo, EvictHolds};
ghost use Rattle.evict_core.specs.declared.closing.Closing.{Closing};
ghost use Rattle.evict_core.specs.declared.set.EvictSet.{EvictSet};

/// A dataset that is kept on the run's places and settled may begin to leave: nothing else is asked of it. It does nothing.
pub fn a_settled_dataset_begins_to_leave()
    ensures { (s : Setup) (states : ℕ → DeviceState) (m : Machine) (d : Dataset) (set : EvictSet) (why : Closing) (place : ℕ) → IsProper s m → slice_get m.kept place ≡ Some (settled_at m.places d) → EvictHolds s states m d (closing_from set why) }
{}

/// One that isn't kept may, where no stop leaves a gate `sealed` of a record on its places open, and none was written since the
/// last sync. It does nothing.
pub fn a_dropped_dataset_begins_to_leave()
    ensures { (s : Setup) (states : ℕ → DeviceState) (m : Machine) (d : Dataset) (set : EvictSet) → SiteStands s states m → is_kept m d.which ≡ false → ShutTo states m.places d.which (length m.places) → EvictHolds s states m d (leaving_from set) }
{}

/// While a run goes on, the event of the last sync may come. It does nothing.
pub fn the_last_sync_may_be_told()
    ensures { (s : Setup) (m : Machine) (d : Dataset) (why : Closing) → is_running m.stage ≡ true → IsKeptAs m d (going_at why m.places d) → IsTrue (may s m (ends why d.which)) }
{}

/// Once all files are removed and synced, no stop leaves an open gate under the name of a record on the dataset's places, and none
/// was written: so a record may be written there again. It does nothing.
pub fn a_cleared_place_takes_a_record()
    ensures { (s : Setup) (states : ℕ → DeviceState) (m : Machine) (d : Dataset) (cleared node place : ℕ) → IsOutOfCache s states m d cleared → node < cleared → slice_get m.places node ≡ Some place → HasShutGates ((states place).file (record_name d.which node)) }
{}

/// Calls that change no node, as all on the prefix, and events that change neither the datasets in cache nor the run's places, keep
/// what is said of a dataset that leaves: so of flushes beside it. It does nothing.
pub fn what_changes_no_node_keeps_what_holds()
    ensures { (s : Setup) (old new : ℕ → DeviceState) (m n : Machine) (d : Dataset) (e : Evicting) → IsEvictOf s m d e.set → ((p : ℕ) → p < physical_nodes s.shape → new p ≡ old p) → n.kept ≡ m.kept → n.places ≡ m.places → EvictHolds s old m d e → EvictHolds s new n d e }
{}
