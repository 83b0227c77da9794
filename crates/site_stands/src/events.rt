//! What an event leaves: the state changes, and the devices stay.
ghost use Rattle.std.specs.Prelude.{◌≡◌, ◌⊎◌, ◌<◌, ℕ, true, false, List, Some, map, length, slice_get};
ghost use Rattle.scr_base.specs.declared.shape.DataId.{DataId};
ghost use Rattle.scr_base.specs.declared.shape.Shape.{Shape};
ghost use Rattle.node_device.specs.DeviceState.{DeviceState};
ghost use Rattle.ckpt_model.specs.Dataset.{Dataset};
ghost use Rattle.ckpt_model.specs.Loss.{kept_shaken};
ghost use Rattle.ckpt_model.specs.Machine.{Machine, Setup, Kept, Entry, Mark};
ghost use Rattle.ckpt_model.specs.Questions.{is_kept};
ghost use Rattle.ckpt_model.specs.Steps.{add_sealing, kept_sealing, kept_mended, change_kept, drop_kept};
ghost use Rattle.ckpt_model.specs.Stops.{pending_of};
ghost use Rattle.site_stands.specs.Events.{HasSamePairs};
ghost use Rattle.site_stands.specs.Members.{KeptStands, NoneSealed};
ghost use Rattle.site_stands.specs.Mend.{Mend, MendsKept};
ghost use Rattle.site_stands.specs.Prefix.{EntryHolds, OfEntry, IsIndexed};
ghost use Rattle.site_stands.specs.Site.{NodesStand, PrefixStands, SiteStands};

/// An event that leaves datasets, index and pairs keeps what stands: calls, replies, decisions and a rank's own steps.
pub fn calls_and_replies_keep_what_stands()
    ensures { (s : Setup) (states : ℕ → DeviceState) (m new : Machine) → new.kept ≡ m.kept → new.index ≡ m.index → HasSamePairs m new → SiteStands s states m → SiteStands s states new }
{}

/// After any event within a run it is left to show that each dataset which is kept then stands or was kept, and that each which isn't is unsealed or
/// wasn't kept.
pub fn an_event_of_the_nodes_keeps_the_rest()
    ensures { (s : Setup) (states : ℕ → DeviceState) (m new : Machine) → new.run ≡ m.run → ((i : ℕ) (k : Kept) → slice_get new.kept i ≡ Some k → KeptStands s.shape states k ⊎ ((j : ℕ) × (slice_get m.kept j ≡ Some k)))
        → ((which : DataId) → is_kept new which ≡ false → NoneSealed s.shape states which ⊎ (is_kept m which ≡ false)) → NodesStand s states m → NodesStand s states new }
{}

/// After any event that leaves the pairs it is left to show that each entry holds or was one, and that each open index record is of an entry or was
/// of one that still is.
pub fn an_event_of_the_index_keeps_the_rest()
    ensures { (s : Setup) (disk : DeviceState) (m new : Machine) → HasSamePairs m new → ((i : ℕ) (e : Entry) → slice_get new.index i ≡ Some e → EntryHolds s.shape disk (pending_of m.stage) e ⊎ ((j : ℕ) × (slice_get m.index j ≡ Some e)))
        → ((which : DataId) → IsIndexed disk new which ⊎ (OfEntry m which → OfEntry new which)) → PrefixStands s disk m → PrefixStands s disk new }
{}

/// A dataset that falls in doubt still stands: evicting, failing and discarding ask nothing of the devices.
pub fn doubt_keeps_what_stands()
    ensures { (s : Setup) (states : ℕ → DeviceState) (m : Machine) (mark : Mark) (which : DataId) → NodesStand s states m → NodesStand s states (change_kept (λ k. record k { mark = mark; doubt = true }) which m) }
{}

/// A dataset of which no record is left sealed may leave: evicted, failed or discarded.
pub fn an_unsealed_dataset_may_leave()
    ensures { (s : Setup) (states : ℕ → DeviceState) (m : Machine) (which : DataId) → NoneSealed s.shape states which → NodesStand s states m → NodesStand s states (drop_kept which m) }
{}

/// A dataset that stands on the places of the run may come in as one that is being sealed.
pub fn a_whole_dataset_may_come()
    ensures { (s : Setup) (states : ℕ → DeviceState) (m : Machine) (d : Dataset) → KeptStands s.shape states (kept_sealing m.places d) → NodesStand s states m → NodesStand s states (add_sealing m d) }
{}

/// While a node is being emptied its members are unsure, and all still stands.
pub fn a_node_that_is_emptied_is_unsure()
    ensures { (s : Setup) (states : ℕ → DeviceState) (m : Machine) (node : ℕ) → NodesStand s states m → NodesStand s states (record m { kept = map (kept_shaken node) m.kept }) }
{}

/// A dataset that is being mended stands at any time; once each of its nodes is done it stands as mended; and then the event may come.
pub fn a_mended_dataset_stands()
    ensures mending { (shape : Shape) (states : ℕ → DeviceState) (places : List ℕ) (k : Kept) (mends : ℕ → Mend) → MendsKept shape states places k mends → KeptStands shape states k }
    ensures mended { (shape : Shape) (states : ℕ → DeviceState) (places : List ℕ) (k : Kept) (mends : ℕ → Mend) → length places ≡ length k.members → ((node : ℕ) → node < length places → mends node ≡ Mend.Done) → MendsKept shape states places k mends
        → KeptStands shape states (kept_mended places k) }
    ensures event { (s : Setup) (states : ℕ → DeviceState) (m : Machine) (which : DataId) → ((k : Kept) (i : ℕ) → slice_get m.kept i ≡ Some k → k.dataset.which ≡ which → KeptStands s.shape states (kept_mended m.places k)) → NodesStand s states m
        → NodesStand s states (change_kept (kept_mended m.places) which m) }
{}
