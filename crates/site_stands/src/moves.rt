//! Moves of one member's files, and of one dataset.
ghost use Rattle.std.specs.Prelude.{◌≡◌, ◌≢◌, ◌<◌, ◌≤◌, ℕ, true, false, List, Some, slice_get};
ghost use Rattle.scr_base.specs.declared.shape.DataId.{DataId};
ghost use Rattle.scr_base.specs.declared.shape.Shape.{Shape};
ghost use Rattle.node_device.specs.File.{Torn};
ghost use Rattle.node_device.specs.DeviceState.{DeviceState};
ghost use Rattle.gate_outcomes.specs.Leaves.{HasByte};
ghost use Rattle.member_store.specs.Names.{record_name, IsPlace};
ghost use Rattle.ckpt_model.specs.Machine.{Machine, Setup, Kept};
ghost use Rattle.ckpt_model.specs.Proper.{IsProper};
ghost use Rattle.ckpt_model.specs.Questions.{is_kept};
ghost use Rattle.site_stands.specs.Cells.{physical_nodes};
ghost use Rattle.site_stands.specs.Events.{ChangesCache};
ghost use Rattle.site_stands.specs.MemberMoves.{ElseKept, StaysPut, ChangesAt, WritesGate, ReadsTurned};
ghost use Rattle.site_stands.specs.Members.{KeptStands, NoneSealed};
ghost use Rattle.site_stands.specs.Moves.{MovesDataset};
ghost use Rattle.site_stands.specs.Site.{NodesStand, SiteStands};

/// A change of one file of a member is a move of its dataset. It leaves the member on the other physical nodes, and every other member.
pub fn a_change_of_one_file_moves_its_dataset()
    ensures moves { (shape : Shape) (which : DataId) (node : ℕ) (name : List ℕ) (p : ℕ) (old new : ℕ → DeviceState) → IsPlace which node → ChangesAt which node name p old new → p < physical_nodes shape → MovesDataset shape which old new }
    ensures elsewhere { (shape : Shape) (which : DataId) (node : ℕ) (name : List ℕ) (p : ℕ) (old new : ℕ → DeviceState) → IsPlace which node → ChangesAt which node name p old new → ElseKept shape which node p old new }
    ensures beside { (shape : Shape) (which : DataId) (node : ℕ) (name : List ℕ) (p : ℕ) (old new : ℕ → DeviceState) → IsPlace which node → ChangesAt which node name p old new → (other : ℕ) → other ≢ node → StaysPut shape which other old new }
{}

/// The write of a gate's byte, done or refused, leaves the rest of its record, whatever is pending there.
pub fn a_gate_write_leaves_the_rest_of_its_record()
    ensures { (which : DataId) (node gate : ℕ) (old new : DeviceState) → gate < 8 → ((q : List ℕ) → q ≢ record_name which node → new.file q ≡ old.file q) → HasByte (old.file (record_name which node)) gate
        → Torn gate 1 (old.file (record_name which node)) (new.file (record_name which node)) → ReadsTurned gate (old.file (record_name which node)) (new.file (record_name which node)) → WritesGate which node gate old new }
{}

/// After a move of a dataset that isn't kept the site stands, as long as no record of the dataset may be left sealed; after a move of a kept one,
/// as long as that one stands.
pub fn a_moved_dataset_alone_is_left_to_show()
    ensures free { (s : Setup) (old new : ℕ → DeviceState) (m : Machine) (which : DataId) → is_kept m which ≡ false → which.run ≤ m.run → MovesDataset s.shape which old new → NoneSealed s.shape new which → SiteStands s old m → SiteStands s new m }
    ensures kept { (s : Setup) (old new : ℕ → DeviceState) (m : Machine) (which : DataId) → is_kept m which ≡ true → which.run ≤ m.run → MovesDataset s.shape which old new
        → ((i : ℕ) (k : Kept) → slice_get m.kept i ≡ Some k → k.dataset.which ≡ which → KeptStands s.shape old k → KeptStands s.shape new k) → SiteStands s old m → SiteStands s new m }
{}

/// An event that changes the datasets in cache alone leaves only the nodes to show.
pub fn an_event_of_the_cache_keeps_the_prefix()
    ensures { (s : Setup) (states : ℕ → DeviceState) (m new : Machine) → ChangesCache m new → IsProper s new → NodesStand s states new → SiteStands s states m → SiteStands s states new }
{}
