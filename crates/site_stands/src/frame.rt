//! What is said of the devices stays so through reads, syncs and the changes of other files.
ghost use Rattle.std.specs.Prelude.{◌≡◌, ◌≢◌, ◌<◌, ℕ, false, List};
ghost use Rattle.scr_base.specs.declared.shape.DataId.{DataId};
ghost use Rattle.node_device.specs.File.{IsPartlySynced};
ghost use Rattle.node_device.specs.DeviceState.{DeviceState, ChangesOnly};
ghost use Rattle.member_store.specs.Names.{record_name, IsPlace, IsNameOf};
ghost use Rattle.ckpt_model.specs.Machine.{Machine, Setup};
ghost use Rattle.ckpt_model.specs.Questions.{is_kept};
ghost use Rattle.ckpt_model.specs.Steps.{after_loss};
ghost use Rattle.site_stands.specs.Cells.{physical_nodes, prefix_place};
ghost use Rattle.site_stands.specs.Frame.{LeavesNoMore, KeepsAll, KeepsPrefix};
ghost use Rattle.site_stands.specs.Members.{IsBare};
ghost use Rattle.site_stands.specs.Moves.{MovesDataset, HoldsOne, MovesEntry, EntryOne};
ghost use Rattle.site_stands.specs.Site.{PrefixStands, SiteStands};

/// Where a stop may leave no more than before, of any file, all stays as it was said.
pub fn reads_and_syncs_keep_what_stands()
    ensures { (s : Setup) (old new : ℕ → DeviceState) (m : Machine) → KeepsAll old new → SiteStands s old m → SiteStands s new m }
{}

/// So it is after a sync of one device, done or refused.
pub fn a_sync_leaves_no_more_of_any_file()
    ensures { (place : ℕ) (old new : ℕ → DeviceState) → ((p : ℕ) → p ≢ place → new p ≡ old p) → ((q : List ℕ) → IsPartlySynced ((old place).file q) ((new place).file q)) → KeepsAll old new }
{}

/// After a move of one dataset that dataset alone is left to show.
pub fn a_move_of_one_dataset_keeps_the_rest()
    ensures { (s : Setup) (old new : ℕ → DeviceState) (m : Machine) (which : DataId) → MovesDataset s.shape which old new → HoldsOne s which old new m → SiteStands s old m → SiteStands s new m }
{}

/// After a move of one entry that entry alone is left to show.
pub fn a_move_of_one_entry_keeps_the_rest()
    ensures { (s : Setup) (old new : DeviceState) (m : Machine) (which : DataId) → MovesEntry which m old new → EntryOne s which old new m → PrefixStands s old m → PrefixStands s new m }
{}

/// A change of one file, done or refused, keeps what stands, where the file is no record, and of a dataset that isn't kept: so does a rank's write
/// into the open dataset.
pub fn a_write_into_an_open_dataset_keeps_what_stands()
    ensures { (s : Setup) (place : ℕ) (name : List ℕ) (which : DataId) (old new : ℕ → DeviceState) (m : Machine) → place < physical_nodes s.shape → is_kept m which ≡ false → ((p : ℕ) → p ≢ place → new p ≡ old p) → ChangesOnly name (old place) (new place)
        → ((node : ℕ) → record_name which node ≢ name) → ((other : DataId) (node : ℕ) (q : List ℕ) → other ≢ which → IsPlace other node → IsNameOf other node q → q ≢ name) → SiteStands s old m → SiteStands s new m }
{}

/// Once no record is left on a node that reads, and of all other files no more than before, the devices hold each part of the state after its loss.
pub fn a_bare_node_is_off()
    ensures { (s : Setup) (old new : ℕ → DeviceState) (m : Machine) (lost : ℕ) → IsBare s.shape (new lost) → ((p : ℕ) (q : List ℕ) → p < physical_nodes s.shape → p ≢ lost → LeavesNoMore ((old p).file q) ((new p).file q))
        → KeepsPrefix (old prefix_place) (new prefix_place) → SiteStands s old m → SiteStands s new (after_loss m lost) }
{}
