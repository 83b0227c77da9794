//! What recovery makes of what reads give.
ghost use Rattle.std.specs.Prelude.{◌≡◌, ℕ, IsTrue, List, Some, slice_get};
ghost use Rattle.scr_base.specs.Sets.{is_among};
ghost use Rattle.node_device.specs.File.{MayLeave};
ghost use Rattle.node_device.specs.DeviceState.{DeviceState};
ghost use Rattle.ckpt_model.specs.declared.event.EntryRow.{EntryRow};
ghost use Rattle.ckpt_model.specs.declared.event.FoundRow.{FoundRow};
ghost use Rattle.ckpt_model.specs.Machine.{Machine, Setup, Kept};
ghost use Rattle.ckpt_model.specs.Proper.{IsProper};
ghost use Rattle.ckpt_model.specs.Steps.{outside, after_found, may_list, are_rows_of, is_begun};
ghost use Rattle.site_stands.specs.Cells.{cells_of};
ghost use Rattle.site_stands.specs.Look.{IsList, IsUntouched};
ghost use Rattle.site_stands.specs.Members.{IsBare};
ghost use Rattle.site_stands.specs.Site.{NodesStand};

/// Once the nodes outside the run's places are bare, and before any record of a dataset in cache is touched, the list that is made of what reads
/// give is one that the machine may find, and the devices stand for the state after it.
pub fn what_is_listed_may_be_found()
    ensures { (s : Setup) (states : ℕ → DeviceState) (m : Machine) (rows : List FoundRow) (entries : List EntryRow) → ((p : ℕ) (q : List ℕ) → MayLeave ((states p).file q) ((states p).file q).now)
        → ((p : ℕ) → IsTrue (is_among p (outside s m)) → IsBare s.shape (states p)) → IsProper s m → NodesStand s states m
        → ((k : Kept) (i : ℕ) → slice_get m.kept i ≡ Some k → IsUntouched s.shape states k.dataset.which) → IsList s.shape (cells_of states) rows → IsTrue (is_begun m.stage) → IsTrue (are_rows_of entries m.index)
        → IsTrue (may_list s m rows entries) × NodesStand s states (after_found s m rows) }
{}
