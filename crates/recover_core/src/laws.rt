//! What recovery's list is in the machine's words.
ghost use Rattle.std.specs.Prelude.{◌≡◌, ℕ, List, map};
ghost use Rattle.node_device.specs.File.{MayLeave};
ghost use Rattle.node_device.specs.DeviceState.{DeviceState};
ghost use Rattle.ckpt_model.specs.Machine.{Machine, Setup};
ghost use Rattle.site_stands.specs.Cells.{cells_of};
ghost use Rattle.site_stands.specs.Look.{IsList};
ghost use Rattle.site_stands.specs.Site.{SiteStands};
ghost use Rattle.recover_core.specs.Look.{AreFound, row_of};
ghost use Rattle.recover_core.specs.declared.found.FoundSet.{FoundSet};

/// Where the devices stand for a state, what the look finds is the list that the machine may find.
pub fn what_is_found_is_a_list()
    ensures { (s : Setup) (states : ℕ → DeviceState) (m : Machine) (found : List FoundSet) → ((p : ℕ) (q : List ℕ) → MayLeave ((states p).file q) ((states p).file q).now) → SiteStands s states m → AreFound s.shape (cells_of states) found
        → IsList s.shape (cells_of states) (map row_of found) }
{}
