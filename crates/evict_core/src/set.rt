ghost use Rattle.std.specs.Prelude.{◌≡◌};
ghost use Rattle.evict_core.specs.Sets.{IsEvictSet};

use crate::calls::close_gate;
use crate::change::EvictChange;
use node_device::{Bay, Device};
use scr_base::{Bytes, DataId};
use site_calls::{Removal, Trouble, drop_file, sync_node};
use std::alloc::Global;

/// A dataset that leaves, and where its members are.
#[derive(Debug, Drop)]
pub struct EvictSet {
    pub which: DataId,
    /// How many nodes it has, 1 at least.
    pub nodes: u8,
    /// The physical node of each node, all below 32.
    pub places: Bytes,
    pub ghost fits: { IsEvictSet nodes places },
}

impl EvictSet {
    ghost use Rattle.std.specs.Prelude.{◌<◌, Some, slice_get};
    ghost use Rattle.node_device.specs.Rack.{states_of};
    ghost use Rattle.evict_core.specs.Stages.{node_of};
    ghost use Rattle.evict_core.specs.Changes.{MakesChange, IsOf};
    ghost use Rattle.evict_core.specs.declared.change.EvictChange.TheVariants as change;

    /// The physical node of a node.
    pub(crate) fn place_of(&self, node: u8) -> u8
        requires { node < self.now.nodes }
        ensures place { slice_get self.now.places node ≡ Some result }
        ensures low { result < 32 }
    {
        self.places.list()[node as usize]
    }

    /// Makes a change; true exactly where it is whole. Only the removal of files takes more than one step.
    pub(crate) fn make<D: Device>(
        &self,
        alloc: Global,
        bay: &mut Bay<D>,
        removal: &mut Removal,
        change: EvictChange,
    ) -> Result<bool, Trouble>
        requires node { node_of change < self.now.nodes }
        requires removal { IsOf self.now change removal.old }
        ensures which { removal.new.which ≡ removal.old.which }
        ensures node { removal.new.node ≡ removal.old.node }
        ensures makes { MakesChange self.now change removal.old removal.new (states_of D.state bay.old) (states_of D.state bay.new) result }
    {
        match change {
            EvictChange::Close { node } => self.close(bay, removal, node),
            EvictChange::Sync { node } => self.sync(bay, removal, node),
            EvictChange::Remove { node } => self.remove(alloc, bay, removal, node),
        }
    }

    /// Closes the gate `sealed` of a node's record.
    fn close<D: Device>(
        &self,
        bay: &mut Bay<D>,
        removal: &mut Removal,
        node: u8,
    ) -> Result<bool, Trouble>
        requires { node < self.now.nodes }
        ensures removal { removal.new ≡ removal.old }
        ensures makes { MakesChange self.now (change.Close node) removal.old removal.new (states_of D.state bay.old) (states_of D.state bay.new) result }
    {
        match close_gate(bay, self.place_of(node), self.which, node) {
            Ok(()) => Ok(true),
            Err(trouble) => Err(trouble),
        }
    }

    /// Syncs a node.
    fn sync<D: Device>(
        &self,
        bay: &mut Bay<D>,
        removal: &mut Removal,
        node: u8,
    ) -> Result<bool, Trouble>
        requires { node < self.now.nodes }
        ensures removal { removal.new ≡ removal.old }
        ensures makes { MakesChange self.now (change.Sync node) removal.old removal.new (states_of D.state bay.old) (states_of D.state bay.new) result }
    {
        match sync_node(bay, self.place_of(node)) {
            Ok(()) => Ok(true),
            Err(trouble) => Err(trouble),
        }
    }

    /// Removes a file of a node's member.
    fn remove<D: Device>(
        &self,
        alloc: Global,
        bay: &mut Bay<D>,
        removal: &mut Removal,
        node: u8,
    ) -> Result<bool, Trouble>
        requires node { node < self.now.nodes }
        requires removal { IsOf self.now (change.Remove node) removal.old }
        ensures which { removal.new.which ≡ removal.old.which }
        ensures node { removal.new.node ≡ removal.old.node }
        ensures makes { MakesChange self.now (change.Remove node) removal.old removal.new (states_of D.state bay.old) (states_of D.state bay.new) result }
    {
        drop_file(alloc, bay, self.place_of(node), removal)
    }
}
