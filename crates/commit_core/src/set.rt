ghost use Rattle.std.specs.Prelude.{◌≡◌, IfOk};
ghost use Rattle.filemap.specs.Rows.{IsRows};
ghost use Rattle.commit_core.specs.Sets.{IsCommitSet, rows_length, stream_lengths};

use crate::change::NextChange;
use dataset_desc::Desc;
use filemap::{FileRow, Filemap};
use member_store::MemberGate;
use node_device::{Bay, Device};
use scr_base::{Bytes, Memory};
use site_calls::{Trouble, put_gate, put_member, sync_node};
use std::alloc::Global;

/// A dataset that is made whole, and where its members go.
#[derive(Debug, Drop)]
pub struct CommitSet {
    pub desc: Desc,
    /// The files of each rank.
    pub files: Filemap,
    /// The physical node of each node, all below 32.
    pub places: Bytes,
    pub ghost fits: { IsCommitSet desc.nodes desc.ranks files places },
}

impl CommitSet {
    ghost use Rattle.std.specs.Prelude.{◌<◌, Some, slice_get};
    ghost use Rattle.node_device.specs.Rack.{states_of};
    ghost use Rattle.commit_core.specs.Stages.{node_of};
    ghost use Rattle.commit_core.specs.Changes.{MakesChange};
    ghost use Rattle.commit_core.specs.declared.change.NextChange.TheVariants as change;

    /// The physical node of a node.
    pub(crate) fn place_of(&self, node: u8) -> u8
        requires { node < self.now.desc.nodes }
        ensures place { slice_get self.now.places node ≡ Some result }
        ensures low { result < 32 }
    {
        self.places.list()[node as usize]
    }

    /// How many bytes the stream of each rank has.
    pub(crate) fn lengths(&self, alloc: Global) -> Result<Vec<u32>, Memory>
        ensures { IfOk result (λ lengths. lengths.items ≡ stream_lengths self.now.files) }
    {
        let mut lengths = Vec::new(alloc);
        for rank in 0..self.files.ranks() {
            lengths.push(rows_length(self.files.rows(rank)))?;
        }
        Ok(lengths)
    }

    /// Makes a change.
    pub(crate) fn make<D: Device>(
        &self,
        alloc: Global,
        bay: &mut Bay<D>,
        change: NextChange,
    ) -> Result<(), Trouble>
        requires { node_of change < self.now.desc.nodes }
        ensures { MakesChange self.now change (states_of D.state bay.old) (states_of D.state bay.new) result }
    {
        match change {
            NextChange::Record { node } => self.record(alloc, bay, node),
            NextChange::Sync { node } => sync_node(bay, self.place_of(node)),
            NextChange::Open { node, gate } => self.open(bay, node, gate),
        }
    }

    /// Writes a node's record.
    fn record<D: Device>(&self, alloc: Global, bay: &mut Bay<D>, node: u8) -> Result<(), Trouble>
        requires { node < self.now.desc.nodes }
        ensures { MakesChange self.now (change.Record node) (states_of D.state bay.old) (states_of D.state bay.new) result }
    {
        let place = self.place_of(node);
        put_member(alloc, bay, place, node, &self.desc, &self.files)
    }

    /// Opens a gate of a node's record.
    fn open<D: Device>(&self, bay: &mut Bay<D>, node: u8, gate: MemberGate) -> Result<(), Trouble>
        requires { node < self.now.desc.nodes }
        ensures { MakesChange self.now (change.Open node gate) (states_of D.state bay.old) (states_of D.state bay.new) result }
    {
        put_gate(bay, self.place_of(node), self.desc.which, node, gate)
    }
}

/// How many bytes the files of a rank have.
fn rows_length(rows: &[FileRow]) -> u32
    requires { IsRows rows.now }
    ensures { result ≡ rows_length rows.now }
{
    let mut length = 0;
    for i in 0..rows.len() {
        length += rows[i].len;
    }
    length
}
