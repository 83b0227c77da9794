// What a site remembers of its run, beside its devices and its history.

use crate::cache::{Cache, Manifest};
use crate::places::Places;
use halt_file::Halt;
use round_core::Round;
use scr_base::{Config, DataId, Phase, Refusal, Shape};
use site_calls::{Removal, Storing};

/// How far the saving of a dataset has come: the change that comes next.
#[derive(Clone, Copy, Debug, PartialEq, Eq)]
pub enum SaveStep {
    /// A node's record is written, with its gates closed.
    Record,
    /// It is made stable.
    RecordSync,
    /// Its gate `whole` is opened.
    Whole,
    /// That is made stable.
    WholeSync,
    /// Its gate `sealed` is opened.
    Sealed,
    /// That is made stable.
    SealedSync,
}

/// What comes next of the removal of a dataset's files on a node.
#[derive(Clone, Copy, Debug, PartialEq, Eq)]
pub enum DropStep {
    /// A file is removed.
    File,
    /// That is made stable.
    Sync,
}

/// Between which two changes of a device the run stands.
#[derive(Clone, Copy, Debug, PartialEq, Eq)]
pub enum RunStage {
    /// Nothing was done.
    Begun,
    /// The run's number is on its way to the prefix.
    Storing,
    /// It is stored, and nothing was looked for.
    Looking,
    /// What was found is to be looked after.
    Mending,
    /// Recovery is over, and no dataset is being saved.
    Serving,
    /// The open dataset is being saved: on this node, this comes next.
    Saving { work: SaveStep, node: u8 },
    /// The files of the open dataset are being removed: on this node, this comes next.
    Dropping { drop: DropStep, node: u8 },
    /// They are removed, and the round is to be decided.
    Dropped,
    /// The run is over: its Stop was told.
    Over,
}

/// The state of a run.
#[derive(Debug, Drop)]
pub struct RunState {
    pub shape: Shape,
    pub config: Config,
    pub stage: RunStage,
    /// The physical node of each node.
    pub places: Places,
    /// The number of the run, and 0 until it is known.
    pub run: u32,
    /// How far the run's number has come to the prefix.
    pub storing: Storing,
    /// The number that the next Start would take; one past the greatest where there is none left.
    pub next: u64,
    pub phase: Phase,
    /// What the last Have of this run offered.
    pub offer: Option<DataId>,
    /// The dataset that is being written.
    pub opened: Option<Manifest>,
    pub kept: Cache,
    pub ranks: Round,
    /// How many checkpoints were settled in this run.
    pub settled: u32,
    /// How many Need rounds of this run were answered.
    pub needs: u64,
    /// What the clock told for the round.
    pub reading: Option<u64>,
    /// The conditions on which the job is to stop, once the prefix told them.
    pub halt: Halt,
    /// How far the removal of a member of the open dataset has come.
    pub removal: Removal,
    /// Why a device refuses the round.
    pub refusal: Option<Refusal>,
}
