use admin::Command;
use ckpt_model::StopLine;
use scr_base::{Actor, Bytes, Config, Items, Shape, Step};

/// A job: its site, how datasets are kept, and what happens in which order.
#[derive(Debug, Drop)]
pub struct Script {
    pub shape: Shape,
    pub config: Config,
    pub items: Items<Item>,
}

/// A run, or what stands between two runs.
#[derive(Debug, Drop)]
pub enum Item {
    Run { run: RunItem },
    /// The device of this physical node is lost.
    Lose { node: u8 },
    /// A scavenge, which is stopped with outcome `pick` where it needs more than `budget` changes.
    Scavenge { pick: u8, budget: u64 },
    Admin { command: Command },
}

/// A run: the physical node of each logical node, the steps of each rank with End as the last one,
/// who takes turns before the usual order begins, and where the run stops.
#[derive(Debug, Drop)]
pub struct RunItem {
    pub places: Bytes,
    pub programs: Items<Items<Step>>,
    pub turns: Items<TurnLine>,
    pub stop: StopLine,
}

/// Who takes how many turns.
#[derive(Clone, Copy, Debug, PartialEq, Eq)]
pub struct TurnLine {
    pub actor: Actor,
    pub times: u32,
}
