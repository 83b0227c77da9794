use crate::change::EvictChange;
use crate::closing::Closing;
use ckpt_model::Progress;
use scr_base::DataId;

/// How far a dataset has come on its way out of the cache: each node's gate `sealed` and its sync, then the files of each node's
/// member and their sync, the nodes one after the other.
#[derive(Clone, Copy, Debug, PartialEq, Eq)]
pub enum EvictStage {
    /// The node's gate `sealed` is closed next.
    Close { closing: Closing, node: u8 },
    /// The node's gate `sealed` was closed, and is synced next.
    CloseSync { closing: Closing, node: u8 },
    /// Files of the node's member are removed next.
    Remove { node: u8 },
    /// The files of the node's member were removed, and the node is synced next.
    RemoveSync { node: u8 },
    /// Nothing is left to do: no file of the dataset is left on its places, or a device refused.
    Over,
}

impl EvictStage {
    ghost use Rattle.std.specs.Prelude.{◌≡◌};
    ghost use Rattle.evict_core.specs.Evicting.{shown_at};
    ghost use Rattle.evict_core.specs.Stages.{change_at, IsStage, stage_after, steps_left};

    /// The change that comes next.
    pub(crate) fn change(&self) -> Option<EvictChange>
        ensures { result ≡ change_at self.now }
    {
        match self {
            EvictStage::Close { node, .. } => Some(EvictChange::Close { node: *node }),
            EvictStage::CloseSync { node, .. } | EvictStage::RemoveSync { node } => {
                Some(EvictChange::Sync { node: *node })
            }
            EvictStage::Remove { node } => Some(EvictChange::Remove { node: *node }),
            EvictStage::Over => None,
        }
    }

    /// Where it leads once it is whole, on so many nodes.
    pub(crate) fn after(&self, nodes: u8) -> EvictStage
        requires { IsStage nodes self.now }
        ensures { result ≡ stage_after nodes self.now }
    {
        match self {
            EvictStage::Close { closing, node } => EvictStage::CloseSync {
                closing: *closing,
                node: *node,
            },
            EvictStage::CloseSync { closing, node } if *node + 1 < nodes => EvictStage::Close {
                closing: *closing,
                node: *node + 1,
            },
            EvictStage::CloseSync { .. } => EvictStage::Remove { node: 0 },
            EvictStage::Remove { node } => EvictStage::RemoveSync { node: *node },
            EvictStage::RemoveSync { node } if *node + 1 < nodes => {
                EvictStage::Remove { node: *node + 1 }
            }
            EvictStage::RemoveSync { .. } | EvictStage::Over => EvictStage::Over,
        }
    }

    /// What that change shows once it is whole, on so many nodes.
    pub(crate) fn shown(&self, nodes: u8, which: DataId) -> Progress
        requires { IsStage nodes self.now }
        ensures { result ≡ shown_at nodes which self.now }
    {
        match self {
            EvictStage::Close { closing, node } if *node == 0 => Progress::Shown {
                event: closing.begins(which),
            },
            EvictStage::CloseSync { node, .. } if *node + 1 < nodes => Progress::Silent,
            EvictStage::CloseSync { closing, .. } => Progress::Shown {
                event: closing.ends(which),
            },
            EvictStage::Close { .. } | EvictStage::Remove { .. } | EvictStage::RemoveSync { .. } =>
                { Progress::Silent }
            EvictStage::Over => Progress::Over,
        }
    }

    /// How many gates, members and syncs are left, on so many nodes.
    pub(crate) fn steps_left(&self, nodes: u8) -> u32
        requires { IsStage nodes self.now }
        ensures { result ≡ steps_left nodes self.now }
    {
        let all = nodes as u32;
        match self {
            EvictStage::Close { node, .. } => 2 * (all - *node as u32) + 2 * all,
            EvictStage::CloseSync { node, .. } => 2 * (all - *node as u32) + 2 * all - 1,
            EvictStage::Remove { node } => 2 * (all - *node as u32),
            EvictStage::RemoveSync { node } => 2 * (all - *node as u32) - 1,
            EvictStage::Over => 0,
        }
    }
}
