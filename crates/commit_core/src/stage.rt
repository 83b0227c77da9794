use crate::change::NextChange;
use member_store::MemberGate;

/// How far the commit of a dataset has come: the pieces of its shares, then each node's record and its sync, then each
/// gate `whole` and its sync, then each gate `sealed` and its sync, the nodes one after the other.
#[derive(Clone, Copy, Debug, PartialEq, Eq)]
pub enum CommitStage {
    /// Pieces of shares are claimed and deposited.
    Pieces,
    /// The node's record is written next.
    Record { node: u8 },
    /// The node's record was written, and is synced next.
    RecordSync { node: u8 },
    /// The node's gate `whole` is opened next.
    Whole { node: u8 },
    /// The node's gate `whole` was opened, and is synced next.
    WholeSync { node: u8 },
    /// The node's gate `sealed` is opened next.
    Sealed { node: u8 },
    /// The node's gate `sealed` was opened, and is synced next.
    SealedSync { node: u8 },
    /// Nothing is left to do: the dataset is settled, or a device refused.
    Over,
}

impl CommitStage {
    ghost use Rattle.std.specs.Prelude.{◌≡◌};
    ghost use Rattle.commit_core.specs.Stages.{change_at, IsStage, stage_after, gates_left};

    /// The change that comes next; once all pieces are done it is the first record.
    pub(crate) fn change(&self) -> Option<NextChange>
        ensures { result ≡ change_at self.now }
    {
        match self {
            CommitStage::Pieces => Some(NextChange::Record { node: 0 }),
            CommitStage::Record { node } => Some(NextChange::Record { node: *node }),
            CommitStage::RecordSync { node }
            | CommitStage::WholeSync { node }
            | CommitStage::SealedSync { node } => Some(NextChange::Sync { node: *node }),
            CommitStage::Whole { node } => Some(NextChange::Open {
                node: *node,
                gate: MemberGate::Whole,
            }),
            CommitStage::Sealed { node } => Some(NextChange::Open {
                node: *node,
                gate: MemberGate::Sealed,
            }),
            CommitStage::Over => None,
        }
    }

    /// Where that change leads, on so many nodes.
    pub(crate) fn after(&self, nodes: u8) -> CommitStage
        requires { IsStage nodes self.now }
        ensures { result ≡ stage_after nodes self.now }
    {
        match self {
            CommitStage::Pieces => CommitStage::RecordSync { node: 0 },
            CommitStage::Record { node } => CommitStage::RecordSync { node: *node },
            CommitStage::RecordSync { node } if *node + 1 < nodes => {
                CommitStage::Record { node: *node + 1 }
            }
            CommitStage::RecordSync { .. } => CommitStage::Whole { node: 0 },
            CommitStage::Whole { node } => CommitStage::WholeSync { node: *node },
            CommitStage::WholeSync { node } if *node + 1 < nodes => {
                CommitStage::Whole { node: *node + 1 }
            }
            CommitStage::WholeSync { .. } => CommitStage::Sealed { node: 0 },
            CommitStage::Sealed { node } => CommitStage::SealedSync { node: *node },
            CommitStage::SealedSync { node } if *node + 1 < nodes => {
                CommitStage::Sealed { node: *node + 1 }
            }
            CommitStage::SealedSync { .. } | CommitStage::Over => CommitStage::Over,
        }
    }

    /// How many syncs and gate writes are left behind the pieces, on so many nodes.
    pub(crate) fn gates_left(&self, nodes: u8) -> u32
        requires { IsStage nodes self.now }
        ensures { result ≡ gates_left nodes self.now }
    {
        let all = nodes as u32;
        match self {
            CommitStage::Pieces => 5 * all,
            CommitStage::Record { node } | CommitStage::RecordSync { node } => {
                all - *node as u32 + 4 * all
            }
            CommitStage::Whole { node } => 2 * (all - *node as u32) + 2 * all,
            CommitStage::WholeSync { node } => 2 * (all - *node as u32) + 2 * all - 1,
            CommitStage::Sealed { node } => 2 * (all - *node as u32),
            CommitStage::SealedSync { node } => 2 * (all - *node as u32) - 1,
            CommitStage::Over => 0,
        }
    }
}
