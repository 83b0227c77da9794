ghost use Rattle.std.specs.Prelude.{◌≡◌};
ghost use Rattle.commit_core.specs.Committing.{first_stage};

use crate::answers::Claimed;
use crate::change::NextChange;
use crate::claim::Claim;
use crate::ledger::Ledger;
use crate::listing::pieces_of;
use crate::piece::Piece;
use crate::set::CommitSet;
use crate::stage::CommitStage;
use ckpt_model::{Event, Progress};
use node_device::{Bay, Device};
use scr_base::{Bytes, Copies, Items, Memory, Scheme};
use site_calls::Trouble;
use std::alloc::Global;
use std::marker::Model;

/// A dataset on its way from files that are written to members that are whole and sealed.
#[derive(Debug, Drop)]
pub struct Commit {
    alloc: Global,
    set: CommitSet,
    stage: CommitStage,
    ledger: Ledger,
    /// The claims that are out, by ascending number.
    outs: Vec<Claim>,
}

impl Model for Commit {
    ghost use Rattle.commit_core.specs.Committing.{Committing};
    ghost use Rattle.commit_core.specs.Claiming.{IsCommitting};

    ghost Value = { Committing };

    ghost view = { λ c. record { set = c.set; stage = c.stage; book = c.ledger; outs = c.outs.items } };

    ghost invariant = { λ c. IsCommitting (record { set = c.set; stage = c.stage; book = c.ledger; outs = c.outs.items }) };
}

impl Commit {
    ghost use Rattle.std.specs.Prelude.{◌<◌, ℕ, List, All, Some, true, false, length, IsTrue, IfOk, IfSome, IfNone, OnErr, OnOk};
    ghost use Rattle.scr_base.specs.Sets.{fits_sets, nodes_of_group};
    ghost use Rattle.node_device.specs.Rack.{states_of};
    ghost use Rattle.commit_core.specs.Committing.{begun, stage_when, IsAnswer, shown_at, ready_at};
    ghost use Rattle.commit_core.specs.Stages.{IsStage, change_at, node_of, gates_left};
    ghost use Rattle.commit_core.specs.Changes.{MakesChange};
    ghost use Rattle.commit_core.specs.Steps.{IsOneChange, StepWrites, StepCause, IsLess, KeepsSite, TakesStep};
    ghost use Rattle.commit_core.specs.Holds.{is_refused};
    ghost use Rattle.site_calls.specs.Calls.{TellsAlike};
    ghost use Rattle.site_calls.specs.Writes.{PassesOn};
    ghost use Rattle.commit_core.specs.Claiming.{HandsOut, IsClaimed, next_piece, withdrawn};
    ghost use Rattle.commit_core.specs.ClaimReads.{ClaimAsks, ClaimReads, KeepsClaiming};
    ghost use Rattle.commit_core.specs.PieceClaims.{input_count};
    ghost use Rattle.commit_core.specs.PieceSets.{IsPieceIn};
    ghost use Rattle.commit_core.specs.Sets.{stream_lengths};

    /// The commit of a dataset whose files are written. It begins with the pieces of the shares, or where there are none with
    /// the records. Memory where there is none for it; it changes no device.
    pub fn new(alloc: Global, set: CommitSet) -> Result<Commit, Memory>
        requires { IsTrue (fits_sets set.desc.scheme set.desc.size set.desc.nodes) }
        ensures { IfOk result (λ commit. commit ≡ begun set) }
    {
        let lengths = set.lengths(alloc)?;
        let pieces = pieces_of(alloc, set.sets(), set.desc.ranks, lengths.as_slice())?;
        let ledger = Ledger::new(alloc, pieces)?;
        let stage = first_stage(set.desc.scheme);
        Ok(Commit {
            alloc,
            set,
            stage,
            ledger,
            outs: Vec::new(alloc),
        })
    }

    /// Hands out a claim for the first unclaimed share, with its inputs read, under the next number, counted from 1; it is out
    /// from now on. Reads change no device. NoneLeft exactly where no share is unclaimed; Fault only where that device's
    /// count rose to this in this call: then all shares and claims are withdrawn, and nothing is left to do. After Memory
    /// the commit is as before; it comes too where the greatest `u64` has been given.
    pub fn claim<D: Device>(&mut self, bay: &mut Bay<D>) -> Result<Claimed, Memory>
        ensures answer { IfOk result (IsClaimed self.old self.new) }
        ensures memory { OnErr result (self.new ≡ self.old) }
        ensures reads { ClaimReads (states_of D.state bay.old) (states_of D.state bay.new) result }
        ensures asks { ClaimAsks self.old.set (states_of D.state bay.old) result }
        ensures safe { OnOk result (KeepsClaiming self.old self.new (states_of D.state bay.old) (states_of D.state bay.new)) }
    {
        let Some(piece) = self.next_piece() else {
            return Ok(Claimed::NoneLeft);
        };
        match self.set.inputs_of(self.alloc, bay, piece) {
            Ok(inputs) => {
                let claim = self.hand_out(piece, inputs)?;
                Ok(Claimed::Out { claim })
            }
            Err(Trouble::Fault { node, count }) => {
                self.withdraw();
                Ok(Claimed::Fault { node, count })
            }
            Err(_) => Err(Memory),
        }
    }

    /// Whether no share is unclaimed and no claim is out, so that a step may come.
    pub fn is_ready(&self) -> bool
        ensures { result ≡ ready_at self.now.book self.now.stage }
    {
        match self.stage {
            CommitStage::Pieces => self.ledger.is_done(),
            _ => true,
        }
    }

    /// How many syncs and gate writes are left behind the pieces: each of them lowers it by one, a record leaves it, and it is 0
    /// where a device refused.
    pub fn gates_left(&self) -> u32
        ensures { result ≡ gates_left self.now.set.desc.nodes self.now.stage }
    {
        self.stage.gates_left(self.set.desc.nodes)
    }

    /// The next record, sync or gate write: at most one change of one device. Once all pieces are done the records come, each
    /// synced behind it, then the gates `whole` and then the gates `sealed`, each synced before the next. The first gate
    /// `sealed` shows Sealing, the last sync Settled; Over exactly where nothing is left to do. Fault only where that device's
    /// count rose in this step, Full exactly where the step's write would pass the capacity; after both nothing is left to
    /// do. After Memory the commit is as before. No share is unclaimed and no claim is out.
    pub fn step<D: Device>(&mut self, bay: &mut Bay<D>) -> Result<Progress, Memory>
        requires { ready_at self.old.book self.old.stage ≡ true }
        ensures set { self.new.set ≡ self.old.set }
        ensures book { self.new.book ≡ self.old.book }
        ensures outs { self.new.outs ≡ self.old.outs }
        ensures memory { OnErr result (self.new.stage ≡ self.old.stage) }
        ensures one { IsOneChange (states_of D.state bay.old) (states_of D.state bay.new) }
        ensures cause { StepCause (StepWrites self.old) (states_of D.state bay.old) (states_of D.state bay.new) result }
        ensures fits { IfOk result (λ progress. is_refused progress ≡ false → (place : ℕ) (name : List ℕ) (at count : ℕ) → StepWrites self.old place name at count → PassesOn (states_of D.state bay.old) place name at count → ⊥) }
        ensures left { IfOk result (IsLess self.old.set.desc.nodes self.old self.new) }
        ensures tells { TellsAlike (states_of D.state bay.old) (states_of D.state bay.new) }
        ensures safe { KeepsSite self.old self.new (states_of D.state bay.old) (states_of D.state bay.new) result }
    {
        self.advance(bay)
    }

    /// The same, with one record that says all of it.
    fn advance<D: Device>(&mut self, bay: &mut Bay<D>) -> Result<Progress, Memory>
        requires { ready_at self.old.book self.old.stage ≡ true }
        ensures { TakesStep self.old self.new (states_of D.state bay.old) (states_of D.state bay.new) result }
    {
        match self.next() {
            Some(change) => {
                let outcome = self.make(bay, change);
                self.take(outcome)
            }
            None => Ok(Progress::Over),
        }
    }

    /// The change that comes next.
    fn next(&self) -> Option<NextChange>
        ensures next { result ≡ change_at self.now.stage }
        ensures stage { IsStage self.now.set.desc.nodes self.now.stage }
    {
        self.stage.change()
    }

    /// Makes a change.
    fn make<D: Device>(&self, bay: &mut Bay<D>, change: NextChange) -> Result<(), Trouble>
        requires { node_of change < self.now.set.desc.nodes }
        ensures { MakesChange self.now.set change (states_of D.state bay.old) (states_of D.state bay.new) result }
    {
        self.set.make(self.alloc, bay, change)
    }

    /// The stage that the outcome of the next change leads to, and what is told of it.
    fn take(&mut self, outcome: Result<(), Trouble>) -> Result<Progress, Memory>
        ensures set { self.new.set ≡ self.old.set }
        ensures book { self.new.book ≡ self.old.book }
        ensures outs { self.new.outs ≡ self.old.outs }
        ensures stage { self.new.stage ≡ stage_when self.old.set.desc.nodes self.old.stage outcome }
        ensures answer { IsAnswer self.old.set.desc.nodes self.old.set.desc.which self.old.stage outcome result }
    {
        match outcome {
            Ok(()) => {
                let progress = self.shown();
                self.stage = self.stage.after(self.set.desc.nodes);
                Ok(progress)
            }
            Err(Trouble::Memory) => Err(Memory),
            Err(Trouble::Fault { node, count }) => {
                self.stage = CommitStage::Over;
                Ok(Progress::Fault { node, count })
            }
            Err(
                Trouble::Full {
                    node,
                    used,
                    capacity,
                },
            ) => {
                self.stage = CommitStage::Over;
                Ok(Progress::Full {
                    node,
                    used,
                    capacity,
                })
            }
        }
    }

    /// What the next change shows.
    fn shown(&self) -> Progress
        ensures { result ≡ shown_at self.now.set.desc.nodes self.now.set.desc.which self.now.stage }
    {
        let which = self.set.desc.which;
        match self.stage {
            CommitStage::Sealed { node } if node == 0 => Progress::Shown {
                event: Event::Sealing { which },
            },
            CommitStage::SealedSync { node } if node + 1 >= self.set.desc.nodes => Progress::Shown {
                event: Event::Settled { which },
            },
            CommitStage::Over => Progress::Over,
            _ => Progress::Silent,
        }
    }

    /// The first unclaimed piece.
    fn next_piece(&self) -> Option<Piece>
        ensures next { result ≡ next_piece self.now }
        ensures piece { IfSome result (IsPieceIn self.now.set.desc.scheme self.now.set.desc.nodes self.now.set.desc.ranks self.now.set.desc.size (stream_lengths self.now.set.files)) }
        ensures fits { IsTrue (fits_sets self.now.set.desc.scheme self.now.set.desc.size self.now.set.desc.nodes) }
    {
        match self.stage {
            CommitStage::Pieces => self.ledger.next(),
            _ => None,
        }
    }

    /// Hands out a claim for the first unclaimed piece, with these inputs.
    fn hand_out(&mut self, piece: Piece, inputs: Items<Bytes>) -> Result<Claim, Memory>
        requires next { next_piece self.old ≡ Some piece }
        requires count { length inputs ≡ input_count self.old.set.desc.scheme (length (nodes_of_group self.old.set.desc.nodes self.old.set.desc.size piece.group)) }
        requires sizes { All (λ input. length input ≡ piece.len) inputs }
        ensures claim { IfOk result (HandsOut self.old self.new) }
        ensures inputs { IfOk result (λ claim. claim.inputs ≡ inputs) }
        ensures memory { OnErr result (self.new ≡ self.old) }
    {
        let given = self.ledger.given();
        if given == u64::MAX {
            return Err(Memory);
        }
        let claim = self.set.claim_of(given + 1, piece, inputs);
        let kept = claim.copy(self.alloc)?;
        self.outs.reserve(1)?;
        self.ledger.numbers_differ();
        self.ledger.take();
        self.outs.push_reserved(kept);
        Ok(claim)
    }

    /// All shares and claims are withdrawn, and nothing is left to do.
    fn withdraw(&mut self)
        ensures { self.new ≡ withdrawn self.old }
    {
        self.ledger.withdraw();
        self.outs.clear();
        self.stage = CommitStage::Over;
    }
}

/// Where the commit of a dataset with this scheme begins.
fn first_stage(scheme: Scheme) -> CommitStage
    ensures { result ≡ first_stage scheme }
{
    match scheme {
        Scheme::Single => CommitStage::Record { node: 0 },
        Scheme::Partner | Scheme::Xor | Scheme::Rs { .. } => CommitStage::Pieces,
    }
}
