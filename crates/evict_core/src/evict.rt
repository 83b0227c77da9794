ghost use Rattle.std.specs.Prelude.{◌≡◌};

use crate::change::EvictChange;
use crate::closing::Closing;
use crate::set::EvictSet;
use crate::stage::EvictStage;
use ckpt_model::Progress;
use node_device::{Bay, Device};
use scr_base::Memory;
use site_calls::{Removal, Trouble};
use std::alloc::Global;
use std::marker::Model;

/// A dataset on its way out of the cache.
#[derive(Debug, Drop)]
pub struct Evict {
    alloc: Global,
    set: EvictSet,
    stage: EvictStage,
    removal: Removal,
}

impl Model for Evict {
    ghost use Rattle.evict_core.specs.Evicting.{Evicting, IsEvicting};

    ghost Value = { Evicting };

    ghost view = { λ e. record { set = e.set; stage = e.stage; removal = e.removal } };

    ghost invariant = { λ e. IsEvicting e.set e.stage e.removal };
}

impl Evict {
    ghost use Rattle.std.specs.Prelude.{◌<◌, ℕ, List, true, false, Some, Ok, IfOk, OnErr};
    ghost use Rattle.node_device.specs.Rack.{states_of};
    ghost use Rattle.evict_core.specs.Evicting.{closing_from, leaving_from, stage_when, removal_when, removal_at, IsAnswer};
    ghost use Rattle.evict_core.specs.Stages.{IsStage, change_at, node_of, steps_left};
    ghost use Rattle.evict_core.specs.Changes.{MakesChange, IsOf};
    ghost use Rattle.evict_core.specs.Steps.{IsOneChange, StepWrites, StepCause, IsLess, KeepsSite, KeepsUnsealed, TakesStep};
    ghost use Rattle.evict_core.specs.Holds.{is_refused};
    ghost use Rattle.site_calls.specs.Calls.{TellsAlike};
    ghost use Rattle.site_calls.specs.Writes.{PassesOn};

    /// A dataset in cache is to leave: its gates `sealed` are closed first. It changes no device.
    pub fn closing(alloc: Global, set: EvictSet, closing: Closing) -> Evict
        ensures { result ≡ closing_from set closing }
    {
        let removal = Removal::new(set.which, 0);
        Evict {
            alloc,
            set,
            stage: EvictStage::Close { closing, node: 0 },
            removal,
        }
    }

    /// A dataset that isn't in cache is to leave: no gate `sealed` of it was opened, and its files alone are removed. It changes
    /// no device.
    pub fn leaving(alloc: Global, set: EvictSet) -> Evict
        ensures { result ≡ leaving_from set }
    {
        let removal = Removal::new(set.which, 0);
        Evict {
            alloc,
            set,
            stage: EvictStage::Remove { node: 0 },
            removal,
        }
    }

    /// How many gates, members and syncs are left: each of them lowers it by one, the removal of one file of several leaves it,
    /// and it is 0 where nothing is left to do.
    pub fn steps_left(&self) -> u32
        ensures { result ≡ steps_left self.now.set.nodes self.now.stage }
    {
        self.stage.steps_left(self.set.nodes)
    }

    /// The next gate write, removal of a file, or sync: at most one change of one device. Each gate `sealed` is closed and synced
    /// before the next; then on each node the files of the member are removed, its record the last, and the node is synced
    /// before the next. The first closing shows Evicting or Failing, the sync of the last one Evicted or Failed; the removal
    /// shows nothing. Over exactly where nothing is left to do. Fault only where that device's count rose in this step, Full
    /// exactly where the step's write would pass the capacity; after both nothing is left to do. After Memory it is as before.
    pub fn step<D: Device>(&mut self, bay: &mut Bay<D>) -> Result<Progress, Memory>
        ensures set { self.new.set ≡ self.old.set }
        ensures memory { OnErr result (self.new ≡ self.old) }
        ensures one { IsOneChange self.old.set (states_of D.state bay.old) (states_of D.state bay.new) }
        ensures cause { StepCause (StepWrites self.old) (states_of D.state bay.old) (states_of D.state bay.new) result }
        ensures fits { IfOk result (λ progress. is_refused progress ≡ false → (place : ℕ) (name : List ℕ) (at count : ℕ) → StepWrites self.old place name at count → PassesOn (states_of D.state bay.old) place name at count → ⊥) }
        ensures left { IfOk result (IsLess self.old.set.nodes self.old self.new) }
        ensures tells { TellsAlike (states_of D.state bay.old) (states_of D.state bay.new) }
        ensures safe { KeepsSite self.old self.new (states_of D.state bay.old) (states_of D.state bay.new) result }
        ensures unsealed { KeepsUnsealed self.old (states_of D.state bay.old) (states_of D.state bay.new) }
    {
        self.advance(bay)
    }

    /// The same, with one record that says all of it.
    fn advance<D: Device>(&mut self, bay: &mut Bay<D>) -> Result<Progress, Memory>
        ensures { TakesStep self.old self.new (states_of D.state bay.old) (states_of D.state bay.new) result }
    {
        match self.next() {
            Some(change) => {
                let outcome = self.make(bay, change);
                self.take(outcome)
            }
            None => Ok(Progress::Over),
        }
    }

    /// The change that comes next.
    fn next(&self) -> Option<EvictChange>
        ensures next { result ≡ change_at self.now.stage }
        ensures stage { IsStage self.now.set.nodes self.now.stage }
    {
        self.stage.change()
    }

    /// Makes the next change; true exactly where it is whole.
    fn make<D: Device>(&mut self, bay: &mut Bay<D>, change: EvictChange) -> Result<bool, Trouble>
        requires next { change_at self.old.stage ≡ Some change }
        ensures set { self.new.set ≡ self.old.set }
        ensures stage { self.new.stage ≡ self.old.stage }
        ensures makes { MakesChange self.old.set change self.old.removal self.new.removal (states_of D.state bay.old) (states_of D.state bay.new) result }
    {
        self.set.make(self.alloc, bay, &mut self.removal, change)
    }

    /// The stage that the outcome of the next change leads to, and what is told of it.
    fn take(&mut self, outcome: Result<bool, Trouble>) -> Result<Progress, Memory>
        ensures set { self.new.set ≡ self.old.set }
        ensures stage { self.new.stage ≡ stage_when self.old.set.nodes self.old.stage outcome }
        ensures removal { self.new.removal ≡ removal_when self.old.set.nodes self.old.set.which self.old.stage outcome self.old.removal }
        ensures answer { IsAnswer self.old.set.nodes self.old.set.which self.old.stage outcome result }
    {
        match outcome {
            Ok(true) => {
                let progress = self.stage.shown(self.set.nodes, self.set.which);
                self.go_on();
                Ok(progress)
            }
            Ok(false) => Ok(Progress::Silent),
            Err(Trouble::Memory) => Err(Memory),
            Err(Trouble::Fault { node, count }) => {
                self.stage = EvictStage::Over;
                Ok(Progress::Fault { node, count })
            }
            Err(
                Trouble::Full {
                    node,
                    used,
                    capacity,
                },
            ) => {
                self.stage = EvictStage::Over;
                Ok(Progress::Full {
                    node,
                    used,
                    capacity,
                })
            }
        }
    }

    /// The next change is whole: the one behind it comes.
    fn go_on(&mut self)
        ensures set { self.new.set ≡ self.old.set }
        ensures stage { self.new.stage ≡ stage_when self.old.set.nodes self.old.stage (Ok true) }
        ensures removal { self.new.removal ≡ removal_at self.old.set.which self.new.stage self.old.removal }
    {
        let stage = self.stage.after(self.set.nodes);
        if let EvictStage::Remove { node } = stage {
            self.removal = Removal::new(self.set.which, node);
        }
        self.stage = stage;
    }
}
