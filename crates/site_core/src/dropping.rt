// The moves of the evictor: the files of an open dataset that isn't to be kept are removed.
ghost use Rattle.std.specs.Prelude.{◌≡◌, ◌+◌, ◌<◌, ◌≤◌, true, None, Some, IfOk, OnOk, OnErr, if◌then◌else◌};
ghost use Rattle.site_state.specs.Choosing.{is_to_drop};
ghost use Rattle.site_state.specs.Waiting.{evictor_turn};
ghost use Rattle.site_core.specs.Ahead.{Lowers};
ghost use Rattle.site_core.specs.Order.{KeepsOrder};
ghost use Rattle.site_core.specs.Follows.{IsAsBefore, Keeps, TellsBy, TellsRound, IsSameRun, Stays, TellsFaults, KeepsCarried};
ghost use Rattle.scr_base.specs.declared.actor.Actor.TheVariants as actor;
ghost use Rattle.node_device.specs.Rack.{states_of};

use crate::site::Site;
use ckpt_model::{Event, Kind};
use node_device::Device;
use site_calls::{Removal, drop_file, sync_node};
use site_state::{DropStep, RunStage, SiteError, Turn, Why};

impl<D: Device> Site<D> {
    /// The evictor's turn.
    pub(crate) fn evict(&mut self) -> Result<Turn, SiteError>
        ensures run { OnOk result (Keeps D.state self.old self.new) }
        ensures lowers { IfOk result (λ turn. Lowers turn self.old self.new) }
        ensures order { OnOk result (KeepsOrder self.old self.new) }
        ensures told { OnOk result (TellsBy actor.Evictor D.state self.old self.new) }
        ensures spared { OnErr result (IsAsBefore D.state self.old self.new) }
        ensures accounted { OnOk result (TellsFaults D.state self.old self.new) }
        ensures kept { OnOk result (KeepsCarried self.old self.new) }
        ensures fixed { IsSameRun D.state self.old self.new }
        ensures still { IfOk result (λ turn. Stays turn self.old self.new) }
        ensures waits { IfOk result (λ turn. turn ≡ evictor_turn self.old.core.stage self.old.core) }
    {
        match self.core.stage {
            RunStage::Serving => self.begin_dropping(),
            RunStage::Dropping { drop, node } => self.drop_on(drop, node),
            RunStage::Begun
            | RunStage::Storing
            | RunStage::Looking
            | RunStage::Mending
            | RunStage::Saving { .. }
            | RunStage::Dropped => Ok(Turn::NotYet { why: Why::Idle }),
            RunStage::Over => Ok(Turn::Ended),
        }
    }

    /// The removal begins once the ranks ask for it.
    fn begin_dropping(&mut self) -> Result<Turn, SiteError>
        requires stage { self.old.core.stage ≡ RunStage.Serving }
        ensures run { OnOk result (Keeps D.state self.old self.new) }
        ensures lowers { IfOk result (λ turn. Lowers turn self.old self.new) }
        ensures order { OnOk result (KeepsOrder self.old self.new) }
        ensures told { OnOk result (TellsBy actor.Evictor D.state self.old self.new) }
        ensures spared { OnErr result (IsAsBefore D.state self.old self.new) }
        ensures accounted { OnOk result (TellsFaults D.state self.old self.new) }
        ensures fixed { IsSameRun D.state self.old self.new }
        ensures still { IfOk result (λ turn. Stays turn self.old self.new) }
        ensures waits { IfOk result (λ turn. turn ≡ (if is_to_drop self.old.core then Turn.Moved else Turn.NotYet Why.Idle)) }
    {
        let asked = self.core.to_drop(self.alloc)?;
        let Some(which) = asked else {
            return Ok(Turn::NotYet { why: Why::Idle });
        };
        self.core.begin_dropping(which, None);
        Ok(Turn::Moved)
    }

    /// The change that comes next.
    fn drop_on(&mut self, drop: DropStep, node: u8) -> Result<Turn, SiteError>
        requires stage { self.old.core.stage ≡ RunStage.Dropping drop node }
        ensures run { OnOk result (Keeps D.state self.old self.new) }
        ensures lowers { IfOk result (λ turn. Lowers turn self.old self.new) }
        ensures order { OnOk result (KeepsOrder self.old self.new) }
        ensures told { OnOk result (TellsBy actor.Evictor D.state self.old self.new) }
        ensures spared { OnErr result (IsAsBefore D.state self.old self.new) }
        ensures accounted { OnOk result (TellsFaults D.state self.old self.new) }
        ensures kept { OnOk result (KeepsCarried self.old self.new) }
        ensures fixed { IsSameRun D.state self.old self.new }
        ensures still { IfOk result (λ turn. Stays turn self.old self.new) }
        ensures moved { IfOk result (λ turn. turn ≡ Turn.Moved) }
    {
        match drop {
            DropStep::File => self.remove_file(node),
            DropStep::Sync => self.sync_removal(node),
        }
    }

    /// A file of the node's member is removed, if one is left.
    fn remove_file(&mut self, node: u8) -> Result<Turn, SiteError>
        requires stage { self.old.core.stage ≡ RunStage.Dropping DropStep.File node }
        ensures run { OnOk result (Keeps D.state self.old self.new) }
        ensures lowers { IfOk result (λ turn. Lowers turn self.old self.new) }
        ensures order { OnOk result (KeepsOrder self.old self.new) }
        ensures told { OnOk result (TellsBy actor.Evictor D.state self.old self.new) }
        ensures spared { OnErr result (IsAsBefore D.state self.old self.new) }
        ensures accounted { OnOk result (TellsFaults D.state self.old self.new) }
        ensures kept { OnOk result (KeepsCarried self.old self.new) }
        ensures fixed { IsSameRun D.state self.old self.new }
        ensures still { IfOk result (λ turn. Stays turn self.old self.new) }
        ensures moved { IfOk result (λ turn. turn ≡ Turn.Moved) }
    {
        let Some(place) = self.core.places.of_node(node) else {
            return Err(SiteError::Memory);
        };
        self.history.reserve(2)?;
        match drop_file(self.alloc, &mut self.bay, place, &mut self.core.removal) {
            Ok(true) => {
                self.core.stage = RunStage::Dropping {
                    drop: DropStep::Sync,
                    node,
                };
                Ok(Turn::Moved)
            }
            Ok(false) => Ok(Turn::Moved),
            Err(trouble) => self.stop_by_fault(trouble),
        }
    }

    /// What was removed on the node is made stable; the next node comes, or the round is to be decided.
    fn sync_removal(&mut self, node: u8) -> Result<Turn, SiteError>
        requires stage { self.old.core.stage ≡ RunStage.Dropping DropStep.Sync node }
        ensures run { OnOk result (Keeps D.state self.old self.new) }
        ensures lowers { IfOk result (λ turn. Lowers turn self.old self.new) }
        ensures order { OnOk result (KeepsOrder self.old self.new) }
        ensures told { OnOk result (TellsBy actor.Evictor D.state self.old self.new) }
        ensures spared { OnErr result (IsAsBefore D.state self.old self.new) }
        ensures accounted { OnOk result (TellsFaults D.state self.old self.new) }
        ensures kept { OnOk result (KeepsCarried self.old self.new) }
        ensures fixed { IsSameRun D.state self.old self.new }
        ensures still { IfOk result (λ turn. Stays turn self.old self.new) }
        ensures moved { IfOk result (λ turn. turn ≡ Turn.Moved) }
    {
        let Some(place) = self.core.places.of_node(node) else {
            return Err(SiteError::Memory);
        };
        self.history.reserve(2)?;
        match sync_node(&mut self.bay, place) {
            Ok(()) => {
                self.core.drop_after(node);
                Ok(Turn::Moved)
            }
            Err(trouble) => self.stop_by_fault(trouble),
        }
    }

    /// The round is decided: the dataset isn't kept, or a device refused it.
    pub(crate) fn decide_dropped(&mut self) -> Result<Turn, SiteError>
        requires stage { self.old.core.stage ≡ RunStage.Dropped }
        ensures run { OnOk result (Keeps D.state self.old self.new) }
        ensures lowers { IfOk result (λ turn. Lowers turn self.old self.new) }
        ensures order { OnOk result (KeepsOrder self.old self.new) }
        ensures told { OnOk result (TellsRound D.state self.old self.new) }
        ensures spared { OnErr result (IsAsBefore D.state self.old self.new) }
        ensures accounted { OnOk result (TellsFaults D.state self.old self.new) }
        ensures kept { OnOk result (KeepsCarried self.old self.new) }
        ensures fixed { IsSameRun D.state self.old self.new }
        ensures still { IfOk result (λ turn. Stays turn self.old self.new) }
        ensures moved { IfOk result (λ turn. turn ≡ Turn.Moved) }
    {
        let answer = self.core.dropped_answer();
        self.history.reserve(2)?;
        self.core.ranks.decide(self.alloc, &answer)?;
        let Ok(()) = self.history.push(Event::Decided {
            kind: Kind::Complete,
            answer,
        })
        else {
            unreachable!()
        };
        self.core.close_dropped();
        Ok(Turn::Moved)
    }
}
