// The moves of the encoder: each node's record is written, and its gates are opened.
ghost use Rattle.std.specs.Prelude.{◌≡◌, ◌+◌, ◌-◌, ◌*◌, ◌<◌, ◌≤◌, ◌^◌, true, false, None, Some, length, map, IfOk, OnOk, OnErr, if◌then◌else◌};
ghost use Rattle.node_device.specs.Rack.{states_of};
ghost use Rattle.site_state.specs.declared.run_state.SaveStep.TheVariants as work;
ghost use Rattle.scr_base.specs.declared.answers.Refusal.{Refusal};
ghost use Rattle.site_state.specs.Cores.{dropping_core};
ghost use Rattle.site_state.specs.Choosing.{is_to_save};
ghost use Rattle.site_state.specs.Waiting.{encoder_turn};
ghost use Rattle.site_calls.specs.Causes.{told_trouble};
ghost use Rattle.site_core.specs.Ahead.{Lowers};
ghost use Rattle.site_state.specs.Ahead.{IsToRecord, removal_ahead, stage_ahead};
ghost use Rattle.site_core.specs.Order.{KeepsOrder};
ghost use Rattle.scr_base.specs.declared.actor.Actor.TheVariants as actor;
ghost use Rattle.site_core.specs.Follows.{IsAsBefore, IsPlaced, Keeps, TellsBy, TellsEachFull, IsSameRun, Stays, IsSavingAt, TellsFaults, TellsOrCarries, carried};

use crate::site::Site;
use ckpt_model::Event;
use member_store::MemberGate;
use node_device::Device;
use scr_base::DataId;
use site_calls::{Trouble, put_gate, put_member, sync_node};
use site_state::{RunStage, SaveStep, SiteError, Turn, Why};

impl<D: Device> Site<D> {
    /// The encoder's turn.
    pub(crate) fn encode(&mut self) -> Result<Turn, SiteError>
        ensures run { OnOk result (Keeps D.state self.old self.new) }
        ensures lowers { IfOk result (λ turn. Lowers turn self.old self.new) }
        ensures order { OnOk result (KeepsOrder self.old self.new) }
        ensures told { OnOk result (TellsBy actor.Encoder D.state self.old self.new) }
        ensures full { OnOk result (TellsEachFull actor.Encoder D.state self.old self.new) }
        ensures spared { OnErr result (IsAsBefore D.state self.old self.new) }
        ensures accounted { OnOk result (TellsOrCarries D.state self.old self.new) }
        ensures placed { OnOk result (IsPlaced self.old.core self.new.core) }
        ensures fixed { IsSameRun D.state self.old self.new }
        ensures still { IfOk result (λ turn. Stays turn self.old self.new) }
        ensures waits { IfOk result (λ turn. turn ≡ encoder_turn self.old.core.stage self.old.core) }
    {
        match self.core.stage {
            RunStage::Serving => self.begin_saving(),
            RunStage::Saving { work, node } => self.save(work, node),
            RunStage::Begun
            | RunStage::Storing
            | RunStage::Looking
            | RunStage::Mending
            | RunStage::Dropping { .. }
            | RunStage::Dropped => Ok(Turn::NotYet { why: Why::Idle }),
            RunStage::Over => Ok(Turn::Ended),
        }
    }

    /// The open dataset is saved once the ranks ask for it.
    fn begin_saving(&mut self) -> Result<Turn, SiteError>
        requires stage { self.old.core.stage ≡ RunStage.Serving }
        ensures run { OnOk result (Keeps D.state self.old self.new) }
        ensures lowers { IfOk result (λ turn. Lowers turn self.old self.new) }
        ensures order { OnOk result (KeepsOrder self.old self.new) }
        ensures told { OnOk result (TellsBy actor.Encoder D.state self.old self.new) }
        ensures full { OnOk result (TellsEachFull actor.Encoder D.state self.old self.new) }
        ensures spared { OnErr result (IsAsBefore D.state self.old self.new) }
        ensures accounted { OnOk result (TellsOrCarries D.state self.old self.new) }
        ensures placed { OnOk result (IsPlaced self.old.core self.new.core) }
        ensures fixed { IsSameRun D.state self.old self.new }
        ensures still { IfOk result (λ turn. Stays turn self.old self.new) }
        ensures waits { IfOk result (λ turn. turn ≡ (if is_to_save self.old.core then Turn.Moved else Turn.NotYet Why.Idle)) }
    {
        let asked = self.core.is_to_save(self.alloc)?;
        let true = asked else {
            return Ok(Turn::NotYet { why: Why::Idle });
        };
        self.write_record(0)
    }

    /// The change that comes next.
    fn save(&mut self, work: SaveStep, node: u8) -> Result<Turn, SiteError>
        requires stage { self.old.core.stage ≡ RunStage.Saving work node }
        ensures run { OnOk result (Keeps D.state self.old self.new) }
        ensures lowers { IfOk result (λ turn. Lowers turn self.old self.new) }
        ensures order { OnOk result (KeepsOrder self.old self.new) }
        ensures told { OnOk result (TellsBy actor.Encoder D.state self.old self.new) }
        ensures full { OnOk result (TellsEachFull actor.Encoder D.state self.old self.new) }
        ensures spared { OnErr result (IsAsBefore D.state self.old self.new) }
        ensures accounted { OnOk result (TellsOrCarries D.state self.old self.new) }
        ensures placed { OnOk result (IsPlaced self.old.core self.new.core) }
        ensures fixed { IsSameRun D.state self.old self.new }
        ensures still { IfOk result (λ turn. Stays turn self.old self.new) }
        ensures moved { IfOk result (λ turn. turn ≡ Turn.Moved) }
    {
        match work {
            SaveStep::Record => self.write_record(node),
            SaveStep::RecordSync => self.sync_record(node),
            SaveStep::Whole => self.open_whole(node),
            SaveStep::WholeSync => self.sync_whole(node),
            SaveStep::Sealed => self.open_sealed(node),
            SaveStep::SealedSync => self.sync_sealed(node),
        }
    }

    /// A node's record is written, with its gates closed.
    fn write_record(&mut self, node: u8) -> Result<Turn, SiteError>
        requires saving { IsSavingAt D.state self.old work.Record node }
        requires stage { IsToRecord self.old.core.stage node }
        requires asked { self.old.core.stage ≡ RunStage.Serving → is_to_save self.old.core ≡ true }
        requires free { carried self.old.core ≡ None }
        ensures run { OnOk result (Keeps D.state self.old self.new) }
        ensures lowers { IfOk result (λ turn. Lowers turn self.old self.new) }
        ensures order { OnOk result (KeepsOrder self.old self.new) }
        ensures told { OnOk result (TellsBy actor.Encoder D.state self.old self.new) }
        ensures full { OnOk result (TellsEachFull actor.Encoder D.state self.old self.new) }
        ensures spared { OnErr result (IsAsBefore D.state self.old self.new) }
        ensures accounted { OnOk result (TellsOrCarries D.state self.old self.new) }
        ensures placed { OnOk result (IsPlaced self.old.core self.new.core) }
        ensures fixed { IsSameRun D.state self.old self.new }
        ensures still { IfOk result (λ turn. Stays turn self.old self.new) }
        ensures moved { IfOk result (λ turn. turn ≡ Turn.Moved) }
    {
        let Some(place) = self.core.places.of_node(node) else {
            return Err(SiteError::Memory);
        };
        let Some(m) = &self.core.opened else {
            return Err(SiteError::Memory);
        };
        if node >= m.desc.nodes
            || m.files.ranks() as u32 != m.desc.nodes as u32 * m.desc.ranks as u32
        {
            return Err(SiteError::Memory);
        }
        let which = m.desc.which;
        match put_member(self.alloc, &mut self.bay, place, node, &m.desc, &m.files) {
            Ok(()) => {
                self.core.stage = RunStage::Saving {
                    work: SaveStep::RecordSync,
                    node,
                };
                Ok(Turn::Moved)
            }
            Err(trouble) => self.carry(which, trouble),
        }
    }

    /// A node's record is made stable.
    fn sync_record(&mut self, node: u8) -> Result<Turn, SiteError>
        requires stage { self.old.core.stage ≡ RunStage.Saving SaveStep.RecordSync node }
        ensures run { OnOk result (Keeps D.state self.old self.new) }
        ensures lowers { IfOk result (λ turn. Lowers turn self.old self.new) }
        ensures order { OnOk result (KeepsOrder self.old self.new) }
        ensures told { OnOk result (TellsBy actor.Encoder D.state self.old self.new) }
        ensures spared { OnErr result (IsAsBefore D.state self.old self.new) }
        ensures accounted { OnOk result (TellsOrCarries D.state self.old self.new) }
        ensures placed { OnOk result (IsPlaced self.old.core self.new.core) }
        ensures fixed { IsSameRun D.state self.old self.new }
        ensures still { IfOk result (λ turn. Stays turn self.old self.new) }
        ensures moved { IfOk result (λ turn. turn ≡ Turn.Moved) }
    {
        let Some(place) = self.core.places.of_node(node) else {
            return Err(SiteError::Memory);
        };
        let Some(m) = &self.core.opened else {
            return Err(SiteError::Memory);
        };
        let which = m.desc.which;
        match sync_node(&mut self.bay, place) {
            Ok(()) => {
                self.core.stage = self.core.after(node, SaveStep::Record, SaveStep::Whole);
                Ok(Turn::Moved)
            }
            Err(trouble) => self.carry(which, trouble),
        }
    }

    /// A node's gate `whole` is opened.
    fn open_whole(&mut self, node: u8) -> Result<Turn, SiteError>
        requires stage { self.old.core.stage ≡ RunStage.Saving SaveStep.Whole node }
        ensures run { OnOk result (Keeps D.state self.old self.new) }
        ensures lowers { IfOk result (λ turn. Lowers turn self.old self.new) }
        ensures order { OnOk result (KeepsOrder self.old self.new) }
        ensures told { OnOk result (TellsBy actor.Encoder D.state self.old self.new) }
        ensures full { OnOk result (TellsEachFull actor.Encoder D.state self.old self.new) }
        ensures spared { OnErr result (IsAsBefore D.state self.old self.new) }
        ensures accounted { OnOk result (TellsFaults D.state self.old self.new) }
        ensures placed { OnOk result (IsPlaced self.old.core self.new.core) }
        ensures fixed { IsSameRun D.state self.old self.new }
        ensures still { IfOk result (λ turn. Stays turn self.old self.new) }
        ensures moved { IfOk result (λ turn. turn ≡ Turn.Moved) }
    {
        let Some(place) = self.core.places.of_node(node) else {
            return Err(SiteError::Memory);
        };
        let Some(which) = self.core.saved() else {
            return Err(SiteError::Memory);
        };
        self.history.reserve(2)?;
        match put_gate(&mut self.bay, place, which, node, MemberGate::Whole) {
            Ok(()) => {
                self.core.stage = RunStage::Saving {
                    work: SaveStep::WholeSync,
                    node,
                };
                Ok(Turn::Moved)
            }
            Err(trouble) => self.stop_by_fault(trouble),
        }
    }

    /// A node's gate `whole` is made stable.
    fn sync_whole(&mut self, node: u8) -> Result<Turn, SiteError>
        requires stage { self.old.core.stage ≡ RunStage.Saving SaveStep.WholeSync node }
        ensures run { OnOk result (Keeps D.state self.old self.new) }
        ensures lowers { IfOk result (λ turn. Lowers turn self.old self.new) }
        ensures order { OnOk result (KeepsOrder self.old self.new) }
        ensures told { OnOk result (TellsBy actor.Encoder D.state self.old self.new) }
        ensures spared { OnErr result (IsAsBefore D.state self.old self.new) }
        ensures accounted { OnOk result (TellsFaults D.state self.old self.new) }
        ensures placed { OnOk result (IsPlaced self.old.core self.new.core) }
        ensures fixed { IsSameRun D.state self.old self.new }
        ensures still { IfOk result (λ turn. Stays turn self.old self.new) }
        ensures moved { IfOk result (λ turn. turn ≡ Turn.Moved) }
    {
        let Some(place) = self.core.places.of_node(node) else {
            return Err(SiteError::Memory);
        };
        self.history.reserve(2)?;
        match sync_node(&mut self.bay, place) {
            Ok(()) => {
                self.core.stage = self.core.after(node, SaveStep::Whole, SaveStep::Sealed);
                Ok(Turn::Moved)
            }
            Err(trouble) => self.stop_by_fault(trouble),
        }
    }

    /// A node's gate `sealed` is opened; at the first, the dataset is in cache.
    fn open_sealed(&mut self, node: u8) -> Result<Turn, SiteError>
        requires stage { self.old.core.stage ≡ RunStage.Saving SaveStep.Sealed node }
        ensures run { OnOk result (Keeps D.state self.old self.new) }
        ensures lowers { IfOk result (λ turn. Lowers turn self.old self.new) }
        ensures order { OnOk result (KeepsOrder self.old self.new) }
        ensures told { OnOk result (TellsBy actor.Encoder D.state self.old self.new) }
        ensures full { OnOk result (TellsEachFull actor.Encoder D.state self.old self.new) }
        ensures spared { OnErr result (IsAsBefore D.state self.old self.new) }
        ensures accounted { OnOk result (TellsFaults D.state self.old self.new) }
        ensures placed { OnOk result (IsPlaced self.old.core self.new.core) }
        ensures fixed { IsSameRun D.state self.old self.new }
        ensures still { IfOk result (λ turn. Stays turn self.old self.new) }
        ensures moved { IfOk result (λ turn. turn ≡ Turn.Moved) }
    {
        match &self.core.opened {
            Some(_) => self.seal_first(node),
            None => self.seal_next(node),
        }
    }

    /// The first gate `sealed` is opened: the dataset is in cache.
    fn seal_first(&mut self, node: u8) -> Result<Turn, SiteError>
        requires stage { self.old.core.stage ≡ RunStage.Saving SaveStep.Sealed node }
        ensures run { OnOk result (Keeps D.state self.old self.new) }
        ensures lowers { IfOk result (λ turn. Lowers turn self.old self.new) }
        ensures order { OnOk result (KeepsOrder self.old self.new) }
        ensures told { OnOk result (TellsBy actor.Encoder D.state self.old self.new) }
        ensures full { OnOk result (TellsEachFull actor.Encoder D.state self.old self.new) }
        ensures spared { OnErr result (IsAsBefore D.state self.old self.new) }
        ensures accounted { OnOk result (TellsFaults D.state self.old self.new) }
        ensures placed { OnOk result (IsPlaced self.old.core self.new.core) }
        ensures fixed { IsSameRun D.state self.old self.new }
        ensures still { IfOk result (λ turn. Stays turn self.old self.new) }
        ensures moved { IfOk result (λ turn. turn ≡ Turn.Moved) }
    {
        let Some(place) = self.core.places.of_node(node) else {
            return Err(SiteError::Memory);
        };
        let Some(m) = &self.core.opened else {
            return Err(SiteError::Memory);
        };
        let which = m.desc.which;
        self.history.reserve(2)?;
        self.core.seal()?;
        match put_gate(&mut self.bay, place, which, node, MemberGate::Sealed) {
            Ok(()) => {
                let Ok(()) = self.history.push(Event::Sealing { which }) else {
                    unreachable!()
                };
                self.core.stage = RunStage::Saving {
                    work: SaveStep::SealedSync,
                    node,
                };
                Ok(Turn::Moved)
            }
            Err(trouble) => {
                self.core.unseal();
                self.stop_by_fault(trouble)
            }
        }
    }

    /// A later node's gate `sealed` is opened.
    fn seal_next(&mut self, node: u8) -> Result<Turn, SiteError>
        requires stage { self.old.core.stage ≡ RunStage.Saving SaveStep.Sealed node }
        requires closed { self.old.core.opened ≡ None }
        ensures run { OnOk result (Keeps D.state self.old self.new) }
        ensures lowers { IfOk result (λ turn. Lowers turn self.old self.new) }
        ensures order { OnOk result (KeepsOrder self.old self.new) }
        ensures told { OnOk result (TellsBy actor.Encoder D.state self.old self.new) }
        ensures full { OnOk result (TellsEachFull actor.Encoder D.state self.old self.new) }
        ensures spared { OnErr result (IsAsBefore D.state self.old self.new) }
        ensures accounted { OnOk result (TellsFaults D.state self.old self.new) }
        ensures placed { OnOk result (IsPlaced self.old.core self.new.core) }
        ensures fixed { IsSameRun D.state self.old self.new }
        ensures still { IfOk result (λ turn. Stays turn self.old self.new) }
        ensures moved { IfOk result (λ turn. turn ≡ Turn.Moved) }
    {
        let Some(place) = self.core.places.of_node(node) else {
            return Err(SiteError::Memory);
        };
        let Some(which) = self.core.saved() else {
            return Err(SiteError::Memory);
        };
        self.history.reserve(2)?;
        match put_gate(&mut self.bay, place, which, node, MemberGate::Sealed) {
            Ok(()) => {
                self.core.stage = RunStage::Saving {
                    work: SaveStep::SealedSync,
                    node,
                };
                Ok(Turn::Moved)
            }
            Err(trouble) => self.stop_by_fault(trouble),
        }
    }

    /// A node's gate `sealed` is made stable; after the last, the dataset is settled.
    fn sync_sealed(&mut self, node: u8) -> Result<Turn, SiteError>
        requires stage { self.old.core.stage ≡ RunStage.Saving SaveStep.SealedSync node }
        ensures run { OnOk result (Keeps D.state self.old self.new) }
        ensures lowers { IfOk result (λ turn. Lowers turn self.old self.new) }
        ensures order { OnOk result (KeepsOrder self.old self.new) }
        ensures told { OnOk result (TellsBy actor.Encoder D.state self.old self.new) }
        ensures spared { OnErr result (IsAsBefore D.state self.old self.new) }
        ensures accounted { OnOk result (TellsFaults D.state self.old self.new) }
        ensures placed { OnOk result (IsPlaced self.old.core self.new.core) }
        ensures fixed { IsSameRun D.state self.old self.new }
        ensures still { IfOk result (λ turn. Stays turn self.old self.new) }
        ensures moved { IfOk result (λ turn. turn ≡ Turn.Moved) }
    {
        if node < self.core.shape.nodes - 1 {
            self.sync_next(node)
        } else {
            self.settle(node)
        }
    }

    /// A node's gate `sealed` is made stable, and another node comes.
    fn sync_next(&mut self, node: u8) -> Result<Turn, SiteError>
        requires stage { self.old.core.stage ≡ RunStage.Saving SaveStep.SealedSync node }
        requires more { node < self.old.core.shape.nodes - 1 }
        ensures run { OnOk result (Keeps D.state self.old self.new) }
        ensures lowers { IfOk result (λ turn. Lowers turn self.old self.new) }
        ensures order { OnOk result (KeepsOrder self.old self.new) }
        ensures told { OnOk result (TellsBy actor.Encoder D.state self.old self.new) }
        ensures spared { OnErr result (IsAsBefore D.state self.old self.new) }
        ensures accounted { OnOk result (TellsFaults D.state self.old self.new) }
        ensures placed { OnOk result (IsPlaced self.old.core self.new.core) }
        ensures fixed { IsSameRun D.state self.old self.new }
        ensures still { IfOk result (λ turn. Stays turn self.old self.new) }
        ensures moved { IfOk result (λ turn. turn ≡ Turn.Moved) }
    {
        let Some(place) = self.core.places.of_node(node) else {
            return Err(SiteError::Memory);
        };
        self.history.reserve(2)?;
        match sync_node(&mut self.bay, place) {
            Ok(()) => {
                self.core.stage = RunStage::Saving {
                    work: SaveStep::Sealed,
                    node: node + 1,
                };
                Ok(Turn::Moved)
            }
            Err(trouble) => self.stop_by_fault(trouble),
        }
    }

    /// The last gate `sealed` is made stable: the dataset is settled.
    fn settle(&mut self, node: u8) -> Result<Turn, SiteError>
        requires stage { self.old.core.stage ≡ RunStage.Saving SaveStep.SealedSync node }
        requires last { self.old.core.shape.nodes ≤ node + 1 }
        ensures run { OnOk result (Keeps D.state self.old self.new) }
        ensures lowers { IfOk result (λ turn. Lowers turn self.old self.new) }
        ensures order { OnOk result (KeepsOrder self.old self.new) }
        ensures told { OnOk result (TellsBy actor.Encoder D.state self.old self.new) }
        ensures spared { OnErr result (IsAsBefore D.state self.old self.new) }
        ensures accounted { OnOk result (TellsFaults D.state self.old self.new) }
        ensures placed { OnOk result (IsPlaced self.old.core self.new.core) }
        ensures fixed { IsSameRun D.state self.old self.new }
        ensures still { IfOk result (λ turn. Stays turn self.old self.new) }
        ensures moved { IfOk result (λ turn. turn ≡ Turn.Moved) }
    {
        let Some(place) = self.core.places.of_node(node) else {
            return Err(SiteError::Memory);
        };
        let Some(which) = self.core.saved() else {
            return Err(SiteError::Memory);
        };
        let None = &self.core.opened else {
            return Err(SiteError::Memory);
        };
        if self.core.settled == u32::MAX {
            return Err(SiteError::Memory);
        }
        self.history.reserve(2)?;
        match sync_node(&mut self.bay, place) {
            Ok(()) => {
                let Ok(()) = self.history.push(Event::Settled { which }) else {
                    unreachable!()
                };
                self.core.settle(which);
                Ok(Turn::Moved)
            }
            Err(trouble) => self.stop_by_fault(trouble),
        }
    }

    /// A device refused the round, which carries that; this dataset is to be removed. It takes no memory: where the call itself
    /// found none, all is as before.
    fn carry(&mut self, which: DataId, trouble: Trouble) -> Result<Turn, SiteError>
        ensures core { OnOk result ((refusal : Refusal) × (told_trouble trouble ≡ Some refusal) × (self.new.core ≡ dropping_core self.old.core which (Some refusal))) }
        ensures moved { IfOk result (λ turn. turn ≡ Turn.Moved) }
        ensures memory { OnErr result (trouble ≡ Trouble.Memory) }
        ensures refused { OnErr result (self.new ≡ self.old) }
        ensures lowers { removal_ahead self.old.core.shape.nodes (length self.old.core.ranks) < stage_ahead self.old.core.stage self.old.core → IfOk result (λ turn. Lowers turn self.old self.new) }
        ensures order { OnOk result (KeepsOrder self.old self.new) }
        ensures history { self.new.history ≡ self.old.history }
        ensures fixed { IsSameRun D.state self.old self.new }
        ensures bay { self.new.bay ≡ self.old.bay }
    {
        let refusal = trouble.refusal()?;
        self.core.begin_dropping(which, Some(refusal));
        Ok(Turn::Moved)
    }
}
