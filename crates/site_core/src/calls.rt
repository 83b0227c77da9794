// A rank's turn: it takes its next step, waits for a round, or takes its reply.
ghost use Rattle.std.specs.Prelude.{◌≡◌, ◌+◌, ◌*◌, ◌<◌, ◌≤◌, ◌^◌, true, false, None, Some, length, map, IfOk, OnOk, OnErr, [], slice_get, position, unwrap_or};
ghost use Rattle.node_device.specs.Rack.{states_of};
ghost use Rattle.scr_base.specs.declared.content.Step.TheVariants as step;
ghost use Rattle.round_core.specs.declared.seat.Seat.{Seat};
ghost use Rattle.round_core.specs.Seats.{next_number, is_missing};
ghost use Rattle.site_state.specs.Waiting.{changes_left, rank_turn, serving_turn, round_turn, free_turn};
ghost use Rattle.site_core.specs.Ahead.{Lowers};
ghost use Rattle.site_core.specs.Order.{KeepsOrder};
ghost use Rattle.site_core.specs.Follows.{IsAsBefore, Keeps, TellsBy, TellsRound, TellsEachFull, IsSameRun, Stays, TellsFaults, KeepsCarried};
ghost use Rattle.scr_base.specs.declared.actor.Actor.TheVariants as actor;
ghost use Rattle.site_state.specs.Steps.{IsFreeSeat, IsNextCall};

use crate::events::push;
use crate::site::Site;
use ckpt_model::Event;
use node_device::Device;
use round_core::{Doing, Seat, is_local_step};
use scr_base::{Copies, Step};
use site_state::{RunStage, SaveStep, SiteError, Turn, Why};

impl<D: Device> Site<D> {
    /// A rank's turn.
    pub(crate) fn rank(&mut self, rank: u8) -> Result<Turn, SiteError>
        requires rank { rank < length self.old.core.ranks }
        ensures run { OnOk result (Keeps D.state self.old self.new) }
        ensures lowers { IfOk result (λ turn. Lowers turn self.old self.new) }
        ensures order { OnOk result (KeepsOrder self.old self.new) }
        ensures told { OnOk result (TellsBy (actor.Rank rank) D.state self.old self.new) }
        ensures full { OnOk result (TellsEachFull (actor.Rank rank) D.state self.old self.new) }
        ensures spared { OnErr result (IsAsBefore D.state self.old self.new) }
        ensures accounted { OnOk result (TellsFaults D.state self.old self.new) }
        ensures kept { OnOk result (KeepsCarried self.old self.new) }
        ensures fixed { IsSameRun D.state self.old self.new }
        ensures still { IfOk result (λ turn. Stays turn self.old self.new) }
        ensures waits { IfOk result (λ turn. turn ≡ rank_turn self.old.core.stage self.old.core self.old.programs rank) }
    {
        match self.core.stage {
            RunStage::Serving => self.serve(rank),
            RunStage::Saving { work, node } => Ok(Turn::NotYet {
                why: Why::Encode {
                    left: changes_left(work, node, self.core.shape.nodes),
                },
            }),
            RunStage::Dropping { .. } => Ok(Turn::NotYet {
                why: Why::Evict {
                    id: self.core.removal.id(),
                },
            }),
            RunStage::Dropped => self.decide_dropped(),
            RunStage::Over => Ok(Turn::Ended),
            _ => Ok(Turn::NotYet { why: Why::Recover }),
        }
    }

    /// A rank that waits has its round decided; a rank that is free takes its next step.
    fn serve(&mut self, rank: u8) -> Result<Turn, SiteError>
        requires stage { self.old.core.stage ≡ RunStage.Serving }
        ensures run { OnOk result (Keeps D.state self.old self.new) }
        ensures lowers { IfOk result (λ turn. Lowers turn self.old self.new) }
        ensures order { OnOk result (KeepsOrder self.old self.new) }
        ensures told { OnOk result (TellsBy (actor.Rank rank) D.state self.old self.new) }
        ensures full { OnOk result (TellsEachFull (actor.Rank rank) D.state self.old self.new) }
        ensures spared { OnErr result (IsAsBefore D.state self.old self.new) }
        ensures accounted { OnOk result (TellsFaults D.state self.old self.new) }
        ensures fixed { IsSameRun D.state self.old self.new }
        ensures still { IfOk result (λ turn. Stays turn self.old self.new) }
        ensures waits { IfOk result (λ turn. turn ≡ serving_turn self.old.core self.old.programs rank (slice_get self.old.core.ranks rank)) }
    {
        let Some(seat) = self.core.ranks.seat(rank) else {
            return Err(SiteError::Memory);
        };
        match &seat.doing {
            Doing::Free => self.go_on(rank),
            Doing::Waits { step: _ } => self.wait(),
            Doing::Owed { reply: _ } => self.reply(rank),
        }
    }

    /// The round is decided once every rank has called.
    fn wait(&mut self) -> Result<Turn, SiteError>
        requires stage { self.old.core.stage ≡ RunStage.Serving }
        ensures run { OnOk result (Keeps D.state self.old self.new) }
        ensures lowers { IfOk result (λ turn. Lowers turn self.old self.new) }
        ensures order { OnOk result (KeepsOrder self.old self.new) }
        ensures told { OnOk result (TellsRound D.state self.old self.new) }
        ensures spared { OnErr result (IsAsBefore D.state self.old self.new) }
        ensures accounted { OnOk result (TellsFaults D.state self.old self.new) }
        ensures fixed { IsSameRun D.state self.old self.new }
        ensures still { IfOk result (λ turn. Stays turn self.old self.new) }
        ensures waits { IfOk result (λ turn. turn ≡ round_turn self.old.core (position is_missing self.old.core.ranks)) }
    {
        match self.core.ranks.missing() {
            Some(rank) => Ok(Turn::NotYet {
                why: Why::Round { rank },
            }),
            None => self.decide(),
        }
    }

    /// The rank takes its reply.
    fn reply(&mut self, rank: u8) -> Result<Turn, SiteError>
        requires stage { self.old.core.stage ≡ RunStage.Serving }
        ensures run { OnOk result (Keeps D.state self.old self.new) }
        ensures lowers { IfOk result (λ turn. Lowers turn self.old self.new) }
        ensures order { OnOk result (KeepsOrder self.old self.new) }
        ensures told { OnOk result (TellsBy (actor.Rank rank) D.state self.old self.new) }
        ensures spared { OnErr result (IsAsBefore D.state self.old self.new) }
        ensures accounted { OnOk result (TellsFaults D.state self.old self.new) }
        ensures fixed { IsSameRun D.state self.old self.new }
        ensures still { IfOk result (λ turn. Stays turn self.old self.new) }
        ensures moved { IfOk result (λ turn. turn ≡ Turn.Moved) }
    {
        let Some(seat) = self.core.ranks.seat(rank) else {
            return Err(SiteError::Memory);
        };
        let number = seat.number;
        self.history.reserve(2)?;
        let Some(answer) = self.core.ranks.take_reply(rank) else {
            return Err(SiteError::Memory);
        };
        let Ok(()) = self.history.push(Event::Reply {
            rank,
            number,
            answer,
        })
        else {
            unreachable!()
        };
        Ok(Turn::Moved)
    }

    /// A free rank takes its next step.
    fn go_on(&mut self, rank: u8) -> Result<Turn, SiteError>
        requires stage { self.old.core.stage ≡ RunStage.Serving }
        requires free { IsFreeSeat self.old.core rank }
        ensures run { OnOk result (Keeps D.state self.old self.new) }
        ensures lowers { IfOk result (λ turn. Lowers turn self.old self.new) }
        ensures order { OnOk result (KeepsOrder self.old self.new) }
        ensures told { OnOk result (TellsBy (actor.Rank rank) D.state self.old self.new) }
        ensures full { OnOk result (TellsEachFull (actor.Rank rank) D.state self.old self.new) }
        ensures spared { OnErr result (IsAsBefore D.state self.old self.new) }
        ensures accounted { OnOk result (TellsFaults D.state self.old self.new) }
        ensures fixed { IsSameRun D.state self.old self.new }
        ensures still { IfOk result (λ turn. Stays turn self.old self.new) }
        ensures waits { IfOk result (λ turn. (seat : Seat) → slice_get self.old.core.ranks rank ≡ Some seat → turn ≡ free_turn seat.ended (slice_get (unwrap_or (slice_get self.old.programs rank) []) seat.number)) }
    {
        let Some(seat) = self.core.ranks.seat(rank) else {
            return Err(SiteError::Memory);
        };
        if seat.number == u32::MAX {
            return Err(SiteError::Memory);
        }
        if seat.ended {
            return self.end_again(rank);
        }
        let Some(next) = self.programs.step(rank, seat.number) else {
            return Ok(Turn::NotYet { why: Why::NoStep });
        };
        let step = next.copy(self.alloc)?;
        if is_local_step(&step) {
            self.local(rank, step)
        } else {
            self.call(rank, step)
        }
    }

    /// A rank whose End was refused calls it again.
    fn end_again(&mut self, rank: u8) -> Result<Turn, SiteError>
        requires stage { self.old.core.stage ≡ RunStage.Serving }
        requires free { IsFreeSeat self.old.core rank }
        ensures run { OnOk result (Keeps D.state self.old self.new) }
        ensures lowers { IfOk result (λ turn. Lowers turn self.old self.new) }
        ensures order { OnOk result (KeepsOrder self.old self.new) }
        ensures told { OnOk result (TellsBy (actor.Rank rank) D.state self.old self.new) }
        ensures spared { OnErr result (IsAsBefore D.state self.old self.new) }
        ensures accounted { OnOk result (TellsFaults D.state self.old self.new) }
        ensures fixed { IsSameRun D.state self.old self.new }
        ensures still { IfOk result (λ turn. Stays turn self.old self.new) }
        ensures moved { IfOk result (λ turn. turn ≡ Turn.Moved) }
    {
        let Some(seat) = self.core.ranks.seat(rank) else {
            return Err(SiteError::Memory);
        };
        if !seat.ended || seat.number == u32::MAX {
            return Err(SiteError::Memory);
        }
        match self.programs.step(rank, seat.number.saturating_sub(1)) {
            Some(Step::End) => self.call(rank, Step::End),
            _ => Err(SiteError::Memory),
        }
    }

    /// The rank calls, and waits.
    fn call(&mut self, rank: u8, step: Step) -> Result<Turn, SiteError>
        requires stage { self.old.core.stage ≡ RunStage.Serving }
        requires next { IsNextCall self.old.programs self.old.core rank step }
        ensures run { OnOk result (Keeps D.state self.old self.new) }
        ensures lowers { IfOk result (λ turn. Lowers turn self.old self.new) }
        ensures order { OnOk result (KeepsOrder self.old self.new) }
        ensures told { OnOk result (TellsBy (actor.Rank rank) D.state self.old self.new) }
        ensures spared { OnErr result (IsAsBefore D.state self.old self.new) }
        ensures accounted { OnOk result (TellsFaults D.state self.old self.new) }
        ensures fixed { IsSameRun D.state self.old self.new }
        ensures still { IfOk result (λ turn. Stays turn self.old self.new) }
        ensures moved { IfOk result (λ turn. turn ≡ Turn.Moved) }
    {
        let Some(seat) = self.core.ranks.seat(rank) else {
            return Err(SiteError::Memory);
        };
        let number = number_after(seat);
        let told = step.copy(self.alloc)?;
        push(
            &mut self.history,
            Event::Call {
                rank,
                number,
                step: told,
            },
        )?;
        self.core.ranks.arrive(rank, step);
        Ok(Turn::Moved)
    }
}

/// The number of the step that a rank takes next: an End is taken again.
fn number_after(seat: &Seat) -> u32
    requires { seat.now.number + 1 < 2 ^ 32 }
    ensures { result ≡ next_number seat.now }
{
    if seat.ended {
        seat.number
    } else {
        seat.number + 1
    }
}

/// How many syncs and gate writes are left until a dataset is settled on so many nodes.
pub(crate) fn changes_left(work: SaveStep, node: u8, nodes: u8) -> u32
    ensures { result ≡ changes_left work node nodes }
{
    let after = u32::from(nodes.saturating_sub(node));
    let all = 2 * u32::from(nodes);
    match work {
        SaveStep::Record | SaveStep::RecordSync => after + 2 * all,
        SaveStep::Whole => 2 * after + all,
        SaveStep::WholeSync => (2 * after + all).saturating_sub(1),
        SaveStep::Sealed => 2 * after,
        SaveStep::SealedSync => (2 * after).saturating_sub(1),
    }
}
