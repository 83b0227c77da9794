// How a complete round is decided.
ghost use Rattle.std.specs.Prelude.{Bool, ◌≡◌, ◌+◌, ◌*◌, ◌<◌, ◌≤◌, ◌^◌, true, false, None, Some, length, map, IfOk, IfSome, OnOk, OnErr};
ghost use Rattle.node_device.specs.Rack.{states_of};
ghost use Rattle.scr_base.specs.declared.content.Step.TheVariants as step;
ghost use Rattle.round_core.specs.Seats.{is_complete};
ghost use Rattle.ckpt_model.specs.Answers.{is_of_kind, is_fault, yes_if, exit_answer};
ghost use Rattle.site_state.specs.Waiting.{round_turn, clear_turn, complete_turn, clock_turn, flush_turn};
ghost use Rattle.site_state.specs.Choosing.{due_in};
ghost use Rattle.site_core.specs.Ahead.{Lowers};
ghost use Rattle.site_state.specs.Ahead.{some_calls};
ghost use Rattle.site_core.specs.Order.{KeepsOrder};
ghost use Rattle.site_core.specs.Follows.{IsAsBefore, Keeps, TellsRound, IsSameRun, Stays, MayDecide, TellsFaults};
ghost use Rattle.site_state.specs.Asked.{IsClearRound, IsRefusedRound};

use crate::calls::changes_left;
use crate::events::push;
use crate::site::Site;
use ckpt_model::{Event, Kind, StopCause};
use node_device::Device;
use scr_base::{Copies, DataId, Flags, Phase, Reason, Refusal, Reply, Step, Word};
use site_state::{RunStage, SaveStep, SiteError, Turn, Why};

impl<D: Device> Site<D> {
    /// A complete round is decided, or has to wait.
    pub(crate) fn decide(&mut self) -> Result<Turn, SiteError>
        requires stage { self.old.core.stage ≡ RunStage.Serving }
        requires complete { is_complete self.old.core.ranks ≡ true }
        ensures run { OnOk result (Keeps D.state self.old self.new) }
        ensures lowers { IfOk result (λ turn. Lowers turn self.old self.new) }
        ensures order { OnOk result (KeepsOrder self.old self.new) }
        ensures told { OnOk result (TellsRound D.state self.old self.new) }
        ensures spared { OnErr result (IsAsBefore D.state self.old self.new) }
        ensures accounted { OnOk result (TellsFaults D.state self.old self.new) }
        ensures fixed { IsSameRun D.state self.old self.new }
        ensures still { IfOk result (λ turn. Stays turn self.old self.new) }
        ensures waits { IfOk result (λ turn. turn ≡ round_turn self.old.core None) }
    {
        let Some(first) = self.core.ranks.call(0) else {
            return Err(SiteError::Memory);
        };
        let call = first.copy(self.alloc)?;
        let verdict = self.core.verdict(self.alloc, &call)?;
        match verdict {
            Some(refusal) => self.refuse(&call, refusal),
            None => self.answer(call),
        }
    }

    /// The round is decided so: every rank has the answer due. So many Need rounds of the run are then answered.
    fn tell_round(
        &mut self,
        kind: Kind,
        answer: Reply,
        phase: Phase,
        offer: Option<DataId>,
        needs: u64,
    ) -> Result<Turn, SiteError>
        requires stage { self.old.core.stage ≡ RunStage.Serving }
        requires steps { MayDecide D.state self.old kind answer phase offer needs }
        requires calm { is_fault answer ≡ false }
        requires calls { some_calls self.old.core.ranks ≡ true }
        ensures run { OnOk result (Keeps D.state self.old self.new) }
        ensures lowers { IfOk result (λ turn. Lowers turn self.old self.new) }
        ensures order { OnOk result (KeepsOrder self.old self.new) }
        ensures told { OnOk result (TellsRound D.state self.old self.new) }
        ensures spared { OnErr result (IsAsBefore D.state self.old self.new) }
        ensures accounted { OnOk result (TellsFaults D.state self.old self.new) }
        ensures fixed { IsSameRun D.state self.old self.new }
        ensures still { IfOk result (λ turn. Stays turn self.old self.new) }
        ensures moved { IfOk result (λ turn. turn ≡ Turn.Moved) }
    {
        self.history.reserve(2)?;
        self.core.ranks.decide(self.alloc, &answer)?;
        let Ok(()) = self.history.push(Event::Decided { kind, answer }) else {
            unreachable!()
        };
        self.core.phase = phase;
        self.core.offer = offer;
        self.core.needs = needs;
        self.core.reading = None;
        Ok(Turn::Moved)
    }

    /// The round is refused.
    fn refuse(&mut self, call: &Step, refusal: Refusal) -> Result<Turn, SiteError>
        requires stage { self.old.core.stage ≡ RunStage.Serving }
        requires round { IsRefusedRound self.old.core call.now refusal }
        ensures run { OnOk result (Keeps D.state self.old self.new) }
        ensures lowers { IfOk result (λ turn. Lowers turn self.old self.new) }
        ensures order { OnOk result (KeepsOrder self.old self.new) }
        ensures told { OnOk result (TellsRound D.state self.old self.new) }
        ensures spared { OnErr result (IsAsBefore D.state self.old self.new) }
        ensures accounted { OnOk result (TellsFaults D.state self.old self.new) }
        ensures fixed { IsSameRun D.state self.old self.new }
        ensures still { IfOk result (λ turn. Stays turn self.old self.new) }
        ensures moved { IfOk result (λ turn. turn ≡ Turn.Moved) }
    {
        match kind_of(call) {
            Some(kind) => self.tell_round(
                kind,
                Reply::Refused { refusal },
                self.core.phase,
                self.core.offer,
                self.core.needs,
            ),
            None => Err(SiteError::Memory),
        }
    }

    /// A round that nothing speaks against is decided, or has to wait.
    fn answer(&mut self, call: Step) -> Result<Turn, SiteError>
        requires stage { self.old.core.stage ≡ RunStage.Serving }
        requires round { IsClearRound self.old.core call }
        ensures run { OnOk result (Keeps D.state self.old self.new) }
        ensures lowers { IfOk result (λ turn. Lowers turn self.old self.new) }
        ensures order { OnOk result (KeepsOrder self.old self.new) }
        ensures told { OnOk result (TellsRound D.state self.old self.new) }
        ensures spared { OnErr result (IsAsBefore D.state self.old self.new) }
        ensures accounted { OnOk result (TellsFaults D.state self.old self.new) }
        ensures fixed { IsSameRun D.state self.old self.new }
        ensures still { IfOk result (λ turn. Stays turn self.old self.new) }
        ensures waits { IfOk result (λ turn. turn ≡ clear_turn self.old.core (Some call)) }
    {
        match call {
            Step::Start { name, flags } => self.start(name, flags),
            Step::Complete { valid } => self.complete(valid),
            Step::Have => self.have(),
            Step::Restart => self.restart(),
            Step::Restarted { valid } => self.restarted(valid),
            Step::Need => self.need(),
            Step::Exit => self.exit(),
            Step::Finalize => self.finalize(),
            Step::End => self.end(),
            _ => Err(SiteError::Memory),
        }
    }

    /// A dataset is begun.
    fn start(&mut self, name: Word, flags: Flags) -> Result<Turn, SiteError>
        requires stage { self.old.core.stage ≡ RunStage.Serving }
        requires round { IsClearRound self.old.core (step.Start name flags) }
        ensures run { OnOk result (Keeps D.state self.old self.new) }
        ensures lowers { IfOk result (λ turn. Lowers turn self.old self.new) }
        ensures order { OnOk result (KeepsOrder self.old self.new) }
        ensures told { OnOk result (TellsRound D.state self.old self.new) }
        ensures spared { OnErr result (IsAsBefore D.state self.old self.new) }
        ensures accounted { OnOk result (TellsFaults D.state self.old self.new) }
        ensures fixed { IsSameRun D.state self.old self.new }
        ensures still { IfOk result (λ turn. Stays turn self.old self.new) }
        ensures moved { IfOk result (λ turn. turn ≡ Turn.Moved) }
    {
        if self.core.is_crowded() {
            return Err(SiteError::Memory);
        }
        let Some(which) = self.core.next_id() else {
            return Err(SiteError::Memory);
        };
        let manifest = self.core.fresh(self.alloc, which, &name, flags)?;
        let answer = Reply::Started { which };
        self.history.reserve(2)?;
        self.core.ranks.decide(self.alloc, &answer)?;
        let Ok(()) = self.history.push(Event::Decided {
            kind: Kind::Start,
            answer,
        })
        else {
            unreachable!()
        };
        self.core.open(manifest);
        Ok(Turn::Moved)
    }

    /// The dataset is kept once it is sealed on every node.
    fn complete(&mut self, valid: bool) -> Result<Turn, SiteError>
        requires stage { self.old.core.stage ≡ RunStage.Serving }
        requires round { IsClearRound self.old.core (step.Complete valid) }
        ensures run { OnOk result (Keeps D.state self.old self.new) }
        ensures lowers { IfOk result (λ turn. Lowers turn self.old self.new) }
        ensures order { OnOk result (KeepsOrder self.old self.new) }
        ensures told { OnOk result (TellsRound D.state self.old self.new) }
        ensures spared { OnErr result (IsAsBefore D.state self.old self.new) }
        ensures accounted { OnOk result (TellsFaults D.state self.old self.new) }
        ensures fixed { IsSameRun D.state self.old self.new }
        ensures still { IfOk result (λ turn. Stays turn self.old self.new) }
        ensures waits { IfOk result (λ turn. turn ≡ complete_turn self.old.core self.old.core.opened) }
    {
        let Some(m) = &self.core.opened else {
            return self.kept();
        };
        let why = if self.core.ranks.is_valid() {
            Why::Encode {
                left: changes_left(SaveStep::Record, 0, self.core.shape.nodes),
            }
        } else {
            Why::Evict {
                id: m.desc.which.id,
            }
        };
        Ok(Turn::NotYet { why })
    }

    /// The dataset is sealed on every node.
    fn kept(&mut self) -> Result<Turn, SiteError>
        requires stage { self.old.core.stage ≡ RunStage.Serving }
        requires round { (valid : Bool) × IsClearRound self.old.core (step.Complete valid) }
        requires opened { self.old.core.opened ≡ None }
        ensures run { OnOk result (Keeps D.state self.old self.new) }
        ensures lowers { IfOk result (λ turn. Lowers turn self.old self.new) }
        ensures order { OnOk result (KeepsOrder self.old self.new) }
        ensures told { OnOk result (TellsRound D.state self.old self.new) }
        ensures spared { OnErr result (IsAsBefore D.state self.old self.new) }
        ensures accounted { OnOk result (TellsFaults D.state self.old self.new) }
        ensures fixed { IsSameRun D.state self.old self.new }
        ensures still { IfOk result (λ turn. Stays turn self.old self.new) }
        ensures moved { IfOk result (λ turn. turn ≡ Turn.Moved) }
    {
        if !self.core.ranks.is_valid() {
            return Err(SiteError::Memory);
        }
        self.tell_round(
            Kind::Complete,
            Reply::Kept,
            Phase::Idle,
            self.core.offer,
            self.core.needs,
        )
    }

    /// The newest checkpoint is offered, or there is none.
    fn have(&mut self) -> Result<Turn, SiteError>
        requires stage { self.old.core.stage ≡ RunStage.Serving }
        requires round { IsClearRound self.old.core step.Have }
        ensures run { OnOk result (Keeps D.state self.old self.new) }
        ensures lowers { IfOk result (λ turn. Lowers turn self.old self.new) }
        ensures order { OnOk result (KeepsOrder self.old self.new) }
        ensures told { OnOk result (TellsRound D.state self.old self.new) }
        ensures spared { OnErr result (IsAsBefore D.state self.old self.new) }
        ensures accounted { OnOk result (TellsFaults D.state self.old self.new) }
        ensures fixed { IsSameRun D.state self.old self.new }
        ensures still { IfOk result (λ turn. Stays turn self.old self.new) }
        ensures moved { IfOk result (λ turn. turn ≡ Turn.Moved) }
    {
        match self.core.kept.newest() {
            Some(best) => {
                let which = best.desc.which;
                let name = best.desc.name.copy(self.alloc)?;
                self.tell_round(
                    Kind::Have,
                    Reply::Offer { which, name },
                    Phase::Offered,
                    Some(which),
                    self.core.needs,
                )
            }
            None => self.tell_round(
                Kind::Have,
                Reply::NoneLeft,
                Phase::Idle,
                None,
                self.core.needs,
            ),
        }
    }

    /// The offered dataset is taken.
    fn restart(&mut self) -> Result<Turn, SiteError>
        requires stage { self.old.core.stage ≡ RunStage.Serving }
        requires round { IsClearRound self.old.core step.Restart }
        ensures run { OnOk result (Keeps D.state self.old self.new) }
        ensures lowers { IfOk result (λ turn. Lowers turn self.old self.new) }
        ensures order { OnOk result (KeepsOrder self.old self.new) }
        ensures told { OnOk result (TellsRound D.state self.old self.new) }
        ensures spared { OnErr result (IsAsBefore D.state self.old self.new) }
        ensures accounted { OnOk result (TellsFaults D.state self.old self.new) }
        ensures fixed { IsSameRun D.state self.old self.new }
        ensures still { IfOk result (λ turn. Stays turn self.old self.new) }
        ensures moved { IfOk result (λ turn. turn ≡ Turn.Moved) }
    {
        let Some(which) = self.core.offer else {
            return Err(SiteError::Memory);
        };
        if !self.core.kept.has_settled(which) {
            return Err(SiteError::Memory);
        }
        self.tell_round(
            Kind::Restart,
            Reply::Done,
            Phase::Restart,
            self.core.offer,
            self.core.needs,
        )
    }

    /// Every rank has what it needs of the dataset.
    fn restarted(&mut self, valid: bool) -> Result<Turn, SiteError>
        requires stage { self.old.core.stage ≡ RunStage.Serving }
        requires round { IsClearRound self.old.core (step.Restarted valid) }
        ensures run { OnOk result (Keeps D.state self.old self.new) }
        ensures lowers { IfOk result (λ turn. Lowers turn self.old self.new) }
        ensures order { OnOk result (KeepsOrder self.old self.new) }
        ensures told { OnOk result (TellsRound D.state self.old self.new) }
        ensures spared { OnErr result (IsAsBefore D.state self.old self.new) }
        ensures accounted { OnOk result (TellsFaults D.state self.old self.new) }
        ensures fixed { IsSameRun D.state self.old self.new }
        ensures still { IfOk result (λ turn. Stays turn self.old self.new) }
        ensures moved { IfOk result (λ turn. turn ≡ Turn.Moved) }
    {
        if !self.core.ranks.is_valid() {
            return Err(SiteError::Memory);
        }
        self.tell_round(
            Kind::Restarted,
            Reply::Done,
            Phase::Idle,
            self.core.offer,
            self.core.needs,
        )
    }

    /// Whether a checkpoint is wanted: at each n-th question of the run, and where the job is to stop.
    fn need(&mut self) -> Result<Turn, SiteError>
        requires stage { self.old.core.stage ≡ RunStage.Serving }
        requires round { IsClearRound self.old.core step.Need }
        ensures run { OnOk result (Keeps D.state self.old self.new) }
        ensures lowers { IfOk result (λ turn. Lowers turn self.old self.new) }
        ensures order { OnOk result (KeepsOrder self.old self.new) }
        ensures told { OnOk result (TellsRound D.state self.old self.new) }
        ensures spared { OnErr result (IsAsBefore D.state self.old self.new) }
        ensures accounted { OnOk result (TellsFaults D.state self.old self.new) }
        ensures fixed { IsSameRun D.state self.old self.new }
        ensures still { IfOk result (λ turn. Stays turn self.old self.new) }
        ensures waits { IfOk result (λ turn. turn ≡ clock_turn self.old.core.reading) }
    {
        let Some(now) = self.core.reading else {
            return Ok(Turn::NotYet { why: Why::Clock });
        };
        if self.core.needs == u64::MAX {
            return Err(SiteError::Memory);
        }
        let needs = self.core.needs + 1;
        let answer = yes_if(self.core.is_needed(needs, now));
        self.tell_round(Kind::Need, answer, self.core.phase, self.core.offer, needs)
    }

    /// Whether the job is to stop, and why.
    fn exit(&mut self) -> Result<Turn, SiteError>
        requires stage { self.old.core.stage ≡ RunStage.Serving }
        requires round { IsClearRound self.old.core step.Exit }
        ensures run { OnOk result (Keeps D.state self.old self.new) }
        ensures lowers { IfOk result (λ turn. Lowers turn self.old self.new) }
        ensures order { OnOk result (KeepsOrder self.old self.new) }
        ensures told { OnOk result (TellsRound D.state self.old self.new) }
        ensures spared { OnErr result (IsAsBefore D.state self.old self.new) }
        ensures accounted { OnOk result (TellsFaults D.state self.old self.new) }
        ensures fixed { IsSameRun D.state self.old self.new }
        ensures still { IfOk result (λ turn. Stays turn self.old self.new) }
        ensures waits { IfOk result (λ turn. turn ≡ clock_turn self.old.core.reading) }
    {
        let Some(now) = self.core.reading else {
            return Ok(Turn::NotYet { why: Why::Clock });
        };
        let answer = exit_answer(self.core.halt.reason(now, self.core.settled));
        self.tell_round(
            Kind::Exit,
            answer,
            self.core.phase,
            self.core.offer,
            self.core.needs,
        )
    }

    /// The job has done its work, once nothing is left to be flushed.
    fn finalize(&mut self) -> Result<Turn, SiteError>
        requires stage { self.old.core.stage ≡ RunStage.Serving }
        requires round { IsClearRound self.old.core step.Finalize }
        ensures run { OnOk result (Keeps D.state self.old self.new) }
        ensures lowers { IfOk result (λ turn. Lowers turn self.old self.new) }
        ensures order { OnOk result (KeepsOrder self.old self.new) }
        ensures told { OnOk result (TellsRound D.state self.old self.new) }
        ensures spared { OnErr result (IsAsBefore D.state self.old self.new) }
        ensures accounted { OnOk result (TellsFaults D.state self.old self.new) }
        ensures fixed { IsSameRun D.state self.old self.new }
        ensures still { IfOk result (λ turn. Stays turn self.old self.new) }
        ensures waits { IfOk result (λ turn. turn ≡ flush_turn (due_in self.old.core)) }
    {
        match self.core.due() {
            Some(which) => Ok(Turn::NotYet {
                why: Why::Flush { id: which.id },
            }),
            None => self.tell_round(
                Kind::Finalize,
                Reply::Done,
                Phase::Final,
                self.core.offer,
                self.core.needs,
            ),
        }
    }

    /// The run is over.
    fn end(&mut self) -> Result<Turn, SiteError>
        requires stage { self.old.core.stage ≡ RunStage.Serving }
        requires round { IsClearRound self.old.core step.End }
        ensures run { OnOk result (Keeps D.state self.old self.new) }
        ensures lowers { IfOk result (λ turn. Lowers turn self.old self.new) }
        ensures order { OnOk result (KeepsOrder self.old self.new) }
        ensures told { OnOk result (TellsRound D.state self.old self.new) }
        ensures spared { OnErr result (IsAsBefore D.state self.old self.new) }
        ensures accounted { OnOk result (TellsFaults D.state self.old self.new) }
        ensures fixed { IsSameRun D.state self.old self.new }
        ensures still { IfOk result (λ turn. Stays turn self.old self.new) }
        ensures moved { IfOk result (λ turn. turn ≡ Turn.Moved) }
    {
        if !self.core.all_ended() {
            return Err(SiteError::Memory);
        }
        push(
            &mut self.history,
            Event::Stop {
                cause: StopCause::Ended,
            },
        )?;
        self.core.stage = RunStage::Over;
        Ok(Turn::Moved)
    }
}

/// Yes or no.
fn yes_if(yes: bool) -> Reply
    ensures { result ≡ yes_if yes }
{
    if yes { Reply::Yes } else { Reply::No }
}

/// Why the job is to stop; no where it isn't.
fn exit_answer(reason: Option<Reason>) -> Reply
    ensures { result ≡ exit_answer reason }
{
    match reason {
        Some(reason) => Reply::Exit { reason },
        None => Reply::No,
    }
}

/// The kind of a round, and none for a rank's own step.
fn kind_of(step: &Step) -> Option<Kind>
    ensures { IfSome result (λ kind. is_of_kind kind step.now ≡ true) }
{
    match step {
        Step::Need => Some(Kind::Need),
        Step::Start { .. } => Some(Kind::Start),
        Step::Complete { .. } => Some(Kind::Complete),
        Step::Have => Some(Kind::Have),
        Step::Restart => Some(Kind::Restart),
        Step::Restarted { .. } => Some(Kind::Restarted),
        Step::Exit => Some(Kind::Exit),
        Step::Finalize => Some(Kind::Finalize),
        Step::End => Some(Kind::End),
        _ => None,
    }
}
