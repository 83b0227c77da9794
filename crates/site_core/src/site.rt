// A site, and how it is begun, taken turns with, and closed.
ghost use Rattle.std.specs.Prelude.{◌≡◌, ◌≤◌, ◌<◌, ◌-◌, ◌^◌, ℕ, IfOk, OnErr};
ghost use Rattle.node_device.specs.Rack.{states_of};
ghost use Rattle.node_device.specs.Calls.{Crashes};
ghost use Rattle.ckpt_model.specs.Machine.{Machine, Setup};
ghost use Rattle.ckpt_model.specs.declared.event.StopCause.{StopCause};
ghost use Rattle.site_stands.specs.Site.{IsSafeToStop, StandsAfterStop};
ghost use Rattle.site_calls.specs.Calls.{Tells};
ghost use Rattle.site_core.specs.Follows.{IsAsBefore, Counts};

use ckpt_model::{Event, History, StopCause};
use node_device::{Bay, Device};
use round_core::Round;
use scr_base::{Actor, Bytes, Config, Phase, Shape, Step};
use site_calls::Storing;
use site_state::{Cache, Programs, RunStage, RunState, SiteError, Turn, Why};
use std::alloc::Global;

/// A run of a site. It owns the bay while the run goes on.
#[derive(Drop)]
pub struct Site<D> {
    pub(crate) alloc: Global,
    pub(crate) core: RunState,
    pub(crate) programs: Programs,
    pub(crate) bay: Bay<D>,
    pub(crate) history: History,
    pub(crate) moves: u64,
}

/// What is left where a site wasn't begun: the bay, as it was.
#[derive(Drop)]
pub struct Unbegun<D> {
    pub bay: Bay<D>,
}

/// What is left of a run.
#[derive(Drop)]
pub struct Closed<D> {
    pub history: History,
    pub bay: Bay<D>,
}

/// Stops every device after a run, with the outcome of this pick on each. Where a stop by some cause is safe in a state, what the devices hold then
/// stands for a state after that stop.
pub fn stop_devices<D: Device>(bay: &mut Bay<D>, pick: u8)
    requires { pick ≤ 3 }
    ensures crashes { (place : ℕ) → Crashes (states_of D.state bay.old place) (states_of D.state bay.new place) }
    ensures stands { Tells (states_of D.state bay.new) → (s : Setup) (why : StopCause) (m : Machine) → IsSafeToStop s (states_of D.state bay.old) why m → StandsAfterStop s (states_of D.state bay.new) why m }
{
    bay.stop(pick);
}

/// The number of moves after a turn.
fn moves_after(answer: &Result<Turn, SiteError>, moves: u64) -> u64
    requires { moves < 2 ^ 64 - 1 }
    ensures moved { IfOk answer.now (λ turn. Counts turn moves result) }
    ensures refused { OnErr answer.now (result ≡ moves) }
{
    match answer {
        Ok(Turn::Moved) => moves + 1,
        _ => moves,
    }
}

impl<D: Device> Site<D> {
    ghost use Rattle.std.specs.Prelude.{◌≡◌, ◌⊎◌, ◌≤◌, ◌<◌, ◌*◌, ◌↔◌, ◌∷◌, [], List, map, length, true, IfOk, IfErr, IfOk, OnOk, OnErr};
    ghost use Rattle.scr_base.specs.Sets.{numbers_below};
    ghost use Rattle.node_device.specs.Rack.{states_of};
    ghost use Rattle.ckpt_model.specs.Machine.{Machine};
    ghost use Rattle.site_state.specs.Shown.{setup_of};
    ghost use Rattle.site_state.specs.Waiting.{turn_of, flusher_turn};
    ghost use Rattle.site_state.specs.Asking.{program_of, takes_steps, lengthened, IsWithinLimit};
    ghost use Rattle.site_core.specs.Ahead.{Lowers};
    ghost use Rattle.site_state.specs.Order.{IsInOrder};
    ghost use Rattle.site_core.specs.Order.{KeepsOrder};
    ghost use Rattle.scr_base.specs.Sets.{fits_sets};
    ghost use Rattle.site_stands.specs.Site.{Stands};
    ghost use Rattle.site_calls.specs.Calls.{Tells};
    ghost use Rattle.site_core.specs.Holds.{CanBegin, Closes, IsUnderWay};
    ghost use Rattle.site_core.specs.Faults.{IsAccounted};
    ghost use Rattle.site_core.specs.Follows.{PlacesBy, Keeps, KeepsRun, IsRunFrom, HasStopped, TellsBy, TellsEachFull, AccountsBy, IsSameRun, IsHalted, KeepsCarried, Stays, Counts};
    ghost use Rattle.site_state.specs.Order.{IsActor};

    /// Begins a run over a bay, which it leaves as it is. The bay comes back where there is no memory. The places are those of
    /// the nodes in their order, each rank has a program, and the scheme fits the site's sets.
    pub fn begin(
        alloc: Global,
        bay: Bay<D>,
        shape: Shape,
        config: Config,
        places: Vec<u8>,
        programs: Vec<Vec<Step>>,
    ) -> Result<Site<D>, Unbegun<D>>
        requires places { places.items ≡ numbers_below shape.nodes }
        requires programs { length programs.items ≡ shape.nodes * shape.ranks }
        requires fits { fits_sets config.scheme config.size shape.nodes ≡ true }
        ensures bay { IfOk result (λ site. site.bay ≡ bay) }
        ensures refused { IfErr result (λ left. left.bay ≡ bay) }
        ensures empty { IfOk result (λ site. site.history.events ≡ []) }
        ensures moves { IfOk result (λ site. site.moves ≡ 0) }
        ensures room { IfOk result (λ site. 1 ≤ site.history.spare) }
        ensures setup { IfOk result (λ site. setup_of site.core ≡ record { shape = shape; config = config }) }
        ensures places { IfOk result (λ site. site.core.places ≡ places.items) }
        ensures programs { IfOk result (λ site. site.programs ≡ map (λ program. program.items) programs.items) }
        ensures ranks { IfOk result (λ site. length site.core.ranks ≡ shape.nodes * shape.ranks) }
        ensures order { IfOk result (λ site. IsInOrder site.programs site.core.ranks) }
        ensures accounts { IfOk result (λ site. IsAccounted D.state (states_of D.state bay) site) }
        ensures follows { IfOk result (λ site. (first : Machine) → Tells (states_of D.state bay) → Stands (record { shape = shape; config = config }) (states_of D.state bay) first → CanBegin (record { shape = shape; config = config }) (states_of D.state bay) first → IsRunFrom D.state first site) }
    {
        let mut history = History::new(alloc);
        if history.reserve(1).is_err() {
            return Err(Unbegun { bay });
        }
        let Ok(core) = RunState::new(alloc, shape, config, places) else {
            return Err(Unbegun { bay });
        };
        Ok(Site {
            alloc,
            core,
            programs: Programs::of(programs),
            bay,
            history,
            moves: 0,
        })
    }

    /// Lets an actor take its turn: at most one change to one device, and at most one event.
    pub fn turn(&mut self, actor: Actor) -> Result<Turn, SiteError>
        requires { IsActor (length self.old.core.ranks) actor }
        ensures run { KeepsRun D.state self.old self.new }
        ensures lowers { IfOk result (λ turn. Lowers turn self.old self.new) }
        ensures order { OnOk result (KeepsOrder self.old self.new) }
        ensures told { OnOk result (TellsBy actor D.state self.old self.new) }
        ensures full { OnOk result (TellsEachFull actor D.state self.old self.new) }
        ensures spared { OnErr result (IsAsBefore D.state self.old self.new) }
        ensures accounted { OnOk result (AccountsBy actor D.state self.old self.new) }
        ensures placed { OnOk result (PlacesBy actor self.old.core self.new.core) }
        ensures kept { OnOk result (KeepsCarried self.old self.new) }
        ensures fixed { IsSameRun D.state self.old self.new }
        ensures still { IfOk result (λ turn. Stays turn self.old self.new) }
        ensures waits { IfOk result (λ turn. turn ≡ turn_of self.old.core self.old.programs actor) }
        ensures counts { IfOk result (λ turn. Counts turn self.old.moves self.new.moves) }
    {
        let moves = self.moves;
        if moves == u64::MAX {
            return Err(SiteError::Memory);
        }
        let answer = self.take_turn(actor);
        self.moves = moves_after(&answer, moves);
        answer
    }

    /// The turn itself, which isn't counted.
    fn take_turn(&mut self, actor: Actor) -> Result<Turn, SiteError>
        requires { IsActor (length self.old.core.ranks) actor }
        ensures run { OnOk result (Keeps D.state self.old self.new) }
        ensures lowers { IfOk result (λ turn. Lowers turn self.old self.new) }
        ensures order { OnOk result (KeepsOrder self.old self.new) }
        ensures told { OnOk result (TellsBy actor D.state self.old self.new) }
        ensures full { OnOk result (TellsEachFull actor D.state self.old self.new) }
        ensures spared { OnErr result (IsAsBefore D.state self.old self.new) }
        ensures accounted { OnOk result (AccountsBy actor D.state self.old self.new) }
        ensures placed { OnOk result (PlacesBy actor self.old.core self.new.core) }
        ensures kept { OnOk result (KeepsCarried self.old self.new) }
        ensures fixed { IsSameRun D.state self.old self.new }
        ensures still { IfOk result (λ turn. Stays turn self.old self.new) }
        ensures waits { IfOk result (λ turn. turn ≡ turn_of self.old.core self.old.programs actor) }
    {
        match actor {
            Actor::Recoverer => self.recover(),
            Actor::Rank { rank } => self.rank(rank),
            Actor::Encoder => self.encode(),
            Actor::Evictor => self.evict(),
            Actor::Flusher => Ok(self.rest()),
        }
    }

    /// The flusher's turn: it has nothing to do.
    fn rest(&self) -> Turn
        ensures { result ≡ flusher_turn self.now.core.stage }
    {
        match self.core.stage {
            RunStage::Begun
            | RunStage::Storing
            | RunStage::Looking
            | RunStage::Mending
            | RunStage::Serving
            | RunStage::Saving { .. }
            | RunStage::Dropping { .. }
            | RunStage::Dropped => Turn::NotYet { why: Why::Idle },
            RunStage::Over => Turn::Ended,
        }
    }

    /// How many ranks the site has.
    pub fn ranks(&self) -> u8
        ensures { result ≡ self.now.core.shape.nodes * self.now.core.shape.ranks }
    {
        self.core.shape.nodes * self.core.shape.ranks
    }

    /// How many steps the rank's program has.
    pub fn steps(&self, rank: u8) -> usize
        ensures { result ≡ length (program_of self.now.programs rank) }
    {
        self.programs.steps(rank)
    }

    /// Whether the rank's program doesn't end with End.
    pub fn takes_steps(&self, rank: u8) -> bool
        requires { rank < length self.now.programs }
        ensures { result ≡ takes_steps self.now.programs rank }
    {
        self.programs.takes_steps(rank)
    }

    /// Appends a step to the rank's program; after want of memory all is as before.
    pub fn ask(&mut self, rank: u8, step: Step) -> Result<(), SiteError>
        requires rank { rank < length self.old.programs }
        requires takes { takes_steps self.old.programs rank ≡ true }
        requires fewer { length (program_of self.old.programs rank) < 4294967295 }
        requires within { IsWithinLimit step }
        ensures asked { OnOk result (self.new ≡ record self.old { programs = lengthened self.old.programs rank step }) }
        ensures refused { OnErr result (self.new ≡ self.old) }
        ensures run { KeepsRun D.state self.old self.new }
        ensures order { KeepsOrder self.old self.new }
    {
        self.programs.ask(rank, step)?;
        Ok(())
    }

    /// Ends the run from outside; where it is over, nothing changes. With room for one event in the history it takes no memory.
    pub fn halt_now(&mut self)
        ensures over { HasStopped self.old → self.new ≡ self.old }
        ensures halted { 1 ≤ self.old.history.spare → (HasStopped self.old → ⊥) → IsHalted self.old self.new }
        ensures sound { IsHalted self.old self.new ⊎ (self.new ≡ self.old) }
        ensures run { KeepsRun D.state self.old self.new }
        ensures order { KeepsOrder self.old self.new }
    {
        if self.stopped() {
            return;
        }
        let event = Event::Stop {
            cause: StopCause::Script,
        };
        let Ok(()) = self.history.push(event) else {
            return;
        };
        self.core.stage = RunStage::Over;
    }

    /// How many turns moved.
    pub fn moves(&self) -> u64
        ensures { result ≡ self.now.moves }
    {
        self.moves
    }

    /// The events so far.
    pub fn history(&self) -> &History
        ensures { result.now ≡ self.now.history }
    {
        &self.history
    }

    /// Whether the run has stopped.
    pub fn stopped(&self) -> bool
        ensures { result ≡ true ↔ HasStopped self.now }
    {
        matches!(self.core.stage, RunStage::Over)
    }

    /// Hands the history and the bay back, at any time. The events of a run that isn't over lead to a state for which the devices stand, and
    /// a stop from outside is safe there.
    pub fn close(self) -> Closed<D>
        ensures history { result.history ≡ self.history }
        ensures bay { result.bay ≡ self.bay }
        ensures under_way { (first : Machine) → IsRunFrom D.state first self → (HasStopped self → ⊥) → IsUnderWay (setup_of self.core) (states_of D.state result.bay) first result.history.events }
        ensures closed { (first : Machine) → IsRunFrom D.state first self → HasStopped self → Closes (setup_of self.core) (states_of D.state result.bay) first self.core.places self.programs result.history.events }
    {
        let Site {
            alloc: _,
            core: _,
            programs: _,
            bay,
            history,
            moves: _,
        } = self;
        Closed { history, bay }
    }
}
