// The runs of a script.
ghost use Rattle.std.specs.Prelude.{◌≡◌, ◌*◌, ◌<◌, ◌≤◌, ◌⊎◌, ◌∷◌, [], true, length, map, IfOk, IfErr, OnOk, ℕ, Option};
ghost use Rattle.scr_base.specs.Causes.{Rose};
ghost use Rattle.node_device.specs.Rack.{states_of};
ghost use Rattle.ckpt_model.specs.Machine.{Machine};
ghost use Rattle.script_reader.specs.Values.{size_of};
ghost use Rattle.script_reader.specs.declared.script.Item.TheVariants as item;
ghost use Rattle.site_stands.specs.Site.{Stands};
ghost use Rattle.site_calls.specs.Calls.{Tells};
ghost use Rattle.site_core.specs.Holds.{CanBegin};
ghost use Rattle.site_core.specs.Follows.{KeepsRun, IsRunFrom, HasStopped, IsSameRun};
ghost use Rattle.site_state.specs.Order.{IsActor};
ghost use Rattle.site_state.specs.Shown.{setup_of as setup_of_core};
ghost use Rattle.site_core.specs.Readings.{TellsReadings, TellsTimes};
ghost use Rattle.site_core.specs.Faults.{TellsCauses, IsAccounted, KeepsAccount};
ghost use Rattle.std.specs.List.{list_all};
ghost use Rattle.scr_replay.specs.Forms.{has_turn, is_built_run, is_built_item, is_single};
ghost use Rattle.scr_replay.specs.Goes.{GoesDown};
ghost use Rattle.scr_replay.specs.Items.{setup_of, legal_item, legal_items, CutsShort};
ghost use Rattle.scr_replay.specs.Runs.{RunEnds, IsReplayed, IsPlayed};
ghost use Rattle.scr_replay.specs.Statuses.{IsBuilt};

use crate::commanding::play_command;
use crate::telling::{Untold, tell};
use node_device::{Bay, Device, Ran};
use scr_base::{Actor, Clock, Config, Copies, Items, Memory, Shape, Sink, Step};
use script_reader::{Item, RunItem, Script, TurnLine};
use site_core::{Closed, Site, Unbegun, stop_devices};
use site_state::SiteError;
use std::alloc::Global;

/// Runs the runs of a script over a bay, one after the other, and prints their histories.
pub fn play_all<D: Device, K: Sink, C: Clock>(
    alloc: Global,
    bay: Bay<D>,
    script: &Script,
    sink: &mut K,
    clock: &mut C,
) -> Ran<D>
    requires { IsBuilt script.now }
    ensures done { result.status ≡ 0 → IsReplayed (setup_of script.now) (legal_items script.now.items) (states_of D.state bay) (states_of D.state result.bay) (K.held sink.old) (K.held sink.new) (C.reading clock.old) (C.reading clock.new) }
    ensures cut { 3 < result.status → CutsShort (setup_of script.now) script.now.items (states_of D.state bay) (K.held sink.old) (K.held sink.new) }
    ensures quiet { result.status ≡ 0 → K.fault_count sink.new ≡ K.fault_count sink.old }
    ensures known { (result.status ≡ 0) ⊎ ((3 < result.status) × (result.status ≤ 5)) }
    ensures sink_fault { result.status ≡ 4 → Rose (K.fault_count sink.old) (K.fault_count sink.new) }
{
    let mut bay = bay;
    for item in script.items.list() {
        match play_item(alloc, bay, script.shape, script.config, item, sink, clock) {
            Ok(after) => bay = after,
            Err(ran) => return ran,
        }
    }
    Ran { status: 0, bay }
}

/// Runs a run over a bay, or carries a command out, and prints what comes of it: the bay for what follows, or how the call ends.
fn play_item<D: Device, K: Sink, C: Clock>(
    alloc: Global,
    bay: Bay<D>,
    shape: Shape,
    config: Config,
    item: &Item,
    sink: &mut K,
    clock: &mut C,
) -> Result<Bay<D>, Ran<D>>
    requires item { is_built_item (size_of shape) item.now ≡ true }
    requires single { is_single config.scheme ≡ true }
    ensures replayed { IfOk result (λ after. IsReplayed (record { shape = shape; config = config }) (legal_item item.now ∷ []) (states_of D.state bay) (states_of D.state after) (K.held sink.old) (K.held sink.new) (C.reading clock.old) (C.reading clock.new)) }
    ensures quiet { OnOk result (K.fault_count sink.new ≡ K.fault_count sink.old) }
    ensures ends { IfErr result (λ ran. RunEnds (record { shape = shape; config = config }) (legal_item item.now) (states_of D.state bay) (states_of D.state ran.bay) (K.held sink.old) (K.held sink.new) (K.fault_count sink.old) (K.fault_count sink.new) ran.status) }
{
    match item {
        Item::Run { run } => play(alloc, bay, shape, config, run, sink, clock),
        Item::Admin { command } => play_command(alloc, bay, command, sink),
        _ => unreachable!(),
    }
}

/// Runs a run over a bay and prints its history: the bay for what follows, or how the call ends.
fn play<D: Device, K: Sink, C: Clock>(
    alloc: Global,
    bay: Bay<D>,
    shape: Shape,
    config: Config,
    run: &RunItem,
    sink: &mut K,
    clock: &mut C,
) -> Result<Bay<D>, Ran<D>>
    requires run { is_built_run (size_of shape) run.now ≡ true }
    requires single { is_single config.scheme ≡ true }
    ensures replayed { IfOk result (λ after. IsReplayed (record { shape = shape; config = config }) (legal_item (item.Run run.now) ∷ []) (states_of D.state bay) (states_of D.state after) (K.held sink.old) (K.held sink.new) (C.reading clock.old) (C.reading clock.new)) }
    ensures quiet { OnOk result (K.fault_count sink.new ≡ K.fault_count sink.old) }
    ensures ends { IfErr result (λ ran. RunEnds (record { shape = shape; config = config }) (legal_item (item.Run run.now)) (states_of D.state bay) (states_of D.state ran.bay) (K.held sink.old) (K.held sink.new) (K.fault_count sink.old) (K.fault_count sink.new) ran.status) }
{
    let Closed { history, bay } = match run_through(alloc, bay, shape, config, run, clock) {
        Ok(closed) => closed,
        Err(ran) => return Err(ran),
    };
    match tell(alloc, sink, &history) {
        Ok(()) => Ok(bay),
        Err(Untold::Failed) => Err(Ran { status: 4, bay }),
        Err(Untold::Memory) => Err(Ran { status: 5, bay }),
    }
}

/// Runs a run over a bay to its end, and stops the devices: the history and the bay, or how the call ends.
fn run_through<D: Device, C: Clock>(
    alloc: Global,
    bay: Bay<D>,
    shape: Shape,
    config: Config,
    run: &RunItem,
    clock: &mut C,
) -> Result<Closed<D>, Ran<D>>
    requires run { is_built_run (size_of shape) run.now ≡ true }
    requires single { is_single config.scheme ≡ true }
    ensures played { IfOk result (λ closed. IsPlayed (record { shape = shape; config = config }) (legal_item (item.Run run.now) ∷ []) (states_of D.state bay) (states_of D.state closed.bay) closed.history.events) }
    ensures timed { IfOk result (λ closed. TellsReadings (C.reading clock.old) (C.reading clock.new) closed.history.events) }
    ensures causes { IfOk result (λ closed. TellsCauses (states_of D.state bay) (states_of D.state closed.bay) closed.history.events) }
    ensures ends { IfErr result (λ ran. ran.status ≡ 5) }
{
    let mut site = match begin_run(alloc, bay, shape, config, run) {
        Ok(site) => site,
        Err(Unbegun { bay }) => return Err(Ran { status: 5, bay }),
    };
    let over = run_out(
        &mut site,
        clock,
        shape.nodes * shape.ranks,
        run.turns.list(),
    );
    let Closed { history, mut bay } = site.close();
    if let Err(SiteError::Memory) = over {
        return Err(Ran { status: 5, bay });
    }
    stop_devices(&mut bay, 0);
    Ok(Closed { history, bay })
}

/// A copy of a rank's steps.
fn steps_of(alloc: Global, program: &[Step]) -> Result<Vec<Step>, Memory>
    ensures { IfOk result (λ steps. steps.items ≡ program.now) }
{
    let mut steps = Vec::new(alloc);
    for step in program {
        steps.push(step.copy(alloc)?)?;
    }
    Ok(steps)
}

/// A copy of all ranks' steps.
fn programs_of(alloc: Global, ranks: &[Items<Step>]) -> Result<Vec<Vec<Step>>, Memory>
    ensures { IfOk result (λ programs. map (λ program. program.items) programs.items ≡ ranks.now) }
{
    let mut programs = Vec::new(alloc);
    for program in ranks {
        programs.push(steps_of(alloc, program.list())?)?;
    }
    Ok(programs)
}

/// A site about to run a run.
fn begin_run<D: Device>(
    alloc: Global,
    bay: Bay<D>,
    shape: Shape,
    config: Config,
    run: &RunItem,
) -> Result<Site<D>, Unbegun<D>>
    requires run { is_built_run (size_of shape) run.now ≡ true }
    requires single { is_single config.scheme ≡ true }
    ensures bay { IfOk result (λ site. site.bay ≡ bay) }
    ensures refused { IfErr result (λ left. left.bay ≡ bay) }
    ensures setup { IfOk result (λ site. setup_of_core site.core ≡ record { shape = shape; config = config }) }
    ensures places { IfOk result (λ site. site.core.places ≡ run.now.places) }
    ensures programs { IfOk result (λ site. site.programs ≡ run.now.programs) }
    ensures ranks { IfOk result (λ site. length site.core.ranks ≡ shape.nodes * shape.ranks) }
    ensures empty { IfOk result (λ site. site.history.events ≡ []) }
    ensures accounts { IfOk result (λ site. IsAccounted D.state (states_of D.state bay) site) }
    ensures follows { IfOk result (λ site. (first : Machine) → Tells (states_of D.state bay) → Stands (record { shape = shape; config = config }) (states_of D.state bay) first → CanBegin (record { shape = shape; config = config }) (states_of D.state bay) first → IsRunFrom D.state first site) }
{
    let Ok(places) = Vec::from_slice(alloc, run.places.list()) else {
        return Err(Unbegun { bay });
    };
    let Ok(programs) = programs_of(alloc, run.programs.list()) else {
        return Err(Unbegun { bay });
    };
    Site::begin(alloc, bay, shape, config, places, programs)
}

/// Runs a site until its run has stopped: first the actors of the turn lines take their turns, and then all go round.
fn run_out<D: Device, C: Clock>(
    site: &mut Site<D>,
    clock: &mut C,
    ranks: u8,
    turns: &[TurnLine],
) -> Result<(), SiteError>
    requires ranks { ranks ≤ length site.old.core.ranks }
    requires actors { list_all (has_turn ranks) turns.now ≡ true }
    ensures kept { OnOk result (KeepsRun D.state site.old site.new) }
    ensures same { IsSameRun D.state site.old site.new }
    ensures timed { OnOk result (TellsTimes (C.reading clock.old) (C.reading clock.new) site.old.history.events site.new.history.events) }
    ensures accounts { OnOk result (KeepsAccount D.state site.old site.new) }
    ensures stopped { OnOk result (HasStopped site.new) }
{
    take_lines(site, clock, ranks, turns)?;
    go_on(site, clock, ranks)
}

/// Lets the actors of the turn lines take their turns, line after line.
fn take_lines<D: Device, C: Clock>(
    site: &mut Site<D>,
    clock: &mut C,
    ranks: u8,
    turns: &[TurnLine],
) -> Result<(), SiteError>
    requires ranks { ranks ≤ length site.old.core.ranks }
    requires actors { list_all (has_turn ranks) turns.now ≡ true }
    ensures kept { OnOk result (KeepsRun D.state site.old site.new) }
    ensures same { IsSameRun D.state site.old site.new }
    ensures timed { OnOk result (TellsTimes (C.reading clock.old) (C.reading clock.new) site.old.history.events site.new.history.events) }
    ensures accounts { OnOk result (KeepsAccount D.state site.old site.new) }
{
    for turn in turns {
        take_turns(site, clock, ranks, *turn)?;
    }
    Ok(())
}

/// Lets an actor take the turns of a turn line, moved or not.
fn take_turns<D: Device, C: Clock>(
    site: &mut Site<D>,
    clock: &mut C,
    ranks: u8,
    turn: TurnLine,
) -> Result<(), SiteError>
    requires ranks { ranks ≤ length site.old.core.ranks }
    requires actor { has_turn ranks turn ≡ true }
    ensures kept { OnOk result (KeepsRun D.state site.old site.new) }
    ensures same { IsSameRun D.state site.old site.new }
    ensures timed { OnOk result (TellsTimes (C.reading clock.old) (C.reading clock.new) site.old.history.events site.new.history.events) }
    ensures accounts { OnOk result (KeepsAccount D.state site.old site.new) }
{
    for _turn in 0..turn.times {
        take_turn(site, clock, turn.actor)?;
    }
    Ok(())
}

/// Lets the actors go round until the run has stopped, or nobody moves in a round.
fn go_on<D: Device, C: Clock>(site: &mut Site<D>, clock: &mut C, ranks: u8) -> Result<(), SiteError>
    requires { ranks ≤ length site.old.core.ranks }
    ensures kept { OnOk result (KeepsRun D.state site.old site.new) }
    ensures same { IsSameRun D.state site.old site.new }
    ensures timed { OnOk result (TellsTimes (C.reading clock.old) (C.reading clock.new) site.old.history.events site.new.history.events) }
    ensures accounts { OnOk result (KeepsAccount D.state site.old site.new) }
    ensures stopped { OnOk result (HasStopped site.new) }
{
    let mut goes = true;
    while goes {
        let moves = site.moves();
        go_round(site, clock, ranks)?;
        if site.stopped() {
            return Ok(());
        }
        goes = site.moves() != moves;
    }
    Err(SiteError::Memory)
}

/// Lets each actor take a turn.
fn go_round<D: Device, C: Clock>(
    site: &mut Site<D>,
    clock: &mut C,
    ranks: u8,
) -> Result<(), SiteError>
    requires { ranks ≤ length site.old.core.ranks }
    ensures kept { OnOk result (KeepsRun D.state site.old site.new) }
    ensures same { IsSameRun D.state site.old site.new }
    ensures goes { OnOk result (GoesDown site.old site.new) }
    ensures timed { OnOk result (TellsTimes (C.reading clock.old) (C.reading clock.new) site.old.history.events site.new.history.events) }
    ensures accounts { OnOk result (KeepsAccount D.state site.old site.new) }
{
    take_plain_turn(site, Actor::Recoverer)?;
    take_rank_turns(site, clock, ranks)?;
    take_plain_turn(site, Actor::Encoder)?;
    take_plain_turn(site, Actor::Flusher)?;
    take_plain_turn(site, Actor::Evictor)
}

/// Lets each rank take a turn.
fn take_rank_turns<D: Device, C: Clock>(
    site: &mut Site<D>,
    clock: &mut C,
    ranks: u8,
) -> Result<(), SiteError>
    requires { ranks ≤ length site.old.core.ranks }
    ensures kept { OnOk result (KeepsRun D.state site.old site.new) }
    ensures same { IsSameRun D.state site.old site.new }
    ensures goes { OnOk result (GoesDown site.old site.new) }
    ensures timed { OnOk result (TellsTimes (C.reading clock.old) (C.reading clock.new) site.old.history.events site.new.history.events) }
    ensures accounts { OnOk result (KeepsAccount D.state site.old site.new) }
{
    for rank in 0..ranks {
        take_rank_turn(site, clock, rank)?;
    }
    Ok(())
}

/// Lets an actor take a turn, a rank with a look at the clock.
fn take_turn<D: Device, C: Clock>(
    site: &mut Site<D>,
    clock: &mut C,
    actor: Actor,
) -> Result<(), SiteError>
    requires { IsActor (length site.old.core.ranks) actor }
    ensures kept { OnOk result (KeepsRun D.state site.old site.new) }
    ensures same { IsSameRun D.state site.old site.new }
    ensures timed { OnOk result (TellsTimes (C.reading clock.old) (C.reading clock.new) site.old.history.events site.new.history.events) }
    ensures accounts { OnOk result (KeepsAccount D.state site.old site.new) }
{
    match actor {
        Actor::Rank { rank } => take_rank_turn(site, clock, rank),
        _ => take_plain_turn(site, actor),
    }
}

/// Lets a rank take a turn; the clock is read before, where the round needs the time.
fn take_rank_turn<D: Device, C: Clock>(
    site: &mut Site<D>,
    clock: &mut C,
    rank: u8,
) -> Result<(), SiteError>
    requires { rank < length site.old.core.ranks }
    ensures kept { OnOk result (KeepsRun D.state site.old site.new) }
    ensures same { IsSameRun D.state site.old site.new }
    ensures goes { OnOk result (GoesDown site.old site.new) }
    ensures timed { OnOk result (TellsTimes (C.reading clock.old) (C.reading clock.new) site.old.history.events site.new.history.events) }
    ensures accounts { OnOk result (KeepsAccount D.state site.old site.new) }
{
    tell_time(site, clock)?;
    take_plain_turn(site, Actor::Rank { rank })
}

/// Reads the clock, where the round needs the time, and tells it.
fn tell_time<D: Device, C: Clock>(site: &mut Site<D>, clock: &mut C) -> Result<(), SiteError>
    ensures kept { OnOk result (KeepsRun D.state site.old site.new) }
    ensures same { IsSameRun D.state site.old site.new }
    ensures goes { OnOk result (GoesDown site.old site.new) }
    ensures timed { OnOk result (TellsTimes (C.reading clock.old) (C.reading clock.new) site.old.history.events site.new.history.events) }
    ensures accounts { OnOk result (KeepsAccount D.state site.old site.new) }
{
    if !site.wants_time() {
        return Ok(());
    }
    let now = clock.now();
    site.tell_time(now)
}

/// Lets an actor take a turn without a look at the clock.
fn take_plain_turn<D: Device>(site: &mut Site<D>, actor: Actor) -> Result<(), SiteError>
    requires { IsActor (length site.old.core.ranks) actor }
    ensures kept { OnOk result (KeepsRun D.state site.old site.new) }
    ensures same { IsSameRun D.state site.old site.new }
    ensures goes { OnOk result (GoesDown site.old site.new) }
    ensures timed { OnOk result ((next : Option ℕ) → TellsTimes next next site.old.history.events site.new.history.events) }
    ensures accounts { OnOk result (KeepsAccount D.state site.old site.new) }
{
    match site.turn(actor) {
        Ok(_) => Ok(()),
        Err(error) => Err(error),
    }
}
