// Which scripts are built.
ghost use Rattle.std.specs.Prelude.{◌≡◌, bytes_eq};
ghost use Rattle.std.specs.List.{list_all};
ghost use Rattle.scr_base.specs.Sets.{numbers_below};
ghost use Rattle.script_reader.specs.Values.{size_of};
ghost use Rattle.script_reader.specs.Grammar.{job_of};
ghost use Rattle.scr_replay.specs.Forms.{is_single, ends_by_itself, has_actor, has_turn, is_of_site, are_built_steps, is_built_run, is_halt_command, is_built_item, first_program, first_steps_of, first_steps, has_room, is_unflushed, is_built};

use crate::steps::{are_built_steps, count_starts, has_room, room_behind};
use admin::Command;
use ckpt_model::{StopLine, StopPlace};
use scr_base::{Actor, Items, Scheme, Shape, Step};
use script_reader::{Item, RunItem, Script, TurnLine};

/// Whether the datasets are kept without copies.
fn is_single(scheme: Scheme) -> bool
    ensures { result ≡ is_single scheme }
{
    matches!(scheme, Scheme::Single)
}

/// Whether the run ends by itself, and what was written is there then.
fn ends_by_itself(line: &StopLine) -> bool
    ensures { result ≡ ends_by_itself line.now }
{
    line.pick == 0 && matches!(line.place, StopPlace::End)
}

/// Whether the places are those of so many nodes, in their order.
fn are_in_order(places: &[u8], nodes: u8) -> bool
    ensures { result ≡ bytes_eq places.now (numbers_below nodes) }
{
    if places.len() != nodes as usize {
        return false;
    }
    for i in 0..places.len() {
        if places[i] as usize != i {
            return false;
        }
    }
    true
}

/// Whether the actor is one of a site of so many ranks.
fn has_actor(ranks: usize, actor: Actor) -> bool
    ensures { result ≡ has_actor ranks actor }
{
    match actor {
        Actor::Rank { rank } => (rank as usize) < ranks,
        _ => true,
    }
}

/// Whether the turns are of actors of a site of so many ranks.
fn has_turns(ranks: usize, turns: &[TurnLine]) -> bool
    ensures { result ≡ list_all (has_turn ranks) turns.now }
{
    turns.iter().all(|turn| has_actor(ranks, turn.actor))
}

/// Whether each rank has its program, and the turns are of the site's actors, as in every script that is read.
fn is_of_site(shape: Shape, run: &RunItem) -> bool
    ensures { result ≡ is_of_site (size_of shape) run.now }
{
    let ranks = shape.nodes as usize * shape.ranks as usize;
    run.programs.list().len() == ranks && has_turns(ranks, run.turns.list())
}

fn are_built_programs(programs: &[Items<Step>]) -> bool
    ensures { result ≡ list_all are_built_steps programs.now }
{
    programs
        .iter()
        .all(|program| are_built_steps(program.list()))
}

/// Whether each node stands in its place, the run ends by itself, and its steps are built.
fn is_built_run(shape: Shape, run: &RunItem) -> bool
    ensures { result ≡ is_built_run (size_of shape) run.now }
{
    are_in_order(run.places.list(), shape.nodes)
        && is_of_site(shape, run)
        && ends_by_itself(&run.stop)
        && are_built_programs(run.programs.list())
}

/// Whether the command is one on the conditions on which the job is to stop.
fn is_halt_command(command: &Command) -> bool
    ensures { result ≡ is_halt_command command.now }
{
    matches!(command, Command::HaltSet { .. } | Command::HaltClear)
}

/// Whether the item is a run that is built, or such a command.
fn is_built_item(shape: Shape, item: &Item) -> bool
    ensures { result ≡ is_built_item (size_of shape) item.now }
{
    match item {
        Item::Run { run } => is_built_run(shape, run),
        Item::Admin { command } => is_halt_command(command),
        _ => false,
    }
}

fn are_built_items(shape: Shape, items: &[Item]) -> bool
    ensures { result ≡ list_all (is_built_item (size_of shape)) items.now }
{
    items.iter().all(|item| is_built_item(shape, item))
}

fn first_program(programs: &[Items<Step>]) -> &[Step]
    ensures { result.now ≡ first_program programs.now }
{
    match programs.first() {
        Some(program) => program.list(),
        None => &[],
    }
}

/// The steps of rank 0 in the item.
fn first_steps_of(item: &Item) -> &[Step]
    ensures { result.now ≡ first_steps_of item.now }
{
    match item {
        Item::Run { run } => first_program(run.programs.list()),
        _ => &[],
    }
}

/// Whether each dataset is started where fewer were kept before than there is room for.
fn have_room(room: usize, items: &[Item]) -> bool
    ensures { result ≡ has_room room (first_steps items.now) }
{
    let mut left = room;
    for item in items {
        let steps = first_steps_of(item);
        if !has_room(left, steps) {
            return false;
        }
        left = room_behind(left, steps);
    }
    true
}

/// Whether too few datasets are started for one whose number the flush divides.
fn are_unflushed(flush: usize, items: &[Item]) -> bool
    ensures { result ≡ is_unflushed flush (first_steps items.now) }
{
    if flush == 0 {
        return true;
    }
    let mut left = flush;
    for item in items {
        left = left.saturating_sub(count_starts(first_steps_of(item)));
    }
    left > 0
}

/// Whether the script is of the form that is built (`docs/SCRIPT.md`): its datasets are kept without copies, in cache and
/// nowhere else, and there is room for them; its items are runs that end by themselves, and commands on the conditions on which
/// the job is to stop.
pub fn is_built(script: &Script) -> bool
    ensures { result ≡ is_built (job_of script.now) }
{
    let items = script.items.list();
    is_single(script.config.scheme)
        && are_built_items(script.shape, items)
        && have_room(script.config.cache as usize, items)
        && are_unflushed(script.config.flush as usize, items)
}
