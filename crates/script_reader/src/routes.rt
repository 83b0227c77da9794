//! Which files each rank routed since its last start.
ghost use Rattle.std.specs.Prelude.{◌≡◌, IfOk, OnOk, slice_get};
ghost use Rattle.script_reader.specs.Routes.{is_meant, has_route, is_full, is_full_at, has_full, passes_routes, no_routes, with_route, after_start, after_route, routes_after};

use crate::line::RankStep;
use scr_base::{Copies, Memory, Step, Word};
use std::alloc::Global;
use std::marker::Model;

/// How many files a rank may route.
const MOST_ROUTES: usize = 16;

/// The files that a rank routed since its last start.
#[derive(Debug, Drop)]
pub struct Routes {
    names: Vec<Word>,
}

impl Model for Routes {
    ghost use Rattle.std.specs.Prelude.{List, ℕ};

    ghost Value = { List (List ℕ) };

    ghost view = { λ r. r.names.items };
}

/// Whether the rank is one of those from the first to the last.
pub(crate) fn is_meant(first: u8, last: u8, rank: u8) -> bool
    ensures { result ≡ is_meant first last rank }
{
    first <= rank && rank <= last
}

/// The same for a rank by its place in a list.
fn is_place_meant(first: u8, last: u8, rank: usize) -> bool
    ensures { result ≡ is_meant first last rank }
{
    first as usize <= rank && rank <= last as usize
}

fn has_route(routes: &Routes, name: &[u8]) -> bool
    ensures { result ≡ has_route name.now routes.now }
{
    routes.names.iter().any(|route| route.bytes() == name)
}

/// Whether the file would be one too many for the rank.
fn is_full(routes: &Routes, name: &[u8]) -> bool
    ensures { result ≡ is_full name.now routes.now }
{
    !has_route(routes, name) && routes.names.len() >= MOST_ROUTES
}

/// The same for the rank at a place, if there is one.
fn is_full_at(routes: &[Routes], rank: usize, name: &[u8]) -> bool
    ensures { result ≡ is_full_at name.now (slice_get routes.now rank) }
{
    match routes.get(rank) {
        Some(files) => is_full(files, name),
        None => false,
    }
}

/// Whether the file would be one too many for one of the ranks meant.
fn has_full(routes: &[Routes], first: u8, last: u8, name: &[u8]) -> bool
    ensures { result ≡ has_full routes.now first last name.now }
{
    (0..routes.len()).any(|rank| is_place_meant(first, last, rank)
        && is_full_at(routes, rank, name))
}

/// Whether the step would be one route too many for one of the ranks meant.
pub(crate) fn passes_routes(routes: &[Routes], given: &RankStep) -> bool
    ensures { result ≡ passes_routes routes.now given.now }
{
    match &given.step {
        Step::Route { name } => has_full(routes, given.first, given.last, name.bytes()),
        _ => false,
    }
}

/// None for each of that many ranks.
pub(crate) fn no_routes(alloc: Global, ranks: u8) -> Result<Vec<Routes>, Memory>
    ensures { IfOk result (λ routes. routes.items ≡ no_routes ranks) }
{
    let mut routes = Vec::new(alloc);
    for rank in 0..ranks {
        let names = Vec::new(alloc);
        routes.push(Routes { names })?;
    }
    Ok(routes)
}

/// Adds the file, where it is new for the rank.
fn add_route(alloc: Global, routes: &mut Routes, name: &Word) -> Result<(), Memory>
    ensures { OnOk result (routes.new ≡ with_route name.now routes.old) }
{
    if !has_route(routes, name.bytes()) {
        let copy = name.copy(alloc)?;
        routes.names.push(copy)?;
    }
    Ok(())
}

/// Forgets what the ranks meant routed.
fn forget_routes(alloc: Global, routes: &mut Vec<Routes>, first: u8, last: u8)
    ensures { routes.new.items ≡ after_start first last 0 routes.old.items }
{
    for rank in 0..routes.len() {
        if is_place_meant(first, last, rank) {
            let names = Vec::new(alloc);
            routes[rank] = Routes { names };
        }
    }
}

/// Adds the file to those of the ranks meant.
fn add_routes(
    alloc: Global,
    routes: &mut Vec<Routes>,
    first: u8,
    last: u8,
    name: &Word,
) -> Result<(), Memory>
    ensures { OnOk result (routes.new.items ≡ after_route name.now first last 0 routes.old.items) }
{
    for rank in 0..routes.len() {
        if is_place_meant(first, last, rank) {
            add_route(alloc, &mut routes[rank], name)?;
        }
    }
    Ok(())
}

/// Takes the step into account.
pub(crate) fn note_step(
    alloc: Global,
    routes: &mut Vec<Routes>,
    given: &RankStep,
) -> Result<(), Memory>
    ensures { OnOk result (routes.new.items ≡ routes_after routes.old.items given.now) }
{
    match &given.step {
        Step::Start { name: _, flags: _ } => forget_routes(alloc, routes, given.first, given.last),
        Step::Route { name } => add_routes(alloc, routes, given.first, given.last, name)?,
        _ => {}
    }
    Ok(())
}
