ghost use Rattle.std.specs.Prelude.{◌≡◌, ◌<◌, ◌≤◌, ◌+◌, ◌^◌, ℕ, true, false, IsTrue, IfOk, IfSome, IfNone, OnErr, Some, None, Ok, not, List, map, length, replicate, slice_get, slice_set, position, option_and_then, option_map, filter_map, drop, take, IsSomeAnd, option_copied};
ghost use Rattle.std.specs.List.{list_all};
ghost use Rattle.scr_base.specs.Calls.{same_call, is_end};
ghost use Rattle.round_core.specs.Seats.{fresh_seat, differs_at, is_free, is_missing, is_complete, call_at, calls_of, first_call, judged_of, seat_is_valid, next_number, called, owed, freed, stepped, reply_in};

use crate::calls::{phase_allows, same_calls, step_is_valid};
use crate::seat::{Doing, Seat};
use scr_base::{Copies, Memory, Phase, Refusal, Reply, Step};
use std::alloc::Global;
use std::marker::Model;

/// The ranks of a run, and the round that their calls make. A round is complete where every rank has called.
#[derive(Debug, Drop)]
pub struct Round {
    seats: Vec<Seat>,
}

impl Model for Round {
    ghost use Rattle.std.specs.Prelude.{List, length, ◌≤◌};
    ghost use Rattle.round_core.specs.declared.seat.Seat.{Seat};

    ghost Value = { List Seat };

    ghost view = { λ r. r.seats.items };

    ghost invariant = { λ r. length r.seats.items ≤ 255 };
}

impl Round {
    /// So many ranks that have taken no step.
    #[tactic(auto, using(crate::proofs::Seating::fresh_laws))]
    pub fn new(alloc: Global, ranks: u8) -> Result<Round, Memory>
        requires { 1 ≤ ranks }
        ensures { IfOk result (λ round. round ≡ replicate ranks fresh_seat) }
    {
        let mut seats = Vec::new(alloc);
        for _ in 0..ranks {
            seats.push(Seat {
                number: 0,
                ended: false,
                doing: Doing::Free,
            })?;
        }
        Ok(Round { seats })
    }

    /// The rank calls, and waits. Its End may be called again, and keeps its number.
    pub fn arrive(&mut self, rank: u8, step: Step)
        requires { IsSomeAnd (slice_get self.old rank) (λ seat. (is_free seat.doing ≡ true) × (next_number seat < 2 ^ 32)) }
        ensures { IfSome (slice_get self.old rank) (λ seat. self.new ≡ slice_set self.old rank (called step seat)) }
    {
        let seat = &mut self.seats[rank as usize];
        if !seat.ended {
            seat.number += 1;
        }
        seat.ended = matches!(step, Step::End);
        seat.doing = Doing::Waits { step };
    }

    /// The smallest rank that hasn't called.
    pub fn missing(&self) -> Option<u8>
        ensures { result ≡ position is_missing self.now }
    {
        let mut rank = 0;
        for seat in &self.seats {
            if is_missing_at(seat) {
                return Some(rank);
            }
            rank += 1;
        }
        None
    }

    /// The verdict on a complete round: Mismatch with the smallest rank whose call differs from rank 0's, else Phase
    /// where the phase doesn't allow it, else none.
    pub fn judge(&self, phase: Phase) -> Option<Refusal>
        requires { is_complete self.now ≡ true }
        ensures { result ≡ judged_of phase self.now }
    {
        let first = self.call(0)?;
        if let Some(rank) = self.differing(first) {
            return Some(Refusal::Mismatch { rank });
        }
        if !phase_allows(phase, first) {
            return Some(Refusal::Phase { phase });
        }
        None
    }

    /// The call with which a rank waits.
    pub fn call(&self, rank: u8) -> Option<&Step>
        ensures { option_copied result ≡ option_and_then call_at (slice_get self.now rank) }
    {
        self.seats.get(rank as usize)?.doing.call()
    }

    /// The smallest rank whose call differs from this one.
    fn differing(&self, first: &Step) -> Option<u8>
        ensures { result ≡ position (differs_at first.now) self.now }
    {
        let mut rank = 0;
        for seat in &self.seats {
            if differs(first, seat) {
                return Some(rank);
            }
            rank += 1;
        }
        None
    }

    /// A rank.
    pub fn seat(&self, rank: u8) -> Option<&Seat>
        ensures { option_copied result ≡ slice_get self.now rank }
    {
        self.seats.get(rank as usize)
    }

    /// Whether every rank says that its part is valid.
    pub fn is_valid(&self) -> bool
        ensures { result ≡ list_all seat_is_valid self.now }
    {
        self.seats.iter().all(|seat| says_valid_at(seat))
    }

    /// Whether every rank's last step was its End.
    pub fn all_ended(&self) -> bool
        ensures { result ≡ list_all (λ seat. seat.ended) self.now }
    {
        self.seats.iter().all(|seat| seat.ended)
    }

    /// The round is decided: every rank has the reply due. After want of memory all is as before.
    pub fn decide(&mut self, alloc: Global, reply: &Reply) -> Result<(), Memory>
        ensures decided { result ≡ Ok tt → self.new ≡ map (owed reply.now) self.old }
        ensures err { OnErr result (self.new ≡ self.old) }
    {
        self.seats = all_owed(alloc, &self.seats, reply)?;
        Ok(())
    }

    /// The rank takes the reply that it has due.
    pub fn take_reply(&mut self, rank: u8) -> Option<Reply>
        ensures some { IfSome result (λ reply. IsSomeAnd (slice_get self.old rank) (λ seat. (seat.doing ≡ Doing.Owed reply) × (self.new ≡ slice_set self.old rank (freed seat)))) }
        ensures due { result ≡ option_and_then (λ seat. reply_in seat.doing) (slice_get self.old rank) }
        ensures none { IfNone result (self.new ≡ self.old) }
    {
        let seat = self.seats.get_mut(rank as usize)?;
        match std::mem::replace(&mut seat.doing, Doing::Free) {
            Doing::Owed { reply } => Some(reply),
            other => {
                seat.doing = other;
                None
            }
        }
    }

    /// The rank has taken a step of its own.
    pub fn step(&mut self, rank: u8)
        requires { IsSomeAnd (slice_get self.old rank) (λ seat. seat.number + 1 < 2 ^ 32) }
        ensures { IfSome (slice_get self.old rank) (λ seat. self.new ≡ slice_set self.old rank (stepped seat)) }
    {
        self.seats[rank as usize].number += 1;
    }
}

fn is_missing_at(seat: &Seat) -> bool
    ensures { result ≡ is_missing seat.now }
{
    !matches!(seat.doing, Doing::Waits { .. })
}

fn differs(first: &Step, seat: &Seat) -> bool
    ensures { result ≡ differs_at first.now seat.now }
{
    match seat.doing.call() {
        Some(step) => !same_calls(first, step),
        None => false,
    }
}

fn says_valid_at(seat: &Seat) -> bool
    ensures { result ≡ seat_is_valid seat.now }
{
    match seat.doing.call() {
        Some(step) => step_is_valid(step),
        None => true,
    }
}

/// These ranks, each with the reply due.
fn all_owed(alloc: Global, seats: &Vec<Seat>, reply: &Reply) -> Result<Vec<Seat>, Memory>
    ensures { IfOk result (λ all. all.items ≡ map (owed reply.now) seats.now.items) }
{
    let mut all = Vec::new(alloc);
    for seat in seats {
        all.push(Seat {
            number: seat.number,
            ended: seat.ended,
            doing: Doing::Owed {
                reply: reply.copy(alloc)?,
            },
        })?;
    }
    Ok(all)
}
