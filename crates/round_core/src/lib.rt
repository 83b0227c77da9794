//! The ranks of a run: the calls with which they wait, and the verdict on a round.
#![tactic(auto)]

mod calls;
mod round;
mod seat;

pub use calls::{is_local_step, phase_allows, same_calls, step_is_valid};
pub use round::Round;
pub use seat::{Doing, Seat};

#[cfg(test)]
mod tests;
