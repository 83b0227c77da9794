//! Reading a history back from its text: one line for each event, and one spelling for each event.
#![tactic(auto)]

mod cuts;
mod fault;
mod numbers;
mod parsing;
mod read_answers;
mod read_bytes;
mod read_commands;
mod read_runs;
mod read_steps;
mod rows;

pub use parsing::{HistoryError, one_spelling, parse};
