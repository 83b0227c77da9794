//! The text of a history: one line for each event, and one spelling for each event.
#![tactic(auto)]

mod pieces;
mod print_answers;
mod print_commands;
mod print_runs;
mod print_steps;
mod printing;

pub use history_reader::{HistoryError, one_spelling, parse};
pub use printing::{print, print_event};
