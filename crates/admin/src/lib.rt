//! The commands by which an operator reads and changes what stands on the prefix.
#![tactic(auto)]

mod answer;
mod command;
mod halting;
mod running;

pub use answer::Answer;
pub use command::Command;
pub use running::run_command;

#[cfg(test)]
mod tests;
