//! A board of the last status, which any thread reads without waiting, and no reader goes back on.
#![tactic(auto)]

mod board;
mod rule;
mod status;

pub use board::{Pass, StatusBoard};
pub use status::Status;
