//! A board of replies: a cell for each rank and step, which is written once and read without waiting.
#![tactic(auto)]

mod board;
mod same;

pub use board::{Note, PostError, ReplyBoard};
