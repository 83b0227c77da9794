//! Trees of keys, and their one encoding.
#![tactic(auto)]

mod error;
mod number;
mod reading;
mod tree;
mod writing;

pub use error::TreeError;
pub use number::number_of;
pub use tree::Tree;
