//! The index of the prefix: a record for each flushed dataset, and the mark of the one to restart from.
#![tactic(auto)]

mod adding;
mod dropping;
mod entry;
mod entry_name;
mod error;
mod gates;
mod listing;
mod marks;
mod order;
mod reading;
mod storing;
mod tree;

pub use adding::add_body;
pub use dropping::drop_step;
pub use entry::Entry;
pub use error::IndexError;
pub use gates::{add_gate, fail_gate};
pub use listing::list;
pub use marks::mark;
pub use storing::current_step;
