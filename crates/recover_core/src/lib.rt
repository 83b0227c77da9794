//! What a run finds on the nodes of its site before it serves, and what it makes of it.
#![tactic(auto)]

mod found;
mod laws;
mod look;
mod marks;
mod seen;

pub use found::FoundSet;
pub use laws::what_is_found_is_a_list;
pub use look::find_datasets;
