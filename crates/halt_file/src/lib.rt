//! The conditions on which a job is told to stop, and the pair of records that keeps them.
#![tactic(auto)]

mod fields;
mod halt;
mod laws;
mod payload;
mod store;

pub use halt::Halt;
pub use laws::{a_store_begins_at_rest, payloads_tell};
pub use store::{load, store_step};
