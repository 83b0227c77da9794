//! A dataset leaves the cache: its gates `sealed` are closed, and then the files of its members are removed.
#![tactic(auto)]

mod calls;
mod change;
mod closing;
mod evict;
mod laws;
mod set;
mod stage;

pub use change::EvictChange;
pub use closing::Closing;
pub use evict::Evict;
pub use laws::{
    a_cleared_place_takes_a_record, a_dropped_dataset_begins_to_leave,
    a_settled_dataset_begins_to_leave, the_last_sync_may_be_told,
    what_changes_no_node_keeps_what_holds,
};
pub use set::EvictSet;
pub use stage::EvictStage;
