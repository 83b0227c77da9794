//! The calls on a bay's devices that a site is made of, each with the cause of its refusal.
#![tactic(auto)]

mod bay_calls;
mod file_calls;
mod removal;
mod storing;
mod trouble;

pub use file_calls::{
    drop_file, get_part, halt_now, last_run, members_at, put_gate, put_member, put_part,
    store_number, sync_node,
};
pub use removal::Removal;
pub use storing::Storing;
pub use trouble::Trouble;
