//! The members that a node's device holds: a record each, the files of its ranks, and their shares.
#![tactic(auto)]

mod device_name;
mod gates;
mod laws;
mod member;
mod order;
mod part;
mod part_names;
mod parts;
mod reading;
mod removal;
mod scanning;
mod tree;

pub use gates::{MemberGate, set_gate, write_member};
pub use laws::distinct_names;
pub use member::Member;
pub use part::Part;
pub use parts::{part_file_name, read_part, write_part};
pub use removal::drop_step;
pub use scanning::scan;
