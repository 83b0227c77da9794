//! Redundancy sets: what a member keeps for the others, and the streams of all members from those that aren't lost.
#![tactic(auto)]

mod cutting;
mod factors;
mod longest;
mod member;
mod parts;
mod places;
mod recovery;
mod segment;
mod stripes;
mod sums;

pub use member::{member_of, share_of};
pub use partner_copy::Held;
pub use process_sets::{SetError, Sets};
pub use recovery::{RecoverError, recover, recover_one};
pub use segment::parity_segment;
pub use stripes::Stripes;
