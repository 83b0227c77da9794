//! What a record says of its dataset, and the tree that it stands in.
#![tactic(auto)]

mod desc;
mod fields;
mod parts;

pub use desc::{Desc, DescError};
