//! Records that are shut or whole after any stop: eight gate bytes, the length of a body, and the body. A gate is opened
//! by a write of its own once the body is stable.
#![tactic(auto)]

pub mod laws;
mod making;
mod pair;
mod pair_next;
mod pair_steps;
mod reading;
mod record;

pub use pair::{PairValue, pair_load};
pub use pair_next::pair_next_step;
pub use pair_steps::pair_step;
pub use reading::{Record, load, read_record};
pub use record::{Loaded, close_gate, open_gate, write_body};
