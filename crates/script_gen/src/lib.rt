//! Generated scripts: a long random job, the same for the same seed.
#![tactic(auto)]

mod draws;
mod script;

pub use draws::Draws;
pub use script::generate;
