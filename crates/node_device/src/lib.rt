//! Devices that hold files, what a stop may leave of them, and the bay of a site.
#![tactic(auto)]

mod bay;
mod changes;
mod device;
mod entry;
mod held;
pub mod laws;
mod mem;
mod outcome;

pub use bay::{Bay, Ran};
pub use device::{DevError, Device};
pub use mem::MemDevice;
