//! A site: one run at a time over a bay, whose history is a run of the checkpoint machine.
#![tactic(auto)]

mod calls;
mod clock;
mod deciding;
mod dropping;
mod encode;
mod events;
mod laws;
mod local;
mod recover;
mod site;
mod stops;

pub use laws::{a_call_finds_none_carried, a_run_can_begin_over_empty_devices};
pub use site::{Closed, Site, Unbegun, stop_devices};
