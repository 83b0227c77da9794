//! The memory of a run of a site: its datasets in cache, its ranks, its programs, and what each move changes of them. No device is named here.
#![tactic(auto)]

mod cache;
mod error;
mod laws;
mod places;
mod programs;
mod rows;
mod run_moves;
mod run_state;
mod turn;
mod verdict;

pub use cache::{Cache, Cached, Manifest, Mark};
pub use error::SiteError;
pub use laws::a_run_goes_on;
pub use places::Places;
pub use programs::Programs;
pub use run_moves::Spot;
pub use run_state::{DropStep, RunStage, RunState, SaveStep};
pub use turn::{Turn, Why};
pub use verdict::end_of;
