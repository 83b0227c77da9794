//! The folders of the prefix: the files of flushed datasets, each under the name of its dataset.
#![tactic(auto)]

mod clearing;
mod file_name;
mod laws;
mod pieces;
mod under;

pub use clearing::{clear_step, removals_under};
pub use laws::distinct_folders;
pub use pieces::{read_piece, write_piece};
