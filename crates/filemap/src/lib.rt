//! The files of each rank in the order of their first route, and the tree that they stand in.
#![tactic(auto)]

mod error;
mod filemap;
mod numbered;
mod rows;
mod tree_of_rows;

pub use error::{MapError, RouteError};
pub use filemap::Filemap;
pub use rows::FileRow;
