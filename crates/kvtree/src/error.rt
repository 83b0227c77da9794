ghost use Rattle.std.specs.Prelude.{◌≡◌};
ghost use Rattle.kvtree.specs.declared.error.TreeError.TheVariants.{Memory};

use std::alloc::{AllocError, AllocFailed};
use thiserror::Error;

/// Why bytes are no tree: the first fault from the front, and where it stands.
#[derive(Debug, Drop, Error)]
pub enum TreeError {
    /// The input ends inside a field. The place is the input's length.
    #[error("the input ends inside a field, at {place}")]
    Short { place: u64 },
    /// A key isn't greater than the key before it in its tree. The place is the key's first byte.
    #[error("the key at {place} is out of order")]
    Order { place: u64 },
    /// A key's length is 0 or over 255. The place is the length's first byte.
    #[error("the key's length at {place} is out of its range")]
    Length { place: u64 },
    /// Bytes stand after the root. The place is the first of them.
    #[error("bytes stand after the tree, at {place}")]
    Trailing { place: u64 },
    /// A tree of depth 17 begins. The place is the first byte of its number of children.
    #[error("the tree at {place} is too deep")]
    Depth { place: u64 },
    /// There is no memory for the tree.
    #[error("want of memory")]
    Memory,
}

impl From<scr_base::Memory> for TreeError {
    ghost from_gives = { λ _ e. e ≡ Memory };

    fn from(_error: scr_base::Memory) -> TreeError {
        TreeError::Memory
    }
}

impl From<AllocError> for TreeError {
    ghost from_gives = { λ _ e. e ≡ Memory };

    fn from(_error: AllocError) -> TreeError {
        TreeError::Memory
    }
}

impl<T: Drop> From<AllocFailed<T>> for TreeError {
    ghost from_gives = { λ _ e. e ≡ Memory };

    fn from(_error: AllocFailed<T>) -> TreeError {
        TreeError::Memory
    }
}
