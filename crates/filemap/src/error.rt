ghost use Rattle.std.specs.Prelude.{◌≡◌};
ghost use Rattle.filemap.specs.declared.error.RouteError.TheVariants as route;
ghost use Rattle.filemap.specs.declared.error.MapError.TheVariants as map;

use std::alloc::AllocFailed;
use thiserror::Error;

/// Why a file isn't routed.
#[derive(Clone, Copy, Debug, PartialEq, Eq, Error)]
pub enum RouteError {
    /// The file is new, and the rank has 16 files.
    #[error("a rank has at most 16 files")]
    Limit,
    /// There is no memory for the file.
    #[error("want of memory")]
    Memory,
}

/// Why a tree has no file map.
#[derive(Clone, Copy, Debug, PartialEq, Eq, Error)]
pub enum MapError {
    /// It is the tree of no file map.
    #[error("the tree is that of no file map")]
    Foreign,
    /// There is no memory for the file map.
    #[error("want of memory")]
    Memory,
}

impl From<scr_base::Memory> for RouteError {
    ghost from_gives = { λ _ e. e ≡ route.Memory };

    fn from(_error: scr_base::Memory) -> RouteError {
        RouteError::Memory
    }
}

impl<T: Drop> From<AllocFailed<T>> for RouteError {
    ghost from_gives = { λ _ e. e ≡ route.Memory };

    fn from(_error: AllocFailed<T>) -> RouteError {
        RouteError::Memory
    }
}

impl<T: Drop> From<AllocFailed<T>> for MapError {
    ghost from_gives = { λ _ e. e ≡ map.Memory };

    fn from(_error: AllocFailed<T>) -> MapError {
        MapError::Memory
    }
}
