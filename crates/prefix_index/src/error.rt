ghost use Rattle.std.specs.Prelude.{◌≡◌};
ghost use Rattle.prefix_index.specs.Answers.{index_fault};

use node_device::{DevError, Device};
use scr_base::DataId;
use thiserror::Error;

/// Why a call on the index is refused.
#[derive(Clone, Copy, Debug, PartialEq, Eq, Error)]
pub enum IndexError {
    /// No entry has this id; or, for the mark, it is failed.
    #[error("no such entry")]
    NoEntry,
    /// This entry has the dataset's name.
    #[error("the name is taken")]
    NameTaken { which: DataId },
    /// The prefix failed, and its count of faults rose to `count`.
    #[error("the device failed")]
    Device { count: u64 },
    /// A write would have passed the capacity of the prefix, of which so much is used.
    #[error("the device is full")]
    Full { used: u64, capacity: u64 },
    /// There is no memory for it.
    #[error("want of memory")]
    Memory,
}

impl IndexError {
    /// What is answered where the device refuses so.
    pub(crate) fn of<D: Device>(dev: &D, fault: DevError) -> IndexError
        ensures { result ≡ index_fault (D.state dev.now) fault }
    {
        match fault {
            DevError::Failed => IndexError::Device {
                count: dev.faults(),
            },
            DevError::Full => IndexError::Full {
                used: dev.used(),
                capacity: dev.capacity(),
            },
            _ => IndexError::Memory,
        }
    }
}
