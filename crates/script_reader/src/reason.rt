//! Why a line is refused.
ghost use Rattle.std.specs.Prelude.{◌≡◌};
ghost use Rattle.script_reader.specs.declared.reason.LineError.TheVariants.{Memory as OutOfMemory, Refused};

use scr_base::Memory;
use std::alloc::{AllocError, AllocFailed};

/// What is wrong with a line.
#[derive(Clone, Copy, Debug, PartialEq, Eq)]
pub enum Reason {
    /// Its words are of no form of a line.
    Form,
    /// A number isn't of its form or range.
    Number,
    /// A word or a name isn't of its form.
    Word,
    /// The first line isn't the site's.
    NoSite,
    /// A setting is repeated.
    Repeated,
    /// No such line stands here.
    Order,
    /// A rank isn't of its form or of the site.
    Rank,
    /// A physical node isn't of its form or of the site.
    Node,
    /// A rank would have too many files.
    Routes,
    /// A write would end past the longest file.
    FileEnd,
    /// The script would be too large.
    Limit,
    /// The scheme doesn't fit the groups of nodes.
    Scheme,
    /// A byte is no text.
    Byte,
    /// The last line has no line feed.
    Unended,
}

/// Why a line isn't taken.
#[derive(Debug, Drop)]
pub(crate) enum LineError {
    Refused(Reason),
    Memory,
}

impl Reason {
    ghost use Rattle.std.specs.Prelude.{◌≡◌};
    ghost use Rattle.script_reader.specs.Reasons.{reason_number};

    /// The number by which the reason is reported.
    pub(crate) fn number(self) -> u8
        ensures { result ≡ reason_number self }
    {
        match self {
            Reason::Form => 1,
            Reason::Number => 2,
            Reason::Word => 3,
            Reason::NoSite => 4,
            Reason::Repeated => 5,
            Reason::Order => 6,
            Reason::Rank => 7,
            Reason::Node => 8,
            Reason::Routes => 9,
            Reason::FileEnd => 10,
            Reason::Limit => 11,
            Reason::Scheme => 12,
            Reason::Byte => 13,
            Reason::Unended => 14,
        }
    }
}

impl From<Reason> for LineError {
    ghost from_gives = { λ r e. e ≡ Refused r };

    fn from(reason: Reason) -> LineError {
        LineError::Refused(reason)
    }
}

impl From<Memory> for LineError {
    ghost from_gives = { λ _ e. e ≡ OutOfMemory };

    fn from(_error: Memory) -> LineError {
        LineError::Memory
    }
}

impl From<AllocError> for LineError {
    ghost from_gives = { λ _ e. e ≡ OutOfMemory };

    fn from(_error: AllocError) -> LineError {
        LineError::Memory
    }
}

impl<T: Drop> From<AllocFailed<T>> for LineError {
    ghost from_gives = { λ _ e. e ≡ OutOfMemory };

    fn from(_error: AllocFailed<T>) -> LineError {
        LineError::Memory
    }
}
