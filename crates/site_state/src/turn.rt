/// What came of a turn.
#[derive(Clone, Copy, Debug, PartialEq, Eq)]
pub enum Turn {
    /// The state changed by one move.
    Moved,
    /// Nothing changed.
    NotYet { why: Why },
    /// The run has stopped.
    Ended,
}

/// Why a turn changed nothing.
#[derive(Clone, Copy, Debug, PartialEq, Eq)]
pub enum Why {
    /// Recovery isn't over.
    Recover,
    /// The smallest rank that hasn't called.
    Round { rank: u8 },
    /// The round needs a reading of the clock.
    Clock,
    /// The round waits for the flush of that dataset.
    Flush { id: u32 },
    /// The round waits for the removal of that dataset.
    Evict { id: u32 },
    /// Restart waits for files to be copied.
    Fetch { id: u32 },
    /// So many changes are left until the dataset is sealed.
    Encode { left: u32 },
    /// The program is done and has no End.
    NoStep,
    /// The actor has nothing to do.
    Idle,
}
