/// What a command comes to.
#[derive(Clone, Copy, Debug, PartialEq, Eq)]
pub enum Answer {
    /// It was done.
    Done,
    /// The prefix failed, and its count of faults rose to `count`.
    Device { count: u64 },
    /// A write would have passed the capacity of the prefix, of which so much is used.
    Full { used: u64, capacity: u64 },
}
