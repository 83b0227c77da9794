use crate::event::Event;

/// What one step of a core did: at most one change of a device.
#[derive(Debug, Drop)]
pub enum Progress {
    /// A step that no event tells.
    Silent,
    /// A step that this event tells.
    Shown { event: Event },
    /// Nothing was left to do.
    Over,
    /// A device failed, and its count of faults rose to `count`; the prefix is device 32.
    Fault { node: u8, count: u64 },
    /// The step's write would have passed the capacity of a device of which so many bytes are used.
    Full { node: u8, used: u64, capacity: u64 },
}
