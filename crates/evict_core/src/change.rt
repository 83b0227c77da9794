/// A change of the device of a node.
#[derive(Clone, Copy, Debug, PartialEq, Eq)]
pub enum EvictChange {
    /// The gate `sealed` of the node's record is closed.
    Close { node: u8 },
    /// The device is synced.
    Sync { node: u8 },
    /// A file of the node's member is removed, if one is left: its record the last.
    Remove { node: u8 },
}
