use member_store::MemberGate;

/// A change of the device of a node.
#[derive(Clone, Copy, Debug, PartialEq, Eq)]
pub enum NextChange {
    /// The node's record is written, with its gates closed.
    Record { node: u8 },
    /// The device is synced.
    Sync { node: u8 },
    /// A gate of the node's record is opened.
    Open { node: u8, gate: MemberGate },
}
