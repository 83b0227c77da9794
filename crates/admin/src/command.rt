use scr_base::HaltWord;

/// A command on the index or on the halt conditions.
#[derive(Debug, Drop)]
pub enum Command {
    /// Lists the entries of the index.
    IndexList,
    /// Takes the entry with this id out of the index.
    IndexDrop { id: u32 },
    /// Marks the entry with this id as the one to restart from.
    IndexCurrent { id: u32 },
    /// Sets a halt condition.
    HaltSet { halt: HaltWord },
    /// Unsets all halt conditions.
    HaltClear,
}
