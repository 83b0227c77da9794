/// Which lines may come.
#[derive(Clone, Copy, Debug, PartialEq, Eq)]
pub enum Stage {
    /// The site's line.
    Before,
    /// Settings, and what begins an item.
    Settings,
    /// What begins an item.
    Between,
    /// The lines of a run.
    Ranks,
    /// The lines of a run behind its first `turn` line.
    Turns,
}
