/// What a stop leaves of a file of the memory device.
#[derive(Clone, Copy, Debug, PartialEq, Eq)]
pub enum Outcome {
    /// What a read gave.
    AsRead,
    /// What the last sync made sure of.
    AsStable,
    /// What a read gave, with another value in each touched byte.
    Scrambled,
}
