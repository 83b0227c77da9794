use crate::claim::Claim;

/// What is answered where a share is claimed.
#[derive(Debug, Drop)]
pub enum Claimed {
    /// The claim, which is out from now on.
    Out { claim: Claim },
    /// No share is unclaimed.
    NoneLeft,
    /// A read for the claim failed, and the device's count of faults rose to `count`.
    Fault { node: u8, count: u64 },
}
