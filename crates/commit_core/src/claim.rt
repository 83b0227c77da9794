ghost use Rattle.std.specs.Prelude.{IsTrue};
ghost use Rattle.commit_core.specs.Claims.{is_claim};

use scr_base::{Bytes, Copies, DataId, Items, Memory, Scheme};
use std::alloc::Global;

/// A piece of what the members of a set keep for one another, which is to be computed. It has all that it takes.
#[derive(Debug, Drop)]
pub struct Claim {
    /// Tells the claim from others.
    pub number: u64,
    /// The dataset that is being made whole.
    pub which: DataId,
    /// How the set is kept, which isn't SINGLE.
    pub scheme: Scheme,
    /// The local number of the set's ranks.
    pub local: u8,
    /// The group of the set's nodes.
    pub group: u8,
    /// The stripe in which the target has parity; 0 for PARTNER.
    pub stripe: u8,
    /// The member that will keep the piece.
    pub target: u8,
    /// Where the piece begins, in the segment of each member of the stripe, or for PARTNER in the stream.
    pub at: u32,
    /// The stripe's data segments by ascending member, of one length, or for PARTNER the one stream.
    pub inputs: Items<Bytes>,
    pub ghost fits: { IsTrue (is_claim scheme stripe target inputs) },
}

impl Copies for Claim {
    fn copy(&self, alloc: Global) -> Result<Claim, Memory> {
        Ok(Claim {
            number: self.number,
            which: self.which,
            scheme: self.scheme,
            local: self.local,
            group: self.group,
            stripe: self.stripe,
            target: self.target,
            at: self.at,
            inputs: self.inputs.copy(alloc)?,
        })
    }
}
