ghost use Rattle.std.specs.Prelude.{◌-◌, ◌<◌, ◌≤◌, IfOk};
ghost use Rattle.scr_base.specs.declared.shape.Scheme.TheVariants.{Rs};
ghost use Rattle.member_shares.specs.Shares.{parity_count, IsSet};
ghost use Rattle.redundancy_set.specs.Sums.{ArePlaces, AreFactors};

use reed_solomon::factors;
use scr_base::{Bytes, Scheme};
use std::alloc::{AllocError, Global};

/// The factors with which the segments at the places sum up to the one at the target, in each stripe of a set of that
/// many members. The places are as many as a stripe has data segments.
pub fn factors_of(
    alloc: Global,
    scheme: Scheme,
    members: u8,
    places: &[u8],
    target: u8,
) -> Result<Bytes, AllocError>
    requires set { IsSet scheme members }
    requires coded { 1 ≤ parity_count scheme }
    requires within { target < members }
    requires places { ArePlaces members (members - parity_count scheme) target places.now }
    ensures { IfOk result (AreFactors scheme members places.now target) }
{
    match scheme {
        Scheme::Xor => Ok(Bytes::of(vec![in alloc; 1; places.len()]?)),
        Scheme::Rs { shares } => factors(alloc, members, shares, places, target),
        Scheme::Single | Scheme::Partner => unreachable!(),
    }
}
