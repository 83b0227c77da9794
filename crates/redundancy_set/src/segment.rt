ghost use Rattle.std.specs.Prelude.{◌≡◌, ◌+◌, ◌<◌, true, length, IfOk};
ghost use Rattle.member_shares.specs.Layout.{holds_parity};
ghost use Rattle.member_shares.specs.Shares.{parity_count, IsSet};
ghost use Rattle.redundancy_set.specs.Sums.{IsCodeSegment, has_data, data_byte};

use crate::factors::factors_of;
use crate::parts::data_parts;
use crate::places::data_places;
use crate::stripes::Stripes;
use crate::sums::append_sum;
use scr_base::{Bytes, Scheme};
use std::alloc::{AllocError, Global};

/// The segment that the target keeps of a stripe in which it has parity. `segments` has what is known of the stripe's data
/// segments, by ascending member; one that ends before `stripes.len` stands for zeros from there on.
pub fn parity_segment(
    alloc: Global,
    scheme: Scheme,
    stripes: Stripes,
    stripe: u8,
    target: u8,
    segments: &[Bytes],
) -> Result<Bytes, AllocError>
    requires set { IsSet scheme stripes.members }
    requires parity { stripes.parity ≡ parity_count scheme }
    requires stripe { stripe < stripes.members }
    requires within { target < stripes.members }
    requires held { holds_parity stripes.members stripes.parity stripe target ≡ true }
    requires count { length segments.now + stripes.parity ≡ stripes.members }
    ensures { IfOk result (IsCodeSegment scheme stripes.members target stripes.len (has_data stripes.members stripes.parity stripe)
        (data_byte stripes.members stripes.parity stripe segments.now)) }
{
    let holders = data_places(alloc, stripes, stripe)?;
    let places = holders.as_slice();
    let factors = factors_of(alloc, scheme, stripes.members, places, target)?;
    let parts = data_parts(alloc, stripes, segments, places, stripe)?;
    let mut segment = Vec::with_capacity(alloc, stripes.len)?;
    append_sum(&mut segment, stripes.len, parts.as_slice(), factors.list())?;
    Ok(Bytes::of(segment))
}
