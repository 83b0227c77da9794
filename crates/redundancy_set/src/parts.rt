ghost use Rattle.std.specs.Prelude.{◌≡◌, ℕ, ◌+◌, ◌*◌, ◌<◌, None, false, length, map, filter, slice_index, IfOk};
ghost use Rattle.scr_base.specs.Sets.{numbers_below};
ghost use Rattle.member_shares.specs.Layout.{cell, data_place};
ghost use Rattle.redundancy_set.specs.Known.{is_lost, held_byte, stream_byte};
ghost use Rattle.redundancy_set.specs.Sums.{IsPart, AreParts, has_data, data_byte};

use crate::stripes::Stripes;
use partner_copy::Held;
use scr_base::Bytes;
use std::alloc::{AllocError, Global};

/// What the streams have of the data segments of a stripe, of the members at these places.
pub fn stream_parts<'a>(
    alloc: Global,
    stripes: Stripes,
    streams: &'a Vec<Bytes>,
    places: &[u8],
    stripe: u8,
) -> Result<Vec<&'a [u8]>, AllocError>
    requires count { length streams.now.items ≡ stripes.members }
    requires within { stripe < stripes.members }
    requires places { (j : ℕ) → j < length places.now → slice_index places.now j < stripes.members }
    ensures { IfOk result (λ parts. AreParts stripes.len (stream_byte stripes.members stripes.parity stripes.len stripe streams.now.items) places.now (map (λ part. part.now) parts.items)) }
{
    let mut parts = Vec::with_capacity(alloc, places.len())?;
    for j in 0..places.len() {
        let m = places[j];
        let place = stripes.data_place(m, stripe);
        parts.push(part_at(streams[m as usize].list(), place, stripes.len))?;
    }
    Ok(parts)
}

/// What is known of a stripe's data segments, which `segments` has by ascending member, at their places.
pub fn data_parts<'a>(
    alloc: Global,
    stripes: Stripes,
    segments: &'a [Bytes],
    places: &[u8],
    stripe: u8,
) -> Result<Vec<&'a [u8]>, AllocError>
    requires count { length segments.now ≡ length places.now }
    requires places { places.now ≡ filter (has_data stripes.members stripes.parity stripe) (numbers_below stripes.members) }
    ensures { IfOk result (λ parts. AreParts stripes.len (data_byte stripes.members stripes.parity stripe segments.now) places.now (map (λ part. part.now) parts.items)) }
{
    let mut parts = Vec::with_capacity(alloc, places.len())?;
    for j in 0..places.len() {
        parts.push(part_at(segments[j].list(), 0, stripes.len))?;
    }
    Ok(parts)
}

/// What the members at these places have of their segments of a stripe.
pub fn held_parts<'a>(
    alloc: Global,
    stripes: Stripes,
    members: &'a Vec<Option<Held>>,
    places: &[u8],
    stripe: u8,
) -> Result<Vec<&'a [u8]>, AllocError>
    requires count { length members.now.items ≡ stripes.members }
    requires within { stripe < stripes.members }
    requires places { (j : ℕ) → j < length places.now → slice_index places.now j < stripes.members }
    requires there { (j : ℕ) → j < length places.now → is_lost members.now.items (slice_index places.now j) ≡ false }
    ensures { IfOk result (λ parts. AreParts stripes.len (held_byte stripes.members stripes.parity stripes.len stripe members.now.items) places.now (map (λ part. part.now) parts.items)) }
{
    let mut parts = Vec::with_capacity(alloc, places.len())?;
    for j in 0..places.len() {
        parts.push(held_part(stripes, members, places[j], stripe))?;
    }
    Ok(parts)
}

/// What a member that isn't lost has of its segment of a stripe.
fn held_part(stripes: Stripes, members: &Vec<Option<Held>>, m: u8, stripe: u8) -> &[u8]
    requires count { length members.now.items ≡ stripes.members }
    requires member { m < stripes.members }
    requires within { stripe < stripes.members }
    requires there { is_lost members.now.items m ≡ false }
    ensures { IsPart stripes.len (held_byte stripes.members stripes.parity stripes.len stripe members.now.items m) result.now }
{
    match &members[m as usize] {
        Some(held) => own_part(stripes, held, m, stripe),
        None => unreachable!(),
    }
}

/// The same of what it holds.
fn own_part(stripes: Stripes, held: &Held, m: u8, stripe: u8) -> &[u8]
    requires member { m < stripes.members }
    requires within { stripe < stripes.members }
    ensures { IsPart stripes.len (λ b. cell stripes.members stripes.parity stripes.len m stripe b held.now.stream held.now.share) result.now }
{
    if stripes.has_parity(stripe, m) {
        let place = stripes.parity_place(m, stripe);
        part_at(held.share.list(), place, stripes.len)
    } else {
        let place = stripes.data_place(m, stripe);
        part_at(held.stream.list(), place, stripes.len)
    }
}

/// What stands of the segment at a place of these bytes, which are cut into segments of one length.
fn part_at(bytes: &[u8], place: u8, len: usize) -> &[u8]
    ensures { IsPart len (λ b. slice_index bytes.now (place * len + b)) result.now }
{
    let from = (place as usize).saturating_mul(len).min(bytes.len());
    let taken = len.min(bytes.len() - from);
    &bytes[from..from + taken]
}
