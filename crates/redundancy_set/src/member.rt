ghost use Rattle.std.specs.Prelude.{◌≡◌, ◌<◌, true, length, vec_len, IfOk};
ghost use Rattle.member_shares.specs.Layout.{holds_parity};
ghost use Rattle.member_shares.specs.Shares.{IsSet, IsShare, IsParityShare, IsMember, parity_count};
ghost use Rattle.redundancy_set.specs.Known.{stream_byte};
ghost use Rattle.redundancy_set.specs.Sums.{AppendsCode, has_data};

use crate::factors::factors_of;
use crate::longest::longest_stream;
use crate::parts::stream_parts;
use crate::places::data_places;
use crate::stripes::Stripes;
use crate::sums::append_sum;
use partner_copy::{Held, copy_of};
use scr_base::{Bytes, Copies, Memory, Scheme};
use std::alloc::{AllocError, Global};

/// What member `i` of a set with these streams holds: its stream, and what it keeps for the others. That is nothing
/// for SINGLE, the stream of the member before it for PARTNER, and else its parity segments. The streams are those of
/// all members of a set that may have the scheme.
pub fn member_of(alloc: Global, scheme: Scheme, streams: &Vec<Bytes>, i: u8) -> Result<Held, Memory>
    requires set { IsSet scheme (vec_len streams.now) }
    requires within { i < vec_len streams.now }
    ensures { IfOk result (IsMember scheme streams.now.items i) }
{
    let share = share_of(alloc, scheme, streams, i)?;
    Ok(Held {
        stream: streams[i as usize].copy(alloc)?,
        share,
    })
}

/// What member `i` keeps for the others: the share that `member_of` gives, without a copy of the member's stream.
pub fn share_of(alloc: Global, scheme: Scheme, streams: &Vec<Bytes>, i: u8) -> Result<Bytes, Memory>
    requires set { IsSet scheme (vec_len streams.now) }
    requires within { i < vec_len streams.now }
    ensures { IfOk result (IsShare scheme streams.now.items i) }
{
    match scheme {
        Scheme::Single => Ok(Bytes::of(Vec::new(alloc))),
        Scheme::Partner => copy_of(alloc, streams, i),
        Scheme::Xor | Scheme::Rs { .. } => Ok(parity_share(alloc, scheme, streams, i)?),
    }
}

/// The parity segments of member `i`, in the order of their stripes.
fn parity_share(
    alloc: Global,
    scheme: Scheme,
    streams: &Vec<Bytes>,
    i: u8,
) -> Result<Bytes, AllocError>
    requires set { IsSet scheme (vec_len streams.now) }
    requires within { i < vec_len streams.now }
    ensures { IfOk result (IsParityShare scheme streams.now.items i) }
{
    let stripes = Stripes::of(scheme, streams.len() as u8, longest_stream(streams));
    let room = (stripes.parity as usize).saturating_mul(stripes.len);
    let mut share = Vec::with_capacity(alloc, room)?;
    for stripe in 0..stripes.members {
        if stripes.has_parity(stripe, i) {
            append_parity(alloc, scheme, stripes, streams, stripe, i, &mut share)?;
        }
    }
    Ok(Bytes::of(share))
}

/// Appends the target's segment of a stripe in which it has parity.
fn append_parity(
    alloc: Global,
    scheme: Scheme,
    stripes: Stripes,
    streams: &Vec<Bytes>,
    stripe: u8,
    target: u8,
    share: &mut Vec<u8>,
) -> Result<(), AllocError>
    requires set { IsSet scheme stripes.members }
    requires parity { stripes.parity ≡ parity_count scheme }
    requires count { length streams.now.items ≡ stripes.members }
    requires stripe { stripe < stripes.members }
    requires within { target < stripes.members }
    requires held { holds_parity stripes.members stripes.parity stripe target ≡ true }
    ensures { IfOk result (λ _. AppendsCode scheme stripes.members target stripes.len (has_data stripes.members stripes.parity stripe)
        (stream_byte stripes.members stripes.parity stripes.len stripe streams.now.items) share.old.items share.new.items) }
{
    let data = data_places(alloc, stripes, stripe)?;
    let places = data.as_slice();
    let factors = factors_of(alloc, scheme, stripes.members, places, target)?;
    let parts = stream_parts(alloc, stripes, streams, places, stripe)?;
    append_sum(share, stripes.len, parts.as_slice(), factors.list())
}
