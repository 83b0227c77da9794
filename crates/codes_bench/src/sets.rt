ghost use Rattle.std.specs.Prelude.{◌≡◌, ◌<◌, ◌≤◌, length, vec_len, IfOk};
ghost use Rattle.member_shares.specs.Shares.{IsSet};

use redundancy_set::{Held, RecoverError, member_of, recover, recover_one, share_of};
use scr_base::{Bytes, Memory, Scheme};
use std::alloc::{AllocError, Global};

/// Each member's share, as often as said; with `whole` as `member_of` gives it.
pub fn encode(
    alloc: Global,
    scheme: Scheme,
    n: u8,
    data: &[u8],
    len: usize,
    whole: bool,
    shares: &mut [u8],
    reps: usize,
) -> Result<(), Memory>
    requires { IsSet scheme n }
{
    let streams = streams_of(alloc, n, data, len)?;
    for rep in 0..reps {
        let mut at = 0;
        for i in 0..n {
            let share = if whole {
                member_of(alloc, scheme, &streams, i)?.share
            } else {
                share_of(alloc, scheme, &streams, i)?
            };
            if rep + 1 == reps {
                at = put(shares, at, share.list());
            }
        }
    }
    Ok(())
}

/// The streams without the first ones, as often as said; those of the first ones alone, or with `whole` all.
pub fn recover_all(
    alloc: Global,
    scheme: Scheme,
    n: u8,
    lost: u8,
    data: &[u8],
    len: u32,
    whole: bool,
    back: &mut [u8],
    reps: usize,
) -> Result<(), RecoverError>
    requires { IsSet scheme n }
{
    let members = members_of(alloc, scheme, n, lost, data, len as usize).map_err(
        |_| RecoverError::Memory,
    )?;
    let lengths = vec![in alloc; len; n as usize]?;
    for rep in 0..reps {
        let streams = if whole {
            recover(alloc, scheme, &members, &lengths)?
        } else {
            first_ones(alloc, scheme, &members, &lengths, lost)?
        };
        if rep + 1 == reps {
            let mut at = 0;
            for i in 0..streams.len() {
                at = put(back, at, streams[i].list());
            }
        }
    }
    Ok(())
}

/// The first streams, each by a call of its own.
fn first_ones(
    alloc: Global,
    scheme: Scheme,
    members: &Vec<Option<Held>>,
    lengths: &Vec<u32>,
    count: u8,
) -> Result<Vec<Bytes>, RecoverError>
    requires set { IsSet scheme (vec_len members.now) }
    requires lengths { vec_len lengths.now ≡ vec_len members.now }
{
    let mut streams = Vec::with_capacity(alloc, count as usize)?;
    for i in 0..count.min(members.len() as u8) {
        let stream = recover_one(alloc, scheme, members, lengths, i)?;
        streams.push(stream).map_err(AllocError::from)?;
    }
    Ok(streams)
}

/// What the members hold, but for the first ones.
fn members_of(
    alloc: Global,
    scheme: Scheme,
    n: u8,
    lost: u8,
    data: &[u8],
    len: usize,
) -> Result<Vec<Option<Held>>, Memory>
    requires { IsSet scheme n }
    ensures { IfOk result (λ members. vec_len members ≡ n) }
{
    let streams = streams_of(alloc, n, data, len)?;
    let mut members = Vec::with_capacity(alloc, n as usize)?;
    for i in 0..n {
        members.push(if i < lost {
            None
        } else {
            Some(member_of(alloc, scheme, &streams, i)?)
        })?;
    }
    Ok(members)
}

/// The streams that stand one behind the other.
fn streams_of(alloc: Global, n: u8, data: &[u8], len: usize) -> Result<Vec<Bytes>, Memory>
    ensures { IfOk result (λ streams. vec_len streams ≡ n) }
{
    let mut streams = Vec::with_capacity(alloc, n as usize)?;
    let mut rest = data;
    for i in 0..n {
        let (stream, behind) = rest.split_at(len.min(rest.len()));
        streams.push(Bytes::of(Vec::from_slice(alloc, stream)?))?;
        rest = behind;
    }
    Ok(streams)
}

/// Writes bytes from a place on, as far as there is room, and tells where the next go.
fn put(out: &mut [u8], at: usize, bytes: &[u8]) -> usize {
    let from = at.min(out.len());
    let len = bytes.len().min(out.len() - from);
    out[from..from + len].copy_from_slice(&bytes[..len]);
    from + len
}
