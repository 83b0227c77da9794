//! PARTNER: each member keeps the whole stream of the member before it.
#![tactic(auto)]

ghost use Rattle.std.specs.Prelude.{◌≡◌, ℕ, List, ◌<◌, ◌≤◌, ◌↔◌, ◌+◌, ◌%◌, None, slice_index_or, vec_len, length, IfOk, IfSome, IfNone};
ghost use Rattle.partner_copy.specs.Partner.{share_of, IsLost, AreBothLost, IsFirstBoth, IsRebuilt, AreMembersOf, IsStreamOf};

use scr_base::{Bytes, Copies, Memory};
use std::alloc::{AllocError, Global};
use thiserror::Error;

/// What a member of a set holds: its own stream, and what it keeps for others.
#[derive(Debug, Drop)]
pub struct Held {
    pub stream: Bytes,
    pub share: Bytes,
}

/// Why no streams are given back.
#[derive(Clone, Copy, Debug, PartialEq, Eq, Error)]
pub enum PartnerError {
    /// This member and the next are lost; no member before it is lost with its next.
    #[error("member {member} and the next are lost")]
    Both { member: u8 },
    /// There is no memory.
    #[error("out of memory")]
    Memory,
}

impl From<AllocError> for PartnerError {
    ghost use Rattle.partner_copy.specs.declared.PartnerError.TheVariants.{Memory};

    ghost from_gives = { λ _ e. e ≡ Memory };

    fn from(_error: AllocError) -> Self {
        PartnerError::Memory
    }
}

/// The share of member `i` of the members with these streams: a copy of the stream of the member before it.
pub fn copy_of(alloc: Global, streams: &Vec<Bytes>, i: u8) -> Result<Bytes, Memory>
    requires { i < vec_len streams.now }
    ensures { IfOk result (λ share. share ≡ share_of streams.now.items i) }
{
    let before = (i as usize + streams.len() - 1) % streams.len();
    streams[before].copy(alloc)
}

/// The streams of all members, from what those that are not lost hold. Both where a member and the next are lost.
pub fn rebuild(alloc: Global, members: &Vec<Option<Held>>) -> Result<Vec<Bytes>, PartnerError>
    requires { vec_len members.now ≤ 256 }
    ensures ok { IfOk result (λ answer. IsRebuilt members.now.items answer.items) }
    ensures originals { IfOk result (λ answer. (streams : List (List ℕ)) → AreMembersOf streams members.now.items → answer.items ≡ streams) }
    ensures both { (member : ℕ) → (result ≡ Err (PartnerError.Both member)) ↔ IsFirstBoth members.now.items member }
{
    if let Some(member) = first_both(members) {
        return Err(PartnerError::Both { member });
    }
    let mut streams = Vec::with_capacity(alloc, members.len())?;
    for i in 0..members.len() {
        let stream = copied(alloc, members, i).map_err(|_| AllocError)?;
        streams.push(stream).map_err(AllocError::from)?;
    }
    Ok(streams)
}

/// The first member that is lost together with the next.
fn first_both(members: &Vec<Option<Held>>) -> Option<u8>
    requires { vec_len members.now ≤ 256 }
    ensures found { IfSome result (IsFirstBoth members.now.items) }
    ensures none { IfNone result ((i : ℕ) → i < vec_len members.now → ¬ AreBothLost members.now.items i) }
{
    for i in 0..members.len() {
        if members[i].is_none() && members[(i + 1) % members.len()].is_none() {
            return Some(i as u8);
        }
    }
    None
}

/// The stream of member `i`, as that member or else the next holds it. The two aren't both lost.
pub fn stream_of(members: &Vec<Option<Held>>, i: usize) -> &Bytes
    requires within { i < vec_len members.now }
    requires borne { ¬ AreBothLost members.now.items i }
    ensures { IsStreamOf members.now.items i result.now }
{
    match &members[i] {
        Some(held) => &held.stream,
        None => match &members[(i + 1) % members.len()] {
            Some(next) => &next.share,
            None => unreachable!(),
        },
    }
}

/// A copy of the stream of member `i`.
fn copied(alloc: Global, members: &Vec<Option<Held>>, i: usize) -> Result<Bytes, Memory>
    requires within { i < vec_len members.now }
    requires borne { ¬ AreBothLost members.now.items i }
    ensures { IfOk result (IsStreamOf members.now.items i) }
{
    stream_of(members, i).copy(alloc)
}
