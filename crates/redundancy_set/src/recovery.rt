ghost use Rattle.std.specs.Prelude.{◌≡◌, ℕ, ◌+◌, ◌-◌, ◌*◌, ◌%◌, ◌&&◌, ◌<◌, ◌≤◌, true, [], List, length, map, vec_len, slice_index, slice_index_or, IfOk, IfErr, OnOk};
ghost use Rattle.scr_base.specs.declared.shape.Scheme.TheVariants.{Partner};
ghost use Rattle.scr_base.specs.Sets.{is_among, bears_members};
ghost use Rattle.member_shares.specs.Shares.{parity_count, IsSet, AreMembers};
ghost use Rattle.redundancy_set.specs.Known.{is_lost};
ghost use Rattle.redundancy_set.specs.Recovered.{lost_places, IsRefused, AreEnough, IsGivenBack};

use crate::cutting::cut;
use crate::factors::factors_of;
use crate::longest::longest_of;
use crate::parts::held_parts;
use crate::places::held_places;
use crate::stripes::Stripes;
use crate::sums::append_sum;
use partner_copy::{Held, stream_of};
use scr_base::{Bytes, Scheme};
use std::alloc::{AllocError, Global};
use thiserror::Error;

/// Why no streams are given back.
#[derive(Debug, Drop, Error)]
pub enum RecoverError {
    /// The scheme doesn't bear the loss of these members, which are all that are lost.
    #[error("the scheme doesn't bear the loss of these members")]
    NotBorne { lost: Bytes },
    /// There is no memory.
    #[error("out of memory")]
    Memory,
}

impl From<AllocError> for RecoverError {
    ghost use Rattle.redundancy_set.specs.declared.recovery.RecoverError.TheVariants.{Memory};

    ghost from_gives = { λ _ e. e ≡ Memory };

    fn from(_error: AllocError) -> Self {
        RecoverError::Memory
    }
}

/// The streams of all members of a set, from what those that aren't lost hold. Each has the length that `lengths` has
/// at its place. Where the members hold what `member_of` gives of streams with these lengths, they are these streams.
/// NotBorne where the scheme doesn't bear the loss of the members that are None; it carries them all.
pub fn recover(
    alloc: Global,
    scheme: Scheme,
    members: &Vec<Option<Held>>,
    lengths: &Vec<u32>,
) -> Result<Vec<Bytes>, RecoverError>
    requires set { IsSet scheme (vec_len members.now) }
    requires lengths { vec_len lengths.now ≡ vec_len members.now }
    ensures lengths { IfOk result (λ streams. map length streams.items ≡ lengths.now.items) }
    ensures originals { IfOk result (λ answer. (streams : List (List ℕ)) → AreMembers scheme streams members.now.items → map length streams ≡ lengths.now.items → answer.items ≡ streams) }
    ensures borne { OnOk result (bears_members scheme (vec_len members.now) (lost_places members.now.items) ≡ true) }
    ensures refused { IfErr result (IsRefused scheme members.now.items) }
{
    let lost = lost_of(alloc, members)?;
    if !bears(scheme, members.len() as u8, &lost) {
        return Err(RecoverError::NotBorne {
            lost: Bytes::of(lost),
        });
    }
    Ok(streams_of(alloc, scheme, members, lengths)?)
}

/// The stream of member `i` alone, as `recover` gives it. No other stream is copied for it.
pub fn recover_one(
    alloc: Global,
    scheme: Scheme,
    members: &Vec<Option<Held>>,
    lengths: &Vec<u32>,
    i: u8,
) -> Result<Bytes, RecoverError>
    requires set { IsSet scheme (vec_len members.now) }
    requires lengths { vec_len lengths.now ≡ vec_len members.now }
    requires within { i < vec_len members.now }
    ensures length { IfOk result (λ stream. length stream ≡ slice_index lengths.now.items i) }
    ensures original { IfOk result (λ answer. (streams : List (List ℕ)) → AreMembers scheme streams members.now.items → map length streams ≡ lengths.now.items → answer ≡ slice_index_or streams i []) }
    ensures borne { OnOk result (bears_members scheme (vec_len members.now) (lost_places members.now.items) ≡ true) }
    ensures refused { IfErr result (IsRefused scheme members.now.items) }
{
    let lost = lost_of(alloc, members)?;
    if !bears(scheme, members.len() as u8, &lost) {
        return Err(RecoverError::NotBorne {
            lost: Bytes::of(lost),
        });
    }
    Ok(own_stream(alloc, scheme, members, lengths, i)?)
}

/// Member `i`'s stream, where the loss is borne.
fn own_stream(
    alloc: Global,
    scheme: Scheme,
    members: &Vec<Option<Held>>,
    lengths: &Vec<u32>,
    i: u8,
) -> Result<Bytes, AllocError>
    requires enough { AreEnough scheme (length members.now.items) (parity_count scheme) members.now.items }
    requires lengths { length lengths.now.items ≡ length members.now.items }
    requires within { i < length members.now.items }
    ensures length { IfOk result (λ stream. length stream ≡ slice_index lengths.now.items i) }
    ensures original { IfOk result (λ answer. (streams : List (List ℕ)) → AreMembers scheme streams members.now.items → map length streams ≡ lengths.now.items → answer ≡ slice_index_or streams i []) }
{
    let stripes = Stripes::of(scheme, members.len() as u8, longest_of(lengths));
    let len = lengths[i as usize] as usize;
    stream_for(alloc, scheme, stripes, members, i, len)
}

/// The streams of all members, where the loss is borne.
fn streams_of(
    alloc: Global,
    scheme: Scheme,
    members: &Vec<Option<Held>>,
    lengths: &Vec<u32>,
) -> Result<Vec<Bytes>, AllocError>
    requires enough { AreEnough scheme (length members.now.items) (parity_count scheme) members.now.items }
    requires lengths { length lengths.now.items ≡ length members.now.items }
    ensures lengths { IfOk result (λ streams. map length streams.items ≡ lengths.now.items) }
    ensures originals { IfOk result (λ answer. (streams : List (List ℕ)) → AreMembers scheme streams members.now.items → map length streams ≡ lengths.now.items → answer.items ≡ streams) }
{
    let stripes = Stripes::of(scheme, members.len() as u8, longest_of(lengths));
    let mut streams = Vec::with_capacity(alloc, members.len())?;
    for i in 0..stripes.members {
        let len = lengths[i as usize] as usize;
        let stream = stream_for(alloc, scheme, stripes, members, i, len)?;
        streams.push(stream)?;
    }
    Ok(streams)
}

/// The members that are lost, ascending.
fn lost_of(alloc: Global, members: &Vec<Option<Held>>) -> Result<Vec<u8>, AllocError>
    requires { length members.now.items ≤ 16 }
    ensures { IfOk result (λ lost. lost.items ≡ lost_places members.now.items) }
{
    let mut lost = Vec::with_capacity(alloc, members.len())?;
    for i in 0..members.len() {
        if members[i].is_none() {
            lost.push(i as u8)?;
        }
    }
    Ok(lost)
}

/// Whether a set bears the loss of these members.
fn bears(scheme: Scheme, members: u8, lost: &Vec<u8>) -> bool
    requires { members ≤ 16 }
    ensures { result ≡ bears_members scheme members lost.now.items }
{
    match scheme {
        Scheme::Single => lost.is_empty(),
        Scheme::Partner => spares_neighbours(members, lost),
        Scheme::Xor => lost.len() <= 1,
        Scheme::Rs { shares } => lost.len() <= shares as usize,
    }
}

/// Whether no member and the next are lost.
fn spares_neighbours(members: u8, lost: &Vec<u8>) -> bool
    requires { members ≤ 16 }
    ensures { result ≡ bears_members Partner members lost.now.items }
{
    for i in 0..members {
        if pair_lost(members, lost, i) {
            return false;
        }
    }
    true
}

/// Whether a member and the next are lost.
fn pair_lost(members: u8, lost: &Vec<u8>, i: u8) -> bool
    requires few { members ≤ 16 }
    requires within { i < members }
    ensures { result ≡ (is_among i lost.now.items && is_among ((i + 1) % members) lost.now.items) }
{
    lost.contains(&i) && lost.contains(&((i + 1) % members))
}

/// A member's stream, of `len` bytes.
fn stream_for(
    alloc: Global,
    scheme: Scheme,
    stripes: Stripes,
    members: &Vec<Option<Held>>,
    i: u8,
    len: usize,
) -> Result<Bytes, AllocError>
    requires enough { AreEnough scheme stripes.members stripes.parity members.now.items }
    requires within { i < stripes.members }
    requires covers { len ≤ (stripes.members - stripes.parity) * stripes.len }
    ensures { IfOk result (IsGivenBack scheme members.now.items stripes.len i len) }
{
    match scheme {
        Scheme::Partner => cut(alloc, stream_of(members, i as usize).list(), 0, len),
        _ => match &members[i as usize] {
            Some(held) => cut(alloc, held.stream.list(), 0, len),
            None => rebuilt(alloc, scheme, stripes, members, i, len),
        },
    }
}

/// The stream of a lost member, of `len` bytes, from its segments in the stripes.
fn rebuilt(
    alloc: Global,
    scheme: Scheme,
    stripes: Stripes,
    members: &Vec<Option<Held>>,
    i: u8,
    len: usize,
) -> Result<Bytes, AllocError>
    requires enough { AreEnough scheme stripes.members stripes.parity members.now.items }
    requires within { i < stripes.members }
    requires lost { is_lost members.now.items i ≡ true }
    requires few { length (lost_places members.now.items) ≤ stripes.parity }
    requires covers { len ≤ (stripes.members - stripes.parity) * stripes.len }
    ensures { IfOk result (IsGivenBack scheme members.now.items stripes.len i len) }
{
    let held = held_places(alloc, stripes, members)?;
    let places = held.as_slice();
    let factors = factors_of(alloc, scheme, stripes.members, places, i)?;
    let weights = factors.list();
    let mut stream = Vec::with_capacity(alloc, len)?;
    for stripe in 0..stripes.members {
        if stream.len() < len && !stripes.has_parity(stripe, i) {
            let parts = held_parts(alloc, stripes, members, places, stripe)?;
            let taken = stripes.len.min(len - stream.len());
            append_sum(&mut stream, taken, parts.as_slice(), weights)?;
        }
    }
    Ok(Bytes::of(stream))
}
