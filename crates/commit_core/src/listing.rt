ghost use Rattle.std.specs.Prelude.{◌≡◌, ◌++◌, ◌*◌, ◌<◌, ◌≤◌, length, IfOk, OnOk};
ghost use Rattle.scr_base.specs.Sets.{group_count};
ghost use Rattle.member_shares.specs.Shares.{IsSet, parity_count, segment_length};
ghost use Rattle.commit_core.specs.Pieces.{whole_piece, parity_pieces, pieces_of_member, pieces_of_set, set_lengths, pieces_of_local, pieces_of};

use crate::longest::longest_of;
use crate::piece::Piece;
use redundancy_set::{Sets, Stripes};
use scr_base::{Memory, Scheme};
use std::alloc::Global;

/// All pieces of a dataset on these sets, with that many ranks a node. `lengths` has the bytes of each rank's stream,
/// by ascending rank. The pieces ascend by local number, group, target and stripe. A piece covers a whole parity
/// segment, or for PARTNER the whole stream of the neighbour, also one of no bytes; SINGLE has none.
pub fn pieces_of(
    alloc: Global,
    sets: Sets,
    ranks: u8,
    lengths: &[u32],
) -> Result<Vec<Piece>, Memory>
    requires some { 1 ≤ sets.nodes }
    requires lengths { length lengths.now ≡ sets.nodes * ranks }
    ensures { IfOk result (λ pieces. pieces.items ≡ pieces_of sets.scheme sets.nodes ranks sets.size lengths.now) }
{
    let mut pieces = Vec::new(alloc);
    for local in 0..ranks {
        add_local(alloc, &mut pieces, sets, ranks, local, lengths)?;
    }
    Ok(pieces)
}

/// Puts the pieces of all sets of a local number at the end.
fn add_local(
    alloc: Global,
    pieces: &mut Vec<Piece>,
    sets: Sets,
    ranks: u8,
    local: u8,
    lengths: &[u32],
) -> Result<(), Memory>
    requires some { 1 ≤ sets.nodes }
    requires local { local < ranks }
    requires lengths { length lengths.now ≡ sets.nodes * ranks }
    ensures { OnOk result (pieces.new.items ≡ pieces.old.items ++ pieces_of_local sets.scheme sets.nodes ranks sets.size lengths.now local) }
{
    for group in 0..groups_of(sets) {
        let own = lengths_of(alloc, sets, ranks, local, group, lengths)?;
        add_set(pieces, sets.scheme, local, group, own.as_slice())?;
    }
    Ok(())
}

/// How many groups there are.
pub(crate) fn groups_of(sets: Sets) -> u8
    ensures { result ≡ group_count sets.nodes sets.size }
{
    (sets.nodes / sets.size).max(1)
}

/// The lengths of the streams of one set's members.
pub(crate) fn lengths_of(
    alloc: Global,
    sets: Sets,
    ranks: u8,
    local: u8,
    group: u8,
    lengths: &[u32],
) -> Result<Vec<u32>, Memory>
    requires group { group < group_count sets.nodes sets.size }
    requires local { local < ranks }
    requires lengths { length lengths.now ≡ sets.nodes * ranks }
    ensures { IfOk result (λ own. own.items ≡ set_lengths sets.nodes ranks sets.size group local lengths.now) }
{
    let groups = groups_of(sets);
    let mut own = Vec::new(alloc);
    let mut node = group;
    while node < sets.nodes {
        own.push(lengths[node as usize * ranks as usize + local as usize])?;
        node += groups;
    }
    Ok(own)
}

/// Puts the pieces of a set at the end.
fn add_set(
    pieces: &mut Vec<Piece>,
    scheme: Scheme,
    local: u8,
    group: u8,
    lengths: &[u32],
) -> Result<(), Memory>
    requires { IsSet scheme (length lengths.now) }
    ensures { OnOk result (pieces.new.items ≡ pieces.old.items ++ pieces_of_set scheme local group lengths.now) }
{
    let stripes = Stripes::of(scheme, lengths.len() as u8, longest_of(lengths) as usize);
    for target in 0..stripes.members {
        let whole = Piece {
            local,
            group,
            stripe: 0,
            target,
            at: 0,
            len: stripes.len as u32,
        };
        add_member(pieces, scheme, stripes, whole, lengths)?;
    }
    Ok(())
}

/// Puts the pieces of the target of `whole` at the end.
fn add_member(
    pieces: &mut Vec<Piece>,
    scheme: Scheme,
    stripes: Stripes,
    whole: Piece,
    lengths: &[u32],
) -> Result<(), Memory>
    requires members { stripes.members ≡ length lengths.now }
    requires parity { stripes.parity ≡ parity_count scheme }
    requires target { whole.target < stripes.members }
    requires whole { whole ≡ whole_piece whole.local whole.group whole.target (segment_length scheme lengths.now) }
    ensures { OnOk result (pieces.new.items ≡ pieces.old.items ++ pieces_of_member scheme whole.local whole.group lengths.now whole.target) }
{
    match scheme {
        Scheme::Single => Ok(()),
        Scheme::Partner => {
            let before = (whole.target as usize + lengths.len() - 1) % lengths.len();
            pieces.push(Piece {
                len: lengths[before],
                ..whole
            })?;
            Ok(())
        }
        Scheme::Xor | Scheme::Rs { .. } => add_parity(pieces, stripes, whole),
    }
}

/// Puts a piece like `whole` at the end for each stripe in which its target has parity.
fn add_parity(pieces: &mut Vec<Piece>, stripes: Stripes, whole: Piece) -> Result<(), Memory>
    requires { whole.target < stripes.members }
    ensures { OnOk result (pieces.new.items ≡ pieces.old.items ++ parity_pieces stripes.members stripes.parity whole) }
{
    for stripe in 0..stripes.members {
        if stripes.has_parity(stripe, whole.target) {
            pieces.push(Piece { stripe, ..whole })?;
        }
    }
    Ok(())
}
