//! Reading what a claim takes.
ghost use Rattle.std.specs.Prelude.{◌≡◌, ◌<◌, ◌≤◌, ◌+◌, ℕ, List, [], All, length, slice_index, slice_index_or, IfOk, IsTrue};
ghost use Rattle.scr_base.specs.Sets.{group_count, nodes_of_group, fits_sets};
ghost use Rattle.scr_base.specs.declared.shape.Shape.{Shape};
ghost use Rattle.node_device.specs.Rack.{states_of};
ghost use Rattle.ckpt_model.specs.Dataset.{Dataset};
ghost use Rattle.member_shares.specs.Shares.{IsSet, parity_count, segment_length};
ghost use Rattle.commit_core.specs.Claiming.{IsClaimFor};
ghost use Rattle.commit_core.specs.Claims.{is_claim};
ghost use Rattle.commit_core.specs.Deposits.{AreSegmentParts};
ghost use Rattle.commit_core.specs.PieceClaims.{input_count};
ghost use Rattle.commit_core.specs.PieceSets.{IsPieceIn, group_streams, AreInputsFor};
ghost use Rattle.commit_core.specs.Pieces.{set_lengths, length_before};
ghost use Rattle.commit_core.specs.Reads.{ReadsOnly, FilesRead};
ghost use Rattle.commit_core.specs.Sets.{stream_lengths};
ghost use Rattle.commit_core.specs.Stretch.{IsStretch};

use crate::claim::Claim;
use crate::listing::{groups_of, lengths_of};
use crate::longest::longest_of;
use crate::piece::Piece;
use crate::set::CommitSet;
use crate::stream::{RankAt, read_stream};
use node_device::{Bay, Device};
use redundancy_set::{Sets, Stripes};
use scr_base::{Bytes, Items, Memory, Scheme};
use site_calls::Trouble;
use std::alloc::Global;

impl CommitSet {
    /// Reads what a claim for a piece takes: parts of the data segments of its stripe by ascending member, or for PARTNER a part of the
    /// stream of the member before.
    pub(crate) fn inputs_of<D: Device>(
        &self,
        alloc: Global,
        bay: &mut Bay<D>,
        piece: Piece,
    ) -> Result<Items<Bytes>, Trouble>
        requires fits { IsTrue (fits_sets self.now.desc.scheme self.now.desc.size self.now.desc.nodes) }
        requires piece { IsPieceIn self.now.desc.scheme self.now.desc.nodes self.now.desc.ranks self.now.desc.size (stream_lengths self.now.files) piece }
        ensures only { ReadsOnly (states_of D.state bay.old) (states_of D.state bay.new) result }
        ensures count { IfOk result (λ inputs. length inputs ≡ input_count self.now.desc.scheme (length (nodes_of_group self.now.desc.nodes self.now.desc.size piece.group))) }
        ensures sizes { IfOk result (λ inputs. All (λ input. length input ≡ piece.len) inputs) }
        ensures inputs { (shape : Shape) (d : Dataset) → FilesRead self.now shape d (states_of D.state bay.old) → IfOk result (AreInputsFor self.now.desc.scheme (group_streams d piece.group piece.local) piece) }
    {
        let Ok(lengths) = self.lengths_in(alloc, piece.group, piece.local) else {
            return Err(Trouble::Memory);
        };
        let members = lengths.len() as u8;
        match self.desc.scheme {
            Scheme::Single => unreachable!(),
            Scheme::Partner => self.stream_before(alloc, bay, piece, members),
            Scheme::Xor | Scheme::Rs { .. } => {
                let longest = longest_of(lengths.as_slice());
                let stripes = Stripes::of(self.desc.scheme, members, longest as usize);
                self.segments(alloc, bay, piece, stripes, stripes.len as u32)
            }
        }
    }

    /// The claim for a piece under a number, with these inputs.
    pub(crate) fn claim_of(&self, number: u64, piece: Piece, inputs: Items<Bytes>) -> Claim
        requires fits { IsTrue (is_claim self.now.desc.scheme piece.stripe piece.target inputs) }
        requires sizes { All (λ input. length input ≡ piece.len) inputs }
        ensures number { result.number ≡ number }
        ensures inputs { result.inputs ≡ inputs }
        ensures claim { IsClaimFor self.now piece result }
    {
        Claim {
            number,
            which: self.desc.which,
            scheme: self.desc.scheme,
            local: piece.local,
            group: piece.group,
            stripe: piece.stripe,
            target: piece.target,
            at: piece.at,
            inputs,
        }
    }

    /// The sets of the dataset.
    pub(crate) fn sets(&self) -> Sets
        requires { IsTrue (fits_sets self.now.desc.scheme self.now.desc.size self.now.desc.nodes) }
        ensures nodes { result.nodes ≡ self.now.desc.nodes }
        ensures scheme { result.scheme ≡ self.now.desc.scheme }
        ensures size { result.size ≡ self.now.desc.size }
    {
        Sets {
            nodes: self.desc.nodes,
            scheme: self.desc.scheme,
            size: self.desc.size,
        }
    }

    /// The lengths of the streams of a set's members.
    pub(crate) fn lengths_in(&self, alloc: Global, group: u8, local: u8) -> Result<Vec<u32>, Memory>
        requires fits { IsTrue (fits_sets self.now.desc.scheme self.now.desc.size self.now.desc.nodes) }
        requires group { group < group_count self.now.desc.nodes self.now.desc.size }
        requires local { local < self.now.desc.ranks }
        ensures { IfOk result (λ own. own.items ≡ set_lengths self.now.desc.nodes self.now.desc.ranks self.now.desc.size group local (stream_lengths self.now.files)) }
    {
        let lengths = self.lengths(alloc)?;
        lengths_of(
            alloc,
            self.sets(),
            self.desc.ranks,
            local,
            group,
            lengths.as_slice(),
        )
    }

    /// The node of a member of a group.
    pub(crate) fn node_of(&self, group: u8, member: u8) -> u8
        requires fits { IsTrue (fits_sets self.now.desc.scheme self.now.desc.size self.now.desc.nodes) }
        requires group { group < group_count self.now.desc.nodes self.now.desc.size }
        requires member { member < length (nodes_of_group self.now.desc.nodes self.now.desc.size group) }
        ensures is { result ≡ slice_index (nodes_of_group self.now.desc.nodes self.now.desc.size group) member }
        ensures small { result < self.now.desc.nodes }
    {
        group + member * groups_of(self.sets())
    }

    /// So many bytes of a member's stream from one place on, with zeros past its end.
    fn read_member<D: Device>(
        &self,
        alloc: Global,
        bay: &mut Bay<D>,
        piece: Piece,
        member: u8,
        from: u64,
    ) -> Result<Bytes, Trouble>
        requires fits { IsTrue (fits_sets self.now.desc.scheme self.now.desc.size self.now.desc.nodes) }
        requires group { piece.group < group_count self.now.desc.nodes self.now.desc.size }
        requires local { piece.local < self.now.desc.ranks }
        requires member { member < length (nodes_of_group self.now.desc.nodes self.now.desc.size piece.group) }
        ensures only { ReadsOnly (states_of D.state bay.old) (states_of D.state bay.new) result }
        ensures size { IfOk result (λ bytes. length bytes ≡ piece.len) }
        ensures bytes { (shape : Shape) (d : Dataset) → FilesRead self.now shape d (states_of D.state bay.old) → IfOk result (IsStretch (slice_index_or (group_streams d piece.group piece.local) member []) from piece.len) }
    {
        let node = self.node_of(piece.group, member);
        let rank = RankAt {
            place: self.place_of(node),
            which: self.desc.which,
            node,
            local: piece.local,
        };
        let number = node * self.desc.ranks + piece.local;
        read_stream(alloc, bay, rank, self.files.rows(number), from, piece.len)
    }

    /// The part of the stream that a PARTNER target keeps, alone.
    fn stream_before<D: Device>(
        &self,
        alloc: Global,
        bay: &mut Bay<D>,
        piece: Piece,
        members: u8,
    ) -> Result<Items<Bytes>, Trouble>
        requires fits { IsTrue (fits_sets self.now.desc.scheme self.now.desc.size self.now.desc.nodes) }
        requires group { piece.group < group_count self.now.desc.nodes self.now.desc.size }
        requires local { piece.local < self.now.desc.ranks }
        requires members { members ≡ length (nodes_of_group self.now.desc.nodes self.now.desc.size piece.group) }
        requires few { members ≤ 16 }
        requires target { piece.target < members }
        requires within { piece.at + piece.len ≤ length_before (set_lengths self.now.desc.nodes self.now.desc.ranks self.now.desc.size piece.group piece.local (stream_lengths self.now.files)) piece.target }
        ensures only { ReadsOnly (states_of D.state bay.old) (states_of D.state bay.new) result }
        ensures count { IfOk result (λ inputs. length inputs ≡ 1) }
        ensures sizes { IfOk result (λ inputs. All (λ input. length input ≡ piece.len) inputs) }
        ensures inputs { (shape : Shape) (d : Dataset) → FilesRead self.now shape d (states_of D.state bay.old) → IfOk result (AreInputsFor Scheme.Partner (group_streams d piece.group piece.local) piece) }
    {
        let before = (piece.target + members - 1) % members;
        let bytes = self.read_member(alloc, bay, piece, before, piece.at as u64)?;
        let mut inputs = Vec::new(alloc);
        let Ok(()) = inputs.push(bytes) else {
            return Err(Trouble::Memory);
        };
        Ok(Items::of(inputs))
    }

    /// The parts of the data segments of a piece's stripe, by ascending member. Segments have `len` bytes.
    fn segments<D: Device>(
        &self,
        alloc: Global,
        bay: &mut Bay<D>,
        piece: Piece,
        stripes: Stripes,
        len: u32,
    ) -> Result<Items<Bytes>, Trouble>
        requires fits { IsTrue (fits_sets self.now.desc.scheme self.now.desc.size self.now.desc.nodes) }
        requires group { piece.group < group_count self.now.desc.nodes self.now.desc.size }
        requires local { piece.local < self.now.desc.ranks }
        requires members { stripes.members ≡ length (nodes_of_group self.now.desc.nodes self.now.desc.size piece.group) }
        requires parity { stripes.parity < stripes.members }
        requires stripe { piece.stripe < stripes.members }
        requires within { piece.at + piece.len ≤ len }
        ensures only { ReadsOnly (states_of D.state bay.old) (states_of D.state bay.new) result }
        ensures count { IfOk result (λ inputs. length inputs + stripes.parity ≡ stripes.members) }
        ensures sizes { IfOk result (λ inputs. All (λ input. length input ≡ piece.len) inputs) }
        ensures inputs { (shape : Shape) (d : Dataset) → FilesRead self.now shape d (states_of D.state bay.old) → IfOk result (AreSegmentParts stripes.members stripes.parity len piece.stripe piece.at (group_streams d piece.group piece.local)) }
    {
        let mut inputs = Vec::new(alloc);
        for member in 0..stripes.members {
            if stripes.has_parity(piece.stripe, member) {
                continue;
            }
            let place = stripes.data_place(member, piece.stripe);
            let from = place as u64 * len as u64 + piece.at as u64;
            let bytes = self.read_member(alloc, bay, piece, member, from)?;
            let Ok(()) = inputs.push(bytes) else {
                return Err(Trouble::Memory);
            };
        }
        Ok(Items::of(inputs))
    }
}
