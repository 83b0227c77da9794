ghost use Rattle.std.specs.Prelude.{◌≡◌, ◌⊎◌, ◌<◌, ◌≤◌, ◌/◌, ◌%◌, ℕ, Bool, true, false, List, Some, length, slice_get};
ghost use Rattle.scr_base.specs.Sets.{group_count};
ghost use Rattle.scr_base.specs.declared.shape.Scheme.TheVariants.{Partner};
ghost use Rattle.scr_base.specs.declared.shape.Shape.{Shape};
ghost use Rattle.node_device.specs.File.{File, bytes_of, written};
ghost use Rattle.node_device.specs.DeviceState.{DeviceState};
ghost use Rattle.member_store.specs.Names.{part_name};
ghost use Rattle.member_store.specs.declared.part.Part.TheVariants.{Share as SharePart};
ghost use Rattle.ckpt_model.specs.Dataset.{Dataset};
ghost use Rattle.ckpt_model.specs.Machine.{Machine, Setup};
ghost use Rattle.ckpt_model.specs.Questions.{is_kept};
ghost use Rattle.member_shares.specs.Shares.{IsSet, parity_count};
ghost use Rattle.site_stands.specs.Described.{is_single, set_streams, IsShareAt};
ghost use Rattle.site_stands.specs.MemberMoves.{WritesPartAt};
ghost use Rattle.commit_core.specs.Committing.{begun};
ghost use Rattle.commit_core.specs.Deposits.{IsPartAt};
ghost use Rattle.commit_core.specs.Fill.{IsUnused, PartsRead, Fill, FillHolds, FitsNames};
ghost use Rattle.commit_core.specs.Holds.{IsCommitOf, CommitHolds};
ghost use Rattle.commit_core.specs.SharePieces.{keeps_piece, piece_place, SharePieces, PiecesHold, set_done, lengths_of};
ghost use Rattle.commit_core.specs.PieceClaims.{AsksFor};
ghost use Rattle.commit_core.specs.Pieces.{pieces_of};
ghost use Rattle.commit_core.specs.declared.deposit.Deposit.{Deposit};
ghost use Rattle.commit_core.specs.declared.piece.Piece.{Piece};
ghost use Rattle.commit_core.specs.declared.set.CommitSet.{CommitSet};

/// Where a dataset without shares isn't kept, no gate under its names may be left open, and its files read as they are to be, its
/// commit holds as it begins. For the crates above. It does nothing.
pub fn a_commit_without_shares_begins()
    ensures { (s : Setup) (states : ℕ → DeviceState) (m : Machine) (d : Dataset) (set : CommitSet) → IsCommitOf s m d set → is_single set.desc.scheme ≡ true → is_kept m d.which ≡ false → IsUnused s.shape states d.which
        → ((node p : ℕ) → slice_get m.places node ≡ Some p → PartsRead s.shape (states p) d node) → CommitHolds s states m d (begun set) }
{}

/// Bytes that are the share's, written at the place of a piece in the share of the member that keeps it, make the piece done, in
/// any order of pieces; once all are done, each share reads as it is to be. For the crates above. It does nothing.
pub fn pieces_that_are_written_make_the_shares()
    ensures one { (shape : Shape) (d : Dataset) → FitsNames shape d → (old new : ℕ → DeviceState) (places : List ℕ) → length places ≡ shape.nodes → (pieces : List Piece) (done : ℕ → Bool) (node place local : ℕ) → slice_get places node ≡ Some place → local < shape.ranks
        → WritesPartAt d.which node (SharePart local) place old new → (i : ℕ) (piece : Piece) (bytes : List ℕ) → slice_get pieces i ≡ Some piece → keeps_piece d node local piece ≡ true → length bytes ≡ piece.len
        → ((share : List ℕ) → IsShareAt d node local share → IsPartAt (piece_place d node local piece) share bytes)
        → ((new place).file (part_name d.which node (SharePart local))).now ≡ Some (written (bytes_of ((old place).file (part_name d.which node (SharePart local))).now) (piece_place d node local piece) bytes)
        → PiecesHold shape old places d pieces done → PiecesHold shape new places d pieces (set_done done i) }
    ensures all { (shape : Shape) (states : ℕ → DeviceState) (places : List ℕ) (d : Dataset) (pieces : List Piece) (done : ℕ → Bool) → ((i : ℕ) (piece : Piece) → slice_get pieces i ≡ Some piece → done i ≡ true) → PiecesHold shape states places d pieces done
        → FillHolds shape states places d (λ node. Fill.Parts) }
{}

/// A share none of whose pieces is written, where what stands under its name is no longer than it is to be: its pieces tile it, and
/// there is one at least. For the crates above. It does nothing.
pub fn a_share_begins()
    ensures { (d : Dataset) (node local : ℕ) (f : File) (share : List ℕ) → local < d.shape.ranks → node % group_count d.shape.nodes d.size < group_count d.shape.nodes d.size → is_single d.scheme ≡ false → (d.scheme ≡ Partner) ⊎ (1 ≤ parity_count d.scheme) → IsSet d.scheme (length (set_streams d node local))
        → node / group_count d.shape.nodes d.size < length (set_streams d node local) → IsShareAt d node local share → length (bytes_of f.now) ≤ length share
        → SharePieces f d node local (pieces_of d.scheme d.shape.nodes d.shape.ranks d.size (lengths_of d)) (λ i. false) }
{}

/// The deposit of a claim that asks for a piece is the part of its keeper's share at the piece's place. For the crates above. It
/// does nothing.
pub fn a_deposit_is_a_part_of_its_keepers_share()
    ensures { (d : Dataset) (node local : ℕ) (piece : Piece) (deposit : Deposit) → AsksFor d.scheme (set_streams d node local) piece deposit.claim → piece.target ≡ node / group_count d.shape.nodes d.size
        → (share : List ℕ) → IsShareAt d node local share → IsPartAt (piece_place d node local piece) share deposit.bytes }
{}
