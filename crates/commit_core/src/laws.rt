ghost use Rattle.std.specs.Prelude.{◌≡◌, ◌<◌, ◌≤◌, ℕ, List, All, Contains, filter, flat_map, length, map, IsTrue};
ghost use Rattle.std.specs.List.{AllZip};
ghost use Rattle.scr_base.specs.declared.shape.Scheme.{Scheme};
ghost use Rattle.scr_base.specs.Sets.{group_count, nodes_of_group, fits_sets};
ghost use Rattle.partner_copy.specs.declared.Held.{Held};
ghost use Rattle.member_shares.specs.Shares.{IsMember, IsSet, AreBytes};
ghost use Rattle.commit_core.specs.Claims.{is_claim};
ghost use Rattle.commit_core.specs.Deposits.{IsPiece, AreInputsOf, IsPartAt, place_of};
ghost use Rattle.commit_core.specs.PieceClaims.{input_count, AsksFor};
ghost use Rattle.commit_core.specs.Pieces.{set_lengths, pieces_of_member, pieces_of_set, pieces_of, is_kept_by, place_of_piece, FollowOn};
ghost use Rattle.commit_core.specs.declared.claim.Claim.{Claim};
ghost use Rattle.commit_core.specs.declared.deposit.Deposit.{Deposit};
ghost use Rattle.commit_core.specs.declared.piece.Piece.{Piece};

/// Where a claim's inputs are parts of what the members with these streams have in its stripe, a deposit for it is a
/// part of what the target keeps for them, at a place that the claim tells. No two pieces answer one claim. For the
/// crates above. It does nothing.
pub fn deposits_are_shares()
    ensures parts { (deposit : Deposit) (streams : List (List ℕ)) (held : Held) → AreInputsOf deposit.claim streams → IsMember deposit.claim.scheme streams deposit.claim.target held
        → IsPartAt (place_of deposit.claim streams) held.share deposit.bytes }
    ensures one { (claim : Claim) (xs ys : List ℕ) → AreBytes claim.inputs → IsPiece claim xs → IsPiece claim ys → xs ≡ ys }
{}

/// The pieces of a dataset that one member keeps, in their order, are those of its set with it as target. They tile
/// what it keeps: each stands where the one before ends, from the first byte to the last. A piece stands where a claim
/// of its target, stripe and place tells. For the crates above. It does nothing.
pub fn pieces_are_kept()
    ensures own { (scheme : Scheme) (nodes ranks size local group i : ℕ) (lengths : List ℕ) → local < ranks → group < group_count nodes size → i < length (set_lengths nodes ranks size group local lengths)
        → filter (is_kept_by local group i) (pieces_of scheme nodes ranks size lengths) ≡ pieces_of_member scheme local group (set_lengths nodes ranks size group local lengths) i }
    ensures tile { (scheme : Scheme) (local group i : ℕ) (streams : List (List ℕ)) (held : Held) → IsSet scheme (length streams) → i < length streams → IsMember scheme streams i held
        → FollowOn (place_of_piece scheme streams) 0 (length held.share) (pieces_of_member scheme local group (map (length {A = ℕ}) streams) i) }
    ensures place { (claim : Claim) (piece : Piece) (streams : List (List ℕ)) → claim.stripe ≡ piece.stripe → claim.target ≡ piece.target → claim.at ≡ piece.at
        → place_of claim streams ≡ place_of_piece claim.scheme streams piece }
{}

/// A piece can be claimed: with as many inputs as a stripe of its set has data segments, or for PARTNER one, each as
/// long as the piece, its stripe and its target make a claim. So for the pieces of one set, whose size may have the
/// scheme, and for those of a dataset on sets that all may have it. For the crates above. It does nothing.
pub fn pieces_fit_claims()
    ensures of_set { (scheme : Scheme) (local group : ℕ) (lengths : List ℕ) (piece : Piece) (inputs : List (List ℕ)) → IsSet scheme (length lengths) → Contains (pieces_of_set scheme local group lengths) piece
        → length inputs ≡ input_count scheme (length lengths) → All (λ input. length input ≡ piece.len) inputs → IsTrue (is_claim scheme piece.stripe piece.target inputs) }
    ensures of_dataset { (scheme : Scheme) (nodes ranks size : ℕ) (lengths : List ℕ) (piece : Piece) (inputs : List (List ℕ)) → 1 ≤ nodes → nodes ≤ 16 → IsTrue (fits_sets scheme size nodes) → Contains (pieces_of scheme nodes ranks size lengths) piece
        → length inputs ≡ input_count scheme (length (nodes_of_group nodes size piece.group)) → All (λ input. length input ≡ piece.len) inputs → IsTrue (is_claim scheme piece.stripe piece.target inputs) }
{}

/// The deposit of a claim that asks for a piece is as long as the piece, and is the part of what its target keeps that
/// stands at the piece's place. So the deposits for all pieces of a member, one behind the other, are all that it
/// keeps. For the crates above. It does nothing.
pub fn deposits_make_shares()
    ensures size { (scheme : Scheme) (streams : List (List ℕ)) (piece : Piece) (deposit : Deposit) → AsksFor scheme streams piece deposit.claim → length deposit.bytes ≡ piece.len }
    ensures part { (scheme : Scheme) (streams : List (List ℕ)) (piece : Piece) (deposit : Deposit) (held : Held) → AsksFor scheme streams piece deposit.claim → IsMember scheme streams piece.target held
        → IsPartAt (place_of_piece scheme streams piece) held.share deposit.bytes }
    ensures whole { (scheme : Scheme) (local group i : ℕ) (streams : List (List ℕ)) (held : Held) (deposits : List Deposit) → IsSet scheme (length streams) → i < length streams → IsMember scheme streams i held
        → AllZip (λ piece deposit. AsksFor scheme streams piece deposit.claim) (pieces_of_member scheme local group (map (length {A = ℕ}) streams) i) deposits
        → flat_map (λ deposit. deposit.bytes) deposits ≡ held.share }
{}
