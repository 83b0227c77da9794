//! The codes' vectors as claims, the pieces of worked sets, and a ledger's calls.

ghost use Rattle.std.specs.Prelude.{◌≡◌, ◌*◌, ◌≤◌, IsTrue, IfOk, [], ◌∷◌, length};
ghost use Rattle.commit_core.specs.Claims.{is_claim};

use commit_core::{
    Claim, Ledger, Piece, Taken, deposits_are_shares, deposits_make_shares, pieces_are_kept,
    pieces_fit_claims, pieces_of, work,
};
use redundancy_set::Sets;
use scr_base::{Bytes, Copies, DataId, Items, Scheme, Shape};
use std::alloc::Global;
use std::test::Fail;

/// Segments of two bytes.
fn segments_of(alloc: Global, rows: &[[u8; 2]]) -> Result<Items<Bytes>, Fail>
    ensures { IfOk result (λ segments. segments ≡ rows.now) }
{
    let mut segments = Vec::new(alloc);
    for row in rows {
        segments.push(Bytes::of(Vec::from_slice(alloc, row)?))?;
    }
    Ok(Items::of(segments))
}

/// The claim of these numbers.
fn claim_on(scheme: Scheme, stripe: u8, target: u8, inputs: Items<Bytes>) -> Claim
    requires { IsTrue (is_claim scheme stripe target inputs) }
{
    Claim {
        number: 7,
        which: DataId { id: 3, run: 2 },
        scheme,
        local: 1,
        group: 4,
        stripe,
        target,
        at: 64,
        inputs,
    }
}

/// The claim of these numbers, on these segments.
fn claim_of(
    alloc: Global,
    scheme: Scheme,
    stripe: u8,
    target: u8,
    rows: &[[u8; 2]],
) -> Result<Claim, Fail>
    requires { IsTrue (is_claim scheme stripe target rows.now) }
{
    let inputs = segments_of(alloc, rows)?;
    Ok(claim_on(scheme, stripe, target, inputs))
}

/// The claim on a segment or a stream of no bytes.
fn claim_of_nothing(alloc: Global, scheme: Scheme) -> Result<Claim, Fail>
    requires { IsTrue (is_claim scheme 0 0 ([] ∷ [])) }
{
    let mut inputs = Vec::new(alloc);
    inputs.push(Bytes::of(Vec::new(alloc)))?;
    Ok(claim_on(scheme, 0, 0, Items::of(inputs)))
}

/// Whether two claims are the same.
fn are_same(left: &Claim, right: &Claim) -> bool {
    let inputs = left.inputs.list();
    let others = right.inputs.list();
    if inputs.len() != others.len() {
        return false;
    }
    for i in 0..inputs.len() {
        if inputs[i].list() != others[i].list() {
            return false;
        }
    }
    left.number == right.number
        && left.which == right.which
        && left.scheme == right.scheme
        && (left.local, left.group) == (right.local, right.group)
        && (left.stripe, left.target, left.at) == (right.stripe, right.target, right.at)
}

/// What a claim gives, which comes with the claim.
fn given(alloc: Global, claim: Claim) -> Result<Bytes, Fail> {
    let copy = claim.copy(alloc)?;
    match work(alloc, claim) {
        Ok(deposit) if are_same(&deposit.claim, &copy) => Ok(deposit.bytes),
        Ok(_) => Err("another claim".into()),
        Err(back) if are_same(&back, &copy) => Err("no memory".into()),
        Err(_) => Err("no memory, and another claim".into()),
    }
}

/// Each column is one of the vectors.
#[test]
#[tactic(auto, unfolding(member_shares::specs::Layout::holds_parity))]
fn vectors(rt: HostRuntime) -> Result<(), Fail> {
    let alloc = rt.alloc();
    let one = Scheme::Rs { shares: 1 };
    let two = Scheme::Rs { shares: 2 };
    let claim = claim_of(alloc, one, 2, 2, &[[0x01, 0x00], [0x03, 0x80]])?;
    assert_eq!(rt; given(alloc, claim)?.list(), [0x05, 0x1d].as_slice());
    let claim = claim_of(alloc, one, 1, 1, &[[0x5a, 0x00]])?;
    assert_eq!(rt; given(alloc, claim)?.list(), [0x5a, 0x00].as_slice());
    let claim = claim_of(alloc, two, 2, 2, &[[0x01, 0x00], [0x03, 0x00]])?;
    assert_eq!(rt; given(alloc, claim)?.list(), [0x05, 0x00].as_slice());
    let claim = claim_of(alloc, two, 2, 3, &[[0x01, 0x00], [0x03, 0x00]])?;
    assert_eq!(rt; given(alloc, claim)?.list(), [0x07, 0x00].as_slice());
    let claim = claim_of(alloc, two, 0, 0, &[[0x05, 0x00], [0x07, 0x00]])?;
    assert_eq!(rt; given(alloc, claim)?.list(), [0x01, 0x00].as_slice());
    let claim = claim_of(alloc, two, 3, 0, &[[0x03, 0x00], [0x05, 0x00]])?;
    assert_eq!(rt; given(alloc, claim)?.list(), [0x01, 0x00].as_slice());
    let claim = claim_of(alloc, Scheme::Xor, 0, 0, &[[0x10, 0x20], [0x11, 0x22]])?;
    assert_eq!(rt; given(alloc, claim)?.list(), [0x01, 0x02].as_slice());
    let claim = claim_of(alloc, Scheme::Partner, 0, 15, &[[0x01, 0x02]])?;
    assert_eq!(rt; given(alloc, claim)?.list(), [0x01, 0x02].as_slice());
    Ok(())
}

/// A stream or a segment of no bytes has a claim too.
#[test]
#[tactic(auto, unfolding(member_shares::specs::Layout::holds_parity))]
fn no_bytes(rt: HostRuntime) -> Result<(), Fail> {
    let alloc = rt.alloc();
    let claim = claim_of_nothing(alloc, Scheme::Partner)?;
    assert_eq!(rt; given(alloc, claim)?.list(), [].as_slice());
    let claim = claim_of_nothing(alloc, Scheme::Xor)?;
    assert_eq!(rt; given(alloc, claim)?.list(), [].as_slice());
    let claim = claim_of_nothing(alloc, Scheme::Rs { shares: 1 })?;
    assert_eq!(rt; given(alloc, claim)?.list(), [].as_slice());
    Ok(())
}

/// The pieces of a dataset on nodes in groups of this size.
fn pieces_on(
    alloc: Global,
    nodes: u8,
    ranks: u8,
    scheme: Scheme,
    size: u8,
    lengths: &[u32],
) -> Result<Vec<Piece>, Fail>
    requires some { 1 ≤ nodes }
    requires sized { 2 ≤ size }
    requires lengths { length lengths.now ≡ nodes * ranks }
{
    let shape = Shape::new(nodes, ranks, 0).ok_or("no shape")?;
    let sets = Sets::new(shape, scheme, size)?;
    Ok(pieces_of(alloc, sets, ranks, lengths)?)
}

/// The piece of a segment or a stream from its first byte on.
fn whole(local: u8, group: u8, stripe: u8, target: u8, len: u32) -> Piece {
    Piece {
        local,
        group,
        stripe,
        target,
        at: 0,
        len,
    }
}

#[test]
fn pieces_of_one_set(rt: HostRuntime) -> Result<(), Fail> {
    let alloc = rt.alloc();
    let pieces = pieces_on(alloc, 3, 1, Scheme::Xor, 3, &[5, 2, 0])?;
    let segments = [
        whole(0, 0, 0, 0, 3),
        whole(0, 0, 1, 1, 3),
        whole(0, 0, 2, 2, 3),
    ];
    assert_eq!(rt; pieces.as_slice(), segments.as_slice());
    let pieces = pieces_on(alloc, 3, 1, Scheme::Partner, 3, &[5, 2, 0])?;
    let streams = [
        whole(0, 0, 0, 0, 0),
        whole(0, 0, 0, 1, 5),
        whole(0, 0, 0, 2, 2),
    ];
    assert_eq!(rt; pieces.as_slice(), streams.as_slice());
    let pieces = pieces_on(alloc, 4, 1, Scheme::Rs { shares: 2 }, 4, &[5, 2, 0, 1])?;
    let segments = [
        whole(0, 0, 0, 0, 3),
        whole(0, 0, 3, 0, 3),
        whole(0, 0, 0, 1, 3),
        whole(0, 0, 1, 1, 3),
        whole(0, 0, 1, 2, 3),
        whole(0, 0, 2, 2, 3),
        whole(0, 0, 2, 3, 3),
        whole(0, 0, 3, 3, 3),
    ];
    assert_eq!(rt; pieces.as_slice(), segments.as_slice());
    let pieces = pieces_on(alloc, 2, 1, Scheme::Xor, 2, &[0, 0])?;
    let segments = [whole(0, 0, 0, 0, 0), whole(0, 0, 1, 1, 0)];
    assert_eq!(rt; pieces.as_slice(), segments.as_slice());
    let pieces = pieces_on(alloc, 2, 1, Scheme::Single, 2, &[5, 2])?;
    assert!(rt; pieces.is_empty());
    Ok(())
}

/// Nodes 0, 2 and 4 are one group, 1 and 3 the other. A rank's stream has as many bytes as its number.
#[test]
fn pieces_of_all_sets(rt: HostRuntime) -> Result<(), Fail> {
    let lengths = [0, 1, 2, 3, 4, 5, 6, 7, 8, 9];
    let pieces = pieces_on(rt.alloc(), 5, 2, Scheme::Partner, 2, &lengths)?;
    let streams = [
        whole(0, 0, 0, 0, 8),
        whole(0, 0, 0, 1, 0),
        whole(0, 0, 0, 2, 4),
        whole(0, 1, 0, 0, 6),
        whole(0, 1, 0, 1, 2),
        whole(1, 0, 0, 0, 9),
        whole(1, 0, 0, 1, 1),
        whole(1, 0, 0, 2, 5),
        whole(1, 1, 0, 0, 7),
        whole(1, 1, 0, 1, 3),
    ];
    assert_eq!(rt; pieces.as_slice(), streams.as_slice());
    Ok(())
}

#[test]
fn a_ledger_hands_out_in_order_and_takes_back(rt: HostRuntime) -> Result<(), Fail> {
    let alloc = rt.alloc();
    let pieces = [
        whole(0, 0, 0, 0, 8),
        whole(0, 0, 0, 1, 0),
        whole(0, 0, 0, 2, 4),
    ];
    let [first, second, third] = pieces;
    let mut ledger = Ledger::new(alloc, Vec::from_slice(alloc, &pieces)?)?;
    assert_eq!(rt; ledger.next(), Some(first));
    for (number, piece) in [(1, first), (2, second), (3, third)] {
        assert_eq!(rt; ledger.take(), Taken::Handed { number, piece });
    }
    assert_eq!(rt; ledger.next(), None);
    assert_eq!(rt; ledger.take(), Taken::NoneLeft);
    assert!(rt; ledger.close(3));
    assert!(rt; !ledger.close(3));
    assert!(rt; ledger.give_back(2));
    assert!(rt; !ledger.give_back(2) && !ledger.close(2) && !ledger.close(0));
    assert!(rt; ledger.give_back(1));
    for (number, piece) in [(4, first), (5, second)] {
        assert_eq!(rt; ledger.take(), Taken::Handed { number, piece });
    }
    assert_eq!(rt; ledger.take(), Taken::NoneLeft);
    assert!(rt; ledger.close(5) && !ledger.is_done());
    assert!(rt; ledger.close(4) && ledger.is_done());
    Ok(())
}

#[test]
fn a_withdrawn_number_closes_nothing(rt: HostRuntime) -> Result<(), Fail> {
    let alloc = rt.alloc();
    let pieces = [whole(0, 0, 0, 0, 3), whole(0, 0, 1, 1, 3)];
    let [first, second] = pieces;
    let mut ledger = Ledger::new(alloc, Vec::from_slice(alloc, &pieces)?)?;
    for (number, piece) in [(1, first), (2, second)] {
        assert_eq!(rt; ledger.take(), Taken::Handed { number, piece });
    }
    assert!(rt; ledger.close(1));
    ledger.withdraw();
    assert!(rt; !ledger.close(1) && !ledger.close(2) && !ledger.give_back(2));
    for (number, piece) in [(3, first), (4, second)] {
        assert_eq!(rt; ledger.take(), Taken::Handed { number, piece });
    }
    ledger.numbers_differ();
    assert!(rt; ledger.close(3) && ledger.close(4) && ledger.is_done());
    Ok(())
}

#[test]
fn a_ledger_of_no_pieces_is_done(rt: HostRuntime) -> Result<(), Fail> {
    let alloc = rt.alloc();
    let mut ledger = Ledger::new(alloc, Vec::new(alloc))?;
    assert_eq!(rt; ledger.take(), Taken::NoneLeft);
    assert!(rt; ledger.is_done());
    Ok(())
}

#[test]
fn the_laws_are_there() {
    deposits_are_shares();
    pieces_are_kept();
    pieces_fit_claims();
    deposits_make_shares();
}
