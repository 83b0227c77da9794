ghost use Rattle.std.specs.Prelude.{◌≡◌, ◌≤◌, IfOk};
ghost use Rattle.member_shares.specs.Shares.{parity_count};
ghost use Rattle.commit_core.specs.Deposits.{IsParityPiece};

use crate::claim::Claim;
use redundancy_set::{Stripes, parity_segment};
use scr_base::{Bytes, Memory};
use std::alloc::Global;

/// The target's piece of the claim's stripe, which has that many parity segments. It takes no more memory than the piece
/// and a few bytes for each input.
pub fn parity_piece(alloc: Global, claim: &Claim, parity: u8) -> Result<Bytes, Memory>
    requires some { 1 ≤ parity }
    requires parity { parity ≡ parity_count claim.now.scheme }
    ensures { IfOk result (IsParityPiece claim.now.scheme claim.now.stripe claim.now.target claim.now.inputs) }
{
    let inputs = claim.inputs.list();
    let stripes = Stripes {
        members: inputs.len() as u8 + parity,
        parity,
        len: inputs[0].list().len(),
    };
    Ok(parity_segment(
        alloc,
        claim.scheme,
        stripes,
        claim.stripe,
        claim.target,
        inputs,
    )?)
}
