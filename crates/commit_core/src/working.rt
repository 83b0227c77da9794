ghost use Rattle.std.specs.Prelude.{◌≡◌, IfOk, IfErr};
ghost use Rattle.commit_core.specs.Deposits.{IsPiece};

use crate::claim::Claim;
use crate::deposit::Deposit;
use crate::stripe::parity_piece;
use scr_base::{Bytes, Copies, Memory, Scheme};
use std::alloc::Global;

/// Computes the piece that a claim asks for. The claim comes back as it was where there is no memory.
pub fn work(alloc: Global, claim: Claim) -> Result<Deposit, Claim>
    ensures done { IfOk result (λ deposit. deposit.claim ≡ claim) }
    ensures back { IfErr result (λ back. back ≡ claim) }
{
    match piece_of(alloc, &claim) {
        Ok(bytes) => Ok(Deposit { claim, bytes }),
        Err(Memory) => Err(claim),
    }
}

/// What the claim asks for.
fn piece_of(alloc: Global, claim: &Claim) -> Result<Bytes, Memory>
    ensures { IfOk result (IsPiece claim.now) }
{
    match claim.scheme {
        Scheme::Single => unreachable!(),
        Scheme::Partner => claim.inputs.list()[0].copy(alloc),
        Scheme::Xor => parity_piece(alloc, claim, 1),
        Scheme::Rs { shares } => parity_piece(alloc, claim, shares),
    }
}
