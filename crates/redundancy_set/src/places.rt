ghost use Rattle.std.specs.Prelude.{◌≡◌, ◌-◌, ◌<◌, not, filter, take, length, IfOk};
ghost use Rattle.scr_base.specs.Sets.{numbers_below};
ghost use Rattle.member_shares.specs.Layout.{holds_parity};
ghost use Rattle.redundancy_set.specs.Known.{is_lost};

use crate::stripes::Stripes;
use partner_copy::Held;
use std::alloc::{AllocError, Global};

/// The members that have data in a stripe, ascending.
pub fn data_places(alloc: Global, stripes: Stripes, stripe: u8) -> Result<Vec<u8>, AllocError>
    requires { stripe < stripes.members }
    ensures { IfOk result (λ places. places.items ≡ filter (λ m. not (holds_parity stripes.members stripes.parity stripe m)) (numbers_below stripes.members)) }
{
    let mut places = Vec::with_capacity(alloc, stripes.members as usize)?;
    for m in 0..stripes.members {
        if !stripes.has_parity(stripe, m) {
            places.push(m)?;
        }
    }
    Ok(places)
}

/// The first members that aren't lost, as many as a stripe has data segments.
pub fn held_places(
    alloc: Global,
    stripes: Stripes,
    members: &Vec<Option<Held>>,
) -> Result<Vec<u8>, AllocError>
    requires { length members.now.items ≡ stripes.members }
    ensures { IfOk result (λ places. places.items ≡ take (stripes.members - stripes.parity) (filter (λ m. not (is_lost members.now.items m)) (numbers_below stripes.members))) }
{
    let mut places = Vec::with_capacity(alloc, members.len())?;
    for m in 0..stripes.members {
        if members[m as usize].is_some() {
            places.push(m)?;
        }
    }
    places.truncate((stripes.members - stripes.parity) as usize);
    Ok(places)
}
