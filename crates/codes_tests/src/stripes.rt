//! Reed-Solomon stripes.

ghost use Rattle.std.specs.Prelude.{◌≡◌, ◌<◌, length, vec_len, IfOk};
ghost use Rattle.reed_solomon.specs.Stripe.{AreOfOneLength};

use reed_solomon::{RsError, encode_stripe, factors, rebuild_segment, rebuild_stripe};
use scr_base::Bytes;
use std::alloc::Global;
use std::test::Fail;

/// Segments of three bytes each, all of them the column's byte at the place, without those at the lost places.
fn known_of(alloc: Global, column: &[u8], lost: &[u8]) -> Result<Vec<Option<Bytes>>, Fail>
    requires { length column.now < 256 }
    ensures count { IfOk result (λ known. vec_len known ≡ length column.now) }
    ensures one_length { IfOk result (λ known. AreOfOneLength known.items) }
{
    let mut known = Vec::new(alloc);
    for place in 0..column.len() {
        known.push(if lost.contains(&(place as u8)) {
            None
        } else {
            Some(Bytes::of(vec![in alloc; column[place]; 3]?))
        })?;
    }
    Ok(known)
}

#[test]
fn any_two_of_four(rt: HostRuntime) -> Result<(), Fail> {
    let alloc = rt.alloc();
    let column = [0x01, 0x03, 0x05, 0x07];
    for i in 0..4u8 {
        for j in i + 1..4u8 {
            let known = known_of(alloc, &column, &[i, j])?;
            let stripe = rebuild_stripe(alloc, 4, 2, &known)?;
            assert_eq!(rt; stripe.len(), 4);
            let segment = rebuild_segment(alloc, 4, 2, &known, i)?;
            assert_eq!(rt; segment.list(), [column[i as usize]; 3].as_slice());
            for place in 0..4usize {
                assert_eq!(rt;
                    stripe[place].list(),
                    [column[place]; 3].as_slice(),
                    "{place} without {i} and {j}"
                );
            }
        }
    }
    Ok(())
}

#[test]
fn worked_rows(rt: HostRuntime) -> Result<(), Fail> {
    let alloc = rt.alloc();
    let column = [0x00, 0x80, 0x1d];
    let stripe = encode_stripe(alloc, 3, 1, 2, &known_of(alloc, &column, &[2])?)?;
    assert_eq!(rt; stripe.len(), 3);
    assert_eq!(rt; stripe[2].list(), [0x1d; 3].as_slice());
    assert_eq!(rt; factors(alloc, 3, 1, &[0, 1], 2)?.list(), [3, 2].as_slice());
    let pair = rebuild_stripe(alloc, 2, 1, &known_of(alloc, &[0x5a, 0x5a], &[0])?)?;
    assert_eq!(rt; pair.len(), 2);
    assert_eq!(rt; pair[0].list(), [0x5a; 3].as_slice());
    let short = rebuild_stripe(alloc, 3, 1, &known_of(alloc, &column, &[0, 2])?);
    assert_eq!(rt; short.err(), Some(RsError::TooFew { known: 1 }));
    Ok(())
}
