//! Polynomials: their worked rows.

use poly_code::{PolyError, fill, polynomial_laws, value_at, weights};
use std::test::Fail;

#[test]
fn worked_weights(rt: HostRuntime) -> Result<(), Fail> {
    assert_eq!(rt; value_at(&[], 3), 0);
    assert_eq!(rt; value_at(&[1, 2], 3), 7);
    assert_eq!(rt; weights(rt.alloc(), &[0, 1], 2)?.list(), [3, 2].as_slice());
    assert_eq!(rt;
        weights(rt.alloc(), &[1, 4, 1], 0).err(),
        Some(PolyError::Repeated { place: 2 })
    );
    polynomial_laws();
    Ok(())
}

#[test]
fn worked_columns(rt: HostRuntime) -> Result<(), Fail> {
    let all = [0, 1, 2, 3];
    assert_eq!(rt;
        fill(rt.alloc(), 3, 2, &[0, 1], &[0x01, 0x03], &all[..3])?.list(),
        [0x01, 0x03, 0x05].as_slice()
    );
    assert_eq!(rt;
        fill(rt.alloc(), 3, 2, &[0, 1], &[0x00, 0x80], &all[..3])?.list(),
        [0x00, 0x80, 0x1d].as_slice()
    );
    assert_eq!(rt;
        fill(rt.alloc(), 2, 1, &[0], &[0x5a], &all[..2])?.list(),
        [0x5a, 0x5a].as_slice()
    );
    // The third point is not used.
    assert_eq!(rt;
        fill(rt.alloc(), 4, 2, &[2, 3, 0], &[0x05, 0x07, 0x99], &all)?.list(),
        [0x01, 0x03, 0x05, 0x07].as_slice()
    );
    assert_eq!(rt;
        fill(rt.alloc(), 4, 2, &[3], &[0x07], &all).err(),
        Some(PolyError::TooFew)
    );
    Ok(())
}

#[test]
fn any_two_of_four(rt: HostRuntime) -> Result<(), Fail> {
    let all = [0, 1, 2, 3];
    let column = [0x01, 0x03, 0x05, 0x07];
    for i in 0..4u8 {
        for j in i + 1..4u8 {
            let known = [column[i as usize], column[j as usize]];
            let filled = fill(rt.alloc(), 4, 2, &[i, j], &known, &all)?;
            assert_eq!(rt; filled.list(), column.as_slice(), "from {i} and {j}");
        }
    }
    Ok(())
}
