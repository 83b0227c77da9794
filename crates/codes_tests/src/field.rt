//! The field of 256 elements.

use gf256::{add, field_laws, inv, mul};

#[test]
fn worked_rows(rt: HostRuntime) {
    assert_eq!(rt; mul(0x02, 0x80), 0x1d);
    assert_eq!(rt; mul(0x02, 0x03), 0x06);
    assert_eq!(rt; inv(0x01), Some(0x01));
    assert_eq!(rt; inv(0x00), None);
    field_laws();
}

/// The whole carry-less product first, and then its remainder by 0x11d, from the highest bit down.
fn long_division(a: u8, b: u8) -> u16 {
    let mut product = 0u16;
    for i in 0..8u32 {
        if a >> i & 1 == 1 {
            product ^= (b as u16) << i;
        }
    }
    for i in 0..7u32 {
        if product >> (14 - i) & 1 == 1 {
            product ^= 0x11d << (6 - i);
        }
    }
    product
}

#[test]
fn every_product_and_inverse(rt: HostRuntime) {
    for a in 0..=255u8 {
        for b in 0..=255u8 {
            assert_eq!(rt; mul(a, b) as u16, long_division(a, b), "at {a} and {b}");
            assert_eq!(rt; add(a, b), a & !b | !a & b, "at {a} and {b}");
        }
        match inv(a) {
            None => assert_eq!(rt; a, 0),
            Some(b) => assert_eq!(rt; long_division(a, b), 1, "at {a}"),
        }
    }
}
