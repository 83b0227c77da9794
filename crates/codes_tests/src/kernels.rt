//! Sums over slices, at each length around the vectors'.

use gf256::mul;
use lane_kernels::{mul_add_into, xor_into};
use std::test::Fail;

/// The factors of the plain sums.
const FACTORS: [u8; 5] = [0x00, 0x01, 0x02, 0x8e, 0xff];

/// Bytes of which no two neighbours are alike.
fn noise(step: usize) -> [u8; 131] {
    let mut bytes = [0; 131];
    for i in 0..131usize {
        bytes[i] = (i.wrapping_mul(step) % 251) as u8;
    }
    bytes
}

#[test]
fn every_length_up_to_130(rt: HostRuntime) -> Result<(), Fail> {
    let before = noise(151);
    let src = noise(89);
    for len in 0..131usize {
        let mut sums = Vec::from_slice(rt.alloc(), &before)?;
        xor_into(&mut sums.as_mut_slice()[..len], &src[..len]);
        for i in 0..131usize {
            let added = if i < len { src[i] } else { 0 };
            assert_eq!(rt; sums.get(i), Some(&(before[i] ^ added)), "{i} of {len}");
        }
        for c in FACTORS {
            let mut sums = Vec::from_slice(rt.alloc(), &before)?;
            mul_add_into(&mut sums.as_mut_slice()[..len], &src[..len], c);
            for i in 0..131usize {
                let added = if i < len { mul(c, src[i]) } else { 0 };
                assert_eq!(rt;
                    sums.get(i),
                    Some(&(before[i] ^ added)),
                    "{i} of {len}, {c}"
                );
            }
        }
    }
    Ok(())
}

#[test]
fn worked_row(rt: HostRuntime) {
    let mut dst = [0x00];
    mul_add_into(&mut dst, &[0x80], 0x02);
    assert_eq!(rt; dst, [0x1d]);
}

#[test]
fn every_factor(rt: HostRuntime) {
    let mut src = [0; 256];
    for i in 0..256usize {
        src[i] = i as u8;
    }
    for c in 0..=255u8 {
        let mut dst = [0; 256];
        mul_add_into(&mut dst, &src, c);
        for i in 0..256usize {
            assert_eq!(rt; dst[i], mul(c, i as u8), "{c} times {i}");
        }
    }
}
