//! Sums of four sources at once, which read and write each byte of the target once for all four.
ghost use Rattle.std.specs.Prelude.{◌≡◌, ◌+◌, ◌≤◌, length};
ghost use Rattle.gf256.specs.Field.{mul as product_of};
ghost use Rattle.lane_kernels.specs.Lanes.{AddsFour};
ghost use Rattle.lane_kernels.specs.Blocks.{ChangesBlock, with_four_at};

use crate::WIDE;
use crate::products::{LANES, Products};
use gf256::{add, mul};
use std::simd::prelude::*;

/// A source, and what its bytes are multiplied with.
#[derive(Clone, Copy)]
pub struct Weighed<'a> {
    pub bytes: &'a [u8],
    pub weight: u8,
}

/// Adds to each byte of `dst` those of the sources at its place, each once. No source is shorter than `dst`.
pub fn add_four(dst: &mut [u8], a: &[u8], b: &[u8], c: &[u8], d: &[u8])
    requires a { length dst.old ≤ length a.now }
    requires b { length dst.old ≤ length b.now }
    requires c { length dst.old ≤ length c.now }
    requires d { length dst.old ≤ length d.now }
    ensures { AddsFour (product_of 1) (product_of 1) (product_of 1) (product_of 1) a.now b.now c.now d.now dst.old dst.new }
{
    let len = dst.len();
    let mut at = 0;
    while len - at >= WIDE {
        add_four_block(dst, a, b, c, d, at);
        at += WIDE;
    }
    for i in at..len {
        dst[i] = add(add(add(add(dst[i], a[i]), b[i]), c[i]), d[i]);
    }
}

/// Adds 64 bytes of each source from `at` on.
#[inline(always)]
fn add_four_block(dst: &mut [u8], a: &[u8], b: &[u8], c: &[u8], d: &[u8], at: usize)
    requires room { at + 64 ≤ length dst.old }
    requires a { length dst.old ≤ length a.now }
    requires b { length dst.old ≤ length b.now }
    requires c { length dst.old ≤ length c.now }
    requires d { length dst.old ≤ length d.now }
    ensures { ChangesBlock (with_four_at (λ s. s) (λ s. s) (λ s. s) (λ s. s) a.now b.now c.now d.now) 64 at dst.old dst.new }
{
    let sum = u8x64::from_slice(&dst[at..])
        ^ u8x64::from_slice(&a[at..])
        ^ u8x64::from_slice(&b[at..])
        ^ u8x64::from_slice(&c[at..])
        ^ u8x64::from_slice(&d[at..]);
    sum.copy_to_slice(&mut dst[at..]);
}

/// Adds to each byte of `dst` those of the sources at its place, each times its weight. No source is shorter than `dst`.
pub fn mul_add_four(dst: &mut [u8], a: Weighed, b: Weighed, c: Weighed, d: Weighed)
    requires a { length dst.old ≤ length a.bytes.now }
    requires b { length dst.old ≤ length b.bytes.now }
    requires c { length dst.old ≤ length c.bytes.now }
    requires d { length dst.old ≤ length d.bytes.now }
    ensures { AddsFour (product_of a.entry.weight) (product_of b.entry.weight) (product_of c.entry.weight) (product_of d.entry.weight)
        a.entry.bytes.now b.entry.bytes.now c.entry.bytes.now d.entry.bytes.now dst.old dst.new }
{
    let p = Products::of(a.weight);
    let q = Products::of(b.weight);
    let r = Products::of(c.weight);
    let s = Products::of(d.weight);
    let len = dst.len();
    let mut at = 0;
    while len - at >= LANES {
        let sum = u8x16::from_slice(&dst[at..])
            ^ p.with(u8x16::from_slice(&a.bytes[at..]))
            ^ q.with(u8x16::from_slice(&b.bytes[at..]))
            ^ r.with(u8x16::from_slice(&c.bytes[at..]))
            ^ s.with(u8x16::from_slice(&d.bytes[at..]));
        sum.copy_to_slice(&mut dst[at..]);
        at += LANES;
    }
    for i in at..len {
        dst[i] = add(
            add(
                add(
                    add(dst[i], mul(a.weight, a.bytes[i])),
                    mul(b.weight, b.bytes[i]),
                ),
                mul(c.weight, c.bytes[i]),
            ),
            mul(d.weight, d.bytes[i]),
        );
    }
}
