//! Sums over whole slices of bytes, in place.
#![tactic(auto)]

ghost use Rattle.std.specs.Prelude.{◌≡◌, ◌+◌, ◌≤◌, length};
ghost use Rattle.gf256.specs.Field.{mul as product_of};
ghost use Rattle.lane_kernels.specs.Lanes.{AddsEach};
ghost use Rattle.lane_kernels.specs.Blocks.{AddsBlock};

mod four;
mod products;
mod weigh;

use gf256::{add, mul};
use products::{LANES, Products};
use std::simd::prelude::*;
pub use weigh::weigh_into;

/// How many bytes are added at once.
const WIDE: usize = 64;

/// Adds each byte of `src` to the byte of `dst` at its place. The two have one length.
pub fn xor_into(dst: &mut [u8], src: &[u8])
    requires { length dst.old ≡ length src.now }
    ensures { AddsEach (λ s. s) src.now dst.old dst.new }
{
    let len = dst.len();
    let mut at = 0;
    while len - at >= WIDE {
        add_block(dst, src, at);
        at += WIDE;
    }
    for i in at..len {
        dst[i] = add(dst[i], src[i]);
    }
}

/// Adds `c` times each byte of `src` to the byte of `dst` at its place. The two have one length.
pub fn mul_add_into(dst: &mut [u8], src: &[u8], c: u8)
    requires { length dst.old ≡ length src.now }
    ensures { AddsEach (product_of c) src.now dst.old dst.new }
{
    let products = Products::of(c);
    let len = dst.len();
    let mut at = 0;
    while len - at >= LANES {
        mul_add_block(dst, src, at, &products);
        at += LANES;
    }
    for i in at..len {
        dst[i] = add(dst[i], mul(c, src[i]));
    }
}

/// Adds 64 bytes from `at` on.
#[inline(always)]
fn add_block(dst: &mut [u8], src: &[u8], at: usize)
    requires lengths { length dst.old ≡ length src.now }
    requires room { at + 64 ≤ length dst.old }
    ensures { AddsBlock (λ s. s) 64 at src.now dst.old dst.new }
{
    let sum = u8x64::from_slice(&dst[at..]) ^ u8x64::from_slice(&src[at..]);
    sum.copy_to_slice(&mut dst[at..]);
}

/// Adds 16 bytes from `at` on, each times the factor.
#[inline(always)]
fn mul_add_block(dst: &mut [u8], src: &[u8], at: usize, products: &Products)
    requires lengths { length dst.old ≡ length src.now }
    requires room { at + 16 ≤ length dst.old }
    ensures { AddsBlock (product_of products.now.factor) 16 at src.now dst.old dst.new }
{
    let sum = u8x16::from_slice(&dst[at..]) ^ products.with(u8x16::from_slice(&src[at..]));
    sum.copy_to_slice(&mut dst[at..]);
}
