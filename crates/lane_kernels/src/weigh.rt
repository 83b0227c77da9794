ghost use Rattle.std.specs.Prelude.{◌≡◌, length, map};
ghost use Rattle.gf256.specs.Field.{mul as product_of};
ghost use Rattle.lane_kernels.specs.Lanes.{AddsEach, AddsFour, AddsWeighed};

use crate::four::{Weighed, add_four, mul_add_four};
use crate::{mul_add_into, xor_into};

/// Adds to each byte of `dst` the sources' bytes at its place, each times its source's weight. A source that ends
/// earlier stands for zeros from there on; what it has past the end of `dst` isn't used.
pub fn weigh_into(dst: &mut [u8], sources: &[&[u8]], weights: &[u8])
    requires { length weights.now ≡ length sources.now }
    ensures { AddsWeighed weights.now (map (λ source. source.now) sources.now) dst.old dst.new }
{
    let mut j = 0;
    while sources.len() - j >= 4 {
        let a = Weighed {
            bytes: sources[j],
            weight: weights[j],
        };
        let b = Weighed {
            bytes: sources[j + 1],
            weight: weights[j + 1],
        };
        let c = Weighed {
            bytes: sources[j + 2],
            weight: weights[j + 2],
        };
        let d = Weighed {
            bytes: sources[j + 3],
            weight: weights[j + 3],
        };
        weigh_four(dst, a, b, c, d);
        j += 4;
    }
    for i in j..sources.len() {
        add_weighed(dst, sources[i], weights[i]);
    }
}

/// Adds four sources' bytes, each times its weight: all at once where none ends before `dst`.
fn weigh_four(dst: &mut [u8], a: Weighed, b: Weighed, c: Weighed, d: Weighed)
    ensures { AddsFour (product_of a.entry.weight) (product_of b.entry.weight) (product_of c.entry.weight) (product_of d.entry.weight)
        a.entry.bytes.now b.entry.bytes.now c.entry.bytes.now d.entry.bytes.now dst.old dst.new }
{
    let len = dst.len();
    if a.bytes
        .len()
        .min(b.bytes.len())
        .min(c.bytes.len())
        .min(d.bytes.len())
        < len
    {
        add_weighed(dst, a.bytes, a.weight);
        add_weighed(dst, b.bytes, b.weight);
        add_weighed(dst, c.bytes, c.weight);
        add_weighed(dst, d.bytes, d.weight);
    } else if a.weight == 1 && b.weight == 1 && c.weight == 1 && d.weight == 1 {
        add_four(dst, a.bytes, b.bytes, c.bytes, d.bytes);
    } else {
        mul_add_four(dst, a, b, c, d);
    }
}

/// Adds `weight` times each byte of `src` to the byte of `dst` at its place, as far as both go.
fn add_weighed(dst: &mut [u8], src: &[u8], weight: u8)
    ensures { AddsEach (product_of weight) src.now dst.old dst.new }
{
    let len = dst.len().min(src.len());
    if weight == 1 {
        xor_into(&mut dst[..len], &src[..len]);
    } else {
        mul_add_into(&mut dst[..len], &src[..len], weight);
    }
}
