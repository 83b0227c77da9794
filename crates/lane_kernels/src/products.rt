ghost use Rattle.std.specs.Prelude.{◌≡◌, ◌*◌, ◌<◌, ℕ, length, slice_index};
ghost use Rattle.gf256.specs.Field.{mul as product_of};
ghost use Rattle.lane_kernels.specs.Blocks.{IsTable};

use gf256::mul;
use std::simd::prelude::*;

/// How many bytes are multiplied at once: as many as a look-up has entries.
pub const LANES: usize = 16;

/// The products of a factor with the lower and with the upper halves of bytes.
#[derive(Drop)]
pub struct Products {
    pub factor: u8,
    pub low: u8x16,
    pub high: u8x16,
    pub ghost lows: { IsTable factor 1 low },
    pub ghost highs: { IsTable factor 16 high },
}

impl Products {
    /// The products of a factor.
    pub fn of(factor: u8) -> Products
        ensures { result.factor ≡ factor }
    {
        Products {
            factor,
            low: table_of(factor, 1),
            high: table_of(factor, 16),
        }
    }

    /// The product of the factor with each lane.
    #[inline(always)]
    pub fn with(&self, v: u8x16) -> u8x16
        ensures lanes { length result ≡ 16 }
        ensures each { (i : ℕ) → i < 16 → slice_index result i ≡ product_of self.now.factor (slice_index v i) }
    {
        self.low.swizzle_dyn(v & u8x16::splat(15)) ^ self.high.swizzle_dyn(v >> u8x16::splat(4))
    }
}

/// The products of `c` with 0, 1, 2 .. 15 times `step`.
fn table_of(c: u8, step: u8) -> u8x16
    requires { 15 * step < 256 }
    ensures { IsTable c step result }
{
    let mut table = [0; LANES];
    for i in 0..LANES {
        table[i] = mul(c, i as u8 * step);
    }
    u8x16::from_array(table)
}
