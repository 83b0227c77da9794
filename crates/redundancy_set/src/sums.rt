ghost use Rattle.std.specs.Prelude.{◌≡◌, length, map, IfOk};
ghost use Rattle.redundancy_set.specs.Sums.{AppendsSum};

use lane_kernels::weigh_into;
use std::alloc::AllocError;

/// Appends `len` bytes: each is the sum of the parts' bytes at its place, times their factors. A part that ends earlier
/// stands for zeros from there on. The bytes are summed up where they stand, and no others are taken for it.
pub fn append_sum(
    out: &mut Vec<u8>,
    len: usize,
    parts: &[&[u8]],
    factors: &[u8],
) -> Result<(), AllocError>
    requires { length factors.now ≡ length parts.now }
    ensures { IfOk result (λ _. AppendsSum len factors.now (map (λ part. part.now) parts.now) out.old.items out.new.items) }
{
    let from = out.len();
    out.resize(from.saturating_add(len), 0)?;
    weigh_into(&mut out.as_mut_slice()[from..], parts, factors);
    Ok(())
}
