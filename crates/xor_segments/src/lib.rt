//! XOR stripes: one segment is the sum of the others.
#![tactic(auto)]

ghost use Rattle.std.specs.Prelude.{◌≡◌, ◌≢◌, ℕ, ◌<◌, [], ◌∷◌, length, slice_index, slice_index_or, slice_set, vec_len};
ghost use Rattle.lane_kernels.specs.Columns.{column_at};
ghost use Rattle.xor_segments.specs.Column.{IsXorColumn};

use lane_kernels::xor_into;
use scr_base::Bytes;

/// Writes the parity of these data segments into `out`: with it each byte column of the stripe has the sum 0. Of no
/// segments it is zeros. The segments and `out` have one length.
#[tactic(auto, using(crate::proofs::Sums::sum_steps))]
pub fn parity(stripe: &Vec<Bytes>, out: &mut [u8])
    requires { (j : ℕ) → j < vec_len stripe.now → length (slice_index_or stripe.now.items j []) ≡ length out.old }
    ensures { (b : ℕ) → b < length out.old → IsXorColumn (slice_index out.new b ∷ column_at stripe.now.items b) }
{
    out.fill(0);
    for i in 0..stripe.len() {
        xor_into(out, stripe[i].list());
    }
}

/// Writes the segment at `lost` into `out`, from the other segments of the stripe, its parity included: with it each
/// byte column has the sum 0. The segment that stands at `lost` is not used; the others and `out` have one length.
#[tactic(auto, using(crate::proofs::Sums::other_steps))]
pub fn rebuild(stripe: &Vec<Bytes>, lost: usize, out: &mut [u8])
    requires within { lost < vec_len stripe.now }
    requires lengths { (j : ℕ) → j < vec_len stripe.now → j ≢ lost → length (slice_index_or stripe.now.items j []) ≡ length out.old }
    ensures { (b : ℕ) → b < length out.old → IsXorColumn (slice_set (column_at stripe.now.items b) lost (slice_index out.new b)) }
{
    out.fill(0);
    for j in 0..stripe.len() {
        if j != lost {
            xor_into(out, stripe[j].list());
        }
    }
}
