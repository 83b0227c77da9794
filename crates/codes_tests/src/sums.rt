//! XOR stripes.

ghost use Rattle.std.specs.Prelude.{◌≡◌, ℕ, ◌<◌, [], length, slice_index_or, vec_len, IfOk};

use scr_base::Bytes;
use std::alloc::Global;
use std::test::Fail;
use xor_segments::{parity, rebuild};

/// Segments of three bytes.
fn segments_of(alloc: Global, rows: &[[u8; 3]]) -> Result<Vec<Bytes>, Fail>
    ensures count { IfOk result (λ segments. vec_len segments ≡ length rows.now) }
    ensures lengths { IfOk result (λ segments. (j : ℕ) → j < vec_len segments → length (slice_index_or segments.items j []) ≡ 3) }
{
    let mut segments = Vec::new(alloc);
    for row in rows {
        segments.push(Bytes::of(Vec::from_slice(alloc, row)?))?;
    }
    Ok(segments)
}

#[test]
fn worked_stripe(rt: HostRuntime) -> Result<(), Fail> {
    let alloc = rt.alloc();
    let whole = [[0x01, 0x02, 0x03], [0x10, 0x20, 0x00], [0x11, 0x22, 0x03]];
    let mut out = [0x99; 3];
    parity(&segments_of(alloc, &whole[..2])?, &mut out);
    assert_eq!(rt; out, whole[2]);
    parity(&segments_of(alloc, &whole[..0])?, &mut out);
    assert_eq!(rt; out, [0; 3]);
    for lost in 0..3usize {
        let mut damaged = whole;
        damaged[lost] = [0xee; 3];
        rebuild(&segments_of(alloc, &damaged)?, lost, &mut out);
        assert_eq!(rt; out, whole[lost], "with {lost} lost");
    }
    Ok(())
}
