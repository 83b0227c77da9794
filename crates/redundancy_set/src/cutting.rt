ghost use Rattle.std.specs.Prelude.{◌≡◌, ◌+◌, ◌*◌, ◌<◌, length, slice_index, IfOk};
ghost use Rattle.redundancy_set.specs.Known.{IsCut};

use scr_base::Bytes;
use std::alloc::{AllocError, Global};

/// The segment at a place of these bytes, which are cut into segments of one length. Past their end it is zeros.
pub fn cut(alloc: Global, bytes: &[u8], place: u8, len: usize) -> Result<Bytes, AllocError>
    ensures { IfOk result (IsCut len (λ b. slice_index bytes.now (place * len + b))) }
{
    let from = (place as usize).saturating_mul(len).min(bytes.len());
    let taken = len.min(bytes.len() - from);
    let mut segment = Vec::with_capacity(alloc, len)?;
    segment.extend_from_slice(&bytes[from..from + taken])?;
    segment.resize(len, 0)?;
    Ok(Bytes::of(segment))
}
