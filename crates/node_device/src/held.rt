// The bytes of a file in memory.
ghost use Rattle.std.specs.Prelude.{◌≡◌, ◌<◌, ◌≤◌, ◌+◌, ◌^◌, ℕ, max, length, take, drop, OnOk, OnErr, slice_index};
ghost use Rattle.node_device.specs.File.{written};
ghost use Rattle.node_device.specs.Held.{stable_bytes, bytes_left, there_left};

use crate::changes::{Changes, overwrite};
use crate::outcome::Outcome;
use std::alloc::AllocError;

/// Makes room up to a place, with zeros.
fn grow(bytes: &mut Vec<u8>, end: usize) -> Result<(), AllocError>
    ensures len { OnOk result (length bytes.new.items ≡ max (length bytes.old.items) end) }
    ensures same { (k : ℕ) → slice_index bytes.new.items k ≡ slice_index bytes.old.items k }
    ensures err { OnErr result (bytes.new.items ≡ bytes.old.items) }
    ensures short { OnErr result (length bytes.old.items < end) }
{
    if bytes.len() < end {
        bytes.resize(end, 0)?;
    }
    Ok(())
}

/// Writes bytes at a place, and fills a gap before it with zeros.
pub fn put(bytes: &mut Vec<u8>, at: usize, new: &[u8]) -> Result<(), AllocError>
    requires { at + length new.now < 2 ^ 64 }
    ensures ok { OnOk result (bytes.new.items ≡ written bytes.old.items at new.now) }
    ensures err { OnErr result (bytes.new.items ≡ bytes.old.items) }
    ensures short { OnErr result (length bytes.old.items < at + length new.now) }
{
    grow(bytes, at + new.len())?;
    overwrite(bytes, at, new);
    Ok(())
}

/// The bytes as of the last sync.
fn stable_of(
    fluid: bool,
    mut bytes: Vec<u8>,
    kept: Vec<u8>,
    stable_len: usize,
    changes: &Changes,
) -> Vec<u8>
    requires { stable_len ≤ length bytes.items }
    ensures { result.items ≡ stable_bytes fluid bytes.items kept.items stable_len changes.now }
{
    if fluid {
        return kept;
    }
    bytes.truncate(stable_len);
    changes.put_back(&mut bytes);
    bytes
}

/// The bytes that an outcome leaves.
pub fn left_of(
    outcome: Outcome,
    fluid: bool,
    mut bytes: Vec<u8>,
    kept: Vec<u8>,
    stable_len: usize,
    changes: &Changes,
) -> Vec<u8>
    requires { stable_len ≤ length bytes.items }
    ensures { result.items ≡ bytes_left outcome fluid bytes.items kept.items stable_len changes.now }
{
    match outcome {
        Outcome::AsRead => bytes,
        Outcome::AsStable => stable_of(fluid, bytes, kept, stable_len, changes),
        Outcome::Scrambled => {
            changes.scramble(&mut bytes);
            bytes
        }
    }
}

/// Whether an outcome leaves the file.
pub fn leaves_file(outcome: Outcome, there: bool, was_there: bool) -> bool
    ensures { result ≡ there_left outcome there was_there }
{
    match outcome {
        Outcome::AsStable => was_there,
        _ => there,
    }
}
