//! Numbers, and what is made of numbers alone.

ghost use Rattle.std.specs.Prelude.{◌≡◌, ◌∷◌, ◌++◌, ◌^◌, ◌<◌, ℕ, decimal, IfSome, codes, option_map};
ghost use Rattle.ckpt_model.specs.Text.{id_text, device_text, full_text};
ghost use Rattle.history_reader.specs.Part.{IsPart, IsPartOf};
ghost use Rattle.history_reader.specs.Reading.{read_below, read_byte, read_device, read_full, read_id, read_number, read_part, read_place};
ghost use Rattle.history_reader.specs.Spelled.{FitsDevice, FitsFull, FitsId, FitsPlace};

use crate::cuts::{cut, is};
use itoa::Buffer;
use scr_base::DataId;
use std::str;

/// The number by which the prefix is named among the devices.
pub(crate) const PREFIX: u8 = 32;

/// The number of which these are the decimal digits, without leading zeros.
pub(crate) fn number(digits: &[u8]) -> Option<u64>
    ensures text { IfSome result (λ number. digits.now ≡ decimal number) }
    ensures gives { result ≡ read_number digits.now }
{
    let Ok(text) = str::from_utf8(digits) else {
        return None;
    };
    let Ok(number) = text.parse::<u64>() else {
        return None;
    };
    let mut buffer = Buffer::new();
    if is(buffer.format(number).as_bytes(), digits) {
        Some(number)
    } else {
        None
    }
}

#[tactic(auto, unfolding(crate::specs::Reading::read_below))]
pub(crate) fn small(digits: &[u8]) -> Option<u8>
    ensures text { IfSome result (λ number. digits.now ≡ decimal number) }
    ensures gives { result ≡ read_byte digits.now }
{
    u8::try_from(number(digits)?).ok()
}

#[tactic(auto, unfolding(crate::specs::Reading::read_below))]
pub(crate) fn medium(digits: &[u8]) -> Option<u32>
    ensures text { IfSome result (λ number. digits.now ≡ decimal number) }
    ensures gives { result ≡ read_below (2 ^ 32) digits.now }
{
    u32::try_from(number(digits)?).ok()
}

/// The dataset that these bytes name.
#[tactic(auto, unfolding(crate::specs::Reading::read_id))]
pub(crate) fn dataset(bytes: &[u8]) -> Option<DataId>
    ensures text { IfSome result (λ which. bytes.now ≡ id_text which) }
    ensures fits { IfSome result (λ which. FitsId which) }
    ensures gives { result ≡ read_id bytes.now }
{
    let (id, run) = cut(bytes, b'.')?;
    Some(DataId {
        id: medium(id)?,
        run: medium(run)?,
    })
}

/// A rank and the number of its step, and what follows them.
#[tactic(auto, unfolding(crate::specs::Reading::read_place))]
pub(crate) fn place(bytes: &[u8]) -> Option<(u8, u32, &[u8])>
    ensures text { IfSome result (λ found. bytes.now ≡ decimal found.0 ++ 32 ∷ (decimal found.1 ++ 32 ∷ found.2.now)) }
    ensures fits { IfSome result (λ found. FitsPlace found.0 found.1) }
    ensures gives { option_map (λ found. (found.0, (found.1, found.2.now))) result ≡ read_place bytes.now }
{
    let (rank, rest) = cut(bytes, b' ')?;
    let (step, rest) = cut(rest, b' ')?;
    Some((small(rank)?, medium(step)?, rest))
}

/// A node, and the count of its device's calls.
#[tactic(auto, unfolding(crate::specs::Reading::read_device))]
pub(crate) fn device(bytes: &[u8]) -> Option<(u8, u64)>
    ensures text { IfSome result (λ found. device_text found.0 found.1 ≡ codes "device " ++ bytes.now) }
    ensures fits { IfSome result (λ found. FitsDevice found.0 found.1) }
    ensures gives { result ≡ read_device bytes.now }
{
    let (node, count) = cut(bytes, b' ')?;
    Some((small(node)?, number(count)?))
}

/// A node, and the bytes in use and the capacity of its device.
#[tactic(auto, unfolding(crate::specs::Reading::read_full))]
pub(crate) fn full(bytes: &[u8]) -> Option<(u8, u64, u64)>
    ensures text { IfSome result (λ found. full_text found.0 found.1 found.2 ≡ codes "full " ++ bytes.now) }
    ensures fits { IfSome result (λ found. FitsFull found.0 found.1 found.2) }
    ensures gives { option_map (λ found. (found.0, (found.1, found.2))) result ≡ read_full bytes.now }
{
    let (node, rest) = cut(bytes, b' ')?;
    let (used, capacity) = cut(rest, b' ')?;
    Some((small(node)?, number(used)?, number(capacity)?))
}

/// The numbers in the name of a file in which a rank's file is kept.
#[tactic(auto, unfolding(crate::specs::Reading::read_part))]
pub(crate) fn part(bytes: &[u8]) -> Option<(u32, u32, u8, u8, u8)>
    ensures text { IfSome result (λ found. IsPartOf bytes.now found.0 found.1 found.2 found.3 found.4) }
    ensures gives { option_map (λ found. (found.0, (found.1, (found.2, (found.3, found.4))))) result ≡ read_part bytes.now }
{
    let (d, rest) = cut(bytes, b'.')?;
    let (id, rest) = cut(rest, b'.')?;
    let (run, rest) = cut(rest, b'.')?;
    let (node, rest) = cut(rest, b'.')?;
    let (f, rest) = cut(rest, b'.')?;
    let (rank, file) = cut(rest, b'.')?;
    let (id, run) = (medium(id)?, medium(run)?);
    let (node, rank, file) = (small(node)?, small(rank)?, small(file)?);
    let named = is(d, b"d") && is(f, b"f");
    let allowed = id >= 1 && run >= 1 && node <= 15 && rank <= 7 && file <= 15;
    if named && allowed {
        Some((id, run, node, rank, file))
    } else {
        None
    }
}
