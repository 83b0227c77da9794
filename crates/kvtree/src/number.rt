//! Numbers as keys: decimal, without sign or leading zeros.

ghost use Rattle.std.specs.Prelude.{◌≡◌, ◌≢◌, ◌<◌, ◌^◌, ℕ, decimal, MatchOption};

use itoa::Buffer;
use std::str;

/// The number that these bytes are the decimal form of; `None` where they are that of no `u32`.
pub fn number_of(bytes: &[u8]) -> Option<u32>
    ensures { MatchOption result ((n : ℕ) → n < 2 ^ 32 → bytes.now ≢ decimal n) (λ n. bytes.now ≡ decimal n) }
{
    let Ok(text) = str::from_utf8(bytes) else {
        return None;
    };
    let Ok(number) = text.parse::<u32>() else {
        return None;
    };
    let mut buffer = Buffer::new();
    if buffer.format(number).as_bytes() == bytes {
        Some(number)
    } else {
        None
    }
}
