//! Numbers and bytes as they are spelled.
ghost use Rattle.std.specs.Prelude.{◌≡◌, ◌≤◌, ◌<◌, length, IfSome};
ghost use Rattle.script_reader.specs.Numbers.{number_in, hex_digit, byte_in_hex, hex_bytes, bytes_in_hex};
ghost use Rattle.script_reader.specs.Reasons.{Gives, or_reason};

use crate::reason::{LineError, Reason};
use decimal::number_in as decimal_in;
use scr_base::Bytes;
use std::alloc::Global;

/// The greatest number: it has 10 digits.
pub(crate) const GREATEST: u64 = 9_999_999_999;

/// The number of at most 10 digits that the word is, if it lies between the two others.
#[tactic(auto, unfolding(crate::specs::Numbers::number_in))]
pub(crate) fn number_in(word: &[u8], low: u64, high: u64) -> Option<u64>
    ensures number { result ≡ number_in low high word.now }
    ensures within { IfSome result (λ n. n ≤ high) }
{
    decimal_in(word, low, high.min(GREATEST))
}

pub(crate) fn small_in(word: &[u8], low: u8, high: u8) -> Option<u8>
    ensures { result ≡ number_in low high word.now }
{
    Some(number_in(word, low as u64, high as u64)? as u8)
}

pub(crate) fn medium_in(word: &[u8], low: u32, high: u32) -> Option<u32>
    ensures { result ≡ number_in low high word.now }
{
    Some(number_in(word, low as u64, high as u64)? as u32)
}

fn hex_digit(byte: u8) -> Option<u8>
    ensures digit { result ≡ hex_digit byte }
    ensures small { IfSome result (λ digit. digit < 16) }
{
    match byte {
        b'0'..=b'9' => Some(byte - b'0'),
        b'a'..=b'f' => Some(byte - b'a' + 10),
        _ => None,
    }
}

/// The byte of two digits in lower case hexadecimal.
fn byte_of(first: u8, second: u8) -> Option<u8>
    ensures { result ≡ byte_in_hex first second }
{
    Some(16 * hex_digit(first)? + hex_digit(second)?)
}

/// The bytes that the word spells in lower case hexadecimal.
fn hex_bytes(alloc: Global, word: &[u8]) -> Result<Vec<u8>, LineError>
    ensures { Gives (λ v. v.items) result (or_reason Reason.Number (hex_bytes word.now)) }
{
    let mut bytes = Vec::new(alloc);
    let mut rest = word;
    while rest.len() >= 2 {
        let Some(byte) = byte_of(rest[0], rest[1]) else {
            return Err(LineError::Refused(Reason::Number));
        };
        bytes.push(byte)?;
        rest = rest.split_at(2).1;
    }
    if rest.is_empty() {
        Ok(bytes)
    } else {
        Err(LineError::Refused(Reason::Number))
    }
}

/// The same, for at least one byte.
#[tactic(auto, unfolding(crate::specs::Numbers::bytes_in_hex))]
pub(crate) fn bytes_in_hex(alloc: Global, word: &[u8]) -> Result<Bytes, LineError>
    ensures { Gives (λ b. b) result (bytes_in_hex word.now) }
{
    if word.is_empty() {
        return Err(LineError::Refused(Reason::Number));
    }
    Ok(Bytes::of(hex_bytes(alloc, word)?))
}
