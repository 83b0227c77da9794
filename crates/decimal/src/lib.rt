//! Decimal numbers without sign or leading zeros: one spelling for each number.
#![tactic(auto)]

ghost use Rattle.std.specs.Prelude.{◌≡◌, ◌≢◌, ◌≤◌, ◌<◌, ◌^◌, ◌++◌, ◌↔◌, ℕ, List, Some, MatchOption, IfSome, OnOk, decimal};
ghost use Rattle.decimal.specs.Numbers.{number_of, number_below, number_in, IsDecimalOf};

use itoa::Buffer;
use std::alloc::AllocError;
use std::str;

/// The number of which these are the decimal digits, without leading zeros; `None` where they are those of no
/// number below 2^64.
pub fn number(digits: &[u8]) -> Option<u64>
    ensures spelled { MatchOption result ((n : ℕ) → n < 2 ^ 64 → digits.now ≢ decimal n) (λ n. digits.now ≡ decimal n) }
    ensures number { result ≡ number_of digits.now }
{
    let Ok(text) = str::from_utf8(digits) else {
        return None;
    };
    let Ok(number) = text.parse::<u64>() else {
        return None;
    };
    let mut buffer = Buffer::new();
    if buffer.format(number).as_bytes() == digits {
        Some(number)
    } else {
        None
    }
}

/// The same for numbers below 2^8.
#[tactic(auto, unfolding(crate::specs::Numbers::number_below))]
pub fn small(digits: &[u8]) -> Option<u8>
    ensures spelled { MatchOption result ((n : ℕ) → n < 2 ^ 8 → digits.now ≢ decimal n) (λ n. digits.now ≡ decimal n) }
    ensures number { result ≡ number_below (2 ^ 8) digits.now }
{
    u8::try_from(number(digits)?).ok()
}

/// The same for numbers below 2^32.
#[tactic(auto, unfolding(crate::specs::Numbers::number_below))]
pub fn medium(digits: &[u8]) -> Option<u32>
    ensures spelled { MatchOption result ((n : ℕ) → n < 2 ^ 32 → digits.now ≢ decimal n) (λ n. digits.now ≡ decimal n) }
    ensures number { result ≡ number_below (2 ^ 32) digits.now }
{
    u32::try_from(number(digits)?).ok()
}

/// The number of which these are the digits, if it is at least `low` and at most `high`.
#[tactic(auto, unfolding(crate::specs::Numbers::number_in))]
pub fn number_in(digits: &[u8], low: u64, high: u64) -> Option<u64>
    ensures within { IfSome result (λ n. n ≤ high) }
    ensures number { result ≡ number_in low high digits.now }
{
    let number = number(digits)?;
    if low <= number && number <= high {
        Some(number)
    } else {
        None
    }
}

/// Puts the digits of a number at the end of a text.
pub fn put(text: &mut Vec<u8>, number: u64) -> Result<(), AllocError>
    ensures { OnOk result (text.new.items ≡ text.old.items ++ decimal number) }
{
    let mut buffer = Buffer::new();
    text.extend_from_slice(buffer.format(number).as_bytes())
}

/// Digits are read as a number exactly where they are its decimal form, and the number lies below 2^64.
pub fn numbers_are_decimal()
    ensures { (digits : List ℕ) (n : ℕ) → (number_of digits ≡ Some n) ↔ IsDecimalOf n digits }
{}
