//! A key of a tree, with its value under it.
ghost use Rattle.std.specs.Prelude.{◌≡◌};
ghost use Rattle.std.specs.Option.{option_copied};
ghost use Rattle.halt_file.specs.Payloads.{number_of, number_under, value_under};

use itoa::Buffer;
use kvtree::Tree;
use std::str;

/// The value under a key, if a value stands there.
pub(crate) fn value_under<'a>(tree: &'a Tree, key: &[u8]) -> Option<&'a [u8]>
    ensures { option_copied result ≡ value_under tree.now key.now }
{
    tree.get(key)?.only_key()
}

/// The number of which these are the decimal digits, without leading zeros.
fn number(digits: &[u8]) -> Option<u64>
    ensures { result ≡ number_of digits.now }
{
    let Ok(text) = str::from_utf8(digits) else {
        return None;
    };
    let Ok(number) = text.parse::<u64>() else {
        return None;
    };
    let mut buffer = Buffer::new();
    if buffer.format(number).as_bytes() == digits {
        Some(number)
    } else {
        None
    }
}

/// The number under a key, if a number stands there.
pub(crate) fn number_under(tree: &Tree, key: &[u8]) -> Option<u64>
    ensures { result ≡ number_under tree.now key.now }
{
    number(value_under(tree, key)?)
}
