//! Which names are those of a member's files and shares.
ghost use Rattle.std.specs.Prelude.{◌≡◌, ◌≢◌, ◌<◌, ◌≤◌, ◌^◌, ◌++◌, ◌∷◌, ◌↔◌, ℕ, IsTrue, length, slice_index, decimal};
ghost use Rattle.member_store.specs.Names.{part_name, part_mark, IsPart};
ghost use Rattle.member_store.specs.declared.part.Part.{Part};

use crate::device_name::DeviceName;
use kvtree::number_of;
use scr_base::DataId;

/// Is this the decimal form of a number below 256?
fn is_small(bytes: &[u8]) -> bool
    ensures { IsTrue result ↔ ((n : ℕ) × (n < 2 ^ 8) × (bytes.now ≡ decimal n)) }
{
    match number_of(bytes) {
        None => false,
        Some(number) => number < 256,
    }
}

/// How many bytes come before the first dot, or the whole length.
fn len_before_dot(bytes: &[u8]) -> usize
    ensures within { result ≤ length bytes.now }
    ensures before { (k : ℕ) → k < result → slice_index bytes.now k ≢ 46 }
    ensures found { result < length bytes.now → slice_index bytes.now result ≡ 46 }
{
    bytes
        .iter()
        .position(|byte| *byte == b'.')
        .unwrap_or(bytes.len())
}

/// Are these two numbers below 256 with a dot between them?
fn are_two_small(bytes: &[u8]) -> bool
    ensures { IsTrue result ↔ ((m : ℕ) × (n : ℕ) × (m < 2 ^ 8) × (n < 2 ^ 8) × (bytes.now ≡ decimal m ++ 46 ∷ decimal n)) }
{
    let at = len_before_dot(bytes);
    if at == bytes.len() {
        return false;
    }
    is_small(&bytes[..at]) && is_small(&bytes[at + 1..])
}

/// Is this what the name of a file or share has behind the dot that ends the stem?
fn is_mark(bytes: &[u8]) -> bool
    ensures { IsTrue result ↔ ((part : Part) × IsPart part × (bytes.now ≡ part_mark part)) }
{
    if let Some(local) = bytes.strip_prefix(b"p.") {
        return is_small(local);
    }
    match bytes.strip_prefix(b"f.") {
        None => false,
        Some(numbers) => are_two_small(numbers),
    }
}

/// Is this the name of one of a member's files or shares?
pub(crate) fn is_part_name(which: DataId, node: u8, name: &[u8]) -> bool
    ensures { IsTrue result ↔ ((part : Part) × IsPart part × (name.now ≡ part_name which node part)) }
{
    let stem = DeviceName::dotted_stem(which, node);
    match name.strip_prefix(stem.bytes()) {
        None => false,
        Some(mark) => is_mark(mark),
    }
}
