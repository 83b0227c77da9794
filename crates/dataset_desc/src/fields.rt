//! The fields of a part: a key at its place, and its value as the one key under it.

ghost use Rattle.std.specs.Prelude.{◌≡◌, ◌≢◌, ◌<◌, ◌^◌, ℕ, List, Some, decimal, MatchOption};
ghost use Rattle.kvtree.specs.Lookup.{entry_under, leaf};

use kvtree::Tree;

/// The value of the field at a place, if this is its key.
pub(crate) fn value_at<'a>(part: &'a Tree, at: usize, key: &[u8]) -> Option<&'a [u8]>
    ensures { MatchOption result ((value : List ℕ) → entry_under part.now at key.now ≢ Some (leaf value)) (λ value. entry_under part.now at key.now ≡ Some (leaf value.now)) }
{
    match part.child_under(at, key) {
        None => None,
        Some(below) => below.only_key(),
    }
}

/// The number of the field at a place, if this is its key.
pub(crate) fn number_at(part: &Tree, at: usize, key: &[u8]) -> Option<u32>
    ensures { MatchOption result ((n : ℕ) → n < 2 ^ 32 → entry_under part.now at key.now ≢ Some (leaf (decimal n))) (λ n. entry_under part.now at key.now ≡ Some (leaf (decimal n))) }
{
    match part.child_under(at, key) {
        None => None,
        Some(below) => below.only_number(),
    }
}
