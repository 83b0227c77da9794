//! A line's parts: what stands before and behind a byte.

ghost use Rattle.std.specs.Prelude.{◌≡◌, ◌≢◌, ◌<◌, ◌∷◌, ◌++◌, ℕ, IfNone, IfSome, bytes_eq, codes, length, option_map, slice_index};
ghost use Rattle.history_reader.specs.Reading.{around_equals, cut_at, cut_last_at, is_nothing};

pub(crate) fn is(bytes: &[u8], literal: &[u8]) -> bool
    ensures { result ≡ bytes_eq bytes.now literal.now }
{
    bytes == literal
}

pub(crate) fn is_empty(bytes: &[u8]) -> bool
    ensures { result ≡ is_nothing bytes.now }
{
    bytes.len() == 0
}

/// What stands before and behind the first such byte.
pub(crate) fn cut(bytes: &[u8], byte: u8) -> Option<(&[u8], &[u8])>
    ensures text { IfSome result (λ parts. bytes.now ≡ parts.0.now ++ byte ∷ parts.1.now) }
    ensures gives { option_map (λ parts. (parts.0.now, parts.1.now)) result ≡ cut_at byte bytes.now }
{
    let place = place_of(bytes, byte)?;
    let (front, rest) = bytes.split_at(place);
    let (_, rest) = rest.split_at(1);
    Some((front, rest))
}

/// The place of the first such byte.
fn place_of(bytes: &[u8], byte: u8) -> Option<usize>
    ensures found { IfSome result (λ place. (place < length bytes.now) × (slice_index bytes.now place ≡ byte)) }
    ensures first { IfSome result (λ place. (k : ℕ) → k < place → slice_index bytes.now k ≢ byte) }
    ensures none { IfNone result ((k : ℕ) → k < length bytes.now → slice_index bytes.now k ≢ byte) }
{
    bytes.iter().position(|other| *other == byte)
}

/// What stands before and behind the last such byte.
pub(crate) fn cut_last(bytes: &[u8], byte: u8) -> Option<(&[u8], &[u8])>
    ensures text { IfSome result (λ parts. bytes.now ≡ parts.0.now ++ byte ∷ parts.1.now) }
    ensures gives { option_map (λ parts. (parts.0.now, parts.1.now)) result ≡ cut_last_at byte bytes.now }
{
    let place = last_place_of(bytes, byte)?;
    let (front, rest) = bytes.split_at(place);
    let (_, rest) = rest.split_at(1);
    Some((front, rest))
}

/// The place of the last such byte.
fn last_place_of(bytes: &[u8], byte: u8) -> Option<usize>
    ensures found { IfSome result (λ place. (place < length bytes.now) × (slice_index bytes.now place ≡ byte)) }
    ensures last { IfSome result (λ place. (k : ℕ) → place < k → k < length bytes.now → slice_index bytes.now k ≢ byte) }
    ensures none { IfNone result ((k : ℕ) → k < length bytes.now → slice_index bytes.now k ≢ byte) }
{
    let mut end = bytes.len();
    while end > 0 {
        end -= 1;
        if bytes[end] == byte {
            return Some(end);
        }
    }
    None
}

/// What stands before and behind the last equals sign, which has a space on each side.
#[tactic(auto, unfolding(crate::specs::Reading::around_equals))]
pub(crate) fn cut_at_equals(bytes: &[u8]) -> Option<(&[u8], &[u8])>
    ensures text { IfSome result (λ parts. bytes.now ≡ parts.0.now ++ (codes " = " ++ parts.1.now)) }
    ensures gives { option_map (λ parts. (parts.0.now, parts.1.now)) result ≡ around_equals bytes.now }
{
    let (front, behind) = cut_last(bytes, b'=')?;
    let (front, after) = cut_last(front, b' ')?;
    let (before, behind) = cut(behind, b' ')?;
    if is_empty(after) && is_empty(before) {
        Some((front, behind))
    } else {
        None
    }
}
