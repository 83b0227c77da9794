//! The words of a line.
ghost use Rattle.std.specs.Prelude.{◌≡◌, ◌==◌, IfOk, bytes_eq, option_map, position};
ghost use Rattle.script_reader.specs.Words.{texts, pieces_of, cut_at, word_at, has, is_empty, has_empty, behind_word};

use std::alloc::{AllocError, Global};

/// What stands before, between and behind the bytes of this kind.
#[tactic(auto, unfolding(crate::specs::Words::pieces_of))]
pub(crate) fn pieces_of(alloc: Global, text: &[u8], byte: u8) -> Result<Vec<&[u8]>, AllocError>
    ensures { IfOk result (λ pieces. texts pieces.items ≡ pieces_of byte text.now) }
{
    text.split(|other| *other == byte).collect(alloc)
}

/// The place of the first byte of this kind.
pub(crate) fn place_of(text: &[u8], byte: u8) -> Option<usize>
    ensures { result ≡ position (λ b. b == byte) text.now }
{
    text.iter().position(|other| *other == byte)
}

/// What stands before and behind the first byte of this kind.
#[tactic(auto, unfolding(crate::specs::Words::cut_at))]
pub(crate) fn cut(text: &[u8], byte: u8) -> Option<(&[u8], &[u8])>
    ensures { option_map (λ parts. (parts.0.now, parts.1.now)) result ≡ cut_at byte text.now }
{
    let place = place_of(text, byte)?;
    let (front, rest) = text.split_at(place);
    let (_, behind) = rest.split_at(1);
    Some((front, behind))
}

/// The word at a place, and no bytes where there is none.
pub(crate) fn word_at<'a>(words: &[&'a [u8]], place: usize) -> &'a [u8]
    ensures { result.now ≡ word_at (texts words.now) place }
{
    match words.get(place) {
        Some(word) => *word,
        None => &[],
    }
}

pub(crate) fn is(word: &[u8], literal: &[u8]) -> bool
    ensures { result ≡ bytes_eq word.now literal.now }
{
    word == literal
}

/// Whether the word at a place is this one.
pub(crate) fn has(words: &[&[u8]], place: usize, literal: &[u8]) -> bool
    ensures { result ≡ has (texts words.now) place literal.now }
{
    is(word_at(words, place), literal)
}

pub(crate) fn is_empty(word: &[u8]) -> bool
    ensures { result ≡ is_empty word.now }
{
    word.len() == 0
}

/// Whether one of the words has no bytes.
pub(crate) fn has_empty(words: &[&[u8]]) -> bool
    ensures { result ≡ has_empty (texts words.now) }
{
    words.iter().any(|word| is_empty(word))
}

/// What stands behind the first blank.
#[tactic(auto, unfolding(crate::specs::Words::behind_word))]
pub(crate) fn behind_word(line: &[u8]) -> &[u8]
    ensures { result.now ≡ behind_word line.now }
{
    match cut(line, b' ') {
        Some((_, behind)) => behind,
        None => &[],
    }
}
