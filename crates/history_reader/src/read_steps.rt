//! Reading the steps of a rank's program.

ghost use Rattle.std.specs.Prelude.{◌≡◌, ◌∷◌, ◌++◌, IfOk, IfSome, codes};
ghost use Rattle.ckpt_model.specs.Text.{content_text, flags_text, step_text, valid_text};
ghost use Rattle.history_reader.specs.Spelled.{IsSpelledContent, IsSpelledStep, FitsContent, FitsStep};
ghost use Rattle.history_reader.specs.Reading.{Gives, read_bare_step, read_closing_step, read_content, read_fill, read_flags, read_full_step, read_read, read_start, read_step, read_valid, read_write};

use crate::cuts::{cut, is};
use crate::fault::Fault;
use crate::numbers::{medium, small};
use crate::read_bytes::{hex_of, word_of};
use scr_base::{Content, Flags, Step};
use std::alloc::Global;

#[tactic(auto, unfolding(crate::specs::Reading::read_flags))]
pub(crate) fn flags_of(word: &[u8]) -> Option<Flags>
    ensures text { IfSome result (λ flags. word.now ≡ flags_text flags) }
    ensures gives { result ≡ read_flags word.now }
{
    if is(word, b"ckpt") {
        Some(Flags::Ckpt)
    } else if is(word, b"output") {
        Some(Flags::Output)
    } else if is(word, b"both") {
        Some(Flags::Both)
    } else {
        None
    }
}

#[tactic(auto, unfolding(crate::specs::Reading::read_valid))]
fn valid_of(word: &[u8]) -> Option<bool>
    ensures text { IfSome result (λ valid. word.now ≡ valid_text valid) }
    ensures gives { result ≡ read_valid word.now }
{
    if is(word, b"valid") {
        Some(true)
    } else if is(word, b"invalid") {
        Some(false)
    } else {
        None
    }
}

/// A step, as the script spells it.
#[tactic(auto, unfolding(crate::specs::Reading::read_step))]
pub(crate) fn step_of(alloc: Global, bytes: &[u8]) -> Result<Step, Fault>
    ensures text { IfOk result (λ step. bytes.now ≡ step_text step) }
    ensures spelled { IfOk result (λ step. IsSpelledStep step) }
    ensures fits { IfOk result (λ step. FitsStep step) }
    ensures gives { Gives result (read_step bytes.now) }
{
    match cut(bytes, b' ') {
        None => bare_step_of(bytes).ok_or(Fault::Bad),
        Some((word, rest)) => full_step_of(alloc, word, rest),
    }
}

#[tactic(auto, unfolding(crate::specs::Reading::read_bare_step))]
fn bare_step_of(word: &[u8]) -> Option<Step>
    ensures text { IfSome result (λ step. word.now ≡ step_text step) }
    ensures spelled { IfSome result (λ step. IsSpelledStep step) }
    ensures fits { IfSome result (λ step. FitsStep step) }
    ensures gives { result ≡ read_bare_step word.now }
{
    if is(word, b"need") {
        Some(Step::Need)
    } else if is(word, b"have") {
        Some(Step::Have)
    } else if is(word, b"restart") {
        Some(Step::Restart)
    } else if is(word, b"exit") {
        Some(Step::Exit)
    } else if is(word, b"finalize") {
        Some(Step::Finalize)
    } else if is(word, b"end") {
        Some(Step::End)
    } else {
        None
    }
}

#[tactic(auto, unfolding(crate::specs::Reading::read_full_step))]
fn full_step_of(alloc: Global, word: &[u8], rest: &[u8]) -> Result<Step, Fault>
    ensures text { IfOk result (λ step. step_text step ≡ word.now ++ 32 ∷ rest.now) }
    ensures spelled { IfOk result (λ step. IsSpelledStep step) }
    ensures fits { IfOk result (λ step. FitsStep step) }
    ensures gives { Gives result (read_full_step word.now rest.now) }
{
    if is(word, b"start") {
        start_of(alloc, rest)
    } else if is(word, b"route") {
        Ok(Step::Route {
            name: word_of(alloc, rest)?,
        })
    } else if is(word, b"write") {
        write_of(alloc, rest)
    } else if is(word, b"read") {
        read_step_of(alloc, rest)
    } else {
        closing_step_of(word, rest).ok_or(Fault::Bad)
    }
}

#[tactic(auto, unfolding(crate::specs::Reading::read_closing_step))]
fn closing_step_of(word: &[u8], rest: &[u8]) -> Option<Step>
    ensures text { IfSome result (λ step. step_text step ≡ word.now ++ 32 ∷ rest.now) }
    ensures spelled { IfSome result (λ step. IsSpelledStep step) }
    ensures fits { IfSome result (λ step. FitsStep step) }
    ensures gives { result ≡ read_closing_step word.now rest.now }
{
    if is(word, b"complete") {
        Some(Step::Complete {
            valid: valid_of(rest)?,
        })
    } else if is(word, b"restarted") {
        Some(Step::Restarted {
            valid: valid_of(rest)?,
        })
    } else {
        None
    }
}

#[tactic(auto, unfolding(crate::specs::Reading::read_start))]
fn start_of(alloc: Global, rest: &[u8]) -> Result<Step, Fault>
    ensures text { IfOk result (λ step. step_text step ≡ codes "start " ++ rest.now) }
    ensures spelled { IfOk result (λ step. IsSpelledStep step) }
    ensures fits { IfOk result (λ step. FitsStep step) }
    ensures gives { Gives result (read_start rest.now) }
{
    let (name, flags) = cut(rest, b' ').ok_or(Fault::Bad)?;
    let flags = flags_of(flags).ok_or(Fault::Bad)?;
    Ok(Step::Start {
        name: word_of(alloc, name)?,
        flags,
    })
}

#[tactic(auto, unfolding(crate::specs::Reading::read_write))]
fn write_of(alloc: Global, rest: &[u8]) -> Result<Step, Fault>
    ensures text { IfOk result (λ step. step_text step ≡ codes "write " ++ rest.now) }
    ensures spelled { IfOk result (λ step. IsSpelledStep step) }
    ensures fits { IfOk result (λ step. FitsStep step) }
    ensures gives { Gives result (read_write rest.now) }
{
    let (name, rest) = cut(rest, b' ').ok_or(Fault::Bad)?;
    let (at, rest) = cut(rest, b' ').ok_or(Fault::Bad)?;
    let at = medium(at).ok_or(Fault::Bad)?;
    let content = content_of(alloc, rest)?;
    Ok(Step::Write {
        name: word_of(alloc, name)?,
        at,
        content,
    })
}

#[tactic(auto, unfolding(crate::specs::Reading::read_content))]
fn content_of(alloc: Global, bytes: &[u8]) -> Result<Content, Fault>
    ensures text { IfOk result (λ content. bytes.now ≡ content_text content) }
    ensures spelled { IfOk result (λ content. IsSpelledContent content) }
    ensures fits { IfOk result (λ content. FitsContent content) }
    ensures gives { Gives result (read_content bytes.now) }
{
    let (word, rest) = cut(bytes, b' ').ok_or(Fault::Bad)?;
    if is(word, b"text") {
        Ok(Content::Text(word_of(alloc, rest)?))
    } else if is(word, b"hex") {
        Ok(Content::Hex(hex_of(alloc, rest)?))
    } else if is(word, b"fill") {
        fill_of(rest).ok_or(Fault::Bad)
    } else {
        Err(Fault::Bad)
    }
}

#[tactic(auto, unfolding(crate::specs::Reading::read_fill))]
fn fill_of(rest: &[u8]) -> Option<Content>
    ensures text { IfSome result (λ content. content_text content ≡ codes "fill " ++ rest.now) }
    ensures spelled { IfSome result (λ content. IsSpelledContent content) }
    ensures fits { IfSome result (λ content. FitsContent content) }
    ensures gives { result ≡ read_fill rest.now }
{
    let (seed, len) = cut(rest, b' ')?;
    Some(Content::Fill {
        seed: small(seed)?,
        len: medium(len)?,
    })
}

#[tactic(auto, unfolding(crate::specs::Reading::read_read))]
fn read_step_of(alloc: Global, rest: &[u8]) -> Result<Step, Fault>
    ensures text { IfOk result (λ step. step_text step ≡ codes "read " ++ rest.now) }
    ensures spelled { IfOk result (λ step. IsSpelledStep step) }
    ensures fits { IfOk result (λ step. FitsStep step) }
    ensures gives { Gives result (read_read rest.now) }
{
    let (name, rest) = cut(rest, b' ').ok_or(Fault::Bad)?;
    let (at, len) = cut(rest, b' ').ok_or(Fault::Bad)?;
    let at = medium(at).ok_or(Fault::Bad)?;
    let len = medium(len).ok_or(Fault::Bad)?;
    Ok(Step::Read {
        name: word_of(alloc, name)?,
        at,
        len,
    })
}
