//! The forms of a step, in the words of a line from the third on.
ghost use Rattle.std.specs.Prelude.{◌≡◌};
ghost use Rattle.script_reader.specs.Words.{texts};
ghost use Rattle.script_reader.specs.Forms.{flags_word, valid_word, start_form, write_form, bare_form, step_form, validity_form};

use crate::words::has;
use scr_base::Flags;

/// Which step it is, with those of its words that are fixed.
#[derive(Clone, Copy, Debug, PartialEq, Eq)]
pub enum StepForm {
    Need,
    Start { flags: Flags },
    Route,
    WriteText,
    WriteHex,
    WriteFill,
    Complete { valid: bool },
    Have,
    Restart,
    Read,
    Restarted { valid: bool },
    Exit,
    Finalize,
}

#[tactic(auto, unfolding(crate::specs::Forms::flags_word))]
fn flags_word(words: &[&[u8]], place: usize) -> Option<Flags>
    ensures { result ≡ flags_word (texts words.now) place }
{
    if has(words, place, b"ckpt") {
        Some(Flags::Ckpt)
    } else if has(words, place, b"output") {
        Some(Flags::Output)
    } else if has(words, place, b"both") {
        Some(Flags::Both)
    } else {
        None
    }
}

#[tactic(auto, unfolding(crate::specs::Forms::valid_word))]
fn valid_word(words: &[&[u8]], place: usize) -> Option<bool>
    ensures { result ≡ valid_word (texts words.now) place }
{
    if has(words, place, b"valid") {
        Some(true)
    } else if has(words, place, b"invalid") {
        Some(false)
    } else {
        None
    }
}

#[tactic(auto, unfolding(crate::specs::Forms::start_form))]
fn start_form(words: &[&[u8]]) -> Option<StepForm>
    ensures { result ≡ start_form (texts words.now) }
{
    if words.len() != 5 {
        return None;
    }
    Some(StepForm::Start {
        flags: flags_word(words, 4)?,
    })
}

#[tactic(auto, unfolding(crate::specs::Forms::write_form))]
fn write_form(words: &[&[u8]]) -> Option<StepForm>
    ensures { result ≡ write_form (texts words.now) }
{
    if words.len() == 7 && has(words, 5, b"text") {
        Some(StepForm::WriteText)
    } else if words.len() == 7 && has(words, 5, b"hex") {
        Some(StepForm::WriteHex)
    } else if words.len() == 8 && has(words, 5, b"fill") {
        Some(StepForm::WriteFill)
    } else {
        None
    }
}

#[tactic(auto, unfolding(crate::specs::Forms::bare_form))]
fn bare_form(words: &[&[u8]]) -> Option<StepForm>
    ensures { result ≡ bare_form (texts words.now) }
{
    if has(words, 2, b"need") {
        Some(StepForm::Need)
    } else if has(words, 2, b"have") {
        Some(StepForm::Have)
    } else if has(words, 2, b"restart") {
        Some(StepForm::Restart)
    } else if has(words, 2, b"exit") {
        Some(StepForm::Exit)
    } else if has(words, 2, b"finalize") {
        Some(StepForm::Finalize)
    } else {
        None
    }
}

/// The two calls that say whether the files are valid.
#[tactic(auto, unfolding(crate::specs::Forms::validity_form))]
fn validity_form(words: &[&[u8]]) -> Option<StepForm>
    ensures { result ≡ validity_form (texts words.now) }
{
    let valid = valid_word(words, 3)?;
    if has(words, 2, b"complete") {
        Some(StepForm::Complete { valid })
    } else if has(words, 2, b"restarted") {
        Some(StepForm::Restarted { valid })
    } else {
        None
    }
}

/// The form of the step, where the words are of one.
#[tactic(auto, unfolding(crate::specs::Forms::step_form))]
pub(crate) fn step_form(words: &[&[u8]]) -> Option<StepForm>
    ensures { result ≡ step_form (texts words.now) }
{
    if has(words, 2, b"start") {
        start_form(words)
    } else if has(words, 2, b"write") {
        write_form(words)
    } else if has(words, 2, b"read") {
        if words.len() == 6 {
            Some(StepForm::Read)
        } else {
            None
        }
    } else if has(words, 2, b"route") {
        if words.len() == 4 {
            Some(StepForm::Route)
        } else {
            None
        }
    } else if words.len() == 4 {
        validity_form(words)
    } else if words.len() == 3 {
        bare_form(words)
    } else {
        None
    }
}
