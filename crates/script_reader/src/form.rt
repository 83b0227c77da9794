//! The forms of a line.
ghost use Rattle.std.specs.Prelude.{◌≡◌};
ghost use Rattle.script_reader.specs.Words.{texts};
ghost use Rattle.script_reader.specs.Forms.{sized, scheme_word, key_of, set_form, rank_form, turn_form, stop_text, stop_form, scavenge_form, index_form, halt_word, halt_form, between_form, body_form, form_of};

use crate::step_form::{StepForm, step_form};
use crate::words::{behind_word, has, has_empty};
use scr_base::Actor;

/// The scheme of a setting, before its shares are known.
#[derive(Clone, Copy, Debug, PartialEq, Eq)]
pub enum SchemeWord {
    Single,
    Partner,
    Xor,
    Rs,
}

/// What a `set` line sets.
#[derive(Clone, Copy, Debug, PartialEq, Eq)]
pub enum Key {
    Scheme { word: SchemeWord },
    Shares,
    Size,
    Cache,
    Flush,
    Interval,
}

/// Where a `stop` line wants the stop.
#[derive(Clone, Copy, Debug, PartialEq, Eq)]
pub enum PlaceForm {
    End,
    After,
    On,
}

/// Which condition a `halt` line sets.
#[derive(Clone, Copy, Debug, PartialEq, Eq)]
pub enum HaltForm {
    Checkpoints,
    Before,
    After,
    Seconds,
    Reason,
}

/// Which line it is, with those of its words that are fixed.
#[derive(Clone, Copy, Debug, PartialEq, Eq)]
pub enum Form {
    Site,
    Set { key: Key },
    /// A line behind the settings.
    Body { form: BodyForm },
}

/// Which line behind the settings it is.
#[derive(Clone, Copy, Debug, PartialEq, Eq)]
pub enum BodyForm {
    Run,
    Rank { step: StepForm },
    /// A rank's turns.
    TurnRank,
    /// The turns of another actor.
    Turn { actor: Actor },
    Stop { place: PlaceForm },
    Lose,
    Scavenge,
    ScavengeCut,
    IndexList,
    IndexDrop,
    IndexCurrent,
    Halt { word: HaltForm },
    HaltClear,
}

/// The form, where there are so many words.
#[tactic(auto, unfolding(crate::specs::Forms::sized))]
fn sized(words: &[&[u8]], count: usize, form: BodyForm) -> Option<BodyForm>
    ensures { result ≡ sized (texts words.now) count form }
{
    if words.len() == count {
        Some(form)
    } else {
        None
    }
}

#[tactic(auto, unfolding(crate::specs::Forms::scheme_word))]
fn scheme_word(words: &[&[u8]]) -> Option<Key>
    ensures { result ≡ scheme_word (texts words.now) }
{
    if has(words, 2, b"single") {
        Some(Key::Scheme {
            word: SchemeWord::Single,
        })
    } else if has(words, 2, b"partner") {
        Some(Key::Scheme {
            word: SchemeWord::Partner,
        })
    } else if has(words, 2, b"xor") {
        Some(Key::Scheme {
            word: SchemeWord::Xor,
        })
    } else if has(words, 2, b"rs") {
        Some(Key::Scheme {
            word: SchemeWord::Rs,
        })
    } else {
        None
    }
}

#[tactic(auto, unfolding(crate::specs::Forms::key_of))]
fn key_of(words: &[&[u8]]) -> Option<Key>
    ensures { result ≡ key_of (texts words.now) }
{
    if has(words, 1, b"scheme") {
        scheme_word(words)
    } else if has(words, 1, b"shares") {
        Some(Key::Shares)
    } else if has(words, 1, b"size") {
        Some(Key::Size)
    } else if has(words, 1, b"cache") {
        Some(Key::Cache)
    } else if has(words, 1, b"flush") {
        Some(Key::Flush)
    } else if has(words, 1, b"interval") {
        Some(Key::Interval)
    } else {
        None
    }
}

#[tactic(auto, unfolding(crate::specs::Forms::set_form))]
fn set_form(words: &[&[u8]]) -> Option<Form>
    ensures { result ≡ set_form (texts words.now) }
{
    if words.len() != 3 {
        return None;
    }
    Some(Form::Set {
        key: key_of(words)?,
    })
}

#[tactic(auto, unfolding(crate::specs::Forms::rank_form))]
fn rank_form(words: &[&[u8]]) -> Option<BodyForm>
    ensures { result ≡ rank_form (texts words.now) }
{
    Some(BodyForm::Rank {
        step: step_form(words)?,
    })
}

#[tactic(auto, unfolding(crate::specs::Forms::turn_form))]
fn turn_form(words: &[&[u8]]) -> Option<BodyForm>
    ensures { result ≡ turn_form (texts words.now) }
{
    if has(words, 1, b"rank") {
        sized(words, 4, BodyForm::TurnRank)
    } else if has(words, 1, b"recoverer") {
        sized(
            words,
            3,
            BodyForm::Turn {
                actor: Actor::Recoverer,
            },
        )
    } else if has(words, 1, b"encoder") {
        sized(
            words,
            3,
            BodyForm::Turn {
                actor: Actor::Encoder,
            },
        )
    } else if has(words, 1, b"flusher") {
        sized(
            words,
            3,
            BodyForm::Turn {
                actor: Actor::Flusher,
            },
        )
    } else if has(words, 1, b"evictor") {
        sized(
            words,
            3,
            BodyForm::Turn {
                actor: Actor::Evictor,
            },
        )
    } else {
        None
    }
}

/// The text for which a `stop` line waits: what stands behind its third word.
#[tactic(auto, unfolding(crate::specs::Forms::stop_text))]
pub(crate) fn stop_text(line: &[u8]) -> &[u8]
    ensures { result.now ≡ stop_text line.now }
{
    behind_word(behind_word(behind_word(line)))
}

#[tactic(auto, unfolding(crate::specs::Forms::stop_form))]
fn stop_form(line: &[u8], words: &[&[u8]]) -> Option<BodyForm>
    ensures { result ≡ stop_form line.now (texts words.now) }
{
    if has(words, 2, b"end") {
        sized(
            words,
            3,
            BodyForm::Stop {
                place: PlaceForm::End,
            },
        )
    } else if has(words, 2, b"after") {
        sized(
            words,
            4,
            BodyForm::Stop {
                place: PlaceForm::After,
            },
        )
    } else if has(words, 2, b"on") && words.len() >= 4 && stop_text(line).len() <= 200 {
        Some(BodyForm::Stop {
            place: PlaceForm::On,
        })
    } else {
        None
    }
}

#[tactic(auto, unfolding(crate::specs::Forms::scavenge_form))]
fn scavenge_form(words: &[&[u8]]) -> Option<BodyForm>
    ensures { result ≡ scavenge_form (texts words.now) }
{
    if has(words, 1, b"cut") {
        sized(words, 4, BodyForm::ScavengeCut)
    } else {
        sized(words, 1, BodyForm::Scavenge)
    }
}

#[tactic(auto, unfolding(crate::specs::Forms::index_form))]
fn index_form(words: &[&[u8]]) -> Option<BodyForm>
    ensures { result ≡ index_form (texts words.now) }
{
    if has(words, 1, b"list") {
        sized(words, 2, BodyForm::IndexList)
    } else if has(words, 1, b"drop") {
        sized(words, 3, BodyForm::IndexDrop)
    } else if has(words, 1, b"current") {
        sized(words, 3, BodyForm::IndexCurrent)
    } else {
        None
    }
}

#[tactic(auto, unfolding(crate::specs::Forms::halt_word))]
fn halt_word(words: &[&[u8]]) -> Option<HaltForm>
    ensures { result ≡ halt_word (texts words.now) }
{
    if has(words, 1, b"checkpoints") {
        Some(HaltForm::Checkpoints)
    } else if has(words, 1, b"before") {
        Some(HaltForm::Before)
    } else if has(words, 1, b"after") {
        Some(HaltForm::After)
    } else if has(words, 1, b"seconds") {
        Some(HaltForm::Seconds)
    } else if has(words, 1, b"reason") {
        Some(HaltForm::Reason)
    } else {
        None
    }
}

#[tactic(auto, unfolding(crate::specs::Forms::halt_form))]
fn halt_form(words: &[&[u8]]) -> Option<BodyForm>
    ensures { result ≡ halt_form (texts words.now) }
{
    if has(words, 1, b"clear") {
        return sized(words, 2, BodyForm::HaltClear);
    }
    let word = halt_word(words)?;
    sized(words, 3, BodyForm::Halt { word })
}

#[tactic(auto, unfolding(crate::specs::Forms::between_form))]
fn between_form(words: &[&[u8]]) -> Option<BodyForm>
    ensures { result ≡ between_form (texts words.now) }
{
    if has(words, 0, b"lose") {
        sized(words, 2, BodyForm::Lose)
    } else if has(words, 0, b"scavenge") {
        scavenge_form(words)
    } else if has(words, 0, b"index") {
        index_form(words)
    } else if has(words, 0, b"halt") {
        halt_form(words)
    } else {
        None
    }
}

#[tactic(auto, unfolding(crate::specs::Forms::body_form))]
fn body_form(line: &[u8], words: &[&[u8]]) -> Option<BodyForm>
    ensures { result ≡ body_form line.now (texts words.now) }
{
    if has(words, 0, b"run") {
        sized(words, 2, BodyForm::Run)
    } else if has(words, 0, b"rank") {
        rank_form(words)
    } else if has(words, 0, b"turn") {
        turn_form(words)
    } else if has(words, 0, b"stop") {
        stop_form(line, words)
    } else {
        between_form(words)
    }
}

/// The form of a line, where its words are of one.
#[tactic(auto, unfolding(crate::specs::Forms::form_of))]
pub(crate) fn form_of(line: &[u8], words: &[&[u8]]) -> Option<Form>
    ensures { result ≡ form_of line.now (texts words.now) }
{
    if has_empty(words) {
        None
    } else if has(words, 0, b"site") {
        if words.len() == 4 {
            Some(Form::Site)
        } else {
            None
        }
    } else if has(words, 0, b"set") {
        set_form(words)
    } else {
        Some(Form::Body {
            form: body_form(line, words)?,
        })
    }
}
