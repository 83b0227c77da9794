//! The values of a line behind the settings.
ghost use Rattle.std.specs.Prelude.{◌≡◌, []};
ghost use Rattle.scr_base.specs.Sets.{is_among};
ghost use Rattle.script_reader.specs.Reasons.{Gives, or_reason};
ghost use Rattle.script_reader.specs.Words.{texts};
ghost use Rattle.script_reader.specs.Values.{Size, size_of, ranks_of, devices_of, number_at, word_in, name_in, length_in, pick_in, times_in, id_in, great_in, fill_in, write_text, write_hex, write_fill, read_of, step_of, below, range_of, who_of, next_place, place_list, run_line, rank_line, turn_rank_line, turn_line, place_of, stop_line, lose_line, cut_line, admin_line, drop_line, current_line, checkpoints_in, halt_of, halt_line, scavenge_line, line_of};

use crate::form::{BodyForm, HaltForm, PlaceForm, stop_text};
use crate::line::{Line, RankStep};
use crate::number::{GREATEST, bytes_in_hex, medium_in, number_in, small_in};
use crate::reason::{LineError, Reason};
use crate::script::{Item, TurnLine};
use crate::step_form::StepForm;
use crate::words::{cut, is, pieces_of, word_at};
use admin::Command;
use ckpt_model::{StopLine, StopPlace};
use scr_base::{Actor, Bytes, Content, HaltWord, Name, NameError, Shape, Step, Word, WordError};
use std::alloc::Global;

/// The greatest place, length and size of a file.
const LONGEST_FILE: u32 = 1_048_576;

pub(crate) fn ranks_of(shape: &Shape) -> u8
    ensures { result ≡ ranks_of (size_of shape.now) }
{
    shape.nodes * shape.ranks
}

fn devices_of(shape: &Shape) -> u8
    ensures { result ≡ devices_of (size_of shape.now) }
{
    shape.nodes + shape.spares
}

#[tactic(auto, unfolding(crate::specs::Values::word_in))]
fn word_in(alloc: Global, words: &[&[u8]], place: usize) -> Result<Word, LineError>
    ensures { Gives (λ w. w) result (word_in (texts words.now) place) }
{
    match Word::read(alloc, word_at(words, place)) {
        Ok(word) => Ok(word),
        Err(WordError::BadWord) => Err(LineError::Refused(Reason::Word)),
        Err(WordError::Memory) => Err(LineError::Memory),
    }
}

#[tactic(auto, unfolding(crate::specs::Values::name_in))]
fn name_in(alloc: Global, words: &[&[u8]], place: usize) -> Result<Name, LineError>
    ensures { Gives (λ n. n) result (name_in (texts words.now) place) }
{
    match Name::read(alloc, word_at(words, place)) {
        Ok(name) => Ok(name),
        Err(NameError::BadName) => Err(LineError::Refused(Reason::Word)),
        Err(NameError::Memory) => Err(LineError::Memory),
    }
}

/// A number below 256.
#[tactic(auto, unfolding(crate::specs::Values::number_at))]
pub(crate) fn small_at(words: &[&[u8]], place: usize) -> Result<u8, Reason>
    ensures { result ≡ number_at 0 255 (texts words.now) place }
{
    small_in(word_at(words, place), 0, 255).ok_or(Reason::Number)
}

#[tactic(auto, unfolding(crate::specs::Values::length_in, crate::specs::Values::number_at))]
fn length_in(words: &[&[u8]], place: usize) -> Result<u32, Reason>
    ensures { result ≡ length_in (texts words.now) place }
{
    medium_in(word_at(words, place), 0, LONGEST_FILE).ok_or(Reason::Number)
}

#[tactic(auto, unfolding(crate::specs::Values::pick_in, crate::specs::Values::number_at))]
fn pick_in(words: &[&[u8]], place: usize) -> Result<u8, Reason>
    ensures { result ≡ pick_in (texts words.now) place }
{
    small_in(word_at(words, place), 0, 3).ok_or(Reason::Number)
}

#[tactic(auto, unfolding(crate::specs::Values::times_in, crate::specs::Values::number_at))]
fn times_in(words: &[&[u8]], place: usize) -> Result<u32, Reason>
    ensures { result ≡ times_in (texts words.now) place }
{
    medium_in(word_at(words, place), 1, 1_000_000).ok_or(Reason::Number)
}

#[tactic(auto, unfolding(crate::specs::Values::id_in, crate::specs::Values::number_at))]
fn id_in(words: &[&[u8]], place: usize) -> Result<u32, Reason>
    ensures { result ≡ id_in (texts words.now) place }
{
    medium_in(word_at(words, place), 1, u32::MAX).ok_or(Reason::Number)
}

#[tactic(auto, unfolding(crate::specs::Values::great_in, crate::specs::Values::number_at))]
fn great_in(words: &[&[u8]], place: usize) -> Result<u64, Reason>
    ensures { result ≡ great_in (texts words.now) place }
{
    number_in(word_at(words, place), 0, GREATEST).ok_or(Reason::Number)
}

/// What a step writes: `text W`, `hex H` or `fill SEED LEN`; here all but the word.
#[tactic(auto, unfolding(crate::specs::Values::fill_in, crate::specs::Values::number_at))]
fn fill_in(words: &[&[u8]]) -> Result<Content, Reason>
    ensures { result ≡ fill_in (texts words.now) }
{
    let seed = small_at(words, 6)?;
    let len = length_in(words, 7)?;
    Ok(Content::Fill { seed, len })
}

#[tactic(auto, unfolding(crate::specs::Values::write_text))]
fn write_text(alloc: Global, words: &[&[u8]]) -> Result<Step, LineError>
    ensures { Gives (λ s. s) result (write_text (texts words.now)) }
{
    let at = length_in(words, 4)?;
    let name = word_in(alloc, words, 3)?;
    let content = Content::Text(word_in(alloc, words, 6)?);
    Ok(Step::Write { name, at, content })
}

#[tactic(auto, unfolding(crate::specs::Values::write_hex))]
fn write_hex(alloc: Global, words: &[&[u8]]) -> Result<Step, LineError>
    ensures { Gives (λ s. s) result (write_hex (texts words.now)) }
{
    let at = length_in(words, 4)?;
    let content = Content::Hex(bytes_in_hex(alloc, word_at(words, 6))?);
    let name = word_in(alloc, words, 3)?;
    Ok(Step::Write { name, at, content })
}

#[tactic(auto, unfolding(crate::specs::Values::write_fill))]
fn write_fill(alloc: Global, words: &[&[u8]]) -> Result<Step, LineError>
    ensures { Gives (λ s. s) result (write_fill (texts words.now)) }
{
    let at = length_in(words, 4)?;
    let content = fill_in(words)?;
    let name = word_in(alloc, words, 3)?;
    Ok(Step::Write { name, at, content })
}

#[tactic(auto, unfolding(crate::specs::Values::read_of))]
fn read_of(alloc: Global, words: &[&[u8]]) -> Result<Step, LineError>
    ensures { Gives (λ s. s) result (read_of (texts words.now)) }
{
    let at = length_in(words, 4)?;
    let len = length_in(words, 5)?;
    let name = word_in(alloc, words, 3)?;
    Ok(Step::Read { name, at, len })
}

#[tactic(auto, unfolding(crate::specs::Values::step_of))]
fn step_of(alloc: Global, form: StepForm, words: &[&[u8]]) -> Result<Step, LineError>
    ensures { Gives (λ s. s) result (step_of form (texts words.now)) }
{
    match form {
        StepForm::Need => Ok(Step::Need),
        StepForm::Start { flags } => Ok(Step::Start {
            name: word_in(alloc, words, 3)?,
            flags,
        }),
        StepForm::Route => Ok(Step::Route {
            name: word_in(alloc, words, 3)?,
        }),
        StepForm::WriteText => write_text(alloc, words),
        StepForm::WriteHex => write_hex(alloc, words),
        StepForm::WriteFill => write_fill(alloc, words),
        StepForm::Complete { valid } => Ok(Step::Complete { valid }),
        StepForm::Have => Ok(Step::Have),
        StepForm::Restart => Ok(Step::Restart),
        StepForm::Read => read_of(alloc, words),
        StepForm::Restarted { valid } => Ok(Step::Restarted { valid }),
        StepForm::Exit => Ok(Step::Exit),
        StepForm::Finalize => Ok(Step::Finalize),
    }
}

/// A number below a count.
#[tactic(auto, unfolding(crate::specs::Values::below))]
fn below(word: &[u8], count: u8) -> Option<u8>
    ensures { result ≡ below count word.now }
{
    if count == 0 {
        return None;
    }
    small_in(word, 0, count - 1)
}

/// The ranks from one to another, the first not above the last.
#[tactic(auto, unfolding(crate::specs::Values::range_of))]
fn range_of(first: &[u8], last: &[u8], ranks: u8) -> Option<(u8, u8)>
    ensures { result ≡ range_of ranks first.now last.now }
{
    let (first, last) = (below(first, ranks)?, below(last, ranks)?);
    if first <= last {
        Some((first, last))
    } else {
        None
    }
}

/// The first and the last of the ranks meant.
#[tactic(auto, unfolding(crate::specs::Values::who_of))]
fn who_of(word: &[u8], ranks: u8) -> Option<(u8, u8)>
    ensures { result ≡ who_of ranks word.now }
{
    if is(word, b"all") {
        return Some((0, ranks.saturating_sub(1)));
    }
    match cut(word, b'-') {
        Some((first, last)) => range_of(first, last, ranks),
        None => range_of(word, word, ranks),
    }
}

#[tactic(auto, unfolding(crate::specs::Values::rank_line))]
fn rank_line(
    alloc: Global,
    shape: &Shape,
    form: StepForm,
    words: &[&[u8]],
) -> Result<Line, LineError>
    ensures { Gives (λ l. l) result (rank_line (ranks_of (size_of shape.now)) form (texts words.now)) }
{
    let step = step_of(alloc, form, words)?;
    let (first, last) = who_of(word_at(words, 1), ranks_of(shape)).ok_or(Reason::Rank)?;
    Ok(Line::Rank {
        given: RankStep { first, last, step },
    })
}

/// The node of a word, below a number and none of those before.
#[tactic(auto, unfolding(crate::specs::Values::next_place))]
fn next_place(word: &[u8], devices: u8, before: &[u8]) -> Option<u8>
    ensures { result ≡ next_place devices before.now word.now }
{
    let place = below(word, devices)?;
    if is_among(place, before) {
        None
    } else {
        Some(place)
    }
}

/// The nodes of the words, each below a number and none twice.
#[tactic(auto, unfolding(crate::specs::Values::place_list))]
fn place_list(alloc: Global, words: &[&[u8]], devices: u8) -> Result<Vec<u8>, LineError>
    ensures { Gives (λ v. v.items) result (or_reason Reason.Node (place_list devices [] (texts words.now))) }
{
    let mut places = Vec::new(alloc);
    for word in words {
        let Some(place) = next_place(word, devices, &places) else {
            return Err(LineError::Refused(Reason::Node));
        };
        places.push(place)?;
    }
    Ok(places)
}

fn is_among(place: u8, places: &[u8]) -> bool
    ensures { result ≡ is_among place places.now }
{
    places.iter().any(|other| *other == place)
}

#[tactic(auto, unfolding(crate::specs::Values::run_line))]
fn run_line(alloc: Global, shape: &Shape, words: &[&[u8]]) -> Result<Line, LineError>
    ensures { Gives (λ l. l) result (run_line (size_of shape.now) (texts words.now)) }
{
    let pieces = pieces_of(alloc, word_at(words, 1), b',')?;
    if pieces.len() != shape.nodes as usize {
        return Err(LineError::Refused(Reason::Node));
    }
    let places = place_list(alloc, &pieces, devices_of(shape))?;
    Ok(Line::Run {
        places: Bytes::of(places),
    })
}

#[tactic(auto, unfolding(crate::specs::Values::turn_rank_line))]
fn turn_rank_line(shape: &Shape, words: &[&[u8]]) -> Result<Line, Reason>
    ensures { result ≡ turn_rank_line (ranks_of (size_of shape.now)) (texts words.now) }
{
    let times = times_in(words, 3)?;
    let rank = below(word_at(words, 2), ranks_of(shape)).ok_or(Reason::Rank)?;
    let actor = Actor::Rank { rank };
    Ok(Line::Turn {
        turn: TurnLine { actor, times },
    })
}

#[tactic(auto, unfolding(crate::specs::Values::turn_line))]
fn turn_line(actor: Actor, words: &[&[u8]]) -> Result<Line, Reason>
    ensures { result ≡ turn_line actor (texts words.now) }
{
    let times = times_in(words, 2)?;
    Ok(Line::Turn {
        turn: TurnLine { actor, times },
    })
}

#[tactic(auto, unfolding(crate::specs::Values::place_of))]
fn place_of(
    alloc: Global,
    form: PlaceForm,
    line: &[u8],
    words: &[&[u8]],
) -> Result<StopPlace, LineError>
    ensures { Gives (λ p. p) result (place_of form line.now (texts words.now)) }
{
    match form {
        PlaceForm::End => Ok(StopPlace::End),
        PlaceForm::After => Ok(StopPlace::After {
            moves: great_in(words, 3)?,
        }),
        PlaceForm::On => Ok(StopPlace::On {
            text: Bytes::of(Vec::from_slice(alloc, stop_text(line))?),
        }),
    }
}

#[tactic(auto, unfolding(crate::specs::Values::stop_line))]
fn stop_line(
    alloc: Global,
    form: PlaceForm,
    line: &[u8],
    words: &[&[u8]],
) -> Result<Line, LineError>
    ensures { Gives (λ l. l) result (stop_line form line.now (texts words.now)) }
{
    let pick = pick_in(words, 1)?;
    let place = place_of(alloc, form, line, words)?;
    Ok(Line::Stop {
        stop: StopLine { pick, place },
    })
}

#[tactic(auto, unfolding(crate::specs::Values::lose_line))]
fn lose_line(shape: &Shape, words: &[&[u8]]) -> Result<Line, Reason>
    ensures { result ≡ lose_line (devices_of (size_of shape.now)) (texts words.now) }
{
    let node = below(word_at(words, 1), devices_of(shape)).ok_or(Reason::Node)?;
    Ok(Line::Item {
        item: Item::Lose { node },
    })
}

#[tactic(auto, unfolding(crate::specs::Values::cut_line))]
fn cut_line(words: &[&[u8]]) -> Result<Line, Reason>
    ensures { result ≡ cut_line (texts words.now) }
{
    let pick = pick_in(words, 2)?;
    let budget = great_in(words, 3)?;
    Ok(Line::Item {
        item: Item::Scavenge { pick, budget },
    })
}

fn admin_line(command: Command) -> Line
    ensures { result ≡ admin_line command }
{
    Line::Item {
        item: Item::Admin { command },
    }
}

#[tactic(auto, unfolding(crate::specs::Values::checkpoints_in, crate::specs::Values::number_at))]
fn checkpoints_in(words: &[&[u8]]) -> Result<HaltWord, Reason>
    ensures { result ≡ checkpoints_in (texts words.now) }
{
    let left = medium_in(word_at(words, 2), 0, u32::MAX).ok_or(Reason::Number)?;
    Ok(HaltWord::Checkpoints { left })
}

#[tactic(auto, unfolding(crate::specs::Values::halt_of))]
fn halt_of(alloc: Global, form: HaltForm, words: &[&[u8]]) -> Result<HaltWord, LineError>
    ensures { Gives (λ h. h) result (halt_of form (texts words.now)) }
{
    match form {
        HaltForm::Checkpoints => Ok(checkpoints_in(words)?),
        HaltForm::Before => Ok(HaltWord::Before {
            at: great_in(words, 2)?,
        }),
        HaltForm::After => Ok(HaltWord::After {
            at: great_in(words, 2)?,
        }),
        HaltForm::Seconds => Ok(HaltWord::Seconds {
            seconds: great_in(words, 2)?,
        }),
        HaltForm::Reason => Ok(HaltWord::Reason {
            name: name_in(alloc, words, 2)?,
        }),
    }
}

#[tactic(auto, unfolding(crate::specs::Values::drop_line))]
fn drop_line(words: &[&[u8]]) -> Result<Line, Reason>
    ensures { result ≡ drop_line (texts words.now) }
{
    let id = id_in(words, 2)?;
    Ok(admin_line(Command::IndexDrop { id }))
}

#[tactic(auto, unfolding(crate::specs::Values::current_line))]
fn current_line(words: &[&[u8]]) -> Result<Line, Reason>
    ensures { result ≡ current_line (texts words.now) }
{
    let id = id_in(words, 2)?;
    Ok(admin_line(Command::IndexCurrent { id }))
}

#[tactic(auto, unfolding(crate::specs::Values::halt_line))]
fn halt_line(alloc: Global, form: HaltForm, words: &[&[u8]]) -> Result<Line, LineError>
    ensures { Gives (λ l. l) result (halt_line form (texts words.now)) }
{
    let halt = halt_of(alloc, form, words)?;
    Ok(admin_line(Command::HaltSet { halt }))
}

/// A scavenge that nothing stops.
fn scavenge_line() -> Line
    ensures { result ≡ scavenge_line }
{
    let (pick, budget) = (0, u64::MAX);
    Line::Item {
        item: Item::Scavenge { pick, budget },
    }
}

/// The line of this form, with its values.
#[tactic(auto, unfolding(crate::specs::Values::line_of))]
pub(crate) fn line_of(
    alloc: Global,
    shape: &Shape,
    form: BodyForm,
    line: &[u8],
    words: &[&[u8]],
) -> Result<Line, LineError>
    ensures { Gives (λ l. l) result (line_of (size_of shape.now) form line.now (texts words.now)) }
{
    match form {
        BodyForm::Run => run_line(alloc, shape, words),
        BodyForm::Rank { step } => rank_line(alloc, shape, step, words),
        BodyForm::TurnRank => Ok(turn_rank_line(shape, words)?),
        BodyForm::Turn { actor } => Ok(turn_line(actor, words)?),
        BodyForm::Stop { place } => stop_line(alloc, place, line, words),
        BodyForm::Lose => Ok(lose_line(shape, words)?),
        BodyForm::Scavenge => Ok(scavenge_line()),
        BodyForm::ScavengeCut => Ok(cut_line(words)?),
        BodyForm::IndexList => Ok(admin_line(Command::IndexList)),
        BodyForm::IndexDrop => Ok(drop_line(words)?),
        BodyForm::IndexCurrent => Ok(current_line(words)?),
        BodyForm::Halt { word } => halt_line(alloc, word, words),
        BodyForm::HaltClear => Ok(admin_line(Command::HaltClear)),
    }
}
