//! Reads one line after another.
ghost use Rattle.std.specs.Prelude.{◌≡◌, ◌==◌};
ghost use Rattle.std.specs.List.{list_all};
ghost use Rattle.script_reader.specs.Progress.{is_text, is_skipped, is_before, is_settings, is_between, is_ranks, is_turns, is_open, allows_body, allows, is_site_form, repeats, is_body};

use crate::form::{BodyForm, Form, Key, form_of};
use crate::line::{Line, RankStep};
use crate::reason::{LineError, Reason};
use crate::routes::{Routes, no_routes, note_step, passes_routes};
use crate::run::{Left, cost_of, programs_of, spent};
use crate::script::{Item, RunItem, TurnLine};
use crate::settings::{Settings, config_of, is_set, no_settings, set_by};
use crate::stage::Stage;
use crate::values::{line_of, ranks_of, small_at};
use crate::words::{pieces_of, word_at};
use ckpt_model::StopLine;
use scr_base::{Bytes, Items, Shape};
use std::alloc::Global;
use std::mem;

/// What was read so far.
#[derive(Debug, Drop)]
pub struct Reader {
    pub shape: Shape,
    pub settings: Settings,
    pub stage: Stage,
    pub items: Vec<Item>,
    /// The open run.
    pub places: Bytes,
    pub steps: Vec<RankStep>,
    pub turns: Vec<TurnLine>,
    pub routes: Vec<Routes>,
    pub left: Left,
}

fn is_text(byte: u8) -> bool
    ensures { result ≡ is_text byte }
{
    byte >= 32 && byte <= 126
}

fn has_text(line: &[u8]) -> bool
    ensures { result ≡ list_all is_text line.now }
{
    line.iter().all(|byte| is_text(*byte))
}

fn is_skipped(line: &[u8]) -> bool
    ensures { result ≡ is_skipped line.now }
{
    match line {
        [] => true,
        [first, ..] => *first == b'#',
    }
}

pub(crate) fn is_before(stage: Stage) -> bool
    ensures { result ≡ is_before stage }
{
    matches!(stage, Stage::Before)
}

fn is_settings(stage: Stage) -> bool
    ensures { result ≡ is_settings stage }
{
    matches!(stage, Stage::Settings)
}

fn is_between(stage: Stage) -> bool
    ensures { result ≡ is_between stage }
{
    matches!(stage, Stage::Between)
}

fn is_ranks(stage: Stage) -> bool
    ensures { result ≡ is_ranks stage }
{
    matches!(stage, Stage::Ranks)
}

pub(crate) fn is_open(stage: Stage) -> bool
    ensures { result ≡ is_open stage }
{
    matches!(stage, Stage::Ranks | Stage::Turns)
}

/// Whether a line behind the settings may stand here.
#[tactic(auto, unfolding(crate::specs::Progress::allows_body))]
fn allows_body(stage: Stage, form: BodyForm) -> bool
    ensures { result ≡ allows_body stage form }
{
    match form {
        BodyForm::Rank { step: _ } => is_ranks(stage),
        BodyForm::TurnRank => is_open(stage),
        BodyForm::Turn { actor: _ } => is_open(stage),
        BodyForm::Stop { place: _ } => is_open(stage),
        _ => is_settings(stage) || is_between(stage),
    }
}

/// Whether a line behind the site's may stand here.
#[tactic(auto, unfolding(crate::specs::Progress::allows))]
fn allows(stage: Stage, form: Form) -> bool
    ensures { result ≡ allows stage form }
{
    match form {
        Form::Site => false,
        Form::Set { key: _ } => is_settings(stage),
        Form::Body { form } => allows_body(stage, form),
    }
}

fn is_site_form(form: Form) -> bool
    ensures { result ≡ is_site_form form }
{
    matches!(form, Form::Site)
}

fn is_body(form: Form) -> bool
    ensures { result ≡ is_body form }
{
    matches!(form, Form::Body { form: _ })
}

fn repeats(settings: &Settings, form: Form) -> bool
    ensures { result ≡ repeats settings.now form }
{
    match form {
        Form::Set { key } => is_set(settings, key),
        _ => false,
    }
}

impl Reader {
    ghost use Rattle.std.specs.Prelude.{◌≡◌};
    ghost use Rattle.script_reader.specs.Reasons.{Gives};
    ghost use Rattle.script_reader.specs.Words.{texts};
    ghost use Rattle.script_reader.specs.Progress.{start, misfits, order_fault, site_taken, setting_taken, run_taken, step_taken, turn_taken, stop_taken, item_taken, line_taken, body_taken, form_taken, words_taken, after_line};
    ghost use Rattle.script_reader.specs.Readers.{progress_of, Takes, TakesAtOnce, TakesAll};

    /// Before the first line.
    pub(crate) fn new(alloc: Global) -> Reader
        ensures { progress_of result ≡ start }
    {
        let left = Left {
            runs: 256,
            steps: 65_536,
            turns: 1_000_000,
            written: 67_108_864,
            read: 67_108_864,
        };
        Reader {
            shape: Shape {
                nodes: 1,
                ranks: 1,
                spares: 0,
            },
            settings: no_settings(),
            stage: Stage::Before,
            items: Vec::new(alloc),
            places: Bytes::of(Vec::new(alloc)),
            steps: Vec::new(alloc),
            turns: Vec::new(alloc),
            routes: Vec::new(alloc),
            left,
        }
    }

    /// Whether the line is the first one behind the settings, and the scheme doesn't fit the groups.
    fn misfits(&self, form: Form) -> bool
        ensures { result ≡ misfits (progress_of self.now) form }
    {
        is_body(form) && is_settings(self.stage) && config_of(&self.settings, self.shape).is_none()
    }

    /// Why a line of this form can't stand here.
    #[tactic(auto, unfolding(crate::specs::Progress::order_fault))]
    fn order_fault(&self, form: Form) -> Option<Reason>
        ensures { result ≡ order_fault (progress_of self.now) form }
    {
        if is_before(self.stage) {
            if is_site_form(form) {
                None
            } else {
                Some(Reason::NoSite)
            }
        } else if !allows(self.stage, form) {
            Some(Reason::Order)
        } else if repeats(&self.settings, form) {
            Some(Reason::Repeated)
        } else if self.misfits(form) {
            Some(Reason::Scheme)
        } else {
            None
        }
    }

    #[tactic(auto, unfolding(crate::specs::Progress::site_taken))]
    fn take_site(&mut self, words: &[&[u8]]) -> Result<(), Reason>
        ensures { TakesAtOnce (site_taken (progress_of self.old) (texts words.now)) (progress_of self.new) result }
    {
        let nodes = small_at(words, 1)?;
        let ranks = small_at(words, 2)?;
        let spares = small_at(words, 3)?;
        let Some(shape) = Shape::new(nodes, ranks, spares) else {
            return Err(Reason::Number);
        };
        self.shape = shape;
        self.stage = Stage::Settings;
        Ok(())
    }

    #[tactic(auto, unfolding(crate::specs::Progress::setting_taken))]
    fn take_setting(&mut self, key: Key, words: &[&[u8]]) -> Result<(), Reason>
        ensures { TakesAtOnce (setting_taken (progress_of self.old) key (texts words.now)) (progress_of self.new) result }
    {
        let Some(settings) = set_by(self.settings, key, word_at(words, 2)) else {
            return Err(Reason::Number);
        };
        self.settings = settings;
        Ok(())
    }

    #[tactic(auto, unfolding(crate::specs::Progress::run_taken))]
    fn begin_run(&mut self, alloc: Global, places: Bytes) -> Result<(), LineError>
        ensures { Takes (run_taken (progress_of self.old) places) (progress_of self.new) result }
    {
        if self.left.runs == 0 {
            return Err(LineError::Refused(Reason::Limit));
        }
        self.routes = no_routes(alloc, ranks_of(&self.shape))?;
        self.left.runs -= 1;
        self.places = places;
        self.stage = Stage::Ranks;
        Ok(())
    }

    #[tactic(auto, unfolding(crate::specs::Progress::step_taken))]
    fn take_step(&mut self, alloc: Global, given: RankStep) -> Result<(), LineError>
        ensures { Takes (step_taken (progress_of self.old) given) (progress_of self.new) result }
    {
        let Some(cost) = cost_of(&given) else {
            return Err(LineError::Refused(Reason::FileEnd));
        };
        if passes_routes(&self.routes, &given) {
            return Err(LineError::Refused(Reason::Routes));
        }
        let Some(left) = spent(self.left, cost) else {
            return Err(LineError::Refused(Reason::Limit));
        };
        note_step(alloc, &mut self.routes, &given)?;
        self.steps.push(given)?;
        self.left = left;
        Ok(())
    }

    #[tactic(auto, unfolding(crate::specs::Progress::turn_taken))]
    fn take_turn(&mut self, turn: TurnLine) -> Result<(), LineError>
        ensures { Takes (turn_taken (progress_of self.old) turn) (progress_of self.new) result }
    {
        if turn.times as u64 > self.left.turns {
            return Err(LineError::Refused(Reason::Limit));
        }
        self.turns.push(turn)?;
        self.left.turns -= turn.times as u64;
        self.stage = Stage::Turns;
        Ok(())
    }

    fn end_run(&mut self, alloc: Global, stop: StopLine) -> Result<(), LineError>
        ensures { TakesAll (stop_taken (progress_of self.old) stop) (progress_of self.new) result }
    {
        let programs = programs_of(alloc, &self.steps, ranks_of(&self.shape))?;
        let places = mem::replace(&mut self.places, Bytes::of(Vec::new(alloc)));
        let turns = Items::of(mem::replace(&mut self.turns, Vec::new(alloc)));
        let run = RunItem {
            places,
            programs,
            turns,
            stop,
        };
        self.items.push(Item::Run { run })?;
        self.steps = Vec::new(alloc);
        self.routes = Vec::new(alloc);
        self.stage = Stage::Between;
        Ok(())
    }

    fn take_item(&mut self, item: Item) -> Result<(), LineError>
        ensures { TakesAll (item_taken (progress_of self.old) item) (progress_of self.new) result }
    {
        self.items.push(item)?;
        self.stage = Stage::Between;
        Ok(())
    }

    #[tactic(auto, unfolding(crate::specs::Progress::line_taken))]
    fn take(&mut self, alloc: Global, line: Line) -> Result<(), LineError>
        ensures { Takes (line_taken (progress_of self.old) line) (progress_of self.new) result }
    {
        match line {
            Line::Run { places } => self.begin_run(alloc, places),
            Line::Rank { given } => self.take_step(alloc, given),
            Line::Turn { turn } => self.take_turn(turn),
            Line::Stop { stop } => self.end_run(alloc, stop),
            Line::Item { item } => self.take_item(item),
        }
    }

    #[tactic(auto, unfolding(crate::specs::Progress::body_taken))]
    fn take_body(
        &mut self,
        alloc: Global,
        form: BodyForm,
        text: &[u8],
        words: &[&[u8]],
    ) -> Result<(), LineError>
        ensures { Takes (body_taken (progress_of self.old) form text.now (texts words.now)) (progress_of self.new) result }
    {
        let line = line_of(alloc, &self.shape, form, text, words)?;
        self.take(alloc, line)
    }

    #[tactic(auto, unfolding(crate::specs::Progress::form_taken))]
    fn take_form(
        &mut self,
        alloc: Global,
        form: Form,
        text: &[u8],
        words: &[&[u8]],
    ) -> Result<(), LineError>
        ensures { Takes (form_taken (progress_of self.old) form text.now (texts words.now)) (progress_of self.new) result }
    {
        match form {
            Form::Site => Ok(self.take_site(words)?),
            Form::Set { key } => Ok(self.take_setting(key, words)?),
            Form::Body { form } => self.take_body(alloc, form, text, words),
        }
    }

    #[tactic(auto, unfolding(crate::specs::Progress::words_taken))]
    fn take_words(&mut self, alloc: Global, text: &[u8], words: &[&[u8]]) -> Result<(), LineError>
        ensures { Takes (words_taken (progress_of self.old) text.now (texts words.now)) (progress_of self.new) result }
    {
        let Some(form) = form_of(text, words) else {
            return Err(LineError::Refused(Reason::Form));
        };
        if let Some(reason) = self.order_fault(form) {
            return Err(LineError::Refused(reason));
        }
        self.take_form(alloc, form, text, words)
    }

    /// Reads the next line, without its line feed.
    #[tactic(auto, unfolding(crate::specs::Progress::after_line))]
    pub(crate) fn read_line(&mut self, alloc: Global, text: &[u8]) -> Result<(), LineError>
        ensures { Takes (after_line (progress_of self.old) text.now) (progress_of self.new) result }
    {
        if !has_text(text) {
            return Err(LineError::Refused(Reason::Byte));
        }
        if is_skipped(text) {
            return Ok(());
        }
        let words = pieces_of(alloc, text, b' ')?;
        self.take_words(alloc, text, &words)
    }
}
