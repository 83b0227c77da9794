//! Reads a script whole.
ghost use Rattle.std.specs.Prelude.{◌≡◌, ◌≤◌, ◌∷◌, [], length};
ghost use Rattle.script_reader.specs.Reasons.{reason_number};
ghost use Rattle.script_reader.specs.Readers.{progress_of};
ghost use Rattle.script_reader.specs.Grammar.{Answers, IsRead, IsEnded, ReadsLines, error_at, lines_read};

use crate::reader::{Reader, is_before, is_open};
use crate::reason::{LineError, Reason};
use crate::script::Script;
use crate::settings::config_of;
use crate::words::place_of;
use scr_base::Items;
use std::alloc::Global;

/// The longest text, in bytes.
const LONGEST_TEXT: usize = 4_194_304;

/// Why a text is no script.
#[derive(Clone, Copy, Debug, PartialEq, Eq)]
pub enum ScriptError {
    /// The first faulty line, counted from 1, and in it the first reason, from 1 to 14. A text that is
    /// too long has its fault in line 0; a fault at the end of the text is in the line behind the last.
    Fault { line: u32, reason: u8 },
    /// There is no memory.
    Memory,
}

fn fault(line: u32, reason: Reason) -> ScriptError
    ensures { result ≡ ScriptError.Fault line (reason_number reason) }
{
    ScriptError::Fault {
        line,
        reason: reason.number(),
    }
}

fn at_line(line: u32, error: LineError) -> ScriptError
    ensures { result ≡ error_at line error }
{
    match error {
        LineError::Refused(reason) => fault(line, reason),
        LineError::Memory => ScriptError::Memory,
    }
}

/// The script of what was read.
#[tactic(auto, unfolding(crate::specs::Grammar::ended))]
fn end(reader: Reader) -> Result<Script, Reason>
    ensures { IsEnded (progress_of reader) result }
{
    if is_before(reader.stage) {
        return Err(Reason::NoSite);
    }
    if is_open(reader.stage) {
        return Err(Reason::Order);
    }
    let Some(config) = config_of(&reader.settings, reader.shape) else {
        return Err(Reason::Scheme);
    };
    Ok(Script {
        shape: reader.shape,
        config,
        items: Items::of(reader.items),
    })
}

/// Reads each line that ends, and gives what stands behind the last line feed, with its line's number.
fn read_lines<'a>(
    alloc: Global,
    reader: &mut Reader,
    text: &'a [u8],
) -> Result<(u32, &'a [u8]), ScriptError>
    requires { length text.now ≤ 4194304 }
    ensures { ReadsLines text.now (progress_of reader.old) (progress_of reader.new) result }
{
    let mut rest = text;
    let mut line = 1;
    while let Some(place) = place_of(rest, b'\n') {
        let (front, behind) = rest.split_at(place);
        if let Err(error) = reader.read_line(alloc, front) {
            return Err(at_line(line, error));
        }
        line += 1;
        rest = behind.split_at(1).1;
    }
    Ok((line, rest))
}

/// The script of what was read, where nothing stands behind the last line feed.
#[tactic(auto, unfolding(crate::specs::Grammar::lines_read))]
fn finish(reader: Reader, line: u32, rest: &[u8]) -> Result<Script, ScriptError>
    ensures { Answers (lines_read line (progress_of reader) (rest.now ∷ [])) result }
{
    if rest.len() > 0 {
        return Err(fault(line, Reason::Unended));
    }
    match end(reader) {
        Ok(script) => Ok(script),
        Err(reason) => Err(fault(line, reason)),
    }
}

/// Reads a script: see `docs/SCRIPT.md` for its lines and for the reasons of a fault.
#[tactic(auto, unfolding(crate::specs::Grammar::script_of))]
pub fn read_script(alloc: Global, bytes: &[u8]) -> Result<Script, ScriptError>
    ensures { IsRead bytes.now result }
{
    if bytes.len() > LONGEST_TEXT {
        return Err(fault(0, Reason::Limit));
    }
    let mut reader = Reader::new(alloc);
    match read_lines(alloc, &mut reader, bytes) {
        Ok((line, rest)) => finish(reader, line, rest),
        Err(error) => Err(error),
    }
}
