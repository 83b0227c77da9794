//! The programs of a run, and what they cost.
ghost use Rattle.std.specs.Prelude.{◌≡◌, ◌≤◌, IfOk, IfSome};
ghost use Rattle.script_reader.specs.Run.{program_of, programs_of, content_len, written_by, read_by, cost_of, spent};

use crate::line::RankStep;
use crate::routes::is_meant;
use scr_base::{Content, Copies, Items, Memory, Step};
use std::alloc::Global;

/// What a script may still have.
#[derive(Clone, Copy, Debug)]
pub struct Left {
    pub runs: u64,
    pub steps: u64,
    pub turns: u64,
    /// Bytes that are written, over all ranks.
    pub written: u64,
    /// Bytes that reads ask for, over all ranks.
    pub read: u64,
}

/// What a step costs, over the ranks meant.
#[derive(Clone, Copy, Debug)]
pub struct Cost {
    pub steps: u64,
    pub written: u64,
    pub read: u64,
}

/// The greatest place in a file.
const LONGEST_FILE: u64 = 1_048_576;

/// The program of a rank: the steps that mean it, and End.
fn program_of(alloc: Global, steps: &[RankStep], rank: u8) -> Result<Items<Step>, Memory>
    ensures { IfOk result (λ program. program ≡ program_of steps.now rank) }
{
    let mut program = Vec::new(alloc);
    for given in steps {
        if is_meant(given.first, given.last, rank) {
            program.push(given.step.copy(alloc)?)?;
        }
    }
    program.push(Step::End)?;
    Ok(Items::of(program))
}

/// The programs of that many ranks.
pub(crate) fn programs_of(
    alloc: Global,
    steps: &[RankStep],
    ranks: u8,
) -> Result<Items<Items<Step>>, Memory>
    ensures { IfOk result (λ programs. programs ≡ programs_of steps.now ranks) }
{
    let mut programs = Vec::new(alloc);
    for rank in 0..ranks {
        programs.push(program_of(alloc, steps, rank)?)?;
    }
    Ok(Items::of(programs))
}

fn content_len(content: &Content) -> usize
    ensures { result ≡ content_len content.now }
{
    match content {
        Content::Text(word) => word.bytes().len(),
        Content::Hex(bytes) => bytes.list().len(),
        Content::Fill { seed: _, len } => *len as usize,
    }
}

/// The bytes that a rank writes by the step, where it doesn't end past the longest file.
fn written_by(step: &Step) -> Option<u64>
    ensures written { result ≡ written_by step.now }
    ensures small { IfSome result (λ n. n ≤ 1048576) }
{
    match step {
        Step::Write {
            name: _,
            at,
            content,
        } => {
            let len = content_len(content) as u64;
            if len <= LONGEST_FILE && *at as u64 + len <= LONGEST_FILE {
                Some(len)
            } else {
                None
            }
        }
        _ => Some(0),
    }
}

/// The bytes that a rank asks for by the step.
fn read_by(step: &Step) -> u32
    ensures { result ≡ read_by step.now }
{
    match step {
        Step::Read {
            name: _,
            at: _,
            len,
        } => *len,
        _ => 0,
    }
}

/// What the step costs, where it doesn't end past the longest file.
#[tactic(auto, unfolding(crate::specs::Run::cost_of))]
pub(crate) fn cost_of(given: &RankStep) -> Option<Cost>
    ensures { result ≡ cost_of given.now }
{
    let bytes = written_by(&given.step)?;
    let steps = given.last.saturating_sub(given.first) as u64 + 1;
    let (written, read) = (steps * bytes, steps * read_by(&given.step) as u64);
    Some(Cost {
        steps,
        written,
        read,
    })
}

/// What is left behind the step, where there was enough.
#[tactic(auto, unfolding(crate::specs::Run::spent))]
pub(crate) fn spent(left: Left, cost: Cost) -> Option<Left>
    ensures { result ≡ spent left cost }
{
    if cost.steps <= left.steps && cost.written <= left.written && cost.read <= left.read {
        Some(Left {
            runs: left.runs,
            steps: left.steps - cost.steps,
            turns: left.turns,
            written: left.written - cost.written,
            read: left.read - cost.read,
        })
    } else {
        None
    }
}
