// From the words and the source to the script, or to the status with which the call ends.
ghost use Rattle.std.specs.Prelude.{◌≡◌, ◌<◌, ◌≤◌, ◌⊎◌, IfOk, IfErr, OnOk, IfSome, map, string_bytes};
ghost use Rattle.node_device.specs.Rack.{states_of};
ghost use Rattle.scr_replay.specs.Inputs.{IsSpent};
ghost use Rattle.scr_replay.specs.Statuses.{seen, EndsByUsage, EndsByRefusal, EndsBySourceFault, EndsBySinkFault, IsDone, IsEarlyFront, IsCut, EndsEarly, ComesToRun, Prints, Refuses, UnreadCause, IsUnread, Spells, IsBuilt, IsBuiltFrom};

use crate::built::is_built;
use crate::input::{Input, ReadError, read_input};
use crate::output::put_all;
use crate::playing::play_all;
use crate::refusal::{Refusal, refusal_line};
use crate::words::{USAGE, is_run};
use node_device::{Bay, Device, Ran};
use scr_base::{Clock, Memory, Sink, Source};
use script_reader::{Script, ScriptError, read_script};
use std::alloc::Global;

/// Replays the script that a source holds over a bay, and prints its history: the status, and the bay.
pub fn replay<S: Source, K: Sink, D: Device, C: Clock>(
    alloc: Global,
    words: &Vec<String>,
    source: &mut S,
    sink: &mut K,
    bay: Bay<D>,
    clock: &mut C,
) -> Ran<D>
    ensures usage { EndsByUsage (map (λ word. string_bytes word) words.now.items) (seen (S.left source.old) (S.fault_count source.old) (K.held sink.old) (K.fault_count sink.old)) (seen (S.left source.new) (S.fault_count source.new) (K.held sink.new) (K.fault_count sink.new)) result.status }
    ensures refusal { EndsByRefusal (map (λ word. string_bytes word) words.now.items) (seen (S.left source.old) (S.fault_count source.old) (K.held sink.old) (K.fault_count sink.old)) (seen (S.left source.new) (S.fault_count source.new) (K.held sink.new) (K.fault_count sink.new)) result.status }
    ensures source_fault { EndsBySourceFault (map (λ word. string_bytes word) words.now.items) (seen (S.left source.old) (S.fault_count source.old) (K.held sink.old) (K.fault_count sink.old)) (seen (S.left source.new) (S.fault_count source.new) (K.held sink.new) (K.fault_count sink.new)) result.status }
    ensures sink_fault { EndsBySinkFault (seen (S.left source.old) (S.fault_count source.old) (K.held sink.old) (K.fault_count sink.old)) (seen (S.left source.new) (S.fault_count source.new) (K.held sink.new) (K.fault_count sink.new)) result.status }
    ensures done { result.status ≡ 0 → IsDone (seen (S.left source.old) (S.fault_count source.old) (K.held sink.old) (K.fault_count sink.old)) (seen (S.left source.new) (S.fault_count source.new) (K.held sink.new) (K.fault_count sink.new)) (states_of D.state bay) (states_of D.state result.bay) (C.reading clock.old) (C.reading clock.new) }
    ensures front { 3 < result.status → IsEarlyFront (map (λ word. string_bytes word) words.now.items) (seen (S.left source.old) (S.fault_count source.old) (K.held sink.old) (K.fault_count sink.old)) (seen (S.left source.new) (S.fault_count source.new) (K.held sink.new) (K.fault_count sink.new)) ⊎ IsCut (seen (S.left source.old) (S.fault_count source.old) (K.held sink.old) (K.fault_count sink.old)) (seen (S.left source.new) (S.fault_count source.new) (K.held sink.new) (K.fault_count sink.new)) (states_of D.state bay) }
    ensures unchanged { 0 < result.status → result.status < 4 → result.bay ≡ bay }
    ensures known { result.status ≤ 5 }
{
    match script_or_status(alloc, words, source, sink) {
        Ok(script) => play_all(alloc, bay, &script, sink, clock),
        Err(status) => Ran { status, bay },
    }
}

/// Why no script is there.
#[derive(Clone, Copy, Debug, PartialEq, Eq)]
enum Unread {
    Refused(Refusal),
    Failed,
    Memory,
}

/// The script of a text, if it is built.
fn built_script(alloc: Global, text: &[u8]) -> Result<Script, Unread>
    ensures { IsBuiltFrom text.now result }
{
    match read_script(alloc, text) {
        Ok(script) => {
            if is_built(&script) {
                Ok(script)
            } else {
                Err(Unread::Refused(Refusal {
                    line: 0,
                    reason: 15,
                }))
            }
        }
        Err(ScriptError::Fault { line, reason }) => Err(Unread::Refused(Refusal { line, reason })),
        Err(ScriptError::Memory) => Err(Unread::Memory),
    }
}

/// Reads a source as the text of a script that is built.
fn read_source<S: Source>(alloc: Global, source: &mut S) -> Result<Script, Unread>
    ensures script { IfOk result (λ script. IfSome (S.left source.old) (Spells script)) }
    ensures built { IfOk result IsBuilt }
    ensures spent { OnOk result (IsSpent (S.left source.new)) }
    ensures refused { IsUnread (S.left source.old) result }
    ensures cause { UnreadCause (S.fault_count source.old) (S.fault_count source.new) result }
{
    match read_input(alloc, source) {
        Ok(Input::Whole(text)) => built_script(alloc, text.list()),
        Ok(Input::TooLong) => Err(Unread::Refused(Refusal {
            line: 0,
            reason: 11,
        })),
        Err(ReadError::Failed) => Err(Unread::Failed),
        Err(ReadError::Memory) => Err(Unread::Memory),
    }
}

/// Prints a line with which the call ends, and gives its status, or 4 at a fault of the sink.
fn end_with<K: Sink>(sink: &mut K, line: &[u8], status: u8) -> u8
    ensures { Prints (K.held sink.old) (K.held sink.new) (K.fault_count sink.old) (K.fault_count sink.new) line.now status result }
{
    match put_all(sink, line) {
        Ok(()) => status,
        Err(_) => 4,
    }
}

/// Prints why the text is refused, and gives the status.
fn refuse<K: Sink>(alloc: Global, sink: &mut K, refusal: Refusal) -> u8
    ensures { Refuses (K.held sink.old) (K.held sink.new) (K.fault_count sink.old) (K.fault_count sink.new) refusal result }
{
    match refusal_line(alloc, refusal) {
        Ok(line) => end_with(sink, line.as_slice(), 2),
        Err(Memory) => 5,
    }
}

/// The script, or the status with which the call ends, where what belongs to it is printed.
fn script_or_status<S: Source, K: Sink>(
    alloc: Global,
    words: &Vec<String>,
    source: &mut S,
    sink: &mut K,
) -> Result<Script, u8>
    ensures early { IfErr result (EndsEarly (map (λ word. string_bytes word) words.now.items) (seen (S.left source.old) (S.fault_count source.old) (K.held sink.old) (K.fault_count sink.old)) (seen (S.left source.new) (S.fault_count source.new) (K.held sink.new) (K.fault_count sink.new))) }
    ensures run { IfOk result (ComesToRun (map (λ word. string_bytes word) words.now.items) (seen (S.left source.old) (S.fault_count source.old) (K.held sink.old) (K.fault_count sink.old)) (seen (S.left source.new) (S.fault_count source.new) (K.held sink.new) (K.fault_count sink.new))) }
{
    if !is_run(words) {
        return Err(end_with(sink, USAGE, 1));
    }
    match read_source(alloc, source) {
        Ok(script) => Ok(script),
        Err(Unread::Refused(refusal)) => Err(refuse(alloc, sink, refusal)),
        Err(Unread::Failed) => Err(3),
        Err(Unread::Memory) => Err(5),
    }
}
