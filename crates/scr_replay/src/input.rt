// Reading a source to its end.
ghost use Rattle.std.specs.Prelude.{◌≡◌, ◌<◌, ◌≤◌, ◌+◌, List, ℕ, Option, IfOk, vec_len, length};
ghost use Rattle.scr_base.specs.Streams.{Leaves, EndsAt};
ghost use Rattle.scr_replay.specs.Inputs.{Reads, ReadCause};

use scr_base::{Bytes, Source, SourceFailed};
use std::alloc::Global;

/// The longest text that is read, in bytes.
pub const LONGEST_TEXT: usize = 4_194_304;

const CHUNK: usize = 4096;

/// What a source held.
#[derive(Drop)]
pub enum Input {
    /// All of its bytes.
    Whole(Bytes),
    /// More bytes than the longest text has.
    TooLong,
}

/// Why a source isn't read to its end.
#[derive(Clone, Copy, Debug, PartialEq, Eq)]
pub enum ReadError {
    Failed,
    Memory,
}

/// Reads a source to its end, to its first fault, or to one byte more than the longest text has.
pub fn read_input<S: Source>(alloc: Global, source: &mut S) -> Result<Input, ReadError>
    ensures read { IfOk result (Reads (S.left source.old) (S.left source.new)) }
    ensures cause { ReadCause (S.fault_count source.old) (S.fault_count source.new) result }
{
    let mut text = Vec::new(alloc);
    let mut chunk = [0u8; CHUNK];
    while text.len() <= LONGEST_TEXT {
        let room = CHUNK.min(LONGEST_TEXT + 1 - text.len());
        let count = read_some(source, &mut chunk[..room], &mut text)?;
        if count == 0 {
            return Ok(Input::Whole(Bytes::of(text)));
        }
    }
    Ok(Input::TooLong)
}

/// Takes some bytes by the chunk behind the text, and answers how many: none exactly at the end.
fn read_some<S: Source>(
    source: &mut S,
    chunk: &mut [u8],
    text: &mut Vec<u8>,
) -> Result<usize, ReadError>
    requires { 0 < length chunk.old }
    ensures within { IfOk result (λ count. count ≤ length chunk.old) }
    ensures grown { IfOk result (λ count. vec_len text.new ≡ vec_len text.old + count) }
    ensures taken { IfOk result (λ _. (first : Option (List ℕ)) → Leaves first (S.left source.old) text.old.items → Leaves first (S.left source.new) text.new.items) }
    ensures end { IfOk result (λ count. EndsAt (S.left source.old) count) }
    ensures cause { ReadCause (S.fault_count source.old) (S.fault_count source.new) result }
{
    let count = match source.take(chunk) {
        Ok(count) => count,
        Err(SourceFailed) => return Err(ReadError::Failed),
    };
    match text.extend_from_slice(&chunk[..count]) {
        Ok(()) => Ok(count),
        Err(_) => Err(ReadError::Memory),
    }
}
