// The words behind the program's name.
ghost use Rattle.std.specs.Prelude.{◌↔◌, IsTrue, map, string_bytes};
ghost use Rattle.scr_replay.specs.Words.{IsRun};

use std::rt::Env;
use std::{env, io};

/// What is printed where the words aren't accepted.
pub const USAGE: &[u8] = b"usage: scr_replay run | gen SEED | script SEED\n";

/// Is `run` the one word?
pub fn is_run(words: &Vec<String>) -> bool
    ensures { IsTrue result ↔ IsRun (map (λ word. string_bytes word) words.now.items) }
{
    match words.as_slice() {
        [word] => word.as_bytes() == b"run".as_slice(),
        _ => false,
    }
}

/// The words behind the program's name.
pub fn words_of<R: Env + AllocGlobal>(rt: &R) -> io::Result<Vec<String>> {
    let mut words = Vec::new(rt.alloc());
    for word in env::args(rt)?.skip(1) {
        words.push(word)?;
    }
    Ok(words)
}
