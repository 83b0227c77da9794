//! Replays the script of a job of checkpoints over devices in memory, and prints its history.
#![tactic(auto)]

mod built;
mod commanding;
mod devices;
mod input;
mod output;
mod playing;
mod refusal;
mod replay;
mod steps;
mod telling;
#[cfg(test)]
mod tests;
mod words;

use devices::memory_bay;
use replay::replay;
use scr_base::{StdSink, StdSource, TickClock};
use std::io::{self, ErrorKind};
use std::process::ExitCode;
use words::words_of;

fn main(rt: HostRuntime) -> io::Result<ExitCode> {
    let alloc = rt.alloc();
    let words = match words_of(&rt) {
        Ok(words) => words,
        Err(error) if error.kind() == ErrorKind::OutOfMemory => return Ok(ExitCode::from(5)),
        Err(error) => return Err(error),
    };
    let Ok(bay) = memory_bay(alloc) else {
        return Ok(ExitCode::from(5));
    };
    let mut source = StdSource::new(&rt);
    let mut sink = StdSink::new(&rt);
    let mut clock = TickClock::new();
    let ran = replay(alloc, &words, &mut source, &mut sink, bay, &mut clock);
    Ok(ExitCode::from(ran.status))
}
