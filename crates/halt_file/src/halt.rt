ghost use Rattle.std.specs.Prelude.{◌≡◌};
ghost use Rattle.scr_base.specs.Halt.{halt_reason, halt_with, no_halt, is_reached};

use scr_base::{HaltWord, Name, Reason};

/// The conditions on which a job is told to stop. One that is `None` isn't set. Times are seconds, as a clock reads them.
#[derive(Debug, Drop)]
pub struct Halt {
    /// How many checkpoints a run may settle.
    pub checkpoints: Option<u32>,
    /// The time before which the job is to have ended.
    pub before: Option<u64>,
    /// The time from which on the job is to end.
    pub after: Option<u64>,
    /// How many seconds sooner than `before` it is told to; 0 where it isn't set.
    pub seconds: Option<u64>,
    /// Why it is to end at once.
    pub reason: Option<Name>,
}

/// Is a limit set, and reached?
fn is_reached(limit: Option<u64>, n: u64) -> bool
    ensures { result ≡ is_reached limit n }
{
    match limit {
        None => false,
        Some(limit) => limit <= n,
    }
}

impl Halt {
    ghost use Rattle.halt_file.specs.Conditions.{conditions};

    /// Nothing is set.
    pub fn none() -> Halt
        ensures { conditions result ≡ no_halt }
    {
        Halt {
            checkpoints: None,
            before: None,
            after: None,
            seconds: None,
            reason: None,
        }
    }

    /// Sets one condition, in place of its own of before.
    pub fn set(&mut self, word: HaltWord)
        ensures { conditions self.new ≡ halt_with (conditions self.old) word }
    {
        match word {
            HaltWord::Checkpoints { left } => self.checkpoints = Some(left),
            HaltWord::Before { at } => self.before = Some(at),
            HaltWord::After { at } => self.after = Some(at),
            HaltWord::Seconds { seconds } => self.seconds = Some(seconds),
            HaltWord::Reason { name } => self.reason = Some(name),
        }
    }

    /// Why a job is told to stop at a time, in a run that has settled so many checkpoints: the first condition that holds, of
    /// `reason`, `checkpoints`, `after` and `before`. The sum of the time and `seconds` ends at the greatest number.
    pub fn reason(&self, now: u64, settled: u32) -> Option<Reason>
        ensures { result ≡ halt_reason (conditions self.now) now settled }
    {
        if self.reason.is_some() {
            return Some(Reason::Reason);
        }
        if is_reached(self.checkpoints.map(u64::from), settled as u64) {
            return Some(Reason::Checkpoints);
        }
        if is_reached(self.after, now) {
            return Some(Reason::After);
        }
        if is_reached(self.before, now.saturating_add(self.seconds.unwrap_or(0))) {
            return Some(Reason::Before);
        }
        None
    }
}
