ghost use Rattle.std.specs.Prelude.{◌≡◌, option_copied};
ghost use Rattle.round_core.specs.Seats.{call_in, is_free};

use scr_base::{Reply, Step};

/// What a rank does.
#[derive(Debug, Drop)]
pub enum Doing {
    /// It may take its next step.
    Free,
    /// It has called, and waits.
    Waits { step: Step },
    /// It has a reply due.
    Owed { reply: Reply },
}

/// A rank of a run.
#[derive(Debug, Drop)]
pub struct Seat {
    /// The number of its last step, counted from 1; 0 before the first.
    pub number: u32,
    /// Whether that was its End.
    pub ended: bool,
    pub doing: Doing,
}

impl Doing {
    /// The call with which the rank waits.
    pub fn call(&self) -> Option<&Step>
        ensures { option_copied result ≡ call_in self.now }
    {
        match self {
            Doing::Waits { step } => Some(step),
            _ => None,
        }
    }

    /// Whether the rank may take its next step.
    pub fn is_free(&self) -> bool
        ensures { result ≡ is_free self.now }
    {
        matches!(self, Doing::Free)
    }
}
