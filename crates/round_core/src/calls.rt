// The kinds of steps, and the phases in which they are allowed.
ghost use Rattle.std.specs.Prelude.{◌≡◌, bytes_eq};
ghost use Rattle.scr_base.specs.Same.{same_flags};
ghost use Rattle.scr_base.specs.Calls.{allows, is_local, same_call, says_valid};

use scr_base::{Flags, Phase, Step};

/// Whether the phase allows the step.
pub fn phase_allows(phase: Phase, step: &Step) -> bool
    ensures { result ≡ allows phase step.now }
{
    let resting = phase == Phase::Idle || phase == Phase::Offered;
    match step {
        Step::Need | Step::Start { .. } | Step::Have | Step::Exit | Step::Finalize => resting,
        Step::Route { .. } => phase == Phase::Output || phase == Phase::Restart,
        Step::Write { .. } | Step::Complete { .. } => phase == Phase::Output,
        Step::Restart => phase == Phase::Offered,
        Step::Read { .. } | Step::Restarted { .. } => phase == Phase::Restart,
        Step::End => true,
    }
}

/// Whether the step is the rank's alone.
pub fn is_local_step(step: &Step) -> bool
    ensures { result ≡ is_local step.now }
{
    match step {
        Step::Route { .. } | Step::Write { .. } | Step::Read { .. } => true,
        _ => false,
    }
}

/// Whether the step says that the rank's part is valid, or says nothing of it.
pub fn step_is_valid(step: &Step) -> bool
    ensures { result ≡ says_valid step.now }
{
    match step {
        Step::Complete { valid } | Step::Restarted { valid } => *valid,
        _ => true,
    }
}

fn same_words(a: &[u8], b: &[u8]) -> bool
    ensures { result ≡ bytes_eq a.now b.now }
{
    a == b
}

fn same_flags_of(a: Flags, b: Flags) -> bool
    ensures { result ≡ same_flags a b }
{
    a == b
}

/// Whether two steps may be calls of one round: of one kind, and for Start of one name and flags.
pub fn same_calls(a: &Step, b: &Step) -> bool
    ensures { result ≡ same_call a.now b.now }
{
    match (a, b) {
        (
            Step::Start { name, flags },
            Step::Start {
                name: other,
                flags: others,
            },
        ) => { same_words(name.bytes(), other.bytes()) && same_flags_of(*flags, *others) }
        (Step::Need, Step::Need)
        | (Step::Complete { .. }, Step::Complete { .. })
        | (Step::Have, Step::Have)
        | (Step::Restart, Step::Restart)
        | (Step::Restarted { .. }, Step::Restarted { .. })
        | (Step::Exit, Step::Exit)
        | (Step::Finalize, Step::Finalize)
        | (Step::End, Step::End) => true,
        _ => false,
    }
}
