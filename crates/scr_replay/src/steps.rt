// The steps of a rank in a script that is built.
ghost use Rattle.std.specs.Prelude.{◌≡◌, ◌-◌, count_by};
ghost use Rattle.scr_replay.specs.Forms.{is_for_prefix, is_failed_restart, is_built_step, are_built_steps, is_start, is_kept, has_room};

use scr_base::{Flags, Step};

/// Whether the step starts a dataset that goes to the prefix.
fn is_for_prefix(step: &Step) -> bool
    ensures { result ≡ is_for_prefix step.now }
{
    match step {
        Step::Start { name: _, flags } => !matches!(flags, Flags::Ckpt),
        _ => false,
    }
}

/// Whether the step drops the dataset that its rank restarted from.
fn is_failed_restart(step: &Step) -> bool
    ensures { result ≡ is_failed_restart step.now }
{
    matches!(step, Step::Restarted { valid: false })
}

fn is_built_step(step: &Step) -> bool
    ensures { result ≡ is_built_step step.now }
{
    !is_for_prefix(step) && !is_failed_restart(step)
}

/// Whether each of the steps is built.
pub fn are_built_steps(steps: &[Step]) -> bool
    ensures { result ≡ are_built_steps steps.now }
{
    steps.iter().all(|step| is_built_step(step))
}

fn is_start(step: &Step) -> bool
    ensures { result ≡ is_start step.now }
{
    matches!(step, Step::Start { .. })
}

/// Whether the step completes a dataset, and its rank calls it valid.
fn is_kept(step: &Step) -> bool
    ensures { result ≡ is_kept step.now }
{
    matches!(step, Step::Complete { valid: true })
}

/// How many of the steps start a dataset.
pub fn count_starts(steps: &[Step]) -> usize
    ensures { result ≡ count_by is_start steps.now }
{
    let mut count = 0;
    for step in steps {
        if is_start(step) {
            count += 1;
        }
    }
    count
}

/// The room behind the steps: each dataset that is kept takes a place of it.
pub fn room_behind(room: usize, steps: &[Step]) -> usize
    ensures { result ≡ room - count_by is_kept steps.now }
{
    let mut left = room;
    for step in steps {
        if is_kept(step) {
            left = left.saturating_sub(1);
        }
    }
    left
}

/// Whether each dataset is started where fewer were kept before than there is room for.
pub fn has_room(room: usize, steps: &[Step]) -> bool
    ensures { result ≡ has_room room steps.now }
{
    let mut left = room;
    for step in steps {
        if left == 0 && is_start(step) {
            return false;
        }
        if is_kept(step) {
            left = left.saturating_sub(1);
        }
    }
    true
}
