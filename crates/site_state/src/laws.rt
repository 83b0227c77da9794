//! What holds of every run, by its memory.
ghost use Rattle.std.specs.Prelude.{◌≡◌, ◌≤◌, List, None, false, length};
ghost use Rattle.scr_base.specs.declared.content.Step.{Step};
ghost use Rattle.site_state.specs.declared.run_state.RunState.{RunState};
ghost use Rattle.site_state.specs.Choosing.{due_in, wants_reading};
ghost use Rattle.site_state.specs.Order.{GoesOn, HasEnds, IsInOrder};
ghost use Rattle.site_state.specs.Waiting.{is_over};

/// A run that isn't over is never stuck: where each program ends with End, no reading of the clock is wanted and nothing is to be
/// flushed, the turn of some actor moves.
pub fn a_run_goes_on()
    ensures { (c : RunState) (programs : List (List Step)) → 1 ≤ length c.ranks → is_over c.stage ≡ false → wants_reading c ≡ false → due_in c ≡ None → HasEnds (length c.ranks) programs → IsInOrder programs c.ranks → GoesOn c programs }
{}
