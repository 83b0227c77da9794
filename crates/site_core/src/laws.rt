//! What holds of every run.
ghost use Rattle.std.specs.Prelude.{◌≡◌, ◌≤◌, ◌++◌, ◌∷◌, [], ℕ, List, None, Some, true};
ghost use Rattle.scr_base.specs.declared.answers.Refusal.{Refusal};
ghost use Rattle.scr_base.specs.declared.content.Step.{Step};
ghost use Rattle.ckpt_model.specs.declared.event.Event.{Event};
ghost use Rattle.ckpt_model.specs.declared.event.Event.TheVariants as event;
ghost use Rattle.site_state.specs.declared.run_state.RunState.{RunState};
ghost use Rattle.site_core.specs.Follows.{carried, CarriesNoMore, BecomesOf};
ghost use Rattle.node_device.specs.File.{IsEmpty};
ghost use Rattle.node_device.specs.DeviceState.{DeviceState};
ghost use Rattle.ckpt_model.specs.Machine.{Setup, empty_machine};
ghost use Rattle.site_stands.specs.Described.{is_single};
ghost use Rattle.site_core.specs.Holds.{CanBegin};

/// Where a turn tells a rank's call, the round carries no refusal then: so it carries none when it becomes complete. The premises
/// are what a rank's turn promises.
pub fn a_call_finds_none_carried()
    ensures { (old new : RunState) (before : List Event) (rank number : ℕ) (call : Step) → CarriesNoMore old new → ((refusal : Refusal) → carried old ≡ Some refusal → BecomesOf refusal new before (before ++ event.Call rank number call ∷ [])) → carried new ≡ None }
{}

/// Over devices that hold nothing, a run of a site that keeps no copies can begin: they stand for the state before the first run.
pub fn a_run_can_begin_over_empty_devices()
    ensures { (s : Setup) (states : ℕ → DeviceState) → is_single s.config.scheme ≡ true → ((p : ℕ) (q : List ℕ) → p ≤ 32 → IsEmpty ((states p).file q)) → CanBegin s states empty_machine }
{}
