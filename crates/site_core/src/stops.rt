// The ends of a run that a device brings.
ghost use Rattle.std.specs.Prelude.{◌≡◌, ◌++◌, ◌∷◌, [], true, false, IfOk, OnOk, OnErr, ◌≤◌};
ghost use Rattle.ckpt_model.specs.declared.event.Event.TheVariants as event;
ghost use Rattle.site_calls.specs.Causes.{is_device_fault};
ghost use Rattle.site_core.specs.Causes.{cause_of, is_told};
ghost use Rattle.site_state.specs.Waiting.{is_over};
ghost use Rattle.site_core.specs.Ahead.{Lowers};
ghost use Rattle.site_core.specs.Order.{KeepsOrder};
ghost use Rattle.site_core.specs.Follows.{IsSameRun};

use crate::site::Site;
use ckpt_model::{Event, StopCause};
use node_device::Device;
use site_calls::Trouble;
use site_state::{RunStage, SiteError, Turn};

impl<D: Device> Site<D> {
    /// A device refused a call without which the run can't go on: it is over, which takes no memory. Where the call itself found
    /// none, all is as before.
    pub(crate) fn stop_by(&mut self, trouble: Trouble) -> Result<Turn, SiteError>
        requires { 2 ≤ self.old.history.spare }
        ensures events { OnOk result (self.new.history.events ≡ self.old.history.events ++ event.Stop (cause_of trouble) ∷ []) }
        ensures core { OnOk result (self.new.core ≡ record self.old.core { stage = RunStage.Over }) }
        ensures lowers { is_over self.old.core.stage ≡ false → IfOk result (λ turn. Lowers turn self.old self.new) }
        ensures order { OnOk result (KeepsOrder self.old self.new) }
        ensures moved { IfOk result (λ turn. turn ≡ Turn.Moved) }
        ensures told { OnOk result (is_told trouble ≡ true) }
        ensures memory { OnErr result (trouble ≡ Trouble.Memory) }
        ensures refused { OnErr result (self.new ≡ self.old) }
        ensures fixed { IsSameRun D.state self.old self.new }
        ensures bay { self.new.bay ≡ self.old.bay }
    {
        let cause = match trouble {
            Trouble::Memory => return Err(SiteError::Memory),
            Trouble::Fault { node, count } => StopCause::Device { node, count },
            Trouble::Full {
                node,
                used,
                capacity,
            } => StopCause::Full {
                node,
                used,
                capacity,
            },
        };
        let Ok(()) = self.history.push(Event::Stop { cause }) else {
            unreachable!()
        };
        self.core.stage = RunStage::Over;
        Ok(Turn::Moved)
    }

    /// A device failed at a call that no full device refuses: the run is over, which takes no memory. Where the call itself found
    /// none, all is as before.
    pub(crate) fn stop_by_fault(&mut self, trouble: Trouble) -> Result<Turn, SiteError>
        requires { 2 ≤ self.old.history.spare }
        ensures events { OnOk result (self.new.history.events ≡ self.old.history.events ++ event.Stop (cause_of trouble) ∷ []) }
        ensures core { OnOk result (self.new.core ≡ record self.old.core { stage = RunStage.Over }) }
        ensures lowers { is_over self.old.core.stage ≡ false → IfOk result (λ turn. Lowers turn self.old self.new) }
        ensures order { OnOk result (KeepsOrder self.old self.new) }
        ensures moved { IfOk result (λ turn. turn ≡ Turn.Moved) }
        ensures fault { OnOk result (is_device_fault trouble ≡ true) }
        ensures no_fault { OnErr result (is_device_fault trouble ≡ false) }
        ensures refused { OnErr result (self.new ≡ self.old) }
        ensures fixed { IsSameRun D.state self.old self.new }
        ensures bay { self.new.bay ≡ self.old.bay }
    {
        match trouble {
            Trouble::Fault { node: _, count: _ } => self.stop_by(trouble),
            _ => Err(SiteError::Memory),
        }
    }
}
