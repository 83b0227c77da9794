// The closing of a gate `sealed`, with the cause of its refusal.
ghost use Rattle.std.specs.Prelude.{◌≡◌, ◌≤◌, ◌<◌, OnOk, OnErr, IfErr, false};
ghost use Rattle.node_device.specs.Rack.{states_of, OnlyAt};
ghost use Rattle.member_store.specs.Calls.{SetsGate};
ghost use Rattle.member_store.specs.Names.{record_name};
ghost use Rattle.site_calls.specs.Calls.{TellsAlike, Unturned};
ghost use Rattle.site_calls.specs.Causes.{CallCause, is_device_fault, trouble_of};
ghost use Rattle.site_calls.specs.Writes.{IsWrite, PassesOn};
ghost use Rattle.evict_core.specs.Changes.{Closed};
ghost use Rattle.member_store.specs.declared.gates.MemberGate.TheVariants as gate;

use member_store::{MemberGate, set_gate};
use node_device::{Bay, DevError, Device};
use scr_base::DataId;
use site_calls::Trouble;

/// Closes the gate `sealed` of a node's record.
pub(crate) fn close_gate<D: Device>(
    bay: &mut Bay<D>,
    place: u8,
    which: DataId,
    node: u8,
) -> Result<(), Trouble>
    requires { place < 32 }
    ensures closed { OnOk result (OnlyAt place (Closed (record_name which node)) (states_of D.state bay.old) (states_of D.state bay.new)) }
    ensures refused { OnErr result (OnlyAt place (Unturned (record_name which node) 1) (states_of D.state bay.old) (states_of D.state bay.new)) }
    ensures cause { CallCause (IsWrite place (record_name which node) 1 1) (states_of D.state bay.old) (states_of D.state bay.new) result }
    ensures spared { IfErr result (λ trouble. is_device_fault trouble ≡ false → states_of D.state bay.new ≡ states_of D.state bay.old) }
    ensures fits { OnOk result (PassesOn (states_of D.state bay.old) place (record_name which node) 1 1 → ⊥) }
    ensures tells { TellsAlike (states_of D.state bay.old) (states_of D.state bay.new) }
{
    match close_gate_at(bay, place, which, node) {
        Ok(()) => Ok(()),
        Err(error) => Err(trouble_at(bay, place, error)),
    }
}

/// The same, with the device's own answer.
fn close_gate_at<D: Device>(
    bay: &mut Bay<D>,
    place: u8,
    which: DataId,
    node: u8,
) -> Result<(), DevError>
    requires { place ≤ 32 }
    ensures { OnlyAt place (SetsGate which node gate.Sealed false result) (states_of D.state bay.old) (states_of D.state bay.new) }
{
    set_gate(bay.device(place), which, node, MemberGate::Sealed, false)
}

/// What a call at a place met that was refused.
fn trouble_at<D: Device>(bay: &Bay<D>, place: u8, error: DevError) -> Trouble
    requires { place ≤ 32 }
    ensures { result ≡ trouble_of place (states_of D.state bay.now place) error }
{
    match error {
        DevError::Failed => Trouble::Fault {
            node: place,
            count: bay.faults_at(place),
        },
        DevError::Full => Trouble::Full {
            node: place,
            used: bay.used_at(place),
            capacity: bay.capacity_at(place),
        },
        _ => Trouble::Memory,
    }
}
