ghost use Rattle.std.specs.Prelude.{◌≡◌, ◌≤◌, IfOk, OnErr};
ghost use Rattle.node_device.specs.Rack.{states_of};
ghost use Rattle.site_calls.specs.Causes.{trouble_of, told_trouble};

use node_device::{Bay, DevError, Device};
use scr_base::{Memory, Refusal};

/// Why a call on a device of the bay was refused.
#[derive(Clone, Copy, Debug, PartialEq, Eq)]
pub enum Trouble {
    /// Want of memory.
    Memory,
    /// The call failed, and the device's count of faults rose to `count`; the prefix is device 32.
    Fault { node: u8, count: u64 },
    /// A write would have passed the capacity of a device of which so many bytes are used.
    Full { node: u8, used: u64, capacity: u64 },
}

impl Trouble {
    /// What is told of it; want of memory isn't told.
    pub fn refusal(self) -> Result<Refusal, Memory>
        ensures told { IfOk result (λ refusal. told_trouble self ≡ Rattle.std.specs.Prelude.Some refusal) }
        ensures memory { OnErr result (self ≡ Trouble.Memory) }
    {
        match self {
            Trouble::Memory => Err(Memory),
            Trouble::Fault { node, count } => Ok(Refusal::Device { node, count }),
            Trouble::Full {
                node,
                used,
                capacity,
            } => Ok(Refusal::Full {
                node,
                used,
                capacity,
            }),
        }
    }
}

/// What a call at a place met that was refused; so much of the device was used before, and is used now.
pub(crate) fn trouble_at<D: Device>(bay: &Bay<D>, place: u8, error: DevError) -> Trouble
    requires { place ≤ 32 }
    ensures { result ≡ trouble_of place (states_of D.state bay.now place) error }
{
    match error {
        DevError::Failed => Trouble::Fault {
            node: place,
            count: bay.faults_at(place),
        },
        DevError::Full => Trouble::Full {
            node: place,
            used: bay.used_at(place),
            capacity: bay.capacity_at(place),
        },
        _ => Trouble::Memory,
    }
}
