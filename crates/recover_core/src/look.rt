ghost use Rattle.node_device.specs.Rack.{states_of};
ghost use Rattle.recover_core.specs.Look.{Looks};

use crate::found::FoundSet;
use crate::seen::{found_among, take_members};
use node_device::{Bay, Device};
use scr_base::{Memory, Shape};
use site_calls::{Trouble, members_at};
use std::alloc::Global;

/// Reads the records of all physical nodes: the datasets of which some member is whole and sealed, by ascending identity and run, each with
/// the nodes of which no member is whole. It changes no device. Fault where a device failed; Memory where there is none for the records.
pub fn find_datasets<D: Device>(
    alloc: Global,
    bay: &mut Bay<D>,
    shape: Shape,
) -> Result<Vec<FoundSet>, Trouble>
    ensures { Looks shape result (states_of D.state bay.old) (states_of D.state bay.new) }
{
    let mut sets = Vec::new(alloc);
    for place in 0..shape.nodes + shape.spares {
        let members = match members_at(alloc, bay, place, shape) {
            Ok(members) => members,
            Err(trouble) => return Err(trouble),
        };
        let Ok(()) = take_members(alloc, shape.nodes, &mut sets, members) else {
            return Err(Trouble::Memory);
        };
    }
    match found_among(alloc, shape.nodes, sets) {
        Ok(found) => Ok(found),
        Err(Memory) => Err(Trouble::Memory),
    }
}
