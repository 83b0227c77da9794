// The devices of the program.
ghost use Rattle.std.specs.Prelude.{◌≡◌, ◌≤◌, ◌<◌, ℕ, All, IfOk, vec_len};
ghost use Rattle.node_device.specs.MemState.{mem_state};
ghost use Rattle.node_device.specs.Rack.{states_of};
ghost use Rattle.scr_replay.specs.Devices.{HoldsNothing};

use node_device::{Bay, MemDevice};
use scr_base::Memory;
use std::alloc::Global;

const NODE_CAPACITY: u64 = 268_435_456;

const PREFIX_CAPACITY: u64 = 1_073_741_824;

/// A bay of 32 nodes and a prefix in memory, without faults: each tells what it holds, and holds nothing.
pub fn memory_bay(alloc: Global) -> Result<Bay<MemDevice>, Memory>
    ensures { IfOk result (λ bay. (place : ℕ) → place ≤ 32 → HoldsNothing (states_of mem_state bay place)) }
{
    let nodes = memory_nodes(alloc)?;
    let prefix = memory_device(alloc, PREFIX_CAPACITY)?;
    Ok(Bay::new(nodes, prefix))
}

/// The nodes, which hold nothing.
fn memory_nodes(alloc: Global) -> Result<Vec<MemDevice>, Memory>
    ensures count { IfOk result (λ nodes. vec_len nodes ≡ 32) }
    ensures empty { IfOk result (λ nodes. All (λ d. HoldsNothing (mem_state d)) nodes.items) }
{
    let mut nodes = Vec::with_capacity(alloc, 32)?;
    while nodes.len() < 32 {
        nodes.push(memory_device(alloc, NODE_CAPACITY)?)?;
    }
    Ok(nodes)
}

/// A device that holds nothing, without faults.
fn memory_device(alloc: Global, capacity: u64) -> Result<MemDevice, Memory>
    ensures { IfOk result (λ d. HoldsNothing (mem_state d)) }
{
    MemDevice::new(alloc, capacity, Vec::new(alloc))
}
