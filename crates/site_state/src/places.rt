use scr_base::{Bytes, Copies, Memory};
use std::alloc::Global;
use std::marker::Model;

/// The physical node of each node, all below 32.
#[derive(Debug, Drop)]
pub struct Places {
    list: Bytes,
}

impl Model for Places {
    ghost use Rattle.std.specs.Prelude.{List, ℕ, All, ◌<◌};

    ghost Value = { List ℕ };

    ghost view = { λ p. p.list };

    ghost invariant = { λ p. All (λ place. place < 32) p.list };
}

impl Places {
    ghost use Rattle.std.specs.Prelude.{◌≡◌, ◌<◌, All, IfOk, IfSome, slice_get};

    /// The places of the nodes, in order.
    pub fn of(list: Vec<u8>) -> Places
        requires { All (λ place. place < 32) list.items }
        ensures { result ≡ list.items }
    {
        Places {
            list: Bytes::of(list),
        }
    }

    /// They, in the order of the nodes.
    pub fn list(&self) -> &[u8]
        ensures { result.now ≡ self.now }
    {
        self.list.list()
    }

    /// A copy of the list. Its one refusal is want of memory.
    pub fn copy(&self, alloc: Global) -> Result<Bytes, Memory>
        ensures { IfOk result (λ copy. copy ≡ self.now) }
    {
        self.list.copy(alloc)
    }

    /// The physical node of a node; none where there is no such node.
    pub fn of_node(&self, node: u8) -> Option<u8>
        ensures place { result ≡ slice_get self.now node }
        ensures low { IfSome result (λ place. place < 32) }
    {
        self.list.list().get(node as usize).copied()
    }
}
