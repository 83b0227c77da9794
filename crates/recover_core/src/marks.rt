ghost use Rattle.std.specs.Prelude.{◌≡◌, false, true, replicate, slice_set, IfOk};
ghost use Rattle.recover_core.specs.Seen.{is_marked, lost_among};

use scr_base::{Bytes, Memory};
use std::alloc::Global;
use std::marker::Model;

/// Of each node of a site: was a whole member of it read?
#[derive(Debug, Drop)]
pub(crate) struct Marks {
    marks: Vec<bool>,
}

impl Model for Marks {
    ghost use Rattle.std.specs.Prelude.{List, Bool};

    ghost Value = { List Bool };

    ghost view = { λ m. m.marks.items };
}

impl Marks {
    /// None of so many nodes.
    pub(crate) fn none(alloc: Global, nodes: u8) -> Result<Marks, Memory>
        ensures { IfOk result (λ marks. marks ≡ replicate nodes false) }
    {
        let mut marks = Vec::new(alloc);
        for _ in 0..nodes {
            marks.push(false)?;
        }
        Ok(Marks { marks })
    }

    /// Marks a node, where there is one of that number.
    pub(crate) fn mark(&mut self, node: u8)
        ensures { self.new ≡ slice_set self.old node true }
    {
        let node = node as usize;
        if node < self.marks.len() {
            self.marks[node] = true;
        }
    }

    /// Whether a node is marked.
    pub(crate) fn has(&self, node: u8) -> bool
        ensures { result ≡ is_marked self.now node }
    {
        let node = node as usize;
        node < self.marks.len() && self.marks[node]
    }

    /// Which of so many nodes aren't marked, ascending.
    pub(crate) fn lost(&self, alloc: Global, nodes: u8) -> Result<Bytes, Memory>
        ensures { IfOk result (λ lost. lost ≡ lost_among nodes self.now) }
    {
        let mut lost = Vec::new(alloc);
        for node in 0..nodes {
            if !self.has(node) {
                lost.push(node)?;
            }
        }
        Ok(Bytes::of(lost))
    }
}
