// A node's member of the open dataset, on its way out.
ghost use Rattle.std.specs.Prelude.{◌≡◌, None, IfOk, OnErr};
ghost use Rattle.member_store.specs.Calls.{Drops};

use member_store::drop_step;
use node_device::{DevError, Device};
use scr_base::{DataId, Stage};
use std::alloc::Global;
use std::marker::Model;

/// How far the removal of a node's member has come.
#[derive(Debug, Drop)]
pub struct Removal {
    which: DataId,
    node: u8,
    stage: Stage,
}

impl Model for Removal {
    ghost use Rattle.site_calls.specs.Removals.{Leaving, IsLeaving};

    ghost Value = { Leaving };

    ghost view = { λ r. record { which = r.which; node = r.node; changes = r.stage } };

    ghost invariant = { λ r. IsLeaving r.which r.node r.stage };
}

impl Removal {
    /// The removal of this member has made no change. It takes no memory.
    pub fn new(which: DataId, node: u8) -> Removal
        ensures { result ≡ record { which = which; node = node; changes = None } }
    {
        Removal {
            which,
            node,
            stage: Stage::new(),
        }
    }

    /// The dataset.
    pub fn which(&self) -> DataId
        ensures { result ≡ self.now.which }
    {
        self.which
    }

    /// The number of the dataset.
    pub fn id(&self) -> u32
        ensures { result ≡ self.now.which.id }
    {
        self.which.id
    }

    /// Removes one file, at most; true exactly where nothing is left to do.
    pub fn step<D: Device>(&mut self, alloc: Global, dev: &mut D) -> Result<bool, DevError>
        ensures which { self.new.which ≡ self.old.which }
        ensures node { self.new.node ≡ self.old.node }
        ensures drops { Drops self.old.which self.old.node result self.old.changes self.new.changes (D.state dev.old) (D.state dev.new) }
    {
        drop_step(alloc, dev, self.which, self.node, &mut self.stage)
    }
}
