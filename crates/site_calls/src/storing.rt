// The number of a run, on its way to the prefix.
ghost use Rattle.std.specs.Prelude.{◌≡◌, ◌≤◌, ◌<◌, ◌^◌, [], codes, IfOk, OnErr};
ghost use Rattle.gated_record.specs.PairSteps.{StepsPair};
ghost use Rattle.gated_record.specs.declared.pair.PairValue.{PairValue};
ghost use Rattle.site_calls.specs.Numbers.{IsStore};

use gated_record::{PairValue, pair_step};
use node_device::{DevError, Device};
use scr_base::{Bytes, Stage};
use std::alloc::Global;
use std::marker::Model;

/// How far a run's number has come to the prefix, where it stands as the version of the pair `run`.
#[derive(Debug, Drop)]
pub struct Storing {
    want: PairValue,
    stage: Stage,
}

impl Model for Storing {
    ghost use Rattle.site_calls.specs.Numbers.{Way, IsStore};

    ghost Value = { Way };

    ghost view = { λ s. record { want = s.want; changes = s.stage } };

    ghost invariant = { λ s. IsStore s.want s.stage };
}

impl Storing {
    /// The number has made no change on its way. It takes no memory.
    pub fn new(alloc: Global, run: u32) -> Storing
        requires { 1 ≤ run }
        ensures { result ≡ record { want = record { version = run; body = [] }; changes = None } }
    {
        Storing {
            want: PairValue {
                version: run,
                body: Bytes::of(Vec::new(alloc)),
            },
            stage: Stage::new(),
        }
    }

    /// Makes one change, at most; true exactly where nothing is left to do.
    pub fn step<D: Device>(&mut self, alloc: Global, prefix: &mut D) -> Result<bool, DevError>
        ensures want { self.new.want ≡ self.old.want }
        ensures plain { self.old.want.body ≡ [] }
        ensures steps { StepsPair (codes "run") self.old.want result self.old.changes self.new.changes (D.state prefix.old) (D.state prefix.new) }
    {
        pair_step(alloc, prefix, b"run", &self.want, &mut self.stage)
    }
}
