// The clock's readings, which a round of Need or Exit needs.
ghost use Rattle.std.specs.Prelude.{◌≡◌, ◌<◌, ◌+◌, true, Some, OnOk, OnErr};
ghost use Rattle.scr_base.specs.Calls.{asks_time};
ghost use Rattle.site_state.specs.Choosing.{wants_reading};
ghost use Rattle.site_state.specs.Ahead.{ahead};
ghost use Rattle.site_core.specs.Order.{KeepsOrder};
ghost use Rattle.site_core.specs.Follows.{KeepsRun, IsSameRun, IsTold, KeepsCarried};

use crate::events::push;
use crate::site::Site;
use ckpt_model::Event;
use node_device::Device;
use scr_base::Step;
use site_state::{RunStage, SiteError};

/// Whether the call is answered by the time.
fn asks_time(call: &Step) -> bool
    ensures { result ≡ asks_time call.now }
{
    matches!(call, Step::Need | Step::Exit)
}

impl<D: Device> Site<D> {
    /// Whether the round is complete, isn't refused, and needs a reading of the clock. It takes no memory.
    pub fn wants_time(&self) -> bool
        ensures { result ≡ wants_reading self.now.core }
    {
        let RunStage::Serving = self.core.stage else {
            return false;
        };
        let None = self.core.ranks.missing() else {
            return false;
        };
        let None = self.core.reading else {
            return false;
        };
        let Some(call) = self.core.ranks.call(0) else {
            return false;
        };
        if !asks_time(call) {
            return false;
        }
        self.core.ranks.judge(self.core.phase).is_none()
    }

    /// Tells the round the time, in seconds, which is the clock's next reading. Want of memory leaves all as before.
    pub fn tell_time(&mut self, now: u64) -> Result<(), SiteError>
        requires { wants_reading self.old.core ≡ true }
        ensures run { OnOk result (KeepsRun D.state self.old self.new) }
        ensures lowers { OnOk result (ahead self.new.core self.new.programs < ahead self.old.core self.old.programs) }
        ensures order { KeepsOrder self.old self.new }
        ensures told { OnOk result (IsTold now self.old self.new) }
        ensures refused { OnErr result (self.new ≡ self.old) }
        ensures kept { KeepsCarried self.old self.new }
        ensures fixed { IsSameRun D.state self.old self.new }
    {
        let moves = self.moves;
        if moves == u64::MAX {
            return Err(SiteError::Memory);
        }
        push(&mut self.history, Event::Time { now })?;
        self.core.reading = Some(now);
        self.moves = moves + 1;
        Ok(())
    }
}
