// The moves of the recoverer: the run's number is stored, the records are read, and what was found is looked after.
ghost use Rattle.std.specs.Prelude.{◌≡◌, ◌+◌, ◌<◌, ◌≤◌, ◌^◌, length, IfOk, OnOk, OnErr, [], ◌++◌, ◌∷◌, map, filter};
ghost use Rattle.node_device.specs.Rack.{states_of};
ghost use Rattle.ckpt_model.specs.declared.event.Event.TheVariants as event;
ghost use Rattle.site_state.specs.Shown.{row_of};
ghost use Rattle.site_state.specs.Cores.{recovered, seen_core};
ghost use Rattle.site_state.specs.Looks.{is_standing, found_member};
ghost use Rattle.site_state.specs.Waiting.{recoverer_turn};
ghost use Rattle.site_calls.specs.Calls.{Tells};
ghost use Rattle.site_core.specs.Stored.{cells_of, stored_run};
ghost use Rattle.site_core.specs.Ahead.{Lowers};
ghost use Rattle.site_core.specs.Order.{KeepsOrder};
ghost use Rattle.scr_base.specs.declared.actor.Actor.TheVariants as actor;
ghost use Rattle.site_core.specs.Follows.{IsAsBefore, Keeps, TellsBy, TellsEachFull, IsSameRun, Stays, TellsFaults};

use crate::events::push;
use crate::site::Site;
use ckpt_model::{EntryRow, Event, StopCause};
use member_store::Member;
use node_device::Device;
use scr_base::Items;
use site_calls::{halt_now, last_run, members_at, store_number};
use site_state::{Cache, RunStage, SiteError, Turn, Why};
use std::alloc::Global;

/// The index of a site that flushes nothing.
fn no_entries(alloc: Global) -> Items<EntryRow>
    ensures { result ≡ Rattle.std.specs.Prelude.[] }
{
    Items::of(Vec::new(alloc))
}

impl<D: Device> Site<D> {
    /// The recoverer's turn.
    pub(crate) fn recover(&mut self) -> Result<Turn, SiteError>
        ensures run { OnOk result (Keeps D.state self.old self.new) }
        ensures lowers { IfOk result (λ turn. Lowers turn self.old self.new) }
        ensures order { OnOk result (KeepsOrder self.old self.new) }
        ensures told { OnOk result (TellsBy actor.Recoverer D.state self.old self.new) }
        ensures full { OnOk result (TellsEachFull actor.Recoverer D.state self.old self.new) }
        ensures spared { OnErr result (IsAsBefore D.state self.old self.new) }
        ensures accounted { OnOk result (TellsFaults D.state self.old self.new) }
        ensures fixed { IsSameRun D.state self.old self.new }
        ensures still { IfOk result (λ turn. Stays turn self.old self.new) }
        ensures waits { IfOk result (λ turn. turn ≡ recoverer_turn self.old.core.stage) }
    {
        match self.core.stage {
            RunStage::Begun => self.begin_run(),
            RunStage::Storing => self.store(),
            RunStage::Looking => self.look(),
            RunStage::Mending => self.mend(),
            RunStage::Serving
            | RunStage::Saving { .. }
            | RunStage::Dropping { .. }
            | RunStage::Dropped => { Ok(Turn::NotYet { why: Why::Idle }) }
            RunStage::Over => Ok(Turn::Ended),
        }
    }

    /// The number of the run is found; or the run is over where there is none.
    fn begin_run(&mut self) -> Result<Turn, SiteError>
        requires { self.old.core.stage ≡ RunStage.Begun }
        ensures run { OnOk result (Keeps D.state self.old self.new) }
        ensures lowers { IfOk result (λ turn. Lowers turn self.old self.new) }
        ensures order { OnOk result (KeepsOrder self.old self.new) }
        ensures told { OnOk result (TellsBy actor.Recoverer D.state self.old self.new) }
        ensures spared { OnErr result (IsAsBefore D.state self.old self.new) }
        ensures accounted { OnOk result (TellsFaults D.state self.old self.new) }
        ensures fixed { IsSameRun D.state self.old self.new }
        ensures still { IfOk result (λ turn. Stays turn self.old self.new) }
        ensures moved { IfOk result (λ turn. turn ≡ Turn.Moved) }
    {
        self.history.reserve(2)?;
        match last_run(self.alloc, &mut self.bay) {
            Ok(last) => self.take_number(last),
            Err(trouble) => self.stop_by(trouble),
        }
    }

    /// The run has the number after the last one; or it is over where there is none.
    fn take_number(&mut self, last: u32) -> Result<Turn, SiteError>
        requires stage { self.old.core.stage ≡ RunStage.Begun }
        requires last { Tells (states_of D.state self.old.bay) → last ≡ stored_run (cells_of (states_of D.state self.old.bay)) }
        requires room { 2 ≤ self.old.history.spare }
        ensures run { OnOk result (Keeps D.state self.old self.new) }
        ensures lowers { IfOk result (λ turn. Lowers turn self.old self.new) }
        ensures order { OnOk result (KeepsOrder self.old self.new) }
        ensures told { OnOk result (TellsBy actor.Recoverer D.state self.old self.new) }
        ensures spared { OnErr result (IsAsBefore D.state self.old self.new) }
        ensures accounted { OnOk result (TellsFaults D.state self.old self.new) }
        ensures fixed { IsSameRun D.state self.old self.new }
        ensures still { IfOk result (λ turn. Stays turn self.old self.new) }
        ensures moved { IfOk result (λ turn. turn ≡ Turn.Moved) }
    {
        if last == u32::MAX {
            self.run_out_of_numbers()
        } else {
            self.take_halt(last)
        }
    }

    /// The conditions on which the job is to stop are read, and the run has the number after the last one.
    fn take_halt(&mut self, last: u32) -> Result<Turn, SiteError>
        requires stage { self.old.core.stage ≡ RunStage.Begun }
        requires last { Tells (states_of D.state self.old.bay) → last ≡ stored_run (cells_of (states_of D.state self.old.bay)) }
        requires more { last < 4294967295 }
        requires room { 2 ≤ self.old.history.spare }
        ensures run { OnOk result (Keeps D.state self.old self.new) }
        ensures lowers { IfOk result (λ turn. Lowers turn self.old self.new) }
        ensures order { OnOk result (KeepsOrder self.old self.new) }
        ensures told { OnOk result (TellsBy actor.Recoverer D.state self.old self.new) }
        ensures spared { OnErr result (IsAsBefore D.state self.old self.new) }
        ensures accounted { OnOk result (TellsFaults D.state self.old self.new) }
        ensures fixed { IsSameRun D.state self.old self.new }
        ensures still { IfOk result (λ turn. Stays turn self.old self.new) }
        ensures moved { IfOk result (λ turn. turn ≡ Turn.Moved) }
    {
        match halt_now(self.alloc, &mut self.bay) {
            Ok(halt) => {
                self.core.number(self.alloc, last + 1, halt);
                Ok(Turn::Moved)
            }
            Err(trouble) => self.stop_by(trouble),
        }
    }

    /// There is no number left for a run.
    fn run_out_of_numbers(&mut self) -> Result<Turn, SiteError>
        requires stage { self.old.core.stage ≡ RunStage.Begun }
        requires last { Tells (states_of D.state self.old.bay) → stored_run (cells_of (states_of D.state self.old.bay)) ≡ 4294967295 }
        ensures bay { self.new.bay ≡ self.old.bay }
        ensures run { OnOk result (Keeps D.state self.old self.new) }
        ensures lowers { IfOk result (λ turn. Lowers turn self.old self.new) }
        ensures order { OnOk result (KeepsOrder self.old self.new) }
        ensures told { OnOk result (TellsBy actor.Recoverer D.state self.old self.new) }
        ensures spared { OnErr result (IsAsBefore D.state self.old self.new) }
        ensures accounted { OnOk result (TellsFaults D.state self.old self.new) }
        ensures fixed { IsSameRun D.state self.old self.new }
        ensures still { IfOk result (λ turn. Stays turn self.old self.new) }
        ensures moved { IfOk result (λ turn. turn ≡ Turn.Moved) }
    {
        push(
            &mut self.history,
            Event::Stop {
                cause: StopCause::Runs,
            },
        )?;
        self.core.stage = RunStage::Over;
        Ok(Turn::Moved)
    }

    /// The run's number comes on its way to the prefix by one change; once it is stable, the run is told.
    fn store(&mut self) -> Result<Turn, SiteError>
        requires { self.old.core.stage ≡ RunStage.Storing }
        ensures run { OnOk result (Keeps D.state self.old self.new) }
        ensures lowers { IfOk result (λ turn. Lowers turn self.old self.new) }
        ensures order { OnOk result (KeepsOrder self.old self.new) }
        ensures told { OnOk result (TellsBy actor.Recoverer D.state self.old self.new) }
        ensures full { OnOk result (TellsEachFull actor.Recoverer D.state self.old self.new) }
        ensures spared { OnErr result (IsAsBefore D.state self.old self.new) }
        ensures accounted { OnOk result (TellsFaults D.state self.old self.new) }
        ensures fixed { IsSameRun D.state self.old self.new }
        ensures still { IfOk result (λ turn. Stays turn self.old self.new) }
        ensures moved { IfOk result (λ turn. turn ≡ Turn.Moved) }
    {
        let places = self.core.places.copy(self.alloc)?;
        self.history.reserve(2)?;
        match store_number(self.alloc, &mut self.bay, &mut self.core.storing) {
            Ok(over) => {
                if !over {
                    return Ok(Turn::Moved);
                }
                let Ok(()) = self.history.push(Event::Run {
                    run: self.core.run,
                    places,
                })
                else {
                    unreachable!()
                };
                self.core.stage = RunStage::Looking;
                Ok(Turn::Moved)
            }
            Err(trouble) => self.stop_by(trouble),
        }
    }

    /// The records are read, and what was found is told.
    fn look(&mut self) -> Result<Turn, SiteError>
        requires { self.old.core.stage ≡ RunStage.Looking }
        ensures run { OnOk result (Keeps D.state self.old self.new) }
        ensures lowers { IfOk result (λ turn. Lowers turn self.old self.new) }
        ensures order { OnOk result (KeepsOrder self.old self.new) }
        ensures told { OnOk result (TellsBy actor.Recoverer D.state self.old self.new) }
        ensures spared { OnErr result (IsAsBefore D.state self.old self.new) }
        ensures accounted { OnOk result (TellsFaults D.state self.old self.new) }
        ensures fixed { IsSameRun D.state self.old self.new }
        ensures still { IfOk result (λ turn. Stays turn self.old self.new) }
        ensures moved { IfOk result (λ turn. turn ≡ Turn.Moved) }
    {
        let Some(place) = self.core.places.of_node(0) else {
            return Err(SiteError::Memory);
        };
        self.history.reserve(2)?;
        match members_at(self.alloc, &mut self.bay, place, self.core.shape) {
            Ok(members) => self.find(members),
            Err(trouble) => self.stop_by(trouble),
        }
    }

    /// What the records told is found, and told.
    fn find(&mut self, members: Vec<Member>) -> Result<Turn, SiteError>
        ensures found { OnOk result (self.new.core ≡ recovered (seen_core self.old.core (map found_member (filter is_standing members.items)))) }
        ensures lowers { self.old.core.stage ≡ RunStage.Looking → IfOk result (λ turn. Lowers turn self.old self.new) }
        ensures order { OnOk result (KeepsOrder self.old self.new) }
        ensures events { OnOk result (self.new.history.events ≡ self.old.history.events ++ event.Found (map row_of (map found_member (filter is_standing members.items))) [] ∷ []) }
        ensures moved { IfOk result (λ turn. turn ≡ Turn.Moved) }
        ensures spared { OnErr result (IsAsBefore D.state self.old self.new) }
        ensures fixed { IsSameRun D.state self.old self.new }
        ensures bay { self.new.bay ≡ self.old.bay }
    {
        let kept = Cache::found(self.alloc, members)?;
        push(
            &mut self.history,
            Event::Found {
                kept: kept.rows(self.alloc)?,
                index: no_entries(self.alloc),
            },
        )?;
        self.core.find(kept);
        Ok(Turn::Moved)
    }

    /// A dataset that was found is looked after: nothing of it is lost.
    fn mend(&mut self) -> Result<Turn, SiteError>
        requires { self.old.core.stage ≡ RunStage.Mending }
        ensures run { OnOk result (Keeps D.state self.old self.new) }
        ensures lowers { IfOk result (λ turn. Lowers turn self.old self.new) }
        ensures order { OnOk result (KeepsOrder self.old self.new) }
        ensures told { OnOk result (TellsBy actor.Recoverer D.state self.old self.new) }
        ensures spared { OnErr result (IsAsBefore D.state self.old self.new) }
        ensures accounted { OnOk result (TellsFaults D.state self.old self.new) }
        ensures fixed { IsSameRun D.state self.old self.new }
        ensures still { IfOk result (λ turn. Stays turn self.old self.new) }
        ensures moved { IfOk result (λ turn. turn ≡ Turn.Moved) }
    {
        let Some(which) = self.core.kept.to_mend() else {
            self.core.end_recovery();
            return Ok(Turn::Moved);
        };
        push(&mut self.history, Event::Mended { which })?;
        self.core.kept.settle(which);
        self.core.end_recovery();
        Ok(Turn::Moved)
    }
}
