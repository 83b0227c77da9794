// A rank's own steps.
ghost use Rattle.std.specs.Prelude.{◌≡◌, ◌+◌, ◌*◌, ◌<◌, ◌≤◌, ◌^◌, ◌++◌, ◌∷◌, [], true, false, None, Some, Err, length, map, IfOk, IsSomeAnd, OnOk, OnErr, slice_get, slice_set};
ghost use Rattle.ckpt_model.specs.declared.event.Event.TheVariants as event;
ghost use Rattle.round_core.specs.declared.seat.Seat.{Seat};
ghost use Rattle.round_core.specs.Seats.{stepped};
ghost use Rattle.ckpt_model.specs.Answers.{is_fault};
ghost use Rattle.node_device.specs.Rack.{states_of};
ghost use Rattle.scr_base.specs.declared.content.Step.TheVariants as step;
ghost use Rattle.filemap.specs.Rows.{place_of, is_routed};
ghost use Rattle.site_state.specs.Choosing.{local_verdict_of, rows_at};
ghost use Rattle.scr_base.specs.declared.answers.Refusal.{Refusal};
ghost use Rattle.scr_base.specs.declared.answers.Reply.TheVariants as reply;
ghost use Rattle.site_calls.specs.Causes.{told_trouble};
ghost use Rattle.site_core.specs.Ahead.{Lowers};
ghost use Rattle.site_core.specs.Order.{KeepsOrder};
ghost use Rattle.scr_base.specs.declared.actor.Actor.TheVariants as actor;
ghost use Rattle.site_core.specs.Follows.{IsAsBefore, Keeps, TellsBy, TellsEachFull, IsSameRun, Stays, MayTell, TellsFaults};
ghost use Rattle.site_state.specs.Steps.{IsNextLocal};

use crate::site::Site;
use ckpt_model::Event;
use member_store::part_file_name;
use node_device::Device;
use scr_base::{Bytes, Content, Name, Reply, Step, Word};
use site_calls::{Trouble, get_part, put_part};
use site_state::{RunStage, SiteError, Turn, end_of};

impl<D: Device> Site<D> {
    /// A rank takes a step of its own.
    pub(crate) fn local(&mut self, rank: u8, step: Step) -> Result<Turn, SiteError>
        requires stage { self.old.core.stage ≡ RunStage.Serving }
        requires next { IsNextLocal self.old.programs self.old.core rank step }
        ensures run { OnOk result (Keeps D.state self.old self.new) }
        ensures lowers { IfOk result (λ turn. Lowers turn self.old self.new) }
        ensures order { OnOk result (KeepsOrder self.old self.new) }
        ensures told { OnOk result (TellsBy (actor.Rank rank) D.state self.old self.new) }
        ensures full { OnOk result (TellsEachFull (actor.Rank rank) D.state self.old self.new) }
        ensures spared { OnErr result (IsAsBefore D.state self.old self.new) }
        ensures accounted { OnOk result (TellsFaults D.state self.old self.new) }
        ensures fixed { IsSameRun D.state self.old self.new }
        ensures still { IfOk result (λ turn. Stays turn self.old self.new) }
        ensures moved { IfOk result (λ turn. turn ≡ Turn.Moved) }
    {
        let verdict = self.core.local_verdict(self.alloc, rank, &step)?;
        match verdict {
            Some(refusal) => self.tell_local(rank, step, Reply::Refused { refusal }),
            None => self.do_local(rank, step),
        }
    }

    /// A step that nothing speaks against.
    fn do_local(&mut self, rank: u8, step: Step) -> Result<Turn, SiteError>
        requires stage { self.old.core.stage ≡ RunStage.Serving }
        requires next { IsNextLocal self.old.programs self.old.core rank step }
        requires clear { local_verdict_of self.old.core rank step ≡ None }
        ensures run { OnOk result (Keeps D.state self.old self.new) }
        ensures lowers { IfOk result (λ turn. Lowers turn self.old self.new) }
        ensures order { OnOk result (KeepsOrder self.old self.new) }
        ensures told { OnOk result (TellsBy (actor.Rank rank) D.state self.old self.new) }
        ensures full { OnOk result (TellsEachFull (actor.Rank rank) D.state self.old self.new) }
        ensures spared { OnErr result (IsAsBefore D.state self.old self.new) }
        ensures accounted { OnOk result (TellsFaults D.state self.old self.new) }
        ensures fixed { IsSameRun D.state self.old self.new }
        ensures still { IfOk result (λ turn. Stays turn self.old self.new) }
        ensures moved { IfOk result (λ turn. turn ≡ Turn.Moved) }
    {
        match step {
            Step::Route { name } => self.route(rank, name),
            Step::Write { name, at, content } => self.write(rank, name, at, content),
            Step::Read { name, at, len } => self.read(rank, name, at, len),
            _ => Err(SiteError::Memory),
        }
    }

    /// The step is told with its answer, and the rank goes on. It takes no memory.
    fn go_past(&mut self, rank: u8, step: Step, answer: Reply)
        requires small { IsSomeAnd (slice_get self.old.core.ranks rank) (λ seat. seat.number + 1 < 2 ^ 32) }
        requires room { 2 ≤ self.old.history.spare }
        ensures events { (seat : Seat) → slice_get self.old.core.ranks rank ≡ Some seat → self.new.history.events ≡ self.old.history.events ++ event.Local rank (seat.number + 1) step answer ∷ [] }
        ensures core { (seat : Seat) → slice_get self.old.core.ranks rank ≡ Some seat → self.new.core ≡ record self.old.core { ranks = slice_set self.old.core.ranks rank (stepped seat) } }
        ensures fixed { IsSameRun D.state self.old self.new }
        ensures bay { self.new.bay ≡ self.old.bay }
    {
        let Some(seat) = self.core.ranks.seat(rank) else {
            unreachable!()
        };
        let number = seat.number + 1;
        let Ok(()) = self.history.push(Event::Local {
            rank,
            number,
            step,
            answer,
        })
        else {
            unreachable!()
        };
        self.core.ranks.step(rank);
    }

    /// A device refused the step, which is told so. It takes no memory: where the call itself found none, all is as before.
    fn refuse_local(&mut self, rank: u8, step: Step, trouble: Trouble) -> Result<Turn, SiteError>
        requires small { IsSomeAnd (slice_get self.old.core.ranks rank) (λ seat. seat.number + 1 < 2 ^ 32) }
        requires room { 2 ≤ self.old.history.spare }
        ensures events { OnOk result ((seat : Seat) → slice_get self.old.core.ranks rank ≡ Some seat → (refusal : Refusal) × (told_trouble trouble ≡ Some refusal) × (self.new.history.events ≡ self.old.history.events ++ event.Local rank (seat.number + 1) step (reply.Refused refusal) ∷ [])) }
        ensures core { OnOk result ((seat : Seat) → slice_get self.old.core.ranks rank ≡ Some seat → self.new.core ≡ record self.old.core { ranks = slice_set self.old.core.ranks rank (stepped seat) }) }
        ensures lowers { self.old.core.stage ≡ RunStage.Serving → IsNextLocal self.old.programs self.old.core rank step → IfOk result (λ turn. Lowers turn self.old self.new) }
        ensures order { IsNextLocal self.old.programs self.old.core rank step → OnOk result (KeepsOrder self.old self.new) }
        ensures moved { IfOk result (λ turn. turn ≡ Turn.Moved) }
        ensures memory { OnErr result (trouble ≡ Trouble.Memory) }
        ensures refused { OnErr result (self.new ≡ self.old) }
        ensures fixed { IsSameRun D.state self.old self.new }
        ensures bay { self.new.bay ≡ self.old.bay }
    {
        let refusal = trouble.refusal()?;
        self.go_past(rank, step, Reply::Refused { refusal });
        Ok(Turn::Moved)
    }

    /// The step is told with its answer; no file is changed.
    fn tell_local(&mut self, rank: u8, step: Step, answer: Reply) -> Result<Turn, SiteError>
        requires stage { self.old.core.stage ≡ RunStage.Serving }
        requires next { IsNextLocal self.old.programs self.old.core rank step }
        requires steps { MayTell D.state self.old rank step answer }
        requires calm { is_fault answer ≡ false }
        ensures run { OnOk result (Keeps D.state self.old self.new) }
        ensures lowers { IfOk result (λ turn. Lowers turn self.old self.new) }
        ensures order { OnOk result (KeepsOrder self.old self.new) }
        ensures told { OnOk result (TellsBy (actor.Rank rank) D.state self.old self.new) }
        ensures spared { OnErr result (IsAsBefore D.state self.old self.new) }
        ensures accounted { OnOk result (TellsFaults D.state self.old self.new) }
        ensures fixed { IsSameRun D.state self.old self.new }
        ensures still { IfOk result (λ turn. Stays turn self.old self.new) }
        ensures moved { IfOk result (λ turn. turn ≡ Turn.Moved) }
    {
        self.history.reserve(2)?;
        self.go_past(rank, step, answer);
        Ok(Turn::Moved)
    }

    /// The file of this name gets its number, or has it.
    fn route(&mut self, rank: u8, word: Word) -> Result<Turn, SiteError>
        requires stage { self.old.core.stage ≡ RunStage.Serving }
        requires next { IsNextLocal self.old.programs self.old.core rank (step.Route word) }
        requires clear { local_verdict_of self.old.core rank (step.Route word) ≡ None }
        ensures run { OnOk result (Keeps D.state self.old self.new) }
        ensures lowers { IfOk result (λ turn. Lowers turn self.old self.new) }
        ensures order { OnOk result (KeepsOrder self.old self.new) }
        ensures told { OnOk result (TellsBy (actor.Rank rank) D.state self.old self.new) }
        ensures full { OnOk result (TellsEachFull (actor.Rank rank) D.state self.old self.new) }
        ensures spared { OnErr result (IsAsBefore D.state self.old self.new) }
        ensures accounted { OnOk result (TellsFaults D.state self.old self.new) }
        ensures fixed { IsSameRun D.state self.old self.new }
        ensures still { IfOk result (λ turn. Stays turn self.old self.new) }
        ensures moved { IfOk result (λ turn. turn ≡ Turn.Moved) }
    {
        if self.core.has_file(rank, word.bytes()) {
            self.route_again(rank, word)
        } else {
            self.route_new(rank, word)
        }
    }

    /// The file has its number.
    fn route_again(&mut self, rank: u8, word: Word) -> Result<Turn, SiteError>
        requires stage { self.old.core.stage ≡ RunStage.Serving }
        requires next { IsNextLocal self.old.programs self.old.core rank (step.Route word) }
        requires clear { local_verdict_of self.old.core rank (step.Route word) ≡ None }
        requires there { is_routed (rows_at self.old.core rank) word ≡ true }
        ensures run { OnOk result (Keeps D.state self.old self.new) }
        ensures lowers { IfOk result (λ turn. Lowers turn self.old self.new) }
        ensures order { OnOk result (KeepsOrder self.old self.new) }
        ensures told { OnOk result (TellsBy (actor.Rank rank) D.state self.old self.new) }
        ensures spared { OnErr result (IsAsBefore D.state self.old self.new) }
        ensures accounted { OnOk result (TellsFaults D.state self.old self.new) }
        ensures fixed { IsSameRun D.state self.old self.new }
        ensures still { IfOk result (λ turn. Stays turn self.old self.new) }
        ensures moved { IfOk result (λ turn. turn ≡ Turn.Moved) }
    {
        let file = self.core.number_of(rank, word.bytes());
        let Some(spot) = self.core.spot(rank, file) else {
            return Err(SiteError::Memory);
        };
        let part = part_file_name(self.alloc, spot.which, spot.node, spot.part)?;
        self.tell_local(rank, Step::Route { name: word }, Reply::Routed { part })
    }

    /// The file is made, empty.
    fn route_new(&mut self, rank: u8, word: Word) -> Result<Turn, SiteError>
        requires stage { self.old.core.stage ≡ RunStage.Serving }
        requires next { IsNextLocal self.old.programs self.old.core rank (step.Route word) }
        requires clear { local_verdict_of self.old.core rank (step.Route word) ≡ None }
        requires new { is_routed (rows_at self.old.core rank) word ≡ false }
        ensures run { OnOk result (Keeps D.state self.old self.new) }
        ensures lowers { IfOk result (λ turn. Lowers turn self.old self.new) }
        ensures order { OnOk result (KeepsOrder self.old self.new) }
        ensures told { OnOk result (TellsBy (actor.Rank rank) D.state self.old self.new) }
        ensures full { OnOk result (TellsEachFull (actor.Rank rank) D.state self.old self.new) }
        ensures spared { OnErr result (IsAsBefore D.state self.old self.new) }
        ensures accounted { OnOk result (TellsFaults D.state self.old self.new) }
        ensures fixed { IsSameRun D.state self.old self.new }
        ensures still { IfOk result (λ turn. Stays turn self.old self.new) }
        ensures moved { IfOk result (λ turn. turn ≡ Turn.Moved) }
    {
        let file = self.core.number_of(rank, word.bytes());
        let Some(spot) = self.core.spot(rank, file) else {
            return Err(SiteError::Memory);
        };
        let part = part_file_name(self.alloc, spot.which, spot.node, spot.part)?;
        let Ok(name) = Name::read(self.alloc, word.bytes()) else {
            return Err(SiteError::Memory);
        };
        self.history.reserve(2)?;
        self.core.route(rank, &name)?;
        match put_part(
            &mut self.bay,
            spot.place,
            spot.which,
            spot.node,
            spot.part,
            0,
            &[],
        ) {
            Ok(()) => {
                self.go_past(rank, Step::Route { name: word }, Reply::Routed { part });
                Ok(Turn::Moved)
            }
            Err(trouble) => {
                self.core.unroute(rank);
                self.refuse_local(rank, Step::Route { name: word }, trouble)
            }
        }
    }

    /// The file is written to.
    fn write(&mut self, rank: u8, word: Word, at: u32, content: Content) -> Result<Turn, SiteError>
        requires stage { self.old.core.stage ≡ RunStage.Serving }
        requires next { IsNextLocal self.old.programs self.old.core rank (step.Write word at content) }
        requires clear { local_verdict_of self.old.core rank (step.Write word at content) ≡ None }
        ensures run { OnOk result (Keeps D.state self.old self.new) }
        ensures lowers { IfOk result (λ turn. Lowers turn self.old self.new) }
        ensures order { OnOk result (KeepsOrder self.old self.new) }
        ensures told { OnOk result (TellsBy (actor.Rank rank) D.state self.old self.new) }
        ensures full { OnOk result (TellsEachFull (actor.Rank rank) D.state self.old self.new) }
        ensures spared { OnErr result (IsAsBefore D.state self.old self.new) }
        ensures accounted { OnOk result (TellsFaults D.state self.old self.new) }
        ensures fixed { IsSameRun D.state self.old self.new }
        ensures still { IfOk result (λ turn. Stays turn self.old self.new) }
        ensures moved { IfOk result (λ turn. turn ≡ Turn.Moved) }
    {
        let file = self.core.number_of(rank, word.bytes());
        let Some(spot) = self.core.spot(rank, file) else {
            return Err(SiteError::Memory);
        };
        let end = end_of(at, &content, rank);
        if !self.core.may_extend(rank, file, end) {
            return Err(SiteError::Memory);
        }
        let bytes = content.bytes_for(self.alloc, rank)?;
        self.history.reserve(2)?;
        let step = Step::Write {
            name: word,
            at,
            content,
        };
        match put_part(
            &mut self.bay,
            spot.place,
            spot.which,
            spot.node,
            spot.part,
            at as u64,
            bytes.list(),
        ) {
            Ok(()) => {
                self.core.extend(rank, file, end);
                self.go_past(rank, step, Reply::Done);
                Ok(Turn::Moved)
            }
            Err(trouble) => self.refuse_local(rank, step, trouble),
        }
    }

    /// The file's bytes are read; no read finds a device full.
    fn read(&mut self, rank: u8, word: Word, at: u32, len: u32) -> Result<Turn, SiteError>
        requires stage { self.old.core.stage ≡ RunStage.Serving }
        requires next { IsNextLocal self.old.programs self.old.core rank (step.Read word at len) }
        requires clear { local_verdict_of self.old.core rank (step.Read word at len) ≡ None }
        ensures run { OnOk result (Keeps D.state self.old self.new) }
        ensures lowers { IfOk result (λ turn. Lowers turn self.old self.new) }
        ensures order { OnOk result (KeepsOrder self.old self.new) }
        ensures told { OnOk result (TellsBy (actor.Rank rank) D.state self.old self.new) }
        ensures spared { OnErr result (IsAsBefore D.state self.old self.new) }
        ensures accounted { OnOk result (TellsFaults D.state self.old self.new) }
        ensures fixed { IsSameRun D.state self.old self.new }
        ensures still { IfOk result (λ turn. Stays turn self.old self.new) }
        ensures moved { IfOk result (λ turn. turn ≡ Turn.Moved) }
    {
        let file = self.core.number_of(rank, word.bytes());
        let Some(row) = self.core.rows_at(rank).get(file as usize) else {
            return Err(SiteError::Memory);
        };
        let count = len.min(row.len.saturating_sub(at));
        let from = at.min(row.len);
        let Some(spot) = self.core.spot(rank, file) else {
            return Err(SiteError::Memory);
        };
        let Ok(mut bytes) = vec![in self.alloc; 0u8; count as usize] else {
            return Err(SiteError::Memory);
        };
        self.history.reserve(2)?;
        let step = Step::Read {
            name: word,
            at,
            len,
        };
        match get_part(
            &mut self.bay,
            spot.place,
            spot.which,
            spot.node,
            spot.part,
            from as u64,
            &mut bytes,
        ) {
            Ok(()) => {
                let bytes = Bytes::of(bytes);
                self.go_past(rank, step, Reply::Bytes { bytes });
                Ok(Turn::Moved)
            }
            Err(Trouble::Fault { node, count }) => {
                self.refuse_local(rank, step, Trouble::Fault { node, count })
            }
            Err(Trouble::Memory) => Err(SiteError::Memory),
            Err(
                Trouble::Full {
                    node: _,
                    used: _,
                    capacity: _,
                },
            ) => Err(SiteError::Memory),
        }
    }
}
