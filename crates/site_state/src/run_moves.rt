// What the moves change of a site's memory.
ghost use Rattle.std.specs.Prelude.{◌≡◌, ◌≤◌, ◌<◌, ◌+◌, ◌-◌, ◌*◌, ◌≢◌, true, None, Some, IfOk, IfSome, IsSomeAnd, is_some, OnOk, OnErr, false, Err, length, if◌then◌else◌, nat_lt};
ghost use Rattle.std.specs.List.{list_all};
ghost use Rattle.scr_base.specs.Sets.{numbers_below};
ghost use Rattle.filemap.specs.Rows.{routed, unrouted, extended};
ghost use Rattle.filemap.specs.Maps.{rows_of};
ghost use Rattle.site_state.specs.Shown.{greatest_id};
ghost use Rattle.site_state.specs.Choosing.{is_needed, due_in, is_crowded, is_to_save, is_to_drop};
ghost use Rattle.site_calls.specs.Numbers.{way_of};
ghost use Rattle.site_state.specs.Asked.{IsSaveRound, IsDropRound};
ghost use Rattle.site_state.specs.Cores.{dropping_core, next_drop_core, dropped_answer, closed_core, IsNewCore, IsSameCore, IsOpened, HasShape, IsSpot, recovered, with_rows, CanExtend, unrouted_core, saved_in, sealed_core, settled_core};
ghost use Rattle.site_state.specs.declared.cache.Manifest.{Manifest};
ghost use Rattle.site_state.specs.declared.run_state.RunState.{RunState};

use crate::cache::{Cache, Cached, Manifest, Mark};
use crate::error::SiteError;
use crate::places::Places;
use crate::run_state::{DropStep, RunStage, RunState, SaveStep};
use dataset_desc::Desc;
use filemap::{Filemap, RouteError};
use halt_file::Halt;
use member_store::Part;
use round_core::Round;
use scr_base::{Config, DataId, Flags, Memory, Name, Phase, Refusal, Reply, Shape, Step, Word};
use site_calls::{Removal, Storing};
use std::alloc::Global;

/// Where a rank's file stands.
#[derive(Clone, Copy, Debug, PartialEq, Eq)]
pub struct Spot {
    pub which: DataId,
    /// The physical node, below 32.
    pub place: u8,
    pub node: u8,
    pub part: Part,
}

impl Manifest {
    /// It has a file more of a rank.
    fn route(&mut self, rank: u8, name: &Name) -> Result<(), SiteError>
        ensures within { OnOk result (rank < length self.old.files) }
        ensures ok { OnOk result (self.new ≡ with_rows self.old rank (routed (rows_of self.old.files rank) name.now)) }
        ensures err { OnErr result (self.new ≡ self.old) }
    {
        if rank >= self.files.ranks() {
            return Err(SiteError::Memory);
        }
        match self.files.route(rank, name) {
            Ok(_) => Ok(()),
            Err(_) => Err(SiteError::Memory),
        }
    }

    /// The last file of a rank is taken back.
    fn unroute(&mut self, rank: u8)
        ensures { self.new ≡ with_rows self.old rank (unrouted (rows_of self.old.files rank)) }
    {
        if rank < self.files.ranks() {
            self.files.unroute(rank);
        }
    }

    /// Whether it has the file of a rank, which may be so long.
    fn may_extend(&self, rank: u8, file: u8, len: u32) -> bool
        ensures { result ≡ true → CanExtend self.now rank file len }
    {
        rank < self.files.ranks()
            && (file as usize) < self.files.rows(rank).len()
            && len <= 1_048_576
    }

    /// A rank's file of it is at least so long.
    fn extend(&mut self, rank: u8, file: u8, len: u32)
        requires { CanExtend self.old rank file len }
        ensures { self.new ≡ with_rows self.old rank (extended (rows_of self.old.files rank) file len) }
    {
        self.files.extend(rank, file, len);
    }
}

impl RunState {
    /// The memory of a run that has made no move, on the nodes in their places. Its one refusal is want of memory.
    pub fn new(
        alloc: Global,
        shape: Shape,
        config: Config,
        places: Vec<u8>,
    ) -> Result<RunState, Memory>
        requires { places.items ≡ numbers_below shape.nodes }
        ensures { IfOk result (IsNewCore shape config) }
    {
        Ok(RunState {
            shape,
            config,
            stage: RunStage::Begun,
            places: Places::of(places),
            run: 0,
            storing: Storing::new(alloc, 1),
            next: 1,
            phase: Phase::Idle,
            offer: None,
            opened: None,
            kept: Cache::new(alloc),
            ranks: Round::new(alloc, shape.nodes * shape.ranks)?,
            settled: 0,
            needs: 0,
            reading: None,
            halt: Halt::none(),
            removal: Removal::new(DataId { id: 1, run: 1 }, 0),
            refusal: None,
        })
    }

    /// The run has this number, which is still to be stored, and is to stop on these conditions.
    pub fn number(&mut self, alloc: Global, run: u32, halt: Halt)
        requires { 1 ≤ run }
        ensures { self.new ≡ record self.old { stage = RunStage.Storing; run = run; halt = halt; storing = way_of run } }
    {
        self.stage = RunStage::Storing;
        self.run = run;
        self.halt = halt;
        self.storing = Storing::new(alloc, run);
    }

    /// Recovery found these datasets.
    pub fn find(&mut self, kept: Cache)
        ensures { self.new ≡ recovered (record self.old { stage = RunStage.Mending; kept = kept; next = greatest_id kept + 1 }) }
    {
        self.next = kept.greatest() as u64 + 1;
        self.kept = kept;
        self.stage = RunStage::Mending;
        self.end_recovery();
    }

    /// Recovery is over once every dataset that was found is looked after.
    pub fn end_recovery(&mut self)
        ensures { self.new ≡ recovered self.old }
    {
        match self.kept.to_mend() {
            Some(_) => {}
            None => self.stage = RunStage::Serving,
        }
    }

    /// Whether the cache has no room for one more.
    pub fn is_crowded(&self) -> bool
        ensures { result ≡ is_crowded self.now }
    {
        self.kept.list().len() >= self.config.cache as usize
    }

    /// The smallest identity of a dataset that is to be flushed.
    pub fn due(&self) -> Option<DataId>
        ensures { result ≡ due_in self.now }
    {
        self.kept.due(self.config)
    }

    /// The identity of the dataset that the next Start would begin; none where no number is left, or the run has none yet.
    pub fn next_id(&self) -> Option<DataId>
        ensures which { IfSome result (λ which. which ≡ record { id = self.now.next; run = self.now.run }) }
        ensures some { IfSome result (λ which. (1 ≤ self.now.next) × (1 ≤ self.now.run)) }
        ensures few { IfSome result (λ which. (self.now.next ≤ 4294967295) × (self.now.run ≤ 4294967295)) }
    {
        if self.next == 0 || self.next > 4_294_967_295 || self.run == 0 {
            return None;
        }
        Some(DataId {
            id: self.next as u32,
            run: self.run,
        })
    }

    /// A dataset of this identity that has no files. Its one refusal is want of memory.
    pub fn fresh(
        &self,
        alloc: Global,
        which: DataId,
        word: &Word,
        flags: Flags,
    ) -> Result<Manifest, Memory>
        requires which { which ≡ record { id = self.now.next; run = self.now.run } }
        requires some { (1 ≤ self.now.next) × (1 ≤ self.now.run) }
        requires few { (self.now.next ≤ 4294967295) × (self.now.run ≤ 4294967295) }
        ensures opened { IfOk result (IsOpened self.now word.now flags) }
        ensures shape { IfOk result (HasShape self.now) }
    {
        let Ok(name) = Name::read(alloc, word.bytes()) else {
            return Err(Memory);
        };
        let files = Filemap::new(alloc, self.shape.nodes * self.shape.ranks)?;
        Ok(Manifest {
            desc: Desc {
                which,
                name,
                flags,
                nodes: self.shape.nodes,
                ranks: self.shape.ranks,
                scheme: self.config.scheme,
                size: self.config.size,
            },
            files,
        })
    }

    /// The dataset is open.
    pub fn open(&mut self, manifest: Manifest)
        requires { self.old.next ≤ 4294967295 }
        ensures { self.new ≡ record self.old { opened = Some manifest; next = self.old.next + 1; phase = Phase.Output; reading = None } }
    {
        self.opened = Some(manifest);
        self.next += 1;
        self.phase = Phase::Output;
        self.reading = None;
    }

    /// Whether each rank has called its End.
    pub fn all_ended(&self) -> bool
        ensures { result ≡ list_all (λ seat. seat.ended) self.now.ranks }
    {
        self.ranks.all_ended()
    }

    /// Where a rank's file of this number stands, of the dataset that the ranks' own steps work on; none where there is no such
    /// dataset, or no such rank.
    pub fn spot(&self, rank: u8, file: u8) -> Option<Spot>
        ensures { IfSome result (IsSpot self.now rank file) }
    {
        let which = self.at_hand()?.desc.which;
        let node = rank / self.shape.ranks;
        let place = self.places.of_node(node)?;
        Some(Spot {
            which,
            place,
            node,
            part: Part::File {
                local: rank % self.shape.ranks,
                file,
            },
        })
    }

    /// The open dataset has a file more of a rank. After want of memory all is as before; it is answered too where no dataset is
    /// open, or the open one has no such rank or no room for the file, to which no run comes.
    pub fn route(&mut self, rank: u8, name: &Name) -> Result<(), SiteError>
        ensures within { OnOk result ((m : Manifest) → self.old.opened ≡ Some m → rank < length m.files) }
        ensures ok { OnOk result ((m : Manifest) → self.old.opened ≡ Some m → self.new ≡ record self.old { opened = Some (with_rows m rank (routed (rows_of m.files rank) name.now)) }) }
        ensures rest { self.new ≡ record self.old { opened = self.new.opened } }
        ensures err { OnErr result (self.new ≡ self.old) }
    {
        match &mut self.opened {
            Some(m) => m.route(rank, name),
            None => Err(SiteError::Memory),
        }
    }

    /// The last file of a rank of the open dataset is taken back.
    pub fn unroute(&mut self, rank: u8)
        ensures { self.new ≡ unrouted_core self.old rank }
    {
        if let Some(m) = &mut self.opened {
            m.unroute(rank);
        }
    }

    /// Whether the open dataset has the file of a rank, which may be so long.
    pub fn may_extend(&self, rank: u8, file: u8, len: u32) -> bool
        ensures { result ≡ true → IsSomeAnd self.now.opened (λ m. CanExtend m rank file len) }
    {
        match &self.opened {
            Some(m) => m.may_extend(rank, file, len),
            None => false,
        }
    }

    /// A rank's file of the open dataset is at least so long.
    pub fn extend(&mut self, rank: u8, file: u8, len: u32)
        requires { IsSomeAnd self.old.opened (λ m. CanExtend m rank file len) }
        ensures ok { (m : Manifest) → self.old.opened ≡ Some m → self.new ≡ record self.old { opened = Some (with_rows m rank (extended (rows_of m.files rank) file len)) } }
        ensures rest { self.new ≡ record self.old { opened = self.new.opened } }
    {
        let Some(m) = &mut self.opened else {
            unreachable!()
        };
        m.extend(rank, file, len);
    }

    /// Whether the ranks ask for the open dataset to be saved, and nothing speaks against it. Its one refusal is want of memory.
    pub fn is_to_save(&self, alloc: Global) -> Result<bool, SiteError>
        ensures round { IfOk result (λ is. is ≡ true → IsSaveRound self.now) }
        ensures exact { IfOk result (λ is. is ≡ is_to_save self.now) }
        ensures opened { IfOk result (λ is. is ≡ true → self.now.opened ≢ None) }
        ensures memory { OnErr result (result ≡ Err SiteError.Memory) }
    {
        let Some(_) = &self.opened else {
            return Ok(false);
        };
        let None = self.ranks.missing() else {
            return Ok(false);
        };
        if !self.ranks.is_valid() {
            return Ok(false);
        }
        let Some(call) = self.ranks.call(0) else {
            return Ok(false);
        };
        let Step::Complete { valid: _ } = call else {
            return Ok(false);
        };
        let verdict = self.verdict(alloc, call)?;
        match verdict {
            None => Ok(true),
            Some(_) => Ok(false),
        }
    }

    /// What comes after a sync of this node: the same of the next node, or the next thing of the first one.
    pub fn after(&self, node: u8, same: SaveStep, next: SaveStep) -> RunStage
        ensures { result ≡ (if nat_lt node (self.now.shape.nodes - 1) then RunStage.Saving same (node + 1) else RunStage.Saving next 0) }
    {
        if node < self.shape.nodes - 1 {
            RunStage::Saving {
                work: same,
                node: node + 1,
            }
        } else {
            RunStage::Saving {
                work: next,
                node: 0,
            }
        }
    }

    /// The dataset that is being saved: the open one, or the one in cache that is being sealed; none where there is neither.
    pub fn saved(&self) -> Option<DataId>
        ensures { result ≡ saved_in self.now.opened self.now.kept }
    {
        match &self.opened {
            Some(m) => Some(m.desc.which),
            None => self.kept.sealing(),
        }
    }

    /// The open dataset is in cache, and is being sealed. After want of memory all is as before.
    pub fn seal(&mut self) -> Result<(), SiteError>
        ensures sealed { OnOk result ((m : Manifest) → self.old.opened ≡ Some m → self.new ≡ sealed_core self.old m) }
        ensures same { IsSameCore self.old self.new }
        ensures err { OnErr result (self.new ≡ self.old) }
    {
        self.kept.take_up(&mut self.opened)?;
        Ok(())
    }

    /// The dataset that was taken into cache last is open again.
    pub fn unseal(&mut self)
        ensures back { (c : RunState) (m : Manifest) → self.old ≡ sealed_core c m → c.opened ≡ Some m → self.new ≡ c }
        ensures same { IsSameCore self.old self.new }
    {
        self.kept.give_back(&mut self.opened);
    }

    /// The dataset is settled.
    pub fn settle(&mut self, which: DataId)
        requires { self.old.settled < 4294967295 }
        ensures { self.new ≡ settled_core self.old which }
    {
        self.settled += self.kept.count(which);
        self.kept.settle(which);
        self.stage = RunStage::Serving;
    }

    /// The open dataset, where the ranks ask for it to be completed, not all of them say valid, and nothing speaks against the
    /// round; none otherwise. Its one refusal is want of memory.
    pub fn to_drop(&self, alloc: Global) -> Result<Option<DataId>, SiteError>
        ensures round { IfOk result (λ asked. IfSome asked (λ which. IsDropRound self.now which)) }
        ensures exact { IfOk result (λ asked. is_some asked ≡ is_to_drop self.now) }
    {
        let Some(m) = &self.opened else {
            return Ok(None);
        };
        let None = self.ranks.missing() else {
            return Ok(None);
        };
        if self.ranks.is_valid() {
            return Ok(None);
        }
        let Some(call) = self.ranks.call(0) else {
            return Ok(None);
        };
        let Step::Complete { valid: _ } = call else {
            return Ok(None);
        };
        let verdict = self.verdict(alloc, call)?;
        match verdict {
            None => Ok(Some(m.desc.which)),
            Some(_) => Ok(None),
        }
    }

    /// The files of the open dataset are to be removed, since the ranks ask for that, or a device refuses the round.
    pub fn begin_dropping(&mut self, which: DataId, refusal: Option<Refusal>)
        ensures { self.new ≡ dropping_core self.old which refusal }
    {
        self.removal = Removal::new(which, 0);
        self.refusal = refusal;
        self.stage = RunStage::Dropping {
            drop: DropStep::File,
            node: 0,
        };
    }

    /// The files on a node are removed: the next node comes, or all is done.
    pub fn drop_after(&mut self, node: u8)
        ensures { self.new ≡ (if nat_lt node (self.old.shape.nodes - 1) then next_drop_core self.old (node + 1) else record self.old { stage = RunStage.Dropped }) }
    {
        if node < self.shape.nodes - 1 {
            self.removal = Removal::new(self.removal.which(), node + 1);
            self.stage = RunStage::Dropping {
                drop: DropStep::File,
                node: node + 1,
            };
        } else {
            self.stage = RunStage::Dropped;
        }
    }

    /// What the round is answered whose dataset is gone.
    pub fn dropped_answer(&self) -> Reply
        ensures { result ≡ dropped_answer self.now.refusal }
    {
        match self.refusal {
            Some(refusal) => Reply::Refused { refusal },
            None => Reply::NotKept,
        }
    }

    /// The open dataset is gone.
    pub fn close_dropped(&mut self)
        ensures { self.new ≡ closed_core self.old }
    {
        self.opened = None;
        self.refusal = None;
        self.reading = None;
        self.phase = Phase::Idle;
        self.stage = RunStage::Serving;
    }

    /// Whether a checkpoint is wanted at this question of the run, counted from 1, and at this time.
    pub fn is_needed(&self, needs: u64, now: u64) -> bool
        ensures { result ≡ is_needed self.now needs now }
    {
        needs.is_multiple_of(u64::from(self.config.interval))
            || self.halt.reason(now, self.settled).is_some()
    }
}
