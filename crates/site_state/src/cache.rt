// The datasets in cache.
ghost use Rattle.std.specs.Prelude.{◌≡◌, ◌<◌, ◌++◌, ◌∷◌, [], true, List, IfOk, OnOk, OnErr, None, Some, Ok, Result, map, filter, length, fold, find, option_map, slice_get, slice_set, option_copied, IsSomeAnd};
ghost use Rattle.std.specs.List.{list_any};
ghost use Rattle.site_state.specs.Shown.{mends, settled_if, row_of, greatest_id};
ghost use Rattle.site_state.specs.Choosing.{seals, count_one};
ghost use Rattle.site_state.specs.Cores.{sealing_one};
ghost use Rattle.site_state.specs.declared.cache.Cached.{Cached};
ghost use Rattle.site_state.specs.declared.cache.Manifest.{Manifest};
ghost use Rattle.site_state.specs.Looks.{is_standing, found_member};

use ckpt_model::FoundRow;
use dataset_desc::Desc;
use filemap::Filemap;
use member_store::Member;
use scr_base::{Bytes, Config, DataId, Flags, Items, Memory};
use std::alloc::Global;
use std::marker::Model;

/// How far a dataset in cache has come.
#[derive(Clone, Copy, Debug, PartialEq, Eq)]
pub enum Mark {
    /// Recovery found it, and has yet to look after its members.
    Mending,
    /// Its members are being sealed.
    Sealing,
    /// Each of its members is whole, sealed and stable.
    Settled,
}

/// What a site knows of a dataset: what it is, and the files of all ranks with their lengths.
#[derive(Debug, Drop)]
pub struct Manifest {
    pub desc: Desc,
    pub files: Filemap,
}

/// A dataset in cache.
#[derive(Debug, Drop)]
pub struct Cached {
    pub manifest: Manifest,
    pub mark: Mark,
}

/// The datasets in cache, by ascending number.
#[derive(Debug, Drop)]
pub struct Cache {
    sets: Vec<Cached>,
}

impl Model for Cache {
    ghost use Rattle.std.specs.Prelude.{List};
    ghost use Rattle.site_state.specs.declared.cache.Cached.{Cached};

    ghost Value = { List Cached };

    ghost view = { λ c. c.sets.items };
}

impl Cached {
    ghost use Rattle.std.specs.Prelude.{◌≡◌};
    ghost use Rattle.ckpt_model.specs.Dataset.{is_checkpoint_flag, is_output_flag};
    ghost use Rattle.site_state.specs.Choosing.{is_due};

    /// Whether it is a checkpoint.
    pub(crate) fn is_checkpoint(&self) -> bool
        ensures { result ≡ is_checkpoint_flag self.now.manifest.desc.flags }
    {
        match self.manifest.desc.flags {
            Flags::Ckpt | Flags::Both => true,
            Flags::Output => false,
        }
    }

    /// Whether it is an output dataset.
    fn is_output(&self) -> bool
        ensures { result ≡ is_output_flag self.now.manifest.desc.flags }
    {
        match self.manifest.desc.flags {
            Flags::Output | Flags::Both => true,
            Flags::Ckpt => false,
        }
    }

    /// Whether it is settled, and is to be flushed.
    pub(crate) fn is_due(&self, config: Config) -> bool
        ensures { result ≡ is_due config self.now }
    {
        let id = self.manifest.desc.which.id;
        self.mark == Mark::Settled
            && (self.is_output()
                || self.is_checkpoint() && config.flush != 0 && id % config.flush == 0)
    }
}

impl Cache {
    /// No dataset.
    pub fn new(alloc: Global) -> Cache
        ensures { result ≡ [] }
    {
        Cache {
            sets: Vec::new(alloc),
        }
    }

    /// The datasets, by ascending number.
    pub fn list(&self) -> &[Cached]
        ensures { result.now ≡ self.now }
    {
        self.sets.as_slice()
    }

    /// The datasets of these members, of which each node has one, as recovery finds them: those that are whole and sealed.
    /// Its one refusal is want of memory.
    pub fn found(alloc: Global, members: Vec<Member>) -> Result<Cache, Memory>
        ensures { IfOk result (λ cache. cache ≡ map found_member (filter is_standing members.items)) }
    {
        let mut sets = Vec::new(alloc);
        for member in members {
            if member.whole && member.sealed {
                sets.push(Cached {
                    manifest: Manifest {
                        desc: member.desc,
                        files: member.files,
                    },
                    mark: Mark::Mending,
                })?;
            }
        }
        Ok(Cache { sets })
    }

    /// What a look tells of them: nothing of them is lost. Its one refusal is want of memory.
    pub fn rows(&self, alloc: Global) -> Result<Items<FoundRow>, Memory>
        ensures { IfOk result (λ rows. rows ≡ map row_of self.now) }
    {
        let mut rows = Vec::new(alloc);
        for set in self.list() {
            rows.push(FoundRow {
                which: set.manifest.desc.which,
                lost: Bytes::of(Vec::new(alloc)),
            })?;
        }
        Ok(Items::of(rows))
    }

    /// The greatest number, 0 for none.
    pub(crate) fn greatest(&self) -> u32
        ensures { result ≡ greatest_id self.now }
    {
        let mut greatest = 0;
        for set in self.list() {
            greatest = set.manifest.desc.which.id.max(greatest);
        }
        greatest
    }

    /// Takes the open dataset up behind the others, which is being sealed then. After want of memory all is as before.
    pub(crate) fn take_up(&mut self, opened: &mut Option<Manifest>) -> Result<(), Memory>
        ensures taken { OnOk result ((m : Manifest) → opened.old ≡ Some m → (self.new ≡ self.old ++ sealing_one m ∷ []) × (opened.new ≡ None)) }
        ensures err { OnErr result ((self.new ≡ self.old) × (opened.new ≡ opened.old)) }
    {
        self.sets.reserve(1)?;
        let Some(manifest) = opened.take() else {
            return Err(Memory);
        };
        let Ok(()) = self.sets.push(Cached {
            manifest,
            mark: Mark::Sealing,
        })
        else {
            unreachable!()
        };
        Ok(())
    }

    /// Gives the last dataset back, which is open again.
    pub(crate) fn give_back(&mut self, opened: &mut Option<Manifest>)
        ensures { (sets : List Cached) (set : Cached) → self.old ≡ sets ++ set ∷ [] → (self.new ≡ sets) × (opened.new ≡ Some set.manifest) }
    {
        if let Some(set) = self.sets.pop() {
            *opened = Some(set.manifest);
        }
    }

    /// The first that recovery has yet to look after; none where it has looked after all.
    pub fn to_mend(&self) -> Option<DataId>
        ensures { result ≡ option_map (λ set. set.manifest.desc.which) (find mends self.now) }
    {
        for set in self.list() {
            if set.mark == Mark::Mending {
                return Some(set.manifest.desc.which);
            }
        }
        None
    }

    /// The one that is being sealed.
    pub(crate) fn sealing(&self) -> Option<DataId>
        ensures { result ≡ option_map (λ set. set.manifest.desc.which) (find seals self.now) }
    {
        for set in self.list() {
            if set.mark == Mark::Sealing {
                return Some(set.manifest.desc.which);
            }
        }
        None
    }

    /// The dataset is settled.
    pub fn settle(&mut self, which: DataId)
        ensures { self.new ≡ map (settled_if which) self.old }
    {
        for set in self.sets.iter_mut() {
            if set.manifest.desc.which == which {
                set.mark = Mark::Settled;
            }
        }
    }

    /// How many checkpoints have this identity.
    pub(crate) fn count(&self, which: DataId) -> u32
        ensures { result ≡ count_one which self.now }
    {
        for set in self.list() {
            if set.manifest.desc.which == which && set.is_checkpoint() {
                return 1;
            }
        }
        0
    }
}
