// What speaks against a round, or against a rank's own step.
ghost use Rattle.std.specs.Prelude.{◌≡◌, ◌<◌, ◌≤◌, ◌^◌, ◌+◌, ℕ, true, false, not, ◌&&◌, bytes_eq, find, nat_le, nat_lt, IfOk, IfSome, OnErr, Err, Some, None, List, length, option_map, option_copied, fold, drop};
ghost use Rattle.std.specs.List.{list_any};
ghost use Rattle.scr_base.specs.Calls.{has_bad_name};
ghost use Rattle.scr_base.specs.Words.{is_name};
ghost use Rattle.scr_base.specs.Bytes.{bytes_for};
ghost use Rattle.ckpt_model.specs.Answers.{is_fault};
ghost use Rattle.scr_base.specs.declared.answers.Reply.TheVariants as reply;
ghost use Rattle.filemap.specs.Rows.{IsRows, is_routed, place_of};
ghost use Rattle.round_core.specs.Seats.{is_complete};
ghost use Rattle.site_state.specs.Choosing.{verdict_of, local_verdict_of, named_in, set_in, newest_of, newer_with, is_settled_one, is_due, rows_at, at_hand, lacks_file, is_over_limit};

use crate::cache::{Cache, Cached, Manifest, Mark};
use crate::error::SiteError;
use crate::rows::{place_in, rows_of};
use crate::run_state::RunState;
use filemap::FileRow;
use round_core::{phase_allows, step_is_valid};
use scr_base::{Config, Content, DataId, Name, NameError, Phase, Refusal, Step, Word};
use std::alloc::Global;

/// Whether the word is a name.
fn is_name(alloc: Global, word: &Word) -> Result<bool, SiteError>
    ensures named { IfOk result (λ is. is ≡ is_name word.now) }
    ensures memory { OnErr result (result ≡ Err SiteError.Memory) }
{
    match Name::read(alloc, word.bytes()) {
        Ok(_) => Ok(true),
        Err(NameError::BadName) => Ok(false),
        Err(NameError::Memory) => Err(SiteError::Memory),
    }
}

/// Whether the step's word is no name.
fn has_bad_name(alloc: Global, step: &Step) -> Result<bool, SiteError>
    ensures bad { IfOk result (λ bad. bad ≡ has_bad_name step.now) }
    ensures memory { OnErr result (result ≡ Err SiteError.Memory) }
{
    match step {
        Step::Start { name, .. }
        | Step::Route { name }
        | Step::Write { name, .. }
        | Step::Read { name, .. } => { Ok(!is_name(alloc, name)?) }
        _ => Ok(false),
    }
}

impl Cache {
    /// The identity of the dataset in cache that has the name.
    pub(crate) fn named(&self, name: &[u8]) -> Option<DataId>
        ensures { result ≡ named_in self.now name.now }
    {
        for set in self.list() {
            if has_name(set, name) {
                return Some(set.manifest.desc.which);
            }
        }
        None
    }

    /// The dataset in cache of this identity.
    pub(crate) fn set(&self, which: DataId) -> Option<&Manifest>
        ensures { option_copied result ≡ set_in self.now which }
    {
        for set in self.list() {
            if set.manifest.desc.which == which {
                return Some(&set.manifest);
            }
        }
        None
    }

    /// The newest checkpoint in cache; none where there is no checkpoint.
    pub fn newest(&self) -> Option<&Manifest>
        ensures { option_copied result ≡ newest_of self.now }
    {
        let mut best: Option<&Manifest> = None;
        for set in self.list() {
            best = newer(best, set);
        }
        best
    }

    /// The smallest identity of a dataset that is to be flushed.
    pub fn due(&self, config: Config) -> Option<DataId>
        ensures { result ≡ option_map (λ set. set.manifest.desc.which) (find (is_due config) self.now) }
    {
        let set = self.list().iter().find(|set| set.is_due(config))?;
        Some(set.manifest.desc.which)
    }

    /// Whether this dataset is in cache, settled.
    pub fn has_settled(&self, which: DataId) -> bool
        ensures { result ≡ list_any (is_settled_one which) self.now }
    {
        self.list().iter().any(|set| set.manifest.desc.which == which && set.mark == Mark::Settled)
    }
}

/// Whether the dataset has the name.
fn has_name(set: &Cached, name: &[u8]) -> bool
    ensures { result ≡ bytes_eq set.now.manifest.desc.name name.now }
{
    set.manifest.desc.name.bytes() == name
}

/// The newest checkpoint so far, with one dataset more.
fn newer<'a>(best: Option<&'a Manifest>, set: &'a Cached) -> Option<&'a Manifest>
    ensures { option_copied result ≡ newer_with (option_copied best.entry) set.now }
{
    if !set.is_checkpoint() {
        return best;
    }
    match best {
        Some(found) if found.desc.which.id >= set.manifest.desc.which.id => Some(found),
        _ => Some(&set.manifest),
    }
}

impl RunState {
    /// What speaks against a complete round that begins with this call; none where nothing does. Its one refusal is want of memory.
    pub fn verdict(&self, alloc: Global, call: &Step) -> Result<Option<Refusal>, SiteError>
        requires { is_complete self.now.ranks ≡ true }
        ensures verdict { IfOk result (λ v. v ≡ verdict_of self.now call.now) }
        ensures no_fault { IfOk result (λ v. IfSome v (λ r. is_fault (reply.Refused r) ≡ false)) }
        ensures memory { OnErr result (result ≡ Err SiteError.Memory) }
    {
        if let Some(refusal) = self.ranks.judge(self.phase) {
            return Ok(Some(refusal));
        }
        if has_bad_name(alloc, call)? {
            return Ok(Some(Refusal::BadName));
        }
        match call {
            Step::Start { name, .. } => {
                if self.next > 4_294_967_295 {
                    return Ok(Some(Refusal::Limit));
                }
                match self.kept.named(name.bytes()) {
                    Some(which) => Ok(Some(Refusal::NameTaken { which })),
                    None => Ok(None),
                }
            }
            _ => Ok(None),
        }
    }

    /// The dataset that the ranks' own steps work on.
    pub(crate) fn at_hand(&self) -> Option<&Manifest>
        ensures { option_copied result ≡ at_hand self.now }
    {
        match self.phase {
            Phase::Output => self.opened.as_ref(),
            Phase::Restart => self.kept.set(self.offer?),
            _ => None,
        }
    }

    /// What speaks against a rank's own step; none where nothing does. Its one refusal is want of memory.
    pub fn local_verdict(
        &self,
        alloc: Global,
        rank: u8,
        call: &Step,
    ) -> Result<Option<Refusal>, SiteError>
        ensures verdict { IfOk result (λ v. v ≡ local_verdict_of self.now rank call.now) }
        ensures no_fault { IfOk result (λ v. IfSome v (λ r. is_fault (reply.Refused r) ≡ false)) }
        ensures memory { OnErr result (result ≡ Err SiteError.Memory) }
    {
        if !phase_allows(self.phase, call) {
            return Ok(Some(Refusal::Phase { phase: self.phase }));
        }
        if has_bad_name(alloc, call)? {
            return Ok(Some(Refusal::BadName));
        }
        if self.lacks_file(rank, call) {
            return Ok(Some(Refusal::NoFile));
        }
        if self.is_over_limit(rank, call) {
            return Ok(Some(Refusal::Limit));
        }
        Ok(None)
    }

    /// A rank's files of the dataset that the ranks' own steps work on.
    pub fn rows_at(&self, rank: u8) -> &[FileRow]
        ensures value { result.now ≡ rows_at self.now rank }
        ensures rows { IsRows result.now }
    {
        match self.at_hand() {
            Some(m) => rows_of(m, rank),
            None => &[],
        }
    }

    /// Whether a rank has a file of this name there.
    pub fn has_file(&self, rank: u8, name: &[u8]) -> bool
        ensures { result ≡ is_routed (rows_at self.now rank) name.now }
    {
        let rows = self.rows_at(rank);
        place_in(rows, name) < rows.len()
    }

    /// The number of a rank's file of this name there, or how many files it has.
    pub fn number_of(&self, rank: u8, name: &[u8]) -> u8
        ensures number { result ≡ place_of (rows_at self.now rank) name.now }
        ensures within { result ≤ length (rows_at self.now rank) }
        ensures rows { IsRows (rows_at self.now rank) }
    {
        place_in(self.rows_at(rank), name) as u8
    }

    /// Whether the step names a file that isn't there.
    fn lacks_file(&self, rank: u8, call: &Step) -> bool
        ensures { result ≡ lacks_file self.now rank call.now }
    {
        match call {
            Step::Route { name } => {
                self.phase == Phase::Restart && !self.has_file(rank, name.bytes())
            }
            Step::Write { name, .. } | Step::Read { name, .. } => {
                !self.has_file(rank, name.bytes())
            }
            _ => false,
        }
    }

    /// Whether the step would pass a limit on files.
    fn is_over_limit(&self, rank: u8, call: &Step) -> bool
        ensures { result ≡ is_over_limit self.now rank call.now }
    {
        match call {
            Step::Route { name } => {
                self.phase == Phase::Output
                    && !self.has_file(rank, name.bytes())
                    && self.rows_at(rank).len() >= 16
            }
            Step::Write { at, content, .. } => ends_late(*at, content, rank),
            _ => false,
        }
    }
}

/// Whether a write of the content at a place would end past 1,048,576 bytes.
fn ends_late(at: u32, content: &Content, rank: u8) -> bool
    ensures { result ≡ nat_lt 1048576 (at + length (bytes_for content.now rank)) }
{
    let len = length_at(content, rank);
    len > 1_048_576 || at as u64 + len > 1_048_576
}

/// Where a write of the content at a place ends.
pub fn end_of(at: u32, content: &Content, rank: u8) -> u32
    requires { at + length (bytes_for content.now rank) ≤ 1048576 }
    ensures { result ≡ at + length (bytes_for content.now rank) }
{
    at + length_at(content, rank) as u32
}

/// How many bytes a rank writes of the content.
fn length_at(content: &Content, rank: u8) -> u64
    ensures { result ≡ length (bytes_for content.now rank) }
{
    match content {
        Content::Text(word) => word.bytes().len() as u64,
        Content::Hex(bytes) => bytes.list().len() as u64,
        Content::Fill { len, .. } => *len as u64,
    }
}
