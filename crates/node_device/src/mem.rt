// A device in memory.
ghost use Rattle.std.specs.Prelude.{◌≡◌, ◌≢◌, ◌<◌, ◌≤◌, ◌⊎◌, ◌+◌, ◌-◌, ◌^◌, ℕ, Bool, true, false, List, [], drop, Option, None, Some, Ok, Err, map, take, length, max, get_or, MatchOption, IfOk, OnOk, OnErr, IfErr, not, if◌then◌else◌};
ghost use Rattle.std.specs.List.{filter};
ghost use Rattle.std.specs.Cmp.Lexicographic.{slice_cmp};
ghost use Rattle.std.specs.Ordering.{nat_cmp};
ghost use Rattle.std.specs.declared.cmp.Ordering.TheVariants.{Less};
ghost use Rattle.node_device.specs.Limits.{max_end};
ghost use Rattle.node_device.specs.Answers.{WriteAnswers, RemoveAnswers};
ghost use Rattle.node_device.specs.Entry.{entry_name, entry_file};
ghost use Rattle.node_device.specs.File.{no_file};
ghost use Rattle.node_device.specs.DeviceState.{IsAscending};
ghost use Rattle.node_device.specs.Entries.{name_at, file_at, names_of, used_by, outcome_for, turn_behind, IsStopOf, AreSettledOutside, IsForgotten};

use crate::entry::Entry;
use crate::outcome::Outcome;
use crate::{DevError, Device};
use scr_base::{Bytes, Failing, Memory};
use std::alloc::{AllocError, Global};
use std::cmp::Ordering;

/// A device in memory, which tells its contents. A write costs its bytes, a look-up a binary search, and a sync what was
/// changed since the last one, with a step for each file whose name lies between those of changed ones.
#[derive(Drop)]
pub struct MemDevice {
    alloc: Global,
    /// By ascending name. The entry of a file that was removed stays, without bytes, until the next sync.
    entries: Vec<Entry>,
    /// From this place up to before `end` stands all that was changed since the last sync.
    start: usize,
    end: usize,
    used: u64,
    capacity: u64,
    failing: Failing,
    ghost ascending: { IsAscending (map entry_name entries.items) },
    ghost counted: { used ≡ used_by entries.items },
    ghost few: { length entries.items ≤ 2 ^ 33 },
    ghost fits: { failing.faults < 2 ^ 64 },
    ghost settled: { AreSettledOutside start end entries.items },
}

const MAX_END: u64 = 1073741824;

const MAX_ENTRIES: usize = 8589934592;

/// The place of a name, or where it would stand.
fn place(entries: &[Entry], name: &[u8]) -> Result<usize, usize>
    requires { IsAscending (map entry_name entries.now) }
    ensures found { IfOk result (λ i. i < length entries.now × name_at entries.now i ≡ name.now) }
    ensures absent { IfErr result (λ i. i ≤ length entries.now × ((j : ℕ) → j < i → slice_cmp nat_cmp (name_at entries.now j) name.now ≡ Less) × (i < length entries.now → slice_cmp nat_cmp name.now (name_at entries.now i) ≡ Less)) }
{
    let mut low = 0;
    let mut high = entries.len();
    while low < high {
        let middle = low + (high - low) / 2;
        match entries[middle].name.as_slice().cmp(name) {
            Ordering::Less => low = middle + 1,
            Ordering::Equal => return Ok(middle),
            Ordering::Greater => high = middle,
        }
    }
    Err(low)
}

/// The outcome that a number picks for a file whose turn is an odd one or not.
fn outcome_of(pick: u8, odd: bool) -> Outcome
    ensures { result ≡ outcome_for pick odd }
{
    match pick {
        0 => Outcome::AsRead,
        1 => Outcome::AsStable,
        2 => Outcome::Scrambled,
        _ => {
            if odd {
                Outcome::AsRead
            } else {
                Outcome::AsStable
            }
        }
    }
}

/// The turn behind a file.
fn next_turn(odd: bool, known: bool) -> bool
    ensures { result ≡ (if known then not odd else odd) }
{
    odd != known
}

/// The range of places with one more. It is empty where it ends at its start.
fn widened(start: usize, end: usize, at: usize) -> (usize, usize)
    requires { at < usize.MAX }
    ensures start { result.0 ≤ at }
    ensures end { at < result.1 }
    ensures low { start < end → result.0 ≤ start }
    ensures high { start < end → end ≤ result.1 }
    ensures no_more { result.1 ≤ max end (at + 1) }
{
    if start < end {
        (start.min(at), end.max(at + 1))
    } else {
        (at, at + 1)
    }
}

/// The range of places when one more is put in among them, with that one.
fn opened(start: usize, end: usize, at: usize) -> (usize, usize)
    requires at { at < usize.MAX }
    requires end { end < usize.MAX }
    ensures start { result.0 ≤ at }
    ensures end { at < result.1 }
    ensures low { start < end → result.0 ≤ start }
    ensures high { start < end → end < result.1 }
    ensures no_more { result.1 ≤ max end at + 1 }
{
    if start < end {
        (start.min(at), end.max(at) + 1)
    } else {
        (at, at + 1)
    }
}

/// Stops each file.
fn stop_each(entries: &mut [Entry], alloc: Global, pick: u8)
    ensures { (k : ℕ) (d : Entry) → k < length entries.old → IsStopOf (outcome_for pick (turn_behind true (take k entries.old))) (get_or entries.old k d) (get_or entries.new k d) }
{
    let mut odd = true;
    for entry in entries.iter_mut() {
        let outcome = outcome_of(pick, odd);
        odd = next_turn(odd, entry.is_known());
        entry.stop(alloc, outcome);
    }
}

fn stop_entries(entries: &mut Vec<Entry>, alloc: Global, pick: u8)
    ensures len { length entries.new.items ≡ length entries.old.items }
    ensures each { (k : ℕ) (d : Entry) → k < length entries.old.items → IsStopOf (outcome_for pick (turn_behind true (take k entries.old.items))) (get_or entries.old.items k d) (get_or entries.new.items k d) }
{
    stop_each(entries, alloc, pick);
}

/// Makes stable what the files of a range read as, where all others are so already.
fn settle_range(entries: &mut Vec<Entry>, alloc: Global, start: usize, end: usize)
    requires { AreSettledOutside start end entries.old.items }
    ensures len { length entries.new.items ≡ length entries.old.items }
    ensures each { (k : ℕ) (d : Entry) → k < length entries.old.items → IsStopOf Outcome.AsRead (get_or entries.old.items k d) (get_or entries.new.items k d) }
    ensures outside { AreSettledOutside start end entries.new.items }
{
    for i in start..end {
        entries[i].stop(alloc, Outcome::AsRead);
    }
}

/// Are these files all there?
fn are_there(entries: &[Entry]) -> bool
    ensures { result ≡ true → (k : ℕ) (d : Entry) → k < length entries.now → (get_or entries.now k d).there ≡ true }
{
    for entry in entries {
        if !entry.there {
            return false;
        }
    }
    true
}

/// Drops the entries of files that aren't there, all of which stand in a range.
fn drop_absent(entries: &mut Vec<Entry>, start: usize, end: usize)
    requires { AreSettledOutside start end entries.old.items }
    ensures { entries.new.items ≡ filter (λ e. e.there) entries.old.items }
{
    if !are_there(&entries[start..end]) {
        entries.retain(|entry| entry.there);
    }
}

fn list_names(alloc: Global, entries: &[Entry]) -> Result<Vec<Bytes>, AllocError>
    ensures { IfOk result (λ names. names.items ≡ names_of entries.now) }
{
    let mut names = Vec::new(alloc);
    for entry in entries {
        if entry.there {
            names.push(Bytes::of(entry.name.to_vec(alloc)?))?;
        }
    }
    Ok(names)
}

fn sum_of_lens(entries: &[Entry]) -> u64
    requires { used_by entries.now < 2 ^ 64 }
    ensures { result ≡ used_by entries.now }
{
    entries.iter().map(|entry| entry.len()).sum()
}

/// Whether the first write to a file is refused.
fn check_new(used: u64, capacity: u64, count: usize, at: usize, len: usize) -> Result<(), DevError>
    requires { at + len ≤ max_end }
    ensures answer { WriteAnswers no_file used capacity at len result }
    ensures count { OnOk result (count < 2 ^ 33) }
    ensures no_fault { IfErr result (λ e. e ≢ DevError.Failed) }
{
    let growth = (at + len) as u64;
    if growth > 0 && (used > capacity || growth > capacity - used) {
        return Err(DevError::Full);
    }
    if count >= MAX_ENTRIES {
        return Err(DevError::Memory);
    }
    Ok(())
}

impl MemDevice {
    ghost use Rattle.node_device.specs.MemState.{mem_state, failing_calls, calls_of, FailsIfListed, CountsCall};
    ghost use Rattle.node_device.specs.File.{IsEmpty};
    ghost use Rattle.node_device.specs.DeviceState.{IsUnchanged};
    ghost use Rattle.node_device.specs.Answers.{HasDeviceCause};

    /// An empty device. Of its calls size, read, write, sync, remove and names, counted from 1, those listed fail.
    pub fn new(alloc: Global, capacity: u64, fail: Vec<u64>) -> Result<MemDevice, Memory>
        ensures tells { IfOk result (λ d. (mem_state d).tells ≡ true) }
        ensures names { IfOk result (λ d. (mem_state d).names ≡ []) }
        ensures empty { IfOk result (λ d. (q : List ℕ) → IsEmpty ((mem_state d).file q)) }
        ensures capacity { IfOk result (λ d. (mem_state d).capacity ≡ capacity) }
        ensures faults { IfOk result (λ d. (mem_state d).faults ≡ 0) }
        ensures failing { IfOk result (λ d. failing_calls d ≡ fail.items) }
        ensures calls { IfOk result (λ d. calls_of d ≡ 0) }
    {
        Ok(MemDevice {
            alloc,
            entries: Vec::new(alloc),
            start: 0,
            end: 0,
            used: 0,
            capacity,
            failing: Failing::new(fail),
        })
    }

    /// Counts a call, and says whether it fails.
    fn count_call(&mut self) -> Result<(), DevError>
        ensures same { IsUnchanged (mem_state self.old) (mem_state self.new) }
        ensures entries { self.new.entries.items ≡ self.old.entries.items }
        ensures cause { HasDeviceCause (mem_state self.old) (mem_state self.new) result }
        ensures failed { IfErr result (λ e. e ≡ DevError.Failed) }
        ensures listed { FailsIfListed self.old result }
        ensures counts { CountsCall self.old self.new }
    {
        if self.failing.fails() {
            self.failing.fault();
            return Err(DevError::Failed);
        }
        Ok(())
    }
}

impl MemDevice {
    ghost use Rattle.node_device.specs.MemState.{mem_state};
    ghost use Rattle.node_device.specs.File.{Torn, IsRemoved, IsAtRest, IsPartlySynced, written, grown, bytes_of};
    ghost use Rattle.node_device.specs.DeviceState.{ChangesOnly, ReadsAlike, IsDeviceName, used_of};

    fn used_now(&self) -> u64
        ensures { result ≡ used_of (mem_state self.now) }
    {
        self.used
    }

    /// Writes to the file of an entry.
    fn write_entry(&mut self, i: usize, at: usize, bytes: &[u8]) -> Result<(), DevError>
        requires i { i < length self.old.entries.items }
        requires end { at + length bytes.now ≤ max_end }
        ensures answer { WriteAnswers ((mem_state self.old).file (name_at self.old.entries.items i)) (used_of (mem_state self.old)) self.old.capacity at (length bytes.now) result }
        ensures len { OnOk result (((mem_state self.new).file (name_at self.old.entries.items i)).len ≡ Some (grown ((mem_state self.old).file (name_at self.old.entries.items i)).len at (length bytes.now))) }
        ensures now { OnOk result (((mem_state self.new).file (name_at self.old.entries.items i)).now ≡ Some (written (bytes_of ((mem_state self.old).file (name_at self.old.entries.items i)).now) at bytes.now)) }
        ensures torn { Torn at (length bytes.now) ((mem_state self.old).file (name_at self.old.entries.items i)) ((mem_state self.new).file (name_at self.old.entries.items i)) }
        ensures refused { OnErr result (ReadsAlike (mem_state self.old) (mem_state self.new)) }
        ensures spared { OnErr result (mem_state self.new ≡ mem_state self.old) }
        ensures only { ChangesOnly (name_at self.old.entries.items i) (mem_state self.old) (mem_state self.new) }
        ensures failing { self.new.failing ≡ self.old.failing }
        ensures no_fault { IfErr result (λ e. e ≢ DevError.Failed) }
    {
        let used = self.used_now();
        let before = self.entries[i].len();
        let result = self.entries[i].write(self.alloc, used, self.capacity, at, bytes);
        self.used = used - before + self.entries[i].len();
        let range = widened(self.start, self.end, i);
        self.start = range.0;
        self.end = range.1;
        result
    }

    /// Writes to a file under a name that no entry has.
    fn write_new(&mut self, i: usize, name: &[u8], at: usize, bytes: &[u8]) -> Result<(), DevError>
        requires name { IsDeviceName name.now }
        requires i { i ≤ length self.old.entries.items }
        requires before { (j : ℕ) → j < i → slice_cmp nat_cmp (name_at self.old.entries.items j) name.now ≡ Less }
        requires after { i < length self.old.entries.items → slice_cmp nat_cmp name.now (name_at self.old.entries.items i) ≡ Less }
        requires absent { (mem_state self.old).file name.now ≡ no_file }
        requires end { at + length bytes.now ≤ max_end }
        ensures answer { WriteAnswers ((mem_state self.old).file name.now) (used_of (mem_state self.old)) self.old.capacity at (length bytes.now) result }
        ensures len { OnOk result (((mem_state self.new).file name.now).len ≡ Some (grown ((mem_state self.old).file name.now).len at (length bytes.now))) }
        ensures now { OnOk result (((mem_state self.new).file name.now).now ≡ Some (written (bytes_of ((mem_state self.old).file name.now).now) at bytes.now)) }
        ensures torn { Torn at (length bytes.now) ((mem_state self.old).file name.now) ((mem_state self.new).file name.now) }
        ensures refused { OnErr result (ReadsAlike (mem_state self.old) (mem_state self.new)) }
        ensures spared { OnErr result (mem_state self.new ≡ mem_state self.old) }
        ensures only { ChangesOnly name.now (mem_state self.old) (mem_state self.new) }
        ensures failing { self.new.failing ≡ self.old.failing }
        ensures no_fault { IfErr result (λ e. e ≢ DevError.Failed) }
    {
        let used = self.used_now();
        check_new(used, self.capacity, self.entries.len(), at, bytes.len())?;
        let mut entry = Entry::absent(self.alloc, name)?;
        entry.put(self.alloc, at, bytes)?;
        let added = entry.len();
        self.entries.insert(i, entry)?;
        self.used = used + added;
        let range = opened(self.start, self.end, i);
        self.start = range.0;
        self.end = range.1;
        Ok(())
    }

    /// Removes the file of an entry.
    fn remove_entry(&mut self, i: usize) -> Result<(), DevError>
        requires { i < length self.old.entries.items }
        ensures answer { RemoveAnswers ((mem_state self.old).file (name_at self.old.entries.items i)) result }
        ensures removed { OnOk result (IsRemoved ((mem_state self.old).file (name_at self.old.entries.items i)) ((mem_state self.new).file (name_at self.old.entries.items i))) }
        ensures refused { OnErr result (mem_state self.new ≡ mem_state self.old) }
        ensures only { ChangesOnly (name_at self.old.entries.items i) (mem_state self.old) (mem_state self.new) }
        ensures failing { self.new.failing ≡ self.old.failing }
        ensures no_fault { IfErr result (λ e. e ≢ DevError.Failed) }
    {
        if !self.entries[i].there {
            return Err(DevError::NoFile);
        }
        self.used -= self.entries[i].len();
        self.entries[i].remove(self.alloc);
        let range = widened(self.start, self.end, i);
        self.start = range.0;
        self.end = range.1;
        Ok(())
    }

    /// Leaves the outcome that a number picks, and makes it stable.
    fn leave(&mut self, pick: u8)
        requires { pick ≤ 3 }
        ensures len { length self.new.entries.items ≡ length self.old.entries.items }
        ensures each { (k : ℕ) (d : Entry) → k < length self.old.entries.items → IsStopOf (outcome_for pick (turn_behind true (take k self.old.entries.items))) (get_or self.old.entries.items k d) (get_or self.new.entries.items k d) }
        ensures failing { self.new.failing ≡ self.old.failing }
        ensures capacity { self.new.capacity ≡ self.old.capacity }
    {
        stop_entries(&mut self.entries, self.alloc, pick);
        self.used = sum_of_lens(&self.entries);
        self.start = 0;
        self.end = self.entries.len();
    }

    /// Makes stable what each file reads as.
    fn rest(&mut self)
        ensures len { length self.new.entries.items ≡ length self.old.entries.items }
        ensures each { (k : ℕ) (d : Entry) → k < length self.old.entries.items → IsStopOf Outcome.AsRead (get_or self.old.entries.items k d) (get_or self.new.entries.items k d) }
        ensures failing { self.new.failing ≡ self.old.failing }
        ensures capacity { self.new.capacity ≡ self.old.capacity }
    {
        settle_range(&mut self.entries, self.alloc, self.start, self.end);
    }

    /// Forgets the files that aren't there, where nothing is pending.
    fn forget(&mut self)
        requires { (k : ℕ) (d : Entry) → k < length self.old.entries.items → IsAtRest (entry_file (get_or self.old.entries.items k d)) }
        ensures names { (mem_state self.new).names ≡ (mem_state self.old).names }
        ensures files { (q : List ℕ) → IsForgotten ((mem_state self.old).file q) ((mem_state self.new).file q) }
        ensures failing { self.new.failing ≡ self.old.failing }
        ensures capacity { self.new.capacity ≡ self.old.capacity }
    {
        drop_absent(&mut self.entries, self.start, self.end);
        self.start = 0;
        self.end = 0;
    }

    /// Makes all that a read gives stable.
    fn settle(&mut self)
        ensures alike { ReadsAlike (mem_state self.old) (mem_state self.new) }
        ensures at_rest { (q : List ℕ) → IsAtRest ((mem_state self.new).file q) }
        ensures partly { (q : List ℕ) → IsPartlySynced ((mem_state self.old).file q) ((mem_state self.new).file q) }
        ensures failing { self.new.failing ≡ self.old.failing }
    {
        self.rest();
        self.forget();
    }

    fn find_place(&self, name: &[u8]) -> Result<usize, usize>
        ensures found { IfOk result (λ i. i < length self.now.entries.items × name_at self.now.entries.items i ≡ name.now) }
        ensures place { IfErr result (λ i. i ≤ length self.now.entries.items × ((j : ℕ) → j < i → slice_cmp nat_cmp (name_at self.now.entries.items j) name.now ≡ Less) × (i < length self.now.entries.items → slice_cmp nat_cmp name.now (name_at self.now.entries.items i) ≡ Less)) }
        ensures absent { OnErr result ((mem_state self.now).file name.now ≡ no_file) }
    {
        place(&self.entries, name)
    }

    fn find(&self, name: &[u8]) -> Option<&Entry>
        ensures { MatchOption result ((mem_state self.now).file name.now ≡ no_file) (λ e. (mem_state self.now).file name.now ≡ entry_file e.now) }
    {
        match self.find_place(name) {
            Ok(i) => Some(&self.entries[i]),
            Err(_) => None,
        }
    }
}

impl Device for MemDevice {
    ghost use Rattle.node_device.specs.MemState.{mem_state, FailsIfListed, CountsCall, CountsNone};
    ghost use Rattle.node_device.specs.MemSound.{mem_sound};
    ghost use Rattle.node_device.specs.Picks.{IsPicked};
    ghost use Rattle.node_device.specs.File.{IsAtRest, Torn, IsRemoved, IsPartlySynced, IsEmpty, MayLeave, written, grown, bytes_of};
    ghost use Rattle.node_device.specs.DeviceState.{IsDeviceName, IsUnchanged, ChangesOnly, ReadsAlike, TellsOn, used_of};
    ghost use Rattle.node_device.specs.Answers.{HasDeviceCause, IsSpared, SizeAnswers, ReadAnswers, WriteAnswers, SyncAnswers, RemoveAnswers, NamesAnswers};

    ghost state = { mem_state };

    ghost leaves = { IsPicked };

    ghost sound = { mem_sound };

    fn size(&mut self, name: &[u8]) -> Result<u64, DevError>
        requires { IsDeviceName name.now }
        ensures answer { SizeAnswers ((mem_state self.old).file name.now) result }
        ensures same { IsUnchanged (mem_state self.old) (mem_state self.new) }
        ensures cause { HasDeviceCause (mem_state self.old) (mem_state self.new) result }
        ensures listed { FailsIfListed self.old result }
        ensures counts { CountsCall self.old self.new }
    {
        self.count_call()?;
        match self.find(name) {
            Some(entry) => entry.size(),
            None => Err(DevError::NoFile),
        }
    }

    fn read(&mut self, name: &[u8], at: u64, into: &mut [u8]) -> Result<(), DevError>
        requires { IsDeviceName name.now }
        ensures answer { ReadAnswers ((mem_state self.old).file name.now) at (length into.old) result }
        ensures bytes { (mem_state self.old).tells ≡ true → OnOk result (into.new ≡ take (length into.old) (drop at (bytes_of ((mem_state self.old).file name.now).now))) }
        ensures same { IsUnchanged (mem_state self.old) (mem_state self.new) }
        ensures cause { HasDeviceCause (mem_state self.old) (mem_state self.new) result }
        ensures listed { FailsIfListed self.old result }
        ensures counts { CountsCall self.old self.new }
    {
        self.count_call()?;
        match self.find(name) {
            Some(entry) => entry.read(at, into),
            None => Err(DevError::NoFile),
        }
    }

    fn write(&mut self, name: &[u8], at: u64, bytes: &[u8]) -> Result<(), DevError>
        requires { IsDeviceName name.now }
        ensures answer { WriteAnswers ((mem_state self.old).file name.now) (used_of (mem_state self.old)) (mem_state self.old).capacity at (length bytes.now) result }
        ensures len { OnOk result (((mem_state self.new).file name.now).len ≡ Some (grown ((mem_state self.old).file name.now).len at (length bytes.now))) }
        ensures now { (mem_state self.old).tells ≡ true → OnOk result (((mem_state self.new).file name.now).now ≡ Some (written (bytes_of ((mem_state self.old).file name.now).now) at bytes.now)) }
        ensures torn { Torn at (length bytes.now) ((mem_state self.old).file name.now) ((mem_state self.new).file name.now) }
        ensures refused { OnErr result (ReadsAlike (mem_state self.old) (mem_state self.new)) }
        ensures spared { IsSpared (mem_state self.old) (mem_state self.new) result }
        ensures only { ChangesOnly name.now (mem_state self.old) (mem_state self.new) }
        ensures cause { HasDeviceCause (mem_state self.old) (mem_state self.new) result }
        ensures listed { FailsIfListed self.old result }
        ensures counts { CountsCall self.old self.new }
    {
        self.count_call()?;
        if at > MAX_END || bytes.len() as u64 > MAX_END - at {
            return Err(DevError::Range);
        }
        match self.find_place(name) {
            Ok(i) => self.write_entry(i, at as usize, bytes),
            Err(i) => self.write_new(i, name, at as usize, bytes),
        }
    }

    fn sync(&mut self) -> Result<(), DevError>
        ensures answer { SyncAnswers result }
        ensures alike { ReadsAlike (mem_state self.old) (mem_state self.new) }
        ensures at_rest { OnOk result ((q : List ℕ) → IsAtRest ((mem_state self.new).file q)) }
        ensures partly { (q : List ℕ) → IsPartlySynced ((mem_state self.old).file q) ((mem_state self.new).file q) }
        ensures cause { HasDeviceCause (mem_state self.old) (mem_state self.new) result }
        ensures listed { FailsIfListed self.old result }
        ensures counts { CountsCall self.old self.new }
    {
        self.count_call()?;
        self.settle();
        Ok(())
    }

    fn remove(&mut self, name: &[u8]) -> Result<(), DevError>
        requires { IsDeviceName name.now }
        ensures answer { RemoveAnswers ((mem_state self.old).file name.now) result }
        ensures removed { OnOk result (IsRemoved ((mem_state self.old).file name.now) ((mem_state self.new).file name.now)) }
        ensures refused { OnErr result (IsUnchanged (mem_state self.old) (mem_state self.new)) }
        ensures only { ChangesOnly name.now (mem_state self.old) (mem_state self.new) }
        ensures cause { HasDeviceCause (mem_state self.old) (mem_state self.new) result }
        ensures listed { FailsIfListed self.old result }
        ensures counts { CountsCall self.old self.new }
    {
        self.count_call()?;
        match self.find_place(name) {
            Ok(i) => self.remove_entry(i),
            Err(_) => Err(DevError::NoFile),
        }
    }

    fn names(&mut self) -> Result<Vec<Bytes>, DevError>
        ensures answer { NamesAnswers result }
        ensures names { IfOk result (λ names. names.items ≡ (mem_state self.old).names) }
        ensures same { IsUnchanged (mem_state self.old) (mem_state self.new) }
        ensures cause { HasDeviceCause (mem_state self.old) (mem_state self.new) result }
        ensures listed { FailsIfListed self.old result }
        ensures counts { CountsCall self.old self.new }
    {
        self.count_call()?;
        Ok(list_names(self.alloc, &self.entries)?)
    }

    fn used(&self) -> u64 {
        self.used_now()
    }

    fn capacity(&self) -> u64 {
        self.capacity
    }

    fn faults(&self) -> u64 {
        self.failing.faults
    }

    fn crash(&mut self, pick: u8)
        requires { pick ≤ 3 }
        ensures tells { TellsOn (mem_state self.old) (mem_state self.new) }
        ensures outcome { (mem_state self.new).tells ≡ true → (q : List ℕ) → MayLeave ((mem_state self.old).file q) ((mem_state self.new).file q).now }
        ensures at_rest { (q : List ℕ) → IsAtRest ((mem_state self.new).file q) }
        ensures picked { IsPicked pick (mem_state self.old) (mem_state self.new) }
        ensures uncounted { CountsNone self.old self.new }
        ensures goes_on { (mem_state self.new).tells ≡ true }
        ensures no_fault { (mem_state self.new).faults ≡ (mem_state self.old).faults }
    {
        self.leave(pick);
        self.forget();
    }

    fn wipe(&mut self)
        ensures tells { TellsOn (mem_state self.old) (mem_state self.new) }
        ensures names { (mem_state self.new).names ≡ [] }
        ensures empty { (q : List ℕ) → IsEmpty ((mem_state self.new).file q) }
        ensures uncounted { CountsNone self.old self.new }
        ensures goes_on { (mem_state self.new).tells ≡ true }
        ensures no_fault { (mem_state self.new).faults ≡ (mem_state self.old).faults }
    {
        self.entries.clear();
        self.start = 0;
        self.end = 0;
        self.used = 0;
    }
}
