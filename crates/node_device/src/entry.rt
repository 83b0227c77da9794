// One file of the memory device.
ghost use Rattle.std.specs.Prelude.{◌≡◌, ◌<◌, ◌≤◌, ◌⊎◌, ◌+◌, ◌-◌, ◌^◌, ℕ, true, false, Option, None, Some, length, take, drop, IsSome, IfOk, OnOk, OnErr, IfErr, max, vec_len, ◌||◌, ◌≢◌};
ghost use Rattle.node_device.specs.Held.{IsSoundFile};
ghost use Rattle.node_device.specs.DeviceState.{IsDeviceName};

use crate::changes::Changes;
use crate::outcome::Outcome;
use crate::{DevError, held};
use std::alloc::{AllocError, Global};
use std::mem;

/// What stands under a name: the bytes, and what is wanted to go back to the last sync.
#[derive(Drop)]
pub struct Entry {
    pub name: Vec<u8>,
    /// Whether the file is there now, and whether it was at the last sync.
    pub there: bool,
    pub was_there: bool,
    /// It was created or removed since.
    fluid: bool,
    pub bytes: Vec<u8>,
    /// The stable bytes of a file that was removed since; of another they are what the changes go back to.
    kept: Vec<u8>,
    stable_len: usize,
    /// Its greatest length since the last sync.
    greatest: usize,
    changes: Changes,
    ghost named: { IsDeviceName name.items },
    ghost sound: { IsSoundFile there was_there fluid bytes.items kept.items stable_len greatest changes },
}

impl Entry {
    ghost use Rattle.node_device.specs.Held.{left_by, there_left};
    ghost use Rattle.node_device.specs.Entry.{entry_file, entry_name};
    ghost use Rattle.node_device.specs.Limits.{max_end};
    ghost use Rattle.node_device.specs.Answers.{SizeAnswers, ReadAnswers, WriteAnswers};
    ghost use Rattle.node_device.specs.File.{no_file, Torn, IsKept, IsRemoved, IsAtRest, MayLeave, written, grown, bytes_of};

    /// There is nothing, and nothing can come back.
    pub fn absent(alloc: Global, name: &[u8]) -> Result<Entry, AllocError>
        requires { IsDeviceName name.now }
        ensures name { IfOk result (λ e. entry_name e ≡ name.now) }
        ensures len { IfOk result (λ e. (entry_file e).len ≡ None) }
        ensures now { IfOk result (λ e. (entry_file e).now ≡ None) }
        ensures at_rest { IfOk result (λ e. IsAtRest (entry_file e)) }
    {
        Ok(Entry {
            name: name.to_vec(alloc)?,
            there: false,
            was_there: false,
            fluid: false,
            bytes: Vec::new(alloc),
            kept: Vec::new(alloc),
            stable_len: 0,
            greatest: 0,
            changes: Changes::none(alloc),
        })
    }

    /// Writes bytes at a place.
    pub fn put(&mut self, alloc: Global, at: usize, bytes: &[u8]) -> Result<(), AllocError>
        requires { at + length bytes.now ≤ max_end }
        ensures name { entry_name self.new ≡ entry_name self.old }
        ensures len { OnOk result ((entry_file self.new).len ≡ Some (grown (entry_file self.old).len at (length bytes.now))) }
        ensures now { OnOk result ((entry_file self.new).now ≡ Some (written (bytes_of (entry_file self.old).now) at bytes.now)) }
        ensures torn { Torn at (length bytes.now) (entry_file self.old) (entry_file self.new) }
        ensures err { OnErr result (IsKept (entry_file self.old) (entry_file self.new)) }
        ensures spared { OnErr result (entry_file self.new ≡ entry_file self.old) }
        ensures size { OnOk result (vec_len self.new.bytes ≡ max (vec_len self.old.bytes) (at + length bytes.now)) }
        ensures size_err { OnErr result (vec_len self.new.bytes ≡ vec_len self.old.bytes) }
        ensures there { OnErr result (self.new.there ≡ self.old.there) }
        ensures short { OnErr result (8 < at + length bytes.now ⊎ length self.old.bytes.items < at + length bytes.now) }
    {
        let end = at + bytes.len();
        let notes = self.changes.notes();
        self.changes
            .note(alloc, &self.bytes, at, end, self.stable_len)?;
        if let Err(error) = held::put(&mut self.bytes, at, bytes) {
            self.changes.take_back(notes);
            return Err(error);
        }
        self.fluid = self.fluid | !self.there;
        self.there = true;
        self.greatest = self.greatest.max(end);
        Ok(())
    }

    /// Removes the file. What was stable is put aside.
    pub fn remove(&mut self, alloc: Global)
        ensures name { entry_name self.new ≡ entry_name self.old }
        ensures empty { vec_len self.new.bytes ≡ 0 }
        ensures removed { IsRemoved (entry_file self.old) (entry_file self.new) }
    {
        let bytes = mem::replace(&mut self.bytes, Vec::new(alloc));
        let kept = mem::replace(&mut self.kept, Vec::new(alloc));
        self.kept = held::left_of(
            Outcome::AsStable,
            self.fluid,
            bytes,
            kept,
            self.stable_len,
            &self.changes,
        );
        self.stable_len = 0;
        self.fluid = true;
        self.there = false;
    }

    /// Leaves an outcome of a stop, and makes it stable.
    pub fn stop(&mut self, alloc: Global, outcome: Outcome)
        ensures name { entry_name self.new ≡ entry_name self.old }
        ensures now { (entry_file self.new).now ≡ left_by outcome (entry_file self.old) }
        ensures at_rest { IsAtRest (entry_file self.new) }
        ensures allowed { MayLeave (entry_file self.old) (entry_file self.new).now }
        ensures there { self.new.there ≡ there_left outcome self.old.there self.old.was_there }
    {
        let bytes = mem::replace(&mut self.bytes, Vec::new(alloc));
        let kept = mem::replace(&mut self.kept, Vec::new(alloc));
        self.bytes = held::left_of(
            outcome,
            self.fluid,
            bytes,
            kept,
            self.stable_len,
            &self.changes,
        );
        self.there = held::leaves_file(outcome, self.there, self.was_there);
        self.was_there = self.there;
        self.fluid = false;
        self.stable_len = self.bytes.len();
        self.greatest = self.bytes.len();
        self.changes.settle(&self.bytes);
    }

    /// Its length now, in bytes.
    pub fn len(&self) -> u64
        ensures { result ≡ vec_len self.now.bytes }
    {
        self.bytes.len() as u64
    }

    /// Whether it is there, or was at the last sync.
    pub fn is_known(&self) -> bool
        ensures { result ≡ (self.now.there || self.now.was_there) }
    {
        self.there | self.was_there
    }

    /// Whether a write is refused, where so much of the device is used.
    fn check_room(&self, used: u64, capacity: u64, at: usize, len: usize) -> Result<(), DevError>
        requires { at + len ≤ max_end }
        ensures answer { WriteAnswers (entry_file self.now) used capacity at len result }
        ensures full { IfErr result (λ e. e ≡ DevError.Full) }
    {
        let growth = (at + len).saturating_sub(self.bytes.len()) as u64;
        if growth > 0 && (used > capacity || growth > capacity - used) {
            return Err(DevError::Full);
        }
        Ok(())
    }

    /// Writes bytes at a place, where so much of the device is used.
    pub fn write(
        &mut self,
        alloc: Global,
        used: u64,
        capacity: u64,
        at: usize,
        bytes: &[u8],
    ) -> Result<(), DevError>
        requires { at + length bytes.now ≤ max_end }
        ensures answer { WriteAnswers (entry_file self.old) used capacity at (length bytes.now) result }
        ensures name { entry_name self.new ≡ entry_name self.old }
        ensures len { OnOk result ((entry_file self.new).len ≡ Some (grown (entry_file self.old).len at (length bytes.now))) }
        ensures now { OnOk result ((entry_file self.new).now ≡ Some (written (bytes_of (entry_file self.old).now) at bytes.now)) }
        ensures torn { Torn at (length bytes.now) (entry_file self.old) (entry_file self.new) }
        ensures err { OnErr result (IsKept (entry_file self.old) (entry_file self.new)) }
        ensures spared { OnErr result (entry_file self.new ≡ entry_file self.old) }
        ensures there { OnErr result (self.new.there ≡ self.old.there) }
        ensures no_fault { IfErr result (λ e. e ≢ DevError.Failed) }
    {
        self.check_room(used, capacity, at, bytes.len())?;
        self.put(alloc, at, bytes)?;
        Ok(())
    }

    pub fn size(&self) -> Result<u64, DevError>
        ensures answer { SizeAnswers (entry_file self.now) result }
        ensures no_fault { IfErr result (λ e. e ≢ DevError.Failed) }
    {
        if self.there {
            Ok(self.len())
        } else {
            Err(DevError::NoFile)
        }
    }

    /// Fills `into` with the bytes from a place on.
    pub fn read(&self, at: u64, into: &mut [u8]) -> Result<(), DevError>
        ensures answer { ReadAnswers (entry_file self.now) at (length into.old) result }
        ensures bytes { OnOk result (into.new ≡ take (length into.old) (drop at (bytes_of (entry_file self.now).now))) }
        ensures no_fault { IfErr result (λ e. e ≢ DevError.Failed) }
    {
        if !self.there {
            return Err(DevError::NoFile);
        }
        let len = self.len();
        if at > len || into.len() as u64 > len - at {
            return Err(DevError::Range);
        }
        let from = at as usize;
        into.copy_from_slice(&self.bytes[from..from + into.len()]);
        Ok(())
    }
}
