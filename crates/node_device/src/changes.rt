// What the changes of a file since the last sync wrote, and the bytes that stood there before.
ghost use Rattle.std.specs.Prelude.{min, ◌≡◌, ◌<◌, ◌≤◌, ◌⊎◌, ◌+◌, ◌-◌, ◌&&◌, ◌||◌, ℕ, List, true, false, length, take, get_or, vec_len, slice_index, nat_le, nat_lt, if◌then◌else◌, OnOk, OnErr, IfOk};

use std::alloc::{AllocError, Global};

/// One write behind the first eight bytes: its range, and the older bytes from its place on as far as they may be
/// asked back.
#[derive(Drop)]
pub struct Change {
    at: usize,
    end: usize,
    old: Vec<u8>,
}

/// The writes to a file since the last sync. The bytes of the first eight places as of that sync are kept whether
/// they are written or not, so that a write of a gate wants no memory.
#[derive(Drop)]
pub struct Changes {
    first: [u8; 8],
    first_written: [bool; 8],
    rest: Vec<Change>,
}

/// How far the notes of changes have come.
#[derive(Clone, Copy)]
pub struct Notes {
    written: [bool; 8],
    rest: usize,
}

/// Writes bytes at a place.
pub fn overwrite(bytes: &mut [u8], at: usize, new: &[u8])
    requires { at + length new.now ≤ length bytes.old }
    ensures inside { (k : ℕ) → at ≤ k → k < at + length new.now → slice_index bytes.new k ≡ slice_index new.now (k - at) }
    ensures outside { (k : ℕ) → (k < at ⊎ at + length new.now ≤ k) → slice_index bytes.new k ≡ slice_index bytes.old k }
{
    for (i, byte) in new.iter().enumerate() {
        bytes[at + i] = *byte;
    }
}

/// Leaves 0xA5 at the places of a range.
fn scramble_range(bytes: &mut [u8], at: usize, end: usize)
    ensures inside { (k : ℕ) → at ≤ k → k < end → k < length bytes.old → slice_index bytes.new k ≡ 0xA5 }
    ensures outside { (k : ℕ) → (k < at ⊎ end ≤ k) → slice_index bytes.new k ≡ slice_index bytes.old k }
{
    for k in at..end.min(bytes.len()) {
        bytes[k] = 0xA5;
    }
}

/// The bytes of the first eight places.
fn first_of(bytes: &[u8]) -> [u8; 8]
    ensures { (k : ℕ) → k < 8 → slice_index result k ≡ slice_index bytes.now k }
{
    let mut first = [0; 8];
    for k in 0..8 {
        if k < bytes.len() {
            first[k] = bytes[k];
        }
    }
    first
}

/// Puts the first eight bytes back.
fn put_back_first(bytes: &mut [u8], first: &[u8; 8])
    ensures inside { (k : ℕ) → k < 8 → k < length bytes.old → slice_index bytes.new k ≡ slice_index first.now k }
    ensures outside { (k : ℕ) → 8 ≤ k → slice_index bytes.new k ≡ slice_index bytes.old k }
{
    for k in 0..8 {
        if k < bytes.len() {
            bytes[k] = first[k];
        }
    }
}

/// Leaves 0xA5 at those of the first eight places that were written.
fn scramble_first(bytes: &mut [u8], written: &[bool; 8])
    ensures inside { (k : ℕ) → k < 8 → k < length bytes.old → slice_index bytes.new k ≡ (if get_or written.now k false then 0xA5 else slice_index bytes.old k) }
    ensures outside { (k : ℕ) → 8 ≤ k → slice_index bytes.new k ≡ slice_index bytes.old k }
{
    for k in 0..8 {
        if written[k] && k < bytes.len() {
            bytes[k] = 0xA5;
        }
    }
}

/// Marks those of the first eight places that lie in a range.
fn mark(written: &mut [bool; 8], at: usize, end: usize)
    ensures inside { (k : ℕ) → k < 8 → at ≤ k → k < end → get_or written.new k false ≡ true }
    ensures outside { (k : ℕ) → (k < at ⊎ end ≤ k) → get_or written.new k false ≡ get_or written.old k false }
{
    for k in at..end.min(8) {
        written[k] = true;
    }
}

impl Change {
    ghost use Rattle.node_device.specs.Changes.{wrote, one_wrote, byte_before, byte_before_all};

    /// The bytes from a place on, up to the lower one of two ends.
    fn older_part(
        alloc: Global,
        bytes: &[u8],
        at: usize,
        end: usize,
        stable_len: usize,
    ) -> Result<Vec<u8>, AllocError>
        requires { stable_len ≤ length bytes.now }
        ensures len { IfOk result (λ old. length old.items ≡ min end stable_len - at) }
        ensures each { IfOk result (λ old. (k : ℕ) → at ≤ k → k < end → k < stable_len → slice_index old.items (k - at) ≡ slice_index bytes.now k) }
    {
        let end = end.min(stable_len);
        if at < end {
            Vec::from_slice(alloc, &bytes[at..end])
        } else {
            Ok(Vec::new(alloc))
        }
    }

    /// Notes a write to the places of a range, before it is made. Of the bytes those below `stable_len` can be asked
    /// back.
    fn note(
        changes: &mut Vec<Change>,
        alloc: Global,
        bytes: &[u8],
        at: usize,
        end: usize,
        stable_len: usize,
    ) -> Result<(), AllocError>
        requires { stable_len ≤ length bytes.now }
        ensures inside { OnOk result ((k : ℕ) → at ≤ k → k < end → one_wrote changes.new.items k ≡ true) }
        ensures outside { (k : ℕ) → (k < at ⊎ end ≤ k) → one_wrote changes.new.items k ≡ one_wrote changes.old.items k }
        ensures kept { OnOk result ((k : ℕ) (byte : ℕ) → at ≤ k → k < end → k < stable_len → byte_before_all changes.new.items k byte ≡ byte_before_all changes.old.items k (slice_index bytes.now k)) }
        ensures others { (k : ℕ) (byte : ℕ) → (k < at ⊎ end ≤ k) → byte_before_all changes.new.items k byte ≡ byte_before_all changes.old.items k byte }
        ensures err { OnErr result (changes.new.items ≡ changes.old.items) }
        ensures before { take (length changes.old.items) changes.new.items ≡ changes.old.items }
        ensures short { OnErr result (at < end) }
    {
        if end <= at {
            return Ok(());
        }
        let old = Change::older_part(alloc, bytes, at, end, stable_len)?;
        changes.push(Change { at, end, old })?;
        Ok(())
    }

    /// Puts the older bytes of a change back, as far as the bytes reach.
    fn put_back(&self, bytes: &mut [u8])
        ensures { (k : ℕ) → k < length bytes.old → slice_index bytes.new k ≡ byte_before self.now k (slice_index bytes.old k) }
    {
        if self.at < bytes.len() {
            let len = self.old.len().min(bytes.len() - self.at);
            overwrite(bytes, self.at, &self.old[..len]);
        }
    }

    /// Puts the older bytes of all changes back, the newest first.
    fn put_back_all(changes: &[Change], bytes: &mut [u8])
        ensures { (k : ℕ) → k < length bytes.old → slice_index bytes.new k ≡ byte_before_all changes.now k (slice_index bytes.old k) }
    {
        for i in 0..changes.len() {
            changes[changes.len() - 1 - i].put_back(bytes);
        }
    }

    /// Leaves 0xA5 at each place that it wrote.
    fn scramble(&self, bytes: &mut [u8])
        ensures { (k : ℕ) → k < length bytes.old → slice_index bytes.new k ≡ (if wrote self.now k then 0xA5 else slice_index bytes.old k) }
    {
        scramble_range(bytes, self.at, self.end);
    }

    /// Leaves 0xA5 at each place that a change wrote.
    fn scramble_all(changes: &[Change], bytes: &mut [u8])
        ensures { (k : ℕ) → k < length bytes.old → slice_index bytes.new k ≡ (if one_wrote changes.now k then 0xA5 else slice_index bytes.old k) }
    {
        for i in 0..changes.len() {
            changes[i].scramble(bytes);
        }
    }
}

impl Changes {
    ghost use Rattle.node_device.specs.Changes.{is_written, older_byte};

    /// None, in a file that is empty and stable so.
    pub fn none(alloc: Global) -> Changes
        ensures written { (k : ℕ) → is_written result k ≡ false }
    {
        Changes {
            first: [0; 8],
            first_written: [false; 8],
            rest: Vec::new(alloc),
        }
    }

    /// Notes a write to the places of a range of a file, before it is made. Of the bytes those below `stable_len` can
    /// be asked back.
    pub fn note(
        &mut self,
        alloc: Global,
        bytes: &[u8],
        at: usize,
        end: usize,
        stable_len: usize,
    ) -> Result<(), AllocError>
        requires { stable_len ≤ length bytes.now }
        ensures inside { OnOk result ((k : ℕ) → at ≤ k → k < end → is_written self.new k ≡ true) }
        ensures outside { (k : ℕ) → (k < at ⊎ end ≤ k) → is_written self.new k ≡ is_written self.old k }
        ensures kept { OnOk result ((k : ℕ) (byte : ℕ) → at ≤ k → k < end → k < stable_len → older_byte self.new k byte ≡ older_byte self.old k (slice_index bytes.now k)) }
        ensures others { (k : ℕ) (byte : ℕ) → (k < at ⊎ end ≤ k) → older_byte self.new k byte ≡ older_byte self.old k byte }
        ensures err { OnErr result ((k : ℕ) → is_written self.new k ≡ is_written self.old k) }
        ensures err_older { OnErr result ((k : ℕ) (byte : ℕ) → older_byte self.new k byte ≡ older_byte self.old k byte) }
        ensures before { take (length self.old.rest.items) self.new.rest.items ≡ self.old.rest.items }
        ensures first { self.new.first ≡ self.old.first }
        ensures short { OnErr result (8 < end) }
    {
        Change::note(&mut self.rest, alloc, bytes, at.max(8), end, stable_len)?;
        mark(&mut self.first_written, at, end);
        Ok(())
    }

    /// How far the notes have come.
    pub fn notes(&self) -> Notes
        ensures written { result.written ≡ self.now.first_written }
        ensures rest { result.rest ≡ length self.now.rest.items }
    {
        let written = self.first_written;
        Notes {
            written,
            rest: self.rest.len(),
        }
    }

    /// Takes back what was noted since then.
    pub fn take_back(&mut self, notes: Notes)
        ensures written { self.new.first_written ≡ notes.written }
        ensures first { self.new.first ≡ self.old.first }
        ensures rest { self.new.rest.items ≡ take notes.rest self.old.rest.items }
    {
        let written = notes.written;
        self.first_written = written;
        self.rest.truncate(notes.rest);
    }

    /// Puts the bytes of the last sync back.
    pub fn put_back(&self, bytes: &mut [u8])
        ensures { (k : ℕ) → k < length bytes.old → slice_index bytes.new k ≡ older_byte self.now k (slice_index bytes.old k) }
    {
        Change::put_back_all(&self.rest, bytes);
        put_back_first(bytes, &self.first);
    }

    /// Leaves 0xA5 at each place that was written.
    pub fn scramble(&self, bytes: &mut [u8])
        ensures { (k : ℕ) → k < length bytes.old → slice_index bytes.new k ≡ (if is_written self.now k then 0xA5 else slice_index bytes.old k) }
    {
        Change::scramble_all(&self.rest, bytes);
        scramble_first(bytes, &self.first_written);
    }

    /// Forgets the changes: these bytes are stable now.
    pub fn settle(&mut self, bytes: &[u8])
        ensures written { (k : ℕ) → is_written self.new k ≡ false }
        ensures same { (k : ℕ) → older_byte self.new k (slice_index bytes.now k) ≡ slice_index bytes.now k }
    {
        self.first = first_of(bytes);
        self.first_written = [false; 8];
        self.rest.clear();
    }
}
