// A device as its callers see it.
ghost use Rattle.std.specs.Prelude.{◌≡◌, ◌<◌, ◌≤◌, ◌+◌, ℕ, List, [], length, take, drop, true, None, Some, OnOk, OnErr, IfOk};
ghost use Rattle.node_device.specs.declared.device.DevError.TheVariants.{Memory};
ghost use Rattle.node_device.specs.File.{IsAtRest, IsKept, Torn, IsRemoved, IsPartlySynced, IsEmpty, MayLeave, written, grown, bytes_of};
ghost use Rattle.node_device.specs.DeviceState.{DeviceState, IsDeviceName, IsUnchanged, ChangesOnly, ReadsAlike, TellsOn, IsSound, used_of};
ghost use Rattle.node_device.specs.Answers.{HasDeviceCause, IsSpared, SizeAnswers, ReadAnswers, WriteAnswers, SyncAnswers, RemoveAnswers, NamesAnswers};

use scr_base::Bytes;
use std::alloc::{AllocError, AllocFailed};

/// Why a device refuses a call. Where several causes stand together, the first of this order is answered:
/// `Failed`, `NoFile`, `Range`, `Full`, `Memory`.
#[derive(Clone, Copy, Debug, PartialEq, Eq)]
pub enum DevError {
    /// The device failed, and its count of faults rose.
    Failed,
    /// The write would pass the capacity.
    Full,
    /// There is no such file.
    NoFile,
    /// The range ends past the end of the file, or past the greatest length of a file.
    Range,
    /// There is no memory for it.
    Memory,
}

/// A place that holds files. A name has 1 to 160 bytes. What is written is stable only after a sync, and a stop may
/// leave of the rest what the crash model allows. A refused call leaves what a read gives.
pub trait Device {
    /// What it holds, what is stable, and what a stop may leave.
    ghost state: { Self → DeviceState };

    /// What a stop with a number leaves, where the device tells it.
    ghost leaves: { ℕ → DeviceState → DeviceState → Type 0 } = { λ pick old new. Unit {0} };

    /// The length of a file, in bytes. `Failed`; `NoFile` exactly where there is no such file.
    fn size(&mut self, name: &[u8]) -> Result<u64, DevError>
        requires { IsDeviceName name.now }
        ensures answer { SizeAnswers ((state self.old).file name.now) result }
        ensures same { IsUnchanged (state self.old) (state self.new) }
        ensures cause { HasDeviceCause (state self.old) (state self.new) result };

    /// Fills `into` with the bytes from a place on. `Failed`; `NoFile`; `Range` exactly where they end past the end.
    fn read(&mut self, name: &[u8], at: u64, into: &mut [u8]) -> Result<(), DevError>
        requires { IsDeviceName name.now }
        ensures answer { ReadAnswers ((state self.old).file name.now) at (length into.old) result }
        ensures bytes { (state self.old).tells ≡ true → OnOk result (into.new ≡ take (length into.old) (drop at (bytes_of ((state self.old).file name.now).now))) }
        ensures same { IsUnchanged (state self.old) (state self.new) }
        ensures cause { HasDeviceCause (state self.old) (state self.new) result };

    /// Writes at a place. It makes the file where there is none, and fills a gap before the place with zeros.
    /// `Failed`; `Range` exactly where the end is past 1,073,741,824; `Full` exactly where what it adds is above 0 and
    /// passes the capacity; `Memory`, but never for one byte at a place below 8 inside a file. Refused
    /// without a fault it leaves the device as it was.
    fn write(&mut self, name: &[u8], at: u64, bytes: &[u8]) -> Result<(), DevError>
        requires { IsDeviceName name.now }
        ensures answer { WriteAnswers ((state self.old).file name.now) (used_of (state self.old)) (state self.old).capacity at (length bytes.now) result }
        ensures len { OnOk result (((state self.new).file name.now).len ≡ Some (grown ((state self.old).file name.now).len at (length bytes.now))) }
        ensures now { (state self.old).tells ≡ true → OnOk result (((state self.new).file name.now).now ≡ Some (written (bytes_of ((state self.old).file name.now).now) at bytes.now)) }
        ensures torn { Torn at (length bytes.now) ((state self.old).file name.now) ((state self.new).file name.now) }
        ensures refused { OnErr result (ReadsAlike (state self.old) (state self.new)) }
        ensures spared { IsSpared (state self.old) (state self.new) result }
        ensures only { ChangesOnly name.now (state self.old) (state self.new) }
        ensures cause { HasDeviceCause (state self.old) (state self.new) result };

    /// Makes all that a read gives stable, on the whole device. `Failed` alone; it may have made a part stable then.
    fn sync(&mut self) -> Result<(), DevError>
        ensures answer { SyncAnswers result }
        ensures alike { ReadsAlike (state self.old) (state self.new) }
        ensures at_rest { OnOk result ((q : List ℕ) → IsAtRest ((state self.new).file q)) }
        ensures partly { (q : List ℕ) → IsPartlySynced ((state self.old).file q) ((state self.new).file q) }
        ensures cause { HasDeviceCause (state self.old) (state self.new) result };

    /// Removes a file. `Failed`; `NoFile` exactly where there is no such file; `Memory`.
    fn remove(&mut self, name: &[u8]) -> Result<(), DevError>
        requires { IsDeviceName name.now }
        ensures answer { RemoveAnswers ((state self.old).file name.now) result }
        ensures removed { OnOk result (IsRemoved ((state self.old).file name.now) ((state self.new).file name.now)) }
        ensures refused { OnErr result (IsUnchanged (state self.old) (state self.new)) }
        ensures only { ChangesOnly name.now (state self.old) (state self.new) }
        ensures cause { HasDeviceCause (state self.old) (state self.new) result };

    /// The names of the files, ascending. `Failed`; `Memory`.
    fn names(&mut self) -> Result<Vec<Bytes>, DevError>
        ensures answer { NamesAnswers result }
        ensures names { IfOk result (λ names. names.items ≡ (state self.old).names) }
        ensures same { IsUnchanged (state self.old) (state self.new) }
        ensures cause { HasDeviceCause (state self.old) (state self.new) result };

    /// The sum of the lengths, in bytes.
    fn used(&self) -> u64
        ensures { result ≡ used_of (state self.now) };

    /// The most that it may come to use by writes, in bytes.
    fn capacity(&self) -> u64
        ensures { result ≡ (state self.now).capacity };

    /// How often it has failed. At the greatest number it stands still.
    fn faults(&self) -> u64
        ensures { result ≡ (state self.now).faults };

    /// Stops: what was not stable may be lost, and what is left is stable. A device in memory leaves the outcome that
    /// `pick` names, from 0 to 3.
    fn crash(&mut self, pick: u8)
        requires { pick ≤ 3 }
        ensures picked { leaves pick (state self.old) (state self.new) }
        ensures tells { TellsOn (state self.old) (state self.new) }
        ensures outcome { (state self.new).tells ≡ true → (q : List ℕ) → MayLeave ((state self.old).file q) ((state self.new).file q).now }
        ensures at_rest { (q : List ℕ) → IsAtRest ((state self.new).file q) };

    /// Loses everything: it is empty, and stable so.
    fn wipe(&mut self)
        ensures tells { TellsOn (state self.old) (state self.new) }
        ensures names { (state self.new).names ≡ [] }
        ensures empty { (q : List ℕ) → IsEmpty ((state self.new).file q) };

    /// What holds of every device.
    ghost sound: { (d : Self) → IsSound (state d) };
}

impl From<AllocError> for DevError {
    ghost from_gives = { λ _ e. e ≡ Memory };

    fn from(_error: AllocError) -> DevError {
        DevError::Memory
    }
}

impl<T: Drop> From<AllocFailed<T>> for DevError {
    ghost from_gives = { λ _ e. e ≡ Memory };

    fn from(_error: AllocFailed<T>) -> DevError {
        DevError::Memory
    }
}

impl From<scr_base::Memory> for DevError {
    ghost from_gives = { λ _ e. e ≡ Memory };

    fn from(_error: scr_base::Memory) -> DevError {
        DevError::Memory
    }
}
