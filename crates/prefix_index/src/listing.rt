//! Which entries the index of a device has.
ghost use Rattle.std.specs.Prelude.{◌≡◌, ◌++◌, ℕ, List, [], ◌∷◌, Contains, true, OnOk, IfOk};
ghost use Rattle.node_device.specs.DeviceState.{IsDeviceName, IsUnchanged};
ghost use Rattle.node_device.specs.Answers.{HasDeviceCause, NamesAnswers};
ghost use Rattle.prefix_index.specs.Entries.{AreEntries};
ghost use Rattle.prefix_index.specs.Calls.{Lists};
ghost use Rattle.prefix_index.specs.Listing.{AreMet};

use crate::order::put_in_order;
use crate::reading::read_entry;
use crate::{Entry, IndexError};
use node_device::{DevError, Device};
use std::alloc::Global;

/// Puts the entry that a file is, if it is one, to the entries of the names so far.
fn take_file<D: Device>(
    alloc: Global,
    dev: &mut D,
    name: &[u8],
    entries: &mut Vec<Entry>,
) -> Result<(), DevError>
    requires { IsDeviceName name.now }
    ensures answer { NamesAnswers result }
    ensures met { (D.state dev.old).tells ≡ true → (names : List (List ℕ)) → ¬ Contains names name.now → AreMet (D.state dev.old) names entries.old.items → OnOk result (AreMet (D.state dev.old) (names ++ name.now ∷ []) entries.new.items) }
    ensures same { IsUnchanged (D.state dev.old) (D.state dev.new) }
    ensures cause { HasDeviceCause (D.state dev.old) (D.state dev.new) result }
{
    match read_entry(alloc, dev, name)? {
        None => Ok(()),
        Some(entry) => put_in_order(entries, entry),
    }
}

/// The entries of the index, ascending by id and run. `Failed`; `Memory`.
pub(crate) fn entries<D: Device>(alloc: Global, dev: &mut D) -> Result<Vec<Entry>, DevError>
    ensures answer { NamesAnswers result }
    ensures entries { (D.state dev.old).tells ≡ true → IfOk result (λ entries. AreEntries (D.state dev.old) entries.items) }
    ensures same { IsUnchanged (D.state dev.old) (D.state dev.new) }
    ensures cause { HasDeviceCause (D.state dev.old) (D.state dev.new) result }
{
    let names = dev.names()?;
    let mut entries = Vec::new(alloc);
    for name in &names {
        take_file(alloc, dev, name.list(), &mut entries)?;
    }
    Ok(entries)
}

/// The entries of the index, ascending by id and run: a record each whose gate `indexed` is open, and that reads. `Device`;
/// `Memory`.
pub fn list<D: Device>(alloc: Global, dev: &mut D) -> Result<Vec<Entry>, IndexError>
    ensures { Lists result (D.state dev.old) (D.state dev.new) }
{
    match entries(alloc, dev) {
        Ok(entries) => Ok(entries),
        Err(fault) => Err(IndexError::of(dev, fault)),
    }
}
