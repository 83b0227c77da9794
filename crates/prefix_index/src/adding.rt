//! A new record of the index.
ghost use Rattle.std.specs.Prelude.{◌≡◌, ◌≤◌, ◌*◌, length, true, List, MatchOption};
ghost use Rattle.node_device.specs.DeviceState.{IsDeviceName};
ghost use Rattle.gated_record.specs.Calls.{WritesBody};
ghost use Rattle.prefix_index.specs.Names.{entry_name};
ghost use Rattle.prefix_index.specs.Entries.{AreEntries, entry_body};
ghost use Rattle.prefix_index.specs.Listing.{NoneHasName, OneHasName};
ghost use Rattle.prefix_index.specs.Calls.{AddsBody};

use crate::entry_name::EntryName;
use crate::listing::entries;
use crate::tree::entry_body;
use crate::{Entry, IndexError};
use dataset_desc::Desc;
use filemap::Filemap;
use gated_record::write_body;
use node_device::{DevError, Device};
use scr_base::{DataId, Name};
use std::alloc::Global;

/// Writes the body of a dataset's record, by one write. Where its gates are shut, they stay so. `NameTaken` exactly where an
/// entry of the index has the dataset's name: the first one by id and run; `Device`; `Full` exactly where the write passes
/// the capacity; `Memory`.
pub fn add_body<D: Device>(
    alloc: Global,
    dev: &mut D,
    desc: &Desc,
    files: &Filemap,
) -> Result<(), IndexError>
    requires { length files.now ≡ desc.now.nodes * desc.now.ranks }
    ensures { AddsBody desc.now files.now result (D.state dev.old) (D.state dev.new) }
{
    match entries(alloc, dev) {
        Ok(known) => add_to(alloc, dev, &known, desc, files),
        Err(fault) => Err(IndexError::of(dev, fault)),
    }
}

/// Writes the body of a record, where none of these entries has the dataset's name.
fn add_to<D: Device>(
    alloc: Global,
    dev: &mut D,
    known: &[Entry],
    desc: &Desc,
    files: &Filemap,
) -> Result<(), IndexError>
    requires ranks { length files.now ≡ desc.now.nodes * desc.now.ranks }
    requires known { (D.state dev.old).tells ≡ true → AreEntries (D.state dev.old) known.now }
    ensures { AddsBody desc.now files.now result (D.state dev.old) (D.state dev.new) }
{
    if let Some(which) = taken_by(known, &desc.name) {
        return Err(IndexError::NameTaken { which });
    }
    match put_body(alloc, dev, desc, files) {
        Ok(()) => Ok(()),
        Err(fault) => Err(IndexError::of(dev, fault)),
    }
}

/// The first of these entries that has a name.
fn taken_by(entries: &[Entry], name: &Name) -> Option<DataId>
    ensures { MatchOption result (NoneHasName entries.now name.now) (OneHasName entries.now name.now) }
{
    for entry in entries {
        if entry.desc.name.bytes() == name.bytes() {
            return Some(entry.desc.which);
        }
    }
    None
}

/// Writes the body of a dataset's record.
fn put_body<D: Device>(
    alloc: Global,
    dev: &mut D,
    desc: &Desc,
    files: &Filemap,
) -> Result<(), DevError>
    requires { length files.now ≡ desc.now.nodes * desc.now.ranks }
    ensures { WritesBody (entry_name desc.now.which) (entry_body desc.now files.now) result (D.state dev.old) (D.state dev.new) }
{
    let name = EntryName::of(desc.which);
    let body = entry_body(alloc, desc, files)?;
    fill(alloc, dev, name.bytes(), body.list())
}

/// Writes the body of a record.
fn fill<D: Device>(alloc: Global, dev: &mut D, name: &[u8], body: &[u8]) -> Result<(), DevError>
    requires name { IsDeviceName name.now }
    requires size { length body.now ≤ 1048576 }
    ensures { WritesBody name.now body.now result (D.state dev.old) (D.state dev.new) }
{
    write_body(alloc, dev, name, body)
}
