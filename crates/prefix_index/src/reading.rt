//! What a file reads as.
ghost use Rattle.std.specs.Prelude.{◌≡◌, ◌≢◌, ◌↔◌, ℕ, IsTrue, true, Some, OnErr, IfOk, IfSome, IsNone, Err};
ghost use Rattle.scr_base.specs.declared.shape.DataId.{DataId};
ghost use Rattle.node_device.specs.DeviceState.{IsDeviceName, IsUnchanged};
ghost use Rattle.node_device.specs.Answers.{HasDeviceCause, NamesAnswers};
ghost use Rattle.kvtree.specs.Entries.{Entries};
ghost use Rattle.kvtree.specs.Encoding.{IsEncoding};
ghost use Rattle.prefix_index.specs.Names.{entry_name};
ghost use Rattle.prefix_index.specs.Entries.{IsEntry};
ghost use Rattle.prefix_index.specs.Listing.{RecordIs, entry_of};
ghost use Rattle.prefix_index.specs.declared.entry.Entry.{Entry};

use crate::Entry;
use crate::entry_name::EntryName;
use crate::tree::{Found, found_in};
use gated_record::{Record, read_record};
use kvtree::{Tree, TreeError};
use node_device::{DevError, Device};
use std::alloc::Global;

/// Does a name begin as that of an index record?
fn may_be_record(name: &[u8]) -> bool
    ensures { (which : DataId) → name.now ≡ entry_name which → result ≡ true }
{
    name.starts_with(b"x.")
}

/// Is this want of memory?
fn is_memory(fault: &TreeError) -> bool
    ensures { IsTrue result ↔ (fault.now ≡ TreeError.Memory) }
{
    matches!(fault, TreeError::Memory)
}

/// The tree that a record's body is the encoding of, if it is one.
fn tree_of(alloc: Global, bytes: &[u8]) -> Result<Option<Tree>, DevError>
    ensures memory { OnErr result (result ≡ Err DevError.Memory) }
    ensures found { IfOk result (λ o. IfSome o (λ t. IsEncoding t bytes.now)) }
    ensures only { (t : Entries) → IsEncoding t bytes.now → IfOk result (λ o. o ≡ Some t) }
{
    match Tree::decode(alloc, bytes) {
        Ok(tree) => Ok(Some(tree)),
        Err(fault) => {
            if is_memory(&fault) {
                Err(DevError::Memory)
            } else {
                Ok(None)
            }
        }
    }
}

/// The entry of what a record says, if the record stands under the entry's name.
fn named_entry(name: &[u8], gates: u8, found: Found) -> Option<Entry>
    ensures some { IfSome result (λ e. (e ≡ entry_of gates found) × (name.now ≡ entry_name found.desc.which)) }
    ensures none { IsNone result → name.now ≢ entry_name found.desc.which }
{
    let Found { desc, files } = found;
    if EntryName::of(desc.which).bytes() != name {
        return None;
    }
    Some(Entry {
        desc,
        files,
        failed: gates / 2 % 2 == 1,
    })
}

/// The entry that a record of this name is, if it is one.
fn entry_of_record(alloc: Global, name: &[u8], held: Record) -> Result<Option<Entry>, DevError>
    ensures memory { OnErr result (result ≡ Err DevError.Memory) }
    ensures reads { IfOk result (λ o. IfSome o (RecordIs name.now held)) }
    ensures only { (e : Entry) → RecordIs name.now held e → IfOk result (λ o. o ≡ Some e) }
{
    if held.gates % 2 == 0 {
        return Ok(None);
    }
    let Some(tree) = tree_of(alloc, held.body.list())? else {
        return Ok(None);
    };
    match found_in(alloc, &tree)? {
        None => Ok(None),
        Some(found) => Ok(named_entry(name, held.gates, found)),
    }
}

/// The entry that a file is, if it is one. The file of another name than an index record's isn't read.
pub(crate) fn read_entry<D: Device>(
    alloc: Global,
    dev: &mut D,
    name: &[u8],
) -> Result<Option<Entry>, DevError>
    requires { IsDeviceName name.now }
    ensures answer { NamesAnswers result }
    ensures reads { (D.state dev.old).tells ≡ true → IfOk result (λ o. IfSome o (IsEntry name.now ((D.state dev.old).file name.now).now)) }
    ensures only { (D.state dev.old).tells ≡ true → (e : Entry) → IsEntry name.now ((D.state dev.old).file name.now).now e → IfOk result (λ o. o ≡ Some e) }
    ensures same { IsUnchanged (D.state dev.old) (D.state dev.new) }
    ensures cause { HasDeviceCause (D.state dev.old) (D.state dev.new) result }
{
    if !may_be_record(name) {
        return Ok(None);
    }
    match read_record(alloc, dev, name)? {
        None => Ok(None),
        Some(record) => entry_of_record(alloc, name, record),
    }
}
