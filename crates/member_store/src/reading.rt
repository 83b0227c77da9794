//! What a file reads as.
ghost use Rattle.std.specs.Prelude.{◌≡◌, ◌≢◌, ◌↔◌, ℕ, IsTrue, true, Some, OnErr, IfOk, IfSome, IsNone, Err};
ghost use Rattle.scr_base.specs.declared.shape.DataId.{DataId};
ghost use Rattle.node_device.specs.DeviceState.{IsDeviceName, IsUnchanged};
ghost use Rattle.node_device.specs.Answers.{HasDeviceCause, NamesAnswers};
ghost use Rattle.kvtree.specs.Entries.{Entries};
ghost use Rattle.kvtree.specs.Encoding.{IsEncoding};
ghost use Rattle.member_store.specs.Names.{record_name};
ghost use Rattle.member_store.specs.Members.{ReadsMember};
ghost use Rattle.member_store.specs.Scanning.{RecordReads, member_of};
ghost use Rattle.member_store.specs.declared.member.Member.{Member};

use crate::Member;
use crate::device_name::DeviceName;
use crate::tree::{Found, found_in};
use gated_record::{Record, read_record};
use kvtree::{Tree, TreeError};
use node_device::{DevError, Device};
use scr_base::Shape;
use std::alloc::Global;

/// Does a name begin and end as that of a record?
fn may_be_record(name: &[u8]) -> bool
    ensures { (which : DataId) (node : ℕ) → name.now ≡ record_name which node → result ≡ true }
{
    name.starts_with(b"d.") && name.ends_with(b".m")
}

/// Is this want of memory?
fn is_memory(fault: &TreeError) -> bool
    ensures { IsTrue result ↔ (fault.now ≡ TreeError.Memory) }
{
    matches!(fault, TreeError::Memory)
}

/// The tree that a record's body is the encoding of, if it is one.
fn tree_of(alloc: Global, bytes: &[u8]) -> Result<Option<Tree>, DevError>
    ensures memory { OnErr result (result ≡ Err DevError.Memory) }
    ensures found { IfOk result (λ o. IfSome o (λ t. IsEncoding t bytes.now)) }
    ensures only { (t : Entries) → IsEncoding t bytes.now → IfOk result (λ o. o ≡ Some t) }
{
    match Tree::decode(alloc, bytes) {
        Ok(tree) => Ok(Some(tree)),
        Err(fault) => {
            if is_memory(&fault) {
                Err(DevError::Memory)
            } else {
                Ok(None)
            }
        }
    }
}

/// The member of what a record says, if the record stands under the member's name.
fn named_member(name: &[u8], gates: u8, found: Found) -> Option<Member>
    ensures some { IfSome result (λ m. (m ≡ member_of gates found) × (name.now ≡ record_name found.desc.which found.node)) }
    ensures none { IsNone result → name.now ≢ record_name found.desc.which found.node }
{
    let Found { desc, node, files } = found;
    if DeviceName::of_record(desc.which, node).bytes() != name {
        return None;
    }
    Some(Member {
        which: desc.which,
        node,
        whole: gates % 2 == 1,
        sealed: gates / 2 % 2 == 1,
        desc,
        files,
    })
}

/// The member that a record of this name reads as, if it reads as one.
fn member_of_record(
    alloc: Global,
    shape: Shape,
    name: &[u8],
    held: Record,
) -> Result<Option<Member>, DevError>
    ensures memory { OnErr result (result ≡ Err DevError.Memory) }
    ensures reads { IfOk result (λ o. IfSome o (RecordReads shape name.now held)) }
    ensures only { (m : Member) → RecordReads shape name.now held m → IfOk result (λ o. o ≡ Some m) }
{
    let Some(tree) = tree_of(alloc, held.body.list())? else {
        return Ok(None);
    };
    match found_in(alloc, &tree, shape)? {
        None => Ok(None),
        Some(found) => Ok(named_member(name, held.gates, found)),
    }
}

/// The member that a file reads as, if it reads as one. The file of another name than a record's isn't read.
pub(crate) fn read_member<D: Device>(
    alloc: Global,
    dev: &mut D,
    shape: Shape,
    name: &[u8],
) -> Result<Option<Member>, DevError>
    requires { IsDeviceName name.now }
    ensures answer { NamesAnswers result }
    ensures reads { (D.state dev.old).tells ≡ true → IfOk result (λ o. IfSome o (ReadsMember shape name.now ((D.state dev.old).file name.now).now)) }
    ensures only { (D.state dev.old).tells ≡ true → (m : Member) → ReadsMember shape name.now ((D.state dev.old).file name.now).now m → IfOk result (λ o. o ≡ Some m) }
    ensures same { IsUnchanged (D.state dev.old) (D.state dev.new) }
    ensures cause { HasDeviceCause (D.state dev.old) (D.state dev.new) result }
{
    if !may_be_record(name) {
        return Ok(None);
    }
    match read_record(alloc, dev, name)? {
        None => Ok(None),
        Some(record) => member_of_record(alloc, shape, name, record),
    }
}
