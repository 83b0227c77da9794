//! The payload that keeps the conditions: the encoding of a tree.
ghost use Rattle.std.specs.Prelude.{◌≡◌, ◌<◌, ◌≤◌, ◌^◌, length, codes, decimal, IfOk, OnOk, IfSome, IsTrue};
ghost use Rattle.std.specs.Option.{option_map};
ghost use Rattle.scr_base.specs.Words.{is_name};
ghost use Rattle.kvtree.specs.Entries.{IsKey};
ghost use Rattle.halt_file.specs.Conditions.{conditions};
ghost use Rattle.halt_file.specs.Payloads.{IsHalt, checkpoints_in, halt_of, halt_payload, halt_tree, name_under, told};
ghost use Rattle.halt_file.specs.Puts.{put_field};

use crate::Halt;
use crate::fields::{number_under, value_under};
use itoa::Buffer;
use kvtree::{Tree, TreeError};
use scr_base::{Bytes, Memory, Name, NameError};
use std::alloc::Global;

/// A number of this type has 32 bits.
fn know_narrow(number: Option<u32>)
    ensures { IfSome number (λ n. n < 2 ^ 32) }
{}

/// A number of this type has 64 bits.
fn know_wide(number: Option<u64>)
    ensures { IfSome number (λ n. n < 2 ^ 64) }
{}

/// A name is one.
fn know_name(name: &Option<Name>)
    ensures { IfSome name.now (λ bytes. IsTrue (is_name bytes)) }
{
    if let Some(name) = name {
        let _bytes = name.bytes();
    }
}

/// What the types of the fields say of the conditions.
fn know(halt: &Halt)
    ensures { IsHalt (conditions halt.now) }
{
    know_narrow(halt.checkpoints);
    know_wide(halt.before);
    know_wide(halt.after);
    know_wide(halt.seconds);
    know_name(&halt.reason);
}

/// Puts a number under a key, where one is set.
fn put_number(alloc: Global, tree: &mut Tree, key: &[u8], number: Option<u64>) -> Result<(), Memory>
    requires { IsKey key.now }
    ensures { OnOk result (tree.new ≡ put_field tree.old key.now (option_map decimal number)) }
{
    match number {
        None => Ok(()),
        Some(number) => {
            let mut buffer = Buffer::new();
            tree.put(key, Tree::leaf(alloc, buffer.format(number).as_bytes())?)
        }
    }
}

/// Puts a name under a key, where one is set.
fn put_name(alloc: Global, tree: &mut Tree, key: &[u8], name: &Option<Name>) -> Result<(), Memory>
    requires { IsKey key.now }
    ensures { OnOk result (tree.new ≡ put_field tree.old key.now name.now) }
{
    match name {
        None => Ok(()),
        Some(name) => tree.put(key, Tree::leaf(alloc, name.bytes())?),
    }
}

/// The tree of the conditions, made from its last key to its first.
fn halt_tree(alloc: Global, halt: &Halt) -> Result<Tree, Memory>
    ensures { IfOk result (λ tree. tree ≡ halt_tree (conditions halt.now)) }
{
    let mut tree = Tree::empty(alloc);
    put_number(alloc, &mut tree, b"SECONDS", halt.seconds)?;
    put_name(alloc, &mut tree, b"REASON", &halt.reason)?;
    let checkpoints = halt.checkpoints.map(u64::from);
    put_number(alloc, &mut tree, b"CHECKPOINTS", checkpoints)?;
    put_number(alloc, &mut tree, b"BEFORE", halt.before)?;
    put_number(alloc, &mut tree, b"AFTER", halt.after)?;
    Ok(tree)
}

/// The payload that spells the conditions. It is short enough for a pair.
pub(crate) fn payload_of(alloc: Global, halt: &Halt) -> Result<Bytes, Memory>
    ensures spelled { IfOk result (λ payload. payload ≡ halt_payload (conditions halt.now)) }
    ensures short { IfOk result (λ payload. length payload ≤ 1048572) }
    ensures fits { IsHalt (conditions halt.now) }
{
    know(halt);
    halt_tree(alloc, halt)?.encode()
}

/// The name under a key, if a name stands there.
fn name_under(alloc: Global, tree: &Tree, key: &[u8]) -> Result<Option<Name>, Memory>
    ensures { IfOk result (λ name. name ≡ name_under tree.now key.now) }
{
    let Some(bytes) = value_under(tree, key) else {
        return Ok(None);
    };
    match Name::read(alloc, bytes) {
        Ok(name) => Ok(Some(name)),
        Err(NameError::BadName) => Ok(None),
        Err(NameError::Memory) => Err(Memory),
    }
}

/// How many checkpoints a run may settle, if the tree tells it.
fn checkpoints_in(tree: &Tree) -> Option<u32>
    ensures { result ≡ checkpoints_in tree.now }
{
    u32::try_from(number_under(tree, b"CHECKPOINTS")?).ok()
}

/// What the keys of a tree tell.
fn told(alloc: Global, tree: &Tree) -> Result<Halt, Memory>
    ensures { IfOk result (λ halt. conditions halt ≡ told tree.now) }
{
    Ok(Halt {
        checkpoints: checkpoints_in(tree),
        before: number_under(tree, b"BEFORE"),
        after: number_under(tree, b"AFTER"),
        seconds: number_under(tree, b"SECONDS"),
        reason: name_under(alloc, tree, b"REASON")?,
    })
}

/// What a payload tells: the conditions that it spells, and that nothing is set where it spells none.
pub(crate) fn halt_of(alloc: Global, payload: &[u8]) -> Result<Halt, Memory>
    ensures { IfOk result (λ halt. conditions halt ≡ halt_of payload.now) }
{
    let tree = match Tree::decode(alloc, payload) {
        Ok(tree) => tree,
        Err(TreeError::Memory) => return Err(Memory),
        Err(_) => return Ok(Halt::none()),
    };
    let halt = told(alloc, &tree)?;
    if payload_of(alloc, &halt)?.list() == payload {
        Ok(halt)
    } else {
        Ok(Halt::none())
    }
}
