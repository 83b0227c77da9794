//! The description of the first checkpoint, there and back, and trees that describe nothing.

ghost use Rattle.std.specs.Prelude.{◌↔◌, IsTrue};
ghost use Rattle.kvtree.specs.Entries.{IsKey};

use dataset_desc::{Desc, DescError};
use kvtree::Tree;
use scr_base::{Copies, DataId, Flags, Name, Scheme};
use std::alloc::Global;
use std::process::Abort;
use std::test::Fail;

/// `DSET{FLAGS{ckpt} ID{1} NAME{a} RUN{1}} SCHEME{SHARES{0} SIZE{8} TYPE{single}} SHAPE{NODES{1} RANKS{1}}`
const FIRST: &[u8] = b"\x00\x00\x00\x03\
\x00\x04DSET\x00\x00\x00\x04\
\x00\x05FLAGS\x00\x00\x00\x01\x00\x04ckpt\x00\x00\x00\x00\
\x00\x02ID\x00\x00\x00\x01\x00\x011\x00\x00\x00\x00\
\x00\x04NAME\x00\x00\x00\x01\x00\x01a\x00\x00\x00\x00\
\x00\x03RUN\x00\x00\x00\x01\x00\x011\x00\x00\x00\x00\
\x00\x06SCHEME\x00\x00\x00\x03\
\x00\x06SHARES\x00\x00\x00\x01\x00\x010\x00\x00\x00\x00\
\x00\x04SIZE\x00\x00\x00\x01\x00\x018\x00\x00\x00\x00\
\x00\x04TYPE\x00\x00\x00\x01\x00\x06single\x00\x00\x00\x00\
\x00\x05SHAPE\x00\x00\x00\x02\
\x00\x05NODES\x00\x00\x00\x01\x00\x011\x00\x00\x00\x00\
\x00\x05RANKS\x00\x00\x00\x01\x00\x011\x00\x00\x00\x00";

#[test]
fn the_first_checkpoint_goes_both_ways(rt: HostRuntime) -> Result<(), Fail> {
    let alloc = rt.alloc();
    let desc = Desc {
        which: DataId { id: 1, run: 1 },
        name: Name::read(alloc, b"a")?,
        flags: Flags::Ckpt,
        nodes: 1,
        ranks: 1,
        scheme: Scheme::Single,
        size: 8,
    };
    assert_eq!(rt; desc.to_tree(alloc)?.encode()?.list(), FIRST);

    // The keys of a member record stand beside the parts.
    let mut tree = Tree::decode(alloc, FIRST)?;
    tree.put(b"FILES", Tree::empty(alloc))?;
    tree.put(b"FORMAT", Tree::number(alloc, 1)?)?;
    tree.put(b"NODE", Tree::number(alloc, 0)?)?;
    let found = Desc::from_tree(alloc, &tree)?.copy(alloc)?;
    assert_eq!(rt; found.to_tree(alloc)?.encode()?.list(), FIRST);
    Ok(())
}

fn is_key(key: &[u8]) -> bool
    ensures { IsTrue result ↔ IsKey key.now }
{
    key.len() > 0 && key.len() < 256
}

/// Does the first checkpoint's tree still describe a dataset, with this value of a field?
fn describes(
    rt: &impl Abort,
    alloc: Global,
    field: (&[u8], &[u8]),
    value: &[u8],
) -> Result<bool, Fail> {
    let (part, key) = field;
    assert!(rt; is_key(part));
    assert!(rt; is_key(key));
    assert!(rt; is_key(value));
    let mut tree = Tree::decode(alloc, FIRST)?;
    let mut below = match tree.get(part) {
        Some(below) => below.copy()?,
        None => Tree::empty(alloc),
    };
    below.put(key, Tree::leaf(alloc, value)?)?;
    tree.put(part, below)?;
    match Desc::from_tree(alloc, &tree) {
        Ok(_) => Ok(true),
        Err(DescError::Foreign) => Ok(false),
        Err(DescError::Memory) => Err(scr_base::Memory)?,
    }
}

#[test]
fn only_the_parts_of_a_description_are_read(rt: HostRuntime) -> Result<(), Fail> {
    let alloc = rt.alloc();
    for (part, key, value, want) in [
        (
            b"DSET".as_slice(),
            b"FLAGS".as_slice(),
            b"output".as_slice(),
            true,
        ),
        (
            b"DSET".as_slice(),
            b"FLAGS".as_slice(),
            b"both".as_slice(),
            true,
        ),
        (
            b"DSET".as_slice(),
            b"FLAGS".as_slice(),
            b"all".as_slice(),
            false,
        ),
        (
            b"DSET".as_slice(),
            b"ID".as_slice(),
            b"4294967295".as_slice(),
            true,
        ),
        (b"DSET".as_slice(), b"ID".as_slice(), b"0".as_slice(), false),
        (
            b"DSET".as_slice(),
            b"ID".as_slice(),
            b"01".as_slice(),
            false,
        ),
        (
            b"DSET".as_slice(),
            b"RUN".as_slice(),
            b"0".as_slice(),
            false,
        ),
        (
            b"DSET".as_slice(),
            b"NAME".as_slice(),
            b".a".as_slice(),
            false,
        ),
        (
            b"DSET".as_slice(),
            b"TIME".as_slice(),
            b"1".as_slice(),
            false,
        ),
        (
            b"SCHEME".as_slice(),
            b"TYPE".as_slice(),
            b"xor".as_slice(),
            true,
        ),
        (
            b"SCHEME".as_slice(),
            b"TYPE".as_slice(),
            b"rs".as_slice(),
            false,
        ),
        (
            b"SCHEME".as_slice(),
            b"SHARES".as_slice(),
            b"1".as_slice(),
            false,
        ),
        (
            b"SCHEME".as_slice(),
            b"SIZE".as_slice(),
            b"16".as_slice(),
            true,
        ),
        (
            b"SCHEME".as_slice(),
            b"SIZE".as_slice(),
            b"17".as_slice(),
            false,
        ),
        (
            b"SHAPE".as_slice(),
            b"NODES".as_slice(),
            b"16".as_slice(),
            true,
        ),
        (
            b"SHAPE".as_slice(),
            b"NODES".as_slice(),
            b"17".as_slice(),
            false,
        ),
        (
            b"SHAPE".as_slice(),
            b"RANKS".as_slice(),
            b"8".as_slice(),
            true,
        ),
        (
            b"SHAPE".as_slice(),
            b"RANKS".as_slice(),
            b"9".as_slice(),
            false,
        ),
        (
            b"SHAPE".as_slice(),
            b"SPARES".as_slice(),
            b"0".as_slice(),
            false,
        ),
    ] {
        let found = describes(&rt, alloc, (part, key), value)?;
        assert!(rt; found == want);
    }
    Ok(())
}
