//! The vectors of the format, and each call once with memory to spare.

ghost use Rattle.std.specs.Prelude.{◌≤◌};
ghost use Rattle.kvtree.specs.Entries.{depth};

use kvtree::{Tree, TreeError, number_of};
use std::alloc::Global;
use std::process::Abort;
use std::test::Fail;

/// A tree's encoding, by way of a copy and of what is read back.
fn encoded(rt: &impl Abort, alloc: Global, tree: &Tree, bytes: &[u8]) -> Result<(), Fail>
    requires { depth tree.now ≤ 16 }
{
    assert_eq!(rt; tree.copy()?.encode()?.list(), bytes);
    assert_eq!(rt; Tree::decode(alloc, bytes)?.encode()?.list(), bytes);
    Ok(())
}

#[test]
fn trees_have_their_encodings(rt: HostRuntime) -> Result<(), Fail> {
    let alloc = rt.alloc();
    encoded(&rt, alloc, &Tree::empty(alloc), b"\x00\x00\x00\x00")?;
    encoded(
        &rt,
        alloc,
        &Tree::leaf(alloc, b"a")?,
        b"\x00\x00\x00\x01\x00\x01a\x00\x00\x00\x00",
    )?;

    let mut tree = Tree::empty(alloc);
    tree.put(b"RUN", Tree::number(alloc, 7)?)?;
    encoded(
        &rt,
        alloc,
        &tree,
        b"\x00\x00\x00\x01\x00\x03RUN\x00\x00\x00\x01\x00\x017\x00\x00\x00\x00",
    )?;
    Ok(())
}

#[test]
fn children_are_found(rt: HostRuntime) -> Result<(), Fail> {
    let alloc = rt.alloc();
    let mut tree = Tree::empty(alloc);
    tree.put(b"b", Tree::empty(alloc))?;
    tree.put(b"a", Tree::number(alloc, 40)?)?;
    tree.put(b"b", Tree::leaf(alloc, b"7")?)?;

    assert_eq!(rt; tree.width(), 2);
    assert!(rt; tree.get(b"c").is_none());
    assert!(rt; tree.child_under(1, b"a").is_none());
    assert!(rt; tree.child(2).is_none());
    assert!(rt; tree.only_key().is_none());
    let key = tree.child(0).map(|child| child.0);
    assert_eq!(rt; key, Some(b"a".as_slice()));
    let below = tree.child(0).and_then(|child| child.1.only_key());
    assert_eq!(rt; below, Some(b"40".as_slice()));
    let found = tree.get(b"b").and_then(Tree::only_number);
    assert_eq!(rt; found, Some(7));
    let placed = tree.child_under(1, b"b").and_then(Tree::only_number);
    assert_eq!(rt; placed, Some(7));
    Ok(())
}

#[test]
fn numbers_have_one_form(rt: HostRuntime) {
    for (bytes, number) in [
        (b"0".as_slice(), Some(0)),
        (b"10".as_slice(), Some(10)),
        (b"4294967295".as_slice(), Some(4294967295)),
        (b"4294967296".as_slice(), None),
        (b"07".as_slice(), None),
        (b"+7".as_slice(), None),
        (b"".as_slice(), None),
        (b"\xff".as_slice(), None),
    ] {
        assert_eq!(rt; number_of(bytes), number);
    }
}

/// The fault's name and place.
fn fault(alloc: Global, bytes: &[u8]) -> (&str, u64) {
    match Tree::decode(alloc, bytes) {
        Ok(_) => ("none", 0),
        Err(TreeError::Short { place }) => ("short", place),
        Err(TreeError::Order { place }) => ("order", place),
        Err(TreeError::Length { place }) => ("length", place),
        Err(TreeError::Trailing { place }) => ("trailing", place),
        Err(TreeError::Depth { place }) => ("depth", place),
        Err(TreeError::Memory) => ("memory", 0),
    }
}

#[test]
fn faults_have_their_places(rt: HostRuntime) {
    for (bytes, name, place) in [
        (
            b"\x00\x00\x00\x01\x00\x01a\x00\x00\x00\x00\xff".as_slice(),
            "trailing",
            11,
        ),
        (b"\x00\x00\x00\x01\x00\x01a".as_slice(), "short", 7),
        (
            b"\x00\x00\x00\x02\x00\x01b\x00\x00\x00\x00\x00\x01a\x00\x00\x00\x00".as_slice(),
            "order",
            13,
        ),
        (
            b"\x00\x00\x00\x02\x00\x01a\x00\x00\x00\x00\x00\x01a\x00\x00\x00\x00".as_slice(),
            "order",
            13,
        ),
        (b"\x00\x00\x00\x01\x00\x00".as_slice(), "length", 4),
        (b"\x00\x00\x00\x01\x01\x00".as_slice(), "length", 4),
    ] {
        assert_eq!(rt; fault(rt.alloc(), bytes), (name, place));
    }
}

#[test]
fn the_seventeenth_level_is_too_deep(rt: HostRuntime) {
    let mut deep = [0; 112];
    for level in 0..16 {
        deep[7 * level + 3] = 1;
        deep[7 * level + 5] = 1;
        deep[7 * level + 6] = b'a';
    }
    assert_eq!(rt; fault(rt.alloc(), &deep), ("depth", 112));
}
