//! Which records are entries, and in which order they come.
use crate::samples::{body, put, put_entry, roomy};
use node_device::{DevError, Device, MemDevice};
use prefix_index::{IndexError, list};
use scr_base::{Flags, Scheme};
use std::alloc::Global;
use std::test::Fail;

/// Three entries, of which one is failed, and records that are none.
fn filled(alloc: Global) -> Result<MemDevice, DevError> {
    let mut dev = roomy(alloc)?;
    put_entry(&mut dev, alloc, b"x.10.1", b"10", b"ten", b"O\x00")?;
    put_entry(&mut dev, alloc, b"x.2.1", b"2", b"two", b"OO")?;
    put_entry(&mut dev, alloc, b"x.1.1", b"1", b"a", b"Oo")?;
    // Gate 0 is closed.
    put_entry(&mut dev, alloc, b"x.3.1", b"3", b"shut", b"\x00O")?;
    // The body doesn't read: it is cut off, it has a byte more, it is no tree, or it is of another identity.
    let mut less = body(alloc, b"4", b"b")?;
    less.pop();
    put(&mut dev, b"x.4.1", b"O\x00", &less)?;
    let mut more = body(alloc, b"5", b"c")?;
    more.push(0)?;
    put(&mut dev, b"x.5.1", b"O\x00", &more)?;
    put(&mut dev, b"x.6.1", b"O\x00", b"\xff")?;
    put_entry(&mut dev, alloc, b"x.7.1", b"8", b"d", b"O\x00")?;
    put_entry(&mut dev, alloc, b"x.9.2", b"9", b"e", b"O\x00")?;
    put_entry(&mut dev, alloc, b"x.011.1", b"11", b"f", b"O\x00")?;
    put_entry(&mut dev, alloc, b"y.12.1", b"12", b"g", b"O\x00")?;
    // The body is longer than the file.
    dev.write(
        b"x.13.1",
        0,
        b"O\x00\x00\x00\x00\x00\x00\x00\x00\x00\x00\x00\x00\x00\x00\x01",
    )?;
    Ok(dev)
}

#[test]
fn entries_are_open_records_that_read(rt: HostRuntime) -> Result<(), Fail> {
    let alloc = rt.alloc();
    let mut dev = filled(alloc)?;
    let entries = list(alloc, &mut dev)?;
    let want: [(u32, &[u8], bool); 3] = [(1, b"a", false), (2, b"two", true), (10, b"ten", false)];
    assert_eq!(rt; entries.len(), want.len());
    for (entry, (id, name, failed)) in entries.iter().zip(want) {
        assert_eq!(rt; entry.desc.which.id, id);
        assert_eq!(rt; entry.desc.which.run, 1);
        assert_eq!(rt; entry.desc.name.bytes(), name);
        assert_eq!(rt; entry.failed, failed);
        assert_eq!(rt; entry.desc.flags, Flags::Ckpt);
        assert_eq!(rt; entry.desc.scheme, Scheme::Single);
        assert_eq!(rt; entry.desc.size, 8);
    }
    Ok(())
}

#[test]
fn a_record_tells_its_files(rt: HostRuntime) -> Result<(), Fail> {
    let alloc = rt.alloc();
    let mut dev = filled(alloc)?;
    let entries = list(alloc, &mut dev)?;
    for entry in &entries {
        assert_eq!(rt; entry.files.ranks(), 1);
        for file in entry.files.rows(0) {
            assert_eq!(rt; file.name.bytes(), b"f".as_slice());
            assert_eq!(rt; file.len, 3);
        }
        assert_eq!(rt; entry.files.rows(0).len(), 1);
    }
    Ok(())
}

#[test]
fn a_fault_is_told_with_its_count(rt: HostRuntime) -> Result<(), Fail> {
    let alloc = rt.alloc();
    // A record is written in 3 calls. Listing asks for the names, the length, and thrice for bytes.
    for call in 4..9u64 {
        let mut dev = MemDevice::new(alloc, 1000, vec![in alloc; call; 1]?)?;
        put_entry(&mut dev, alloc, b"x.1.1", b"1", b"a", b"O\x00")?;
        let refused = list(alloc, &mut dev).err();
        assert_eq!(rt;
            refused,
            Some(IndexError::Device { count: 1 }),
            "call {call}"
        );
        assert_eq!(rt; list(alloc, &mut dev)?.len(), 1);
    }
    Ok(())
}
