//! The mark: the stored one where it is flushed, else the last flushed one.
use crate::samples::{MARK_OF_FIRST, of_first_run, put_entry, roomy, three_entries};
use node_device::{Device, MemDevice};
use prefix_index::{IndexError, mark};
use std::alloc::Global;
use std::test::Fail;

#[test]
fn the_mark_is_the_stored_one_where_it_is_flushed(rt: HostRuntime) -> Result<(), Fail> {
    let alloc = rt.alloc();
    // The number in `ID{..}` is the byte at 34.
    for (stored, want) in [
        (b"1", 1u32),
        (b"2", 2),
        (b"3", 2),
        (b"4", 2),
        (b"0", 2),
        (b"x", 2),
    ] {
        let mut dev = three_entries(alloc)?;
        dev.write(b"cur.1", 0, MARK_OF_FIRST)?;
        dev.write(b"cur.1", 34, stored)?;
        assert_eq!(rt;
            mark(alloc, &mut dev)?,
            of_first_run(want),
            "where {stored:?} is stored"
        );
    }
    Ok(())
}

#[test]
fn without_a_stored_mark_it_is_the_last_flushed_one(rt: HostRuntime) -> Result<(), Fail> {
    let alloc = rt.alloc();
    let mut dev = roomy(alloc)?;
    assert_eq!(rt; mark(alloc, &mut dev)?, None);
    put_entry(&mut dev, alloc, b"x.3.1", b"3", b"c", b"OO")?;
    assert_eq!(rt; mark(alloc, &mut dev)?, None, "the only entry is failed");
    let mut dev = three_entries(alloc)?;
    assert_eq!(rt; mark(alloc, &mut dev)?, of_first_run(2));
    dev.write(b"cur.1", 0, MARK_OF_FIRST)?;
    dev.write(b"cur.1", 0, b"o")?;
    assert_eq!(rt;
        mark(alloc, &mut dev)?,
        of_first_run(2),
        "the stored one is shut"
    );
    Ok(())
}

#[test]
fn a_fault_is_told_with_its_count(rt: HostRuntime) -> Result<(), Fail> {
    let alloc = rt.alloc();
    for call in 1..4u64 {
        let mut dev = MemDevice::new(alloc, 1000, vec![in alloc; call; 1]?)?;
        assert_eq!(rt;
            mark(alloc, &mut dev),
            Err(IndexError::Device { count: 1 }),
            "call {call}"
        );
    }
    Ok(())
}
