//! The pieces of flushed files, and the clearing of a folder.
use crate::samples::{holds, roomy};
use node_device::{DevError, Device, MemDevice};
use prefix_store::{clear_step, read_piece, removals_under, write_piece};
use scr_base::{Bytes, Name, Stage};
use std::alloc::Global;
use std::test::Fail;

fn are(names: &[Bytes], want: &[&[u8]]) -> bool {
    names.len() == want.len() && names.iter().zip(want).all(|(a, b)| a.list() == *b)
}

#[test]
fn pieces_read_back(rt: HostRuntime) -> Result<(), Fail> {
    let alloc = rt.alloc();
    let mut dev = roomy(alloc)?;
    let name = Name::read(alloc, b"ckpt.1")?;
    let file = Name::read(alloc, b"f")?;
    write_piece(&mut dev, &name, 63, &file, 0, b"abc")?;
    write_piece(&mut dev, &name, 63, &file, 3, b"def")?;
    assert_eq!(rt;
        holds(&mut dev, alloc, b"ckpt.1/r63/f")?.as_slice(),
        b"abcdef".as_slice()
    );
    let mut bytes = [0u8; 3];
    read_piece(&mut dev, &name, 63, &file, 2, &mut bytes)?;
    assert_eq!(rt; bytes.as_slice(), b"cde".as_slice());
    assert_eq!(rt;
        read_piece(&mut dev, &name, 63, &file, 4, &mut bytes),
        Err(DevError::Range)
    );
    assert_eq!(rt;
        read_piece(&mut dev, &name, 6, &file, 0, &mut bytes),
        Err(DevError::NoFile)
    );
    Ok(())
}

#[test]
fn pieces_are_refused(rt: HostRuntime) -> Result<(), Fail> {
    let alloc = rt.alloc();
    let name = Name::read(alloc, b"a")?;
    let file = Name::read(alloc, b"f")?;
    let mut dev = MemDevice::new(alloc, 3, vec![in alloc; 2u64; 1]?)?;
    write_piece(&mut dev, &name, 0, &file, 0, b"ab")?;
    assert_eq!(rt;
        write_piece(&mut dev, &name, 0, &file, 2, b"c"),
        Err(DevError::Failed)
    );
    assert_eq!(rt; dev.faults(), 1);
    assert_eq!(rt;
        write_piece(&mut dev, &name, 0, &file, 2, b"cd"),
        Err(DevError::Full)
    );
    assert_eq!(rt; dev.used(), 2);
    write_piece(&mut dev, &name, 0, &file, 2, b"c")?;
    Ok(())
}

/// Three files under the folder `a`, and others whose names begin alike, of one byte each.
fn filled(alloc: Global) -> Result<MemDevice, DevError> {
    let mut dev = roomy(alloc)?;
    dev.write(b"a/r0/f", 0, b"x")?;
    dev.write(b"a/r1/f", 0, b"x")?;
    dev.write(b"a/stray", 0, b"x")?;
    dev.write(b"a", 0, b"x")?;
    dev.write(b"a.b/r0/f", 0, b"x")?;
    dev.write(b"ab/r0/f", 0, b"x")?;
    dev.write(b"b/a/r0/f", 0, b"x")?;
    dev.write(b"x.1.1", 0, b"x")?;
    dev.write(b"cur.1", 0, b"x")?;
    Ok(dev)
}

const OTHERS: [&[u8]; 6] = [
    b"a",
    b"a.b/r0/f",
    b"ab/r0/f",
    b"b/a/r0/f",
    b"cur.1",
    b"x.1.1",
];

#[test]
fn clears_one_file_a_call(rt: HostRuntime) -> Result<(), Fail> {
    let alloc = rt.alloc();
    let mut dev = filled(alloc)?;
    let name = Name::read(alloc, b"a")?;
    assert_eq!(rt; removals_under(alloc, &mut dev, &name)?.len(), 3);
    let mut stage = Stage::new();
    assert!(rt; !clear_step(alloc, &mut dev, &name, &mut stage)?);
    assert_eq!(rt; dev.used(), 8);
    assert!(rt; !clear_step(alloc, &mut dev, &name, &mut stage)?);
    assert_eq!(rt; dev.used(), 7);
    let mut rest = Stage::new();
    assert!(rt;
        clear_step(alloc, &mut dev, &name, &mut rest)?,
        "one is left, and another stage finds it"
    );
    assert!(rt; are(&dev.names()?, &OTHERS));
    let mut none = Stage::new();
    assert!(rt;
        clear_step(alloc, &mut dev, &name, &mut none)?,
        "none is left"
    );
    assert!(rt; are(&dev.names()?, &OTHERS));
    Ok(())
}

#[test]
fn a_refused_clearing_is_tried_again(rt: HostRuntime) -> Result<(), Fail> {
    let alloc = rt.alloc();
    let name = Name::read(alloc, b"a")?;
    let mut dev = MemDevice::new(alloc, 10, vec![in alloc; 4u64; 1]?)?;
    dev.write(b"a/r0/f", 0, b"x")?;
    dev.write(b"a/r1/f", 0, b"x")?;
    let mut stage = Stage::new();
    // The names are asked in call 3, and the first file's removal is call 4.
    assert_eq!(rt;
        clear_step(alloc, &mut dev, &name, &mut stage),
        Err(DevError::Failed)
    );
    assert_eq!(rt; dev.used(), 2);
    assert_eq!(rt; clear_step(alloc, &mut dev, &name, &mut stage), Ok(false));
    assert_eq!(rt; clear_step(alloc, &mut dev, &name, &mut stage), Ok(true));
    assert_eq!(rt; dev.used(), 0);
    Ok(())
}
