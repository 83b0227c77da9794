use member_store::drop_step;
use node_device::{DevError, Device, MemDevice};
use scr_base::{Bytes, DataId, Stage};
use std::alloc::Global;
use std::test::Fail;

const MEMBER: DataId = DataId { id: 1, run: 9 };

/// The files of node 0's member of 1.9, and others, of one byte each.
fn filled(alloc: Global) -> Result<MemDevice, DevError> {
    let mut dev = MemDevice::new(alloc, 100, Vec::new(alloc))?;
    dev.write(b"d.1.9.0.m", 0, b"a")?;
    dev.write(b"d.1.9.0.f.0.0", 0, b"a")?;
    dev.write(b"d.1.9.0.f.3.255", 0, b"a")?;
    dev.write(b"d.1.9.0.p.0", 0, b"a")?;
    dev.write(b"d.1.9.1.m", 0, b"a")?;
    dev.write(b"d.1.9.1.f.0.0", 0, b"a")?;
    dev.write(b"d.1.90.0.p.0", 0, b"a")?;
    dev.write(b"d.1.9.0.f.0.256", 0, b"a")?;
    dev.write(b"d.1.9.0.p.00", 0, b"a")?;
    Ok(dev)
}

fn are(names: &[Bytes], want: &[&[u8]]) -> bool {
    names.len() == want.len() && names.iter().zip(want).all(|(a, b)| a.list() == *b)
}

#[test]
fn removes_one_file_a_call(rt: HostRuntime) -> Result<(), Fail> {
    let alloc = rt.alloc();
    let mut dev = filled(alloc)?;
    let mut stage = Stage::new();
    assert!(rt; !drop_step(alloc, &mut dev, MEMBER, 0, &mut stage)?);
    assert_eq!(rt; dev.used(), 8);
    assert!(rt; !drop_step(alloc, &mut dev, MEMBER, 0, &mut stage)?);
    assert_eq!(rt; dev.used(), 7);
    assert!(rt; !drop_step(alloc, &mut dev, MEMBER, 0, &mut stage)?);
    assert_eq!(rt; dev.size(b"d.1.9.0.m"), Ok(1), "the record is the last");
    let mut rest = Stage::new();
    assert!(rt; drop_step(alloc, &mut dev, MEMBER, 0, &mut rest)?);
    let left: [&[u8]; 5] = [
        b"d.1.9.0.f.0.256",
        b"d.1.9.0.p.00",
        b"d.1.9.1.f.0.0",
        b"d.1.9.1.m",
        b"d.1.90.0.p.0",
    ];
    assert!(rt; are(&dev.names()?, &left));
    let mut none = Stage::new();
    assert!(rt; drop_step(alloc, &mut dev, MEMBER, 0, &mut none)?);
    assert_eq!(rt; dev.used(), 5);
    Ok(())
}

#[test]
fn finds_no_file_on_another_device(rt: HostRuntime) -> Result<(), Fail> {
    let alloc = rt.alloc();
    let mut dev = filled(alloc)?;
    let mut stage = Stage::new();
    assert!(rt; !drop_step(alloc, &mut dev, MEMBER, 0, &mut stage)?);
    let mut other = MemDevice::new(alloc, 100, Vec::new(alloc))?;
    let refused = drop_step(alloc, &mut other, MEMBER, 0, &mut stage);
    assert_eq!(rt; refused, Err(DevError::NoFile));
    assert!(rt; !drop_step(alloc, &mut dev, MEMBER, 0, &mut stage)?);
    assert_eq!(rt; dev.used(), 7);
    Ok(())
}
