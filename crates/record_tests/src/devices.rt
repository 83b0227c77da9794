ghost use Rattle.node_device.specs.DeviceState.{IsDeviceName};

use node_device::{Bay, DevError, Device, MemDevice};
use std::alloc::Global;
use std::test::Fail;

/// Whether a file has these bytes, or is not there.
fn holds<D: Device>(
    alloc: Global,
    dev: &mut D,
    name: &[u8],
    want: Option<&[u8]>,
) -> Result<bool, DevError>
    requires { IsDeviceName name.now }
{
    let len = match dev.size(name) {
        Ok(len) => len,
        Err(DevError::NoFile) => return Ok(want.is_none()),
        Err(error) => return Err(error),
    };
    let mut bytes = Vec::new(alloc);
    bytes.resize(len as usize, 0)?;
    dev.read(name, 0, &mut bytes)?;
    Ok(want == Some(bytes.as_slice()))
}

#[test]
fn writes_and_refuses(rt: HostRuntime) -> Result<(), Fail> {
    let alloc = rt.alloc();
    let mut dev = MemDevice::new(alloc, 10, Vec::new(alloc))?;
    dev.write(b"f", 4, b"abc")?;
    assert!(rt; holds(alloc, &mut dev, b"f", Some(&[0, 0, 0, 0, 0x61, 0x62, 0x63]))?);
    assert_eq!(rt; dev.used(), 7);
    assert_eq!(rt; dev.write(b"g", 0, b"abcd"), Err(DevError::Full));
    assert_eq!(rt;
        dev.write(b"f", 0, b"1234567"),
        Ok(()),
        "a write inside a file is never full"
    );
    assert_eq!(rt; dev.read(b"f", 5, &mut [0; 3]), Err(DevError::Range));
    assert_eq!(rt; dev.read(b"g", 0, &mut [0; 1]), Err(DevError::NoFile));
    assert_eq!(rt; dev.write(b"g", 1073741824, b"a"), Err(DevError::Range));
    assert_eq!(rt; dev.write(b"g", 0, b""), Ok(()));
    let names = dev.names()?;
    assert_eq!(rt; names.len(), 2);
    assert_eq!(rt; names[0].list(), b"f".as_slice());
    assert_eq!(rt; names[1].list(), b"g".as_slice());
    dev.remove(b"f")?;
    assert_eq!(rt; dev.used(), 0);
    assert_eq!(rt; dev.remove(b"f"), Err(DevError::NoFile));
    dev.wipe();
    assert_eq!(rt; dev.names()?.len(), 0);
    Ok(())
}

#[test]
fn fails_where_listed(rt: HostRuntime) -> Result<(), Fail> {
    let alloc = rt.alloc();
    let mut dev = MemDevice::new(alloc, 10, vec![in alloc; 2, 3]?)?;
    assert_eq!(rt; dev.write(b"f", 0, b"a"), Ok(()));
    assert_eq!(rt; dev.write(b"f", 0, b"b"), Err(DevError::Failed));
    assert_eq!(rt; dev.sync(), Err(DevError::Failed));
    assert_eq!(rt; dev.faults(), 2);
    assert!(rt; holds(alloc, &mut dev, b"f", Some(b"a"))?);
    dev.crash(1);
    assert!(rt; holds(alloc, &mut dev, b"f", None)?);
    Ok(())
}

/// A device on which `a` and `d` are stable, `a` is written again with more, `b`, `c` and `e` are new, and `d` is
/// removed.
fn changed(alloc: Global) -> Result<MemDevice, DevError> {
    let mut dev = MemDevice::new(alloc, 1000, Vec::new(alloc))?;
    dev.write(b"a", 0, b"0123456789abcdef")?;
    dev.write(b"d", 0, b"d")?;
    dev.sync()?;
    dev.write(b"e", 2, b"e")?;
    dev.write(b"c", 0, b"c")?;
    dev.write(b"b", 0, b"b")?;
    dev.write(b"a", 6, b"XXXX")?;
    dev.write(b"a", 9, b"YY")?;
    dev.write(b"a", 15, b"ZZ")?;
    dev.remove(b"d")?;
    Ok(dev)
}

#[test]
fn leaves_what_is_picked(rt: HostRuntime) -> Result<(), Fail> {
    let alloc = rt.alloc();
    let a_now: Option<&[u8]> = Some(b"012345XXXYYbcdeZZ");
    let a_was: Option<&[u8]> = Some(b"0123456789abcdef");
    let a_torn: Option<&[u8]> = Some(b"012345\xA5\xA5\xA5\xA5\xA5bcde\xA5\xA5");
    let torn: Option<&[u8]> = Some(b"\xA5");
    let rows: [(u8, [Option<&[u8]>; 5]); 4] = [
        (0, [a_now, Some(b"b"), Some(b"c"), None, Some(b"\0\0e")]),
        (1, [a_was, None, None, Some(b"d"), None]),
        (2, [a_torn, torn, torn, None, Some(b"\0\0\xA5")]),
        (3, [a_now, None, Some(b"c"), Some(b"d"), Some(b"\0\0e")]),
    ];
    for (pick, [a, b, c, d, e]) in rows {
        let mut dev = changed(alloc)?;
        dev.crash(pick);
        assert!(rt; holds(alloc, &mut dev, b"a", a)?, "a at {pick}");
        assert!(rt; holds(alloc, &mut dev, b"b", b)?, "b at {pick}");
        assert!(rt; holds(alloc, &mut dev, b"c", c)?, "c at {pick}");
        assert!(rt; holds(alloc, &mut dev, b"d", d)?, "d at {pick}");
        assert!(rt; holds(alloc, &mut dev, b"e", e)?, "e at {pick}");
    }
    Ok(())
}

#[test]
fn keeps_what_is_synced(rt: HostRuntime) -> Result<(), Fail> {
    let alloc = rt.alloc();
    for pick in 0..4 {
        let mut dev = MemDevice::new(alloc, 10, Vec::new(alloc))?;
        dev.write(b"f", 4, b"abc")?;
        dev.sync()?;
        dev.crash(pick);
        assert!(rt;
            holds(alloc, &mut dev, b"f", Some(b"\0\0\0\0abc"))?,
            "at {pick}"
        );
    }
    Ok(())
}

#[test]
fn holds_all_devices(rt: HostRuntime) -> Result<(), Fail> {
    let alloc = rt.alloc();
    let mut nodes = Vec::new(alloc);
    for _ in 0..32 {
        nodes.push(MemDevice::new(alloc, 100, Vec::new(alloc))?)?;
    }
    assert_eq!(rt; nodes.len(), 32);
    let mut bay = Bay::new(nodes, MemDevice::new(alloc, 50, Vec::new(alloc))?);
    bay.write_at(32, b"p", 0, b"xy")?;
    bay.write_at(7, b"f", 0, b"abc")?;
    bay.write_at(8, b"g", 0, b"abc")?;
    bay.sync_at(7)?;
    assert_eq!(rt; bay.size_at(7, b"f")?, 3);
    let mut bytes = [0; 3];
    bay.read_at(7, b"f", 0, &mut bytes)?;
    assert_eq!(rt; bytes, *b"abc");
    assert_eq!(rt; bay.capacity_at(32), 50);
    assert_eq!(rt; bay.used_at(8), 3);
    assert_eq!(rt; bay.faults_at(8), 0);
    bay.remove_at(8, b"g")?;
    assert_eq!(rt; bay.names_at(8)?.len(), 0);
    bay.stop(1);
    assert_eq!(rt; bay.names_at(32)?.len(), 0);
    assert!(rt; holds(alloc, bay.device(7), b"f", Some(b"abc"))?);
    bay.lose(7);
    assert_eq!(rt; bay.size_at(7, b"f"), Err(DevError::NoFile));
    let (nodes, prefix) = bay.apart();
    assert_eq!(rt; nodes.len(), 32);
    assert_eq!(rt; prefix.used(), 0);
    Ok(())
}
