ghost use Rattle.std.specs.Prelude.{◌≤◌};

use gated_record::{Loaded, close_gate, load, open_gate, write_body};
use node_device::{DevError, Device, MemDevice};
use std::alloc::Global;
use std::test::Fail;

fn shown(loaded: &Loaded) -> &str {
    match loaded {
        Loaded::Absent => "absent",
        Loaded::Shut => "shut",
        Loaded::Foreign => "foreign",
        Loaded::Standing { gates, body } => {
            if *gates == 1 && body.list() == b"body".as_slice() {
                "whole"
            } else {
                "other"
            }
        }
    }
}

fn crashed(mut dev: MemDevice, pick: u8) -> MemDevice
    requires { pick ≤ 3 }
{
    dev.crash(pick);
    dev
}

/// A record is written and opened, and a stop comes after so many calls of the device.
fn stopped(alloc: Global, calls: u8, pick: u8) -> Result<MemDevice, DevError>
    requires { pick ≤ 3 }
{
    let mut dev = MemDevice::new(alloc, 100, Vec::new(alloc))?;
    if calls == 0 {
        return Ok(crashed(dev, pick));
    }
    write_body(alloc, &mut dev, b"r", b"body")?;
    if calls == 1 {
        return Ok(crashed(dev, pick));
    }
    dev.sync()?;
    if calls == 2 {
        return Ok(crashed(dev, pick));
    }
    open_gate(&mut dev, b"r", 0)?;
    if calls == 3 {
        return Ok(crashed(dev, pick));
    }
    dev.sync()?;
    Ok(crashed(dev, pick))
}

#[test]
fn is_shut_or_whole_after_a_stop(rt: HostRuntime) -> Result<(), Fail> {
    let alloc = rt.alloc();
    let rows: [(u8, [&str; 4]); 5] = [
        (0, ["absent", "absent", "absent", "absent"]),
        (1, ["shut", "absent", "shut", "shut"]),
        (2, ["shut", "shut", "shut", "shut"]),
        (3, ["whole", "shut", "shut", "whole"]),
        (4, ["whole", "whole", "whole", "whole"]),
    ];
    for (calls, want) in rows {
        for pick in 0..4 {
            let mut dev = stopped(alloc, calls, pick)?;
            let loaded = load(alloc, &mut dev, b"r")?;
            assert_eq!(rt;
                shown(&loaded),
                want[pick as usize],
                "after {calls} calls at {pick}"
            );
        }
    }
    Ok(())
}

#[test]
fn trusts_no_length(rt: HostRuntime) -> Result<(), Fail> {
    let alloc = rt.alloc();
    let mut dev = MemDevice::new(alloc, 100, Vec::new(alloc))?;
    dev.write(b"r", 0, &[0x4F; 8])?;
    let short = load(alloc, &mut dev, b"r")?;
    assert_eq!(rt; shown(&short), "foreign");
    dev.write(b"r", 8, &[0, 0, 1, 0, 0, 0, 0, 0])?;
    let long = load(alloc, &mut dev, b"r")?;
    assert_eq!(rt; shown(&long), "foreign");
    Ok(())
}

#[test]
fn closes_a_gate(rt: HostRuntime) -> Result<(), Fail> {
    let alloc = rt.alloc();
    for (gate, want) in [(1, "whole"), (0, "shut")] {
        let mut dev = MemDevice::new(alloc, 100, Vec::new(alloc))?;
        dev.write(b"r", 0, b"OO\0\0\0\0\0\0\0\0\0\0\0\0\0\x04body")?;
        close_gate(&mut dev, b"r", gate)?;
        let loaded = load(alloc, &mut dev, b"r")?;
        assert_eq!(rt; shown(&loaded), want, "gate {gate}");
    }
    Ok(())
}

#[test]
fn makes_a_place_for_a_gate(rt: HostRuntime) -> Result<(), Fail> {
    let alloc = rt.alloc();
    for (capacity, want) in [(4, Ok(())), (3, Err(DevError::Full))] {
        let mut dev = MemDevice::new(alloc, capacity, Vec::new(alloc))?;
        let done = open_gate(&mut dev, b"r", 3);
        assert_eq!(rt; done, want, "opens at {capacity}");
        let mut dev = MemDevice::new(alloc, capacity, Vec::new(alloc))?;
        let done = close_gate(&mut dev, b"r", 3);
        assert_eq!(rt; done, want, "closes at {capacity}");
    }
    Ok(())
}
