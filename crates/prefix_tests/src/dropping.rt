//! An entry is taken out of the index, one change a call.
ghost use Rattle.std.specs.Prelude.{◌≤◌};
ghost use Rattle.prefix_index.specs.Drops.{IsDropStageOf};

use crate::samples::{put_entry, roomy};
use node_device::{DevError, Device, MemDevice};
use prefix_index::{IndexError, drop_step, list};
use scr_base::Stage;
use std::alloc::Global;
use std::test::Fail;

/// Entries 1.1 and 2.1, each with a file of 3 bytes, and a file of no entry, all stable.
fn filled(alloc: Global) -> Result<MemDevice, DevError> {
    let mut dev = roomy(alloc)?;
    put_entry(&mut dev, alloc, b"x.1.1", b"1", b"a", b"O\x00")?;
    put_entry(&mut dev, alloc, b"x.2.1", b"2", b"b", b"OO")?;
    dev.write(b"a/r0/f", 0, b"abc")?;
    dev.write(b"b/r0/f", 0, b"def")?;
    dev.write(b"a.b/r0/f", 0, b"x")?;
    dev.sync()?;
    Ok(dev)
}

/// Makes so many calls of a drop.
fn begin(
    alloc: Global,
    dev: &mut MemDevice,
    id: u32,
    stage: &mut Stage,
    calls: u8,
) -> Result<bool, IndexError>
    requires { IsDropStageOf stage.old }
    ensures { IsDropStageOf stage.new }
{
    let mut over = false;
    for _ in 0..calls {
        over = drop_step(alloc, dev, id, stage)?;
    }
    Ok(over)
}

#[test]
fn the_gate_the_files_and_the_record_go_in_turn(rt: HostRuntime) -> Result<(), Fail> {
    let alloc = rt.alloc();
    let mut dev = filled(alloc)?;
    let whole = dev.used();
    let mut stage = Stage::new();
    assert!(rt; !begin(alloc, &mut dev, 1, &mut stage, 1)?);
    assert_eq!(rt; list(alloc, &mut dev)?.len(), 1, "the gate is closed");
    assert!(rt; !begin(alloc, &mut dev, 1, &mut stage, 1)?);
    assert_eq!(rt; dev.used(), whole, "it is made stable");
    assert!(rt; !begin(alloc, &mut dev, 1, &mut stage, 1)?);
    assert_eq!(rt; dev.size(b"a/r0/f"), Err(DevError::NoFile));
    assert_eq!(rt;
        dev.used().saturating_add(3),
        whole,
        "its file alone is removed"
    );
    assert!(rt; begin(alloc, &mut dev, 1, &mut stage, 1)?);
    assert_eq!(rt; dev.size(b"x.1.1"), Err(DevError::NoFile));
    assert_eq!(rt; dev.size(b"b/r0/f"), Ok(3));
    assert_eq!(rt; dev.size(b"a.b/r0/f"), Ok(1));
    assert!(rt;
        begin(alloc, &mut dev, 1, &mut stage, 1)?,
        "nothing is left to do"
    );
    let mut again = Stage::new();
    assert_eq!(rt;
        begin(alloc, &mut dev, 1, &mut again, 1),
        Err(IndexError::NoEntry)
    );
    assert!(rt;
        begin(alloc, &mut dev, 2, &mut again, 4)?,
        "a failed entry is dropped too"
    );
    assert_eq!(rt; list(alloc, &mut dev)?.len(), 0);
    Ok(())
}

/// How many entries are left, and how long the file of 1.1 is, after a stop behind so many calls of the drop of 1.1.
fn left(alloc: Global, calls: u8, pick: u8) -> Result<(usize, u64), Fail>
    requires { pick ≤ 3 }
{
    let mut dev = filled(alloc)?;
    let mut stage = Stage::new();
    begin(alloc, &mut dev, 1, &mut stage, calls)?;
    dev.crash(pick);
    let len = match dev.size(b"a/r0/f") {
        Ok(len) => len,
        Err(DevError::NoFile) => 0,
        Err(fault) => return Err(Fail::from(fault)),
    };
    Ok((list(alloc, &mut dev)?.len(), len))
}

#[test]
fn a_stop_leaves_it_in_whole_or_out(rt: HostRuntime) -> Result<(), Fail> {
    let alloc = rt.alloc();
    for calls in 0..5u8 {
        for pick in 0..4u8 {
            let (entries, len) = left(alloc, calls, pick)?;
            if calls == 0 {
                assert_eq!(rt; (entries, len), (2, 3));
            }
            if calls >= 2 {
                assert_eq!(rt; entries, 1, "after {calls} calls at {pick}");
            }
            assert!(rt; entries == 1 || len == 3, "after {calls} calls at {pick}");
        }
    }
    Ok(())
}

#[test]
fn a_fault_leaves_the_stage(rt: HostRuntime) -> Result<(), Fail> {
    let alloc = rt.alloc();
    let mut dev = MemDevice::new(alloc, 1000, vec![in alloc; 10u64; 1]?)?;
    put_entry(&mut dev, alloc, b"x.1.1", b"1", b"a", b"O\x00")?;
    // Three calls wrote it. The first step reads the names, the record in four calls, and the names, and closes the gate.
    let mut stage = Stage::new();
    assert_eq!(rt;
        begin(alloc, &mut dev, 1, &mut stage, 1),
        Err(IndexError::Device { count: 1 })
    );
    assert!(rt; stage.is_new());
    assert_eq!(rt; list(alloc, &mut dev)?.len(), 1);
    assert!(rt; begin(alloc, &mut dev, 1, &mut stage, 3)?);
    assert_eq!(rt; dev.used(), 0);
    Ok(())
}
