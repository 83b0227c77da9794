ghost use Rattle.std.specs.Prelude.{◌≤◌, length, codes};
ghost use Rattle.gated_record.specs.PairStages.{IsStageOf};

use gated_record::{PairValue, pair_load, pair_step};
use node_device::{DevError, Device, MemDevice};
use scr_base::{Bytes, Stage};
use std::alloc::Global;
use std::test::Fail;

/// Takes the pair `run` all the way to a wanted value, and counts the calls.
fn settle<D: Device>(
    alloc: Global,
    dev: &mut D,
    want: &PairValue,
    stage: &mut Stage,
) -> Result<bool, DevError>
    requires version { 1 ≤ want.now.version }
    requires short { length want.now.body ≤ 1048572 }
    requires stage { IsStageOf (codes "run") stage.old }
{
    let mut over = false;
    while !over {
        over = pair_step(alloc, dev, b"run", want, stage)?;
    }
    Ok(over)
}

#[test]
fn stores_the_first_version(rt: HostRuntime) -> Result<(), Fail> {
    let alloc = rt.alloc();
    let mut dev = MemDevice::new(alloc, 100, Vec::new(alloc))?;
    let want = PairValue {
        version: 1,
        body: Bytes::of(Vec::new(alloc)),
    };
    let mut stage = Stage::new();
    let over = settle(alloc, &mut dev, &want, &mut stage)?;
    assert!(rt; over);
    let mut bytes = [0u8; 20];
    dev.read(b"run.1", 0, &mut bytes)?;
    let row = [
        0x4f, 0, 0, 0, 0, 0, 0, 0, 0, 0, 0, 0, 0, 0, 0, 4, 0, 0, 0, 1,
    ];
    assert_eq!(rt; bytes, row);
    assert_eq!(rt; dev.size(b"run.1"), Ok(20));
    assert_eq!(rt; dev.size(b"run.0"), Err(DevError::NoFile));
    dev.crash(1);
    match pair_load(alloc, &mut dev, b"run")? {
        Some(value) => assert_eq!(rt; value.version, 1),
        None => assert!(rt; false, "nothing stands"),
    }
    Ok(())
}

/// Makes so many calls towards a wanted value of the pair `run`.
fn stepped<D: Device>(
    alloc: Global,
    dev: &mut D,
    want: &PairValue,
    stage: &mut Stage,
    calls: u8,
) -> Result<(), DevError>
    requires version { 1 ≤ want.now.version }
    requires short { length want.now.body ≤ 1048572 }
    requires stage { IsStageOf (codes "run") stage.old }
    ensures { IsStageOf (codes "run") stage.new }
{
    for _ in 0..calls {
        pair_step(alloc, dev, b"run", want, stage)?;
    }
    Ok(())
}

/// Does a first version stand after so many calls and a stop?
fn stands_after(alloc: Global, calls: u8, pick: u8) -> Result<bool, DevError>
    requires { pick ≤ 3 }
{
    let mut dev = MemDevice::new(alloc, 100, Vec::new(alloc))?;
    let want = PairValue {
        version: 1,
        body: Bytes::of(Vec::new(alloc)),
    };
    let mut stage = Stage::new();
    stepped(alloc, &mut dev, &want, &mut stage, calls)?;
    dev.crash(pick);
    Ok(pair_load(alloc, &mut dev, b"run")?.is_some())
}

#[test]
fn goes_on_over_another_device(rt: HostRuntime) -> Result<(), Fail> {
    let alloc = rt.alloc();
    let want = PairValue {
        version: 1,
        body: Bytes::of(Vec::new(alloc)),
    };
    let mut first = MemDevice::new(alloc, 100, Vec::new(alloc))?;
    let mut stage = Stage::new();
    stepped(alloc, &mut first, &want, &mut stage, 3)?;
    let mut second = MemDevice::new(alloc, 100, Vec::new(alloc))?;
    second.write(b"other", 0, b"kept")?;
    let over = settle(alloc, &mut second, &want, &mut stage)?;
    assert!(rt; over);
    assert_eq!(rt; second.size(b"run.1"), Ok(1));
    assert_eq!(rt; second.size(b"other"), Ok(4));
    second.crash(1);
    assert_eq!(rt; second.size(b"other"), Ok(4));
    assert!(rt; pair_load(alloc, &mut second, b"run")?.is_none());
    Ok(())
}

#[test]
fn stands_or_not_after_a_stop(rt: HostRuntime) -> Result<(), Fail> {
    let alloc = rt.alloc();
    let rows: [(u8, [bool; 4]); 6] = [
        (0, [false, false, false, false]),
        (1, [false, false, false, false]),
        (2, [false, false, false, false]),
        (3, [false, false, false, false]),
        (4, [true, false, false, true]),
        (5, [true, true, true, true]),
    ];
    for (calls, want) in rows {
        for pick in 0..4 {
            let stands = stands_after(alloc, calls, pick)?;
            assert_eq!(rt;
                stands,
                want[pick as usize],
                "after {calls} calls at {pick}"
            );
        }
    }
    Ok(())
}
