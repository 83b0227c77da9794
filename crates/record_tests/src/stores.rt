ghost use Rattle.std.specs.Prelude.{◌≤◌, codes};
ghost use Rattle.gated_record.specs.PairStages.{IsStageOf};

use halt_file::{Halt, load, store_step};
use node_device::{DevError, Device, MemDevice};
use scr_base::Stage;
use std::alloc::Global;
use std::test::Fail;

/// Stores conditions, all the way.
pub(crate) fn store<D: Device>(
    alloc: Global,
    dev: &mut D,
    want: &Halt,
    stage: &mut Stage,
) -> Result<(), DevError>
    requires { IsStageOf (codes "halt") stage.old }
{
    let mut over = false;
    while !over {
        over = store_step(alloc, dev, want, stage)?;
    }
    Ok(())
}

/// Makes so many calls of a store.
fn begin<D: Device>(
    alloc: Global,
    dev: &mut D,
    want: &Halt,
    stage: &mut Stage,
    calls: u8,
) -> Result<(), DevError>
    requires { IsStageOf (codes "halt") stage.old }
{
    for _ in 0..calls {
        store_step(alloc, dev, want, stage)?;
    }
    Ok(())
}

fn after(at: u64) -> Halt {
    let mut halt = Halt::none();
    halt.after = Some(at);
    halt
}

/// What is told of `after` once a store of 7 was begun with so many calls where 5 was stored, and stopped.
fn told_after(alloc: Global, calls: u8, pick: u8) -> Result<Option<u64>, DevError>
    requires { pick ≤ 3 }
{
    let mut dev = MemDevice::new(alloc, 1000, Vec::new(alloc))?;
    let mut stage = Stage::new();
    store(alloc, &mut dev, &after(5), &mut stage)?;
    let mut stage = Stage::new();
    begin(alloc, &mut dev, &after(7), &mut stage, calls)?;
    dev.crash(pick);
    Ok(load(alloc, &mut dev)?.after)
}

#[test]
fn a_stop_leaves_the_old_conditions_or_the_wanted_ones(rt: HostRuntime) -> Result<(), Fail> {
    let alloc = rt.alloc();
    let rows: [(u8, [u64; 4]); 8] = [
        (0, [5, 5, 5, 5]),
        (1, [5, 5, 5, 5]),
        (2, [5, 5, 5, 5]),
        (3, [5, 5, 5, 5]),
        (4, [7, 5, 5, 7]),
        (5, [7, 7, 7, 7]),
        (6, [7, 7, 7, 7]),
        (7, [7, 7, 7, 7]),
    ];
    for (calls, want) in rows {
        for pick in 0..4 {
            let told = told_after(alloc, calls, pick)?;
            assert_eq!(rt;
                told,
                Some(want[pick as usize]),
                "after {calls} calls at {pick}"
            );
        }
    }
    Ok(())
}

/// `BEFORE{100}` in version 1, with gate 0 open.
const FIRST: &[u8] = b"O\x00\x00\x00\x00\x00\x00\x00\
\x00\x00\x00\x00\x00\x00\x00\x1d\
\x00\x00\x00\x01\
\x00\x00\x00\x01\x00\x06BEFORE\x00\x00\x00\x01\x00\x03100\x00\x00\x00\x00";

#[test]
fn the_first_store_is_version_1(rt: HostRuntime) -> Result<(), Fail> {
    let alloc = rt.alloc();
    let mut dev = MemDevice::new(alloc, 1000, Vec::new(alloc))?;
    let mut want = Halt::none();
    want.before = Some(100);
    let mut stage = Stage::new();
    store(alloc, &mut dev, &want, &mut stage)?;
    assert_eq!(rt; dev.size(b"halt.1"), Ok(45));
    let mut bytes = [0u8; 45];
    dev.read(b"halt.1", 0, &mut bytes)?;
    assert_eq!(rt; bytes.as_slice(), FIRST);
    assert_eq!(rt; dev.size(b"halt.0"), Err(DevError::NoFile));
    Ok(())
}

/// A device on which `halt.1` has this version and payload, with gate 0 open, stable.
fn standing(alloc: Global, version: u32, payload: &[u8]) -> Result<MemDevice, DevError> {
    let mut dev = MemDevice::new(alloc, 1000, Vec::new(alloc))?;
    let len = (payload.len() as u64).saturating_add(4);
    dev.write(b"halt.1", 0, b"O")?;
    dev.write(b"halt.1", 8, &len.to_be_bytes())?;
    dev.write(b"halt.1", 16, &version.to_be_bytes())?;
    dev.write(b"halt.1", 20, payload)?;
    dev.sync()?;
    Ok(dev)
}

#[test]
fn a_payload_that_does_not_read_sets_nothing(rt: HostRuntime) -> Result<(), Fail> {
    let alloc = rt.alloc();
    let mut dev = standing(alloc, 1, b"\xff")?;
    let halt = load(alloc, &mut dev)?;
    assert!(rt; halt.checkpoints.is_none() && halt.before.is_none() && halt.after.is_none());
    assert!(rt; halt.seconds.is_none() && halt.reason.is_none());
    Ok(())
}

#[test]
fn a_store_takes_the_next_version(rt: HostRuntime) -> Result<(), Fail> {
    let alloc = rt.alloc();
    let rows = [
        (1u32, 2u32),
        (4_294_967_293, 4_294_967_294),
        (4_294_967_295, 2),
    ];
    for (version, want) in rows {
        let mut dev = standing(alloc, version, b"\xff")?;
        let mut stage = Stage::new();
        store(alloc, &mut dev, &after(7), &mut stage)?;
        let mut bytes = [0u8; 4];
        dev.read(b"halt.0", 16, &mut bytes)?;
        assert_eq!(rt; u32::from_be_bytes(bytes), want, "after {version}");
        dev.crash(1);
        assert_eq!(rt; load(alloc, &mut dev)?.after, Some(7), "after {version}");
    }
    Ok(())
}

/// How a store ends on a device of this capacity, of whose calls these fail.
fn ends(alloc: Global, capacity: u64, fail: Vec<u64>) -> Result<(), DevError> {
    let mut dev = MemDevice::new(alloc, capacity, fail)?;
    let mut stage = Stage::new();
    store(alloc, &mut dev, &after(7), &mut stage)
}

#[test]
fn a_store_is_refused(rt: HostRuntime) -> Result<(), Fail> {
    let alloc = rt.alloc();
    // The record has 16 bytes, the version 4, and `AFTER{7}` 22.
    assert_eq!(rt; ends(alloc, 42, Vec::new(alloc)), Ok(()));
    assert_eq!(rt; ends(alloc, 41, Vec::new(alloc)), Err(DevError::Full));
    for call in 1..16u64 {
        let fail = vec![in alloc; call; 1]?;
        assert_eq!(rt; ends(alloc, 42, fail), Err(DevError::Failed), "call {call}");
    }
    Ok(())
}
