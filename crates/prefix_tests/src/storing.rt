//! The mark is stored, one change a call.
ghost use Rattle.std.specs.Prelude.{◌≤◌, codes};
ghost use Rattle.gated_record.specs.PairStages.{IsStageOf};

use crate::samples::{MARK_OF_FIRST, holds, of_first_run, put_entry, put_three, three_entries};
use node_device::{DevError, Device, MemDevice};
use prefix_index::{IndexError, current_step, mark};
use scr_base::{DataId, Stage};
use std::alloc::Global;
use std::test::Fail;

/// Makes so many calls of a mark.
fn begin(
    alloc: Global,
    dev: &mut MemDevice,
    id: u32,
    stage: &mut Stage,
    calls: u8,
) -> Result<bool, IndexError>
    requires { IsStageOf (codes "cur") stage.old }
    ensures { IsStageOf (codes "cur") stage.new }
{
    let mut over = false;
    for _ in 0..calls {
        over = current_step(alloc, dev, id, stage)?;
    }
    Ok(over)
}

#[test]
fn the_pair_is_as_the_format_says(rt: HostRuntime) -> Result<(), Fail> {
    let alloc = rt.alloc();
    let mut dev = three_entries(alloc)?;
    assert_eq!(rt; mark(alloc, &mut dev)?, of_first_run(2));
    let mut stage = Stage::new();
    assert!(rt; !begin(alloc, &mut dev, 1, &mut stage, 4)?);
    assert!(rt; begin(alloc, &mut dev, 1, &mut stage, 1)?);
    assert_eq!(rt; holds(&mut dev, alloc, b"cur.1")?.as_slice(), MARK_OF_FIRST);
    assert_eq!(rt; dev.size(b"cur.0"), Err(DevError::NoFile));
    assert_eq!(rt; mark(alloc, &mut dev)?, of_first_run(1));
    assert!(rt;
        begin(alloc, &mut dev, 1, &mut stage, 1)?,
        "nothing is left to do"
    );
    Ok(())
}

#[test]
fn an_entry_that_is_not_flushed_is_not_marked(rt: HostRuntime) -> Result<(), Fail> {
    let alloc = rt.alloc();
    for id in [9u32, 3] {
        let mut dev = three_entries(alloc)?;
        let used = dev.used();
        let mut stage = Stage::new();
        assert_eq!(rt;
            begin(alloc, &mut dev, id, &mut stage, 1),
            Err(IndexError::NoEntry)
        );
        assert!(rt; stage.is_new() && dev.used() == used, "{id}");
    }
    Ok(())
}

/// The mark after a stop behind so many calls of the mark of 1.1, where that of 2.1 was stored.
fn left(alloc: Global, calls: u8, pick: u8) -> Result<Option<DataId>, Fail>
    requires { pick ≤ 3 }
{
    let mut dev = three_entries(alloc)?;
    let mut stored = Stage::new();
    begin(alloc, &mut dev, 2, &mut stored, 5)?;
    let mut stage = Stage::new();
    begin(alloc, &mut dev, 1, &mut stage, calls)?;
    dev.crash(pick);
    Ok(mark(alloc, &mut dev)?)
}

#[test]
fn a_stop_leaves_the_mark_of_before_or_the_wanted_one(rt: HostRuntime) -> Result<(), Fail> {
    let alloc = rt.alloc();
    for calls in 0..9u8 {
        for pick in 0..4u8 {
            let which = left(alloc, calls, pick)?;
            assert!(rt;
                which == of_first_run(1) || which == of_first_run(2) && calls < 7,
                "after {calls} calls at {pick}"
            );
            if calls == 0 {
                assert_eq!(rt; which, of_first_run(2));
            }
        }
    }
    Ok(())
}

#[test]
fn a_fault_leaves_the_stage(rt: HostRuntime) -> Result<(), Fail> {
    let alloc = rt.alloc();
    // Three calls write the entry.
    for call in 4..24u64 {
        let mut dev = MemDevice::new(alloc, 1000, vec![in alloc; call; 1]?)?;
        put_entry(&mut dev, alloc, b"x.1.1", b"1", b"a", b"O\x00")?;
        let mut stage = Stage::new();
        assert_eq!(rt;
            begin(alloc, &mut dev, 1, &mut stage, 9),
            Err(IndexError::Device { count: 1 }),
            "call {call}"
        );
        assert!(rt; begin(alloc, &mut dev, 1, &mut stage, 9)?, "call {call}");
        assert_eq!(rt; mark(alloc, &mut dev)?, of_first_run(1));
    }
    Ok(())
}

#[test]
fn a_mark_that_passes_the_capacity_is_refused(rt: HostRuntime) -> Result<(), Fail> {
    let alloc = rt.alloc();
    let used = three_entries(alloc)?.used();
    let whole = used.saturating_add(MARK_OF_FIRST.len() as u64);
    let mut small = MemDevice::new(alloc, whole.saturating_sub(1), Vec::new(alloc))?;
    put_three(&mut small, alloc)?;
    let mut stage = Stage::new();
    let full = IndexError::Full {
        used,
        capacity: whole.saturating_sub(1),
    };
    assert_eq!(rt; begin(alloc, &mut small, 1, &mut stage, 9), Err(full));
    let mut enough = MemDevice::new(alloc, whole, Vec::new(alloc))?;
    put_three(&mut enough, alloc)?;
    let mut stage = Stage::new();
    assert_eq!(rt; begin(alloc, &mut enough, 1, &mut stage, 9), Ok(true));
    Ok(())
}
