ghost use Rattle.std.specs.Prelude.{◌≤◌, IsTrue};
ghost use Rattle.admin.specs.Commands.{IsHaltCommand};

use crate::{Answer, Command, run_command};
use halt_file::load;
use node_device::{Bay, DevError, Device, MemDevice};
use scr_base::{HaltWord, Name};
use std::alloc::Global;
use std::test::Fail;

/// A bay with this prefix.
fn bay_with(alloc: Global, prefix: MemDevice) -> Result<Bay<MemDevice>, DevError> {
    let mut nodes = Vec::with_capacity(alloc, 32)?;
    for place in 0..32u8 {
        let _ = place;
        nodes.push(MemDevice::new(alloc, 100, Vec::new(alloc))?)?;
    }
    Ok(Bay::new(nodes, prefix))
}

/// A bay whose prefix has this capacity and is empty.
fn bay(alloc: Global, capacity: u64) -> Result<Bay<MemDevice>, DevError> {
    let prefix = MemDevice::new(alloc, capacity, Vec::new(alloc))?;
    bay_with(alloc, prefix)
}

/// A bay on whose prefix `halt.1` has version 1 and this payload, with gate 0 open, stable. The call of the prefix that is
/// the sixth or a later one may fail.
fn standing(
    alloc: Global,
    payload: &[u8],
    capacity: u64,
    failing: u64,
) -> Result<Bay<MemDevice>, DevError> {
    let fail = vec![in alloc; failing; 1]?;
    let mut prefix = MemDevice::new(alloc, capacity, fail)?;
    let len = (payload.len() as u64).saturating_add(4);
    prefix.write(b"halt.1", 0, b"O")?;
    prefix.write(b"halt.1", 8, &len.to_be_bytes())?;
    prefix.write(b"halt.1", 16, &1u32.to_be_bytes())?;
    prefix.write(b"halt.1", 20, payload)?;
    prefix.sync()?;
    bay_with(alloc, prefix)
}

/// `AFTER{5}`.
const AFTER_5: &[u8] = b"\x00\x00\x00\x01\x00\x05AFTER\x00\x00\x00\x01\x00\x015\x00\x00\x00\x00";

/// The conditions but the reason: `checkpoints`, `before`, `after` and `seconds`.
fn numbers(alloc: Global, bay: &mut Bay<MemDevice>) -> Result<[Option<u64>; 4], DevError> {
    let halt = load(alloc, bay.device(32))?;
    let checkpoints = halt.checkpoints.map(u64::from);
    Ok([checkpoints, halt.before, halt.after, halt.seconds])
}

/// Is this the reason?
fn is_reason(alloc: Global, bay: &mut Bay<MemDevice>, want: &[u8]) -> Result<bool, DevError> {
    let halt = load(alloc, bay.device(32))?;
    match halt.reason {
        None => Ok(want.is_empty()),
        Some(name) => Ok(name.bytes() == want),
    }
}

/// Sets a condition.
fn set(alloc: Global, bay: &mut Bay<MemDevice>, halt: HaltWord) -> Result<Answer, DevError> {
    Ok(run_command(alloc, bay, &Command::HaltSet { halt })?)
}

#[test]
fn sets_each_condition(rt: HostRuntime) -> Result<(), Fail> {
    let alloc = rt.alloc();
    let Ok(name) = Name::read(alloc, b"full") else {
        return Ok(assert!(rt; false, "no name"));
    };
    let rows = [
        (
            HaltWord::Checkpoints { left: 3 },
            [Some(3), None, None, None],
            "",
        ),
        (
            HaltWord::Before { at: 100 },
            [None, Some(100), None, None],
            "",
        ),
        (HaltWord::After { at: 7 }, [None, None, Some(7), None], ""),
        (
            HaltWord::Seconds { seconds: 60 },
            [None, None, None, Some(60)],
            "",
        ),
        (HaltWord::Reason { name }, [None, None, None, None], "full"),
    ];
    for (word, want, reason) in rows {
        let mut bay = bay(alloc, 1000)?;
        assert_eq!(rt; set(alloc, &mut bay, word)?, Answer::Done);
        bay.stop(1);
        assert_eq!(rt; numbers(alloc, &mut bay)?, want);
        assert!(rt; is_reason(alloc, &mut bay, reason.as_bytes())?);
    }
    Ok(())
}

#[test]
fn sets_one_beside_another_and_unsets_all(rt: HostRuntime) -> Result<(), Fail> {
    let alloc = rt.alloc();
    let mut bay = bay(alloc, 1000)?;
    assert_eq!(rt;
        set(alloc, &mut bay, HaltWord::Before { at: 9 })?,
        Answer::Done
    );
    assert_eq!(rt;
        set(alloc, &mut bay, HaltWord::Checkpoints { left: 0 })?,
        Answer::Done
    );
    assert_eq!(rt;
        set(alloc, &mut bay, HaltWord::Before { at: 8 })?,
        Answer::Done
    );
    assert_eq!(rt; numbers(alloc, &mut bay)?, [Some(0), Some(8), None, None]);
    assert_eq!(rt;
        run_command(alloc, &mut bay, &Command::HaltClear),
        Ok(Answer::Done)
    );
    assert_eq!(rt; numbers(alloc, &mut bay)?, [None, None, None, None]);
    assert!(rt; is_reason(alloc, &mut bay, b"")?);
    Ok(())
}

#[test]
fn begins_with_nothing_where_the_payload_does_not_read(rt: HostRuntime) -> Result<(), Fail> {
    let alloc = rt.alloc();
    let mut bay = standing(alloc, b"\xff", 1000, 0)?;
    assert_eq!(rt; numbers(alloc, &mut bay)?, [None, None, None, None]);
    assert_eq!(rt;
        set(alloc, &mut bay, HaltWord::Before { at: 5 })?,
        Answer::Done
    );
    assert_eq!(rt; numbers(alloc, &mut bay)?, [None, Some(5), None, None]);
    assert!(rt; is_reason(alloc, &mut bay, b"")?);
    Ok(())
}

/// What is answered and what `after` is, where 5 stood, 7 was set, the prefix fails in a call and all was stopped.
fn set_failing(alloc: Global, call: u64, pick: u8) -> Result<(Answer, Option<u64>), DevError>
    requires { pick ≤ 3 }
{
    let mut bay = standing(alloc, AFTER_5, 1000, call)?;
    let answer = set(alloc, &mut bay, HaltWord::After { at: 7 })?;
    bay.stop(pick);
    match numbers(alloc, &mut bay) {
        Ok(numbers) => Ok((answer, numbers[2])),
        // This read met the call that fails.
        Err(_) => Ok((answer, numbers(alloc, &mut bay)?[2])),
    }
}

#[test]
fn tells_each_fault(rt: HostRuntime) -> Result<(), Fail> {
    let alloc = rt.alloc();
    for pick in 0..4u8 {
        let mut last = 5;
        for call in 6..80u64 {
            let (answer, after) = set_failing(alloc, call, pick)?;
            if answer == Answer::Done {
                assert_eq!(rt; after, Some(7), "at call {call} and {pick}");
            } else {
                assert_eq!(rt; answer, Answer::Device { count: 1 }, "at call {call}");
                assert_eq!(rt; last, call - 1);
                assert!(rt;
                    after == Some(5) || after == Some(7),
                    "at call {call} and {pick}"
                );
                last = call;
            }
        }
        assert!(rt; last > 20 && last < 79, "{last}");
    }
    Ok(())
}

#[test]
fn tells_a_full_prefix(rt: HostRuntime) -> Result<(), Fail> {
    let alloc = rt.alloc();
    // The record has 16 bytes, the version 4, and `AFTER{7}` 22.
    let mut empty = bay(alloc, 41)?;
    let full = Answer::Full {
        used: 0,
        capacity: 41,
    };
    assert_eq!(rt; set(alloc, &mut empty, HaltWord::After { at: 7 })?, full);
    assert_eq!(rt; numbers(alloc, &mut empty)?, [None, None, None, None]);
    let rows = [
        (
            83,
            Answer::Full {
                used: 42,
                capacity: 83,
            },
            Some(5),
        ),
        (84, Answer::Done, Some(7)),
    ];
    for (capacity, want, after) in rows {
        let mut bay = standing(alloc, AFTER_5, capacity, 0)?;
        assert_eq!(rt; set(alloc, &mut bay, HaltWord::After { at: 7 })?, want);
        bay.stop(2);
        assert_eq!(rt; numbers(alloc, &mut bay)?[2], after, "of {capacity}");
    }
    Ok(())
}
