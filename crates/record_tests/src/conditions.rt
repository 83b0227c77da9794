ghost use Rattle.std.specs.Prelude.{◌≤◌, length};

use crate::stores::store;
use gated_record::{open_gate, pair_load, write_body};
use halt_file::{Halt, load};
use node_device::{DevError, MemDevice};
use scr_base::{Bytes, HaltWord, Name, Reason, Stage};
use std::alloc::Global;
use std::test::Fail;

/// Conditions of numbers alone: `checkpoints`, `before`, `after` and `seconds`.
fn numbers(
    checkpoints: Option<u32>,
    before: Option<u64>,
    after: Option<u64>,
    seconds: Option<u64>,
) -> Halt {
    Halt {
        checkpoints,
        before,
        after,
        seconds,
        reason: None,
    }
}

#[test]
fn the_first_condition_that_holds_is_the_reason(rt: HostRuntime) -> Result<(), Fail> {
    let last = u64::MAX;
    let rows = [
        (numbers(None, None, None, None), last, u32::MAX, None),
        (numbers(None, None, None, Some(last)), last, 9, None),
        (numbers(None, Some(100), None, Some(99)), 0, 0, None),
        (
            numbers(None, Some(100), None, Some(99)),
            1,
            0,
            Some(Reason::Before),
        ),
        (numbers(None, Some(100), None, None), 99, 0, None),
        (
            numbers(None, Some(100), None, None),
            100,
            0,
            Some(Reason::Before),
        ),
        (numbers(Some(3), None, None, None), last, 2, None),
        (
            numbers(Some(3), None, None, None),
            0,
            3,
            Some(Reason::Checkpoints),
        ),
        (
            numbers(Some(0), None, None, None),
            0,
            0,
            Some(Reason::Checkpoints),
        ),
        (numbers(None, None, Some(7), None), 6, 9, None),
        (
            numbers(None, None, Some(7), None),
            7,
            0,
            Some(Reason::After),
        ),
        (
            numbers(Some(1), Some(1), Some(1), None),
            1,
            1,
            Some(Reason::Checkpoints),
        ),
        (
            numbers(Some(2), Some(1), Some(1), None),
            1,
            1,
            Some(Reason::After),
        ),
        (
            numbers(Some(2), Some(1), Some(2), None),
            1,
            1,
            Some(Reason::Before),
        ),
        // The sum ends at the greatest number.
        (numbers(None, Some(last), None, Some(5)), last - 6, 0, None),
        (
            numbers(None, Some(last), None, Some(5)),
            last - 5,
            0,
            Some(Reason::Before),
        ),
        (
            numbers(None, Some(last), None, Some(last)),
            2,
            0,
            Some(Reason::Before),
        ),
        (
            numbers(None, Some(3), None, Some(last)),
            last,
            0,
            Some(Reason::Before),
        ),
    ];
    for (halt, now, settled, want) in &rows {
        assert_eq!(rt;
            halt.reason(*now, *settled),
            *want,
            "at {now} after {settled}"
        );
    }
    Ok(())
}

fn name(alloc: Global, bytes: &[u8]) -> Result<Name, Fail> {
    Ok(Name::read(alloc, bytes)?)
}

#[test]
fn a_reason_comes_first(rt: HostRuntime) -> Result<(), Fail> {
    let alloc = rt.alloc();
    let mut halt = Halt::none();
    halt.set(HaltWord::Checkpoints { left: 0 });
    halt.set(HaltWord::After { at: 0 });
    halt.set(HaltWord::Before { at: 0 });
    assert_eq!(rt; halt.reason(0, 0), Some(Reason::Checkpoints));
    halt.set(HaltWord::Reason {
        name: name(alloc, b"done")?,
    });
    assert_eq!(rt; halt.reason(0, 0), Some(Reason::Reason));
    halt.set(HaltWord::Checkpoints { left: 9 });
    halt.set(HaltWord::Seconds { seconds: 4 });
    assert_eq!(rt; halt.checkpoints, Some(9));
    assert_eq!(rt; halt.seconds, Some(4));
    Ok(())
}

/// `BEFORE{100} SECONDS{99}`
const TWO: &[u8] = b"\x00\x00\x00\x02\
\x00\x06BEFORE\x00\x00\x00\x01\x00\x03100\x00\x00\x00\x00\
\x00\x07SECONDS\x00\x00\x00\x01\x00\x0299\x00\x00\x00\x00";

/// `AFTER{0} BEFORE{18446744073709551615} CHECKPOINTS{4294967295} REASON{done} SECONDS{7}`
const FIVE: &[u8] = b"\x00\x00\x00\x05\
\x00\x05AFTER\x00\x00\x00\x01\x00\x010\x00\x00\x00\x00\
\x00\x06BEFORE\x00\x00\x00\x01\x00\x1418446744073709551615\x00\x00\x00\x00\
\x00\x0bCHECKPOINTS\x00\x00\x00\x01\x00\x0a4294967295\x00\x00\x00\x00\
\x00\x06REASON\x00\x00\x00\x01\x00\x04done\x00\x00\x00\x00\
\x00\x07SECONDS\x00\x00\x00\x01\x00\x017\x00\x00\x00\x00";

/// The payload that stands where these conditions were stored.
fn payload_of(alloc: Global, want: &Halt) -> Result<Bytes, DevError> {
    let mut dev = MemDevice::new(alloc, 1_000, Vec::new(alloc))?;
    let mut stage = Stage::new();
    store(alloc, &mut dev, want, &mut stage)?;
    match pair_load(alloc, &mut dev, b"halt")? {
        Some(value) => Ok(value.body),
        None => Err(DevError::NoFile),
    }
}

/// What is told where this payload stands, in version 1.
fn halt_of(alloc: Global, payload: &[u8]) -> Result<Halt, DevError>
    requires { length payload.now ≤ 1000 }
{
    let mut dev = MemDevice::new(alloc, 2_000, Vec::new(alloc))?;
    let mut body = Vec::from_slice(alloc, &[0, 0, 0, 1])?;
    body.extend_from_slice(payload)?;
    write_body(alloc, &mut dev, b"halt.1", &body)?;
    open_gate(&mut dev, b"halt.1", 0)?;
    load(alloc, &mut dev)
}

#[test]
fn conditions_have_one_payload(rt: HostRuntime) -> Result<(), Fail> {
    let alloc = rt.alloc();
    let none = payload_of(alloc, &Halt::none())?;
    assert_eq!(rt; none.list(), b"\x00\x00\x00\x00".as_slice());
    let two = payload_of(alloc, &numbers(None, Some(100), None, Some(99)))?;
    assert_eq!(rt; two.list(), TWO);
    let mut halt = numbers(Some(u32::MAX), Some(u64::MAX), Some(0), Some(7));
    halt.reason = Some(name(alloc, b"done")?);
    let five = payload_of(alloc, &halt)?;
    assert_eq!(rt; five.list(), FIVE);
    Ok(())
}

#[test]
fn a_payload_tells_what_it_spells(rt: HostRuntime) -> Result<(), Fail> {
    let alloc = rt.alloc();
    let halt = halt_of(alloc, TWO)?;
    assert_eq!(rt; (halt.before, halt.seconds), (Some(100), Some(99)));
    assert_eq!(rt; (halt.checkpoints, halt.after), (None, None));
    assert!(rt; halt.reason.is_none());
    let halt = halt_of(alloc, FIVE)?;
    assert_eq!(rt; (halt.before, halt.seconds), (Some(u64::MAX), Some(7)));
    assert_eq!(rt; (halt.checkpoints, halt.after), (Some(u32::MAX), Some(0)));
    match &halt.reason {
        Some(name) => assert_eq!(rt; name.bytes(), b"done".as_slice()),
        None => assert!(rt; false, "no reason"),
    }
    Ok(())
}

/// Is nothing set?
fn is_none(halt: &Halt) -> bool {
    halt.checkpoints.is_none()
        && halt.before.is_none()
        && halt.after.is_none()
        && halt.seconds.is_none()
        && halt.reason.is_none()
}

#[test]
fn a_payload_that_spells_none_tells_that_nothing_is_set(rt: HostRuntime) -> Result<(), Fail> {
    let alloc = rt.alloc();
    let rows: [&[u8]; 12] = [
        b"\xff",
        b"",
        b"\x00\x00\x00\x00",
        // a byte after the tree
        b"\x00\x00\x00\x01\x00\x05AFTER\x00\x00\x00\x01\x00\x010\x00\x00\x00\x00\x00",
        // a leading zero
        b"\x00\x00\x00\x01\x00\x05AFTER\x00\x00\x00\x01\x00\x0207\x00\x00\x00\x00",
        // no number
        b"\x00\x00\x00\x01\x00\x05AFTER\x00\x00\x00\x01\x00\x01x\x00\x00\x00\x00",
        // no value
        b"\x00\x00\x00\x01\x00\x05AFTER\x00\x00\x00\x00",
        // two values
        b"\x00\x00\x00\x01\x00\x05AFTER\x00\x00\x00\x02\x00\x011\x00\x00\x00\x00\x00\x012\x00\x00\x00\x00",
        // a value with a value
        b"\x00\x00\x00\x01\x00\x05AFTER\x00\x00\x00\x01\x00\x011\x00\x00\x00\x01\x00\x011\x00\x00\x00\x00",
        // 2^64
        b"\x00\x00\x00\x01\x00\x05AFTER\x00\x00\x00\x01\x00\x1418446744073709551616\x00\x00\x00\x00",
        // 2^32
        b"\x00\x00\x00\x01\x00\x0bCHECKPOINTS\x00\x00\x00\x01\x00\x0a4294967296\x00\x00\x00\x00",
        // no name
        b"\x00\x00\x00\x01\x00\x06REASON\x00\x00\x00\x01\x00\x02.x\x00\x00\x00\x00",
    ];
    for payload in &rows {
        let halt = halt_of(alloc, *payload)?;
        assert!(rt; is_none(&halt), "of {payload:?}");
    }
    // a key that isn't one of the five, beside one that is
    let halt = halt_of(
        alloc,
        b"\x00\x00\x00\x02\x00\x05AFTER\x00\x00\x00\x01\x00\x010\x00\x00\x00\x00\x00\x06AFTER2\x00\x00\x00\x01\x00\x010\x00\x00\x00\x00",
    )?;
    assert!(rt; is_none(&halt));
    Ok(())
}
