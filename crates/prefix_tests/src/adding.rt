//! A new entry of the index, from its body to its gates.
ghost use Rattle.std.specs.Prelude.{◌≤◌};

use crate::samples::{body, first, holds, one_file, put_entry, roomy};
use node_device::{DevError, Device, MemDevice};
use prefix_index::{IndexError, add_body, add_gate, fail_gate, list};
use scr_base::DataId;
use std::alloc::Global;
use std::test::Fail;

const FIRST: DataId = DataId { id: 1, run: 1 };

#[test]
fn a_record_is_as_the_format_says(rt: HostRuntime) -> Result<(), Fail> {
    let alloc = rt.alloc();
    let mut dev = roomy(alloc)?;
    add_body(alloc, &mut dev, &first(alloc, b"a")?, &one_file(alloc)?)?;
    let want = body(alloc, b"1", b"a")?;
    let bytes = holds(&mut dev, alloc, b"x.1.1")?;
    assert_eq!(rt; bytes.len(), want.len() + 16);
    assert_eq!(rt; &bytes[..14], [0u8; 14].as_slice(), "the gates are shut");
    assert_eq!(rt; bytes[14] as usize * 256 + bytes[15] as usize, want.len());
    assert_eq!(rt; &bytes[16..], want.as_slice());
    Ok(())
}

/// The gates of the record of 1.1.
fn gates(dev: &mut MemDevice) -> Result<[u8; 8], DevError> {
    let mut gates = [0u8; 8];
    dev.read(b"x.1.1", 0, &mut gates)?;
    Ok(gates)
}

#[test]
fn gates_take_it_in_and_fail_it(rt: HostRuntime) -> Result<(), Fail> {
    let alloc = rt.alloc();
    let mut dev = roomy(alloc)?;
    add_body(alloc, &mut dev, &first(alloc, b"a")?, &one_file(alloc)?)?;
    assert_eq!(rt; list(alloc, &mut dev)?.len(), 0);
    dev.sync()?;
    add_gate(&mut dev, FIRST)?;
    assert_eq!(rt; gates(&mut dev)?, *b"O\x00\x00\x00\x00\x00\x00\x00");
    let entries = list(alloc, &mut dev)?;
    assert!(rt; entries.len() == 1 && !entries[0].failed);
    fail_gate(&mut dev, FIRST)?;
    assert_eq!(rt; gates(&mut dev)?, *b"OO\x00\x00\x00\x00\x00\x00");
    let entries = list(alloc, &mut dev)?;
    assert!(rt; entries.len() == 1 && entries[0].failed);
    Ok(())
}

/// How many entries a stop leaves of one whose gate was opened and not synced.
fn entries_left(alloc: Global, pick: u8) -> Result<usize, Fail>
    requires { pick ≤ 3 }
{
    let mut dev = roomy(alloc)?;
    add_body(alloc, &mut dev, &first(alloc, b"a")?, &one_file(alloc)?)?;
    dev.sync()?;
    add_gate(&mut dev, FIRST)?;
    dev.crash(pick);
    Ok(list(alloc, &mut dev)?.len())
}

#[test]
fn an_entry_is_in_or_out_as_its_gate_was_left(rt: HostRuntime) -> Result<(), Fail> {
    let alloc = rt.alloc();
    for (pick, want) in [(0u8, 1usize), (1, 0), (2, 0), (3, 1)] {
        assert_eq!(rt; entries_left(alloc, pick)?, want, "at {pick}");
    }
    Ok(())
}

#[test]
fn a_name_is_taken_by_an_entry_alone(rt: HostRuntime) -> Result<(), Fail> {
    let alloc = rt.alloc();
    for (gates, taken) in [(b"O\x00", true), (b"OO", true), (b"\x00O", false)] {
        let mut dev = roomy(alloc)?;
        put_entry(&mut dev, alloc, b"x.7.1", b"7", b"a", gates)?;
        let told = add_body(alloc, &mut dev, &first(alloc, b"a")?, &one_file(alloc)?);
        let want = if taken {
            Err(IndexError::NameTaken {
                which: DataId { id: 7, run: 1 },
            })
        } else {
            Ok(())
        };
        assert_eq!(rt; told, want);
        assert_eq!(rt;
            add_body(alloc, &mut dev, &first(alloc, b"b")?, &one_file(alloc)?),
            Ok(())
        );
    }
    Ok(())
}

#[test]
fn a_body_is_refused(rt: HostRuntime) -> Result<(), Fail> {
    let alloc = rt.alloc();
    let len = body(alloc, b"1", b"a")?.len() as u64;
    let whole = len.saturating_add(16);
    let mut small = MemDevice::new(alloc, whole.saturating_sub(1), Vec::new(alloc))?;
    let full = IndexError::Full {
        used: 0,
        capacity: whole.saturating_sub(1),
    };
    assert_eq!(rt;
        add_body(alloc, &mut small, &first(alloc, b"a")?, &one_file(alloc)?),
        Err(full)
    );
    let mut dev = MemDevice::new(alloc, whole, vec![in alloc; 2u64; 1]?)?;
    let fault = IndexError::Device { count: 1 };
    assert_eq!(rt;
        add_body(alloc, &mut dev, &first(alloc, b"a")?, &one_file(alloc)?),
        Err(fault)
    );
    assert_eq!(rt;
        add_body(alloc, &mut dev, &first(alloc, b"a")?, &one_file(alloc)?),
        Ok(())
    );
    Ok(())
}
