//! Decimal numbers.
use decimal::{medium, number, number_in, put, small};
use std::test::Fail;

#[test]
fn digits_read(rt: HostRuntime) {
    for (digits, value) in [
        (b"0".as_slice(), Some(0)),
        (b"7".as_slice(), Some(7)),
        (b"18446744073709551615".as_slice(), Some(u64::MAX)),
        (b"18446744073709551616".as_slice(), None),
        (b"".as_slice(), None),
        (b"00".as_slice(), None),
        (b"07".as_slice(), None),
        (b"+7".as_slice(), None),
        (b"-7".as_slice(), None),
        (b"7 ".as_slice(), None),
        (b"\xb2".as_slice(), None),
    ] {
        assert_eq!(rt; number(digits), value, "{digits:?}");
    }
}

#[test]
fn limits_of_numbers(rt: HostRuntime) {
    assert_eq!(rt; (small(b"255"), small(b"256")), (Some(255), None));
    assert_eq!(rt;
        (medium(b"4294967295"), medium(b"4294967296")),
        (Some(u32::MAX), None)
    );
    for (digits, value) in [
        (b"2".as_slice(), None),
        (b"3".as_slice(), Some(3)),
        (b"12".as_slice(), Some(12)),
        (b"13".as_slice(), None),
    ] {
        assert_eq!(rt; number_in(digits, 3, 12), value, "{digits:?}");
    }
}

#[test]
fn digits_written(rt: HostRuntime) -> Result<(), Fail> {
    let mut text = Vec::new(rt.alloc());
    for value in [0, 10, u64::MAX] {
        put(&mut text, value)?;
        text.push(b' ')?;
    }
    assert_eq!(rt; text.as_slice(), b"0 10 18446744073709551615 ".as_slice());
    Ok(())
}
