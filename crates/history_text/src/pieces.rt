//! The pieces of which each line is made, put at the end of the text so far.

ghost use Rattle.std.specs.Prelude.{◌≡◌, ◌++◌, ◌∷◌, [], ◌<◌, decimal, OnOk};
ghost use Rattle.history_reader.specs.Pieces.{each_after};
ghost use Rattle.ckpt_model.specs.Text.{id_text, hex_text, bytes_text, numbers_joined, lost_text, flags_text, valid_text, device_text, full_text};

use itoa::Buffer;
use scr_base::{DataId, Flags, Memory};

pub(crate) fn put(out: &mut Vec<u8>, bytes: &[u8]) -> Result<(), Memory>
    ensures { OnOk result (out.new.items ≡ out.old.items ++ bytes.now) }
{
    out.extend_from_slice(bytes)?;
    Ok(())
}

pub(crate) fn put_number(out: &mut Vec<u8>, number: u64) -> Result<(), Memory>
    ensures { OnOk result (out.new.items ≡ out.old.items ++ decimal number) }
{
    let mut buffer = Buffer::new();
    put(out, buffer.format(number).as_bytes())
}

pub(crate) fn put_id(out: &mut Vec<u8>, which: DataId) -> Result<(), Memory>
    ensures { OnOk result (out.new.items ≡ out.old.items ++ id_text which) }
{
    put_number(out, which.id as u64)?;
    put(out, b".")?;
    put_number(out, which.run as u64)
}

/// Numbers with a byte between each two.
pub(crate) fn put_numbers(out: &mut Vec<u8>, separator: u8, numbers: &[u8]) -> Result<(), Memory>
    ensures { OnOk result (out.new.items ≡ out.old.items ++ numbers_joined separator numbers.now) }
{
    match numbers.split_first() {
        None => Ok(()),
        Some((first, others)) => {
            put_number(out, *first as u64)?;
            put_more_numbers(out, separator, others)
        }
    }
}

/// Numbers with a byte before each.
fn put_more_numbers(out: &mut Vec<u8>, separator: u8, numbers: &[u8]) -> Result<(), Memory>
    ensures { OnOk result (out.new.items ≡ out.old.items ++ each_after separator decimal numbers.now) }
{
    for number in numbers {
        out.push(separator)?;
        put_number(out, *number as u64)?;
    }
    Ok(())
}

/// Numbers with a plus between each two, or a dash for none.
pub(crate) fn put_lost(out: &mut Vec<u8>, lost: &[u8]) -> Result<(), Memory>
    ensures { OnOk result (out.new.items ≡ out.old.items ++ lost_text lost.now) }
{
    match lost {
        [] => put(out, b"-"),
        _ => put_numbers(out, b'+', lost),
    }
}

const DIGITS: [u8; 16] = *b"0123456789abcdef";

/// Bytes in hexadecimal, two digits each.
pub(crate) fn put_hex(out: &mut Vec<u8>, bytes: &[u8]) -> Result<(), Memory>
    ensures { OnOk result (out.new.items ≡ out.old.items ++ hex_text bytes.now) }
{
    for byte in bytes {
        out.push(DIGITS[(*byte / 16) as usize])?;
        out.push(DIGITS[(*byte % 16) as usize])?;
    }
    Ok(())
}

/// Bytes in hexadecimal, or a dash for none.
pub(crate) fn put_bytes(out: &mut Vec<u8>, bytes: &[u8]) -> Result<(), Memory>
    ensures { OnOk result (out.new.items ≡ out.old.items ++ bytes_text bytes.now) }
{
    match bytes {
        [] => put(out, b"-"),
        _ => put_hex(out, bytes),
    }
}

pub(crate) fn put_flags(out: &mut Vec<u8>, flags: Flags) -> Result<(), Memory>
    ensures { OnOk result (out.new.items ≡ out.old.items ++ flags_text flags) }
{
    match flags {
        Flags::Ckpt => put(out, b"ckpt"),
        Flags::Output => put(out, b"output"),
        Flags::Both => put(out, b"both"),
    }
}

pub(crate) fn put_valid(out: &mut Vec<u8>, valid: bool) -> Result<(), Memory>
    ensures { OnOk result (out.new.items ≡ out.old.items ++ valid_text valid) }
{
    match valid {
        true => put(out, b"valid"),
        false => put(out, b"invalid"),
    }
}

/// A device's fault, with the count of its calls.
pub(crate) fn put_device(out: &mut Vec<u8>, node: u8, count: u64) -> Result<(), Memory>
    ensures { OnOk result (out.new.items ≡ out.old.items ++ device_text node count) }
{
    put(out, b"device ")?;
    put_number(out, node as u64)?;
    put(out, b" ")?;
    put_number(out, count)
}

/// A full device, with its bytes in use and its capacity.
pub(crate) fn put_full(out: &mut Vec<u8>, node: u8, used: u64, capacity: u64) -> Result<(), Memory>
    ensures { OnOk result (out.new.items ≡ out.old.items ++ full_text node used capacity) }
{
    put(out, b"full ")?;
    put_number(out, node as u64)?;
    put(out, b" ")?;
    put_number(out, used)?;
    put(out, b" ")?;
    put_number(out, capacity)
}
