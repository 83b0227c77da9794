//! The pieces of flushed files.
ghost use Rattle.std.specs.Prelude.{length};
ghost use Rattle.prefix_store.specs.Calls.{WritesPiece, ReadsPiece};

use crate::file_name::FileName;
use node_device::{DevError, Device};
use scr_base::Name;

/// Writes at a place of a flushed file: that of a rank, under the folder of a dataset's name. It takes no memory of its own,
/// and answers as the device's own write: `Failed`; `Range`; `Full`; `Memory`.
pub fn write_piece<D: Device>(
    dev: &mut D,
    name: &Name,
    rank: u8,
    file: &Name,
    at: u64,
    bytes: &[u8],
) -> Result<(), DevError>
    ensures { WritesPiece name.now rank file.now at bytes.now result (D.state dev.old) (D.state dev.new) }
{
    let whole = FileName::of(name, rank, file);
    dev.write(whole.bytes(), at, bytes)
}

/// Fills `into` with a flushed file's bytes from a place on. It answers as the device's own read: `Failed`; `NoFile`; `Range`.
pub fn read_piece<D: Device>(
    dev: &mut D,
    name: &Name,
    rank: u8,
    file: &Name,
    at: u64,
    into: &mut [u8],
) -> Result<(), DevError>
    ensures { ReadsPiece name.now rank file.now at (length into.old) into.new result (D.state dev.old) (D.state dev.new) }
{
    let whole = FileName::of(name, rank, file);
    dev.read(whole.bytes(), at, into)
}
