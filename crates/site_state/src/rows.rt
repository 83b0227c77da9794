// The files of a rank in a dataset.
ghost use Rattle.std.specs.Prelude.{◌≡◌, ◌≤◌, length};
ghost use Rattle.filemap.specs.Rows.{IsRows, place_of};
ghost use Rattle.filemap.specs.Maps.{rows_of};

use crate::cache::Manifest;
use filemap::FileRow;

/// A rank's files of a dataset; none where it has no such rank.
pub(crate) fn rows_of(m: &Manifest, rank: u8) -> &[FileRow]
    ensures value { result.now ≡ rows_of m.now.files rank }
    ensures rows { IsRows result.now }
{
    if rank < m.files.ranks() {
        m.files.rows(rank)
    } else {
        &[]
    }
}

/// The number of the file of this name, or how many files there are.
pub(crate) fn place_in(rows: &[FileRow], name: &[u8]) -> usize
    ensures place { result ≡ place_of rows.now name.now }
    ensures within { result ≤ length rows.now }
{
    let mut place = 0;
    for row in rows {
        if row.name.bytes() == name {
            return place;
        }
        place += 1;
    }
    place
}
