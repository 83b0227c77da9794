ghost use Rattle.std.specs.Prelude.{◌≡◌, ◌↔◌, ◌<◌, ◌≤◌, ℕ, false, bytes_eq, [], length, IfOk, OnErr, IsErrOf};
ghost use Rattle.std.specs.List.{position_or_len};
ghost use Rattle.filemap.specs.Rows.{IsRows, place_of, is_routed, routed, unrouted, extended};

use crate::error::RouteError;
use scr_base::{Copies, Memory, Name};
use std::alloc::Global;
use std::marker::Model;

/// A file of a rank.
#[derive(Debug, Drop)]
pub struct FileRow {
    pub name: Name,
    /// How many bytes it has, at most 1,048,576.
    pub len: u32,
}

impl Copies for FileRow {
    fn copy(&self, alloc: Global) -> Result<FileRow, Memory> {
        Ok(FileRow {
            name: self.name.copy(alloc)?,
            len: self.len,
        })
    }
}

/// The files of one rank, in the order of their first route.
#[derive(Debug, Drop)]
pub(crate) struct Rows {
    rows: Vec<FileRow>,
}

impl Model for Rows {
    ghost use Rattle.std.specs.Prelude.{List};
    ghost use Rattle.filemap.specs.declared.rows.FileRow.{FileRow};
    ghost use Rattle.filemap.specs.Rows.{IsRows};

    ghost Value = { List FileRow };

    ghost view = { λ r. r.rows.items };

    ghost invariant = { λ r. IsRows r.rows.items };
}

/// The number of the file of this name, or how many files there are.
pub(crate) fn place_of(rows: &[FileRow], name: &[u8]) -> usize
    ensures place { result ≡ place_of rows.now name.now }
    ensures within { result ≤ length rows.now }
{
    let mut place = 0;
    for row in rows {
        if row.name.bytes() == name {
            return place;
        }
        place += 1;
    }
    place
}

impl Rows {
    pub(crate) fn new(alloc: Global) -> Rows
        ensures { result ≡ [] }
    {
        Rows {
            rows: Vec::new(alloc),
        }
    }

    /// These files, if they are few enough and of distinct names.
    pub(crate) fn of(rows: Vec<FileRow>) -> Rows
        requires { IsRows rows.items }
        ensures { result ≡ rows.items }
    {
        Rows { rows }
    }

    pub(crate) fn list(&self) -> &[FileRow]
        ensures value { result.now ≡ self.now }
        ensures rows { IsRows result.now }
    {
        self.rows.as_slice()
    }

    /// The number of the file of this name, which stands last if it is new.
    pub(crate) fn route(&mut self, alloc: Global, name: &Name) -> Result<u8, RouteError>
        ensures number { IfOk result (λ number. number ≡ place_of self.old name.now) }
        ensures routed { IfOk result (λ number. self.new ≡ routed self.old name.now) }
        ensures limit { IsErrOf result RouteError.Limit ↔ ((is_routed self.old name.now ≡ false) × (length self.old ≡ 16)) }
        ensures err { OnErr result (self.new ≡ self.old) }
    {
        let place = place_of(&self.rows, name.bytes());
        if place < self.rows.len() {
            return Ok(place as u8);
        }
        if self.rows.len() >= 16 {
            return Err(RouteError::Limit);
        }
        let row = FileRow {
            name: name.copy(alloc)?,
            len: 0,
        };
        self.rows.push(row)?;
        Ok(place as u8)
    }

    /// Takes the last file back, if there is one.
    pub(crate) fn unroute(&mut self)
        ensures { self.new ≡ unrouted self.old }
    {
        let left = self.rows.len().saturating_sub(1);
        self.rows.truncate(left);
    }

    /// Makes a file at least so long.
    pub(crate) fn extend(&mut self, file: usize, len: u32)
        requires there { file < length self.old }
        requires short { len ≤ 1048576 }
        ensures { self.new ≡ extended self.old file len }
    {
        let row = &mut self.rows[file];
        row.len = row.len.max(len);
    }
}

impl Copies for Rows {
    fn copy(&self, alloc: Global) -> Result<Rows, Memory> {
        let mut rows = Vec::new(alloc);
        for row in self.list() {
            rows.push(row.copy(alloc)?)?;
        }
        Ok(Rows { rows })
    }
}
