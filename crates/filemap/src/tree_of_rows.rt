//! The tree of one rank's files: their numbers, and under each a name and its length.

ghost use Rattle.std.specs.Prelude.{◌≡◌, ◌≢◌, List, IfOk, IsErrOf};
ghost use Rattle.filemap.specs.Rows.{IsRow, IsRows};
ghost use Rattle.filemap.specs.Maps.{file_tree, rows_tree};
ghost use Rattle.filemap.specs.declared.rows.FileRow.{FileRow};

use crate::error::MapError;
use crate::numbered::{child_of, two_digits};
use crate::rows::{FileRow, Rows, place_of};
use kvtree::Tree;
use scr_base::{Memory, Name, NameError};
use std::alloc::Global;

/// How many bytes a file has at most.
const MAX_LEN: u32 = 1048576;

fn file_to_tree(alloc: Global, row: &FileRow) -> Result<Tree, Memory>
    ensures { IfOk result (λ tree. tree ≡ file_tree row.now) }
{
    let mut tree = Tree::empty(alloc);
    tree.put(row.name.bytes(), Tree::number(alloc, row.len)?)?;
    Ok(tree)
}

/// The tree of a rank's files.
pub(crate) fn rows_to_tree(alloc: Global, rows: &Rows) -> Result<Tree, Memory>
    ensures { IfOk result (λ tree. tree ≡ rows_tree rows.now) }
{
    let list = rows.list();
    let mut tree = Tree::empty(alloc);
    let mut number = 0;
    for row in list {
        let file = file_to_tree(alloc, row)?;
        tree.put(&two_digits(number), file)?;
        number += 1;
    }
    Ok(tree)
}

fn file_from_tree(alloc: Global, tree: &Tree) -> Result<FileRow, MapError>
    ensures row { IfOk result (λ row. IsRow row) }
    ensures found { IfOk result (λ row. tree.now ≡ file_tree row) }
    ensures foreign { IsErrOf result MapError.Foreign → (row : FileRow) → IsRow row → tree.now ≢ file_tree row }
{
    let Some((name, below)) = tree.child(0) else {
        return Err(MapError::Foreign);
    };
    let Some(len) = below.only_number() else {
        return Err(MapError::Foreign);
    };
    if tree.width() != 1 || len > MAX_LEN {
        return Err(MapError::Foreign);
    }
    match Name::read(alloc, name) {
        Ok(name) => Ok(FileRow { name, len }),
        Err(NameError::BadName) => Err(MapError::Foreign),
        Err(NameError::Memory) => Err(MapError::Memory),
    }
}

/// The files that a tree is the tree of.
pub(crate) fn rows_from_tree(alloc: Global, tree: &Tree) -> Result<Rows, MapError>
    ensures rows { IfOk result (λ rows. IsRows rows) }
    ensures found { IfOk result (λ rows. tree.now ≡ rows_tree rows) }
    ensures foreign { IsErrOf result MapError.Foreign → (rows : List FileRow) → IsRows rows → tree.now ≢ rows_tree rows }
{
    if tree.width() > 16 {
        return Err(MapError::Foreign);
    }
    let mut rows = Vec::new(alloc);
    for number in 0..tree.width() {
        let Some(child) = child_of(tree, number) else {
            return Err(MapError::Foreign);
        };
        let row = file_from_tree(alloc, child)?;
        if place_of(&rows, row.name.bytes()) < rows.len() {
            return Err(MapError::Foreign);
        }
        rows.push(row)?;
    }
    Ok(Rows::of(rows))
}
