//! The tree of an index record, written and read.
ghost use Rattle.std.specs.Prelude.{◌≡◌, ◌≤◌, ◌*◌, IfOk, IfSome, IsNone, OnErr, Err, Some, length, All};
ghost use Rattle.kvtree.specs.Entries.{Entries};
ghost use Rattle.filemap.specs.Rows.{IsRows};
ghost use Rattle.prefix_index.specs.Entries.{entry_tree, entry_body};
ghost use Rattle.prefix_index.specs.Trees.{HasKeys, Says};
ghost use Rattle.prefix_index.specs.declared.tree.Found.{Found};

use dataset_desc::{Desc, DescError};
use filemap::{Filemap, MapError};
use kvtree::Tree;
use node_device::DevError;
use scr_base::{Bytes, Memory};
use std::alloc::Global;

/// What the tree of an index record says.
#[derive(Drop)]
pub(crate) struct Found {
    pub desc: Desc,
    pub files: Filemap,
}

/// The tree of an index record.
pub(crate) fn entry_tree(alloc: Global, desc: &Desc, files: &Filemap) -> Result<Tree, Memory>
    ensures { IfOk result (λ tree. tree ≡ entry_tree desc.now files.now) }
{
    let mut tree = desc.to_tree(alloc)?;
    tree.put(b"FILES", files.to_tree()?)?;
    tree.put(b"FORMAT", Tree::leaf(alloc, b"1")?)?;
    Ok(tree)
}

/// Each rank's files are few and have short names, as the type of the map says of each rank.
fn know_rows(files: &Filemap, ranks: u8)
    requires { length files.now ≡ ranks }
    ensures { All IsRows files.now }
{
    for rank in 0..ranks {
        let _rows = files.rows(rank);
    }
}

/// The body of an index record. It is short enough for a record.
pub(crate) fn entry_body(alloc: Global, desc: &Desc, files: &Filemap) -> Result<Bytes, Memory>
    requires { length files.now ≡ desc.now.nodes * desc.now.ranks }
    ensures body { IfOk result (λ body. body ≡ entry_body desc.now files.now) }
    ensures short { IfOk result (λ body. length body ≤ 1048576) }
{
    know_rows(files, desc.nodes * desc.ranks);
    let _name = desc.name.bytes();
    let body = entry_tree(alloc, desc, files)?.encode()?;
    Ok(body)
}

/// What stands under FILES, of a tree that has just the keys of an index record, and its format.
fn files_under(tree: &Tree) -> Option<&Tree>
    ensures keys { IfSome result (λ files. HasKeys tree.now files.now) }
    ensures none { IsNone result → (files : Entries) → HasKeys tree.now files → ⊥ }
{
    let _dset = tree.child_under(0, b"DSET")?;
    let files = tree.child_under(1, b"FILES")?;
    let format = tree.child_under(2, b"FORMAT")?;
    let _scheme = tree.child_under(3, b"SCHEME")?;
    let _shape = tree.child_under(4, b"SHAPE")?;
    if tree.width() != 5 {
        return None;
    }
    let key = format.only_key()?;
    if key != b"1".as_slice() {
        return None;
    }
    Some(files)
}

/// What a tree says, if it is the tree of an index record.
pub(crate) fn found_in(alloc: Global, tree: &Tree) -> Result<Option<Found>, DevError>
    ensures memory { OnErr result (result ≡ Err DevError.Memory) }
    ensures says { IfOk result (λ o. IfSome o (Says tree.now)) }
    ensures only { (f : Found) → Says tree.now f → IfOk result (λ o. o ≡ Some f) }
{
    let Some(files) = files_under(tree) else {
        return Ok(None);
    };
    let desc = match Desc::from_tree(alloc, tree) {
        Ok(desc) => desc,
        Err(DescError::Foreign) => return Ok(None),
        Err(DescError::Memory) => return Err(DevError::Memory),
    };
    match Filemap::from_tree(alloc, files, desc.nodes * desc.ranks) {
        Ok(files) => Ok(Some(Found { desc, files })),
        Err(MapError::Foreign) => Ok(None),
        Err(MapError::Memory) => Err(DevError::Memory),
    }
}
