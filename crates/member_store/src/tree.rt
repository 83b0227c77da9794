//! The tree of a member's record, written and read.
ghost use Rattle.std.specs.Prelude.{◌≡◌, ◌≢◌, ◌≤◌, ◌<◌, ◌*◌, ◌^◌, ℕ, IsTrue, ◌↔◌, IfOk, IfSome, IsNone, OnErr, Err, Some, length, All};
ghost use Rattle.kvtree.specs.Entries.{Entries, depth};
ghost use Rattle.filemap.specs.Rows.{IsRows};
ghost use Rattle.member_store.specs.Members.{member_tree, member_body};
ghost use Rattle.member_store.specs.Trees.{record_tree, HasKeys, Says};
ghost use Rattle.member_store.specs.declared.tree.Found.{Found};

use dataset_desc::{Desc, DescError};
use filemap::{Filemap, MapError};
use kvtree::Tree;
use node_device::DevError;
use scr_base::{Bytes, Memory, Shape};
use std::alloc::Global;

/// What a member's tree says.
#[derive(Drop)]
pub(crate) struct Found {
    pub desc: Desc,
    pub node: u8,
    pub files: Filemap,
}

/// The tree of a member's record.
pub(crate) fn member_tree(
    alloc: Global,
    node: u8,
    desc: &Desc,
    files: &Filemap,
) -> Result<Tree, Memory>
    ensures { IfOk result (λ tree. tree ≡ member_tree desc.now node files.now) }
{
    let mut tree = desc.to_tree(alloc)?;
    tree.put(b"FILES", files.to_tree()?)?;
    tree.put(b"FORMAT", Tree::leaf(alloc, b"1")?)?;
    tree.put(b"NODE", Tree::number(alloc, node as u32)?)?;
    Ok(tree)
}

/// The ranks are few, and each rank's files are few and have short names, as the type of the map says.
fn know_rows(files: &Filemap)
    ensures few { length files.now ≤ 64 }
    ensures rows { All IsRows files.now }
{
    for rank in 0..files.ranks() {
        let _rows = files.rows(rank);
    }
}

/// The body of a member's record. It is short enough for a record.
pub(crate) fn member_body(
    alloc: Global,
    node: u8,
    desc: &Desc,
    files: &Filemap,
) -> Result<Bytes, Memory>
    ensures body { IfOk result (λ body. body ≡ member_body desc.now node files.now) }
    ensures short { IfOk result (λ body. length body ≤ 1048576) }
{
    know_rows(files);
    let _name = desc.name.bytes();
    let body = member_tree(alloc, node, desc, files)?.encode()?;
    Ok(body)
}

/// Under FILES and NODE, of a tree that has just the keys of a member's record, and its format.
fn files_and_node(tree: &Tree) -> Option<(&Tree, u32)>
    ensures keys { IfSome result (λ r. HasKeys tree.now r.0.now r.1) }
    ensures small { IfSome result (λ r. r.1 < 2 ^ 32) }
    ensures none { IsNone result → (files : Entries) (node : ℕ) → node < 2 ^ 32 → HasKeys tree.now files node → ⊥ }
{
    let _dset = tree.child_under(0, b"DSET")?;
    let files = tree.child_under(1, b"FILES")?;
    let format = tree.child_under(2, b"FORMAT")?;
    let node = tree.child_under(3, b"NODE")?;
    let _scheme = tree.child_under(4, b"SCHEME")?;
    let _shape = tree.child_under(5, b"SHAPE")?;
    if tree.width() != 6 {
        return None;
    }
    let key = format.only_key()?;
    if key != b"1".as_slice() {
        return None;
    }
    Some((files, node.only_number()?))
}

/// Is the dataset one of a site of this shape, and the node one of it?
fn is_of_site(desc: &Desc, shape: Shape, node: u32) -> bool
    ensures { IsTrue result ↔ ((desc.now.nodes ≡ shape.nodes) × (desc.now.ranks ≡ shape.ranks) × (node < desc.now.nodes)) }
{
    desc.nodes == shape.nodes && desc.ranks == shape.ranks && node < desc.nodes as u32
}

/// What a tree says, if it is the tree of a member's record on a site of this shape.
pub(crate) fn found_in(alloc: Global, tree: &Tree, shape: Shape) -> Result<Option<Found>, DevError>
    ensures memory { OnErr result (result ≡ Err DevError.Memory) }
    ensures says { IfOk result (λ o. IfSome o (Says shape tree.now)) }
    ensures only { (f : Found) → Says shape tree.now f → IfOk result (λ o. o ≡ Some f) }
{
    let Some((files, node)) = files_and_node(tree) else {
        return Ok(None);
    };
    let desc = match Desc::from_tree(alloc, tree) {
        Ok(desc) => desc,
        Err(DescError::Foreign) => return Ok(None),
        Err(DescError::Memory) => return Err(DevError::Memory),
    };
    if !is_of_site(&desc, shape, node) {
        return Ok(None);
    }
    match Filemap::from_tree(alloc, files, desc.nodes * desc.ranks) {
        Ok(files) => Ok(Some(Found {
            desc,
            node: node as u8,
            files,
        })),
        Err(MapError::Foreign) => Ok(None),
        Err(MapError::Memory) => Err(DevError::Memory),
    }
}
