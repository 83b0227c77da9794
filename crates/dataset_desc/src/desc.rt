ghost use Rattle.std.specs.Prelude.{IsTrue};
ghost use Rattle.dataset_desc.specs.Ranges.{is_desc};

use crate::parts::{dset_of, flags_key, scheme_key, scheme_of, shape_of, shares_of};
use kvtree::Tree;
use scr_base::{Copies, DataId, Flags, Memory, Name, NameError, Scheme};
use std::alloc::Global;
use thiserror::Error;

/// What a dataset is: its identity, its name, what it is for, the shape of the site that wrote it,
/// and how it is kept against the loss of nodes.
#[derive(Debug, Drop)]
pub struct Desc {
    pub which: DataId,
    pub name: Name,
    pub flags: Flags,
    /// How many nodes the site has, from 1 to 16.
    pub nodes: u8,
    /// How many ranks each node has, from 1 to 8, and at most 64 on all of them.
    pub ranks: u8,
    pub scheme: Scheme,
    /// How many members a set is to have, from 2 to 16.
    pub size: u8,
    pub ghost ranges: { IsTrue (is_desc which nodes ranks scheme size) },
}

/// Why a tree has no description.
#[derive(Clone, Copy, Debug, PartialEq, Eq, Error)]
pub enum DescError {
    /// The parts DSET, SCHEME and SHAPE are those of no description.
    #[error("the tree describes no dataset")]
    Foreign,
    /// There is no memory for the name.
    #[error("want of memory")]
    Memory,
}

impl Desc {
    ghost use Rattle.std.specs.Prelude.{◌≡◌, ◌↔◌, IfOk, IsErrOf};
    ghost use Rattle.dataset_desc.specs.Parts.{dset_tree, scheme_tree, shape_tree};
    ghost use Rattle.dataset_desc.specs.Descs.{desc_tree, HasParts};

    /// The tree of the description, with the keys DSET, SCHEME and SHAPE.
    pub fn to_tree(&self, alloc: Global) -> Result<Tree, Memory>
        ensures { IfOk result (λ tree. tree ≡ desc_tree self.now) }
    {
        let mut tree = Tree::empty(alloc);
        tree.put(b"DSET", self.dset(alloc)?)?;
        tree.put(b"SCHEME", self.scheme(alloc)?)?;
        tree.put(b"SHAPE", self.shape(alloc)?)?;
        Ok(tree)
    }

    /// The description that a tree's parts are those of; keys beside the parts are not looked at.
    pub fn from_tree(alloc: Global, tree: &Tree) -> Result<Desc, DescError>
        ensures found { IfOk result (λ desc. HasParts tree.now desc) }
        ensures only { (desc : Desc) → HasParts tree.now desc → IfOk result (λ found. found ≡ desc) }
        ensures foreign { IsErrOf result DescError.Foreign ↔ ((desc : Desc) → ¬ (HasParts tree.now desc)) }
    {
        let Some(dset) = dset_of(tree) else {
            return Err(DescError::Foreign);
        };
        let Some((scheme, size)) = scheme_of(tree) else {
            return Err(DescError::Foreign);
        };
        let Some((nodes, ranks)) = shape_of(tree) else {
            return Err(DescError::Foreign);
        };
        match Name::read(alloc, dset.name) {
            Ok(name) => Ok(Desc {
                which: DataId {
                    id: dset.id,
                    run: dset.run,
                },
                name,
                flags: dset.flags,
                nodes,
                ranks,
                scheme,
                size,
            }),
            Err(NameError::BadName) => Err(DescError::Foreign),
            Err(NameError::Memory) => Err(DescError::Memory),
        }
    }

    fn dset(&self, alloc: Global) -> Result<Tree, Memory>
        ensures { IfOk result (λ tree. tree ≡ dset_tree self.now.flags self.now.which.id self.now.name self.now.which.run) }
    {
        let mut tree = Tree::empty(alloc);
        tree.put(b"FLAGS", Tree::leaf(alloc, flags_key(self.flags))?)?;
        tree.put(b"ID", Tree::number(alloc, self.which.id)?)?;
        tree.put(b"NAME", Tree::leaf(alloc, self.name.bytes())?)?;
        tree.put(b"RUN", Tree::number(alloc, self.which.run)?)?;
        Ok(tree)
    }

    fn scheme(&self, alloc: Global) -> Result<Tree, Memory>
        ensures { IfOk result (λ tree. tree ≡ scheme_tree self.now.scheme self.now.size) }
    {
        let mut tree = Tree::empty(alloc);
        tree.put(
            b"SHARES",
            Tree::number(alloc, shares_of(self.scheme) as u32)?,
        )?;
        tree.put(b"SIZE", Tree::number(alloc, self.size as u32)?)?;
        tree.put(b"TYPE", Tree::leaf(alloc, scheme_key(self.scheme))?)?;
        Ok(tree)
    }

    fn shape(&self, alloc: Global) -> Result<Tree, Memory>
        ensures { IfOk result (λ tree. tree ≡ shape_tree self.now.nodes self.now.ranks) }
    {
        let mut tree = Tree::empty(alloc);
        tree.put(b"NODES", Tree::number(alloc, self.nodes as u32)?)?;
        tree.put(b"RANKS", Tree::number(alloc, self.ranks as u32)?)?;
        Ok(tree)
    }
}

impl Copies for Desc {
    fn copy(&self, alloc: Global) -> Result<Desc, Memory> {
        Ok(Desc {
            which: self.which,
            name: self.name.copy(alloc)?,
            flags: self.flags,
            nodes: self.nodes,
            ranks: self.ranks,
            scheme: self.scheme,
            size: self.size,
        })
    }
}
