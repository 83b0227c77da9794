ghost use Rattle.std.specs.Prelude.{◌≡◌, ◌≢◌, ◌↔◌, ◌<◌, ◌≤◌, List, [], false, length, replicate, slice_set, IfOk, OnErr, IsErrOf};
ghost use Rattle.filemap.specs.Rows.{IsRows, place_of, is_routed, routed, unrouted, extended};
ghost use Rattle.filemap.specs.Maps.{IsMap, rows_of, map_tree};
ghost use Rattle.filemap.specs.declared.rows.FileRow.{FileRow};

use crate::error::{MapError, RouteError};
use crate::numbered::{child_of, two_digits};
use crate::rows::{FileRow, Rows};
use crate::tree_of_rows::{rows_from_tree, rows_to_tree};
use kvtree::Tree;
use scr_base::{Copies, Memory, Name};
use std::alloc::Global;
use std::marker::Model;

/// The files of 1 to 64 ranks, each rank's in the order of their first route.
#[derive(Debug, Drop)]
pub struct Filemap {
    alloc: Global,
    ranks: Vec<Rows>,
}

impl Model for Filemap {
    ghost use Rattle.std.specs.Prelude.{List, ◌≤◌, length};
    ghost use Rattle.filemap.specs.declared.rows.FileRow.{FileRow};

    ghost Value = { List (List FileRow) };

    ghost view = { λ m. m.ranks.items };

    ghost invariant = { λ m. length m.ranks.items ≤ 64 };
}

impl Filemap {
    /// The map of so many ranks, from 1 to 64, without files.
    #[tactic(auto, using(crate::proofs::Extended::new_laws))]
    pub fn new(alloc: Global, ranks: u8) -> Result<Filemap, Memory>
        requires { (1 ≤ ranks) × (ranks ≤ 64) }
        ensures { IfOk result (λ map. map ≡ replicate ranks []) }
    {
        let mut list = Vec::new(alloc);
        for _ in 0..ranks {
            list.push(Rows::new(alloc))?;
        }
        Ok(Filemap { alloc, ranks: list })
    }

    /// The number of a rank's file of this name, which stands last if it is new.
    pub fn route(&mut self, rank: u8, name: &Name) -> Result<u8, RouteError>
        requires { rank < length self.old }
        ensures number { IfOk result (λ number. number ≡ place_of (rows_of self.old rank) name.now) }
        ensures routed { IfOk result (λ number. self.new ≡ slice_set self.old rank (routed (rows_of self.old rank) name.now)) }
        ensures limit { IsErrOf result RouteError.Limit ↔ ((is_routed (rows_of self.old rank) name.now ≡ false) × (length (rows_of self.old rank) ≡ 16)) }
        ensures err { OnErr result (self.new ≡ self.old) }
    {
        let alloc = self.alloc;
        self.ranks[rank as usize].route(alloc, name)
    }

    /// Takes the last file of a rank back, if it has one.
    pub fn unroute(&mut self, rank: u8)
        requires { rank < length self.old }
        ensures { self.new ≡ slice_set self.old rank (unrouted (rows_of self.old rank)) }
    {
        self.ranks[rank as usize].unroute();
    }

    /// Makes a file of a rank at least so long: at most 1,048,576 bytes.
    pub fn extend(&mut self, rank: u8, file: u8, len: u32)
        requires rank { rank < length self.old }
        requires file { file < length (rows_of self.old rank) }
        requires short { len ≤ 1048576 }
        ensures { self.new ≡ slice_set self.old rank (extended (rows_of self.old rank) file len) }
    {
        self.ranks[rank as usize].extend(file as usize, len);
    }

    /// How many ranks there are.
    pub fn ranks(&self) -> u8
        ensures ranks { result ≡ length self.now }
        ensures few { result ≤ 64 }
    {
        self.ranks.len() as u8
    }

    /// A rank's files, in the order of their first route.
    pub fn rows(&self, rank: u8) -> &[FileRow]
        requires { rank < length self.now }
        ensures value { result.now ≡ rows_of self.now rank }
        ensures rows { IsRows result.now }
    {
        self.ranks[rank as usize].list()
    }

    /// The tree of the map: what stands under FILES in a record.
    pub fn to_tree(&self) -> Result<Tree, Memory>
        ensures { IfOk result (λ tree. tree ≡ map_tree self.now) }
    {
        let mut tree = Tree::empty(self.alloc);
        let mut rank = 0;
        for rows in &self.ranks {
            let files = rows_to_tree(self.alloc, rows)?;
            tree.put(&two_digits(rank), files)?;
            rank += 1;
        }
        Ok(tree)
    }

    /// The map of so many ranks, from 1 to 64, that a tree is the tree of.
    pub fn from_tree(alloc: Global, tree: &Tree, ranks: u8) -> Result<Filemap, MapError>
        requires { (1 ≤ ranks) × (ranks ≤ 64) }
        ensures map { IfOk result (λ map. IsMap ranks map) }
        ensures found { IfOk result (λ map. tree.now ≡ map_tree map) }
        ensures only { (map : List (List FileRow)) → IsMap ranks map → tree.now ≡ map_tree map → IfOk result (λ found. found ≡ map) }
        ensures foreign { IsErrOf result MapError.Foreign → (map : List (List FileRow)) → IsMap ranks map → tree.now ≢ map_tree map }
    {
        if tree.width() != ranks as usize {
            return Err(MapError::Foreign);
        }
        let mut list = Vec::new(alloc);
        for rank in 0..ranks as usize {
            let Some(child) = child_of(tree, rank) else {
                return Err(MapError::Foreign);
            };
            list.push(rows_from_tree(alloc, child)?)?;
        }
        Ok(Filemap { alloc, ranks: list })
    }

    /// A copy, which equals the original.
    pub fn copy(&self) -> Result<Filemap, Memory>
        ensures { IfOk result (λ copy. copy ≡ self.now) }
    {
        let mut ranks = Vec::new(self.alloc);
        for rows in &self.ranks {
            ranks.push(rows.copy(self.alloc)?)?;
        }
        Ok(Filemap {
            alloc: self.alloc,
            ranks,
        })
    }
}
