ghost use Rattle.std.specs.Prelude.{◌≡◌, ◌≢◌, ℕ, List, [], slice_get, decimal, ◌^◌, MatchOption, Some, None, ◌<◌, ◌≤◌, ◌++◌, length, OnOk, OnErr, IfOk, Ok, Err};
ghost use Rattle.std.specs.Option.{option_copied};
ghost use Rattle.kvtree.specs.Entries.{Entries, none, width, depth, IsKey, IsTree, AreAbove};
ghost use Rattle.kvtree.specs.Lookup.{get, put, Puts, entry_at, entry_under, leaf};
ghost use Rattle.kvtree.specs.declared.error.TreeError.TheVariants.{Short};
ghost use Rattle.kvtree.specs.Places.{place_in, holds_at, below_at};
ghost use Rattle.kvtree.specs.Children.{entries_of};
ghost use Rattle.kvtree.specs.Encoding.{encoding, IsEncoding};
ghost use Rattle.kvtree.specs.Reading.{Gives, tree_at, all_of};

use crate::error::TreeError;
use crate::number::number_of;
use crate::reading::{key_of, u32_at};
use crate::writing::{put_u16, put_u32};
use itoa::Buffer;
use scr_base::{Bytes, Copies, Memory};
use std::alloc::Global;
use std::cmp::Ordering;
use std::marker::Model;

/// A map from keys of 1 to 255 bytes to trees.
#[cycle(tree)]
#[derive(Debug, Drop)]
pub struct Tree {
    alloc: Global,
    children: Vec<Child>,
}

#[cycle(tree)]
#[derive(Debug, Drop)]
struct Child {
    key: Bytes,
    tree: Tree,
}

impl Model for Tree {
    ghost use Rattle.kvtree.specs.Entries.{Entries, entries_code, depth, IsTree};

    ghost Value = { Entries };

    ghost coded = { entries_code };

    ghost use Rattle.kvtree.specs.Children.{entries_of};

    ghost view = { λ t. entries_of t.children.items };

    ghost invariant = { λ t. IsTree (entries_of t.children.items) };

    ghost size = { depth };

    ghost use Rattle.kvtree.specs.TreeFalls.{most_le-depth};

    ghost size_decreases = { λ t h. most_le-depth t.children.items };
}

impl Tree {
    /// The tree without children. What it grows by comes from `alloc`.
    pub fn empty(alloc: Global) -> Tree
        ensures { result ≡ none }
    {
        Tree {
            alloc,
            children: Vec::new(alloc),
        }
    }

    /// A tree of one key, of 1 to 255 bytes, and nothing under it.
    pub fn leaf(alloc: Global, key: &[u8]) -> Result<Tree, Memory>
        requires { IsKey key.now }
        ensures { IfOk result (λ tree. tree ≡ leaf key.now) }
    {
        let mut tree = Tree::empty(alloc);
        tree.put(key, Tree::empty(alloc))?;
        Ok(tree)
    }

    /// A tree of one number, in decimal form, and nothing under it.
    pub fn number(alloc: Global, number: u32) -> Result<Tree, Memory>
        ensures { IfOk result (λ tree. tree ≡ leaf (decimal number)) }
    {
        let mut buffer = Buffer::new();
        Tree::leaf(alloc, buffer.format(number).as_bytes())
    }

    /// How many children the tree has.
    #[tactic(auto, using(crate::proofs::Children::child_laws))]
    pub fn width(&self) -> usize
        ensures { result ≡ width self.now }
    {
        self.children.len()
    }

    /// The tree under a key, if there is one.
    #[tactic(auto, using(crate::proofs::Halving::halving_laws))]
    pub fn get(&self, key: &[u8]) -> Option<&Tree>
        ensures { option_copied result ≡ get self.now key.now }
    {
        self.child_under(place_of(&self.children, key), key)
    }

    /// The child at a place, counted from 0 by ascending keys, with its key.
    #[tactic(auto, using(crate::proofs::Children::child_laws))]
    pub fn child(&self, at: usize) -> Option<(&[u8], &Tree)>
        ensures { MatchOption result (entry_at self.now at ≡ None) (λ c. entry_at self.now at ≡ Some (c.0.now, c.1.now)) }
    {
        match child_in(&self.children, at) {
            None => None,
            Some(child) => Some((child.key.list(), &child.tree)),
        }
    }

    /// The child at a place, counted from 0 by ascending keys, if this is its key.
    #[tactic(auto, using(crate::proofs::Children::child_laws))]
    pub fn child_under(&self, at: usize, key: &[u8]) -> Option<&Tree>
        ensures { option_copied result ≡ entry_under self.now at key.now }
    {
        match child_in(&self.children, at) {
            None => None,
            Some(child) => {
                if child.key.list().cmp(key) == Ordering::Equal {
                    Some(&child.tree)
                } else {
                    None
                }
            }
        }
    }

    /// The key of a tree that is one key and nothing under it; `None` for any other tree.
    #[tactic(auto, using(crate::proofs::Only::only_laws))]
    pub fn only_key(&self) -> Option<&[u8]>
        ensures { MatchOption result ((key : List ℕ) → self.now ≢ leaf key) (λ key. self.now ≡ leaf key.now) }
    {
        match self.child(0) {
            None => None,
            Some((key, below)) => match self.child(1) {
                Some(_) => None,
                None => match below.child(0) {
                    Some(_) => None,
                    None => Some(key),
                },
            },
        }
    }

    /// The number whose decimal form is the tree's one key, with nothing under it; `None` for any
    /// other tree.
    pub fn only_number(&self) -> Option<u32>
        ensures { MatchOption result ((n : ℕ) → n < 2 ^ 32 → self.now ≢ leaf (decimal n)) (λ n. self.now ≡ leaf (decimal n)) }
    {
        match self.only_key() {
            None => None,
            Some(key) => number_of(key),
        }
    }

    /// Puts a child under a key of 1 to 255 bytes, in place of the one there. After want of memory,
    /// which a tree with 4,294,967,295 children gives too, the tree is as before.
    #[tactic(auto, using(crate::proofs::Puts::put_laws))]
    pub fn put(&mut self, key: &[u8], child: Tree) -> Result<(), Memory>
        requires { IsKey key.now }
        ensures ok { OnOk result (self.new ≡ put self.old key.now child) }
        ensures map { OnOk result (Puts self.old self.new key.now child) }
        ensures err { OnErr result (self.new ≡ self.old) }
    {
        let at = place_of(&self.children, key);
        // What is put in is a tree: its own keys ascend.
        let _ = &child.children;
        if holds(&self.children, at, key) {
            self.children[at].tree = child;
            return Ok(());
        }
        if self.children.len() >= MAX_CHILDREN {
            return Err(Memory);
        }
        let key = bytes_of(self.alloc, key)?;
        self.children.insert(at, Child { key, tree: child })?;
        Ok(())
    }

    /// A copy, which equals the original.
    #[tactic(auto, using(crate::proofs::Children::child_laws))]
    pub fn copy(&self) -> Result<Tree, Memory>
        ensures { IfOk result (λ t. t ≡ self.now) }
    {
        let mut children = Vec::new(self.alloc);
        for child in &self.children {
            let key = child.key.copy(self.alloc)?;
            let tree = child.tree.copy()?;
            children.push(Child { key, tree })?;
        }
        Ok(Tree {
            alloc: self.alloc,
            children,
        })
    }

    /// Appends the tree's encoding.
    #[tactic(auto, using(crate::proofs::Children::child_laws))]
    fn write(&self, out: &mut Vec<u8>) -> Result<(), Memory>
        ensures { OnOk result (out.new.items ≡ out.old.items ++ encoding self.now) }
    {
        put_u32(out, self.children.len() as u32)?;
        for child in &self.children {
            let key = child.key.list();
            put_u16(out, key.len() as u16)?;
            out.extend_from_slice(key)?;
            child.tree.write(out)?;
        }
        Ok(())
    }

    /// The tree that the bytes are the encoding of. Where they are that of no tree, the first fault from
    /// the front, with its place; `Memory` where there is none for the tree.
    pub fn decode(alloc: Global, bytes: &[u8]) -> Result<Tree, TreeError>
        // What is read is encoded so.
        ensures found { IfOk result (λ t. IsEncoding t bytes.now) }
        // What is an encoding is read, unless memory is wanting.
        ensures only { (t : Entries) → IsEncoding t bytes.now → Gives (λ t. t) result (Ok t) }
        // Which fault it is, and where.
        ensures exact { Gives (λ t. t) result (all_of bytes.now) }
        // Where an encoding is cut, the input ends inside a field.
        ensures cut { (t : Entries) (more : List ℕ) → more ≢ [] → IsEncoding t (bytes.now ++ more) → Gives (λ t. t) result (Err (Short (length bytes.now))) }
    {
        whole(alloc, bytes)
    }

    /// The one encoding of the tree, which is at most 16 deep.
    pub fn encode(&self) -> Result<Bytes, Memory>
        requires { depth self.now ≤ 16 }
        ensures { IfOk result (λ bytes. IsEncoding self.now bytes) }
    {
        let _ = &self.children;
        let mut out = Vec::new(self.alloc);
        self.write(&mut out)?;
        Ok(Bytes::of(out))
    }
}

/// Bytes of one's own.
fn bytes_of(alloc: Global, bytes: &[u8]) -> Result<Bytes, Memory>
    ensures { IfOk result (λ owned. owned ≡ bytes.now) }
{
    Ok(Bytes::of(Vec::from_slice(alloc, bytes)?))
}

/// The greatest number of children that has an encoding.
const MAX_CHILDREN: usize = 0xffff_ffff;

/// Where the first key stands that isn't below `key`. Where all keys are below it, that is found at once; else by
/// halving.
#[tactic(auto, using(crate::proofs::Halving::halving_laws))]
fn place_of(children: &[Child], key: &[u8]) -> usize
    requires { AreAbove [] (entries_of children.now) }
    ensures { result ≡ place_in children.now key.now }
{
    let len = children.len();
    if len == 0 || is_below(children, len - 1, key) {
        return len;
    }
    let mut low = 0;
    let mut high = len - 1;
    while low < high {
        let middle = low + (high - low) / 2;
        if is_below(children, middle, key) {
            low = middle + 1;
        } else {
            high = middle;
        }
    }
    low
}

/// Does a key stand at this place that is below this one?
fn is_below(children: &[Child], at: usize, key: &[u8]) -> bool
    ensures { result ≡ below_at children.now at key.now }
{
    match children.get(at) {
        None => false,
        Some(child) => child.key.list().cmp(key) == Ordering::Less,
    }
}

/// `children.get(at)`, with its answer as one equation.
fn child_in(children: &[Child], at: usize) -> Option<&Child>
    ensures { option_copied result ≡ slice_get children.now at }
{
    children.get(at)
}

/// Does this key stand at this place?
fn holds(children: &[Child], at: usize, key: &[u8]) -> bool
    ensures { result ≡ holds_at children.now at key.now }
{
    match children.get(at) {
        None => false,
        Some(child) => child.key.list().cmp(key) == Ordering::Equal,
    }
}

/// The tree at the front, where `levels` levels may be used.
fn tree_of(alloc: Global, total: u64, levels: u8, bytes: &[u8]) -> Result<(Tree, &[u8]), TreeError>
    requires { length bytes.now ≤ total }
    ensures exact { Gives (λ x. (x.0, x.1.now)) result (tree_at total levels bytes.now) }
    ensures shorter { IfOk result (λ x. length x.1.now ≤ length bytes.now) }
{
    if levels == 0 {
        return Err(TreeError::Depth {
            place: total - bytes.len() as u64,
        });
    }
    let (count, first) = u32_at(total, bytes)?;
    let mut children = Vec::new(alloc);
    let mut last: &[u8] = &[];
    let mut rest = first;
    'children: for _ in 0..count {
        let (key, after) = key_of(total, last, rest)?;
        let (tree, after) = tree_of(alloc, total, levels - 1, after)?;
        let owned = bytes_of(alloc, key)?;
        children.push(Child { key: owned, tree })?;
        last = key;
        rest = after;
    }
    Ok((Tree { alloc, children }, rest))
}

/// All of the bytes, as one tree.
#[tactic(auto, unfolding(crate::specs::Reading::all_of))]
fn whole(alloc: Global, bytes: &[u8]) -> Result<Tree, TreeError>
    ensures { Gives (λ t. t) result (all_of bytes.now) }
{
    let total = bytes.len() as u64;
    let (tree, rest) = tree_of(alloc, total, 16, bytes)?;
    if !rest.is_empty() {
        return Err(TreeError::Trailing {
            place: total - rest.len() as u64,
        });
    }
    Ok(tree)
}
