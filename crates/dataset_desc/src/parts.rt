//! The parts of a record's tree, read one by one.

ghost use Rattle.std.specs.Prelude.{◌≡◌, ◌≢◌, ℕ, List, Some, codes, MatchOption, IsTrue};
ghost use Rattle.scr_base.specs.declared.shape.Flags.{Flags};
ghost use Rattle.scr_base.specs.declared.shape.Scheme.{Scheme};
ghost use Rattle.scr_base.specs.Limits.{is_site, is_scheme};
ghost use Rattle.kvtree.specs.Entries.{IsKey};
ghost use Rattle.kvtree.specs.Lookup.{get};
ghost use Rattle.dataset_desc.specs.Ranges.{is_number, is_size};
ghost use Rattle.dataset_desc.specs.Parts.{flags_key, scheme_key, shares_of, dset_tree, scheme_tree, shape_tree};

use crate::fields::{number_at, value_at};
use kvtree::Tree;
use scr_base::{Flags, Scheme};

/// The part that names the dataset.
#[derive(Clone, Copy)]
pub(crate) struct Dset<'a> {
    pub flags: Flags,
    pub id: u32,
    pub name: &'a [u8],
    pub run: u32,
}

/// What the value of FLAGS is.
pub(crate) fn flags_key(flags: Flags) -> &'static [u8]
    ensures key { result.now ≡ flags_key flags }
    ensures fits { IsKey result.now }
{
    match flags {
        Flags::Ckpt => b"ckpt",
        Flags::Output => b"output",
        Flags::Both => b"both",
    }
}

/// What the value of TYPE is.
pub(crate) fn scheme_key(scheme: Scheme) -> &'static [u8]
    ensures key { result.now ≡ scheme_key scheme }
    ensures fits { IsKey result.now }
{
    match scheme {
        Scheme::Single => b"single",
        Scheme::Partner => b"partner",
        Scheme::Xor => b"xor",
        Scheme::Rs { .. } => b"rs",
    }
}

/// What the value of SHARES is.
pub(crate) fn shares_of(scheme: Scheme) -> u8
    ensures { result ≡ shares_of scheme }
{
    match scheme {
        Scheme::Single | Scheme::Partner | Scheme::Xor => 0,
        Scheme::Rs { shares } => shares,
    }
}

fn flags_of(key: &[u8]) -> Option<Flags>
    ensures { MatchOption result ((flags : Flags) → key.now ≢ flags_key flags) (λ flags. key.now ≡ flags_key flags) }
{
    if key == b"ckpt".as_slice() {
        Some(Flags::Ckpt)
    } else if key == b"output".as_slice() {
        Some(Flags::Output)
    } else if key == b"both".as_slice() {
        Some(Flags::Both)
    } else {
        None
    }
}

/// The scheme of this name and so many shares, within its range.
fn scheme_with(key: &[u8], shares: u32) -> Option<Scheme>
    ensures { MatchOption result ((scheme : Scheme) → IsTrue (is_scheme scheme) → key.now ≡ scheme_key scheme → shares ≢ shares_of scheme) (λ scheme. IsTrue (is_scheme scheme) × (key.now ≡ scheme_key scheme) × (shares ≡ shares_of scheme)) }
{
    if key == b"rs".as_slice() {
        if shares >= 1 && shares <= 15 {
            Some(Scheme::Rs {
                shares: shares as u8,
            })
        } else {
            None
        }
    } else if shares != 0 {
        None
    } else if key == b"single".as_slice() {
        Some(Scheme::Single)
    } else if key == b"partner".as_slice() {
        Some(Scheme::Partner)
    } else if key == b"xor".as_slice() {
        Some(Scheme::Xor)
    } else {
        None
    }
}

/// What the part DSET says.
pub(crate) fn dset_of(tree: &Tree) -> Option<Dset<'_>>
    ensures { MatchOption result ((flags : Flags) (id : ℕ) (name : List ℕ) (run : ℕ) → IsTrue (is_number id) → IsTrue (is_number run) → get tree.now (codes "DSET") ≢ Some (dset_tree flags id name run)) (λ dset. IsTrue (is_number dset.id) × IsTrue (is_number dset.run) × (get tree.now (codes "DSET") ≡ Some (dset_tree dset.flags dset.id dset.name.now dset.run))) }
{
    let Some(part) = tree.get(b"DSET") else {
        return None;
    };
    let Some(key) = value_at(part, 0, b"FLAGS") else {
        return None;
    };
    let Some(id) = number_at(part, 1, b"ID") else {
        return None;
    };
    let Some(name) = value_at(part, 2, b"NAME") else {
        return None;
    };
    let Some(run) = number_at(part, 3, b"RUN") else {
        return None;
    };
    let Some(flags) = flags_of(key) else {
        return None;
    };
    if part.width() != 4 || id == 0 || run == 0 {
        return None;
    }
    Some(Dset {
        flags,
        id,
        name,
        run,
    })
}

/// What the part SCHEME says: the scheme, and how many members a set is to have.
pub(crate) fn scheme_of(tree: &Tree) -> Option<(Scheme, u8)>
    ensures { MatchOption result ((scheme : Scheme) (size : ℕ) → IsTrue (is_scheme scheme) → IsTrue (is_size size) → get tree.now (codes "SCHEME") ≢ Some (scheme_tree scheme size)) (λ found. IsTrue (is_scheme found.0) × IsTrue (is_size found.1) × (get tree.now (codes "SCHEME") ≡ Some (scheme_tree found.0 found.1))) }
{
    let Some(part) = tree.get(b"SCHEME") else {
        return None;
    };
    let Some(shares) = number_at(part, 0, b"SHARES") else {
        return None;
    };
    let Some(size) = number_at(part, 1, b"SIZE") else {
        return None;
    };
    let Some(key) = value_at(part, 2, b"TYPE") else {
        return None;
    };
    let Some(scheme) = scheme_with(key, shares) else {
        return None;
    };
    if part.width() != 3 || size < 2 || size > 16 {
        return None;
    }
    Some((scheme, size as u8))
}

/// What the part SHAPE says: how many nodes, and how many ranks each.
pub(crate) fn shape_of(tree: &Tree) -> Option<(u8, u8)>
    ensures { MatchOption result ((nodes ranks : ℕ) → IsTrue (is_site nodes ranks 0) → get tree.now (codes "SHAPE") ≢ Some (shape_tree nodes ranks)) (λ found. IsTrue (is_site found.0 found.1 0) × (get tree.now (codes "SHAPE") ≡ Some (shape_tree found.0 found.1))) }
{
    let Some(part) = tree.get(b"SHAPE") else {
        return None;
    };
    let Some(nodes) = number_at(part, 0, b"NODES") else {
        return None;
    };
    let Some(ranks) = number_at(part, 1, b"RANKS") else {
        return None;
    };
    if part.width() != 2
        || nodes < 1
        || nodes > 16
        || ranks < 1
        || ranks > 8
        || nodes * ranks > 64
    {
        return None;
    }
    Some((nodes as u8, ranks as u8))
}
