//! What the records of some physical nodes tell of each dataset.
ghost use Rattle.std.specs.Prelude.{◌≡◌, ◌≤◌, ◌↔◌, IsTrue, length, map, filter, IfOk, OnOk, false};
ghost use Rattle.recover_core.specs.Seen.{IsEarlier, AreRising, IsPlaceOf, IsThere, marked_with, TakesMember, TakesMembers, found_of, is_sealed};

use crate::found::FoundSet;
use crate::marks::Marks;
use dataset_desc::Desc;
use filemap::Filemap;
use member_store::Member;
use scr_base::{DataId, Memory};
use std::alloc::Global;

/// A dataset of which some member is whole.
#[derive(Debug, Drop)]
pub(crate) struct SeenSet {
    pub(crate) desc: Desc,
    pub(crate) files: Filemap,
    /// The nodes of which a whole member was read.
    pub(crate) there: Marks,
    /// Is one of these sealed?
    pub(crate) sealed: bool,
}

/// Is the first identity before the second, by number and then by run?
fn is_earlier(a: DataId, b: DataId) -> bool
    ensures { IsTrue result ↔ IsEarlier a b }
{
    if a.id != b.id {
        a.id < b.id
    } else {
        a.run < b.run
    }
}

/// How many datasets are before this one, found by halving.
fn place_of(sets: &[SeenSet], which: DataId) -> usize
    ensures within { result ≤ length sets.now }
    ensures place { AreRising sets.now → IsPlaceOf sets.now which result }
{
    let mut low = 0;
    let mut high = sets.len();
    while low < high {
        let middle = low + (high - low) / 2;
        if is_earlier(sets[middle].desc.which, which) {
            low = middle + 1;
        } else {
            high = middle;
        }
    }
    low
}

/// Whether a dataset of that identity stands in the place.
fn is_there(sets: &[SeenSet], place: usize, which: DataId) -> bool
    ensures { IsThere sets.now place which result }
{
    place < sets.len() && sets[place].desc.which == which
}

impl SeenSet {
    /// Marks a node of which a whole member was read, sealed or not.
    fn mark(&mut self, node: u8, sealed: bool)
        ensures { self.new ≡ marked_with node sealed self.old }
    {
        self.there.mark(node);
        self.sealed = self.sealed || sealed;
    }
}

/// Takes up what the record of a member tells, where its gate `whole` is open.
fn take_member(
    alloc: Global,
    nodes: u8,
    sets: &mut Vec<SeenSet>,
    member: Member,
) -> Result<(), Memory>
    ensures { AreRising sets.old.items → OnOk result (TakesMember nodes member sets.old.items sets.new.items) }
{
    if !member.whole {
        return Ok(());
    }
    let place = place_of(sets, member.desc.which);
    if is_there(sets, place, member.desc.which) {
        sets[place].mark(member.node, member.sealed);
        return Ok(());
    }
    let mut set = SeenSet {
        desc: member.desc,
        files: member.files,
        there: Marks::none(alloc, nodes)?,
        sealed: false,
    };
    set.mark(member.node, member.sealed);
    sets.insert(place, set)?;
    Ok(())
}

/// Takes up what the records of these members tell.
pub(crate) fn take_members(
    alloc: Global,
    nodes: u8,
    sets: &mut Vec<SeenSet>,
    members: Vec<Member>,
) -> Result<(), Memory>
    ensures { OnOk result (TakesMembers nodes members.items sets.old.items sets.new.items) }
{
    for member in members {
        take_member(alloc, nodes, sets, member)?;
    }
    Ok(())
}

/// Those of which some member is sealed, with the nodes that are lost.
pub(crate) fn found_among(
    alloc: Global,
    nodes: u8,
    sets: Vec<SeenSet>,
) -> Result<Vec<FoundSet>, Memory>
    ensures { IfOk result (λ found. found.items ≡ map (found_of nodes) (filter is_sealed sets.items)) }
{
    let mut found = Vec::new(alloc);
    for set in sets {
        if set.sealed {
            found.push(FoundSet {
                desc: set.desc,
                files: set.files,
                lost: set.there.lost(alloc, nodes)?,
            })?;
        }
    }
    Ok(found)
}
