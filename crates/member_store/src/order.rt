//! The order of members: by identity and run, and then by node.
ghost use Rattle.std.specs.Prelude.{◌≡◌, ◌≤◌, length, IsTrue, ◌↔◌, OnErr, OnOk, Err};
ghost use Rattle.member_store.specs.Members.{IsBefore};
ghost use Rattle.member_store.specs.Scanning.{AreAscending, IsPlaceFor, PutsMember};

use crate::Member;
use node_device::DevError;

/// Is the first member before the second?
fn is_before(a: &Member, b: &Member) -> bool
    ensures { IsTrue result ↔ IsBefore a.now b.now }
{
    if a.which.id != b.which.id {
        a.which.id < b.which.id
    } else if a.which.run != b.which.run {
        a.which.run < b.which.run
    } else {
        a.node < b.node
    }
}

/// How many members are before this one, found by halving.
fn place_for(members: &[Member], member: &Member) -> usize
    ensures within { result ≤ length members.now }
    ensures place { AreAscending members.now → IsPlaceFor members.now member.now result }
{
    let mut low = 0;
    let mut high = members.len();
    while low < high {
        let middle = low + (high - low) / 2;
        if is_before(&members[middle], member) {
            low = middle + 1;
        } else {
            high = middle;
        }
    }
    low
}

/// Puts a member behind those that are before it.
pub(crate) fn put_in_order(members: &mut Vec<Member>, member: Member) -> Result<(), DevError>
    ensures memory { OnErr result (result ≡ Err DevError.Memory) }
    ensures put { AreAscending members.old.items → OnOk result (PutsMember members.old.items member members.new.items) }
{
    let place = place_for(members, &member);
    members.insert(place, member)?;
    Ok(())
}
