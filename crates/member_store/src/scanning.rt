//! Which members a device holds.
ghost use Rattle.std.specs.Prelude.{◌≡◌, ◌++◌, ℕ, List, [], ◌∷◌, Contains, true, OnOk};
ghost use Rattle.node_device.specs.DeviceState.{IsDeviceName, IsUnchanged};
ghost use Rattle.node_device.specs.Answers.{HasDeviceCause, NamesAnswers};
ghost use Rattle.member_store.specs.Calls.{Scans};
ghost use Rattle.member_store.specs.Scanning.{AreMet};

use crate::Member;
use crate::order::put_in_order;
use crate::reading::read_member;
use node_device::{DevError, Device};
use scr_base::Shape;
use std::alloc::Global;

/// Puts the member that a file reads as, if it reads as one, to the members of the names so far.
fn take_file<D: Device>(
    alloc: Global,
    dev: &mut D,
    shape: Shape,
    name: &[u8],
    members: &mut Vec<Member>,
) -> Result<(), DevError>
    requires { IsDeviceName name.now }
    ensures answer { NamesAnswers result }
    ensures met { (D.state dev.old).tells ≡ true → (names : List (List ℕ)) → ¬ Contains names name.now → AreMet shape (D.state dev.old) names members.old.items → OnOk result (AreMet shape (D.state dev.old) (names ++ name.now ∷ []) members.new.items) }
    ensures same { IsUnchanged (D.state dev.old) (D.state dev.new) }
    ensures cause { HasDeviceCause (D.state dev.old) (D.state dev.new) result }
{
    match read_member(alloc, dev, shape, name)? {
        None => Ok(()),
        Some(member) => put_in_order(members, member),
    }
}

/// The members whose records read on a site of this shape, ascending by identity, run and node. `Failed`; `Memory`.
pub fn scan<D: Device>(alloc: Global, dev: &mut D, shape: Shape) -> Result<Vec<Member>, DevError>
    ensures { Scans shape result (D.state dev.old) (D.state dev.new) }
{
    let names = dev.names()?;
    let mut members = Vec::new(alloc);
    for name in &names {
        take_file(alloc, dev, shape, name.list(), &mut members)?;
    }
    Ok(members)
}
