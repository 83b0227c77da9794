//! Sets of nodes: their groups, and which losses they bear.

use process_sets::{SetError, Sets};
use scr_base::{Scheme, Shape};
use std::test::Fail;

#[test]
fn groups_and_places(rt: HostRuntime) -> Result<(), Fail> {
    let shape = Shape::new(5, 1, 0).ok_or("no shape")?;
    let sets = Sets::new(shape, Scheme::Partner, 2)?;
    let places = [(0, 0), (1, 0), (0, 1), (1, 1), (0, 2)];
    for node in 0..5u8 {
        let (group, place) = places[node as usize];
        assert_eq!(rt; sets.group_of(node), group, "node {node}");
        assert_eq!(rt; sets.place_of(node), place, "node {node}");
    }
    let eight = Sets::new(Shape::new(8, 1, 0).ok_or("no shape")?, Scheme::Xor, 8)?;
    for node in 0..8u8 {
        assert_eq!(rt; eight.group_of(node), 0);
        assert_eq!(rt; eight.place_of(node), node);
    }
    let whole = Sets::new(Shape::new(3, 1, 0).ok_or("no shape")?, Scheme::Xor, 8)?;
    for node in 0..3u8 {
        assert_eq!(rt; whole.group_of(node), 0);
        assert_eq!(rt; whole.place_of(node), node);
    }
    Ok(())
}

#[test]
fn small_sets_and_losses(rt: HostRuntime) -> Result<(), Fail> {
    let alloc = rt.alloc();
    let three = Shape::new(3, 1, 0).ok_or("no shape")?;
    let small = Sets::new(three, Scheme::Rs { shares: 3 }, 8).err();
    assert_eq!(rt; small, Some(SetError::SetTooSmall { group: 0 }));
    let five = Shape::new(5, 1, 0).ok_or("no shape")?;
    let partner = Sets::new(five, Scheme::Partner, 2)?;
    assert!(rt; partner.bears(&vec![in alloc; 0, 1]?));
    assert!(rt; !partner.bears(&vec![in alloc; 0, 2]?));
    assert!(rt; !partner.bears(&vec![in alloc; 4, 0]?));
    let single = Sets::new(five, Scheme::Single, 2)?;
    assert!(rt; single.bears(&vec![in alloc]?));
    assert!(rt; !single.bears(&vec![in alloc; 3]?));
    let xor = Sets::new(five, Scheme::Xor, 2)?;
    assert!(rt; xor.bears(&vec![in alloc; 4, 3]?));
    assert!(rt; !xor.bears(&vec![in alloc; 1, 3]?));
    let rs = Sets::new(five, Scheme::Rs { shares: 2 }, 5)?;
    assert!(rt; rs.bears(&vec![in alloc; 4, 1]?));
    assert!(rt; !rs.bears(&vec![in alloc; 4, 1, 0]?));
    Ok(())
}
