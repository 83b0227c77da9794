use dataset_desc::Desc;
use filemap::Filemap;
use member_store::{MemberGate, scan, set_gate, write_member};
use node_device::{DevError, Device, MemDevice};
use scr_base::{DataId, Flags, Name, Scheme, Shape};
use std::test::Fail;

const FIRST: DataId = DataId { id: 1, run: 1 };

const ONE: Shape = Shape {
    nodes: 1,
    ranks: 1,
    spares: 0,
};

#[test]
fn writes_a_record_and_sets_its_gates(rt: HostRuntime) -> Result<(), Fail> {
    let alloc = rt.alloc();
    let mut dev = MemDevice::new(alloc, 1000, Vec::new(alloc))?;
    let desc = Desc {
        which: FIRST,
        name: Name::read(alloc, b"a")?,
        flags: Flags::Ckpt,
        nodes: 1,
        ranks: 1,
        scheme: Scheme::Single,
        size: 8,
    };
    let files = Filemap::new(alloc, 1)?;
    write_member(alloc, &mut dev, FIRST, 0, &desc, &files)?;
    let rows = [
        (MemberGate::Sealed, false, (false, false)),
        (MemberGate::Whole, true, (true, false)),
        (MemberGate::Sealed, true, (true, true)),
        (MemberGate::Whole, false, (false, true)),
    ];
    for (gate, up, want) in rows {
        set_gate(&mut dev, FIRST, 0, gate, up)?;
        let members = scan(alloc, &mut dev, ONE)?;
        assert_eq!(rt; members.len(), 1);
        for member in &members {
            assert_eq!(rt; member.which, FIRST);
            assert_eq!(rt; (member.whole, member.sealed), want);
            assert_eq!(rt; member.files.ranks(), 1);
        }
    }
    Ok(())
}

#[test]
fn makes_a_place_for_a_gate(rt: HostRuntime) -> Result<(), Fail> {
    let alloc = rt.alloc();
    for (capacity, want) in [(2, Ok(())), (1, Err(DevError::Full))] {
        let mut dev = MemDevice::new(alloc, capacity, Vec::new(alloc))?;
        let done = set_gate(&mut dev, FIRST, 0, MemberGate::Sealed, true);
        assert_eq!(rt; done, want);
        assert_eq!(rt; dev.size(b"d.1.1.0.m").is_ok(), want.is_ok());
    }
    Ok(())
}
