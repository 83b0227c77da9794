use member_store::{Part, part_file_name, read_part, write_part};
use node_device::{Device, MemDevice};
use scr_base::DataId;
use std::test::Fail;

const FIRST: DataId = DataId { id: 1, run: 1 };

#[test]
fn names_the_file_of_each_part(rt: HostRuntime) -> Result<(), Fail> {
    let alloc = rt.alloc();
    let rows: [(Part, &[u8]); 3] = [
        (Part::File { local: 1, file: 0 }, b"d.1.1.1.f.1.0"),
        (
            Part::File {
                local: 12,
                file: 15,
            },
            b"d.1.1.1.f.12.15",
        ),
        (Part::Share { local: 1 }, b"d.1.1.1.p.1"),
    ];
    for (part, want) in rows {
        let name = part_file_name(alloc, FIRST, 1, part)?;
        assert_eq!(rt; name.list(), want);
    }
    Ok(())
}

#[test]
fn writes_and_reads_under_that_name(rt: HostRuntime) -> Result<(), Fail> {
    let alloc = rt.alloc();
    let mut dev = MemDevice::new(alloc, 100, Vec::new(alloc))?;
    let part = Part::File { local: 1, file: 0 };
    write_part(&mut dev, FIRST, 1, part, 1, b"abc")?;
    assert_eq!(rt; dev.size(b"d.1.1.1.f.1.0"), Ok(4));
    let mut bytes = [0u8; 3];
    read_part(&mut dev, FIRST, 1, part, 1, &mut bytes)?;
    assert_eq!(rt; &bytes, b"abc");
    Ok(())
}
