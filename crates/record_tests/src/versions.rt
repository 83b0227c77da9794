ghost use Rattle.std.specs.Prelude.{◌≤◌, codes, length};
ghost use Rattle.gated_record.specs.PairStages.{IsStageOf};

use gated_record::{pair_load, pair_next_step};
use node_device::{DevError, Device, MemDevice};
use scr_base::Stage;
use std::alloc::Global;
use std::test::Fail;

/// Takes the pair `cur` all the way to a payload in the next version.
fn settle<D: Device>(
    alloc: Global,
    dev: &mut D,
    payload: &[u8],
    stage: &mut Stage,
) -> Result<(), DevError>
    requires short { length payload.now ≤ 1048572 }
    requires stage { IsStageOf (codes "cur") stage.old }
{
    let mut over = false;
    while !over {
        over = pair_next_step(alloc, dev, b"cur", payload, stage)?;
    }
    Ok(())
}

/// A device on which `cur.1` has this version, stable; 0 stands for no file.
fn standing(alloc: Global, version: u32) -> Result<MemDevice, DevError> {
    let mut dev = MemDevice::new(alloc, 1000, Vec::new(alloc))?;
    if version > 0 {
        dev.write(b"cur.1", 0, b"O")?;
        dev.write(b"cur.1", 15, &[5])?;
        dev.write(b"cur.1", 16, &version.to_be_bytes())?;
        dev.write(b"cur.1", 20, b"a")?;
        dev.sync()?;
    }
    Ok(dev)
}

#[test]
fn a_payload_takes_the_next_version(rt: HostRuntime) -> Result<(), Fail> {
    let alloc = rt.alloc();
    let rows = [
        (0, 1),
        (1, 2),
        (4_294_967_293, 4_294_967_294),
        (4_294_967_295, 2),
    ];
    for (version, next) in rows {
        let mut dev = standing(alloc, version)?;
        let mut stage = Stage::new();
        settle(alloc, &mut dev, b"b", &mut stage)?;
        dev.crash(1);
        match pair_load(alloc, &mut dev, b"cur")? {
            Some(value) => {
                assert_eq!(rt; value.version, next, "after {version}");
                assert_eq!(rt; value.body.list(), b"b".as_slice(), "after {version}");
            }
            None => assert!(rt; false, "nothing stands after {version}"),
        }
    }
    Ok(())
}
