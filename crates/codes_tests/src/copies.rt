//! PARTNER.

ghost use Rattle.std.specs.Prelude.{◌≡◌, vec_len, IfOk};

use partner_copy::{Held, PartnerError, copy_of, rebuild};
use scr_base::{Bytes, Copies};
use std::alloc::Global;
use std::test::Fail;

/// The streams of three members: two bytes, one byte, none.
fn three(alloc: Global) -> Result<Vec<Bytes>, Fail>
    ensures { IfOk result (λ streams. vec_len streams ≡ 3) }
{
    let mut streams = Vec::new(alloc);
    streams.push(Bytes::of(vec![in alloc; 1, 2]?))?;
    streams.push(Bytes::of(vec![in alloc; 3]?))?;
    streams.push(Bytes::of(Vec::new(alloc)))?;
    Ok(streams)
}

/// The members of these streams, but for the lost ones.
fn members(alloc: Global, streams: &Vec<Bytes>, lost: &[usize]) -> Result<Vec<Option<Held>>, Fail>
    requires { vec_len streams.now ≡ 3 }
    ensures { IfOk result (λ members. vec_len members ≡ 3) }
{
    let mut members = Vec::new(alloc);
    for i in 0..3u8 {
        members.push(if lost.contains(&(i as usize)) {
            None
        } else {
            Some(Held {
                stream: streams[i as usize].copy(alloc)?,
                share: copy_of(alloc, streams, i)?,
            })
        })?;
    }
    Ok(members)
}

#[test]
fn shares_and_losses(rt: HostRuntime) -> Result<(), Fail> {
    let alloc = rt.alloc();
    let streams = three(alloc)?;
    assert_eq!(rt; copy_of(alloc, &streams, 0)?.list(), [].as_slice());
    assert_eq!(rt; copy_of(alloc, &streams, 1)?.list(), [1, 2].as_slice());
    assert_eq!(rt; copy_of(alloc, &streams, 2)?.list(), [3].as_slice());
    for lost in 0..3usize {
        let rebuilt = rebuild(alloc, &members(alloc, &streams, &[lost])?)?;
        assert_eq!(rt; rebuilt.len(), 3);
        for i in 0..3usize {
            assert_eq!(rt;
                rebuilt[i].list(),
                streams[i].list(),
                "member {i} with {lost} lost"
            );
        }
    }
    for (lost, member) in [([0, 1], 0), ([1, 2], 1), ([0, 2], 2)] {
        let refused = rebuild(alloc, &members(alloc, &streams, &lost)?).err();
        assert_eq!(rt; refused, Some(PartnerError::Both { member }));
    }
    Ok(())
}
