//! The worked rows: shares, and streams that come back.

ghost use Rattle.std.specs.Prelude.{◌≡◌, length, IfOk};
ghost use Rattle.member_shares.specs.Shares.{IsSet};

use redundancy_set::{Held, RecoverError, member_of, recover};
use scr_base::{Bytes, Scheme};
use std::alloc::Global;
use std::test::Fail;

/// Streams with these bytes.
fn streams_of(alloc: Global, rows: &[&[u8]]) -> Result<Vec<Bytes>, Fail>
    ensures { IfOk result (λ streams. length streams.items ≡ length rows.now) }
{
    let mut streams = Vec::new(alloc);
    for i in 0..rows.len() {
        streams.push(Bytes::of(Vec::from_slice(alloc, rows[i])?))?;
    }
    Ok(streams)
}

/// What the members with these streams hold, but for the lost ones.
fn members_of(
    alloc: Global,
    scheme: Scheme,
    streams: &Vec<Bytes>,
    lost: &[u8],
) -> Result<Vec<Option<Held>>, Fail>
    requires { IsSet scheme (length streams.now.items) }
    ensures { IfOk result (λ members. length members.items ≡ length streams.now.items) }
{
    let mut members = Vec::new(alloc);
    for i in 0..streams.len() {
        members.push(if lost.contains(&(i as u8)) {
            None
        } else {
            Some(member_of(alloc, scheme, streams, i as u8)?)
        })?;
    }
    Ok(members)
}

/// The lengths of the streams.
fn lengths_of(alloc: Global, streams: &Vec<Bytes>) -> Result<Vec<u32>, Fail>
    ensures { IfOk result (λ lengths. length lengths.items ≡ length streams.now.items) }
{
    let mut lengths = Vec::new(alloc);
    for i in 0..streams.len() {
        lengths.push(u32::try_from(streams[i].list().len())?)?;
    }
    Ok(lengths)
}

/// The lost members that a refusal carries, and none where the streams come back.
fn refused(
    alloc: Global,
    scheme: Scheme,
    streams: &Vec<Bytes>,
    lost: &[u8],
) -> Result<Option<Bytes>, Fail>
    requires { IsSet scheme (length streams.now.items) }
{
    let members = members_of(alloc, scheme, streams, lost)?;
    let lengths = lengths_of(alloc, streams)?;
    match recover(alloc, scheme, &members, &lengths) {
        Ok(_) => Ok(None),
        Err(RecoverError::NotBorne { lost }) => Ok(Some(lost)),
        Err(RecoverError::Memory) => Err("no memory".into()),
    }
}

/// Whether all streams come back without the lost members.
fn comes_back(
    alloc: Global,
    scheme: Scheme,
    streams: &Vec<Bytes>,
    lost: &[u8],
) -> Result<bool, Fail>
    requires { IsSet scheme (length streams.now.items) }
{
    let members = members_of(alloc, scheme, streams, lost)?;
    let lengths = lengths_of(alloc, streams)?;
    let back = recover(alloc, scheme, &members, &lengths)?;
    if back.len() != streams.len() {
        return Ok(false);
    }
    for i in 0..back.len() {
        if back[i].list() != streams[i].list() {
            return Ok(false);
        }
    }
    Ok(true)
}

#[test]
fn xor_of_three(rt: HostRuntime) -> Result<(), Fail> {
    let alloc = rt.alloc();
    let streams = streams_of(alloc, &[&[1, 2, 3, 4, 5], &[0x10, 0x20], &[]])?;
    let shares = [[0x10, 0x20, 0], [1, 2, 3], [4, 5, 0]];
    for i in 0..3u8 {
        let held = member_of(alloc, Scheme::Xor, &streams, i)?;
        assert_eq!(rt;
            held.share.list(),
            shares[i as usize].as_slice(),
            "share {i}"
        );
        assert!(rt;
            comes_back(alloc, Scheme::Xor, &streams, &[i])?,
            "without {i}"
        );
    }
    let lost = refused(alloc, Scheme::Xor, &streams, &[0, 1])?.ok_or("not refused")?;
    assert_eq!(rt; lost.list(), [0, 1].as_slice());
    Ok(())
}

/// Stripe s has the column 01 03 05 07 times 2 to the power s.
#[test]
fn two_shares_of_four(rt: HostRuntime) -> Result<(), Fail> {
    let alloc = rt.alloc();
    let scheme = Scheme::Rs { shares: 2 };
    let streams = streams_of(
        alloc,
        &[&[0x02, 0x04], &[0x0c, 0x18], &[0x05, 0x28], &[0x07, 0x0e]],
    )?;
    let shares = [[0x01, 0x08], [0x03, 0x06], [0x0a, 0x14], [0x1c, 0x38]];
    for i in 0..4u8 {
        let held = member_of(alloc, scheme, &streams, i)?;
        assert_eq!(rt;
            held.share.list(),
            shares[i as usize].as_slice(),
            "share {i}"
        );
    }
    Ok(())
}

#[test]
fn every_pair_of_four(rt: HostRuntime) -> Result<(), Fail> {
    let alloc = rt.alloc();
    let scheme = Scheme::Rs { shares: 2 };
    let streams = streams_of(
        alloc,
        &[b"0123456789", b"abcdefghij", b"ABCDEFGHIJ", b"!\"#$%&'()*"],
    )?;
    for i in 0..4u8 {
        let held = member_of(alloc, scheme, &streams, i)?;
        assert_eq!(rt; held.share.list().len(), 10);
        for j in 0..i {
            assert!(rt;
                comes_back(alloc, scheme, &streams, &[j, i])?,
                "without {j} and {i}"
            );
        }
    }
    let lost = refused(alloc, scheme, &streams, &[3, 0, 1])?.ok_or("not refused")?;
    assert_eq!(rt; lost.list(), [0, 1, 3].as_slice());
    Ok(())
}

#[test]
fn fifteen_of_sixteen(rt: HostRuntime) -> Result<(), Fail> {
    let alloc = rt.alloc();
    let scheme = Scheme::Rs { shares: 15 };
    let mut long = vec![in alloc; 0x5a; 20000]?;
    long.as_mut_slice()[19999] = 0xa5;
    let none = [].as_slice();
    let rows = [
        none,
        none,
        none,
        long.as_slice(),
        none,
        none,
        none,
        none,
        none,
        none,
        none,
        none,
        none,
        none,
        none,
        none,
    ];
    let streams = streams_of(alloc, &rows)?;
    let lost = [0, 1, 2, 3, 4, 5, 6, 8, 9, 10, 11, 12, 13, 14, 15];
    assert!(rt; comes_back(alloc, scheme, &streams, &lost)?);
    Ok(())
}

#[test]
fn empty_streams(rt: HostRuntime) -> Result<(), Fail> {
    let alloc = rt.alloc();
    let streams = streams_of(alloc, &[&[], &[], &[]])?;
    for scheme in [Scheme::Xor, Scheme::Rs { shares: 2 }] {
        let held = member_of(alloc, Scheme::Xor, &streams, 0)?;
        assert_eq!(rt; held.share.list(), [].as_slice());
        assert!(rt; comes_back(alloc, scheme, &streams, &[1])?);
    }
    Ok(())
}

#[test]
fn whole_streams(rt: HostRuntime) -> Result<(), Fail> {
    let alloc = rt.alloc();
    let streams = streams_of(alloc, &[&[1, 2], &[3], &[], &[4]])?;
    assert!(rt; comes_back(alloc, Scheme::Single, &streams, &[])?);
    assert!(rt; comes_back(alloc, Scheme::Partner, &streams, &[0, 2])?);
    assert!(rt; comes_back(alloc, Scheme::Partner, &streams, &[3, 1])?);
    let single = refused(alloc, Scheme::Single, &streams, &[2])?.ok_or("not refused")?;
    assert_eq!(rt; single.list(), [2].as_slice());
    let partner = refused(alloc, Scheme::Partner, &streams, &[3, 0])?.ok_or("not refused")?;
    assert_eq!(rt; partner.list(), [0, 3].as_slice());
    Ok(())
}
