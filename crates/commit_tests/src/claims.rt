//! Claims on the shares of three nodes with XOR, whose ranks wrote 0102030405 in two files, 1020 in one, and nothing.

use commit_core::{Claimed, Commit, CommitSet, work};
use dataset_desc::Desc;
use filemap::Filemap;
use member_store::{Part, write_part};
use node_device::{Bay, MemDevice};
use scr_base::{Bytes, DataId, Flags, Memory, Name, Scheme};
use std::alloc::Global;
use std::test::Fail;

const FIRST: DataId = DataId { id: 1, run: 1 };

/// What the members keep, by ascending member.
const SHARES: [[u8; 3]; 3] = [[0x10, 0x20, 0], [1, 2, 3], [4, 5, 0]];

/// A bay whose device 0 fails that call; 0 for none.
fn bay_of(alloc: Global, call: u64) -> Result<Bay<MemDevice>, Memory> {
    let mut nodes = Vec::with_capacity(alloc, 32)?;
    for place in 0..32u8 {
        let fail = if place == 0 { call } else { 0 };
        nodes.push(MemDevice::new(alloc, 10_000, [fail].to_vec(alloc)?)?)?;
    }
    let prefix = MemDevice::new(alloc, 1000, Vec::new(alloc))?;
    Ok(Bay::new(nodes, prefix))
}

/// A file of a rank, with so many bytes.
fn put_row(
    alloc: Global,
    files: &mut Filemap,
    rank: u8,
    name: &[u8],
    len: u32,
) -> Result<(), Fail> {
    let name = Name::read(alloc, name)?;
    if rank >= files.ranks() || len > 1_048_576 {
        return Ok(());
    }
    let file = files.route(rank, &name)?;
    if rank < files.ranks() && (file as usize) < files.rows(rank).len() {
        files.extend(rank, file, len);
    }
    Ok(())
}

fn files_of(alloc: Global) -> Result<Filemap, Fail> {
    let mut files = Filemap::new(alloc, 3)?;
    put_row(alloc, &mut files, 0, b"f", 2)?;
    put_row(alloc, &mut files, 0, b"g", 3)?;
    put_row(alloc, &mut files, 1, b"f", 2)?;
    Ok(files)
}

fn commit_of(alloc: Global) -> Result<Commit, Fail> {
    let files = files_of(alloc)?;
    if files.ranks() != 3 {
        return Err(Fail::from(Memory));
    }
    let desc = Desc {
        which: FIRST,
        name: Name::read(alloc, b"a")?,
        flags: Flags::Ckpt,
        nodes: 3,
        ranks: 1,
        scheme: Scheme::Xor,
        size: 8,
    };
    let places = Bytes::of([2, 0, 1].to_vec(alloc)?);
    let set = CommitSet {
        desc,
        files,
        places,
    };
    Ok(Commit::new(alloc, set)?)
}

/// Writes the ranks' files: node 0 stands in place 2, and node 1 in place 0.
fn write_files(bay: &mut Bay<MemDevice>) -> Result<(), Fail> {
    let first = Part::File { local: 0, file: 0 };
    let second = Part::File { local: 0, file: 1 };
    write_part(bay.device(2), FIRST, 0, first, 0, &[1, 2])?;
    write_part(bay.device(2), FIRST, 0, second, 0, &[3, 4, 5])?;
    write_part(bay.device(0), FIRST, 1, first, 0, &[0x10, 0x20])?;
    Ok(())
}

/// Whether a claim is out for what this member keeps.
fn is_share(alloc: Global, claimed: Claimed, target: u8, want: &[u8]) -> bool {
    match claimed {
        Claimed::Out { claim } => {
            let number = claim.number;
            let place = (claim.stripe, claim.target, claim.at);
            match work(alloc, claim) {
                Ok(deposit) => {
                    number == target as u64 + 1
                        && place == (target, target, 0)
                        && deposit.bytes.list() == want
                }
                Err(_) => false,
            }
        }
        Claimed::NoneLeft | Claimed::Fault { .. } => false,
    }
}

#[test]
fn claims_ask_for_the_shares(rt: HostRuntime) -> Result<(), Fail> {
    let alloc = rt.alloc();
    let mut bay = bay_of(alloc, 0)?;
    write_files(&mut bay)?;
    let mut commit = commit_of(alloc)?;
    for target in 0..3u8 {
        let claimed = commit.claim(&mut bay)?;
        assert!(rt;
            is_share(alloc, claimed, target, &SHARES[target as usize]),
            "target {target}"
        );
        assert!(rt; !commit.is_ready());
    }
    let claimed = commit.claim(&mut bay)?;
    assert!(rt; matches!(&claimed, Claimed::NoneLeft));
    Ok(())
}

// A read that fails withdraws all shares and claims: the second call of the device in place 0 is the first claim's read.
#[test]
fn a_fault_withdraws_the_shares(rt: HostRuntime) -> Result<(), Fail> {
    let alloc = rt.alloc();
    let mut bay = bay_of(alloc, 2)?;
    write_files(&mut bay)?;
    let mut commit = commit_of(alloc)?;
    let claimed = commit.claim(&mut bay)?;
    assert!(rt; matches!(&claimed, Claimed::Fault { node: 0, count: 1 }));
    assert_eq!(rt; commit.gates_left(), 0);
    let claimed = commit.claim(&mut bay)?;
    assert!(rt; matches!(&claimed, Claimed::NoneLeft));
    Ok(())
}
