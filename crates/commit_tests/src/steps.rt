//! The records, syncs and gates of a dataset without shares: two nodes, in the places 1 and 0.

use ckpt_model::{Event, Progress};
use commit_core::{Commit, CommitSet};
use dataset_desc::Desc;
use filemap::Filemap;
use member_store::scan;
use node_device::{Bay, MemDevice};
use scr_base::{Bytes, DataId, Flags, Memory, Name, Scheme, Shape};
use std::alloc::Global;
use std::test::Fail;

const FIRST: DataId = DataId { id: 1, run: 1 };

const TWO: Shape = Shape {
    nodes: 2,
    ranks: 1,
    spares: 0,
};

/// What a step answers.
#[derive(Clone, Copy, Debug, PartialEq, Eq)]
enum Told {
    Silent,
    Sealing,
    Settled,
    Over,
    Fault { node: u8, count: u64 },
    Full { node: u8, used: u64, capacity: u64 },
    Another,
}

fn kind_of(progress: &Progress) -> Told {
    match progress {
        Progress::Silent => Told::Silent,
        Progress::Shown {
            event: Event::Sealing { which },
        } if *which == FIRST => Told::Sealing,
        Progress::Shown {
            event: Event::Settled { which },
        } if *which == FIRST => Told::Settled,
        Progress::Shown { .. } => Told::Another,
        Progress::Over => Told::Over,
        Progress::Fault { node, count } => Told::Fault {
            node: *node,
            count: *count,
        },
        Progress::Full {
            node,
            used,
            capacity,
        } => Told::Full {
            node: *node,
            used: *used,
            capacity: *capacity,
        },
    }
}

/// Record and sync of each node, gate `whole` and sync of each node, gate `sealed` and sync of each node.
const STEPS: [Told; 13] = [
    Told::Silent,
    Told::Silent,
    Told::Silent,
    Told::Silent,
    Told::Silent,
    Told::Silent,
    Told::Silent,
    Told::Silent,
    Told::Sealing,
    Told::Silent,
    Told::Silent,
    Told::Settled,
    Told::Over,
];

/// A bay whose device 1 has that capacity and fails that call; 0 for none.
fn bay_of(alloc: Global, capacity: u64, call: u64) -> Result<Bay<MemDevice>, Memory> {
    let mut nodes = Vec::with_capacity(alloc, 32)?;
    for place in 0..32u8 {
        let (room, fail) = if place == 1 {
            (capacity, call)
        } else {
            (10_000, 0)
        };
        nodes.push(MemDevice::new(alloc, room, [fail].to_vec(alloc)?)?)?;
    }
    let prefix = MemDevice::new(alloc, 1000, Vec::new(alloc))?;
    Ok(Bay::new(nodes, prefix))
}

fn commit_of(alloc: Global) -> Result<Commit, Fail> {
    let files = Filemap::new(alloc, 2)?;
    let desc = Desc {
        which: FIRST,
        name: Name::read(alloc, b"a")?,
        flags: Flags::Ckpt,
        nodes: 2,
        ranks: 1,
        scheme: Scheme::Single,
        size: 8,
    };
    let places = Bytes::of([1, 0].to_vec(alloc)?);
    let set = CommitSet {
        desc,
        files,
        places,
    };
    Ok(Commit::new(alloc, set)?)
}

/// One step, where one may come.
fn step_of(commit: &mut Commit, bay: &mut Bay<MemDevice>) -> Result<Told, Fail> {
    if !commit.is_ready() {
        return Ok(Told::Another);
    }
    let progress = commit.step(bay)?;
    Ok(kind_of(&progress))
}

/// Of the members on the nodes: how many there are, how many are whole, and how many are whole and sealed.
fn members_of(alloc: Global, bay: &mut Bay<MemDevice>) -> Result<(u64, u64, u64), Fail> {
    let mut counts = (0u64, 0u64, 0u64);
    for place in 0..2u8 {
        for member in &scan(alloc, bay.device(place), TWO)? {
            counts.0 = counts.0.saturating_add(1);
            if member.whole {
                counts.1 = counts.1.saturating_add(1);
            }
            if member.whole && member.sealed {
                counts.2 = counts.2.saturating_add(1);
            }
        }
    }
    Ok(counts)
}

#[test]
fn goes_from_records_to_gates(rt: HostRuntime) -> Result<(), Fail> {
    let alloc = rt.alloc();
    let mut bay = bay_of(alloc, 10_000, 0)?;
    let mut commit = commit_of(alloc)?;
    for want in STEPS {
        assert_eq!(rt; step_of(&mut commit, &mut bay)?, want);
    }
    assert_eq!(rt; step_of(&mut commit, &mut bay)?, Told::Over);
    assert_eq!(rt; members_of(alloc, &mut bay)?, (2, 2, 2));
    let members = scan(alloc, bay.device(1), TWO)?;
    assert_eq!(rt; members.len(), 1);
    for member in &members {
        assert_eq!(rt; (member.which, member.node), (FIRST, 0));
    }
    Ok(())
}

#[test]
fn ends_at_a_full_device(rt: HostRuntime) -> Result<(), Fail> {
    let alloc = rt.alloc();
    let mut bay = bay_of(alloc, 0, 0)?;
    let mut commit = commit_of(alloc)?;
    let full = Told::Full {
        node: 1,
        used: 0,
        capacity: 0,
    };
    for want in [full, Told::Over] {
        assert_eq!(rt; step_of(&mut commit, &mut bay)?, want);
    }
    assert_eq!(rt; members_of(alloc, &mut bay)?, (0, 0, 0));
    Ok(())
}

// Whatever call of the device fails, that step and no other tells it, and nothing comes behind it.
#[test]
fn ends_at_a_fault(rt: HostRuntime) -> Result<(), Fail> {
    let alloc = rt.alloc();
    for call in 1..12u64 {
        let mut bay = bay_of(alloc, 10_000, call)?;
        let mut commit = commit_of(alloc)?;
        let mut failed = false;
        for want in STEPS {
            let got = step_of(&mut commit, &mut bay)?;
            if failed {
                assert_eq!(rt; got, Told::Over);
            } else if got == (Told::Fault { node: 1, count: 1 }) {
                failed = true;
            } else {
                assert_eq!(rt; got, want);
            }
        }
        assert!(rt; failed || call > 6, "call {call}");
    }
    Ok(())
}

// After whatever step the devices stop: while one member is sealed, both are whole.
#[test]
fn seals_nothing_before_all_is_whole(rt: HostRuntime) -> Result<(), Fail> {
    let alloc = rt.alloc();
    for last in 0..13u8 {
        for pick in 0..4u8 {
            let mut bay = bay_of(alloc, 10_000, 0)?;
            let mut commit = commit_of(alloc)?;
            for _ in 0..last {
                step_of(&mut commit, &mut bay)?;
            }
            bay.stop(pick);
            let (_, whole, sealed) = members_of(alloc, &mut bay)?;
            assert!(rt; sealed == 0 || whole == 2, "step {last} at {pick}");
            assert!(rt; last < 12 || sealed == 2, "step {last} at {pick}");
        }
    }
    Ok(())
}
