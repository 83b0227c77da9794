//! Rounds of two and three ranks, and one rank from its call to its reply.

use super::*;
use scr_base::{Flags, Phase, Refusal, Reply, Step, Word};
use std::test::Fail;

/// Rank 2 starts another dataset than ranks 0 and 1.
#[test]
fn a_rank_that_starts_another_dataset_is_named(rt: HostRuntime) -> Result<(), Fail> {
    let alloc = rt.alloc();
    let mut round = Round::new(alloc, 3)?;
    assert_eq!(rt; round.missing(), Some(0));
    round.arrive(
        0,
        Step::Start {
            name: Word::read(alloc, b"a")?,
            flags: Flags::Ckpt,
        },
    );
    round.arrive(
        1,
        Step::Start {
            name: Word::read(alloc, b"a")?,
            flags: Flags::Ckpt,
        },
    );
    assert_eq!(rt; round.missing(), Some(2));
    round.arrive(
        2,
        Step::Start {
            name: Word::read(alloc, b"b")?,
            flags: Flags::Ckpt,
        },
    );
    assert_eq!(rt; round.missing(), None);
    assert_eq!(rt;
        round.judge(Phase::Idle),
        Some(Refusal::Mismatch { rank: 2 })
    );
    Ok(())
}

/// One rank calls `complete`, is judged by the phase, and takes its reply.
#[test]
fn a_phase_refuses_and_a_reply_is_taken_once(rt: HostRuntime) -> Result<(), Fail> {
    let alloc = rt.alloc();
    let mut round = Round::new(alloc, 1)?;
    round.arrive(0, Step::Complete { valid: false });
    assert_eq!(rt;
        round.judge(Phase::Idle),
        Some(Refusal::Phase { phase: Phase::Idle })
    );
    assert_eq!(rt; round.judge(Phase::Output), None);
    assert!(rt; !round.is_valid());
    round.decide(alloc, &Reply::NotKept)?;
    assert!(rt; matches!(round.take_reply(0), Some(Reply::NotKept)));
    assert!(rt; round.take_reply(0).is_none());
    Ok(())
}

/// Two ranks end, one after the other.
#[test]
fn all_have_ended_after_the_last_end(rt: HostRuntime) -> Result<(), Fail> {
    let alloc = rt.alloc();
    let mut round = Round::new(alloc, 2)?;
    assert!(rt; !round.all_ended());
    round.arrive(1, Step::End);
    assert!(rt; !round.all_ended());
    round.arrive(0, Step::End);
    assert!(rt; round.all_ended());
    Ok(())
}
