//! The board of the last status.

use status_board::{Status, StatusBoard};
use std::test::Fail;

/// A status of which nothing is flushed.
fn settled(settled: u32) -> Status {
    Status {
        settled,
        flushed: 0,
    }
}

/// After 1 and then 2 were published, a pass that has seen 2 gets it again, also where another pass has seen less.
#[test]
fn who_has_seen_the_second_never_sees_the_first(rt: HostRuntime) -> Result<(), Fail> {
    let (board, pass) = StatusBoard::new(rt.alloc())?;
    let (first, pass) = board.look(pass);
    assert_eq!(rt; first, settled(0));
    let pass = board.publish(settled(1), pass);
    let (early, pass) = board.fork(pass);
    let (one, pass) = board.look(pass);
    assert_eq!(rt; one, settled(1));
    let mut pass = board.publish(settled(2), pass);
    for _i in 0..3 {
        let (seen, next) = board.look(pass);
        assert_eq!(rt; seen, settled(2));
        pass = next;
    }
    let (seen, _) = board.look(board.merge(early, pass));
    assert_eq!(rt; seen, settled(2));
    Ok(())
}

#[test]
fn who_was_forked_before_both_sees_the_second(rt: HostRuntime) -> Result<(), Fail> {
    let (board, pass) = StatusBoard::new(rt.alloc())?;
    let (writer, reader) = board.fork(pass);
    let writer = board.publish(settled(1), writer);
    let writer = board.publish(settled(2), writer);
    let (seen, reader) = board.look(reader);
    assert_eq!(rt; seen, settled(2));
    let (seen, _) = board.look(board.merge(reader, writer));
    assert_eq!(rt; seen, settled(2));
    Ok(())
}

/// The two numbers of a status stand in one word.
#[test]
fn both_numbers_come_back(rt: HostRuntime) -> Result<(), Fail> {
    let (board, mut pass) = StatusBoard::new(rt.alloc())?;
    for (settled, flushed) in [
        (0, 1),
        (u32::MAX, 0),
        (0, u32::MAX),
        (7, 5),
        (u32::MAX, u32::MAX),
    ] {
        let status = Status { settled, flushed };
        let (seen, next) = board.look(board.publish(status, pass));
        assert_eq!(rt; seen, status);
        pass = next;
    }
    Ok(())
}
