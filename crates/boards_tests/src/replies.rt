//! The board of replies.

use reply_board::{PostError, ReplyBoard};
use scr_base::Reply;
use std::test::Fail;

#[test]
fn places(rt: HostRuntime) -> Result<(), Fail> {
    let board = ReplyBoard::new(rt.alloc(), 2, 3)?;
    for rank in 0..4u8 {
        for step in 0..6u32 {
            let is_place = rank < 2 && (1..=3).contains(&step);
            assert_eq!(rt; board.has(rank, step), is_place, "{rank}, {step}");
        }
    }
    let none = ReplyBoard::new(rt.alloc(), 0, 3)?;
    assert!(rt; !none.has(0, 1));
    Ok(())
}

/// A reply stands in its own cell alone, and is read there by each note.
#[test]
fn a_reply_is_read_at_its_place(rt: HostRuntime) -> Result<(), Fail> {
    let board = ReplyBoard::new(rt.alloc(), 2, 3)?;
    let before = board.note(1, 2);
    let (nothing, before) = board.read(1, 2, before);
    assert!(rt; nothing.is_none());
    let Ok(posted) = board.post(1, 2, Reply::Kept) else {
        return Err("not posted".into());
    };
    let (reply, posted) = board.read(1, 2, posted);
    assert!(rt; matches!(reply, Some(Reply::Kept)));
    let (again, _) = board.read(1, 2, posted);
    assert!(rt; matches!(again, Some(Reply::Kept)));
    let (late, _) = board.read(1, 2, before);
    assert!(rt; matches!(late, Some(Reply::Kept)));
    for (rank, step) in [(0, 2), (1, 1), (1, 3)] {
        let note = board.note(rank, step);
        let (other, _) = board.read(rank, step, note);
        assert!(rt; other.is_none(), "{rank}, {step}");
    }
    Ok(())
}

#[test]
fn not_kept_where_kept_stands_is_other(rt: HostRuntime) -> Result<(), Fail> {
    let board = ReplyBoard::new(rt.alloc(), 1, 1)?;
    assert!(rt; board.post(0, 1, Reply::Kept).is_ok());
    assert!(rt; board.post(0, 1, Reply::Kept).is_ok());
    match board.post(0, 1, Reply::NotKept) {
        Err(PostError::Other { note }) => {
            let (stands, _) = board.read(0, 1, note);
            assert!(rt; matches!(stands, Some(Reply::Kept)));
            Ok(())
        }
        Err(PostError::Memory) => Err("no memory".into()),
        Ok(_) => Err("posted twice".into()),
    }
}
