//! Copies of events and of whole histories.
use crate::histories::{EACH_ANSWER, EACH_COMMAND_LINE, EACH_RUN_LINE, EACH_STEP, FIRST_PATH};
use ckpt_model::History;
use history_text::{parse, print};
use scr_base::{Bytes, Copies};
use std::alloc::Global;
use std::test::Fail;

/// A history of copies of the events.
fn copied(alloc: Global, history: &History) -> Result<History, Fail> {
    let mut copies = History::new(alloc);
    for event in history.events() {
        let copy = event.copy(alloc).ok().ok_or("no memory for an event")?;
        copies.push(copy).ok().ok_or("no memory for the list")?;
    }
    Ok(copies)
}

/// The text of a history.
fn text_of(alloc: Global, history: &History) -> Result<Bytes, Fail> {
    Ok(print(alloc, history).ok().ok_or("no memory for a text")?)
}

// Copies are printed as the original was read.
#[test]
fn copies_are_the_same(rt: HostRuntime) -> Result<(), Fail> {
    let alloc = rt.alloc();
    for text in [
        FIRST_PATH,
        EACH_RUN_LINE,
        EACH_COMMAND_LINE,
        EACH_ANSWER,
        EACH_STEP,
    ] {
        let history = parse(alloc, text).ok().ok_or("a bad line")?;
        let whole = history.copy(alloc).ok().ok_or("no memory for a copy")?;
        let each = copied(alloc, &history)?;
        assert_eq!(rt; text_of(alloc, &whole)?.list(), text);
        assert_eq!(rt; text_of(alloc, &each)?.list(), text);
    }
    Ok(())
}

#[test]
fn copies_have_room_for_more(rt: HostRuntime) -> Result<(), Fail> {
    let alloc = rt.alloc();
    let history = parse(alloc, FIRST_PATH).ok().ok_or("a bad line")?;
    let mut copy = history.copy(alloc).ok().ok_or("no memory for a copy")?;
    let first = history.events().first().ok_or("no event")?;
    let again = first.copy(alloc).ok().ok_or("no memory for an event")?;
    copy.push(again).ok().ok_or("no memory for the list")?;
    copy.reserve(3).ok().ok_or("no memory for more")?;
    assert_eq!(rt; (history.events().len(), copy.events().len()), (29, 30));
    Ok(())
}
