use ckpt_model::{
    CommandAnswer, EntryRow, Event, FoundRow, GivenUpCause, History, IndexNote, Kind, ScavAnswer,
    StopCause,
};
use history_text::{HistoryError, parse, print, print_event};
use scr_base::{
    Bytes, Content, DataId, Flags, HaltWord, Items, ListRow, Name, Phase, Reason, Refusal, Reply,
    Step, Word,
};
use std::alloc::Global;
use std::process::Abort;
use std::test::Fail;

fn first() -> DataId {
    DataId { id: 1, run: 1 }
}

fn bytes(alloc: Global, list: &[u8]) -> Result<Bytes, Fail> {
    Ok(Bytes::of(Vec::from_slice(alloc, list)?))
}

fn word(alloc: Global, text: &[u8]) -> Result<Word, Fail> {
    Ok(Word::read(alloc, text).ok().ok_or("no word")?)
}

fn name(alloc: Global, text: &[u8]) -> Result<Name, Fail> {
    Ok(Name::read(alloc, text).ok().ok_or("no name")?)
}

fn prints(rt: &(impl Abort + AllocGlobal), event: Event, text: &str) -> Result<(), Fail> {
    let mut out = Vec::new(rt.alloc());
    print_event(rt.alloc(), &mut out, &event)
        .ok()
        .ok_or("no memory")?;
    assert_eq!(rt; out.as_slice(), text.as_bytes(), "where {text} is wanted");
    Ok(())
}

#[test]
fn events_of_a_run(rt: HostRuntime) -> Result<(), Fail> {
    let which = first();
    for (event, text) in [
        (Event::Emptied { node: 3 }, "emptied 3"),
        (Event::Discarding { which }, "discarding 1.1"),
        (Event::Discarded { which }, "discarded 1.1"),
        (Event::Mended { which }, "mended 1.1"),
        (Event::Time { now: u64::MAX }, "time 18446744073709551615"),
        (Event::Sealing { which }, "sealing 1.1"),
        (Event::Settled { which }, "settled 1.1"),
        (Event::Evicting { which }, "evicting 1.1"),
        (Event::Evicted { which }, "evicted 1.1"),
        (Event::Flushing { which }, "flushing 1.1"),
        (Event::Indexing { which }, "indexing 1.1"),
        (Event::Flushed { which }, "flushed 1.1"),
        (Event::Fetching { which }, "fetching 1.1"),
        (Event::Fetched { which }, "fetched 1.1"),
        (Event::Failing { which }, "failing 1.1"),
        (Event::Failed { which }, "failed 1.1"),
    ] {
        prints(&rt, event, text)?;
    }
    Ok(())
}

#[test]
fn ends_and_causes(rt: HostRuntime) -> Result<(), Fail> {
    let device = GivenUpCause::Device { node: 4, count: 9 };
    let full = StopCause::Full {
        node: 32,
        used: 10,
        capacity: 12,
    };
    for (event, text) in [
        (
            Event::GivenUp {
                which: DataId { id: 7, run: 2 },
                cause: device,
            },
            "givenup 7.2 device 4 9",
        ),
        (
            Event::Stop {
                cause: StopCause::Ended,
            },
            "stop ended",
        ),
        (
            Event::Stop {
                cause: StopCause::Script,
            },
            "stop script",
        ),
        (
            Event::Stop {
                cause: StopCause::Runs,
            },
            "stop runs",
        ),
        (
            Event::Stop {
                cause: StopCause::Command,
            },
            "stop command",
        ),
        (Event::Stop { cause: full }, "stop full 32 10 12"),
        (Event::Lost { node: 17 }, "lost 17"),
    ] {
        prints(&rt, event, text)?;
    }
    Ok(())
}

#[test]
fn commands(rt: HostRuntime) -> Result<(), Fail> {
    let which = first();
    let cut = ScavAnswer::Cut;
    let refused = CommandAnswer::Full {
        used: 5,
        capacity: 6,
    };
    for (event, text) in [
        (Event::Scavenging { which }, "scavenging 1.1"),
        (
            Event::Scavenged {
                answer: ScavAnswer::Done { which },
            },
            "scavenged 1.1",
        ),
        (
            Event::Scavenged {
                answer: ScavAnswer::NoneLeft,
            },
            "scavenged none",
        ),
        (Event::Scavenged { answer: cut }, "scavenge cut"),
        (
            Event::IndexCommand {
                note: IndexNote::Drop {
                    id: 4,
                    answer: CommandAnswer::NoEntry,
                },
            },
            "index drop 4 = noentry",
        ),
        (
            Event::IndexCommand {
                note: IndexNote::Current {
                    id: 5,
                    answer: refused,
                },
            },
            "index current 5 = full 32 5 6",
        ),
        (
            Event::HaltSet {
                word: None,
                answer: CommandAnswer::Done,
            },
            "halt clear = ok",
        ),
        (
            Event::HaltSet {
                word: Some(HaltWord::Checkpoints { left: 3 }),
                answer: CommandAnswer::Device { count: 8 },
            },
            "halt checkpoints 3 = device 32 8",
        ),
    ] {
        prints(&rt, event, text)?;
    }
    Ok(())
}

fn answers(rt: &(impl Abort + AllocGlobal), answer: Reply, text: &str) -> Result<(), Fail> {
    prints(
        rt,
        Event::Reply {
            rank: 2,
            number: 10,
            answer,
        },
        text,
    )
}

#[test]
fn plain_answers(rt: HostRuntime) -> Result<(), Fail> {
    let which = DataId { id: 12, run: 3 };
    let (rank, phase) = (6, Phase::Offered);
    for (answer, text) in [
        (Reply::Done, "reply 2 10 ok"),
        (Reply::Yes, "reply 2 10 yes"),
        (Reply::No, "reply 2 10 no"),
        (
            Reply::Exit {
                reason: Reason::Checkpoints,
            },
            "reply 2 10 yes checkpoints",
        ),
        (Reply::Started { which }, "reply 2 10 ok 12.3"),
        (Reply::Kept, "reply 2 10 kept"),
        (Reply::NotKept, "reply 2 10 notkept"),
        (Reply::NoneLeft, "reply 2 10 none"),
        (Reply::Failed, "reply 2 10 failed"),
        (
            Reply::Refused {
                refusal: Refusal::Mismatch { rank },
            },
            "reply 2 10 mismatch 6",
        ),
        (
            Reply::Refused {
                refusal: Refusal::Phase { phase },
            },
            "reply 2 10 phase offered",
        ),
        (
            Reply::Refused {
                refusal: Refusal::BadName,
            },
            "reply 2 10 badname",
        ),
        (
            Reply::Refused {
                refusal: Refusal::NoFile,
            },
            "reply 2 10 nofile",
        ),
        (
            Reply::Refused {
                refusal: Refusal::Limit,
            },
            "reply 2 10 limit",
        ),
        (
            Reply::Refused {
                refusal: Refusal::NameTaken { which },
            },
            "reply 2 10 taken 12.3",
        ),
    ] {
        answers(&rt, answer, text)?;
    }
    Ok(())
}

#[test]
fn answers_with_bytes(rt: HostRuntime) -> Result<(), Fail> {
    let offer = Reply::Offer {
        which: first(),
        name: name(rt.alloc(), b"a")?,
    };
    answers(&rt, offer, "reply 2 10 1.1 a")?;
    answers(
        &rt,
        Reply::Bytes {
            bytes: bytes(rt.alloc(), &[])?,
        },
        "reply 2 10 bytes -",
    )?;
    let read = Reply::Bytes {
        bytes: bytes(rt.alloc(), &[0, 175, 255])?,
    };
    answers(&rt, read, "reply 2 10 bytes 00afff")
}

#[test]
fn local_steps(rt: HostRuntime) -> Result<(), Fail> {
    let routed = Event::Local {
        rank: 0,
        number: 2,
        step: Step::Route {
            name: word(rt.alloc(), b"f")?,
        },
        answer: Reply::Routed {
            part: bytes(rt.alloc(), b"d.1.1.0.f.0.0")?,
        },
    };
    prints(&rt, routed, "local 0 2 route f = ok d.1.1.0.f.0.0")
}

fn calls(rt: &(impl Abort + AllocGlobal), step: Step, text: &str) -> Result<(), Fail> {
    prints(
        rt,
        Event::Call {
            rank: 1,
            number: 3,
            step,
        },
        text,
    )
}

#[test]
fn steps(rt: HostRuntime) -> Result<(), Fail> {
    let start = Step::Start {
        name: word(rt.alloc(), b"a")?,
        flags: Flags::Both,
    };
    calls(&rt, start, "call 1 3 start a both")?;
    let read = Step::Read {
        name: word(rt.alloc(), b"f")?,
        at: 5,
        len: 6,
    };
    calls(&rt, read, "call 1 3 read f 5 6")?;
    calls(
        &rt,
        Step::Restarted { valid: false },
        "call 1 3 restarted invalid",
    )?;
    calls(&rt, Step::End, "call 1 3 end")
}

fn writes(rt: &(impl Abort + AllocGlobal), content: Content, text: &str) -> Result<(), Fail> {
    calls(
        rt,
        Step::Write {
            name: word(rt.alloc(), b"f")?,
            at: 7,
            content,
        },
        text,
    )
}

#[test]
fn contents(rt: HostRuntime) -> Result<(), Fail> {
    writes(
        &rt,
        Content::Text(word(rt.alloc(), b"abc")?),
        "call 1 3 write f 7 text abc",
    )?;
    writes(
        &rt,
        Content::Hex(bytes(rt.alloc(), &[10, 11])?),
        "call 1 3 write f 7 hex 0a0b",
    )?;
    writes(
        &rt,
        Content::Fill { seed: 3, len: 99 },
        "call 1 3 write f 7 fill 3 99",
    )
}

#[test]
fn what_was_found(rt: HostRuntime) -> Result<(), Fail> {
    let mut kept = Vec::new(rt.alloc());
    kept.push(FoundRow {
        which: first(),
        lost: bytes(rt.alloc(), &[0, 1])?,
    })?;
    kept.push(FoundRow {
        which: DataId { id: 2, run: 1 },
        lost: bytes(rt.alloc(), &[])?,
    })?;
    let mut index = Vec::new(rt.alloc());
    index.push(EntryRow {
        which: first(),
        failed: false,
    })?;
    index.push(EntryRow {
        which: DataId { id: 3, run: 2 },
        failed: true,
    })?;
    let found = Event::Found {
        kept: Items::of(kept),
        index: Items::of(index),
    };
    prints(&rt, found, "found 1.1:0+1 2.1:- | 1.1:flushed 3.2:failed")
}

#[test]
fn the_index_listed(rt: HostRuntime) -> Result<(), Fail> {
    let mut rows = Vec::new(rt.alloc());
    rows.push(ListRow {
        which: first(),
        name: name(rt.alloc(), b"a")?,
        failed: false,
        flags: Flags::Ckpt,
        marked: true,
    })?;
    rows.push(ListRow {
        which: DataId { id: 2, run: 1 },
        name: name(rt.alloc(), b"b")?,
        failed: true,
        flags: Flags::Both,
        marked: false,
    })?;
    let listed = Event::IndexCommand {
        note: IndexNote::List {
            rows: Items::of(rows),
        },
    };
    prints(
        &rt,
        listed,
        "index list = 1.1/a/flushed/ckpt* 2.1/b/failed/both",
    )
}

#[test]
fn a_history(rt: HostRuntime) -> Result<(), Fail> {
    let mut history = History::new(rt.alloc());
    let run = Event::Run {
        run: 1,
        places: bytes(rt.alloc(), &[0, 2])?,
    };
    history.push(run).ok().ok_or("no memory")?;
    let decided = Event::Decided {
        kind: Kind::Have,
        answer: Reply::NoneLeft,
    };
    history.push(decided).ok().ok_or("no memory")?;
    let text = print(rt.alloc(), &history).ok().ok_or("no memory")?;
    assert_eq!(rt;
        text.list(),
        b"run 1 at 0,2\ndecided have none\n".as_slice()
    );
    Ok(())
}

pub(crate) const FIRST_PATH: &[u8] =
    b"run 1 at 0\nfound |\ncall 0 1 start a ckpt\ndecided start ok 1.1\nreply 0 1 ok 1.1\nlocal 0 2 route f = ok d.1.1.0.f.0.0\nlocal 0 3 write f 0 text abc = ok\ncall 0 4 complete valid\nsealing 1.1\nsettled 1.1\ndecided complete kept\nreply 0 4 kept\ncall 0 5 end\nstop ended\nrun 2 at 0\nfound 1.1:- |\nmended 1.1\ncall 0 1 have\ndecided have 1.1 a\nreply 0 1 1.1 a\ncall 0 2 restart\ndecided restart ok\nreply 0 2 ok\nlocal 0 3 read f 0 3 = bytes 616263\ncall 0 4 restarted valid\ndecided restarted ok\nreply 0 4 ok\ncall 0 5 end\nstop ended\n";

pub(crate) const EACH_RUN_LINE: &[u8] =
    b"run 7 at 3,0,12\nemptied 9\nfound 1.1:0+1 2.1:- | 1.1:flushed 3.2:failed\ndiscarding 1.1\ndiscarded 1.1\nmended 1.1\ntime 0\nsealing 2.1\nsettled 2.1\nevicting 2.1\nevicted 2.1\nflushing 2.1\nindexing 2.1\nflushed 2.1\ngivenup 2.1 device 4 9\ngivenup 2.1 full 4 10 12\nfetching 3.1\nfetched 3.1\nfailing 3.1\nfailed 3.1\nstop ended\nstop script\nstop device 3 7\nstop full 32 10 12\nstop runs\nstop command\n";

pub(crate) const EACH_COMMAND_LINE: &[u8] =
    b"lost 17\nscavenging 4.1\nscavenged 4.1\nscavenged none\nscavenge device 3 7\nscavenge full 32 10 12\nscavenge cut\nindex list = none\nindex list = 1.1/a/flushed/ckpt* 2.1/b/failed/both\nindex list = device 32 5\nindex drop 4 = noentry\nindex current 5 = ok\nhalt clear = ok\nhalt checkpoints 3 = device 32 8\nhalt before 10 = full 32 5 6\nhalt after 11 = ok\nhalt seconds 12 = ok\nhalt reason drained = ok\n";

pub(crate) const EACH_ANSWER: &[u8] =
    b"reply 2 10 ok\nreply 2 10 yes\nreply 2 10 no\nreply 2 10 yes reason\nreply 2 10 yes checkpoints\nreply 2 10 yes after\nreply 2 10 yes before\nreply 2 10 ok 1.1\nreply 2 10 kept\nreply 2 10 notkept\nreply 2 10 none\nreply 2 10 1.1 a\nreply 2 10 failed\nreply 2 10 ok d.1.1.15.f.7.15\nreply 2 10 bytes -\nreply 2 10 bytes 00af\nreply 2 10 mismatch 5\nreply 2 10 phase idle\nreply 2 10 phase output\nreply 2 10 phase offered\nreply 2 10 phase restart\nreply 2 10 phase final\nreply 2 10 badname\nreply 2 10 nofile\nreply 2 10 limit\nreply 2 10 taken 1.1\nreply 2 10 device 3 7\nreply 2 10 full 3 10 12\n";

pub(crate) const EACH_STEP: &[u8] =
    b"call 1 3 need\ncall 1 3 start a output\ncall 1 3 start a both\ncall 1 3 complete invalid\ncall 1 3 restarted invalid\ncall 1 3 exit\ncall 1 3 finalize\nlocal 1 3 write = 7 text = = ok\nlocal 1 3 write f 7 hex 0a0b = ok\nlocal 1 3 write f 7 fill 3 99 = limit\nlocal 1 3 read f 5 6 = nofile\ndecided need yes\ndecided exit no\ndecided finalize ok\ndecided end ok\n";

#[test]
fn texts_read_back(rt: HostRuntime) -> Result<(), Fail> {
    for (text, lines) in [
        (b"".as_slice(), 0),
        (FIRST_PATH, 29),
        (EACH_RUN_LINE, 26),
        (EACH_COMMAND_LINE, 18),
        (EACH_ANSWER, 28),
        (EACH_STEP, 15),
    ] {
        let history = parse(rt.alloc(), text).ok().ok_or("a bad line")?;
        assert_eq!(rt; history.events().len(), lines);
        let printed = print(rt.alloc(), &history).ok().ok_or("no memory")?;
        assert_eq!(rt; printed.list(), text);
    }
    Ok(())
}

#[test]
fn bad_lines(rt: HostRuntime) {
    for (text, line) in [
        (b"lost 07\n".as_slice(), 1),
        (b"lost 256\n".as_slice(), 1),
        (b"lost  7\n".as_slice(), 1),
        (b"lost 7".as_slice(), 1),
        (b"lost 7\nlost 8".as_slice(), 2),
        (b"lost 7\n\nlost 8\n".as_slice(), 2),
        (b"lost 7\nlost 8\nlost x\n".as_slice(), 3),
        (b"local 0 3 read f 0 1 = bytes 6A\n".as_slice(), 1),
        (b"local 0 3 read f 0 1 = bytes 6\n".as_slice(), 1),
        (b"decided have phase done\n".as_slice(), 1),
        (b"local 0 2 route f = ok d.01.1.0.f.0.0\n".as_slice(), 1),
        (b"local 0 2 route f = ok d.1.1.16.f.0.0\n".as_slice(), 1),
        (b"call 1 3 write f 0 hex \n".as_slice(), 1),
        (b"run 1 at \n".as_slice(), 1),
        (b"found 1.1: |\n".as_slice(), 1),
        (b"found |1.1:flushed\n".as_slice(), 1),
        (b"index list = -\n".as_slice(), 1),
        (b"scavenge full 31 10 12\n".as_slice(), 1),
        (b"stop ended \n".as_slice(), 1),
    ] {
        let error = parse(rt.alloc(), text).err();
        assert_eq!(rt; error, Some(HistoryError::Bad { line }), "at {text:?}");
    }
}
