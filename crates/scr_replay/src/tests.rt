ghost use Rattle.std.specs.Prelude.{◌≤◌};
ghost use Rattle.node_device.specs.DeviceState.{IsDeviceName};

use crate::input::{Input, LONGEST_TEXT, ReadError, read_input};
use crate::output::put_all;
use crate::replay::replay;
use node_device::{Bay, MemDevice};
use scr_base::{
    Actor, Config, MemSink, MemSource, Memory, Scheme, Shape, Sink, SinkFailed, Source, Step,
    TickClock,
};
use site_core::Site;
use site_state::Turn;
use std::alloc::Global;
use std::test::Fail;

const SCRIPT: &str =
    "site 1 1 0\nset scheme single\nrun 0\nrank 0 start a ckpt\nrank 0 route f\nrank 0 write f 0 text abc\nrank 0 complete valid\nstop 0 end\nrun 0\nrank 0 have\nrank 0 restart\nrank 0 read f 0 3\nrank 0 restarted valid\nstop 0 end\n";

const SAVE: &str =
    "site 1 1 0\nset scheme single\nrun 0\nrank 0 start a ckpt\nrank 0 route f\nrank 0 write f 0 text abc\nrank 0 complete valid\nstop 0 end\n";

const NODES: &str =
    "site 2 2 1\nset scheme single\nrun 0,1\nrank all start a ckpt\nrank all route f\nrank all write f 0 fill 250 8\nrank all complete valid\nstop 0 end\nrun 0,1\nrank all have\nrank all restart\nrank all read f 0 8\nrank all restarted valid\nstop 0 end\n";

const TWO_SAVES: &str =
    "site 1 1 0\nset scheme single\nset cache 2\nrun 0\nrank 0 start a ckpt\nrank 0 route f\nrank 0 write f 0 text abc\nrank 0 complete valid\nstop 0 end\nrun 0\nrank 0 start b ckpt\nrank 0 route g\nrank 0 write g 0 text xyz\nrank 0 complete valid\nstop 0 end\nrun 0\nrank 0 have\nrank 0 restart\nrank 0 read g 0 3\nrank 0 restarted valid\nstop 0 end\n";

const RESTART_FIRST: &str = "site 1 1 0\nset scheme single\nrun 0\nrank 0 restart\nstop 0 end\n";

// One rank whose calls are refused in turn.
const REFUSED_CALLS: &str =
    "site 1 1 0\nset scheme single\nset cache 4\nrun 0\nrank 0 start .a ckpt\nrank 0 start a ckpt\nrank 0 route f\nrank 0 write g 0 text x\nrank 0 complete valid\nrank 0 start a ckpt\nrank 0 complete valid\nstop 0 end\n";

// A 17th file on line 21.
const ROUTES: &str =
    "site 1 1 0\nset scheme single\nrun 0\nrank 0 start a ckpt\nrank 0 route f1\nrank 0 route f2\nrank 0 route f3\nrank 0 route f4\nrank 0 route f5\nrank 0 route f6\nrank 0 route f7\nrank 0 route f8\nrank 0 route f9\nrank 0 route f10\nrank 0 route f11\nrank 0 route f12\nrank 0 route f13\nrank 0 route f14\nrank 0 route f15\nrank 0 route f16\nrank 0 route f17\nstop 0 end\n";

// Three ranks of which the last starts another dataset first.
const MISMATCH: &str =
    "site 3 1 0\nset scheme single\nrun 0,1,2\nrank 0-1 start a ckpt\nrank 2 start b ckpt\nrank all start c ckpt\nstop 0 end\n";

const MISMATCH_TOLD: &str =
    "run 1 at 0,1,2\nfound |\ncall 0 1 start a ckpt\ncall 1 1 start a ckpt\ncall 2 1 start b ckpt\ndecided start mismatch 2\nreply 1 1 mismatch 2\nreply 2 1 mismatch 2\nreply 0 1 mismatch 2\ncall 1 2 start c ckpt\ncall 2 2 start c ckpt\ncall 0 2 start c ckpt\ndecided start ok 1.1\nreply 2 2 ok 1.1\nreply 0 2 ok 1.1\nreply 1 2 ok 1.1\ncall 2 3 end\ncall 0 3 end\ncall 1 3 end\nstop ended\n";

// Two ranks whose first turns come in an order of the script's own: rank 1 in vain before the recovery, the whole recovery,
// rank 1 up to its first call, rank 0 up to its second one, and the encoder in vain.
const TURNS: &str =
    "site 2 1 0\nset scheme single\nrun 0,1\nrank all start a ckpt\nrank all complete valid\nturn rank 1 1\nturn recoverer 100\nturn rank 1 2\nturn rank 0 4\nturn encoder 5\nstop 0 end\n";

const TURNS_TOLD: &str =
    "run 1 at 0,1\nfound |\ncall 1 1 start a ckpt\ncall 0 1 start a ckpt\ndecided start ok 1.1\nreply 0 1 ok 1.1\ncall 0 2 complete valid\nreply 1 1 ok 1.1\ncall 1 2 complete valid\nsealing 1.1\nsettled 1.1\ndecided complete kept\nreply 1 2 kept\nreply 0 2 kept\ncall 1 3 end\ncall 0 3 end\nstop ended\n";

// Two ranks, one of which doesn't call its part valid.
const NOT_KEPT: &str =
    "site 2 1 0\nset scheme single\nrun 0,1\nrank all start a ckpt\nrank 0 complete valid\nrank 1 complete invalid\nstop 0 end\n";

const NOT_KEPT_TOLD: &str =
    "run 1 at 0,1\nfound |\ncall 0 1 start a ckpt\ncall 1 1 start a ckpt\ndecided start ok 1.1\nreply 1 1 ok 1.1\nreply 0 1 ok 1.1\ncall 1 2 complete invalid\ncall 0 2 complete valid\ndecided complete notkept\nreply 1 2 notkept\nreply 0 2 notkept\ncall 1 3 end\ncall 0 3 end\nstop ended\n";

// The first script where each device has room for two bytes, but the prefix.
const FULL_TOLD: &str =
    "run 1 at 0\nfound |\ncall 0 1 start a ckpt\ndecided start ok 1.1\nreply 0 1 ok 1.1\nlocal 0 2 route f = ok d.1.1.0.f.0.0\nlocal 0 3 write f 0 text abc = full 0 0 2\ncall 0 4 complete valid\ndecided complete full 0 0 2\nreply 0 4 full 0 0 2\ncall 0 5 end\nstop ended\nrun 2 at 0\nfound |\ncall 0 1 have\ndecided have none\nreply 0 1 none\ncall 0 2 restart\ndecided restart phase idle\nreply 0 2 phase idle\nlocal 0 3 read f 0 3 = phase idle\ncall 0 4 restarted valid\ndecided restarted phase idle\nreply 0 4 phase idle\ncall 0 5 end\nstop ended\n";

// Three questions for a checkpoint, which is wanted at each second one.
const QUESTIONS: &str =
    "site 1 1 0\nset scheme single\nset interval 2\nrun 0\nrank 0 need\nrank 0 need\nrank 0 need\nstop 0 end\n";

const QUESTIONS_TOLD: &str =
    "run 1 at 0\nfound |\ncall 0 1 need\ntime 0\ndecided need no\nreply 0 1 no\ncall 0 2 need\ntime 1\ndecided need yes\nreply 0 2 yes\ncall 0 3 need\ntime 2\ndecided need no\nreply 0 3 no\ncall 0 4 end\nstop ended\n";

// A question that one of three ranks doesn't ask: the clock isn't read.
const UNASKED: &str = "site 3 1 0\nset scheme single\nrun 0,1,2\nrank 0-1 need\nstop 0 end\n";

const UNASKED_TOLD: &str =
    "run 1 at 0,1,2\nfound |\ncall 0 1 need\ncall 1 1 need\ncall 2 1 end\ndecided need mismatch 2\nreply 1 1 mismatch 2\nreply 2 1 mismatch 2\nreply 0 1 mismatch 2\ncall 1 2 end\ncall 2 1 end\ncall 0 2 end\nstop ended\n";

// Conditions on which the job is to stop: set before a run, beside them another one, and all of them cleared.
const HALTS: &str =
    "site 1 1 0\nset scheme single\nhalt before 100\nhalt seconds 99\nrun 0\nrank 0 exit\nrank 0 exit\nstop 0 end\nhalt reason done\nrun 0\nrank 0 exit\nstop 0 end\nhalt clear\nrun 0\nrank 0 exit\nstop 0 end\n";

const HALTS_TOLD: &str =
    "halt before 100 = ok\nhalt seconds 99 = ok\nrun 1 at 0\nfound |\ncall 0 1 exit\ntime 0\ndecided exit no\nreply 0 1 no\ncall 0 2 exit\ntime 1\ndecided exit yes before\nreply 0 2 yes before\ncall 0 3 end\nstop ended\nhalt reason done = ok\nrun 2 at 0\nfound |\ncall 0 1 exit\ntime 2\ndecided exit yes reason\nreply 0 1 yes reason\ncall 0 2 end\nstop ended\nhalt clear = ok\nrun 3 at 0\nfound |\ncall 0 1 exit\ntime 3\ndecided exit no\nreply 0 1 no\ncall 0 2 end\nstop ended\n";

// Two checkpoints, of which the job is to make no more.
const CHECKPOINTS: &str =
    "site 1 1 0\nset scheme single\nset cache 2\nhalt checkpoints 2\nrun 0\nrank 0 start a ckpt\nrank 0 complete valid\nrank 0 exit\nrank 0 start b ckpt\nrank 0 complete valid\nrank 0 exit\nstop 0 end\n";

const FINALIZED: &str =
    "site 1 1 0\nset scheme single\nrun 0\nrank 0 finalize\nrank 0 have\nstop 0 end\n";

// A run that stops within its turn lines, and another one.
const ENDED_BY_TURNS: &str =
    "site 1 1 0\nset scheme single\nrun 0\nturn recoverer 100\nturn rank 0 100\nturn flusher 100\nstop 0 end\nrun 0\nstop 0 end\n";

const ENDED_BY_TURNS_TOLD: &str =
    "run 1 at 0\nfound |\ncall 0 1 end\nstop ended\nrun 2 at 0\nfound |\ncall 0 1 end\nstop ended\n";

// The member record that the first run leaves on node 0: both gates open, the body's length, and the tree
// DSET{FLAGS{ckpt} ID{1} NAME{a} RUN{1}} FILES{00{00{f{3}}}} FORMAT{1} NODE{0} SCHEME{SHARES{0} SIZE{8} TYPE{single}}
// SHAPE{NODES{1} RANKS{1}}.
const MEMBER: &[u8] =
    b"OO\x00\x00\x00\x00\x00\x00\x00\x00\x00\x00\x00\x00\x01\x15\x00\x00\x00\x06\x00\x04DSET\x00\x00\x00\x04\x00\x05FLAGS\x00\x00\x00\x01\x00\x04ckpt\x00\x00\x00\x00\x00\x02ID\x00\x00\x00\x01\x00\x011\x00\x00\x00\x00\x00\x04NAME\x00\x00\x00\x01\x00\x01a\x00\x00\x00\x00\x00\x03RUN\x00\x00\x00\x01\x00\x011\x00\x00\x00\x00\x00\x05FILES\x00\x00\x00\x01\x00\x0200\x00\x00\x00\x01\x00\x0200\x00\x00\x00\x01\x00\x01f\x00\x00\x00\x01\x00\x013\x00\x00\x00\x00\x00\x06FORMAT\x00\x00\x00\x01\x00\x011\x00\x00\x00\x00\x00\x04NODE\x00\x00\x00\x01\x00\x010\x00\x00\x00\x00\x00\x06SCHEME\x00\x00\x00\x03\x00\x06SHARES\x00\x00\x00\x01\x00\x010\x00\x00\x00\x00\x00\x04SIZE\x00\x00\x00\x01\x00\x018\x00\x00\x00\x00\x00\x04TYPE\x00\x00\x00\x01\x00\x06single\x00\x00\x00\x00\x00\x05SHAPE\x00\x00\x00\x02\x00\x05NODES\x00\x00\x00\x01\x00\x011\x00\x00\x00\x00\x00\x05RANKS\x00\x00\x00\x01\x00\x011\x00\x00\x00\x00";

// The copy of the run's number 1.
const NUMBER: &[u8] =
    b"O\x00\x00\x00\x00\x00\x00\x00\x00\x00\x00\x00\x00\x00\x00\x04\x00\x00\x00\x01";

const USAGE: &str = "usage: scr_replay run | gen SEED | script SEED\n";

const UNBUILT: &str = "refused line 0 reason 15\n";

const EMPTY: &str = "refused line 1 reason 4\n";

fn source(alloc: Global, text: &str, fail: &[u64]) -> Result<MemSource, Fail> {
    let bytes = text.as_bytes().to_vec(alloc)?;
    Ok(MemSource::new(bytes, fail.to_vec(alloc)?))
}

fn bay(alloc: Global, capacity: u64) -> Result<Bay<MemDevice>, Memory> {
    let mut nodes = Vec::with_capacity(alloc, 32)?;
    for place in 0..32u8 {
        let _ = place;
        nodes.push(MemDevice::new(alloc, capacity, Vec::new(alloc))?)?;
    }
    let prefix = MemDevice::new(alloc, 1000, Vec::new(alloc))?;
    Ok(Bay::new(nodes, prefix))
}

// The status and what the sink holds, in a fresh bay.
fn replayed(
    alloc: Global,
    word: &str,
    mut source: MemSource,
    mut sink: MemSink,
    capacity: u64,
) -> Result<(u8, MemSink), Fail> {
    let words = vec![in alloc; String::from_str(alloc, word)?]?;
    let Ok(bay) = bay(alloc, capacity) else {
        return Ok((5, sink));
    };
    let mut clock = TickClock::new();
    let ran = replay(alloc, &words, &mut source, &mut sink, bay, &mut clock);
    Ok((ran.status, sink))
}

// The same without faults, on ample devices.
fn told(alloc: Global, text: &str) -> Result<(u8, MemSink), Fail> {
    let source = source(alloc, text, &[])?;
    let sink = MemSink::new(alloc, Vec::new(alloc));
    replayed(alloc, "run", source, sink, 10_000)
}

// The script's text with one piece of it changed.
fn changed(alloc: Global, script: &str, old: &str, new: &str) -> Result<String, Fail> {
    Ok(script.replace(alloc, old, new)?)
}

#[test]
fn reads_to_the_end_and_no_further(rt: HostRuntime) -> Result<(), Fail> {
    let alloc = rt.alloc();
    let mut whole = source(alloc, SCRIPT, &[])?;
    match read_input(alloc, &mut whole) {
        Ok(Input::Whole(text)) => assert_eq!(rt; text.list(), SCRIPT.as_bytes()),
        _ => assert!(rt; false, "not read"),
    }
    let mut failing = source(alloc, SCRIPT, &[2])?;
    assert!(rt; matches!(read_input(alloc, &mut failing), Err(ReadError::Failed)));
    assert_eq!(rt; failing.faults(), 1);
    for (len, fits) in [(LONGEST_TEXT, true), (LONGEST_TEXT + 1, false)] {
        let mut long = MemSource::new(vec![in alloc; b'#'; len]?, Vec::new(alloc));
        let read = read_input(alloc, &mut long);
        assert_eq!(rt; matches!(read, Ok(Input::Whole(_))), fits);
        assert_eq!(rt; matches!(read, Ok(Input::TooLong)), !fits);
    }
    Ok(())
}

#[test]
fn puts_a_front_before_a_fault(rt: HostRuntime) -> Result<(), Fail> {
    let alloc = rt.alloc();
    let mut sink = MemSink::new(alloc, [2].to_vec(alloc)?);
    assert_eq!(rt; put_all(&mut sink, b"ab"), Ok(()));
    assert_eq!(rt; put_all(&mut sink, b"cd"), Err(SinkFailed));
    assert_eq!(rt; sink.bytes(), b"ab".as_slice());
    assert_eq!(rt; sink.faults(), 1);
    Ok(())
}

#[test]
fn ends_with_its_status(rt: HostRuntime) -> Result<(), Fail> {
    let alloc = rt.alloc();
    let table = [
        ("go", SCRIPT, 0, 0, 1, USAGE),
        ("-run", SCRIPT, 0, 0, 1, USAGE),
        ("run", "", 0, 0, 2, EMPTY),
        ("run", SCRIPT, 1, 0, 3, ""),
        ("go", SCRIPT, 1, 0, 1, USAGE),
        ("run", "", 0, 1, 4, ""),
        ("go", SCRIPT, 0, 1, 4, ""),
    ];
    for (word, text, source_fault, sink_fault, status, printed) in table {
        let source = source(alloc, text, &[source_fault])?;
        let sink = MemSink::new(alloc, [sink_fault].to_vec(alloc)?);
        let (ended, sink) = replayed(alloc, word, source, sink, 1000)?;
        assert_eq!(rt; ended, status);
        assert_eq!(rt; sink.bytes(), printed.as_bytes());
    }
    Ok(())
}

#[test]
fn refuses_what_is_no_script(rt: HostRuntime) -> Result<(), Fail> {
    let alloc = rt.alloc();
    let table = [
        ("", EMPTY),
        ("run 0\n", EMPTY),
        ("site 1 1 0\n", "refused line 2 reason 12\n"),
        (ROUTES, "refused line 21 reason 9\n"),
    ];
    for (text, want) in table {
        let (status, sink) = told(alloc, text)?;
        assert_eq!(rt; status, 2, "at {want}");
        assert_eq!(rt; sink.bytes(), want.as_bytes(), "at {want}");
    }
    Ok(())
}

#[test]
fn refuses_what_is_not_built(rt: HostRuntime) -> Result<(), Fail> {
    let alloc = rt.alloc();
    let table = [
        (
            SCRIPT,
            "scheme single",
            "size 8",
            "refused line 3 reason 12\n",
        ),
        (SCRIPT, "run 0\n", "run 1\n", "refused line 3 reason 8\n"),
        (
            SCRIPT,
            "stop 0 end\n",
            "stop 0 end",
            "refused line 8 reason 1\n",
        ),
        (
            SCRIPT,
            "read f 0 3",
            "read f 00 3",
            "refused line 12 reason 2\n",
        ),
        (NODES, "set scheme single\n", "", UNBUILT),
        (NODES, "scheme single", "scheme partner", UNBUILT),
        (NODES, "scheme single", "scheme rs\nset shares 1", UNBUILT),
        (SCRIPT, "stop 0 end\n", "stop 0 end\nlose 0\n", UNBUILT),
        (SCRIPT, "stop 0 end\n", "stop 0 end\nscavenge\n", UNBUILT),
        (SCRIPT, "stop 0 end\n", "stop 0 end\nindex list\n", UNBUILT),
        (
            SCRIPT,
            "stop 0 end\n",
            "stop 0 end\nindex current 1\n",
            UNBUILT,
        ),
        (SCRIPT, "restarted valid", "restarted invalid", UNBUILT),
        (
            NODES,
            "rank all restarted valid",
            "rank 0-2 restarted valid\nrank 3 restarted invalid",
            UNBUILT,
        ),
        (SCRIPT, "rank 0 have", "rank 0 start b ckpt", UNBUILT),
        (
            SCRIPT,
            "rank 0 start",
            "rank 0 complete valid\nrank 0 start",
            UNBUILT,
        ),
        (TWO_SAVES, "cache 2", "cache 1", UNBUILT),
        (SCRIPT, "a ckpt", "a output", UNBUILT),
        (SCRIPT, "a ckpt", "a both", UNBUILT),
        (
            NODES,
            "rank all start a ckpt",
            "rank 0-2 start a ckpt\nrank 3 start a both",
            UNBUILT,
        ),
        (SCRIPT, "single\n", "single\nset flush 1\n", UNBUILT),
        (TWO_SAVES, "cache 2", "cache 2\nset flush 2", UNBUILT),
        (NODES, "run 0,1", "run 1,0", UNBUILT),
        (NODES, "run 0,1", "run 0,2", UNBUILT),
        (SCRIPT, "stop 0 end", "stop 1 end", UNBUILT),
        (SCRIPT, "stop 0 end", "stop 0 after 3", UNBUILT),
        (SCRIPT, "stop 0 end", "stop 0 on stop ended", UNBUILT),
    ];
    for (script, old, new, want) in table {
        let text = changed(alloc, script, old, new)?;
        let (status, sink) = told(alloc, text.as_str())?;
        assert_eq!(rt; status, 2, "at {new}");
        assert_eq!(rt; sink.bytes(), want.as_bytes(), "at {new}");
    }
    Ok(())
}

#[test]
fn runs_what_is_built(rt: HostRuntime) -> Result<(), Fail> {
    let alloc = rt.alloc();
    let table = [
        (SCRIPT, "single\n", "single\nset flush 0\n", "settled 1.1\n"),
        (SCRIPT, "single\n", "single\nset flush 2\n", "settled 1.1\n"),
        (
            TWO_SAVES,
            "cache 2",
            "cache 2\nset flush 3",
            "settled 2.2\n",
        ),
        (SCRIPT, "single\n", "single\nset size 4\n", "settled 1.1\n"),
        (
            SCRIPT,
            "single\n",
            "single\nset interval 2\n",
            "settled 1.1\n",
        ),
        (
            SCRIPT,
            "rank 0 route",
            "rank 0 start b ckpt\nrank 0 route",
            "decided start phase output\n",
        ),
        (
            NODES,
            "rank all start a",
            "rank 1-3 complete valid\nrank 0 have\nrank all start a",
            "decided have mismatch 1\n",
        ),
        (
            SCRIPT,
            "rank 0 start",
            "turn evictor 3\nstop 0 end\nrun 0\nrank 0 start",
            "settled 1.2\n",
        ),
    ];
    for (script, old, new, want) in table {
        let text = changed(alloc, script, old, new)?;
        let (status, sink) = told(alloc, text.as_str())?;
        assert_eq!(rt; status, 0, "at {new}");
        let Ok(printed) = str::from_utf8(sink.bytes()) else {
            return Ok(assert!(rt; false, "no text"));
        };
        assert!(rt; printed.contains(want), "at {new}");
        assert!(rt; printed.ends_with("end\nstop ended\n"));
    }
    Ok(())
}

#[test]
fn answers_calls_that_are_refused(rt: HostRuntime) -> Result<(), Fail> {
    let alloc = rt.alloc();
    let table = [
        (
            RESTART_FIRST,
            "decided restart phase idle\nreply 0 1 phase idle\n",
        ),
        (REFUSED_CALLS, "decided start badname\nreply 0 1 badname\n"),
        (REFUSED_CALLS, "local 0 4 write g 0 text x = nofile\n"),
        (
            REFUSED_CALLS,
            "decided start taken 1.1\nreply 0 6 taken 1.1\n",
        ),
        (
            REFUSED_CALLS,
            "decided complete phase idle\nreply 0 7 phase idle\n",
        ),
        (
            FINALIZED,
            "decided finalize ok\nreply 0 1 ok\ncall 0 2 have\ndecided have phase final\n",
        ),
        (CHECKPOINTS, "time 0\ndecided exit no\n"),
        (CHECKPOINTS, "time 1\ndecided exit yes checkpoints\n"),
    ];
    for (text, want) in table {
        let (status, sink) = told(alloc, text)?;
        assert_eq!(rt; status, 0, "at {want}");
        let Ok(printed) = str::from_utf8(sink.bytes()) else {
            return Ok(assert!(rt; false, "no text"));
        };
        assert!(rt; printed.contains(want), "at {want}");
    }
    Ok(())
}

#[test]
fn tells_the_whole_history(rt: HostRuntime) -> Result<(), Fail> {
    let alloc = rt.alloc();
    let table = [
        (MISMATCH, MISMATCH_TOLD),
        (TURNS, TURNS_TOLD),
        (ENDED_BY_TURNS, ENDED_BY_TURNS_TOLD),
        (NOT_KEPT, NOT_KEPT_TOLD),
        (QUESTIONS, QUESTIONS_TOLD),
        (UNASKED, UNASKED_TOLD),
        (HALTS, HALTS_TOLD),
    ];
    for (text, want) in table {
        let (status, sink) = told(alloc, text)?;
        assert_eq!(rt; status, 0);
        assert_eq!(rt; str::from_utf8(sink.bytes()), Ok(want));
    }
    Ok(())
}

#[test]
fn reads_back_what_was_written(rt: HostRuntime) -> Result<(), Fail> {
    let alloc = rt.alloc();
    let table = [
        (SCRIPT, "abc", "abc", "read f 0 3 = bytes 616263\n"),
        (
            SCRIPT,
            "read f 0 3",
            "read f 1 1",
            "read f 1 1 = bytes 62\n",
        ),
        (SCRIPT, "read f 0 3", "read f 3 9", "read f 3 9 = bytes -\n"),
        (
            SCRIPT,
            "f 0 text abc",
            "f 0 hex 00ff",
            "read f 0 3 = bytes 00ff\n",
        ),
        (
            SCRIPT,
            "scheme single",
            "scheme single\nset size 8",
            "bytes 616263\n",
        ),
        (
            TWO_SAVES,
            "abc",
            "abc",
            "call 0 1 have\ndecided have 2.2 b\n",
        ),
        (TWO_SAVES, "abc", "abc", "read g 0 3 = bytes 78797a\n"),
        (
            NODES,
            "all",
            "all",
            "local 3 2 route f = ok d.1.1.1.f.1.0\n",
        ),
        (
            NODES,
            "all",
            "all",
            "local 0 3 read f 0 8 = bytes fafbfcfdfeff0001\n",
        ),
        (
            NODES,
            "all",
            "all",
            "local 1 3 read f 0 8 = bytes 0102030405060708\n",
        ),
        (
            NODES,
            "all",
            "all",
            "local 3 3 read f 0 8 = bytes 0f10111213141516\n",
        ),
    ];
    for (script, old, new, want) in table {
        let text = changed(alloc, script, old, new)?;
        let (status, sink) = told(alloc, text.as_str())?;
        assert_eq!(rt; status, 0, "at {want}");
        let Ok(printed) = str::from_utf8(sink.bytes()) else {
            return Ok(assert!(rt; false, "no text"));
        };
        assert!(rt; printed.contains(want), "at {want}");
        assert!(rt; printed.ends_with("end\nstop ended\n"));
    }
    Ok(())
}

#[test]
fn tells_a_full_device_and_ends_at_a_failing_sink(rt: HostRuntime) -> Result<(), Fail> {
    let alloc = rt.alloc();
    let full = source(alloc, SCRIPT, &[])?;
    let sink = MemSink::new(alloc, Vec::new(alloc));
    let (ended, sink) = replayed(alloc, "run", full, sink, 2)?;
    assert_eq!(rt; ended, 0);
    assert_eq!(rt; str::from_utf8(sink.bytes()), Ok(FULL_TOLD));
    let text = source(alloc, SCRIPT, &[])?;
    let failing = MemSink::new(alloc, [2].to_vec(alloc)?);
    let (ended, _) = replayed(alloc, "run", text, failing, 1000)?;
    assert_eq!(rt; ended, 4);
    Ok(())
}

// A bay of which one device fails in one call.
fn failing_bay(alloc: Global, failing: u8, call: u64) -> Result<Bay<MemDevice>, Memory> {
    let mut nodes = Vec::with_capacity(alloc, 32)?;
    for place in 0..32u8 {
        let calls = if place == failing { call } else { 0 };
        nodes.push(MemDevice::new(alloc, 10_000, [calls].to_vec(alloc)?)?)?;
    }
    let calls = if failing == 32 { call } else { 0 };
    let prefix = MemDevice::new(alloc, 1000, [calls].to_vec(alloc)?)?;
    Ok(Bay::new(nodes, prefix))
}

// Whatever call of a device fails, the call ends well, each line that tells of a device names that one and its first fault,
// and what the next run finds is what it offers.
#[test]
fn tells_each_fault_of_each_device(rt: HostRuntime) -> Result<(), Fail> {
    let alloc = rt.alloc();
    let words = vec![in alloc; String::from_str(alloc, "run")?]?;
    for (failing, name) in [(0u8, " device 0 1\n"), (32, " device 32 1\n")] {
        let mut faults: u64 = 0;
        let mut last = 0;
        for call in 1..60u64 {
            let mut source = source(alloc, SCRIPT, &[])?;
            let mut sink = MemSink::new(alloc, Vec::new(alloc));
            let mut clock = TickClock::new();
            let Ok(bay) = failing_bay(alloc, failing, call) else {
                return Ok(assert!(rt; false, "no bay"));
            };
            let ran = replay(alloc, &words, &mut source, &mut sink, bay, &mut clock);
            assert_eq!(rt; ran.status, 0, "at call {call} of {failing}");
            let Ok(printed) = str::from_utf8(sink.bytes()) else {
                return Ok(assert!(rt; false, "no text"));
            };
            if printed.contains(name) {
                faults = faults.saturating_add(1);
                last = call;
            }
            let others = printed.replace(alloc, name, "\n")?;
            assert!(rt; !others.contains("device"), "at call {call} of {failing}");
            let found = printed.contains("found 1.1:- |\n");
            assert_eq!(rt;
                printed.contains("decided have 1.1 a\n"),
                found && printed.contains("call 0 1 have\n"),
                "at call {call} of {failing}"
            );
        }
        assert!(rt; faults > 5 && last == faults && last < 59, "of {failing}");
    }
    Ok(())
}

// The first script where node 0 fails in its eighth call, its write of the gate `sealed`: nothing is sealed, so nothing is found.
const SEALED_WRITE_FAILS: &str =
    "run 1 at 0\nfound |\ncall 0 1 start a ckpt\ndecided start ok 1.1\nreply 0 1 ok 1.1\nlocal 0 2 route f = ok d.1.1.0.f.0.0\nlocal 0 3 write f 0 text abc = ok\ncall 0 4 complete valid\nstop device 0 1\nrun 2 at 0\nfound |\ncall 0 1 have\ndecided have none\nreply 0 1 none\ncall 0 2 restart\ndecided restart phase idle\nreply 0 2 phase idle\nlocal 0 3 read f 0 3 = phase idle\ncall 0 4 restarted valid\ndecided restarted phase idle\nreply 0 4 phase idle\ncall 0 5 end\nstop ended\n";

// The same where the sync behind that write fails: the gate is written, and the dataset is found and offered.
const SEALED_SYNC_FAILS: &str =
    "run 1 at 0\nfound |\ncall 0 1 start a ckpt\ndecided start ok 1.1\nreply 0 1 ok 1.1\nlocal 0 2 route f = ok d.1.1.0.f.0.0\nlocal 0 3 write f 0 text abc = ok\ncall 0 4 complete valid\nsealing 1.1\nstop device 0 1\nrun 2 at 0\nfound 1.1:- |\nmended 1.1\ncall 0 1 have\ndecided have 1.1 a\nreply 0 1 1.1 a\ncall 0 2 restart\ndecided restart ok\nreply 0 2 ok\nlocal 0 3 read f 0 3 = bytes 616263\ncall 0 4 restarted valid\ndecided restarted ok\nreply 0 4 ok\ncall 0 5 end\nstop ended\n";

// Of node 0's calls, two take the file and its bytes, and three pairs of a write and a sync the record, the gate `whole`
// and the gate `sealed`; the first is the look of the run's beginning.
#[test]
fn finds_nothing_where_the_sealed_gate_is_not_written(rt: HostRuntime) -> Result<(), Fail> {
    let alloc = rt.alloc();
    let words = vec![in alloc; String::from_str(alloc, "run")?]?;
    for (call, text) in [(8, SEALED_WRITE_FAILS), (9, SEALED_SYNC_FAILS)] {
        let mut source = source(alloc, SCRIPT, &[])?;
        let mut sink = MemSink::new(alloc, Vec::new(alloc));
        let mut clock = TickClock::new();
        let Ok(bay) = failing_bay(alloc, 0, call) else {
            return Ok(assert!(rt; false, "no bay"));
        };
        let ran = replay(alloc, &words, &mut source, &mut sink, bay, &mut clock);
        assert_eq!(rt; ran.status, 0, "at call {call}");
        assert_eq!(rt; sink.bytes(), text.as_bytes(), "at call {call}");
    }
    Ok(())
}

// Whatever call of the prefix fails in commands between runs: one alone is refused, which ends with a stop, or a run ends.
#[test]
fn stops_behind_a_refused_command(rt: HostRuntime) -> Result<(), Fail> {
    let alloc = rt.alloc();
    let words = vec![in alloc; String::from_str(alloc, "run")?]?;
    let mut refused: u64 = 0;
    for call in 1..60u64 {
        let mut source = source(alloc, HALTS, &[])?;
        let mut sink = MemSink::new(alloc, Vec::new(alloc));
        let mut clock = TickClock::new();
        let Ok(bay) = failing_bay(alloc, 32, call) else {
            return Ok(assert!(rt; false, "no bay"));
        };
        let ran = replay(alloc, &words, &mut source, &mut sink, bay, &mut clock);
        assert_eq!(rt; ran.status, 0, "at call {call}");
        let Ok(printed) = str::from_utf8(sink.bytes()) else {
            return Ok(assert!(rt; false, "no text"));
        };
        let others = printed.replace(alloc, " = device 32 1\nstop command\n", "\n")?;
        if others.as_str() != printed {
            refused = refused.saturating_add(1);
        }
        assert!(rt; !others.contains("command"), "at call {call}");
    }
    assert!(rt; refused > 10, "{refused}");
    Ok(())
}

// A run whose program grows while it goes on: it takes steps up to its End, and is ended from outside.
#[test]
fn takes_steps_until_it_is_ended(rt: HostRuntime) -> Result<(), Fail> {
    let alloc = rt.alloc();
    let config = Config {
        scheme: Scheme::Single,
        size: 8,
        cache: 1,
        flush: 0,
        interval: 1,
    };
    let Ok(bay) = bay(alloc, 10_000) else {
        return Ok(assert!(rt; false, "no bay"));
    };
    let Some(shape) = Shape::new(1, 1, 0) else {
        return Ok(assert!(rt; false, "no shape"));
    };
    let places = vec![in alloc; 0u8]?;
    let mut programs = Vec::new(alloc);
    programs.push(Vec::new(alloc))?;
    let Ok(mut site) = Site::begin(alloc, bay, shape, config, places, programs) else {
        return Ok(assert!(rt; false, "not begun"));
    };
    assert!(rt; site.takes_steps(0));
    assert!(rt; site.ask(0, Step::End).is_ok());
    assert!(rt; !site.takes_steps(0));
    assert!(rt; matches!(site.turn(Actor::Recoverer), Ok(Turn::Moved)));
    assert_eq!(rt; site.moves(), 1);
    site.halt_now();
    assert!(rt; site.stopped());
    assert!(rt; matches!(site.turn(Actor::Recoverer), Ok(Turn::Ended)));
    assert_eq!(rt; site.moves(), 1);
    assert_eq!(rt; site.history().events().len(), 1);
    Ok(())
}

// A file's bytes, as many as wanted, and its length.
fn file_at(
    alloc: Global,
    bay: &mut Bay<MemDevice>,
    place: u8,
    name: &[u8],
    len: usize,
) -> Result<(u64, Vec<u8>), Fail>
    requires place { place ≤ 32 }
    requires name { IsDeviceName name.now }
{
    let mut bytes = vec![in alloc; 0u8; len]?;
    let size = bay.size_at(place, name).unwrap_or(0);
    let _ = bay.read_at(place, name, 0, &mut bytes);
    Ok((size, bytes))
}

#[test]
fn leaves_records_in_their_formats(rt: HostRuntime) -> Result<(), Fail> {
    let alloc = rt.alloc();
    let words = vec![in alloc; String::from_str(alloc, "run")?]?;
    let mut source = source(alloc, SAVE, &[])?;
    let mut sink = MemSink::new(alloc, Vec::new(alloc));
    let mut clock = TickClock::new();
    let Ok(bay) = bay(alloc, 10_000) else {
        return Ok(assert!(rt; false, "no bay"));
    };
    let ran = replay(alloc, &words, &mut source, &mut sink, bay, &mut clock);
    assert_eq!(rt; ran.status, 0);
    let mut left = ran.bay;
    let (size, member) = file_at(alloc, &mut left, 0, b"d.1.1.0.m", MEMBER.len())?;
    assert_eq!(rt; size, 293);
    assert!(rt; member.as_slice() == MEMBER);
    let (size, number) = file_at(alloc, &mut left, 32, b"run.1", NUMBER.len())?;
    assert_eq!(rt; size, 20);
    assert!(rt; number.as_slice() == NUMBER);
    Ok(())
}
