use scr_base::{Config, Content, Scheme, Step};
use script_gen::generate;
use script_reader::{Item, Script, ScriptError, read_script};
use std::alloc::Global;
use std::test::Fail;

/// The fault of a text, or 0 and 0 for a script.
fn answer(alloc: Global, text: &[u8]) -> Result<(u32, u8), Fail> {
    match read_script(alloc, text) {
        Ok(_) => Ok((0, 0)),
        Err(ScriptError::Fault { line, reason }) => Ok((line, reason)),
        Err(ScriptError::Memory) => Err("no memory".into()),
    }
}

/// A text, the same piece so many times, and a text.
fn repeated(
    alloc: Global,
    before: &str,
    piece: &str,
    times: u32,
    behind: &str,
) -> Result<String, Fail> {
    let mut text = String::new(alloc);
    text.push_str(before)?;
    for _ in 0..times {
        text.push_str(piece)?;
    }
    text.push_str(behind)?;
    Ok(text)
}

#[test]
fn first_scripts_are_read(rt: HostRuntime) -> Result<(), Fail> {
    for text in [
        "site 1 1 0\nset scheme single\nrun 0\nrank 0 start a ckpt\nrank 0 route f\nrank 0 write f 0 text abc\nrank 0 complete valid\nstop 0 end\nrun 0\nrank 0 have\nrank 0 restart\nrank 0 read f 0 3\nrank 0 restarted valid\nstop 0 end\n",
        "# a job\n\nsite 3 1 0\nset scheme rs\nset shares 2\n",
        "site 8 2 1\nset scheme rs\nset shares 3\nset size 8\nset cache 2\nset flush 3\nrun 0,1,2,3,4,5,6,8\nrank all start c1 both\nrank 0-7 route f\nrank 8 route g\nturn rank 15 2\nstop 3 on settled 1.1\nlose 8\nscavenge\nindex list\n",
    ] {
        assert_eq!(rt; answer(rt.alloc(), text.as_bytes())?, (0, 0), "{text}");
    }
    Ok(())
}

#[test]
fn whole_texts(rt: HostRuntime) -> Result<(), Fail> {
    for (text, fault) in [
        ("", (1, 4)),
        ("\n# nothing\n", (3, 4)),
        ("run 0\n", (1, 4)),
        ("site 1 1 0\n", (2, 12)),
        ("site 1 1 0\n# x\n\n", (4, 12)),
        ("site 9 8 0\n", (1, 2)),
        ("site 3 1 0\nset scheme rs\nset shares 3\n", (4, 12)),
        ("site 3 1 0\nset scheme rs\nset shares 3\nlose 0\n", (4, 12)),
        ("site 2 1 0\n", (0, 0)),
        ("site 1 1 0", (1, 14)),
        ("site 2 1 0\nrun 0,0\n", (2, 8)),
        ("site 2 1 0\nrun 0,1\n", (3, 6)),
        ("site 2 1 0\nrun 0,1\nstop 0 end\n#", (4, 14)),
        ("site 2 1 0\nsite 2 1 0\n", (2, 6)),
        ("site 2 1 0\nset cache 2\nset cache 2\n", (3, 5)),
        ("site 2 1 0\nlose 0\nset cache 2\n", (3, 6)),
        ("site 2 1 0\nrun 0,1\nturn evictor 1\nrank 0 need\n", (4, 6)),
        ("site 2 1 0\nrun 0,1\nset cache 2\n", (3, 6)),
        ("site 2 1 0\nstop 0 end\n", (2, 6)),
        ("site 2 1 0\nrun 0,1\nlose 0\n", (3, 6)),
    ] {
        assert_eq!(rt; answer(rt.alloc(), text.as_bytes())?, fault, "{text}");
    }
    Ok(())
}

/// The reason for which a line of a run on two nodes with two ranks each and a spare is refused.
fn reason_in_run(alloc: Global, line: &str) -> Result<u8, Fail> {
    let mut text = String::new(alloc);
    text.push_str("site 2 2 1\nrun 0,2\n")?;
    text.push_str(line)?;
    text.push_str("\nstop 0 end\n")?;
    let (at, reason) = answer(alloc, text.as_bytes())?;
    Ok(if at == 0 || at == 3 { reason } else { 99 })
}

/// The reason for which a line behind the settings of that site is refused, or one at its end.
fn reason_of(alloc: Global, line: &str) -> Result<u8, Fail> {
    let mut text = String::new(alloc);
    text.push_str("site 2 2 1\n")?;
    text.push_str(line)?;
    text.push_str("\n")?;
    let (at, reason) = answer(alloc, text.as_bytes())?;
    Ok(if at == 0 || at == 2 { reason } else { 99 })
}

#[test]
fn lines_of_a_run(rt: HostRuntime) -> Result<(), Fail> {
    for (line, reason) in [
        ("rank all need", 0),
        ("rank 3 exit", 0),
        ("rank 0-3 finalize", 0),
        ("rank 2-2 have", 0),
        ("rank 2-1 have", 7),
        ("rank 4 have", 7),
        ("rank 0-4 have", 7),
        ("rank 01 have", 7),
        ("rank 1- have", 7),
        ("rank all- have", 7),
        ("rank All have", 7),
        ("rank 0 start a ckpt", 0),
        ("rank 0 start a output", 0),
        ("rank 0 start a none", 1),
        ("rank 0 start a", 1),
        ("rank 0 complete valid", 0),
        ("rank 0 complete true", 1),
        ("rank 0 restarted invalid", 0),
        ("rank 0 route f", 0),
        ("rank 0 write f 0 text abc", 0),
        ("rank 0 write f 1048573 text abc", 0),
        ("rank 0 write f 1048574 text abc", 10),
        ("rank 0 write f 1048577 text abc", 2),
        ("rank 0 write f 0 hex 00ff", 0),
        ("rank 0 write f 0 hex 0", 2),
        ("rank 0 write f 0 hex 0F", 2),
        ("rank 0 write f 1048575 hex 0000", 10),
        ("rank 0 write f 0 fill 255 1048576", 0),
        ("rank 0 write f 1 fill 1 1048576", 10),
        ("rank 0 write f 0 fill 256 1", 2),
        ("rank 0 write f 0 fill 1 1048577", 2),
        ("rank 0 write f 0 fill 1", 1),
        ("rank 0 read f 1048576 1048576", 0),
        ("rank 0 read f 0 1048577", 2),
        ("rank 0 read f 0", 1),
        ("rank 0 end", 1),
        ("rank 0  need", 1),
        ("rank 0 need ", 1),
        (" rank 0 need", 1),
        ("turn rank 3 1", 0),
        ("turn rank 4 1", 7),
        ("turn rank 4 0", 2),
        ("turn recoverer 1000000", 0),
        ("turn encoder 0", 2),
        ("turn flusher 1000001", 2),
        ("turn evictor 01", 2),
        ("turn worker 1", 1),
        ("\u{7f}", 13),
        ("need", 1),
    ] {
        assert_eq!(rt; reason_in_run(rt.alloc(), line)?, reason, "{line}");
    }
    Ok(())
}

#[test]
fn other_lines(rt: HostRuntime) -> Result<(), Fail> {
    for (line, reason) in [
        ("set scheme partner", 0),
        ("set scheme raid", 1),
        ("set shares 15", 0),
        ("set shares 16", 2),
        ("set size 16", 0),
        ("set size 1", 2),
        ("set cache 4", 0),
        ("set cache 5", 2),
        ("set flush 1000000", 0),
        ("set flush 1000001", 2),
        ("set interval 1000000", 0),
        ("set interval 0", 2),
        ("set speed 1", 1),
        ("run 0", 8),
        ("run 0,1,2", 8),
        ("run 0,3", 8),
        ("run 0,", 8),
        ("run 0, 1", 1),
        ("lose 2", 0),
        ("lose 3", 8),
        ("lose x", 8),
        ("lose", 1),
        ("scavenge", 0),
        ("scavenge cut 3 9999999999", 0),
        ("scavenge cut 4 0", 2),
        ("scavenge cut 0 10000000000", 2),
        ("scavenge now", 1),
        ("index list", 0),
        ("index drop 4294967295", 0),
        ("index drop 4294967296", 2),
        ("index current 0", 2),
        ("index delete 1", 1),
        ("halt checkpoints 4294967295", 0),
        ("halt checkpoints 4294967296", 2),
        ("halt before 9999999999", 0),
        ("halt after 0", 0),
        ("halt seconds 00", 2),
        ("halt reason done", 0),
        ("halt reason .done", 3),
        ("halt clear", 0),
        ("halt clear now", 1),
        ("site", 1),
        ("rank 0 need", 6),
    ] {
        assert_eq!(rt; reason_of(rt.alloc(), line)?, reason, "{line}");
    }
    Ok(())
}

#[test]
fn places_of_a_stop(rt: HostRuntime) -> Result<(), Fail> {
    for (line, fault) in [
        ("stop 3 after 9999999999\n", (0, 0)),
        ("stop 4 end\n", (3, 2)),
        ("stop 0 after\n", (3, 1)),
        ("stop 0 on a b c\n", (0, 0)),
        ("stop 0 on a  c\n", (3, 1)),
        ("stop 0 on\n", (3, 1)),
        ("stop 0 end\nstop 0 end\n", (4, 6)),
    ] {
        let text = repeated(rt.alloc(), "site 2 1 0\nrun 0,1\n", line, 1, "")?;
        assert_eq!(rt; answer(rt.alloc(), text.as_bytes())?, fault, "{line}");
    }
    for (times, fault) in [(200, (0, 0)), (201, (3, 1))] {
        let text = repeated(
            rt.alloc(),
            "site 2 1 0\nrun 0,1\nstop 0 on ",
            "x",
            times,
            "\n",
        )?;
        assert_eq!(rt; answer(rt.alloc(), text.as_bytes())?, fault);
    }
    Ok(())
}

// Two reasons in one line: the first of the order.
#[test]
fn first_reason_of_a_line(rt: HostRuntime) -> Result<(), Fail> {
    let word = "w123456789w123456789w123456789w123456789w123456789w123456789w123456789w123456789x";
    for (head, line, behind, fault) in [
        ("site 2 1 0\n", "\u{7f}", "", (2, 14)),
        ("site 2 1 0\n", "what \u{7f}\n", "", (2, 13)),
        ("", "what\n", "", (1, 1)),
        ("", "rank 0 need\n", "", (1, 4)),
        (
            "site 2 1 0\nset size 3\nlose 0\n",
            "set size 3\n",
            "",
            (4, 6),
        ),
        ("site 1 1 0\n", "stop 0 end\n", "", (2, 6)),
        ("site 2 1 0\nset size 3\n", "set size x\n", "", (3, 5)),
        ("site 1 1 0\n", "scavenge cut 4 0\n", "", (2, 12)),
        (
            "site 2 1 0\nrun 0,1\nrank 9 start ",
            word,
            " ckpt\n",
            (3, 3),
        ),
        ("site 2 1 0\nrun 0,1\nrank 9 read ", word, " x 0\n", (3, 2)),
        (
            "site 2 1 0\nrun 0,1\nrank 9 write ",
            word,
            " 1048576 text x\n",
            (3, 3),
        ),
        (
            "site 2 1 0\nrun 0,1\n",
            "rank 9 write f 1048576 text x\n",
            "",
            (3, 7),
        ),
    ] {
        let text = repeated(rt.alloc(), head, line, 1, behind)?;
        assert_eq!(rt; answer(rt.alloc(), text.as_bytes())?, fault, "{text}");
    }
    Ok(())
}

// Limits that many lines, or long ones, come to.
#[test]
fn limits_of_a_script(rt: HostRuntime) -> Result<(), Fail> {
    let alloc = rt.alloc();
    let run = "site 16 4 0\nrun 0,1,2,3,4,5,6,7,8,9,10,11,12,13,14,15\n";
    for (before, piece, times, behind, fault) in [
        (run, "rank all need\n", 1024, "stop 0 end\n", (0, 0)),
        (run, "rank all need\n", 1025, "stop 0 end\n", (1027, 11)),
        (
            run,
            "rank 63 write f 0 fill 1 1048576\n",
            65,
            "stop 0 end\n",
            (67, 11),
        ),
        (
            run,
            "rank all write f 1 fill 1 1048575\n",
            1,
            "stop 0 end\n",
            (0, 0),
        ),
        (
            run,
            "rank all write f 1 fill 1 1048575\n",
            2,
            "stop 0 end\n",
            (4, 11),
        ),
        (
            run,
            "rank all write f 1 fill 1 1048576\n",
            2,
            "stop 0 end\n",
            (3, 10),
        ),
        (
            run,
            "rank all read f 0 524288\n",
            3,
            "stop 0 end\n",
            (5, 11),
        ),
        (run, "turn flusher 1000000\n", 2, "stop 0 end\n", (4, 11)),
        ("site 2 1 0\n", "run 0,1\nstop 0 end\n", 256, "", (0, 0)),
        ("site 2 1 0\n", "run 0,1\nstop 0 end\n", 257, "", (514, 11)),
        ("", "#", 4_194_304, "", (1, 14)),
        ("", "#", 4_194_305, "", (0, 11)),
        ("site 2 1 0\n#", "x", 4_194_291, "\n", (0, 0)),
    ] {
        let text = repeated(alloc, before, piece, times, behind)?;
        assert_eq!(rt;
            answer(alloc, text.as_bytes())?,
            fault,
            "{times} times {piece}"
        );
    }
    Ok(())
}

#[test]
fn routes_of_a_rank(rt: HostRuntime) -> Result<(), Fail> {
    let alloc = rt.alloc();
    let mut text = String::new(alloc);
    text.push_str("site 2 1 0\nrun 0,1\nrank all start a ckpt\n")?;
    for file in 0..16 {
        text.push_str("rank all route f")?;
        text.push_str(&file.to_string(alloc)?)?;
        text.push_str("\n")?;
    }
    for (line, fault) in [
        ("rank 1 route f16\n", (20, 9)),
        ("rank 1 route f3\n", (0, 0)),
        ("rank 1 start b ckpt\nrank 1 route f16\n", (0, 0)),
        ("rank 1 start b ckpt\nrank all route f16\n", (21, 9)),
        ("stop 0 end\nrun 0,1\nrank all route f16\n", (0, 0)),
    ] {
        let whole = repeated(alloc, text.as_str(), line, 1, "stop 0 end\n")?;
        assert_eq!(rt; answer(alloc, whole.as_bytes())?, fault, "{line}");
    }
    Ok(())
}

// Bytes above 126, which no text in UTF-8 has alone.
#[test]
fn bytes_that_are_no_text(rt: HostRuntime) -> Result<(), Fail> {
    let table: [(&[u8], (u32, u8)); 3] = [
        (b"site 2 1 0\n# \x80\n", (2, 13)),
        (b"site 2 1 0\r\n", (1, 13)),
        (b"site 2 1 0\n\t\n", (2, 13)),
    ];
    for (text, fault) in table {
        assert_eq!(rt; answer(rt.alloc(), text)?, fault);
    }
    Ok(())
}

#[test]
fn the_script_that_is_read(rt: HostRuntime) -> Result<(), Fail> {
    let text =
        b"site 2 1 1\nset flush 0\nrun 0,2\nrank all need\nrank 1 read f 0 3\nturn rank 1 7\nstop 2 after 5\nscavenge\n";
    let script = read_script(rt.alloc(), text).ok().ok_or("no script")?;
    assert_eq!(rt;
        (script.shape.nodes, script.shape.ranks, script.shape.spares),
        (2, 1, 1)
    );
    assert_eq!(rt;
        (script.config.size, script.config.cache, script.config.flush),
        (8, 1, 0)
    );
    let [
        Item::Run { run },
        Item::Scavenge {
            pick: 0,
            budget: u64::MAX,
        },
    ] = script.items.list()
    else {
        return Err("other items".into());
    };
    assert_eq!(rt; run.places.list(), b"\x00\x02".as_slice());
    assert_eq!(rt; (run.programs.list().len(), run.turns.list().len()), (2, 1));
    let program = run.programs.list().last().ok_or("no program")?;
    assert!(rt;
        matches!(
            program.list(),
            [
                Step::Need,
                Step::Read {
                    name: _,
                    at: 0,
                    len: 3
                },
                Step::End
            ]
        )
    );
    Ok(())
}

/// The configuration of a script.
fn config_of(alloc: Global, text: &[u8]) -> Result<Config, Fail> {
    Ok(read_script(alloc, text).ok().ok_or("no script")?.config)
}

// What holds where no line sets it.
#[test]
fn settings_that_no_line_sets(rt: HostRuntime) -> Result<(), Fail> {
    for (text, scheme, numbers) in [
        ("site 8 1 0\n", Scheme::Xor, (8, 1, 10, 1)),
        ("site 8 1 0\nset interval 7\n", Scheme::Xor, (8, 1, 10, 7)),
        (
            "site 8 1 0\nset scheme rs\n",
            Scheme::Rs { shares: 2 },
            (8, 1, 10, 1),
        ),
        (
            "site 8 1 0\nset shares 3\nset scheme rs\nset flush 0\n",
            Scheme::Rs { shares: 3 },
            (8, 1, 0, 1),
        ),
        (
            "site 8 1 0\nset shares 3\nset size 4\nset cache 2\n",
            Scheme::Xor,
            (4, 2, 10, 1),
        ),
    ] {
        let config = config_of(rt.alloc(), text.as_bytes())?;
        assert!(rt; config.scheme == scheme, "{text}");
        assert_eq!(rt;
            (config.size, config.cache, config.flush, config.interval),
            numbers,
            "{text}"
        );
    }
    Ok(())
}

/// How many bytes the fills of a program write.
fn filled(program: &[Step]) -> u64 {
    let mut sum: u64 = 0;
    for step in program {
        if let Step::Write {
            name: _,
            at: _,
            content: Content::Fill { seed: _, len },
        } = step
        {
            sum = sum.saturating_add(u64::from(*len));
        }
    }
    sum
}

/// How many bytes the fills of a script write.
fn written(script: &Script) -> u64 {
    let mut sum: u64 = 0;
    for item in script.items.list() {
        if let Item::Run { run } = item {
            for program in run.programs.list() {
                sum = sum.saturating_add(filled(program.list()));
            }
        }
    }
    sum
}

#[test]
fn generated_scripts_are_read(rt: HostRuntime) -> Result<(), Fail> {
    let alloc = rt.alloc();
    for seed in [0, 1, 2, 7, 1000, 65535, 12345678, 4294967295] {
        let text = generate(alloc, seed).ok().ok_or("no memory")?;
        let script = read_script(alloc, text.list()).ok().ok_or("no script")?;
        assert_eq!(rt; script.items.list().is_empty(), false, "seed {seed}");
        assert!(rt;
            written(&script) > 0 && written(&script) <= 10_240_000,
            "seed {seed}"
        );
    }
    Ok(())
}
