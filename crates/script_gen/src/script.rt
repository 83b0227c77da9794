//! The lines of a generated script.

ghost use Rattle.std.specs.Prelude.{◌≡◌, ◌<◌, ◌≤◌, ◌+◌, ◌*◌, ◌++◌, IfOk, OnOk, string_bytes};
ghost use Rattle.script_gen.specs.Draws.{after};
ghost use Rattle.script_gen.specs.Script.{checkpoint_lines, checkpoints, generated, lose_line, losses, run_lines, count_of, losses_of, start_lines, stop_line, write_lines};

use crate::draws::Draws;
use scr_base::{Bytes, Memory};
use std::alloc::Global;

const RUNS: u32 = 8;

/// The script of a seed: runs with checkpoints, stopped at random places, with random losses between them.
pub fn generate(alloc: Global, seed: u32) -> Result<Bytes, Memory>
    ensures { IfOk result (λ text. text ≡ generated seed) }
{
    let mut out = String::from_str(
        alloc,
        "site 8 2 2\nset scheme rs\nset shares 2\nset size 8\nset cache 2\nset flush 3\n",
    )?;
    let mut draws = Draws::new(seed);
    for index in 0..RUNS {
        put_run(&mut out, &mut draws, index + 1)?;
    }
    out.push_str("scavenge\nindex list\n")?;
    Ok(Bytes::of(out.into_bytes()))
}

fn put_run(out: &mut String, draws: &mut Draws, run: u32) -> Result<(), Memory>
    ensures text { OnOk result (string_bytes out.new ≡ string_bytes out.old ++ run_lines run draws.old.state) }
    ensures state { OnOk result (draws.new.state
        ≡ after (2 * count_of draws.old.state + 4 + losses_of draws.old.state) draws.old.state) }
{
    out.push_str(
        "run 0,1,2,3,4,5,6,7\nrank all have\nrank all restart\nrank all read f 0 16\nrank all restarted valid\n",
    )?;
    let count = 1 + draws.below(4);
    put_checkpoints(out, draws, run, count)?;
    let outcome = draws.below(4);
    let moves = draws.below(2000);
    put_stop(out, outcome, moves)?;
    let lost = draws.below(3);
    put_losses(out, draws, lost)
}

fn put_checkpoints(out: &mut String, draws: &mut Draws, run: u32, count: u32) -> Result<(), Memory>
    requires { count ≤ 4 }
    ensures text { OnOk result (string_bytes out.new ≡ string_bytes out.old ++ checkpoints run draws.old.state count) }
    ensures state { OnOk result (draws.new.state ≡ after (2 * count) draws.old.state) }
{
    for index in 0..count {
        let seed = draws.below(256);
        let len = 1 + draws.below(20000);
        put_checkpoint(out, run, index + 1, seed, len)?;
    }
    Ok(())
}

fn put_checkpoint(
    out: &mut String,
    run: u32,
    number: u32,
    seed: u32,
    len: u32,
) -> Result<(), Memory>
    ensures { OnOk result (string_bytes out.new ≡ string_bytes out.old ++ checkpoint_lines run number seed len) }
{
    put_start(out, run, number)?;
    put_write(out, seed, len)
}

fn put_start(out: &mut String, run: u32, number: u32) -> Result<(), Memory>
    ensures { OnOk result (string_bytes out.new ≡ string_bytes out.old ++ start_lines run number) }
{
    write!(
        out,
        "rank all start c{run}.{number} ckpt\nrank all route f\n"
    )?;
    Ok(())
}

fn put_write(out: &mut String, seed: u32, len: u32) -> Result<(), Memory>
    ensures { OnOk result (string_bytes out.new ≡ string_bytes out.old ++ write_lines seed len) }
{
    write!(
        out,
        "rank all write f 0 fill {seed} {len}\nrank all complete valid\n"
    )?;
    Ok(())
}

fn put_stop(out: &mut String, outcome: u32, moves: u32) -> Result<(), Memory>
    ensures { OnOk result (string_bytes out.new ≡ string_bytes out.old ++ stop_line outcome moves) }
{
    writeln!(out, "stop {outcome} after {moves}")?;
    Ok(())
}

fn put_losses(out: &mut String, draws: &mut Draws, count: u32) -> Result<(), Memory>
    requires { count ≤ 2 }
    ensures text { OnOk result (string_bytes out.new ≡ string_bytes out.old ++ losses draws.old.state count) }
    ensures state { OnOk result (draws.new.state ≡ after count draws.old.state) }
{
    for index in 0..count {
        let node = draws.below(8);
        put_loss(out, node)?;
    }
    Ok(())
}

fn put_loss(out: &mut String, node: u32) -> Result<(), Memory>
    ensures { OnOk result (string_bytes out.new ≡ string_bytes out.old ++ lose_line node) }
{
    writeln!(out, "lose {node}")?;
    Ok(())
}
