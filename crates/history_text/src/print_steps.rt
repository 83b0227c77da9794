//! The steps of a rank's program, as the script spells them.

ghost use Rattle.std.specs.Prelude.{◌≡◌, ◌++◌, OnOk};
ghost use Rattle.ckpt_model.specs.Text.{content_text, step_text};

use crate::pieces::{put, put_flags, put_hex, put_number, put_valid};
use scr_base::{Content, Flags, Memory, Step, Word};

pub(crate) fn put_step(out: &mut Vec<u8>, step: &Step) -> Result<(), Memory>
    ensures { OnOk result (out.new.items ≡ out.old.items ++ step_text step.now) }
{
    match step {
        Step::Need => put(out, b"need"),
        Step::Start { name, flags } => put_start(out, name, *flags),
        Step::Route { name } => put_route(out, name),
        Step::Write { name, at, content } => put_write(out, name, *at, content),
        Step::Complete { valid } => put_complete(out, *valid),
        Step::Have => put(out, b"have"),
        Step::Restart => put(out, b"restart"),
        Step::Read { name, at, len } => put_read_step(out, name, *at, *len),
        Step::Restarted { valid } => put_restarted(out, *valid),
        Step::Exit => put(out, b"exit"),
        Step::Finalize => put(out, b"finalize"),
        Step::End => put(out, b"end"),
    }
}

fn put_start(out: &mut Vec<u8>, name: &Word, flags: Flags) -> Result<(), Memory>
    ensures { OnOk result (out.new.items ≡ out.old.items ++ step_text (Step.Start name.now flags)) }
{
    put(out, b"start ")?;
    put(out, name.bytes())?;
    put(out, b" ")?;
    put_flags(out, flags)
}

fn put_route(out: &mut Vec<u8>, name: &Word) -> Result<(), Memory>
    ensures { OnOk result (out.new.items ≡ out.old.items ++ step_text (Step.Route name.now)) }
{
    put(out, b"route ")?;
    put(out, name.bytes())
}

fn put_write(out: &mut Vec<u8>, name: &Word, at: u32, content: &Content) -> Result<(), Memory>
    ensures { OnOk result (out.new.items ≡ out.old.items ++ step_text (Step.Write name.now at content.now)) }
{
    put(out, b"write ")?;
    put(out, name.bytes())?;
    put(out, b" ")?;
    put_number(out, at as u64)?;
    put(out, b" ")?;
    put_content(out, content)
}

fn put_content(out: &mut Vec<u8>, content: &Content) -> Result<(), Memory>
    ensures { OnOk result (out.new.items ≡ out.old.items ++ content_text content.now) }
{
    match content {
        Content::Text(word) => put_text(out, word),
        Content::Hex(bytes) => put_hex_content(out, bytes.list()),
        Content::Fill { seed, len } => put_fill(out, *seed, *len),
    }
}

fn put_text(out: &mut Vec<u8>, word: &Word) -> Result<(), Memory>
    ensures { OnOk result (out.new.items ≡ out.old.items ++ content_text (Content.Text word.now)) }
{
    put(out, b"text ")?;
    put(out, word.bytes())
}

fn put_hex_content(out: &mut Vec<u8>, bytes: &[u8]) -> Result<(), Memory>
    ensures { OnOk result (out.new.items ≡ out.old.items ++ content_text (Content.Hex bytes.now)) }
{
    put(out, b"hex ")?;
    put_hex(out, bytes)
}

fn put_fill(out: &mut Vec<u8>, seed: u8, len: u32) -> Result<(), Memory>
    ensures { OnOk result (out.new.items ≡ out.old.items ++ content_text (Content.Fill seed len)) }
{
    put(out, b"fill ")?;
    put_number(out, seed as u64)?;
    put(out, b" ")?;
    put_number(out, len as u64)
}

fn put_complete(out: &mut Vec<u8>, valid: bool) -> Result<(), Memory>
    ensures { OnOk result (out.new.items ≡ out.old.items ++ step_text (Step.Complete valid)) }
{
    put(out, b"complete ")?;
    put_valid(out, valid)
}

fn put_restarted(out: &mut Vec<u8>, valid: bool) -> Result<(), Memory>
    ensures { OnOk result (out.new.items ≡ out.old.items ++ step_text (Step.Restarted valid)) }
{
    put(out, b"restarted ")?;
    put_valid(out, valid)
}

fn put_read_step(out: &mut Vec<u8>, name: &Word, at: u32, len: u32) -> Result<(), Memory>
    ensures { OnOk result (out.new.items ≡ out.old.items ++ step_text (Step.Read name.now at len)) }
{
    put(out, b"read ")?;
    put(out, name.bytes())?;
    put(out, b" ")?;
    put_number(out, at as u64)?;
    put(out, b" ")?;
    put_number(out, len as u64)
}
