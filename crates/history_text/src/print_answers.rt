//! The answers of calls and of commands.

ghost use Rattle.std.specs.Prelude.{◌≡◌, ◌++◌, OnOk};
ghost use Rattle.ckpt_model.specs.Text.{phase_text, reason_text, refusal_text, reply_text, answer_text, kind_text, cause_text, given_up_text};

use crate::pieces::{put, put_bytes, put_device, put_full, put_id, put_number};
use ckpt_model::{CommandAnswer, GivenUpCause, Kind, StopCause};
use scr_base::{DataId, Memory, Name, Phase, Reason, Refusal, Reply};

/// The number by which the prefix is named among the devices.
pub(crate) const PREFIX: u8 = 32;

fn phase_word(phase: Phase) -> &'static [u8]
    ensures { result.now ≡ phase_text phase }
{
    match phase {
        Phase::Idle => b"idle",
        Phase::Output => b"output",
        Phase::Offered => b"offered",
        Phase::Restart => b"restart",
        Phase::Final => b"final",
    }
}

fn reason_word(reason: Reason) -> &'static [u8]
    ensures { result.now ≡ reason_text reason }
{
    match reason {
        Reason::Reason => b"reason",
        Reason::Checkpoints => b"checkpoints",
        Reason::After => b"after",
        Reason::Before => b"before",
    }
}

pub(crate) fn kind_word(kind: Kind) -> &'static [u8]
    ensures { result.now ≡ kind_text kind }
{
    match kind {
        Kind::Need => b"need",
        Kind::Start => b"start",
        Kind::Complete => b"complete",
        Kind::Have => b"have",
        Kind::Restart => b"restart",
        Kind::Restarted => b"restarted",
        Kind::Exit => b"exit",
        Kind::Finalize => b"finalize",
        Kind::End => b"end",
    }
}

pub(crate) fn put_refusal(out: &mut Vec<u8>, refusal: Refusal) -> Result<(), Memory>
    ensures { OnOk result (out.new.items ≡ out.old.items ++ refusal_text refusal) }
{
    match refusal {
        Refusal::Mismatch { rank } => put_mismatch(out, rank),
        Refusal::Phase { phase } => put_phase(out, phase),
        Refusal::BadName => put(out, b"badname"),
        Refusal::Device { node, count } => put_device(out, node, count),
        Refusal::Full {
            node,
            used,
            capacity,
        } => put_full(out, node, used, capacity),
        Refusal::NoFile => put(out, b"nofile"),
        Refusal::Limit => put(out, b"limit"),
        Refusal::NameTaken { which } => put_taken(out, which),
    }
}

fn put_mismatch(out: &mut Vec<u8>, rank: u8) -> Result<(), Memory>
    ensures { OnOk result (out.new.items ≡ out.old.items ++ refusal_text (Refusal.Mismatch rank)) }
{
    put(out, b"mismatch ")?;
    put_number(out, rank as u64)
}

fn put_phase(out: &mut Vec<u8>, phase: Phase) -> Result<(), Memory>
    ensures { OnOk result (out.new.items ≡ out.old.items ++ refusal_text (Refusal.Phase phase)) }
{
    put(out, b"phase ")?;
    put(out, phase_word(phase))
}

fn put_taken(out: &mut Vec<u8>, which: DataId) -> Result<(), Memory>
    ensures { OnOk result (out.new.items ≡ out.old.items ++ refusal_text (Refusal.NameTaken which)) }
{
    put(out, b"taken ")?;
    put_id(out, which)
}

pub(crate) fn put_reply(out: &mut Vec<u8>, answer: &Reply) -> Result<(), Memory>
    ensures { OnOk result (out.new.items ≡ out.old.items ++ reply_text answer.now) }
{
    match answer {
        Reply::Done => put(out, b"ok"),
        Reply::Yes => put(out, b"yes"),
        Reply::No => put(out, b"no"),
        Reply::Exit { reason } => put_exit(out, *reason),
        Reply::Started { which } => put_started(out, *which),
        Reply::Kept => put(out, b"kept"),
        Reply::NotKept => put(out, b"notkept"),
        Reply::NoneLeft => put(out, b"none"),
        Reply::Offer { which, name } => put_offer(out, *which, name),
        Reply::Failed => put(out, b"failed"),
        Reply::Routed { part } => put_routed(out, part.list()),
        Reply::Bytes { bytes } => put_read(out, bytes.list()),
        Reply::Refused { refusal } => put_refusal(out, *refusal),
    }
}

fn put_exit(out: &mut Vec<u8>, reason: Reason) -> Result<(), Memory>
    ensures { OnOk result (out.new.items ≡ out.old.items ++ reply_text (Reply.Exit reason)) }
{
    put(out, b"yes ")?;
    put(out, reason_word(reason))
}

fn put_started(out: &mut Vec<u8>, which: DataId) -> Result<(), Memory>
    ensures { OnOk result (out.new.items ≡ out.old.items ++ reply_text (Reply.Started which)) }
{
    put(out, b"ok ")?;
    put_id(out, which)
}

fn put_offer(out: &mut Vec<u8>, which: DataId, name: &Name) -> Result<(), Memory>
    ensures { OnOk result (out.new.items ≡ out.old.items ++ reply_text (Reply.Offer which name.now)) }
{
    put_id(out, which)?;
    put(out, b" ")?;
    put(out, name.bytes())
}

fn put_routed(out: &mut Vec<u8>, part: &[u8]) -> Result<(), Memory>
    ensures { OnOk result (out.new.items ≡ out.old.items ++ reply_text (Reply.Routed part.now)) }
{
    put(out, b"ok ")?;
    put(out, part)
}

fn put_read(out: &mut Vec<u8>, bytes: &[u8]) -> Result<(), Memory>
    ensures { OnOk result (out.new.items ≡ out.old.items ++ reply_text (Reply.Bytes bytes.now)) }
{
    put(out, b"bytes ")?;
    put_bytes(out, bytes)
}

/// The answer of a command on the prefix.
pub(crate) fn put_answer(out: &mut Vec<u8>, answer: CommandAnswer) -> Result<(), Memory>
    ensures { OnOk result (out.new.items ≡ out.old.items ++ answer_text answer) }
{
    match answer {
        CommandAnswer::Done => put(out, b"ok"),
        CommandAnswer::NoEntry => put(out, b"noentry"),
        CommandAnswer::Device { count } => put_device(out, PREFIX, count),
        CommandAnswer::Full { used, capacity } => put_full(out, PREFIX, used, capacity),
    }
}

pub(crate) fn put_cause(out: &mut Vec<u8>, cause: StopCause) -> Result<(), Memory>
    ensures { OnOk result (out.new.items ≡ out.old.items ++ cause_text cause) }
{
    match cause {
        StopCause::Ended => put(out, b"ended"),
        StopCause::Script => put(out, b"script"),
        StopCause::Device { node, count } => put_device(out, node, count),
        StopCause::Full {
            node,
            used,
            capacity,
        } => put_full(out, node, used, capacity),
        StopCause::Runs => put(out, b"runs"),
        StopCause::Command => put(out, b"command"),
    }
}

pub(crate) fn put_given_up(out: &mut Vec<u8>, cause: GivenUpCause) -> Result<(), Memory>
    ensures { OnOk result (out.new.items ≡ out.old.items ++ given_up_text cause) }
{
    match cause {
        GivenUpCause::Device { node, count } => put_device(out, node, count),
        GivenUpCause::Full {
            node,
            used,
            capacity,
        } => put_full(out, node, used, capacity),
    }
}
