//! Reading the answers of calls and of commands.

ghost use Rattle.std.specs.Prelude.{◌≡◌, ◌<◌, ◌^◌, ◌∷◌, ◌++◌, IfOk, IfSome, codes, Some};
ghost use Rattle.ckpt_model.specs.Text.{phase_text, reason_text, refusal_text, reply_text, answer_text, kind_text, cause_text, given_up_text, device_text, full_text, id_text};
ghost use Rattle.history_reader.specs.Spelled.{IsSpelledReply, FitsAnswer, FitsCause, FitsGivenUp, FitsRefusal, FitsReply};
ghost use Rattle.history_reader.specs.Reading.{Gives, either_way, read_answer, read_bare_answer, read_bare_cause, read_bare_refusal, read_bare_reply, read_cause, read_full_answer, read_full_cause, read_full_refusal, read_full_reply, read_given_up, read_id, read_kind, read_phase, read_prefix_device, read_prefix_full, read_reason, read_reply, read_routed, read_worded_reply};

use crate::cuts::{cut, is};
use crate::fault::Fault;
use crate::numbers::{PREFIX, dataset, device, full, part, small};
use crate::read_bytes::{bytes_of, name_of};
use ckpt_model::{CommandAnswer, GivenUpCause, Kind, StopCause};
use scr_base::{Bytes, DataId, Phase, Reason, Refusal, Reply};
use std::alloc::Global;

#[tactic(auto, unfolding(crate::specs::Reading::read_phase))]
fn phase_of(word: &[u8]) -> Option<Phase>
    ensures text { IfSome result (λ phase. word.now ≡ phase_text phase) }
    ensures gives { result ≡ read_phase word.now }
{
    if is(word, b"idle") {
        Some(Phase::Idle)
    } else if is(word, b"output") {
        Some(Phase::Output)
    } else if is(word, b"offered") {
        Some(Phase::Offered)
    } else if is(word, b"restart") {
        Some(Phase::Restart)
    } else if is(word, b"final") {
        Some(Phase::Final)
    } else {
        None
    }
}

#[tactic(auto, unfolding(crate::specs::Reading::read_reason))]
fn reason_of(word: &[u8]) -> Option<Reason>
    ensures text { IfSome result (λ reason. word.now ≡ reason_text reason) }
    ensures gives { result ≡ read_reason word.now }
{
    if is(word, b"reason") {
        Some(Reason::Reason)
    } else if is(word, b"checkpoints") {
        Some(Reason::Checkpoints)
    } else if is(word, b"after") {
        Some(Reason::After)
    } else if is(word, b"before") {
        Some(Reason::Before)
    } else {
        None
    }
}

#[tactic(auto, unfolding(crate::specs::Reading::read_kind))]
pub(crate) fn kind_of(word: &[u8]) -> Option<Kind>
    ensures text { IfSome result (λ kind. word.now ≡ kind_text kind) }
    ensures gives { result ≡ read_kind word.now }
{
    if is(word, b"need") {
        Some(Kind::Need)
    } else if is(word, b"start") {
        Some(Kind::Start)
    } else if is(word, b"complete") {
        Some(Kind::Complete)
    } else if is(word, b"have") {
        Some(Kind::Have)
    } else if is(word, b"restart") {
        Some(Kind::Restart)
    } else if is(word, b"restarted") {
        Some(Kind::Restarted)
    } else if is(word, b"exit") {
        Some(Kind::Exit)
    } else if is(word, b"finalize") {
        Some(Kind::Finalize)
    } else if is(word, b"end") {
        Some(Kind::End)
    } else {
        None
    }
}

#[tactic(auto, unfolding(crate::specs::Reading::read_bare_refusal))]
fn bare_refusal_of(word: &[u8]) -> Option<Refusal>
    ensures text { IfSome result (λ refusal. word.now ≡ refusal_text refusal) }
    ensures fits { IfSome result (λ refusal. FitsRefusal refusal) }
    ensures gives { result ≡ read_bare_refusal word.now }
{
    if is(word, b"badname") {
        Some(Refusal::BadName)
    } else if is(word, b"nofile") {
        Some(Refusal::NoFile)
    } else if is(word, b"limit") {
        Some(Refusal::Limit)
    } else {
        None
    }
}

#[tactic(auto, unfolding(crate::specs::Reading::read_full_refusal))]
fn full_refusal_of(word: &[u8], rest: &[u8]) -> Option<Refusal>
    ensures text { IfSome result (λ refusal. refusal_text refusal ≡ word.now ++ 32 ∷ rest.now) }
    ensures fits { IfSome result (λ refusal. FitsRefusal refusal) }
    ensures gives { result ≡ read_full_refusal word.now rest.now }
{
    if is(word, b"mismatch") {
        Some(Refusal::Mismatch { rank: small(rest)? })
    } else if is(word, b"phase") {
        Some(Refusal::Phase {
            phase: phase_of(rest)?,
        })
    } else if is(word, b"taken") {
        Some(Refusal::NameTaken {
            which: dataset(rest)?,
        })
    } else if is(word, b"device") {
        let (node, count) = device(rest)?;
        Some(Refusal::Device { node, count })
    } else if is(word, b"full") {
        let (node, used, capacity) = full(rest)?;
        Some(Refusal::Full {
            node,
            used,
            capacity,
        })
    } else {
        None
    }
}

/// The answer of a call.
#[tactic(auto, unfolding(crate::specs::Reading::read_reply))]
pub(crate) fn reply_of(alloc: Global, bytes: &[u8]) -> Result<Reply, Fault>
    ensures text { IfOk result (λ answer. bytes.now ≡ reply_text answer) }
    ensures spelled { IfOk result (λ answer. IsSpelledReply answer) }
    ensures fits { IfOk result (λ answer. FitsReply answer) }
    ensures gives { Gives result (read_reply bytes.now) }
{
    match cut(bytes, b' ') {
        None => bare_reply_of(bytes).ok_or(Fault::Bad),
        Some((word, rest)) => full_reply_of(alloc, word, rest),
    }
}

#[tactic(auto, unfolding(crate::specs::Reading::read_bare_reply))]
fn bare_reply_of(word: &[u8]) -> Option<Reply>
    ensures text { IfSome result (λ answer. word.now ≡ reply_text answer) }
    ensures spelled { IfSome result (λ answer. IsSpelledReply answer) }
    ensures fits { IfSome result (λ answer. FitsReply answer) }
    ensures gives { result ≡ read_bare_reply word.now }
{
    if is(word, b"ok") {
        Some(Reply::Done)
    } else if is(word, b"yes") {
        Some(Reply::Yes)
    } else if is(word, b"no") {
        Some(Reply::No)
    } else if is(word, b"kept") {
        Some(Reply::Kept)
    } else if is(word, b"notkept") {
        Some(Reply::NotKept)
    } else if is(word, b"none") {
        Some(Reply::NoneLeft)
    } else if is(word, b"failed") {
        Some(Reply::Failed)
    } else {
        Some(Reply::Refused {
            refusal: bare_refusal_of(word)?,
        })
    }
}

#[tactic(auto, unfolding(crate::specs::Reading::read_full_reply))]
fn full_reply_of(alloc: Global, word: &[u8], rest: &[u8]) -> Result<Reply, Fault>
    ensures text { IfOk result (λ answer. reply_text answer ≡ word.now ++ 32 ∷ rest.now) }
    ensures spelled { IfOk result (λ answer. IsSpelledReply answer) }
    ensures fits { IfOk result (λ answer. FitsReply answer) }
    ensures gives { Gives result (read_full_reply word.now rest.now) }
{
    match dataset(word) {
        Some(which) => Ok(Reply::Offer {
            which,
            name: name_of(alloc, rest)?,
        }),
        None => worded_reply_of(alloc, word, rest),
    }
}

#[tactic(auto, unfolding(crate::specs::Reading::read_worded_reply))]
fn worded_reply_of(alloc: Global, word: &[u8], rest: &[u8]) -> Result<Reply, Fault>
    ensures text { IfOk result (λ answer. reply_text answer ≡ word.now ++ 32 ∷ rest.now) }
    ensures spelled { IfOk result (λ answer. IsSpelledReply answer) }
    ensures fits { IfOk result (λ answer. FitsReply answer) }
    ensures gives { Gives result (read_worded_reply word.now rest.now) }
{
    if is(word, b"ok") {
        named_reply_of(alloc, rest)
    } else if is(word, b"yes") {
        Ok(Reply::Exit {
            reason: reason_of(rest).ok_or(Fault::Bad)?,
        })
    } else if is(word, b"bytes") {
        Ok(Reply::Bytes {
            bytes: bytes_of(alloc, rest)?,
        })
    } else {
        Ok(Reply::Refused {
            refusal: full_refusal_of(word, rest).ok_or(Fault::Bad)?,
        })
    }
}

/// What follows the word `ok`: the dataset that was started, or a file.
fn named_reply_of(alloc: Global, rest: &[u8]) -> Result<Reply, Fault>
    ensures text { IfOk result (λ answer. reply_text answer ≡ codes "ok " ++ rest.now) }
    ensures spelled { IfOk result (λ answer. IsSpelledReply answer) }
    ensures fits { IfOk result (λ answer. FitsReply answer) }
    ensures gives { Gives result (either_way (read_id rest.now) (read_routed rest.now) (λ which. Some (Reply.Started which))) }
{
    match dataset(rest) {
        Some(which) => Ok(Reply::Started { which }),
        None => routed_of(alloc, rest),
    }
}

#[tactic(auto, unfolding(crate::specs::Reading::read_routed))]
fn routed_of(alloc: Global, rest: &[u8]) -> Result<Reply, Fault>
    ensures text { IfOk result (λ answer. reply_text answer ≡ codes "ok " ++ rest.now) }
    ensures spelled { IfOk result (λ answer. IsSpelledReply answer) }
    ensures fits { IfOk result (λ answer. FitsReply answer) }
    ensures gives { Gives result (read_routed rest.now) }
{
    let _numbers = part(rest).ok_or(Fault::Bad)?;
    Ok(Reply::Routed {
        part: Bytes::of(Vec::from_slice(alloc, rest)?),
    })
}

/// The answer of a command on the prefix.
#[tactic(auto, unfolding(crate::specs::Reading::read_answer))]
pub(crate) fn answer_of(bytes: &[u8]) -> Option<CommandAnswer>
    ensures text { IfSome result (λ answer. bytes.now ≡ answer_text answer) }
    ensures fits { IfSome result (λ answer. FitsAnswer answer) }
    ensures gives { result ≡ read_answer bytes.now }
{
    match cut(bytes, b' ') {
        None => bare_answer_of(bytes),
        Some((word, rest)) => refused_answer_of(word, rest),
    }
}

#[tactic(auto, unfolding(crate::specs::Reading::read_bare_answer))]
fn bare_answer_of(word: &[u8]) -> Option<CommandAnswer>
    ensures text { IfSome result (λ answer. word.now ≡ answer_text answer) }
    ensures fits { IfSome result (λ answer. FitsAnswer answer) }
    ensures gives { result ≡ read_bare_answer word.now }
{
    if is(word, b"ok") {
        Some(CommandAnswer::Done)
    } else if is(word, b"noentry") {
        Some(CommandAnswer::NoEntry)
    } else {
        None
    }
}

#[tactic(auto, unfolding(crate::specs::Reading::read_full_answer))]
fn refused_answer_of(word: &[u8], rest: &[u8]) -> Option<CommandAnswer>
    ensures text { IfSome result (λ answer. answer_text answer ≡ word.now ++ 32 ∷ rest.now) }
    ensures fits { IfSome result (λ answer. FitsAnswer answer) }
    ensures gives { result ≡ read_full_answer word.now rest.now }
{
    if is(word, b"device") {
        Some(CommandAnswer::Device {
            count: prefix_device(rest)?,
        })
    } else if is(word, b"full") {
        let (used, capacity) = prefix_full(rest)?;
        Some(CommandAnswer::Full { used, capacity })
    } else {
        None
    }
}

/// The count of the prefix's calls, where the device is the prefix.
#[tactic(auto, unfolding(crate::specs::Reading::read_prefix_device))]
pub(crate) fn prefix_device(rest: &[u8]) -> Option<u64>
    ensures text { IfSome result (λ count. device_text 32 count ≡ codes "device " ++ rest.now) }
    ensures fits { IfSome result (λ count. count < 2 ^ 64) }
    ensures gives { result ≡ read_prefix_device rest.now }
{
    let (node, count) = device(rest)?;
    if node == PREFIX { Some(count) } else { None }
}

/// The bytes in use and the capacity of the prefix, where the device is the prefix.
#[tactic(auto, unfolding(crate::specs::Reading::read_prefix_full))]
pub(crate) fn prefix_full(rest: &[u8]) -> Option<(u64, u64)>
    ensures text { IfSome result (λ found. full_text 32 found.0 found.1 ≡ codes "full " ++ rest.now) }
    ensures fits { IfSome result (λ found. (found.0 < 2 ^ 64) × (found.1 < 2 ^ 64)) }
    ensures gives { result ≡ read_prefix_full rest.now }
{
    let (node, used, capacity) = full(rest)?;
    if node == PREFIX {
        Some((used, capacity))
    } else {
        None
    }
}

#[tactic(auto, unfolding(crate::specs::Reading::read_cause))]
pub(crate) fn cause_of(bytes: &[u8]) -> Option<StopCause>
    ensures text { IfSome result (λ cause. bytes.now ≡ cause_text cause) }
    ensures fits { IfSome result (λ cause. FitsCause cause) }
    ensures gives { result ≡ read_cause bytes.now }
{
    match cut(bytes, b' ') {
        None => bare_cause_of(bytes),
        Some((word, rest)) => fault_cause_of(word, rest),
    }
}

#[tactic(auto, unfolding(crate::specs::Reading::read_bare_cause))]
fn bare_cause_of(word: &[u8]) -> Option<StopCause>
    ensures text { IfSome result (λ cause. word.now ≡ cause_text cause) }
    ensures fits { IfSome result (λ cause. FitsCause cause) }
    ensures gives { result ≡ read_bare_cause word.now }
{
    if is(word, b"ended") {
        Some(StopCause::Ended)
    } else if is(word, b"script") {
        Some(StopCause::Script)
    } else if is(word, b"runs") {
        Some(StopCause::Runs)
    } else if is(word, b"command") {
        Some(StopCause::Command)
    } else {
        None
    }
}

#[tactic(auto, unfolding(crate::specs::Reading::read_full_cause))]
fn fault_cause_of(word: &[u8], rest: &[u8]) -> Option<StopCause>
    ensures text { IfSome result (λ cause. cause_text cause ≡ word.now ++ 32 ∷ rest.now) }
    ensures fits { IfSome result (λ cause. FitsCause cause) }
    ensures gives { result ≡ read_full_cause word.now rest.now }
{
    if is(word, b"device") {
        let (node, count) = device(rest)?;
        Some(StopCause::Device { node, count })
    } else if is(word, b"full") {
        let (node, used, capacity) = full(rest)?;
        Some(StopCause::Full {
            node,
            used,
            capacity,
        })
    } else {
        None
    }
}

#[tactic(auto, unfolding(crate::specs::Reading::read_given_up))]
pub(crate) fn given_up_of(word: &[u8], rest: &[u8]) -> Option<GivenUpCause>
    ensures text { IfSome result (λ cause. given_up_text cause ≡ word.now ++ 32 ∷ rest.now) }
    ensures fits { IfSome result (λ cause. FitsGivenUp cause) }
    ensures gives { result ≡ read_given_up word.now rest.now }
{
    if is(word, b"device") {
        let (node, count) = device(rest)?;
        Some(GivenUpCause::Device { node, count })
    } else if is(word, b"full") {
        let (node, used, capacity) = full(rest)?;
        Some(GivenUpCause::Full {
            node,
            used,
            capacity,
        })
    } else {
        None
    }
}
