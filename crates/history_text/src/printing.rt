//! Histories and events as text.

ghost use Rattle.std.specs.Prelude.{◌≡◌, ◌++◌, ◌∷◌, [], IfOk, OnOk, OnErr};
ghost use Rattle.ckpt_model.specs.Text.{text_of, history_text};

use crate::pieces::put;
use crate::print_commands::{put_counted, put_halt, put_note, put_scavenged};
use crate::print_runs::{
    put_call, put_dataset, put_decided, put_found, put_giving_up, put_local, put_run, put_stop,
    put_taken_reply,
};
use ckpt_model::{Event, History};
use scr_base::{Bytes, Memory};
use std::alloc::Global;

/// The text of a history: a line for each event, each ended by a line feed.
pub fn print(alloc: Global, history: &History) -> Result<Bytes, Memory>
    ensures { IfOk result (λ text. text ≡ history_text history.now.events) }
{
    let mut out = Vec::new(alloc);
    for event in history.events() {
        put_line(&mut out, event)?;
    }
    Ok(Bytes::of(out))
}

/// Puts the text of an event at the end, without a line feed. An `Err` changes nothing.
pub fn print_event(alloc: Global, out: &mut Vec<u8>, event: &Event) -> Result<(), Memory>
    ensures ok { OnOk result (out.new.items ≡ out.old.items ++ text_of event.now) }
    ensures err { OnErr result (out.new.items ≡ out.old.items) }
{
    let mut text = Vec::new(alloc);
    put_event(&mut text, event)?;
    out.extend_from_slice(text.as_slice())?;
    Ok(())
}

fn put_line(out: &mut Vec<u8>, event: &Event) -> Result<(), Memory>
    ensures { OnOk result (out.new.items ≡ out.old.items ++ (text_of event.now ++ 10 ∷ [])) }
{
    put_event(out, event)?;
    put(out, b"\n")
}

fn put_event(out: &mut Vec<u8>, event: &Event) -> Result<(), Memory>
    ensures { OnOk result (out.new.items ≡ out.old.items ++ text_of event.now) }
{
    match event {
        Event::Run { run, places } => put_run(out, *run, places.list()),
        Event::Emptied { node } => put_counted(out, b"emptied ", *node as u64),
        Event::Found { kept, index } => put_found(out, kept.list(), index.list()),
        Event::Discarding { which } => put_dataset(out, b"discarding ", *which),
        Event::Discarded { which } => put_dataset(out, b"discarded ", *which),
        Event::Mended { which } => put_dataset(out, b"mended ", *which),
        Event::Call { rank, number, step } => put_call(out, *rank, *number, step),
        Event::Time { now } => put_counted(out, b"time ", *now),
        Event::Decided { kind, answer } => put_decided(out, *kind, answer),
        Event::Reply {
            rank,
            number,
            answer,
        } => put_taken_reply(out, *rank, *number, answer),
        Event::Local {
            rank,
            number,
            step,
            answer,
        } => put_local(out, *rank, *number, step, answer),
        Event::Sealing { which } => put_dataset(out, b"sealing ", *which),
        Event::Settled { which } => put_dataset(out, b"settled ", *which),
        Event::Evicting { which } => put_dataset(out, b"evicting ", *which),
        Event::Evicted { which } => put_dataset(out, b"evicted ", *which),
        Event::Flushing { which } => put_dataset(out, b"flushing ", *which),
        Event::Indexing { which } => put_dataset(out, b"indexing ", *which),
        Event::Flushed { which } => put_dataset(out, b"flushed ", *which),
        Event::GivenUp { which, cause } => put_giving_up(out, *which, *cause),
        Event::Fetching { which } => put_dataset(out, b"fetching ", *which),
        Event::Fetched { which } => put_dataset(out, b"fetched ", *which),
        Event::Failing { which } => put_dataset(out, b"failing ", *which),
        Event::Failed { which } => put_dataset(out, b"failed ", *which),
        Event::Stop { cause } => put_stop(out, *cause),
        Event::Lost { node } => put_counted(out, b"lost ", *node as u64),
        Event::Scavenging { which } => put_dataset(out, b"scavenging ", *which),
        Event::Scavenged { answer } => put_scavenged(out, *answer),
        Event::IndexCommand { note } => put_note(out, note),
        Event::HaltSet { word, answer } => put_halt(out, word, *answer),
    }
}
