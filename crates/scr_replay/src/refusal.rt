// The line that is printed where a script is refused.
ghost use Rattle.std.specs.Prelude.{◌≡◌, IfOk};
ghost use Rattle.std.specs.List.{flat_map};
ghost use Rattle.scr_replay.specs.Refusals.{refusal_line};

use scr_base::Memory;
use std::alloc::Global;

/// The first faulty line of a text, and its reason.
#[derive(Clone, Copy, Debug, PartialEq, Eq)]
pub struct Refusal {
    pub line: u32,
    pub reason: u8,
}

/// What is printed.
pub fn refusal_line(alloc: Global, refusal: Refusal) -> Result<Vec<u8>, Memory>
    ensures { IfOk result (λ text. text.items ≡ refusal_line refusal) }
{
    let line = refusal.line.to_string(alloc)?;
    let reason = refusal.reason.to_string(alloc)?;
    joined(
        alloc,
        &[
            b"refused line ",
            line.as_bytes(),
            b" reason ",
            reason.as_bytes(),
            b"\n",
        ],
    )
}

fn joined(alloc: Global, pieces: &[&[u8]]) -> Result<Vec<u8>, Memory>
    ensures { IfOk result (λ text. text.items ≡ flat_map (λ piece. piece.now) pieces.now) }
{
    let mut text = Vec::new(alloc);
    for piece in pieces {
        text.extend_from_slice(piece)?;
    }
    Ok(text)
}
