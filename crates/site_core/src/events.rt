// The telling of an event.
ghost use Rattle.std.specs.Prelude.{◌≡◌, ◌≤◌, ◌++◌, ◌∷◌, [], OnOk, OnErr};

use ckpt_model::{Event, History};
use scr_base::Memory;

/// An event more; the room for one that comes after it stays.
pub(crate) fn push(history: &mut History, event: Event) -> Result<(), Memory>
    ensures events { OnOk result (history.new.events ≡ history.old.events ++ event ∷ []) }
    ensures room { 1 ≤ history.old.spare → 1 ≤ history.new.spare }
    ensures err { OnErr result (history.new ≡ history.old) }
{
    history.reserve(2)?;
    history.push(event)
}
