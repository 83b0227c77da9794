//! What the board's word stands for, what a seat at it knows, and what each step tells. These types are for the proofs alone.
ghost use Rattle.status_board.specs.Published.{appends, looks, settles, together, sees};

use crate::status::Status;
use atomic_table::{Join, Play, Split, TableRule};
use scr_base::Items;

/// The statuses that a seat has seen. No value of it is made.
pub struct View {
    pub seen: Items<Status>,
    /// What another seat had seen, until it is put together with the seat's own.
    pub also: Items<Status>,
}

/// All statuses ever published are one list, which the word ends and each seat knows a beginning of.
pub struct OneList;

impl TableRule<(), View, ()> for OneList {
    ghost use Rattle.std.specs.Prelude.{[], ◌∷◌};
    ghost use Rattle.status_board.specs.Statuses.{nothing_yet};
    ghost use Rattle.status_board.specs.Published.{IsPublished, sees};

    ghost holds = { λ _. IsPublished };

    ghost first = { λ _. sees (nothing_yet ∷ []) };
}

/// A status is appended.
pub struct Append;

impl Play<(), View> for Append {
    ghost then = { appends };
}

/// The last status is read.
pub struct Look;

impl Play<(), View> for Look {
    ghost then = { looks };
}

/// What a seat and another have seen becomes one.
pub struct Settle;

impl Play<(), View> for Settle {
    ghost then = { settles };
}

/// Both seats know what the one knew.
pub struct Twin;

impl Split<View> for Twin {
    ghost left = { λ v. v };

    ghost right = { λ v. v };
}

/// The seat takes in what the other has seen.
pub struct Together;

impl Join<View> for Together {
    ghost both = { together };

    ghost use Rattle.std.specs.Prelude.{[]};

    ghost spent = { sees [] };
}
