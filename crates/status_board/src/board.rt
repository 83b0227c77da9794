ghost use Rattle.std.specs.Prelude.{◌≡◌, ◌⊎◌, List, [], ◌∷◌, ◌++◌, IfOk};
ghost use mathlib.Core.List.{IsPrefix};
ghost use Rattle.status_board.specs.declared.status.Status.{Status};
ghost use Rattle.status_board.specs.Statuses.{nothing_yet, EndsWith};

use crate::rule::{Append, Look, OneList, Settle, Together, Twin, View};
use crate::status::Status;
use atomic_table::{Seat, Table};
use scr_base::Memory;
use std::alloc::Global;
use std::marker::Model;

/// The one word of the board.
const WORD: usize = 0;

/// The last status that was published. None of its calls waits.
#[derive(Drop)]
pub struct StatusBoard {
    table: Table<(), View, (), OneList, Global>,
}

impl Model for StatusBoard {
    ghost use Rattle.std.specs.Prelude.{◌≡◌};
    ghost use Rattle.atomic_table.specs.Seated.{TableId};

    ghost Value = { TableId };

    ghost view = { λ b. b.table.shared.table_id };

    ghost invariant = { λ b. b.table.shared.table_id.words ≡ 1 };
}

/// What one thread has seen of a board: a beginning of the list of all statuses that were published there. It takes no bytes.
#[derive(Drop)]
pub struct Pass {
    seat: Seat<(), View>,
}

impl Model for Pass {
    ghost use Rattle.std.specs.Prelude.{◌≡◌, []};
    ghost use Rattle.status_board.specs.Statuses.{Sight};

    ghost Value = { Sight };

    ghost view = { λ p. record { board = p.seat.table_id; seen = p.seat.me.0.seen } };

    ghost invariant = { λ p. (p.seat.me.1 ≡ []) × (p.seat.me.0.also ≡ []) };
}

impl StatusBoard {
    /// A board on which nothing is settled and nothing flushed, and a pass that has seen that.
    ///
    /// Memory: there was none for the word.
    #[tactic(auto, using(crate::proofs::Steps::opens))]
    pub fn new(alloc: Global) -> Result<(StatusBoard, Pass), Memory>
        ensures pass { IfOk result (λ made. (made.1.board ≡ made.0) × (made.1.seen ≡ nothing_yet ∷ [])) }
    {
        let (table, seat) = Table::of_words(alloc, &[0], &())?;
        Ok((StatusBoard { table }, Pass { seat }))
    }

    /// Publishes a status: it stands behind all that were published before, and the pass has seen it.
    #[tactic(auto, using(crate::proofs::Steps::append_keeps))]
    pub fn publish(&self, status: Status, pass: Pass) -> Pass
        requires { pass.board ≡ self.now }
        ensures board { result.board ≡ self.now }
        ensures appended { (between : List Status) × (result.seen ≡ (pass.seen ++ between) ++ status ∷ []) }
        ensures begins { IsPrefix (nothing_yet ∷ []) result.seen }
    {
        let Pass { mut seat } = pass;
        self.table
            .shared
            .swap::<Append>(&mut seat, WORD, status.word());
        Pass { seat }
    }

    /// The last status that was published, at or after each one that the pass has seen.
    #[tactic(auto, using(crate::proofs::Steps::look_keeps))]
    pub fn look(&self, pass: Pass) -> (Status, Pass)
        requires { pass.board ≡ self.now }
        ensures board { result.1.board ≡ self.now }
        ensures onward { IsPrefix pass.seen result.1.seen }
        ensures last { EndsWith result.1.seen result.0 }
        ensures begins { IsPrefix (nothing_yet ∷ []) result.1.seen }
    {
        let Pass { mut seat } = pass;
        let word = self.table.shared.load::<Look>(&mut seat, WORD);
        (Status::of_word(word), Pass { seat })
    }

    /// A second pass, as for another thread, that has seen the same.
    #[tactic(auto, using(crate::proofs::Steps::fork_keeps))]
    pub fn fork(&self, pass: Pass) -> (Pass, Pass)
        requires { pass.board ≡ self.now }
        ensures one { result.0 ≡ pass }
        ensures other { result.1 ≡ pass }
    {
        let Pass { mut seat } = pass;
        let other = self.table.shared.split_seat::<Twin>(&mut seat);
        (Pass { seat }, Pass { seat: other })
    }

    /// A pass that has seen what the one and the other have seen: of the two lists the shorter begins the longer.
    #[tactic(auto, using(crate::proofs::Steps::merge_keeps, crate::proofs::Steps::settle_keeps))]
    pub fn merge(&self, one: Pass, other: Pass) -> Pass
        requires one { one.board ≡ self.now }
        requires other { other.board ≡ self.now }
        ensures either { (result ≡ one) ⊎ (result ≡ other) }
        ensures one { IsPrefix one.seen result.seen }
        ensures other { IsPrefix other.seen result.seen }
    {
        let Pass { mut seat } = one;
        let Pass { seat: other } = other;
        self.table.shared.join_seat::<Together>(&mut seat, other);
        self.table.shared.load::<Settle>(&mut seat, WORD);
        Pass { seat }
    }
}
