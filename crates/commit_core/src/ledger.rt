ghost use Rattle.std.specs.Prelude.{◌≡◌, ℕ, ◌<◌, ◌≤◌, false, length, Some, slice_get, slice_index_or, IfOk};
ghost use Rattle.std.specs.List.{list_all, list_any, position_or_len};
ghost use Rattle.commit_core.specs.declared.standing.Standing.TheVariants.{Unclaimed, Out, Done};
ghost use Rattle.commit_core.specs.LedgerBook.{is_unclaimed, is_done, is_under, fresh_book, next_of, taken_of, after_taking, after_moving, after_withdrawing};

use crate::outs::{OutAt, take_out};
use crate::piece::Piece;
use crate::standing::Standing;
use crate::taken::Taken;
use scr_base::Memory;
use std::alloc::Global;
use std::marker::Model;

/// The book of the pieces of one dataset: each is unclaimed, out under a number, or done. Memory is taken when it is
/// made, and by no later call.
#[derive(Debug, Drop)]
pub struct Ledger {
    pieces: Vec<Piece>,
    /// How far each piece has come.
    standings: Vec<Standing>,
    /// The numbers that are out, ascending. A number is found by halving, and to take it out moves the later ones: the
    /// cost goes by how many are out, and not by how many pieces there are.
    outs: Vec<OutAt>,
    /// How many numbers have been given, which is the greatest of them.
    given: u64,
    /// The place of the first unclaimed piece; past the last where none is. It goes back only where a piece is given
    /// back or all are withdrawn; from one such call to the next the pieces are passed over at most once.
    first: usize,
    /// How many pieces are done.
    done: usize,
}

impl Model for Ledger {
    ghost use Rattle.std.specs.Prelude.{vec_capacity};
    ghost use Rattle.commit_core.specs.LedgerBook.{Book};
    ghost use Rattle.commit_core.specs.LedgerIndex.{IsKept};

    ghost Value = { Book };

    ghost view = { λ l. record { pieces = l.pieces.items; standings = l.standings.items; given = l.given } };

    ghost invariant = { λ l. IsKept l.pieces.items l.standings.items l.outs.items l.given l.first l.done (vec_capacity l.outs) };
}

impl Ledger {
    /// The book of these pieces, each unclaimed. Memory where there is none for it.
    pub fn new(alloc: Global, pieces: Vec<Piece>) -> Result<Ledger, Memory>
        ensures { IfOk result (λ ledger. ledger ≡ fresh_book pieces.items) }
    {
        let standings = vec![in alloc; Standing::Unclaimed; pieces.len()]?;
        let outs = Vec::with_capacity(alloc, pieces.len())?;
        Ok(Ledger {
            pieces,
            standings,
            outs,
            given: 0,
            first: 0,
            done: 0,
        })
    }

    /// The first unclaimed piece; None exactly where none is.
    pub fn next(&self) -> Option<Piece>
        ensures { result ≡ next_of self.now }
    {
        piece_at(self.pieces.as_slice(), self.first)
    }

    /// How many numbers have been given, which is the greatest of them.
    pub fn given(&self) -> u64
        ensures { result ≡ self.now.given }
    {
        self.given
    }

    /// Hands out the first unclaimed piece under the next number, counted from 1. NoneLeft exactly where none is
    /// unclaimed, else NoNumber exactly where the greatest `u64` has been given; after both all is as before.
    pub fn take(&mut self) -> Taken
        ensures answer { result ≡ taken_of self.old }
        ensures after { self.new ≡ after_taking self.old }
    {
        let Some(piece) = piece_at(self.pieces.as_slice(), self.first) else {
            return Taken::NoneLeft;
        };
        if self.given == u64::MAX {
            return Taken::NoNumber;
        }
        let number = self.given + 1;
        let place = self.first;
        self.given = number;
        self.standings[place] = Standing::Out { number };
        self.outs.push_reserved(OutAt { number, place });
        self.first = first_unclaimed(self.standings.as_slice(), place + 1);
        Taken::Handed { number, piece }
    }

    /// The piece that is out under this number is unclaimed again. True exactly where there is one; else all is as
    /// before.
    pub fn give_back(&mut self, number: u64) -> bool
        ensures found { result ≡ list_any (is_under number) self.old.standings }
        ensures after { self.new ≡ after_moving number Unclaimed self.old }
    {
        match take_out(&mut self.outs, number) {
            Some(place) => {
                self.standings[place] = Standing::Unclaimed;
                self.first = self.first.min(place);
                true
            }
            None => false,
        }
    }

    /// The piece that is out under this number is done. True exactly where there is one; else all is as before.
    pub fn close(&mut self, number: u64) -> bool
        ensures found { result ≡ list_any (is_under number) self.old.standings }
        ensures after { self.new ≡ after_moving number Done self.old }
    {
        match take_out(&mut self.outs, number) {
            Some(place) => {
                self.standings[place] = Standing::Done;
                self.done += 1;
                true
            }
            None => false,
        }
    }

    /// Whether every piece is done.
    pub fn is_done(&self) -> bool
        ensures { result ≡ list_all is_done self.now.standings }
    {
        self.done == self.pieces.len()
    }

    /// Every piece is unclaimed again, also those that were done. So no number that was given before names a piece,
    /// and the numbers go on.
    pub fn withdraw(&mut self)
        ensures { self.new ≡ after_withdrawing self.old }
    {
        self.standings.fill(Standing::Unclaimed);
        self.outs.clear();
        self.first = 0;
        self.done = 0;
    }

    /// No number is out for two pieces, and each that is out has been given: `take` never gives it again. It does
    /// nothing.
    pub fn numbers_differ(&self)
        ensures count { length self.now.standings ≡ length self.now.pieces }
        ensures one { (p q number : ℕ) → slice_get self.now.standings p ≡ Some (Out number) → slice_get self.now.standings q ≡ Some (Out number) → p ≡ q }
        ensures given { (p number : ℕ) → slice_get self.now.standings p ≡ Some (Out number) → (1 ≤ number) × (number ≤ self.now.given) }
    {
        let _ = &self.given;
    }
}

/// The piece at a place; None past the last.
fn piece_at(pieces: &[Piece], place: usize) -> Option<Piece>
    ensures { result ≡ slice_get pieces.now place }
{
    pieces.get(place).copied()
}

/// The place of the first unclaimed piece, where none of those before `from` is; past the last where none is.
fn first_unclaimed(standings: &[Standing], from: usize) -> usize
    requires within { from ≤ length standings.now }
    requires before { (k : ℕ) → k < from → is_unclaimed (slice_index_or standings.now k Unclaimed) ≡ false }
    ensures { result ≡ position_or_len is_unclaimed standings.now }
{
    let mut place = from;
    while place < standings.len() && !standings[place].is_unclaimed() {
        place += 1;
    }
    place
}
