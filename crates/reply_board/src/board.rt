ghost use Rattle.std.specs.Prelude.{◌≡◌, ◌↔◌, true, IfOk, IfErr, None, Some};
ghost use Rattle.std.specs.Option.{MatchOption};
ghost use Rattle.once_cell.specs.Once.{Agrees, cell_name};
ghost use Rattle.reply_board.specs.Sheets.{Sheet, IsPlace, cell_at, Knows};
ghost use Rattle.reply_board.specs.Posts.{IsRefusedPost};

use crate::same::same_reply;
use once_cell::race;
use once_cell::race::OnceBox;
use scr_base::{Memory, Reply};
use std::alloc::Global;
use std::marker::Model;

/// What a caller knows of one place: whose it is, and the reply that stands there once it was seen.
/// It takes no bytes, and can't be made up.
pub type Note = race::Note<Reply>;

/// A cell for each step of each rank. A reply that stands in its cell stays there.
#[derive(Drop)]
pub struct ReplyBoard {
    alloc: Global,
    ranks: usize,
    steps: usize,
    cells: Vec<OnceBox<Reply>>,
}

impl Model for ReplyBoard {
    ghost use Rattle.std.specs.Prelude.{◌≡◌, ◌*◌, map, length};
    ghost use Rattle.once_cell.specs.Once.{cell_name};
    ghost use Rattle.reply_board.specs.Sheets.{Sheet};

    ghost Value = { Sheet };

    ghost view = { λ b. record { ranks = b.ranks; steps = b.steps; cells = map cell_name b.cells.items } };

    ghost invariant = { λ b. length b.cells.items ≡ b.ranks * b.steps };
}

/// Why a reply wasn't posted.
#[derive(Drop)]
pub enum PostError {
    /// Another reply stands at that place, which the note knows.
    Other { note: Note },
    /// There was no memory for the reply. The place is as before.
    Memory,
}

impl ReplyBoard {
    /// A board of empty cells, for the ranks below `ranks` and the steps from 1 to `steps`.
    ///
    /// Memory: there was none for the cells.
    pub fn new(alloc: Global, ranks: u8, steps: u32) -> Result<ReplyBoard, Memory>
        ensures ranks { IfOk result (λ board. board.ranks ≡ ranks) }
        ensures steps { IfOk result (λ board. board.steps ≡ steps) }
    {
        let ranks = ranks as usize;
        let steps = steps as usize;
        let count = ranks * steps;
        let mut cells = Vec::with_capacity(alloc, count)?;
        for _i in 0..count {
            cells.push(OnceBox::new(alloc))?;
        }
        Ok(ReplyBoard {
            alloc,
            ranks,
            steps,
            cells,
        })
    }

    /// Whether the board has that place.
    pub fn has(&self, rank: u8, step: u32) -> bool
        ensures { result ≡ true ↔ IsPlace self.now rank step }
    {
        (rank as usize) < self.ranks && 1 <= step && step as usize <= self.steps
    }

    /// The cell of a place.
    fn cell(&self, rank: u8, step: u32) -> &OnceBox<Reply>
        requires { IsPlace self.now rank step }
        ensures { cell_name result.now ≡ cell_at self.now rank step }
    {
        &self.cells[rank as usize * self.steps + (step as usize - 1)]
    }

    /// A note of that place that knows no reply.
    pub fn note(&self, rank: u8, step: u32) -> Note
        requires { IsPlace self.now rank step }
        ensures cell { result.cell ≡ cell_at self.now rank step }
        ensures nothing { result.known ≡ None }
    {
        self.cell(rank, step).note()
    }

    /// Posts a reply at its place, and gives a note that knows it. The same reply may stand there already.
    ///
    /// Other: another reply stands there. Memory: there was none for the reply.
    pub fn post(&self, rank: u8, step: u32, reply: Reply) -> Result<Note, PostError>
        requires { IsPlace self.now rank step }
        ensures posted { IfOk result (Knows (cell_at self.now rank step) reply) }
        ensures refused { IfErr result (IsRefusedPost (cell_at self.now rank step) reply) }
    {
        let cell = self.cell(rank, step);
        let mut note = cell.note();
        let Ok(boxed) = Box::new(self.alloc, reply) else {
            return Err(PostError::Memory);
        };
        let Err(back) = cell.set_as(boxed, &mut note) else {
            return Ok(note);
        };
        match cell.get_as(&mut note) {
            Some(stands) => {
                if same_reply(stands, &*back) {
                    Ok(note)
                } else {
                    Err(PostError::Other { note })
                }
            }
            None => unreachable!(),
        }
    }

    /// The reply at that place, if one stands there, and the note, which knows it then. A note that knows a reply gets that reply.
    pub fn read(&self, rank: u8, step: u32, note: Note) -> (Option<&Reply>, Note)
        requires place { IsPlace self.now rank step }
        requires note { note.cell ≡ cell_at self.now rank step }
        ensures cell { result.1.cell ≡ note.cell }
        ensures reply { MatchOption result.0 ((note.known ≡ None) × (result.1.known ≡ None)) (λ reply. (result.1.known ≡ Some reply.now) × Agrees note.known reply.now) }
    {
        let mut note = note;
        let reply = self.cell(rank, step).get_as(&mut note);
        (reply, note)
    }
}
