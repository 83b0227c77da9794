use scr_base::{Memory, Step};
use std::marker::Model;

/// The steps of each rank.
#[derive(Debug, Drop)]
pub struct Programs {
    ranks: Vec<Vec<Step>>,
}

impl Model for Programs {
    ghost use Rattle.std.specs.Prelude.{List, map};
    ghost use Rattle.scr_base.specs.declared.content.Step.{Step};

    ghost Value = { List (List Step) };

    ghost view = { λ p. map (λ program. program.items) p.ranks.items };
}

impl Programs {
    ghost use Rattle.std.specs.Prelude.{◌≡◌, [], map, option_copied, slice_get, unwrap_or, length, ◌<◌, OnOk, OnErr};
    ghost use Rattle.site_state.specs.Asking.{takes_steps, lengthened, program_of};

    /// The programs of the ranks, in order.
    pub fn of(ranks: Vec<Vec<Step>>) -> Programs
        ensures { result ≡ map (λ program. program.items) ranks.items }
    {
        Programs { ranks }
    }

    /// The step at a place of a rank's program, counted from 0; none past its end, or where there is no such rank.
    pub fn step(&self, rank: u8, place: u32) -> Option<&Step>
        ensures { option_copied result ≡ slice_get (unwrap_or (slice_get self.now rank) []) place }
    {
        match self.ranks.get(rank as usize) {
            Some(steps) => steps.get(place as usize),
            None => None,
        }
    }

    /// How many steps the rank's program has; 0 where there is no such rank.
    pub fn steps(&self, rank: u8) -> usize
        ensures { result ≡ length (program_of self.now rank) }
    {
        match self.ranks.get(rank as usize) {
            Some(steps) => steps.len(),
            None => 0,
        }
    }

    /// Whether the rank's program doesn't end with End.
    pub fn takes_steps(&self, rank: u8) -> bool
        ensures { result ≡ takes_steps self.now rank }
    {
        match self.ranks.get(rank as usize) {
            Some(steps) => !matches!(steps.last(), Some(Step::End)),
            None => true,
        }
    }

    /// Appends a step to a rank's program. After want of memory, its one refusal, all is as before.
    pub fn ask(&mut self, rank: u8, step: Step) -> Result<(), Memory>
        requires { rank < length self.old }
        ensures asked { OnOk result (self.new ≡ lengthened self.old rank step) }
        ensures refused { OnErr result (self.new ≡ self.old) }
    {
        let steps = &mut self.ranks[rank as usize];
        steps.push(step)?;
        Ok(())
    }
}
