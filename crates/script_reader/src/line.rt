use crate::script::{Item, TurnLine};
use ckpt_model::StopLine;
use scr_base::{Bytes, Step};

/// A step, and the ranks that take it: from the first to the last.
#[derive(Debug, Drop)]
pub struct RankStep {
    pub first: u8,
    pub last: u8,
    pub step: Step,
}

/// A line behind the settings, read.
#[derive(Debug, Drop)]
pub enum Line {
    Run { places: Bytes },
    Rank { given: RankStep },
    Turn { turn: TurnLine },
    Stop { stop: StopLine },
    Item { item: Item },
}
