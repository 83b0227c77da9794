ghost use Rattle.std.specs.Prelude.{◌≡◌};
ghost use Rattle.status_board.specs.Statuses.{word_of, status_of};

/// How far a run has come.
#[derive(Clone, Copy, Debug, PartialEq, Eq)]
pub struct Status {
    /// The largest number of a dataset that was settled or fetched, 0 for none.
    pub settled: u32,
    /// The largest number of a dataset that was flushed, 0 for none.
    pub flushed: u32,
}

const HALF: u64 = 1 << 32;

impl Status {
    /// Both numbers in one word.
    pub(crate) fn word(self) -> u64
        ensures word { result ≡ word_of self }
        ensures back { status_of result ≡ self }
    {
        u64::from(self.settled) * HALF + u64::from(self.flushed)
    }

    /// The status that a word stands for.
    pub(crate) fn of_word(word: u64) -> Status
        ensures { result ≡ status_of word }
    {
        Status {
            settled: (word / HALF) as u32,
            flushed: (word % HALF) as u32,
        }
    }
}
