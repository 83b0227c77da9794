/// How far a piece has come.
#[derive(Clone, Copy, Debug, PartialEq, Eq)]
pub enum Standing {
    Unclaimed,
    /// It was handed out under this number.
    Out { number: u64 },
    Done,
}

impl Standing {
    ghost use Rattle.std.specs.Prelude.{◌≡◌};
    ghost use Rattle.commit_core.specs.LedgerBook.{is_unclaimed};

    pub(crate) fn is_unclaimed(&self) -> bool
        ensures { result ≡ is_unclaimed self.now }
    {
        matches!(self, Standing::Unclaimed)
    }
}
