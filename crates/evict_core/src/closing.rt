use ckpt_model::Event;
use scr_base::DataId;

/// Why the gates `sealed` of a dataset in cache are closed.
#[derive(Clone, Copy, Debug, PartialEq, Eq)]
pub enum Closing {
    /// It makes room: Evicting is told, and Evicted once all are closed.
    Evicting,
    /// The job called a restart from it invalid: Failing is told, and Failed once all are closed.
    Failing,
}

impl Closing {
    ghost use Rattle.std.specs.Prelude.{◌≡◌};
    ghost use Rattle.evict_core.specs.Evicting.{begins, ends};

    /// What the first closing tells.
    pub(crate) fn begins(self, which: DataId) -> Event
        ensures { result ≡ begins self which }
    {
        match self {
            Closing::Evicting => Event::Evicting { which },
            Closing::Failing => Event::Failing { which },
        }
    }

    /// What the last sync tells.
    pub(crate) fn ends(self, which: DataId) -> Event
        ensures { result ≡ ends self which }
    {
        match self {
            Closing::Evicting => Event::Evicted { which },
            Closing::Failing => Event::Failed { which },
        }
    }
}
