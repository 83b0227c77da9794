use scr_base::Memory;

/// Why a call of a site was refused. After it no event was told.
#[derive(Clone, Copy, Debug, PartialEq, Eq)]
pub enum SiteError {
    /// Want of memory, or a form of run that isn't built yet.
    Memory,
}

impl From<Memory> for SiteError {
    ghost use Rattle.std.specs.Prelude.{◌≡◌};
    ghost use Rattle.site_state.specs.declared.error.SiteError.{SiteError};

    ghost from_gives = { λ _ e. e ≡ SiteError.Memory };

    fn from(_: Memory) -> SiteError {
        SiteError::Memory
    }
}
