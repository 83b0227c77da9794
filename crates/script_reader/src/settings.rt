//! What the `set` lines set.
ghost use Rattle.std.specs.Prelude.{◌≡◌, ◌≤◌, IfSome, is_some};
ghost use Rattle.scr_base.specs.Sets.{fits_sets};
ghost use Rattle.scr_base.specs.Limits.{is_config};
ghost use Rattle.script_reader.specs.Settings.{no_settings, is_set, set_by, scheme_of, fits, IsConfig, IsConfigOf};

use crate::form::{Key, SchemeWord};
use crate::number::{medium_in, small_in};
use process_sets::Sets;
use scr_base::{Config, Scheme, Shape};

/// What was set so far.
#[derive(Clone, Copy, Debug)]
pub struct Settings {
    pub scheme: Option<SchemeWord>,
    pub shares: Option<u8>,
    pub size: Option<u8>,
    pub cache: Option<u8>,
    pub flush: Option<u32>,
    pub interval: Option<u32>,
}

pub(crate) fn no_settings() -> Settings
    ensures { result ≡ no_settings }
{
    Settings {
        scheme: None,
        shares: None,
        size: None,
        cache: None,
        flush: None,
        interval: None,
    }
}

/// Whether the key was set.
#[tactic(auto, unfolding(crate::specs::Settings::is_set))]
pub(crate) fn is_set(settings: &Settings, key: Key) -> bool
    ensures { result ≡ is_set settings.now key }
{
    match key {
        Key::Scheme { word: _ } => settings.scheme.is_some(),
        Key::Shares => settings.shares.is_some(),
        Key::Size => settings.size.is_some(),
        Key::Cache => settings.cache.is_some(),
        Key::Flush => settings.flush.is_some(),
        Key::Interval => settings.interval.is_some(),
    }
}

/// The settings with the key set to the value that the word spells, where it spells one.
#[tactic(auto, unfolding(crate::specs::Settings::set_by))]
pub(crate) fn set_by(settings: Settings, key: Key, word: &[u8]) -> Option<Settings>
    ensures { result ≡ set_by settings key word.now }
{
    let mut set = settings;
    match key {
        Key::Scheme { word } => set.scheme = Some(word),
        Key::Shares => set.shares = Some(small_in(word, 1, 15)?),
        Key::Size => set.size = Some(small_in(word, 2, 16)?),
        Key::Cache => set.cache = Some(small_in(word, 1, 4)?),
        Key::Flush => set.flush = Some(medium_in(word, 0, 1_000_000)?),
        Key::Interval => set.interval = Some(medium_in(word, 1, 1_000_000)?),
    }
    Some(set)
}

fn scheme_of(settings: &Settings) -> Scheme
    ensures { result ≡ scheme_of settings.now }
{
    match settings.scheme.unwrap_or(SchemeWord::Xor) {
        SchemeWord::Single => Scheme::Single,
        SchemeWord::Partner => Scheme::Partner,
        SchemeWord::Xor => Scheme::Xor,
        SchemeWord::Rs => Scheme::Rs {
            shares: settings.shares.unwrap_or(2),
        },
    }
}

/// Whether the sets of each group have members enough for the scheme.
fn fits_groups(shape: Shape, scheme: Scheme, size: u8) -> bool
    requires { 2 ≤ size }
    ensures { result ≡ fits_sets scheme size shape.nodes }
{
    Sets::new(shape, scheme, size).is_ok()
}

/// The configuration of these numbers, where they are in their ranges.
fn checked(scheme: Scheme, size: u8, cache: u8, flush: u32, interval: u32) -> Option<Config>
    ensures some { is_some result ≡ is_config scheme size cache flush interval }
    ensures config { IfSome result (λ c. IsConfig c scheme size cache flush interval) }
{
    let is_scheme = match scheme {
        Scheme::Rs { shares } => shares >= 1 && shares <= 15,
        _ => true,
    };
    let fits = is_scheme && size >= 2 && size <= 16 && cache >= 1 && cache <= 4;
    if fits && flush <= 1_000_000 && interval >= 1 && interval <= 1_000_000 {
        Some(Config {
            scheme,
            size,
            cache,
            flush,
            interval,
        })
    } else {
        None
    }
}

/// The configuration that the settings and the defaults make, where its scheme fits the groups of the site.
#[tactic(auto, unfolding(crate::specs::Settings::fits))]
pub(crate) fn config_of(settings: &Settings, shape: Shape) -> Option<Config>
    ensures some { is_some result ≡ fits settings.now shape.nodes }
    ensures config { IfSome result (λ c. IsConfigOf c settings.now) }
{
    let config = checked(
        scheme_of(settings),
        settings.size.unwrap_or(8),
        settings.cache.unwrap_or(1),
        settings.flush.unwrap_or(10),
        settings.interval.unwrap_or(1),
    )?;
    if fits_groups(shape, config.scheme, config.size) {
        Some(config)
    } else {
        None
    }
}
