//! The source of random numbers.

ghost use Rattle.std.specs.Prelude.{◌≡◌, ◌<◌, ◌/◌, ◌%◌};
ghost use Rattle.script_gen.specs.Draws.{next};

/// A linear congruential source: each draw moves it on.
#[derive(Drop)]
pub struct Draws {
    pub state: u64,
    ghost small: { state < 2147483648 },
}

impl Draws {
    /// The source that a seed starts.
    pub fn new(seed: u32) -> Draws
        ensures { result.state ≡ seed % 2147483648 }
    {
        Draws {
            state: u64::from(seed) % 2147483648,
        }
    }

    /// The next number below a bound.
    pub fn below(&mut self, bound: u32) -> u32
        requires { 0 < bound }
        ensures state { self.new.state ≡ next self.old.state }
        ensures number { result ≡ (self.new.state / 65536) % bound }
        ensures bound { result < bound }
    {
        self.state = (self.state * 1103515245 + 12345) % 2147483648;
        (self.state / 65536 % u64::from(bound)) as u32
    }
}
