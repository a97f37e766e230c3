//! Numbers that are drawn one after the other, the same in each run.
ghost use Rattle.std.specs.Prelude.{◌<◌};

/// The numbers of a linear congruence of 64 bits, of which the upper ones are taken.
#[derive(Drop)]
pub struct Draws {
    state: u64,
}

impl Draws {
    /// Draws from the beginning.
    pub fn new() -> Draws {
        Draws { state: 1 }
    }

    /// A number below `n`.
    pub fn below(&mut self, n: u64) -> u64
        requires { 0 < n }
        ensures { result < n }
    {
        let state = self.state.wrapping_mul(6_364_136_223_846_793_005);
        self.state = state.wrapping_add(1_442_695_040_888_963_407);
        (self.state >> 33) % n
    }
}
