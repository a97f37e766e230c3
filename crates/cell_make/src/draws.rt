//! The draws that a number gives, one after the other, the same at each call and on each computer.
ghost use Rattle.std.specs.Prelude.{◌≡◌, ◌<◌};
ghost use Rattle.cell_make.specs.Draws.{draw, next_number};

/// A sequence of draws, as the number from which the next one is made.
///
/// A linear congruential generator modulo 2^64 with the multiplier and the increment of D. E. Knuth's MMIX. A draw takes the upper
/// bits, since the lower ones of such a generator have short periods.
#[derive(Drop)]
pub struct Draws {
    pub number: u64,
}

impl Draws {
    /// Draws one of the first `k` numbers.
    pub fn draw(&mut self, k: u64) -> u64
        requires { 0 < k }
        ensures value { result ≡ draw self.old.number k }
        ensures below { result < k }
        ensures after { self.new.number ≡ next_number self.old.number }
    {
        self.number = self
            .number
            .wrapping_mul(6_364_136_223_846_793_005)
            .wrapping_add(1_442_695_040_888_963_407);
        (self.number >> 33) % k
    }
}
