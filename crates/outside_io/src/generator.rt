//! A linear congruential generator with the multiplier of Knuth's MMIX, of which the low bits are dropped.
ghost use Rattle.std.specs.Prelude.{◌≡◌, ◌<◌};
ghost use Rattle.outside_io.specs.Draws.{draw, next_number};

/// A number below `below`, drawn from the state of the generator.
pub(crate) fn draw(state: &mut u64, below: u64) -> u64
    requires { 0 < below }
    ensures value { result ≡ draw state.old below }
    ensures below { result < below }
    ensures after { state.new ≡ next_number state.old }
{
    *state = state
        .wrapping_mul(6_364_136_223_846_793_005)
        .wrapping_add(1_442_695_040_888_963_407);
    (*state >> 33) % below
}
