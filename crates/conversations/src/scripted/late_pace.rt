//! A pace that keeps no short script waiting.

use outside_io::Pace;
use std::rt::Clock;
use std::sync::Wait;
use std::thread;
use std::time::Duration;

/// The asks of a session before which it doesn't rest.
const FIRST_ASKS: u64 = 16;

/// A session rests for a millisecond before each ask after its first ones, so that one that waits for another session doesn't
/// spend its patience at once.
#[derive(Drop)]
pub struct LatePace<'a, C> {
    clock: &'a C,
}

impl<'a, C> LatePace<'a, C> {
    /// Rests by this clock.
    pub fn new(clock: &'a C) -> LatePace<'a, C> {
        LatePace { clock }
    }
}

impl<'a, C: Clock> Pace for LatePace<'a, C> {
    fn turn<R: Wait>(&self, _rt: &R, _session: u16, asked: u64) {
        if asked >= FIRST_ASKS {
            thread::sleep(self.clock, Duration::from_millis(1));
        }
    }
}
