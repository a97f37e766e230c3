//! A pace at which the sessions of the running program rest.
use outside_io::Pace;
use std::rt::Clock;
use std::sync::Wait;
use std::thread;
use std::time::Duration;

/// A session rests for a millisecond before each of its asks but the first.
#[derive(Drop)]
pub struct RestPace<'a, C> {
    clock: &'a C,
}

impl<'a, C> RestPace<'a, C> {
    /// Rests by this clock.
    pub fn new(clock: &'a C) -> RestPace<'a, C> {
        RestPace { clock }
    }
}

impl<'a, C: Clock> Pace for RestPace<'a, C> {
    fn turn<R: Wait>(&self, _rt: &R, _session: u16, asked: u64) {
        if asked > 0 {
            thread::sleep(self.clock, Duration::from_millis(1));
        }
    }
}
