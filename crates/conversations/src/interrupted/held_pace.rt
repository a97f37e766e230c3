//! A pace that holds each of two sessions back until the other has come to an ask.

use outside_io::Pace;
use std::hint;
use std::sync::Wait;
use std::sync::atomic::{AtomicU64, Ordering};

// The most looks at a word before a session is held no longer.
const MOST_LOOKS: u64 = 1_000_000_000;

/// Session 1 asks for the first time only once session 2 has come to its second ask, and session 2 asks again only once session 1 has
/// come to its own second ask. Either is held for so many looks at a word at most, and it is counted where this is not enough.
#[derive(Drop)]
pub struct HeldPace {
    first_is_back: AtomicU64,
    second_is_back: AtomicU64,
    limits: AtomicU64,
}

impl HeldPace {
    /// A pace at which no session has asked yet.
    pub fn new() -> HeldPace {
        HeldPace {
            first_is_back: AtomicU64::new(0),
            second_is_back: AtomicU64::new(0),
            limits: AtomicU64::new(0),
        }
    }

    /// How often a session was held up to the limit.
    pub fn limits(&self) -> u64 {
        self.limits.load(Ordering::SeqCst)
    }

    fn hold_until(&self, word: &AtomicU64) {
        for _ in 0..MOST_LOOKS {
            if word.load(Ordering::SeqCst) != 0 {
                return;
            }
            hint::spin_loop();
        }
        self.limits.fetch_add(1, Ordering::SeqCst);
    }
}

impl Pace for HeldPace {
    fn turn<R: Wait>(&self, _rt: &R, session: u16, asked: u64) {
        match (session, asked) {
            (1, 0) => self.hold_until(&self.second_is_back),
            (1, 1) => self.first_is_back.store(1, Ordering::SeqCst),
            (2, 1) => {
                self.second_is_back.store(1, Ordering::SeqCst);
                self.hold_until(&self.first_is_back);
            }
            _ => {}
        }
    }
}
