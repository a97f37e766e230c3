//! A sink that fails within a piece.
ghost use Rattle.std.specs.Prelude.{None, ⊤};

use outside_io::{Failed, Sink};
use std::alloc::Global;

/// Takes so many puts whole, and of each later one the first half, and answers that it failed.
#[derive(Drop)]
pub struct TornSink {
    bytes: Vec<u8>,
    whole: u64,
    faults: u64,
}

impl TornSink {
    /// A sink without bytes.
    pub fn new(alloc: Global, whole: u64) -> TornSink {
        TornSink {
            bytes: Vec::new(alloc),
            whole,
            faults: 0,
        }
    }

    /// The bytes taken.
    pub fn bytes(&self) -> &[u8] {
        self.bytes.as_slice()
    }
}

impl Sink for TornSink {
    ghost taken = { λ _. None };

    ghost was_put = { λ _ _ _. ⊤ };

    ghost faults = { λ sink. sink.faults };

    fn put(&mut self, piece: &[u8]) -> Result<(), Failed> {
        let is_whole = self.whole > 0;
        let end = if is_whole {
            piece.len()
        } else {
            piece.len() / 2
        };
        let taken = self.bytes.extend_from_slice(&piece[..end]);
        if is_whole && taken.is_ok() {
            self.whole = self.whole.saturating_sub(1);
            return Ok(());
        }
        self.faults = self.faults.saturating_add(1);
        Err(Failed)
    }
}
