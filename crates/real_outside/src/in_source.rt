//! Standard input, or another reader, as a source.
ghost use Rattle.std.specs.Prelude.{None, ⊤};
ghost use Rattle.real_outside.specs.InSource.{read_faults};

use outside_io::{Failed, Source};
use std::io::{ErrorKind, Read};

/// How often a signal may cut one read short.
const MOST_CUTS: u32 = 1_000;

/// A reader whose bytes are given as they come. It tells nothing of what it gave; `faults` counts the calls that failed, and
/// stays at its last value.
#[derive(Drop)]
pub struct InSource<R> {
    inner: R,
    faults: u64,
}

impl<R: Read> InSource<R> {
    /// A source over a reader, of which no call has failed yet.
    pub fn new(inner: R) -> InSource<R> {
        InSource { inner, faults: 0 }
    }
}

impl<R: Read> Source for InSource<R> {
    ghost given = { λ _. None };

    ghost has_ended = { λ _. ⊤ };

    ghost faults = { read_faults };

    // A read that a signal cuts short is made again.
    fn next_piece(&mut self, out: &mut [u8]) -> Result<usize, Failed> {
        for _ in 0..MOST_CUTS {
            match self.inner.read(out) {
                Ok(count) => return Ok(count),
                Err(error) if error.kind() == ErrorKind::Interrupted => {}
                Err(_) => break,
            }
        }
        self.faults = self.faults.saturating_add(1);
        Err(Failed)
    }
}
