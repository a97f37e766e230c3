//! A sink that sees what goes through it.
ghost use Rattle.std.specs.Prelude.{◌≡◌};
ghost use Rattle.outside_io.specs.Causes.{HasCause};
ghost use Rattle.real_outside.specs.OutSink.{write_faults};

use crate::OutSink;
use crate::progress::WIPE;
use arrayvec::ArrayVec;
use outside_io::{Failed, Sink};
use std::io::Write;

/// The most bytes of a line that is kept.
const LINE_BYTES: usize = 256;

/// What is done beside the puts.
#[derive(Clone, Copy, Debug, PartialEq, Eq)]
pub struct Seen {
    /// The last line is kept.
    pub keeps: bool,
    /// Before the first put the line on standard error that tells how far the command is, is wiped.
    pub wipes: bool,
}

/// A sink over another one, to which each put goes on as it comes.
#[derive(Drop)]
pub struct SeenSink<'a, K, R> {
    inner: K,
    rt: &'a R,
    seen: Seen,
    line: ArrayVec<u8, LINE_BYTES>,
}

impl<'a, K, R: Eprint> SeenSink<'a, K, R> {
    /// A sink to which nothing was put yet.
    pub fn new(rt: &'a R, inner: K, seen: Seen) -> SeenSink<'a, K, R> {
        SeenSink {
            inner,
            rt,
            seen,
            line: ArrayVec::new(),
        }
    }

    /// The sink below.
    pub fn inner(&mut self) -> &mut K {
        &mut self.inner
    }

    /// The last line that was put, where it is kept; an empty one where it is too long.
    pub fn line(&self) -> &[u8] {
        self.line.as_slice()
    }

    // What is done before a put, where anything is. It is no part of a put's code, since a long record makes half a million of these.
    #[cold]
    fn see(&mut self, piece: &[u8])
        ensures { self.new.inner ≡ self.old.inner }
    {
        if self.seen.wipes {
            let _ = eprint!(self.rt; "{WIPE}");
            self.seen.wipes = false;
        }
        if self.seen.keeps {
            self.line.clear();
            let _ = self.line.try_extend_from_slice(piece);
        }
    }
}

impl<W: Write, R: Eprint> SeenSink<'_, OutSink<W>, R> {
    /// Writes what a buffer within the writer below still holds. A failure is one of a put before it.
    pub fn flush(&mut self) -> Result<(), Failed>
        ensures { HasCause (write_faults self.old.inner) (write_faults self.new.inner) result }
    {
        self.inner.flush()
    }
}

impl<K: Sink, R: Eprint> Sink for SeenSink<'_, K, R> {
    ghost taken = { λ sink. K.taken sink.inner };

    ghost was_put = { λ old piece new. K.was_put old.inner piece new.inner };

    ghost faults = { λ sink. K.faults sink.inner };

    #[inline(always)]
    fn put(&mut self, piece: &[u8]) -> Result<(), Failed> {
        if self.seen.keeps || self.seen.wipes {
            self.see(piece);
        }
        self.inner.put(piece)
    }
}
