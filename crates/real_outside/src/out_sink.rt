//! Standard output, or another writer, as a sink.
ghost use Rattle.std.specs.Prelude.{None, ⊤};
ghost use Rattle.outside_io.specs.Causes.{HasCause};
ghost use Rattle.real_outside.specs.OutSink.{write_faults};

use crate::failure::Failure;
use outside_io::{Failed, Sink};
use std::alloc::Global;
use std::io::{self, BufWriter, Write};

/// The bytes that standard output gathers for one write.
const OUT_BUFFER: usize = 65536;

/// Standard output as a writer. A buffer makes one write of many lines; where there is no memory for it, each line is a write.
pub fn out_writer<R: Print>(rt: &R, alloc: Global) -> BufWriter<io::Printer<'_, R>> {
    match BufWriter::with_capacity(alloc, OUT_BUFFER, io::writer(rt)) {
        Ok(writer) => writer,
        Err(_) => BufWriter::with_capacity(alloc, 0, io::writer(rt)).unwrap(),
    }
}

/// A writer that takes the program's lines. It tells nothing of what it took; `faults` counts the calls that failed, and
/// stays at its last value.
#[derive(Drop)]
pub struct OutSink<W> {
    inner: W,
    faults: u64,
    failed: Option<io::Error>,
}

impl<W: Write> OutSink<W> {
    /// A sink over a writer, of which no call has failed yet.
    pub fn new(inner: W) -> OutSink<W> {
        OutSink {
            inner,
            faults: 0,
            failed: None,
        }
    }

    /// The last call that failed.
    pub fn failure(&self) -> Option<Failure<'static>> {
        match self.failed {
            Some(error) => Some(Failure {
                call: "write",
                name: "standard output",
                error,
            }),
            None => None,
        }
    }

    /// Writes what a buffer within the writer still holds. A failure is one of a put before it.
    pub fn flush(&mut self) -> Result<(), Failed>
        ensures { HasCause (write_faults self.old) (write_faults self.new) result }
    {
        let flushed = self.inner.flush();
        self.counted(flushed)
    }

    // The answer, and one fault more where it is one.
    #[inline(always)]
    fn counted(&mut self, answer: io::Result<()>) -> Result<(), Failed>
        ensures { HasCause (write_faults self.old) (write_faults self.new) result }
    {
        match answer {
            Ok(()) => Ok(()),
            Err(error) => {
                self.failed = Some(error);
                self.faults = self.faults.saturating_add(1);
                Err(Failed)
            }
        }
    }
}

impl<W: Write> Sink for OutSink<W> {
    ghost taken = { λ _. None };

    ghost was_put = { λ _ _ _. ⊤ };

    ghost faults = { write_faults };

    // A write that takes nothing of a piece that isn't empty is an error of `write_all`.
    #[inline(always)]
    fn put(&mut self, piece: &[u8]) -> Result<(), Failed> {
        let written = self.inner.write_all(piece);
        self.counted(written)
    }
}
