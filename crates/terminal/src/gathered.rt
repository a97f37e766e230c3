//! Standard input and output as the two ends of a conversation, whose replies are gathered for one write.
ghost use Rattle.std.specs.Prelude.{None, ⊤};
ghost use Rattle.real_outside.specs.OutSink.{write_faults};

use outside_io::{Disk, Failed, Sink, Source};
use peers::Peer;
use real_outside::{OutSink, SeenSink};
use std::io::Write;

/// A source, and a writer with a buffer, beside a disk: what is put is written where it is handed on, or where the buffer is full. It tells
/// nothing of its moments.
#[derive(Drop)]
pub struct Gathered<'a, S, W, R> {
    pub source: S,
    pub sink: SeenSink<'a, OutSink<W>, R>,
}

impl<D: Disk, S: Source, W: Write, R: Eprint> Peer<D> for Gathered<'_, S, W, R> {
    ghost given = { λ peer. S.given peer.source };

    ghost has_ended = { λ peer. S.has_ended peer.source };

    ghost read_faults = { λ peer. S.faults peer.source };

    ghost taken = { λ _. None };

    ghost handed_on = { λ _. None };

    ghost was_put = { λ _ _ _. ⊤ };

    ghost faults = { λ peer. write_faults peer.sink.inner };

    ghost since = { λ _. 0 };

    ghost past = { λ _ _. ⊥ };

    fn put(&mut self, _disk: &D, piece: &[u8]) -> Result<(), Failed> {
        self.sink.put(piece)
    }

    fn flush(&mut self, _disk: &D) -> Result<(), Failed> {
        self.sink.flush()
    }

    fn next_piece(&mut self, _disk: &D, out: &mut [u8]) -> Result<usize, Failed> {
        self.source.next_piece(out)
    }
}
