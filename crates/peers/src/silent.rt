//! A peer over a source and a sink, which tells nothing of its moments, as one over the real input and output does.
use crate::peer::Peer;
use outside_io::{Disk, Failed, Sink, Source};

/// A source and a sink that holds nothing back, beside a disk.
#[derive(Drop)]
pub struct Silent<S, K> {
    pub source: S,
    pub sink: K,
}

impl<D: Disk, S: Source, K: Sink> Peer<D> for Silent<S, K> {
    ghost use Rattle.std.specs.Prelude.{None};

    ghost given = { λ peer. S.given peer.source };

    ghost has_ended = { λ peer. S.has_ended peer.source };

    ghost read_faults = { λ peer. S.faults peer.source };

    ghost taken = { λ _. None };

    ghost handed_on = { λ _. None };

    ghost was_put = { λ old piece new. K.was_put old.sink piece new.sink };

    ghost faults = { λ peer. K.faults peer.sink };

    ghost since = { λ _. 0 };

    ghost past = { λ _ _. ⊥ };

    fn put(&mut self, _disk: &D, piece: &[u8]) -> Result<(), Failed> {
        self.sink.put(piece)
    }

    fn flush(&mut self, _disk: &D) -> Result<(), Failed> {
        Ok(())
    }

    fn next_piece(&mut self, _disk: &D, out: &mut [u8]) -> Result<usize, Failed> {
        self.source.next_piece(out)
    }
}
