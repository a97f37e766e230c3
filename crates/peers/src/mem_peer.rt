//! An honest peer in memory, whose calls fail where a test wants it.
//!
//! At each put and read it marks the disk as it was at the one before and as it is, and what was given and put by then.
use crate::peer::Peer;
use lists::{List, NoMemory};
use outside_io::{Disk, Failed, MemSink, MemSource, Sink, Source};
use std::alloc::Global;
use std::snapshot::Snapshot;

/// What was given and put before a call, and the disk at the call before it and at this one. Contracts alone read it.
#[derive(Drop)]
pub struct Mark<D> {
    pub source: Snapshot<MemSource>,
    pub sink: Snapshot<MemSink>,
    pub from: Snapshot<D>,
    pub to: Snapshot<D>,
}

/// Gives its bytes in pieces, keeps the bytes that it takes, and holds them back until they are to be handed on. A call that fails gives
/// and takes nothing.
pub struct MemPeer<D> {
    source: MemSource,
    sink: MemSink,
    handed: usize,
    last: Snapshot<D>,
    marks: Vec<Mark<D>>,
    starved: u64,
    unread: u64,
}

// Written out, so that letting a peer go is one step in each proof and not a walk through all that it holds.
impl<D> Drop for MemPeer<D> {
    fn drop(self) {
        let MemPeer {
            source: _,
            sink: _,
            handed: _,
            last: _,
            marks: _,
            starved: _,
            unread: _,
        } = self;
    }
}

impl<D: Disk> MemPeer<D> {
    ghost use Rattle.std.specs.Prelude.{◌≡◌, ◌<◌, [], max, take, vec_len, vec_capacity, IfOk};
    ghost use Rattle.outside_io.specs.MemSource.{source_bytes, source_piece};
    ghost use Rattle.peers.specs.MemPeer.{peer_bytes, peer_given, peer_since, peer_faults, peer_read_faults, bytes_handed, IsMarkedNow};

    /// A peer that gives these bytes, in pieces of at most so many, beside a disk. The reads and puts with these numbers, from 1, are to
    /// fail.
    pub fn new(
        alloc: Global,
        disk: &D,
        bytes: &[u8],
        piece: usize,
        failing_reads: List<u64>,
        failing_puts: List<u64>,
    ) -> Result<MemPeer<D>, NoMemory>
        ensures given { IfOk result (λ peer. peer_given peer ≡ []) }
        ensures taken { IfOk result (λ peer. peer_bytes peer ≡ []) }
        ensures handed { IfOk result (λ peer. bytes_handed peer ≡ []) }
        ensures to_give { IfOk result (λ peer. source_bytes peer.source ≡ bytes.now) }
        ensures piece { IfOk result (λ peer. source_piece peer.source ≡ max piece 1) }
        ensures since { IfOk result (λ peer. peer_since D.moment peer ≡ D.moment disk.now) }
        ensures unmarked { IfOk result (λ peer. peer.marks.items ≡ []) }
        ensures faults { IfOk result (λ peer. peer_faults peer ≡ 0) }
        ensures read_faults { IfOk result (λ peer. peer_read_faults peer ≡ 0) }
    {
        let source = MemSource::new(alloc, bytes, piece, failing_reads)?;
        Ok(MemPeer {
            source,
            sink: MemSink::new(alloc, failing_puts),
            handed: 0,
            last: Snapshot::of(disk),
            marks: Vec::new(alloc),
            starved: 0,
            unread: 0,
        })
    }

    /// The bytes taken.
    pub fn bytes(&self) -> &[u8]
        ensures { result.now ≡ peer_bytes self.now }
    {
        self.sink.bytes()
    }

    /// The bytes handed on.
    pub fn heard(&self) -> &[u8]
        ensures { result.now ≡ bytes_handed self.now }
    {
        let bytes = self.sink.bytes();
        &bytes[..self.handed.min(bytes.len())]
    }

    // Marks what was until now. There is room for a mark.
    fn mark(&mut self, disk: &D)
        requires { vec_len self.old.marks < vec_capacity self.old.marks }
        ensures { IsMarkedNow self.old disk.now self.new }
    {
        let from = std::mem::replace(&mut self.last, Snapshot::of(disk));
        self.marks.push_reserved(Mark {
            source: Snapshot::of(&self.source),
            sink: Snapshot::of(&self.sink),
            from,
            to: Snapshot::of(disk),
        });
    }
}

impl<D: Disk> Peer<D> for MemPeer<D> {
    ghost use Rattle.std.specs.Prelude.{Some};
    ghost use Rattle.outside_io.specs.MemSource.{source_ended};
    ghost use Rattle.peers.specs.MemPeer.{peer_bytes, peer_given, peer_since, peer_faults, peer_read_faults, bytes_handed};
    ghost use Rattle.peers.specs.MemPeer.{IsMarked, IsOnePut};

    ghost given = { λ peer. Some (peer_given peer) };

    ghost has_ended = { λ peer. source_ended peer.source };

    ghost read_faults = { peer_read_faults };

    ghost taken = { λ peer. Some (peer_bytes peer) };

    ghost handed_on = { λ peer. Some (bytes_handed peer) };

    ghost was_put = { IsOnePut };

    ghost faults = { peer_faults };

    ghost since = { peer_since D.moment };

    ghost past = { λ peer. IsMarked D.moment D.left_since peer.marks.items };

    fn put(&mut self, disk: &D, piece: &[u8]) -> Result<(), Failed> {
        if let Err(_) = self.marks.reserve(1) {
            self.starved = self.starved.saturating_add(1);
            return Err(Failed);
        }
        self.mark(disk);
        self.sink.put(piece)
    }

    fn flush(&mut self, _disk: &D) -> Result<(), Failed> {
        self.handed = self.sink.bytes().len();
        Ok(())
    }

    fn next_piece(&mut self, disk: &D, out: &mut [u8]) -> Result<usize, Failed> {
        if let Err(_) = self.marks.reserve(1) {
            self.unread = self.unread.saturating_add(1);
            return Err(Failed);
        }
        self.mark(disk);
        self.source.next_piece(out)
    }
}
