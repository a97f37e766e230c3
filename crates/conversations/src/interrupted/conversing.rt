//! A conversation with a server, over objects in memory.

use crate::in_memory::{disk_with, listed};
use crate::interrupted::call::{CallEnd, files_with, owned};
use anyhow::{Context, Result};
use cell_program::Ended;
use lists::List;
use outside_io::{CallKind, DiskCall, MemDisk, MemSource};
use peers::{MemPeer, Peer, Silent};
use serve_program::serve_main;
use std::alloc::Global;
use std::sync::Wait;
use test_fixtures::TornSink;

/// A kind of call of the outside. Of a torn put the sink takes the first half of the piece.
#[derive(Clone, Copy, Debug)]
pub enum Outside {
    Disk(CallKind),
    Put,
    TornPut,
    Read,
}

/// The call of a kind that is to fail, numbered from 1.
#[derive(Clone, Copy)]
pub struct Failing {
    pub kind: Outside,
    pub nth: u64,
}

/// Lines that a server is asked, in pieces of at most so many bytes.
#[derive(Clone, Copy)]
pub struct Asked<'a> {
    pub lines: &'a str,
    pub piece: usize,
}

impl<'a> Asked<'a> {
    /// Asks them after the journal of these bytes.
    pub fn ask<R: Wait>(
        &self,
        rt: &R,
        alloc: Global,
        journal: &[u8],
        failing: Option<Failing>,
    ) -> Result<CallEnd> {
        match failing {
            Some(
                Failing {
                    kind: Outside::TornPut,
                    nth,
                },
            ) => self.ask_torn(rt, alloc, journal, nth),
            _ => self.ask_whole(rt, alloc, journal, failing),
        }
    }

    // Asks them where this call fails, or none; each piece is put whole.
    fn ask_whole<R: Wait>(
        &self,
        rt: &R,
        alloc: Global,
        journal: &[u8],
        failing: Option<Failing>,
    ) -> Result<CallEnd> {
        let call = match failing {
            Some(
                Failing {
                    kind: Outside::Disk(kind),
                    nth,
                },
            ) => Some(DiskCall { kind, nth }),
            _ => None,
        };
        let disk = disk_with(alloc, journal, call)?;
        let mut peer = self.peer(alloc, &disk, failing)?;
        let ended = ask_over(rt, alloc, disk, &mut peer)?;
        CallEnd::new(alloc, ended, peer.bytes())
    }

    // A peer that asks them, of which this put or this read fails, or none.
    fn peer(
        &self,
        alloc: Global,
        disk: &MemDisk,
        failing: Option<Failing>,
    ) -> Result<MemPeer<MemDisk>> {
        let (read, put) = match failing {
            Some(
                Failing {
                    kind: Outside::Read,
                    nth,
                },
            ) => (Some(nth), None),
            Some(
                Failing {
                    kind: Outside::Put,
                    nth,
                },
            ) => (None, Some(nth)),
            _ => (None, None),
        };
        let (reads, puts) = (listed(alloc, read)?, listed(alloc, put)?);
        let peer = MemPeer::new(alloc, disk, self.lines.as_bytes(), self.piece, reads, puts);
        peer.ok().context("no memory")
    }

    // Asks them where the nth put takes the first half of its piece.
    fn ask_torn<R: Wait>(
        &self,
        rt: &R,
        alloc: Global,
        journal: &[u8],
        nth: u64,
    ) -> Result<CallEnd> {
        let disk = disk_with(alloc, journal, None)?;
        let source = MemSource::new(alloc, self.lines.as_bytes(), self.piece, List::new(alloc));
        let mut peer = Silent {
            source: source.ok().context("no memory")?,
            sink: TornSink::new(alloc, nth.saturating_sub(1)),
        };
        let ended = ask_over(rt, alloc, disk, &mut peer)?;
        CallEnd::new(alloc, ended, peer.sink.bytes())
    }
}

// Serves what a peer asks.
fn ask_over<R: Wait, T: Peer<MemDisk>>(
    rt: &R,
    alloc: Global,
    disk: MemDisk,
    peer: &mut T,
) -> Result<Ended<MemDisk>> {
    let mut files = files_with(alloc, b"")?;
    let words = owned(alloc, &["serve", "cell", "journal"])?;
    Ok(serve_main(rt, alloc, &words, &mut files, peer, disk))
}
