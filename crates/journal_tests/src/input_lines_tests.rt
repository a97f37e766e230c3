//! The same lines for each way in which a text may come.
use crate::same::assert_same;
use cell_base::{List, NoMemory};
use input_lines::InputLines;
use outside_io::{MemDisk, MemSink, MemSource};
use peers::Silent;
use std::alloc::Global;
use std::test::Fail;

const TEXT: &[u8] =
    b"1 load 7 A\n\nleft\n1234567890123456789012345678901234567890123456789012345678901234567890\n\
      \r\n2 move 7";

const LINES: &[u8] =
    b"1 load 7 A||left|1234567890123456789012345678901234567890123456789012345678901234567|\r|";

// A peer of which nothing is told, and so none of what it holds back: what it gives, in such pieces, is all that is asked of it.
fn peer_of(
    alloc: Global,
    text: &[u8],
    piece: usize,
    fails: List<u64>,
) -> Result<Silent<MemSource, MemSink>, NoMemory> {
    Ok(Silent {
        source: MemSource::new(alloc, text, piece, fails)?,
        sink: MemSink::new(alloc, List::new(alloc)),
    })
}

// The lines of a text that comes in such pieces, each with a bar.
fn barred(alloc: Global, piece: usize) -> Result<Vec<u8>, Fail> {
    let disk = MemDisk::new(alloc, b"", List::new(alloc))?;
    let mut peer = peer_of(alloc, TEXT, piece, List::new(alloc))?;
    let mut lines = InputLines::new(alloc)?;
    let mut barred = Vec::new(alloc);
    for _ in 0..1000 {
        if lines.next_line() {
            barred.extend_from_slice(lines.line())?;
            barred.push(b'|')?;
        } else if let Ok(0) = lines.fill(&mut peer, &disk) {
            break;
        }
    }
    Ok(barred)
}

#[test]
fn lines_are_the_same_for_each_size_of_the_pieces(rt: HostRuntime) -> Result<(), Fail> {
    for piece in [1, 2, 3, 7, 11, 12, 66, 67, 68, 4096] {
        let lines = barred(rt.alloc(), piece)?;
        assert_same(&rt, lines.as_slice(), LINES);
    }
    Ok(())
}

#[test]
fn a_read_that_fails_loses_nothing(rt: HostRuntime) {
    let alloc = rt.alloc();
    let mut fails = List::new(alloc);
    fails.try_push(2).expect(&rt, "memory");
    let disk = MemDisk::new(alloc, b"", List::new(alloc)).expect(&rt, "memory");
    let mut peer = peer_of(alloc, b"left\n", 3, fails).expect(&rt, "memory");
    let mut lines = InputLines::new(alloc).expect(&rt, "memory");
    let mut given = Vec::new(alloc);
    for _ in 0..5 {
        if lines.next_line() {
            given.extend_from_slice(lines.line()).expect(&rt, "memory");
        } else if lines.fill(&mut peer, &disk).is_err() {
            given.push(b'!').expect(&rt, "memory");
        }
    }
    assert_same(&rt, given.as_slice(), b"!left".as_slice());
}
