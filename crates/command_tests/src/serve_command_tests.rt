//! A conversation over objects in memory: in pieces of each size, and with each call of the outside failing in its turn.
use crate::same::assert_same;
use cell_texts::CommandEnd;
use cell_walks::Status;
use lists::List;
use outside_io::{CallKind, DiskCall, MemDisk, MemFiles};
use peers::MemPeer;
use serve_command::run_serve;
use std::alloc::Global;
use std::sync::Wait;
use std::test::Fail;

const CELL: &[u8] =
    b"version = 1\n[[resource]]\nname = \"M1\"\ncapacity = 1\norder = 1\n[[resource]]\nname = \"M2\"\ncapacity = 1\norder = 2\n\
      [[type]]\nname = \"A\"\nroute = [\"M1\", \"M2\"]\n[[type]]\nname = \"Z\"\nroute = [\"M2\", \"M1\"]\n";

const ASKED: &[u8] =
    b"left\n1 load 7 A\n2 load 8 Z\n1 grants\nwhy load 8 Z\n1 process M1\n0 move 7\n1 move 7";

const ANSWERED: &[u8] =
    b"shift 0 after 0\nleft 0\n1 load 7 A granted\n2 load 8 Z refused saturated M2 1 of 1\n1 grants 1\n\
      why load 8 Z refused saturated M2 1 of 1\n1 process M1 granted\nline refused 7\nleft 1\nplan 3\nmove 7\nprocess M2\nunload 7\n";

// What a station asks while the server runs, and what it is told.
const QUESTIONS: &[u8] =
    b"next\nroom\njob 9\n1 last\n1 place 9 A 1 waiting\njob 9\n1 process M2\n1 last\n2 last\nnext\n1 unload 9\n1 load 7 A\njob 7\n\
      1 last\nwhy place 9 A 1 done\n2 place 9 A 2 done\n2 place 9 A 1 done\nroom\njob\n";

const REPLIES: &[u8] =
    b"shift 0 after 0\nnext none\nroom 1572864\njob 9 none\n1 last 0 none\n1 place 9 A 1 waiting granted\njob 9 A 1 M2 waiting\n\
      1 process M2 granted\n1 last 2 process M2\n2 last 0 none\nnext unload 9\n1 unload 9 granted\n1 load 7 A granted\n\
      job 7 A 0 M1 waiting\n1 last 4 load 7 A\nline refused 15\nline refused 16\n2 place 9 A 1 done refused saturated M2 1 of 1\n\
      room 1572860\nline refused 19\nleft 1\nplan 4\nprocess M1\nmove 7\nprocess M2\nunload 7\n";

const ASKED_LATER: &[u8] = b"1 last\n2 last\nroom\njob 7\nnext\n";

const TOLD_LATER: &[u8] =
    b"shift 0 after 4\n1 last 4 load 7 A\n2 last 0 none\nroom 1572860\njob 7 A 0 M1 waiting\nnext process M1\nleft 1\nplan 4\n\
      process M1\nmove 7\nprocess M2\nunload 7\n";

// Sessions wait, ask meanwhile, give up, are served, and find their job loaded by another; and lines that ask nothing.
const WAITING: &[u8] =
    b"1 load 7 A\n2 wait load 8 Z\n3 wait load 9 A\n2 move 8\n2 cancel\n2 cancel\n2 wait load 9 Z\n2 grants\n1 process M1\n1 move 7\n\
      1 process M2\n1 unload 7\n3 grants\n4 wait load 8 Z\n5 wait unload 9\n5 wait place 1 A 1 done\nwait load 1 A\n5 wait\n";

const WAITED: &[u8] =
    b"shift 0 after 0\n1 load 7 A granted\n2 load 8 Z waits saturated M2 1 of 1\n3 load 9 A waits saturated M1 1 of 1\n\
      2 move 8 refused already-waiting\n2 cancel load 8 Z\n2 cancel none\n2 load 9 Z waits saturated M2 1 of 1\n2 grants 0\n\
      1 process M1 granted\n1 move 7 granted\n1 process M2 granted\n1 unload 7 granted\n3 load 9 A served\n2 load 9 Z dropped job-loaded\n\
      3 grants 1\n4 load 8 Z waits saturated M2 1 of 1\n5 unload 9 refused not-processed\nline refused 16\nline refused 17\n\
      line refused 18\n4 load 8 Z still saturated M2 1 of 1\nleft 1\nplan 4\nprocess M1\nmove 9\nprocess M2\nunload 9\n";

// Lists of the parts in the cell, and of those that stand in the way of a step; and lines that ask nothing.
const LISTS: &[u8] =
    b"parts\n1 load 7 Z\njobs load 9 Z\n1 process M2\n1 move 7\n1 load 9 Z\nparts\njobs load 8 A\njobs move 9\njobs load 9 Z\n\
      jobs process M1\njobs\njobs place 1 A 1 done\nparts 1\n1 parts\n";

const LISTED: &[u8] =
    b"shift 0 after 0\nparts 0\n1 load 7 Z granted\njobs load 9 Z 1\njob 7 Z 0 M2 waiting\n1 process M2 granted\n1 move 7 granted\n\
      1 load 9 Z granted\nparts 2\npart 7 Z 1 M1 waiting\npart 9 Z 0 M2 waiting\njobs load 8 A 1\njob 7 Z 1 M1 waiting\n\
      jobs move 9 0\njobs load 9 Z 0\njobs process M1 0\nline refused 12\nline refused 13\nline refused 14\nline refused 15\nleft 2\n\
      plan 6\nprocess M1\nunload 7\nprocess M2\nmove 9\nprocess M1\nunload 9\n";

// How a conversation ended, what was put and what of it was handed on, and what the disk holds.
#[derive(Drop)]
struct Held {
    status: Status,
    put: Vec<u8>,
    heard: Vec<u8>,
    journal: Vec<u8>,
}

impl Held {
    // How it ended, and what the peer has heard.
    fn told(&self) -> (Status, &[u8]) {
        (self.status, self.heard.as_slice())
    }
}

// A list of one value, or of none.
fn only<T: Drop>(alloc: Global, value: Option<T>) -> Result<List<T>, Fail> {
    let mut list = List::new(alloc);
    if let Some(value) = value {
        list.try_push(value)?;
    }
    Ok(list)
}

// A conversation after a journal, in pieces of this size; the listed reads, puts and calls of the disk fail.
fn hold<R: Wait>(
    rt: &R,
    alloc: Global,
    asked: &[u8],
    journal: &[u8],
    piece: usize,
    reads: List<u64>,
    puts: List<u64>,
    calls: List<DiskCall>,
) -> Result<Held, Fail> {
    let mut files = MemFiles::new(alloc, List::new(alloc));
    files.add("cell", CELL)?;
    let disk = MemDisk::new(alloc, journal, calls)?;
    let mut peer = MemPeer::new(alloc, &disk, asked, piece, reads, puts)?;
    let CommandEnd { status, disk } = run_serve(rt, alloc, &mut files, &mut peer, "cell", disk);
    Ok(Held {
        status,
        put: Vec::from_slice(alloc, peer.bytes())?,
        heard: Vec::from_slice(alloc, peer.heard())?,
        journal: Vec::from_slice(alloc, disk.bytes())?,
    })
}

// A conversation in which nothing fails.
fn hold_whole<R: Wait>(
    rt: &R,
    alloc: Global,
    asked: &[u8],
    journal: &[u8],
    piece: usize,
) -> Result<Held, Fail> {
    let (reads, puts, calls) = (List::new(alloc), List::new(alloc), List::new(alloc));
    hold(rt, alloc, asked, journal, piece, reads, puts, calls)
}

// One on a blank disk in which this read, put and call of the disk fail.
fn hold_failing<R: Wait>(
    rt: &R,
    alloc: Global,
    piece: usize,
    read: Option<u64>,
    put: Option<u64>,
    call: Option<DiskCall>,
) -> Result<Held, Fail> {
    let (reads, puts, calls) = (only(alloc, read)?, only(alloc, put)?, only(alloc, call)?);
    hold(rt, alloc, ASKED, b"", piece, reads, puts, calls)
}

#[test]
fn the_answers_are_the_same_for_each_size_of_the_pieces(rt: HostRuntime) -> Result<(), Fail> {
    let alloc = rt.alloc();
    for piece in [1, 2, 7, 19, 4096] {
        let held = hold_whole(&rt, alloc, ASKED, b"", piece)?;
        assert_same(&rt, held.told(), (Status::Done, ANSWERED));
        let later = hold_whole(&rt, alloc, ASKED, held.journal.as_slice(), piece)?;
        assert_same(&rt, later.status, Status::Done);
        assert!(rt;
            later.put.as_slice().starts_with(
                b"shift 0 after 2\nleft 1\n1 load 7 A refused job-loaded\n"
            )
        );
    }
    Ok(())
}

#[test]
fn questions_are_answered_after_what_was_asked_before(rt: HostRuntime) -> Result<(), Fail> {
    let alloc = rt.alloc();
    let first = hold_whole(&rt, alloc, QUESTIONS, b"", 4096)?;
    assert_same(&rt, first.told(), (Status::Done, REPLIES));
    let later = hold_whole(&rt, alloc, ASKED_LATER, first.journal.as_slice(), 4096)?;
    assert_same(&rt, later.told(), (Status::Done, TOLD_LATER));
    Ok(())
}

#[test]
fn waits_end_and_lists_have_a_line_for_each_part(rt: HostRuntime) -> Result<(), Fail> {
    for (asked, told) in [(WAITING, WAITED), (LISTS, LISTED)] {
        for piece in [1, 23, 4096] {
            let held = hold_whole(&rt, rt.alloc(), asked, b"", piece)?;
            assert_same(&rt, held.told(), (Status::Done, told));
        }
    }
    Ok(())
}

#[test]
fn a_put_that_fails_cuts_the_answers(rt: HostRuntime) -> Result<(), Fail> {
    for put in 1..14 {
        let held = hold_failing(&rt, rt.alloc(), 64, None, Some(put), None)?;
        assert_same(&rt, held.status, Status::SinkFault);
        assert!(rt; ANSWERED.starts_with(held.put.as_slice()));
    }
    Ok(())
}

#[test]
fn a_read_that_fails_ends_after_the_answers(rt: HostRuntime) -> Result<(), Fail> {
    let held = hold_failing(&rt, rt.alloc(), 17, Some(2), None, None)?;
    let answered: &[u8] = b"shift 0 after 0\nleft 0\n1 load 7 A granted\nread fault\n";
    assert_same(&rt, held.told(), (Status::ReadFault, answered));
    Ok(())
}

#[test]
fn a_sync_that_fails_halts_the_first_grant(rt: HostRuntime) -> Result<(), Fail> {
    for nth in 1..16 {
        let kind = CallKind::Sync;
        let held = hold_failing(
            &rt,
            rt.alloc(),
            4096,
            None,
            None,
            Some(DiskCall { kind, nth }),
        )?;
        let halted = b"shift 0 after 0\nleft 0\n1 load 7 A halted\n".as_slice();
        let put = held.put.as_slice();
        match held.status {
            Status::DeviceFault => assert!(rt;
                put == b"device fault\n".as_slice() || put == halted
            ),
            status => assert_same(&rt, status, Status::Done),
        }
    }
    Ok(())
}
