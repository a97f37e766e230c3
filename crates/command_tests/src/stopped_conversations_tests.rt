//! Conversations that stop after each call of the disk, each put and each read. On each file that a crash may then leave a new conversation
//! is asked how many grants each session has. No session asks for two steps in one group, so it is told the number that it was told of,
//! or one more; and of each group all grants are there, or none.
use crate::same::assert_same;
use cell_texts::CommandEnd;
use cell_walks::Status;
use lists::List;
use outside_io::{MemDisk, MemFiles};
use peers::MemPeer;
use serve_command::run_serve;
use std::alloc::Global;
use std::sync::Wait;
use std::test::Fail;
use test_fixtures::CROSSING;

// Four groups, each of as many bytes as one read gives.
const ASKED: &str = "1 load 7 A
2 process M1
3 move 7
4 process M2
5 unload 7
1 load 8 Z
4 process M2
3 move 8
2 process M1
5 unload 8
1 load 7 A
2 load 8 Z
3 process M1
left
why load 8 Z
x y
3 move 7
4 process M2
5 unload 7
2 load 8 Z
6 process M2
";

const GROUP_BYTES: usize = 57;

// How many grants each session has after each of the groups, from session 1 on.
const COUNTS: [[u64; 6]; 5] = [
    [0, 0, 0, 0, 0, 0],
    [1, 1, 1, 1, 1, 0],
    [2, 2, 2, 2, 2, 0],
    [3, 2, 3, 2, 2, 0],
    [3, 3, 4, 3, 3, 1],
];

const QUESTIONS: &str = "1 grants\n2 grants\n3 grants\n4 grants\n5 grants\n6 grants\n";

/// What is stopped: the disk after so many calls, or the peer at the next put or read.
#[derive(Clone, Copy, Debug)]
enum Stop {
    Disk,
    Puts,
    Reads,
}

// Each kind of call, how the conversation ends that is stopped at one, how many calls it has, and how many drawn files are looked at. At a
// put and at a read the disk rests, so there is one.
const STOPS: [(Stop, Status, u64, u64); 3] = [
    (Stop::Disk, Status::DeviceFault, 24, 8),
    (Stop::Puts, Status::SinkFault, 27, 1),
    (Stop::Reads, Status::ReadFault, 5, 1),
];

/// How a conversation ended, what was put, and the disk.
#[derive(Drop)]
struct Held {
    status: Status,
    put: String,
    disk: MemDisk,
}

#[test]
fn each_session_is_told_the_grants_it_was_told_of_or_one_more(rt: HostRuntime) -> Result<(), Fail> {
    let alloc = rt.alloc();
    for (stop, status, calls, picks) in STOPS {
        for made in 0..calls {
            let held = hold_stopped(&rt, alloc, stop, made)?;
            assert_same(&rt, held.status, status);
            check_files(&rt, alloc, &held, picks)?;
        }
        let held = hold_stopped(&rt, alloc, stop, calls)?;
        assert_same(&rt, held.status, Status::Done);
        check_files(&rt, alloc, &held, picks)?;
    }
    Ok(())
}

// The conversation on a blank disk, stopped after so many calls of the kind.
fn hold_stopped<R: Wait>(rt: &R, alloc: Global, stop: Stop, made: u64) -> Result<Held, Fail> {
    let mut disk = MemDisk::new(alloc, b"", List::new(alloc))?;
    let (mut reads, mut puts) = (List::new(alloc), List::new(alloc));
    match stop {
        Stop::Disk => disk.stop_after(made),
        Stop::Puts => puts.try_push(made.saturating_add(1))?,
        Stop::Reads => reads.try_push(made.saturating_add(1))?,
    }
    hold(rt, alloc, ASKED, disk, reads, puts)
}

// A conversation in which these lines are asked, and these reads and puts fail.
fn hold<R: Wait>(
    rt: &R,
    alloc: Global,
    asked: &str,
    disk: MemDisk,
    reads: List<u64>,
    puts: List<u64>,
) -> Result<Held, Fail> {
    let mut files = MemFiles::new(alloc, List::new(alloc));
    files.add("cell", CROSSING)?;
    let asked = asked.as_bytes();
    let mut peer = MemPeer::new(alloc, &disk, asked, GROUP_BYTES, reads, puts)?;
    let CommandEnd { status, disk } = run_serve(rt, alloc, &mut files, &mut peer, "cell", disk);
    Ok(Held {
        status,
        put: String::from_utf8_lossy(alloc, peer.bytes())?,
        disk,
    })
}

// Asks on each file: on so many that numbers draw, and on those that are torn before a byte that isn't stable yet.
fn check_files<R: Wait>(rt: &R, alloc: Global, held: &Held, picks: u64) -> Result<(), Fail> {
    for pick in 0..picks {
        check_file(rt, alloc, held, held.disk.crash(alloc, pick)?)?;
    }
    let at_sync = held.disk.crash(alloc, 0)?;
    let (stable, seen) = (at_sync.bytes(), held.disk.bytes());
    for cut in 0..seen.len() {
        if stable.get(cut) != seen.get(cut) {
            let old_first = torn(alloc, stable, seen, cut)?;
            check_file(rt, alloc, held, old_first)?;
            let new_first = torn(alloc, seen, stable, cut)?;
            check_file(rt, alloc, held, new_first)?;
        }
    }
    Ok(())
}

// A disk with the bytes of the one before the cut, with zeros past its end, and those of the other after it.
fn torn(alloc: Global, front: &[u8], back: &[u8], cut: usize) -> Result<MemDisk, Fail> {
    let mut file = Vec::new(alloc);
    for offset in 0..cut {
        file.push(front.get(offset).copied().unwrap_or(0))?;
    }
    for byte in back.get(cut..).unwrap_or(&[]) {
        file.push(*byte)?;
    }
    Ok(MemDisk::new(alloc, &file, List::new(alloc))?)
}

// On this file whole groups are there, and each session is told the number of grants that it was told of, or one more.
fn check_file<R: Wait>(rt: &R, alloc: Global, held: &Held, disk: MemDisk) -> Result<(), Fail> {
    let (reads, puts) = (List::new(alloc), List::new(alloc));
    let answered = hold(rt, alloc, QUESTIONS, disk, reads, puts)?;
    let text = answered.put.as_str();
    for counts in COUNTS {
        if text.starts_with(counts_told(alloc, counts)?.as_str()) {
            return check_counts(alloc, held.put.as_str(), counts);
        }
    }
    Err(Fail::new(format_args!("no whole groups: {text}")))
}

// What a conversation begins with that is asked for these counts.
fn counts_told(alloc: Global, counts: [u64; 6]) -> Result<String, Fail> {
    let mut grants = 0u64;
    let mut lines = String::new(alloc);
    for (at, count) in counts.iter().enumerate() {
        grants = grants.saturating_add(*count);
        let session = at.saturating_add(1);
        lines.push_str(format!(in alloc; "{session} grants {count}\n")?.as_str())?;
    }
    Ok(format!(in alloc; "shift 0 after {grants}\n{lines}")?)
}

// Each session has as many grants as it was told of, or one more.
fn check_counts(alloc: Global, put: &str, counts: [u64; 6]) -> Result<(), Fail> {
    for (at, count) in counts.iter().enumerate() {
        let session = at.saturating_add(1);
        let front = format!(in alloc; "{session} ")?;
        let told = put
            .lines()
            .filter(|line| line.starts_with(front.as_str()) && line.ends_with(" granted"))
            .count() as u64;
        if *count != told && *count != told.saturating_add(1) {
            return Err(Fail::new(format_args!(
                "session {session} has {count} grants after\n{put}"
            )));
        }
    }
    Ok(())
}
