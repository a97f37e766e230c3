//! What no clause says: what the calls do to real files, in the folder that a test runs in. `checks/real-outside` tests the rest.
use crate::same::assert_same;
use journal_disk::{FileDisk, Purpose};
use outside_io::{Disk, Failed, FileFail, Files, Pace, Sink, Source};
use real_outside::{DirFiles, InSource, OutSink, RestPace};
use std::fs;
use std::io::{self, Error, ErrorKind, Read, Write};
use std::os::unix::fs::FileExt;
use std::test::Fail;
use std::time::{Duration, Instant};

#[test]
fn a_file_is_read_up_to_its_limit(rt: HostRuntime) {
    fs::write(&rt, "read.toml", "version = 1").expect(&rt, "a file");
    let mut files = DirFiles::new(&rt, false);
    let mut out = Vec::new(rt.alloc());
    for (limit, wanted) in [
        (0, "v"),
        (6, "version"),
        (10, "version = 1"),
        (4294967295, "version = 1"),
    ] {
        assert_same(
            &rt,
            files.read_file(rt.alloc(), "read.toml", limit, &mut out),
            Ok(()),
        );
        assert_same(&rt, out.as_slice(), wanted.as_bytes());
    }
    for name in ["absent.toml", ".", ""] {
        assert_same(
            &rt,
            files.read_file(rt.alloc(), name, 6, &mut out),
            Err(FileFail::Failed),
        );
        assert_same(&rt, out.len(), 0);
    }
    fs::remove_file(&rt, "read.toml").expect(&rt, "a file");
}

fn may_be_sent<T: Send>(value: T) -> T {
    value
}

#[test]
fn a_journal_is_written_and_read_back(rt: HostRuntime) {
    let alloc = rt.alloc();
    let mut bytes = [0u8; 4];
    {
        let mut disk = may_be_sent(FileDisk::new(&rt, alloc, "journal", Purpose::ToAdd, false));
        assert_same(&rt, disk.len(), Ok(0));
        assert_same(&rt, disk.write_at(0, b"abc"), Ok(()));
        assert_same(&rt, disk.sync(), Ok(()));
        assert_same(&rt, disk.write_at(2, b"de"), Ok(()));
        assert_same(&rt, disk.read_at(0, &mut bytes), Ok(()));
        assert_same(&rt, bytes.as_slice(), b"abde".as_slice());
        assert_same(&rt, disk.read_at(1, &mut bytes), Err(Failed));
        assert!(rt; disk.was_absent());
    }
    let mut disk = FileDisk::new(&rt, alloc, "journal", Purpose::ToAdd, false);
    assert_same(&rt, disk.len(), Ok(4));
    assert!(rt; !disk.was_absent());
    fs::remove_file(&rt, "journal").expect(&rt, "a file");
}

#[test]
fn a_journal_has_one_writer_and_any_readers(rt: HostRuntime) {
    let alloc = rt.alloc();
    fs::write(&rt, "shared", "abde").expect(&rt, "a file");
    let mut reader = FileDisk::new(&rt, alloc, "shared", Purpose::ToRead, false);
    assert_same(&rt, reader.len(), Ok(4));
    let mut writer = FileDisk::new(&rt, alloc, "shared", Purpose::ToAdd, false);
    assert_same(&rt, writer.len(), Ok(4));
    for (purpose, len) in [(Purpose::ToAdd, Err(Failed)), (Purpose::ToRead, Ok(4))] {
        let other = FileDisk::new(&rt, alloc, "shared", purpose, false).len();
        assert_same(&rt, other, len);
    }
    assert_same(&rt, reader.sync(), Ok(()));
    assert_same(&rt, reader.write_at(0, b"x"), Err(Failed));
    assert!(rt; !reader.was_absent());
    fs::remove_file(&rt, "shared").expect(&rt, "a file");
}

// A journal of a cell text of no bytes, before and after the gate of its grant is opened.
const CLOSED: &[u8; 31] = b"\x01RUNCELL1\0\0\0\0\x000123456789abcdef\0";

const OPEN: &[u8; 31] = b"\x01RUNCELL1\0\0\0\0\x010123456789abcdef\0";

// Writes these bytes from the start of a file on.
fn write_over(rt: &HostRuntime, name: &str, bytes: &[u8]) -> Result<(), Fail> {
    fs::OpenOptions::new()
        .write(true)
        .open(rt, name)?
        .write_all_at(bytes, 0)?;
    Ok(())
}

// The bytes that a look at a file of these bytes reads, where others stand there before it reads.
fn looked(rt: &HostRuntime, before: &[u8], after: &[u8]) -> Result<Vec<u8>, Fail> {
    fs::write(rt, "looked", before)?;
    let mut look = FileDisk::new(rt, rt.alloc(), "looked", Purpose::ToRead, false);
    let _ = look.len()?;
    write_over(rt, "looked", after)?;
    let mut read = vec![in rt.alloc(); 9; before.len()]?;
    let (first, rest) = read.split_at_mut(before.len() / 2);
    look.read_at(0, first)?;
    look.read_at(first.len() as u64, rest)?;
    look.sync()?;
    fs::remove_file(rt, "looked")?;
    Ok(read)
}

#[test]
fn a_look_ends_where_the_journal_ended_when_it_began(rt: HostRuntime) -> Result<(), Fail> {
    for length in 1..31 {
        // Up to the whole head the file's own gate is the last one, and then the gate of the first record.
        let last = if length <= 13 { 0 } else { 13 };
        let mut wanted = *OPEN;
        wanted[last] = 0;
        assert_same(
            &rt,
            looked(&rt, &CLOSED[..length], OPEN)?.as_slice(),
            &wanted[..length],
        );
    }
    // What hasn't grown is read as it is, and so is what is no journal.
    for (before, after, wanted) in [
        (CLOSED.as_slice(), OPEN.as_slice(), OPEN.as_slice()),
        (&OPEN[..20], &OPEN[..20], &OPEN[..20]),
        (b"log", b"log of somebody", b"log"),
    ] {
        assert_same(&rt, looked(&rt, before, after)?.as_slice(), wanted);
    }
    Ok(())
}

#[test]
fn a_file_that_is_cut_shorter_is_a_fault(rt: HostRuntime) {
    fs::write(&rt, "cut", "abcd").expect(&rt, "a file");
    let mut look = FileDisk::new(&rt, rt.alloc(), "cut", Purpose::ToRead, false);
    assert_same(&rt, look.len(), Ok(4));
    fs::write(&rt, "cut", "abc").expect(&rt, "a file");
    assert_same(&rt, look.read_at(0, &mut [0]), Err(Failed));
    assert_same(&rt, look.sync(), Err(Failed));
    fs::remove_file(&rt, "cut").expect(&rt, "a file");
}

#[test]
fn a_file_that_is_exchanged_is_a_fault(rt: HostRuntime) {
    fs::write(&rt, "first", "abc").expect(&rt, "a file");
    let mut look = FileDisk::new(&rt, rt.alloc(), "first", Purpose::ToRead, false);
    assert_same(&rt, look.sync(), Ok(()));
    fs::write(&rt, "second", "abc").expect(&rt, "a file");
    fs::rename(&rt, "second", "first").expect(&rt, "a file");
    assert_same(&rt, look.sync(), Err(Failed));
    fs::remove_file(&rt, "first").expect(&rt, "a file");
    assert_same(&rt, look.sync(), Err(Failed));
}

#[test]
fn only_a_regular_file_is_a_journal(rt: HostRuntime) {
    for name in [".", "/dev/null", "", "absent/journal"] {
        let mut disk = FileDisk::new(&rt, rt.alloc(), name, Purpose::ToAdd, false);
        assert_same(&rt, disk.write_at(0, b"a"), Err(Failed));
        assert_same(&rt, disk.sync(), Err(Failed));
    }
    for name in [".", "/dev/null", ""] {
        let mut disk = FileDisk::new(&rt, rt.alloc(), name, Purpose::ToRead, false);
        assert_same(&rt, disk.len(), Err(Failed));
    }
}

#[test]
fn an_absent_file_is_read_as_an_empty_one(rt: HostRuntime) {
    let mut disk = FileDisk::new(&rt, rt.alloc(), "absent", Purpose::ToRead, false);
    assert_same(&rt, disk.sync(), Ok(()));
    assert_same(&rt, disk.len(), Ok(0));
    assert_same(&rt, disk.read_at(0, &mut []), Ok(()));
    assert_same(&rt, disk.read_at(0, &mut [0]), Err(Failed));
    assert_same(&rt, disk.write_at(0, b"a"), Err(Failed));
    assert!(rt; disk.was_absent());
    assert!(rt; !fs::exists(&rt, "absent").expect(&rt, "a file"));
}

// A writer of at most one byte a call. It is interrupted at its first call, and fails where a `!` comes.
#[derive(Drop)]
struct Slow {
    taken: Vec<u8>,
    was_interrupted: bool,
}

impl Write for Slow {
    fn write(&mut self, piece: &[u8]) -> io::Result<usize> {
        if !self.was_interrupted {
            self.was_interrupted = true;
            return Err(Error::from(ErrorKind::Interrupted));
        }
        match piece {
            [] => Ok(0),
            [b'!', ..] => Err(Error::from(ErrorKind::StorageFull)),
            [first, ..] => {
                self.taken.push(*first)?;
                Ok(1)
            }
        }
    }

    fn flush(&mut self) -> io::Result<()> {
        Ok(())
    }
}

#[test]
fn a_put_writes_all_or_fails(rt: HostRuntime) {
    let mut writer = Slow {
        taken: Vec::new(rt.alloc()),
        was_interrupted: false,
    };
    let mut out = OutSink::new(&mut writer);
    assert_same(&rt, out.put(b"yes\n"), Ok(()));
    assert_same(&rt, out.put(b"no!\n"), Err(Failed));
    assert_same(&rt, out.flush(), Ok(()));
    assert_same(&rt, writer.taken.as_slice(), b"yes\nno".as_slice());
}

// A reader whose calls answer in turn: a signal, two bytes, a failure, and the end.
#[derive(Drop)]
struct Broken {
    calls: u64,
}

impl Read for Broken {
    fn read(&mut self, out: &mut [u8]) -> io::Result<usize> {
        self.calls = self.calls.saturating_add(1);
        match (self.calls, out) {
            (1, _) => Err(Error::from(ErrorKind::Interrupted)),
            (2, [first, second, ..]) => {
                *first = b'o';
                *second = b'k';
                Ok(2)
            }
            (3, _) => Err(Error::from(ErrorKind::WouldBlock)),
            _ => Ok(0),
        }
    }
}

#[test]
fn a_read_that_a_signal_cuts_short_is_made_again(rt: HostRuntime) {
    let mut reader = Broken { calls: 0 };
    let mut source = InSource::new(&mut reader);
    let mut bytes = [0u8; 4];
    assert_same(&rt, source.next_piece(&mut bytes), Ok(2));
    assert_same(&rt, bytes.as_slice(), b"ok\0\0".as_slice());
    assert_same(&rt, source.next_piece(&mut bytes), Err(Failed));
    assert_same(&rt, source.next_piece(&mut bytes), Ok(0));
    assert_same(&rt, reader.calls, 4);
}

#[test]
fn a_session_rests_before_each_ask_but_the_first(rt: HostRuntime) {
    let pace = RestPace::new(&rt);
    let start = Instant::now(&rt).expect(&rt, "a clock");
    pace.turn(&rt, 1, 0);
    pace.turn(&rt, 1, 1);
    assert!(rt; start.elapsed(&rt).expect(&rt, "a clock") >= Duration::from_millis(1));
}
