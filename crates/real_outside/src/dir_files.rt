//! Files of the system by their paths.
ghost use Rattle.std.specs.Prelude.{◌≡◌, OnErr, None, [], ⊤};
ghost use Rattle.outside_io.specs.Causes.{HasFileCause};

use crate::failure::Failure;
use crate::progress::Progress;
use outside_io::{FileFail, Files};
use std::alloc::Global;
use std::fs::OpenFile;
use std::io::{ErrorKind, Read};
use std::rt::{Clock, Files as HostFiles};
use std::{fs, io};

/// The bytes that are read between two looks at the clock, where it is shown how much is read.
const PIECE: u64 = 1_048_576;

/// Files by their paths; a pipe is read to its end. It tells nothing of what they hold; `faults` counts the calls that failed, and
/// stays at its last value.
#[derive(Drop)]
pub struct DirFiles<'a, R> {
    rt: &'a R,
    faults: u64,
    progress: Progress<'a, R>,
    unread: Option<Unread>,
}

// The file that was last not read, and why.
#[derive(Drop)]
struct Unread {
    call: &'static str,
    name: String,
    error: io::Error,
}

impl<'a, R: HostFiles + Clock + Eprint> DirFiles<'a, R> {
    /// The files that a runtime opens, of which no call has failed yet. It may be shown how much of a long one is read.
    pub fn new(rt: &'a R, shows: bool) -> DirFiles<'a, R> {
        DirFiles {
            rt,
            faults: 0,
            progress: Progress::new(rt, shows),
            unread: None,
        }
    }

    /// The last call that failed, where there was memory for the name of its file.
    pub fn failure(&self) -> Option<Failure<'_>> {
        match &self.unread {
            Some(unread) => Some(Failure {
                call: unread.call,
                name: unread.name.as_str(),
                error: unread.error,
            }),
            None => None,
        }
    }

    // Keeps why a file was not read, and answers it; want of memory is no fault of the file.
    fn failed(
        &mut self,
        alloc: Global,
        call: &'static str,
        name: &str,
        error: io::Error,
    ) -> Result<(), FileFail>
        ensures { HasFileCause self.old.faults self.new.faults result }
    {
        if error.kind() == ErrorKind::OutOfMemory {
            return Err(FileFail::Memory);
        }
        self.unread = match String::from_str(alloc, name) {
            Ok(name) => Some(Unread { call, name, error }),
            Err(_) => None,
        };
        self.faults = self.faults.saturating_add(1);
        Err(FileFail::Failed)
    }
}

// Makes room for what an open file holds at this moment, and a byte to see its end by, so that it is read in place. It is a guess: a
// file that grows meanwhile, or a pipe, is read all the same.
fn make_room<F: OpenFile>(file: &F, most: u64, out: &mut Vec<u8>) -> io::Result<()>
    ensures { out.new.items ≡ out.old.items }
{
    let length = match file.metadata() {
        Ok(found) => found.len(),
        Err(_) => 0,
    };
    out.try_reserve_exact(length.min(most).saturating_add(1) as usize)?;
    Ok(())
}

// Makes `out` the first bytes of an open file, or leaves nothing. A read that a signal cut short is tried again.
fn read_first<R: Clock + Eprint, F: Read>(
    progress: &mut Progress<'_, R>,
    file: &mut F,
    name: &str,
    most: u64,
    out: &mut Vec<u8>,
) -> io::Result<()>
    ensures { OnErr result (out.new.items ≡ []) }
{
    out.clear();
    match read_pieces(progress, file, name, most, out) {
        Ok(()) => Ok(()),
        Err(error) => {
            out.clear();
            Err(error)
        }
    }
}

// Appends the first bytes of a file. Where it isn't shown how much is read, they are one piece.
fn read_pieces<R: Clock + Eprint, F: Read>(
    progress: &mut Progress<'_, R>,
    file: &mut F,
    name: &str,
    most: u64,
    out: &mut Vec<u8>,
) -> io::Result<()> {
    let piece = if progress.is_on() {
        PIECE.min(most)
    } else {
        most
    };
    let mut left = most;
    for _ in 0..u64::MAX {
        let read = file.by_ref().take(piece.min(left)).read_to_end(out)? as u64;
        left = left.saturating_sub(read);
        let is_whole = read < piece || left == 0;
        progress.show_part(name, out.len() as u64, is_whole);
        if is_whole {
            break;
        }
    }
    Ok(())
}

impl<R: HostFiles + Clock + Eprint> Files for DirFiles<'_, R> {
    ghost holds = { λ _. None };

    ghost is_sound = { λ _. ⊤ };

    ghost faults = { λ files. files.faults };

    fn read_file(
        &mut self,
        alloc: Global,
        name: &str,
        limit: u64,
        out: &mut Vec<u8>,
    ) -> Result<(), FileFail> {
        out.clear();
        let mut file = match fs::open(self.rt, name) {
            Ok(file) => file,
            Err(error) => return self.failed(alloc, "open", name, error),
        };
        if let Err(error) = make_room(&file, limit + 1, out) {
            return self.failed(alloc, "read", name, error);
        }
        match read_first(&mut self.progress, &mut file, name, limit + 1, out) {
            Ok(()) => Ok(()),
            Err(error) => self.failed(alloc, "read", name, error),
        }
    }
}
