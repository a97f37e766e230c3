//! The line on standard error after a refusal.
use hints::{Ended, hint};
use journal_disk::FileDisk;
use real_outside::{DirFiles, Failure, OutSink, RegularFiles};
use std::fs::File;
use std::io::Write;
use std::rt::{Clock, Files};

/// A disk that tells which call of it failed last.
pub trait Fails {
    fn last_failure(&self) -> Option<Failure<'_>>;
}

impl<R: Files<File = File> + Clock + Eprint> Fails for FileDisk<'_, R> {
    fn last_failure(&self) -> Option<Failure<'_>> {
        self.failure()
    }
}

/// The call that failed, of what a status is about.
pub fn failure_of<'a, R: Files + Clock + Eprint, D: Fails, W: Write>(
    status: u8,
    files: &'a DirFiles<'_, R>,
    disk: &'a D,
    out: &OutSink<W>,
) -> Option<Failure<'a>> {
    match status {
        3 => files.failure(),
        7 => disk.last_failure(),
        8 => out.failure(),
        _ => None,
    }
}

/// Tells a person why a command ended with this status, in one line. Where no line can be made nothing is told.
pub fn tell<'a, R: AllocGlobal + Files + Clock + Eprint>(
    rt: &R,
    usage: &'a [u8],
    words: &'a [String],
    status: u8,
    line: &'a [u8],
    failure: Option<Failure<'a>>,
) {
    let ended = Ended {
        usage,
        words,
        status,
        line,
        failure,
    };
    let mut files = RegularFiles::new(rt);
    if let Some(told) = hint(rt.alloc(), &mut files, &ended) {
        let told = told.as_str();
        let _ = eprintln!(rt; "{told}");
    }
}
