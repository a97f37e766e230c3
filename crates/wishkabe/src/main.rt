//! The program `wishkabe`: runs the command that its words name, over the files of the current folder, a journal's file, standard
//! input and standard output. A person at a terminal is told on standard error how far a long command is, why one was refused, and what can't
//! be seen of a line that `serve` refuses; whoever calls it is told there of a journal that is not there.
#![tactic(auto)]

use cell_program::{Journal, cell_main, journal_in, served_in, usage};
use journal_disk::{FileDisk, Purpose};
use outside_io::{Disk, Pace};
use real_outside::{DirFiles, InSource, OutSink, RestPace, SeenSink, out_writer, words_after_name};
use serve_program::serve_main;
use std::fs::File;
use std::io::{IsTerminal, Write};
use std::process::ExitCode;
use std::rt::{Clock, Files};
use std::sync::Wait;
use std::thread::Threads;
use terminal::{Fails, Gathered, Manner, Watched, absence_line, failure_of, tell};

fn main(rt: HostRuntime) -> ExitCode {
    let words = words_after_name(&rt);
    let manner = Manner::of(&rt, rt.stderr().is_terminal());
    let (name, purpose) = journal_of(&words);
    let absence = if manner.tells_absence {
        absence_line(rt.alloc(), name, purpose)
    } else {
        None
    };
    let is_served = served_in(&words).is_some();
    let shows_progress = manner.shows_progress && !is_served;
    let disk = FileDisk::new(&rt, rt.alloc(), name, purpose, shows_progress).telling(
        absence.as_ref().map(String::as_str),
    );
    let writer = out_writer(&rt, rt.alloc());
    let status = if is_served {
        serve(&rt, &words, writer, disk, manner)
    } else {
        let pace = RestPace::new(&rt);
        run_over(&rt, &words, writer, disk, &pace, manner)
    };
    ExitCode::from(status)
}

// Serves the lines of standard input: the answers of a group are one write. Nothing is told of how far it is, since its lines are read as
// they come.
fn serve<
    R: AllocGlobal + Clock + Eprint + Files<File = File> + Input + Wait,
    W: Write + Drop,
    D: Disk + Fails + Drop,
>(rt: &R, words: &[String], writer: W, disk: D, manner: Manner) -> u8 {
    let alloc = rt.alloc();
    let mut files = DirFiles::new(rt, false);
    let mut peer = Gathered {
        source: Watched::new(rt, InSource::new(rt.reader()), manner.gives_hints),
        sink: SeenSink::new(rt, OutSink::new(writer), manner.seen()),
    };
    let ended = serve_main(rt, alloc, words, &mut files, &mut peer, disk);
    if manner.gives_hints {
        let failure = failure_of(ended.status, &files, &ended.disk, peer.sink.inner());
        tell(rt, usage(), words, ended.status, peer.sink.line(), failure);
    }
    ended.status
}

// Runs another command, and answers its status, or 8 where what it printed could not be written.
fn run_over<
    R: AllocGlobal + Files + Clock + Eprint + Threads + Wait + Sync,
    W: Write + Drop,
    D: Disk + Fails + Send + Drop,
    P: Pace + Sync,
>(rt: &R, words: &[String], writer: W, disk: D, pace: &P, manner: Manner) -> u8 {
    let mut files = DirFiles::new(rt, manner.shows_progress);
    let mut out = SeenSink::new(rt, OutSink::new(writer), manner.seen());
    let alloc = rt.alloc();
    let ended = cell_main(rt, alloc, words, &mut files, &mut out, disk, pace);
    let status = match out.inner().flush() {
        Ok(()) => ended.status,
        Err(_) => 8,
    };
    if manner.gives_hints {
        let failure = failure_of(status, &files, &ended.disk, out.inner());
        tell(rt, usage(), words, status, out.line(), failure);
    }
    status
}

// The journal that the words name, and what it is opened for. Words without one have the empty name, which no file has.
fn journal_of(words: &[String]) -> (&str, Purpose) {
    match journal_in(words) {
        Some(Journal::Read(name)) => (name, Purpose::ToRead),
        Some(Journal::Added(name)) => (name, Purpose::ToAdd),
        None => ("", Purpose::ToRead),
    }
}
