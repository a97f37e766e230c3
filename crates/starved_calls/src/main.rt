//! The program `starved_calls`: one call of the controller over objects in memory, and how it ended. What refuses it memory runs outside.
//!
//! Its words are a file with what the disk holds, and then those of the call; each of these that is a file has its bytes in memory under
//! that name. `serve` is asked the lines of standard input, all at once. A line `called` stands before the call, so that a failure before
//! it is told from one in it. After it stand the status and how often the sink and the disk found no memory, and then in hexadecimal digits
//! what was printed and what the disk holds.
#![tactic(auto)]

use anyhow::{Context, Result, bail};
use cell_program::{Ended, cell_main, served_in};
use lists::List;
use outside_io::{FreePace, MemDisk, MemFiles, MemSink, MemSource};
use peers::Silent;
use serve_program::serve_main;
use std::io::{ErrorKind, Read};
use std::process::ExitCode;
use std::rt::{Env, Files};
use std::sync::Wait;
use std::thread::Threads;
use std::{env, fs};

// More bytes than the lines for `serve` have.
const PIECE: usize = 4096;

fn main(rt: HostRuntime) -> ExitCode {
    match play(&rt) {
        Ok(()) => ExitCode::SUCCESS,
        Err(error) => {
            let _ = println!(rt; "{error:?}");
            ExitCode::from(1)
        }
    }
}

// Makes the call that the words of the program are.
fn play<R: Env + Files + Input + Print + AllocGlobal + Threads + Wait + Sync>(
    rt: &R,
) -> Result<()> {
    let words = words_of(rt)?;
    let Some((journal, words)) = words.as_slice().split_first() else {
        bail!("no journal");
    };
    let bytes = fs::read(rt, journal.as_str())?;
    let disk = MemDisk::new(rt.alloc(), bytes.as_slice(), List::new(rt.alloc()));
    let disk = disk.ok().context("no memory")?;
    if served_in(words).is_some() {
        serve(rt, words, disk)
    } else {
        call(rt, words, disk)
    }
}

// Calls the controller, and prints how it ended.
fn call<R: Files + Print + AllocGlobal + Threads + Wait + Sync>(
    rt: &R,
    words: &[String],
    disk: MemDisk,
) -> Result<()> {
    let alloc = rt.alloc();
    let mut files = files_of(rt, words)?;
    let mut out = MemSink::new(alloc, List::new(alloc));
    println!(rt; "called")?;
    let Ended { status, disk } = cell_main(rt, alloc, words, &mut files, &mut out, disk, &FreePace);
    print_end(rt, status, &out, &disk)
}

// Serves the lines of standard input, and prints how that ended.
fn serve<R: Files + Input + Print + AllocGlobal + Wait>(
    rt: &R,
    words: &[String],
    disk: MemDisk,
) -> Result<()> {
    let alloc = rt.alloc();
    let mut files = files_of(rt, words)?;
    let mut lines = Vec::new(alloc);
    rt.reader().read_to_end(&mut lines)?;
    let input = MemSource::new(alloc, &lines, PIECE, List::new(alloc));
    let mut peer = Silent {
        source: input.ok().context("no memory")?,
        sink: MemSink::new(alloc, List::new(alloc)),
    };
    println!(rt; "called")?;
    let Ended { status, disk } = serve_main(rt, alloc, words, &mut files, &mut peer, disk);
    print_end(rt, status, &peer.sink, &disk)
}

// Prints how a call ended.
fn print_end<R: Print>(rt: &R, status: u8, out: &MemSink, disk: &MemDisk) -> Result<()> {
    let (of_sink, of_disk) = (out.starved(), disk.starved());
    println!(rt; "status {status} sink {of_sink} disk {of_disk}")?;
    print_bytes(rt, out.bytes())?;
    print_bytes(rt, disk.bytes())
}

// The words after the program's name.
fn words_of<R: Env + AllocGlobal>(rt: &R) -> Result<Vec<String>> {
    let mut words = Vec::new(rt.alloc());
    for word in env::args(rt)?.skip(1) {
        words.push(word)?;
    }
    Ok(words)
}

// The files that words name, in memory. A word that names none is passed over.
fn files_of<R: Files + AllocGlobal>(rt: &R, words: &[String]) -> Result<MemFiles> {
    let alloc = rt.alloc();
    let mut files = MemFiles::new(alloc, List::new(alloc));
    for word in words {
        match fs::read(rt, word.as_str()) {
            Ok(bytes) => {
                if files.add(word.as_str(), bytes.as_slice()).is_err() {
                    bail!("no memory");
                }
            }
            Err(error) if error.kind() == ErrorKind::NotFound => {}
            Err(error) => return Err(error.into()),
        }
    }
    Ok(files)
}

// Prints bytes in hexadecimal digits, on a line.
fn print_bytes<R: Print>(rt: &R, bytes: &[u8]) -> Result<()> {
    for byte in bytes {
        print!(rt; "{byte:02x}")?;
    }
    println!(rt; "")?;
    Ok(())
}
