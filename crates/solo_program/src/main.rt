//! The program `solo_program`: `solo CELL SHIFT` alone, over the files of the current folder and standard output.
//!
//! It puts the same bytes as `wishkabe`, and ends with the same status. It stands on no journal and on no other command, so a newcomer has
//! it long before the whole program.
#![tactic(auto)]

mod asked;
mod top;

use outside_io::NullDisk;
use real_outside::{DirFiles, OutSink, out_writer, words_after_name};
use std::io::Write;
use std::process::ExitCode;
use std::rt::{Clock, Files};
use top::solo_main;

fn main(rt: HostRuntime) -> ExitCode {
    let words = words_after_name(&rt);
    ExitCode::from(run_over(&rt, &words, out_writer(&rt, rt.alloc())))
}

// Plays the shift, and answers the status, or 8 where what was printed could not be written.
fn run_over<R: AllocGlobal + Files + Clock + Eprint, W: Write + Drop>(
    rt: &R,
    words: &[String],
    writer: W,
) -> u8 {
    let mut files = DirFiles::new(rt, false);
    let mut out = OutSink::new(writer);
    let ended = solo_main(rt.alloc(), words, &mut files, &mut out, NullDisk);
    match out.flush() {
        Ok(()) => ended.status.number(),
        Err(_) => 8,
    }
}
