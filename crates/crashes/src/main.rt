//! The program `crashes`: shows from outside what is proved of a journal and its recovery, over every case of its tables. It
//! prints a line a table, and ends with status 1 at the first difference.
#![tactic(auto)]

mod answer;
mod cuts;
mod faults;
mod file;
mod given;
mod held;
mod life;
mod records;
mod sample;
mod silent_disk;
mod stops;
mod texts;
mod torn;

use anyhow::Result;
use cuts::{EVERY_CUT, PIECES, ROOMS, check_cuts};
use faults::check_faults;
use given::check_given;
use records::check_records;
use std::process::ExitCode;
use stops::{Stops, check_stops};
use texts::check_texts;

fn main(rt: HostRuntime) -> ExitCode {
    match check_all(&rt) {
        Ok(()) => ExitCode::SUCCESS,
        Err(error) => {
            let _ = println!(rt; "{error:?}");
            ExitCode::from(1)
        }
    }
}

fn check_all<R: Print + AllocGlobal>(rt: &R) -> Result<()> {
    let alloc = rt.alloc();
    let records = check_records()?;
    println!(rt; "records both ways: {records}")?;
    let files = check_given(alloc)?;
    println!(rt; "given files: {files}")?;
    let texts = check_texts(alloc)?;
    println!(rt; "cell texts that are not the journal's: {texts}")?;
    let files = check_cuts(alloc, &EVERY_CUT)?;
    println!(rt; "a journal of five grants cut to each length: {files}")?;
    let files = check_cuts(alloc, &ROOMS)?;
    println!(rt; "journals with little room: {files}")?;
    let files = check_cuts(alloc, &PIECES)?;
    println!(rt; "journals in pieces: {files}")?;
    let Stops { lives, files } = check_stops(alloc)?;
    println!(rt;
        "disks stopped after each call: {lives}, files that a crash may leave of them: {files}"
    )?;
    let lives = check_faults(alloc)?;
    println!(rt; "disks of which each call failed: {lives}")?;
    Ok(())
}
