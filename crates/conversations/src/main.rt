//! The program `conversations`: calls of the whole controller over objects in memory, compared with what each is to print, its status and what
//! it is to leave of its journal. It plays the conversations of the scripts that its words name, and then the runs that are
//! interrupted. It prints a line for each conversation and each table of runs, and ends with status 1 where one didn't go as it is to go.
#![tactic(auto)]

mod in_memory;
mod interrupted;
mod scripted;

use anyhow::{Result, bail};
use std::process::ExitCode;
use std::rt::{Clock, Env, Files};
use std::sync::Wait;
use std::thread::Threads;

fn main(rt: HostRuntime) -> ExitCode {
    match play_all(&rt) {
        Ok(()) => ExitCode::SUCCESS,
        Err(error) => {
            let _ = println!(rt; "{error:?}");
            ExitCode::from(1)
        }
    }
}

fn play_all<R: Env + Files + Print + AllocGlobal + Clock + Threads + Wait + Sync>(
    rt: &R,
) -> Result<()> {
    let otherwise = scripted::play_all(rt)?;
    interrupted::check_all(rt)?;
    if otherwise != 0 {
        bail!("{otherwise} conversations went otherwise");
    }
    Ok(())
}
