//! The program `bench_parts`: one part of the controller at a size that no test has, which a script of `bench/` times.
//!
//! `bench_parts sweeps TIMES` makes the stage table and the masks of the largest cell so many times, and prints how many stages that
//! were and how many bits the masks have (`bench/sweeps`). `bench_parts recovery GRANTS ROOM` recovers a journal of so many grants from a
//! disk in memory, and prints what was found and how long that took (`bench/recovery`).
#![tactic(auto)]

mod largest;
mod recovery;
mod sweeps;

use anyhow::{Context, Result, bail};
use recovery::recover_large;
use std::env;
use std::process::ExitCode;
use std::rt::{Clock, Env};
use sweeps::sweep_all;

fn main(rt: HostRuntime) -> ExitCode {
    match run(&rt) {
        Ok(()) => ExitCode::SUCCESS,
        Err(error) => {
            let _ = println!(rt; "{error:?}");
            ExitCode::from(1)
        }
    }
}

fn run<R: Env + Clock + Print + AllocGlobal>(rt: &R) -> Result<()> {
    let mut words = env::args(rt)?.skip(1);
    let part = words.next().context("no part")?;
    let count = words.next().context("no number")?;
    let count = count.parse().context("no number")?;
    match part.as_str() {
        "sweeps" => sweep_all(rt, count),
        "recovery" => {
            let room = words.next().context("no room")?;
            recover_large(rt, count, room.parse().context("no number")?)
        }
        _ => bail!("no such part: {part}"),
    }
}
