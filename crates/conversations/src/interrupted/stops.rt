//! Runs on disks that stop after so many calls, and the runs that go on with what a crash leaves of them.

use crate::interrupted::call::{CallEnd, blank_disk, check, crash, run};
use crate::interrupted::sample::are_first;
use crate::interrupted::shown::{Shown, shown_in};
use crate::interrupted::stored::grants_on;
use anyhow::{Context, Result, bail};
use outside_io::{FreePace, MemDisk};
use std::alloc::Global;
use std::sync::Wait;
use std::thread::Threads;

// What is printed where the device fails before the first ask.
const FAULT: &str = "device fault\n";

// More calls than a run here has.
const MOST_CALLS: u64 = 64;

/// A shift, and whether it is of one session that is granted each of its steps.
#[derive(Clone, Copy)]
pub struct Stopped {
    pub shift: &'static str,
    pub is_alone: bool,
}

/// How many runs were stopped, and how many disks came of them.
#[derive(Clone, Copy)]
pub struct Stops {
    pub runs: u64,
    pub disks: u64,
}

/// Stops a run after no call, after one, and so on up to the run that one session ends with status 0. How many calls a run of
/// several sessions has depends on their turns, so these are stopped after each number of calls up to one that none has.
pub fn check_stops<R: Threads + Wait + Sync>(
    rt: &R,
    alloc: Global,
    stopped: Stopped,
) -> Result<Stops> {
    let mut stops = Stops { runs: 0, disks: 0 };
    let mut status = 7;
    for calls in 0..MOST_CALLS {
        if stopped.is_alone && status == 0 {
            break;
        }
        status = stop_run(rt, alloc, stopped, calls, &mut stops).context(format_args!(
            "stopped after {calls} calls"
        ))?;
    }
    if status != 0 {
        bail!("a run of {MOST_CALLS} calls");
    }
    Ok(stops)
}

// Stops a run on a blank disk, goes on with each disk that a crash leaves, and answers the status of the run.
fn stop_run<R: Threads + Wait + Sync>(
    rt: &R,
    alloc: Global,
    stopped: Stopped,
    calls: u64,
    stops: &mut Stops,
) -> Result<u8> {
    let mut disk = blank_disk(alloc)?;
    disk.stop_after(calls);
    let told = run(rt, alloc, stopped.shift, disk, &FreePace)?;
    let shown = shown_of(alloc, stopped, &told)?;
    for pick in 0..4u64 {
        check_crash(rt, alloc, stopped, &told, &shown, pick).context(format_args!("image {pick}"))?;
        stops.disks = stops.disks.wrapping_add(1);
    }
    stops.runs = stops.runs.wrapping_add(1);
    Ok(told.status)
}

// What a run printed, which ended with status 0, by a halt, or before the first ask.
fn shown_of(alloc: Global, stopped: Stopped, told: &CallEnd) -> Result<Shown> {
    let (status, text) = (told.status, told.text.as_str());
    let shown = shown_in(alloc, text)?;
    let has_ended = match status {
        0 => shown.halted.is_none(),
        7 => shown.halted.is_some() || text == FAULT,
        _ => false,
    };
    if !has_ended || stopped.is_alone && !are_first(shown.granted.as_slice()) {
        bail!("{text}= {status}");
    }
    Ok(shown)
}

// The disk that a crash leaves has the grants that were shown, and the shift goes on after them.
fn check_crash<R: Threads + Wait + Sync>(
    rt: &R,
    alloc: Global,
    stopped: Stopped,
    told: &CallEnd,
    shown: &Shown,
    pick: u64,
) -> Result<()> {
    let grants = grants_on(alloc, crash(alloc, &told.disk, pick)?)?;
    if !shown.may_leave(grants.as_slice()) || stopped.is_alone && !are_first(grants.as_slice()) {
        let text = told.text.as_str();
        bail!("{grants:?} after\n{text}", grants = grants.as_slice());
    }
    go_on(rt, alloc, stopped, told, crash(alloc, &told.disk, pick)?)
}

// Runs the shift again on a disk that a crash left. Its record goes on with the one that the first run printed.
fn go_on<R: Threads + Wait + Sync>(
    rt: &R,
    alloc: Global,
    stopped: Stopped,
    first: &CallEnd,
    disk: MemDisk,
) -> Result<()> {
    let again = run(rt, alloc, stopped.shift, disk, &FreePace)?;
    let (status, text) = (again.status, again.text.as_str());
    let is_empty = text.lines().any(|line| line == "left 0");
    if status != 0 || stopped.is_alone && !is_empty {
        bail!("the second run: {text}= {status}");
    }
    let record = match first.text.as_str() {
        FAULT => String::from_str(alloc, text)?,
        begun => format!(in alloc; "{begun}{text}")?,
    };
    let verdict = check(rt, alloc, record.as_str())?;
    verdict
        .is_to_be(0, "yes\n")
        .context(format_args!("{record}"))
}
