//! Standbys whose disks stop after so many calls, and standbys to which frames come as they are drawn. Each ends with the journal of the
//! first controller once all frames have come.

use crate::interrupted::call::{blank_disk, crash, follow};
use crate::interrupted::draws::Draws;
use crate::interrupted::fed::Fed;
use crate::interrupted::stops::Stops;
use anyhow::{Context, Result, bail};
use std::alloc::Global;
use std::sync::Wait;
use std::thread::Threads;

// More calls than a standby here has.
const MOST_CALLS: u64 = 128;

// How many standbys get drawn frames, and how often each.
const DRAWN: u64 = 200;

const TIMES: u64 = 3;

/// How many standbys got drawn frames, how many calls brought none of them a grant, and how many grants they had before all frames came.
#[derive(Clone, Copy)]
pub struct Drawn {
    pub standbys: u64,
    pub idle: u64,
    pub grants: u64,
}

/// Stops a standby on a blank disk after no call, after one, and so on up to the one that ends with status 0. Each disk that a crash may
/// leave then has the grants that were answered, and a standby goes on with it.
pub fn check_stopped<R: Threads + Wait + Sync>(rt: &R, alloc: Global) -> Result<Stops> {
    let fed = Fed::new(rt, alloc)?;
    let mut stops = Stops { runs: 0, disks: 0 };
    for calls in 0..MOST_CALLS {
        let status = stop(rt, alloc, &fed, calls, &mut stops);
        if status.context(format_args!("stopped after {calls} calls"))? == 0 {
            return Ok(stops);
        }
    }
    bail!("a standby of {MOST_CALLS} calls")
}

// Stops a standby after so many calls, and answers its status.
fn stop<R: Threads + Wait + Sync>(
    rt: &R,
    alloc: Global,
    fed: &Fed,
    calls: u64,
    stops: &mut Stops,
) -> Result<u8> {
    let mut disk = blank_disk(alloc)?;
    disk.stop_after(calls);
    let told = follow(rt, alloc, fed.frames(), disk)?;
    for pick in 0..4u64 {
        fed.check_left(alloc, &told, 0, pick)?;
        fed.give_all(rt, alloc, crash(alloc, &told.disk, pick)?)?;
        stops.disks = stops.disks.wrapping_add(1);
    }
    stops.runs = stops.runs.wrapping_add(1);
    Ok(told.status)
}

/// Hands frames that are lost, come again and come out of their order to standbys, and then all of them.
pub fn check_drawn<R: Threads + Wait + Sync>(rt: &R, alloc: Global) -> Result<Drawn> {
    let fed = Fed::new(rt, alloc)?;
    let mut draws = Draws::new();
    let mut drawn = Drawn {
        standbys: 0,
        idle: 0,
        grants: 0,
    };
    for number in 0..DRAWN {
        let checked = check_standby(rt, alloc, &fed, &mut draws, &mut drawn);
        checked.context(format_args!("standby {number}"))?;
    }
    Ok(drawn)
}

// Hands drawn frames to one standby.
fn check_standby<R: Threads + Wait + Sync>(
    rt: &R,
    alloc: Global,
    fed: &Fed,
    draws: &mut Draws,
    drawn: &mut Drawn,
) -> Result<()> {
    let mut disk = blank_disk(alloc)?;
    let mut known = 0;
    for _ in 0..TIMES {
        let told = follow(rt, alloc, &fed.drawn(alloc, draws)?, disk)?;
        let left = fed.check_left(alloc, &told, known, 0)?;
        if left == known {
            drawn.idle = drawn.idle.wrapping_add(1);
        }
        known = left;
        disk = told.disk;
    }
    drawn.standbys = drawn.standbys.wrapping_add(1);
    drawn.grants = drawn.grants.wrapping_add(known);
    fed.give_all(rt, alloc, disk)
}
