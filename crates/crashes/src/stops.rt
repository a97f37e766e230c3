//! Disks that stop after so many calls, and every file that a crash may leave of them then.

use crate::answer::disk_with;
use crate::held::{HELD, Held};
use crate::life::{During, Life, go_on, live};
use crate::silent_disk::{PendingWrite, SilentDisk};
use crate::torn::{Torn, ways};
use anyhow::{Context, Result, bail};
use cell_base::List;
use std::alloc::Global;

/// More calls than a life has.
pub const MOST_CALLS: u64 = 60;

/// How many lives were stopped, and how many files came of them.
#[derive(Clone, Copy)]
pub struct Stops {
    pub lives: u64,
    pub files: u64,
}

/// Stops a life of each disk after each number of calls.
pub fn check_stops(alloc: Global) -> Result<Stops> {
    let mut stops = Stops { lives: 0, files: 0 };
    for held in HELD {
        stop_lives(alloc, held, &mut stops)?;
    }
    Ok(stops)
}

// Stops after no call, after one, and so on up to the life in which nothing fails.
fn stop_lives(alloc: Global, held: Held, stops: &mut Stops) -> Result<()> {
    let name = held.name;
    for calls in 0..MOST_CALLS {
        let life = stopped_life(alloc, held, calls).context(format_args!(
            "{name}, stopped after {calls} calls"
        ))?;
        let files = check_files(alloc, &life).context(format_args!(
            "{name}, stopped after {calls} calls"
        ))?;
        stops.lives = stops.lives.wrapping_add(1);
        stops.files = stops.files.wrapping_add(files);
        if life.failed == During::Nothing {
            return Ok(());
        }
    }
    bail!("{name}: a life of {MOST_CALLS} calls");
}

// The call that fails is the last one that is made.
fn stopped_life(alloc: Global, held: Held, calls: u64) -> Result<Life> {
    let mut disk = held.on_disk(alloc, List::new(alloc))?;
    disk.stop_after(calls);
    let life = live(alloc, SilentDisk::new(disk, alloc), held.grants)?;
    let made = life.disk.calls();
    if life.failed != During::Nothing && made != calls.wrapping_add(1) {
        bail!("{made} calls");
    }
    Ok(life)
}

// Goes on with each file that a crash may leave, and answers how many.
fn check_files(alloc: Global, life: &Life) -> Result<u64> {
    let picked = check_picks(alloc, life)?;
    let torn = match life.disk.pending() {
        Some(write) => check_torn(alloc, life, write)?,
        None => 0,
    };
    Ok(picked.wrapping_add(torn))
}

// The first images of the disk in memory.
fn check_picks(alloc: Global, life: &Life) -> Result<u64> {
    let picks = 4;
    for pick in 0..picks {
        let disk = life
            .disk
            .inner()
            .crash(alloc, pick)
            .ok()
            .context("no memory")?;
        go_on(alloc, disk, life.held, life.failed).context(format_args!("image {pick}"))?;
    }
    Ok(picks)
}

// The write that isn't stable, torn in each way.
fn check_torn(alloc: Global, life: &Life, write: &PendingWrite) -> Result<u64> {
    let stable = life.disk.inner().crash(alloc, 0).ok().context("no memory")?;
    let ways = ways(write.bytes.len());
    for number in 0..ways {
        let torn = Torn::numbered(number);
        let image = torn.image(alloc, stable.bytes(), write)?;
        go_on(alloc, disk_with(alloc, &image)?, life.held, life.failed).context(format_args!(
            "{torn:?}"
        ))?;
    }
    Ok(ways as u64)
}
