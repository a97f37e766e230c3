//! Shows from outside what is proved of a shift on a journal, of which the device fails or stops, of sessions that run at the same time, of a
//! standby, and of a server. A line is printed for each table, and the first difference ends it.

mod at_once;
mod call;
mod conversing;
mod draws;
mod failing_device;
mod fed;
mod held_pace;
mod looks;
mod sample;
mod served;
mod shown;
mod spoken;
mod standbys;
mod stops;
mod stored;
mod under_lock;

use crate::interrupted::at_once::check_at_once;
use crate::interrupted::conversing::Outside;
use crate::interrupted::failing_device::{Left, check_failing_sync};
use crate::interrupted::looks::check_looks;
use crate::interrupted::sample::{ONE_SESSION, TWO_SESSIONS};
use crate::interrupted::served::{KINDS, Served};
use crate::interrupted::spoken::{ONE_GROUP, SINGLE_LINES, Spoken};
use crate::interrupted::standbys::{Drawn, check_drawn, check_stopped};
use crate::interrupted::stops::{Stopped, Stops, check_stops};
use anyhow::{Result, bail};
use std::alloc::Global;
use std::sync::Wait;
use std::thread::Threads;

/// Checks all of it.
pub fn check_all<R: Print + AllocGlobal + Threads + Wait + Sync>(rt: &R) -> Result<()> {
    let alloc = rt.alloc();
    fail_sync(rt, alloc, "an opened gate", 8)?;
    fail_sync(rt, alloc, "a record", 7)?;
    stop_one_session(rt, alloc)?;
    stop_two_sessions(rt, alloc)?;
    meet(rt, alloc)?;
    check_looks(rt, alloc)?;
    println!(rt; "looks at the plan under the lock, and asks after them: 2")?;
    stop_standbys(rt, alloc)?;
    draw_frames(rt, alloc)?;
    fail_served(rt, alloc, "single lines", SINGLE_LINES)?;
    fail_served(rt, alloc, "one group", ONE_GROUP)
}

fn fail_sync<R: Print + Threads + Wait + Sync>(
    rt: &R,
    alloc: Global,
    what: &str,
    nth: u64,
) -> Result<()> {
    let Left { one, two } = check_failing_sync(rt, alloc, nth)?;
    println!(rt; "the sync of {what} fails: {one} disks with one grant, {two} with two")?;
    Ok(())
}

fn stop_one_session<R: Print + Threads + Wait + Sync>(rt: &R, alloc: Global) -> Result<()> {
    let stopped = Stopped {
        shift: ONE_SESSION,
        is_alone: true,
    };
    let Stops { runs, disks } = check_stops(rt, alloc, stopped)?;
    println!(rt;
        "runs of one session stopped after each call: {runs}, disks that a crash leaves of them: {disks}"
    )?;
    Ok(())
}

fn stop_two_sessions<R: Print + Threads + Wait + Sync>(rt: &R, alloc: Global) -> Result<()> {
    let stopped = Stopped {
        shift: TWO_SESSIONS,
        is_alone: false,
    };
    let Stops { runs, disks } = check_stops(rt, alloc, stopped)?;
    println!(rt;
        "runs of two sessions stopped after so many calls: {runs}, disks that a crash leaves of them: {disks}"
    )?;
    Ok(())
}

fn meet<R: Print + Threads + Wait + Sync>(rt: &R, alloc: Global) -> Result<()> {
    let limits = check_at_once(rt, alloc)?;
    if limits != 0 {
        bail!("sessions that waited for one another: {limits} limits reached");
    }
    println!(rt; "two sessions that wait for one another: no limit reached")?;
    Ok(())
}

fn stop_standbys<R: Print + Threads + Wait + Sync>(rt: &R, alloc: Global) -> Result<()> {
    let Stops { runs, disks } = check_stopped(rt, alloc)?;
    println!(rt;
        "standbys stopped after each call: {runs}, disks that a crash leaves of them: {disks}"
    )?;
    Ok(())
}

fn draw_frames<R: Print + Threads + Wait + Sync>(rt: &R, alloc: Global) -> Result<()> {
    let Drawn {
        standbys,
        idle,
        grants,
    } = check_drawn(rt, alloc)?;
    println!(rt;
        "standbys to which frames come as they are drawn: {standbys}, grants before all have come: {grants}, calls that bring none: {idle}"
    )?;
    Ok(())
}

fn fail_served<R: Print + Wait>(rt: &R, alloc: Global, groups: &str, spoken: Spoken) -> Result<()> {
    let served = Served::new(rt, alloc, spoken)?;
    for (name, kind) in &KINDS {
        fail_kind(rt, alloc, groups, &served, name, *kind)?;
    }
    Ok(())
}

fn fail_kind<R: Print + Wait>(
    rt: &R,
    alloc: Global,
    groups: &str,
    served: &Served,
    name: &str,
    kind: Outside,
) -> Result<()> {
    let failed = served.check(rt, alloc, kind)?;
    println!(rt; "a conversation in {groups} with failing {name}: {failed}")?;
    Ok(())
}
