//! Two sessions that can only end where both run at the same time.
//!
//! Session 1 isn't let to its first ask before session 2 has come to its second one, and session 2 not to its second ask before session 1
//! has come to its own. A body that ran one session after the other, in whatever order, would hold the first of them up to the limit of
//! the pace. After the first two refusals nothing holds the sessions, so the other two stand in either order.

use crate::interrupted::call::{CallEnd, blank_disk, run};
use crate::interrupted::held_pace::HeldPace;
use crate::interrupted::sample::IDLE;
use anyhow::{Result, bail};
use std::alloc::Global;
use std::sync::Wait;
use std::thread::Threads;

const ONE: &str = "shift 1 after 0
2 process M2 refused idle
1 process M1 refused idle
1 process M1 refused idle
2 process M2 refused idle
left 0
plan 0
";

const OTHER: &str = "shift 1 after 0
2 process M2 refused idle
1 process M1 refused idle
2 process M2 refused idle
1 process M1 refused idle
left 0
plan 0
";

/// Runs both sessions, and answers how many limits were reached.
pub fn check_at_once<R: Threads + Wait + Sync>(rt: &R, alloc: Global) -> Result<u64> {
    let pace = HeldPace::new();
    let told = run(rt, alloc, IDLE, blank_disk(alloc)?, &pace)?;
    check_told(&told)?;
    Ok(pace.limits())
}

fn check_told(told: &CallEnd) -> Result<()> {
    let (status, text) = (told.status, told.text.as_str());
    if status != 0 || text != ONE && text != OTHER {
        bail!("{text}= {status}");
    }
    Ok(())
}
