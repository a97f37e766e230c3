//! Disks of which one call fails, and go on after it.

use crate::held::{HELD, Held, LONG};
use crate::life::{During, Life, go_on, live};
use crate::silent_disk::SilentDisk;
use crate::stops::MOST_CALLS;
use anyhow::{Context, Result, bail};
use cell_base::List;
use outside_io::{CallKind, DiskCall};
use std::alloc::Global;

const KINDS: [CallKind; 4] = [
    CallKind::Len,
    CallKind::Read,
    CallKind::Write,
    CallKind::Sync,
];

/// Lets each call of a life of each disk fail in its turn, and answers how many lives that were.
pub fn check_faults(alloc: Global) -> Result<u64> {
    let mut lives = fail_calls(alloc, LONG)?;
    for held in HELD {
        lives = lives.wrapping_add(fail_calls(alloc, held)?);
    }
    Ok(lives)
}

fn fail_calls(alloc: Global, held: Held) -> Result<u64> {
    let mut lives = 0u64;
    for kind in KINDS {
        lives = lives.wrapping_add(fail_calls_of(alloc, held, kind)?);
    }
    Ok(lives)
}

// The first call of a kind, the second, and so on up to the life in which nothing fails.
fn fail_calls_of(alloc: Global, held: Held, kind: CallKind) -> Result<u64> {
    let name = held.name;
    for nth in 1..MOST_CALLS {
        let failed = faulty_life(alloc, held, DiskCall { kind, nth }).context(format_args!(
            "{name}, {kind:?} {nth} failed"
        ))?;
        if failed == During::Nothing {
            return Ok(nth.wrapping_sub(1));
        }
    }
    bail!("{name}: a life of {MOST_CALLS} calls of {kind:?}");
}

// Something failed exactly where the call did. The disk is opened again after it.
fn faulty_life(alloc: Global, held: Held, call: DiskCall) -> Result<During> {
    let mut fails = List::new(alloc);
    if fails.try_push(call).is_err() {
        bail!("no memory");
    }
    let disk = held.on_disk(alloc, fails)?;
    let Life { disk, held, failed } = live(alloc, SilentDisk::new(disk, alloc), held.grants)?;
    let faults = disk.faults();
    if faults != u64::from(failed != During::Nothing) {
        bail!("{faults} faults, and a failure during {failed:?}");
    }
    if failed != During::Nothing {
        go_on(alloc, disk, held, failed)?;
    }
    Ok(failed)
}
