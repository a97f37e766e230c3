//! A conversation played with each call of its journal's device failing in its turn. The failure is told, and what a crash
//! then leaves of the journal stands for the grants that were answered, or has the next one. The same call goes on from it
//! to where it ends without a failure.

use crate::scripted::call_end::CallEnd;
use crate::scripted::caller::{Caller, Failing};
use crate::scripted::command::{answers_frames, may_write};
use anyhow::{Context, Result, bail};
use outside_io::{CallKind, Disk, DiskCall, MemDisk};
use std::rt::Clock;
use std::str;
use std::sync::Wait;
use std::thread::Threads;

const KINDS: [CallKind; 4] = [
    CallKind::Len,
    CallKind::Read,
    CallKind::Write,
    CallKind::Sync,
];

/// Plays a call that ended like this with each call of the device failing.
pub fn play_device<R: Print + Clock + Threads + Wait + Sync>(
    caller: &Caller<'_, R>,
    words: &[String],
    whole: &CallEnd,
) -> Result<()> {
    for kind in KINDS {
        for nth in 1..=u64::MAX {
            let call = DiskCall { kind, nth };
            let is_made = fail_call(caller, words, whole, call).context(format_args!(
                "where {kind:?} {nth} fails"
            ))?;
            if !is_made {
                break;
            }
        }
    }
    Ok(())
}

// Plays it with this call failing. False where it isn't made: then all ends as it does without a failure.
fn fail_call<R: Print + Clock + Threads + Wait + Sync>(
    caller: &Caller<'_, R>,
    words: &[String],
    whole: &CallEnd,
    call: DiskCall,
) -> Result<bool> {
    let mut told = caller.call(words, Failing::Device(call))?;
    if told.is(whole.status, whole.text.as_slice(), whole.left()) {
        if fails_next(&mut told.disk, call.kind) {
            return Ok(false);
        }
        bail!("the failure is not told");
    }
    check_failed(caller, words, whole, &told)?;
    Ok(true)
}

// Whether the next call of a kind fails.
fn fails_next(disk: &mut MemDisk, kind: CallKind) -> bool {
    match kind {
        CallKind::Len => disk.len().is_err(),
        CallKind::Read => disk.read_at(0, &mut []).is_err(),
        CallKind::Write => disk.write_at(0, &[]).is_err(),
        CallKind::Sync => disk.sync().is_err(),
    }
}

// The failure is told in the place of the answer, or by an entry that halted, and a crash leaves a journal of the grants.
fn check_failed<R: Print + Clock + Threads + Wait + Sync>(
    caller: &Caller<'_, R>,
    words: &[String],
    whole: &CallEnd,
    told: &CallEnd,
) -> Result<()> {
    let before = plan_on(caller, words, caller.disk(caller.journal(words))?)?;
    let answered = if answers_frames(words) {
        acknowledged(whole.text.as_slice(), told, grants_of_any(&before))
    } else {
        answered_before_halt(whole.text.as_slice(), told)
    };
    if answered.is_none() {
        let left = if may_write(words) {
            told.left()
        } else {
            whole.left()
        };
        caller.check(told, 7, b"device fault\n", left)?;
    }
    for pick in [0u64, 1] {
        check_crash(caller, words, whole, told, &before, answered, pick)?;
    }
    Ok(())
}

// What such a crash leaves stands for the grants that were answered, or has the next one, and the call goes on from it.
fn check_crash<R: Print + Clock + Threads + Wait + Sync>(
    caller: &Caller<'_, R>,
    words: &[String],
    whole: &CallEnd,
    told: &CallEnd,
    before: &CallEnd,
    answered: Option<u64>,
    pick: u64,
) -> Result<()> {
    let plan = plan_after_crash(caller, words, told, pick)?;
    match answered {
        Some(answered) => check_grants(before, &plan, answered)?,
        None => caller.check(&plan, before.status, before.text.as_slice(), plan.left())?,
    }
    go_on(caller, words, whole, plan)
}

/// After the grants of before the journal has those that were answered, and at most one more.
pub fn check_grants(before: &CallEnd, plan: &CallEnd, answered: u64) -> Result<()> {
    let answered = grants_of(before)?.saturating_add(answered);
    let kept = grants_of(plan)?;
    if kept != answered && kept != answered.saturating_add(1) {
        bail!("{answered} grants were answered, and the journal has {kept}");
    }
    Ok(())
}

// After this plan the call ends with the same status as without a failure, and leaves the same journal.
fn go_on<R: Print + Clock + Threads + Wait + Sync>(
    caller: &Caller<'_, R>,
    words: &[String],
    whole: &CallEnd,
    plan: CallEnd,
) -> Result<()> {
    let CallEnd { disk, .. } = plan;
    let told = caller.call_on(words, disk, Failing::Nothing)?;
    caller.check(&told, whole.status, told.text.as_slice(), whole.left())
}

// How many grants were answered before the entry that halted, where that entry stands in the place of a grant.
fn answered_before_halt(whole: &[u8], told: &CallEnd) -> Option<u64> {
    let begun = told.text.strip_suffix(b"halted\n".as_slice())?;
    let rest = whole.strip_prefix(begun)?;
    if told.status != 7 || !rest.starts_with(b"granted\n") {
        return None;
    }
    Some(told.grants())
}

// How many grants were answered since the journal was opened, where the failure stands in the place of an answer.
fn acknowledged(whole: &[u8], told: &CallEnd, first: u64) -> Option<u64> {
    let rest = whole.strip_prefix(told.text.as_slice())?;
    if told.status != 7 || !rest.starts_with(b"ack ") {
        return None;
    }
    let text = str::from_utf8(told.text.as_slice()).ok()?;
    let mut known = first;
    for line in text.lines() {
        known = line.strip_prefix("ack ")?.parse::<u64>().ok()?;
    }
    Some(known.saturating_sub(first))
}

// The same of what may be no plan.
fn grants_of_any(plan: &CallEnd) -> u64 {
    grants_of(plan).unwrap_or(0)
}

/// The plan after the journal on a disk, for the cell that these words name.
pub fn plan_on<R: Print + Clock + Threads + Wait + Sync>(
    caller: &Caller<'_, R>,
    words: &[String],
    disk: MemDisk,
) -> Result<CallEnd> {
    let [_, cell, ..] = words else {
        bail!("a command without a cell");
    };
    let mut words = Vec::new(caller.alloc());
    for word in ["plan", cell.as_str(), "journal"] {
        words.push(String::from_str(caller.alloc(), word)?)?;
    }
    caller.call_on(words.as_slice(), disk, Failing::Nothing)
}

/// The plan after the journal that a crash leaves of the disk at the end of a call.
pub fn plan_after_crash<R: Print + Clock + Threads + Wait + Sync>(
    caller: &Caller<'_, R>,
    words: &[String],
    told: &CallEnd,
    pick: u64,
) -> Result<CallEnd> {
    let Ok(disk) = told.disk.crash(caller.alloc(), pick) else {
        bail!("no memory");
    };
    plan_on(caller, words, disk)
}

// How many grants a plan stands after.
fn grants_of(plan: &CallEnd) -> Result<u64> {
    let text = str::from_utf8(plan.text.as_slice())?;
    let head = text.lines().next().unwrap_or("");
    match head.strip_prefix("shift 0 after ") {
        Some(grants) => Ok(grants.parse::<u64>()?),
        None => bail!("no plan: {head}"),
    }
}
