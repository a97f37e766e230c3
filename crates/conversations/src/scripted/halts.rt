//! A run whose sessions ask at the same time, played with writes and syncs of its journal's device failing. It halts, what a crash then
//! leaves of the journal stands for the grants that were answered or has one more, and the run goes on from it to the same end.

use crate::scripted::call_end::CallEnd;
use crate::scripted::caller::{Caller, Failing};
use crate::scripted::device::{check_grants, plan_after_crash, plan_on};
use anyhow::{Context, Result};
use outside_io::{CallKind, DiskCall};
use std::rt::Clock;
use std::sync::Wait;
use std::thread::Threads;

// A write or a sync fails where this divides its number. It is odd, so that each half of the writing of a grant fails.
const EACH: u64 = 21;

// The first sync of the first grant, and its second write: on a blank disk four syncs and three writes come before it.
const FIRST: u64 = 5;

/// Plays a run on no journal that ended like this with such calls failing, up to the last write. Each grant has two syncs and two writes.
pub fn play_halts<R: Print + Clock + Threads + Wait + Sync>(
    caller: &Caller<'_, R>,
    words: &[String],
    whole: &CallEnd,
) -> Result<()> {
    let end = whole.grants().saturating_mul(2).saturating_add(4);
    for kind in [CallKind::Write, CallKind::Sync] {
        for nth in FIRST..end {
            if nth % EACH == 0 {
                let call = DiskCall { kind, nth };
                fail_call(caller, words, whole, call).context(format_args!(
                    "where {kind:?} {nth} fails"
                ))?;
            }
        }
    }
    Ok(())
}

fn fail_call<R: Print + Clock + Threads + Wait + Sync>(
    caller: &Caller<'_, R>,
    words: &[String],
    whole: &CallEnd,
    call: DiskCall,
) -> Result<()> {
    let told = caller.call(words, Failing::Device(call))?;
    check_halted(caller, words, whole, &told)
}

// The run halted, and goes on from what a crash leaves.
fn check_halted<R: Print + Clock + Threads + Wait + Sync>(
    caller: &Caller<'_, R>,
    words: &[String],
    whole: &CallEnd,
    told: &CallEnd,
) -> Result<()> {
    if told.status != 7 || !told.text.ends_with(b" halted\n") {
        return caller.end_otherwise("an entry that halted, and status 7\n", told);
    }
    let before = plan_on(caller, words, caller.disk(caller.journal(words))?)?;
    for pick in [0u64, 1] {
        go_on_after(caller, words, whole, told, &before, pick)?;
    }
    Ok(())
}

// What such a crash leaves of a run that was halted has the grants that were answered, or one more, and the run goes on from it.
fn go_on_after<R: Print + Clock + Threads + Wait + Sync>(
    caller: &Caller<'_, R>,
    words: &[String],
    whole: &CallEnd,
    told: &CallEnd,
    before: &CallEnd,
    pick: u64,
) -> Result<()> {
    let plan = plan_after_crash(caller, words, told, pick)?;
    check_grants(before, &plan, told.grants())?;
    go_on(caller, words, whole, plan)
}

// After this plan the run comes to the same end.
fn go_on<R: Print + Clock + Threads + Wait + Sync>(
    caller: &Caller<'_, R>,
    words: &[String],
    whole: &CallEnd,
    plan: CallEnd,
) -> Result<()> {
    let CallEnd { disk, .. } = plan;
    let CallEnd { disk, .. } = caller.call_on(words, disk, Failing::Nothing)?;
    check_end(caller, words, whole, &plan_on(caller, words, disk)?)
}

// This plan is the one after the whole run.
fn check_end<R: Print + Clock + Threads + Wait + Sync>(
    caller: &Caller<'_, R>,
    words: &[String],
    whole: &CallEnd,
    ended: &CallEnd,
) -> Result<()> {
    let wanted = plan_on(caller, words, caller.disk(whole.left())?)?;
    caller.check(ended, wanted.status, wanted.text.as_slice(), ended.left())
}
