//! What the steps of a disk in memory leave, from its first bytes on.
ghost use Rattle.std.specs.Prelude.{◌≡◌, IfOk, OnOk};
ghost use Rattle.outside_io.specs.Images.{at_rest, is_within, is_written};
ghost use Rattle.outside_io.specs.DiskSteps.{after_step, after_steps};
ghost use Rattle.outside_io.specs.Replayed.{span_of, spans_of, state_of};

use crate::disk_steps::{DiskStep, with_bytes};
use lists::NoMemory;
use std::alloc::Global;

/// A range of offsets that was written, or may have been.
#[derive(Clone, Copy, Debug, PartialEq, Eq)]
pub(crate) struct WrittenSpan {
    pub(crate) at: u64,
    pub(crate) size: u64,
}

impl WrittenSpan {
    fn has(self, k: u64) -> bool
        ensures { result ≡ is_within k (span_of self) }
    {
        self.at <= k && k - self.at < self.size
    }
}

/// Whether an offset is in one of the spans.
pub(crate) fn any_has(spans: &[WrittenSpan], k: u64) -> bool
    ensures { result ≡ is_written (spans_of spans.now) k }
{
    for span in spans {
        if span.has(k) {
            return true;
        }
    }
    false
}

/// The bytes at the last sync that succeeded, those that a read finds, the spans written in between, the newest first, and the
/// greatest length that a crash may leave.
#[derive(Drop)]
pub(crate) struct Replayed {
    pub(crate) stable: Vec<u8>,
    pub(crate) seen: Vec<u8>,
    pub(crate) written: Vec<WrittenSpan>,
    pub(crate) longest: u64,
}

/// What the steps leave.
pub(crate) fn replay(alloc: Global, first: &[u8], steps: &[DiskStep]) -> Result<Replayed, NoMemory>
    ensures { IfOk result (λ state. state_of state ≡ after_steps (at_rest first.now) steps.now) }
{
    let mut state = Replayed {
        stable: first.to_vec(alloc)?,
        seen: first.to_vec(alloc)?,
        written: Vec::new(alloc),
        longest: first.len() as u64,
    };
    for step in steps {
        take_step(alloc, &mut state, step)?;
    }
    Ok(state)
}

fn take_step(alloc: Global, state: &mut Replayed, step: &DiskStep) -> Result<(), NoMemory>
    ensures { OnOk result (state_of state.new ≡ after_step (state_of state.old) step.now) }
{
    match step {
        DiskStep::Wrote { at, bytes } => {
            let size = bytes.len() as u64;
            state.seen = with_bytes(alloc, &state.seen, *at, bytes)?;
            state.written.insert(0, WrittenSpan { at: *at, size })?;
            state.longest = state.longest.max(state.seen.len() as u64);
        }
        DiskStep::Lost { at, end } => {
            let size = end.saturating_sub(*at);
            state.written.insert(0, WrittenSpan { at: *at, size })?;
            state.longest = state.longest.max(*at).max(*end);
        }
        DiskStep::Synced => {
            state.stable = state.seen.to_vec(alloc)?;
            state.written.clear();
            state.longest = state.seen.len() as u64;
        }
    }
    Ok(())
}
