//! The sessions of a shift at the same time, each on a thread of its own.
ghost use Rattle.std.specs.Prelude.{◌≡◌, ℕ, ◌+◌, ◌<◌, length, slice_index_or, All};
ghost use Rattle.cell_base.specs.Fits.{ShiftFits};
ghost use Rattle.cell_base.specs.Scripts.{script_of};
ghost use Rattle.cell_lock.specs.Passes.{AreAll};
ghost use Rattle.cell_sessions.specs.Sessions.{HasRun};
ghost use Rattle.cell_sessions.specs.Progressing.{Starts, StartEach, place_of, progress_at};

use crate::progress::Progress;
use crate::session::run_session;
use cell_base::Shift;
use cell_lock::{Pass, SharedCell};
use durable_cell::Recall;
use outside_io::{Disk, Pace};
use std::sync::Wait;
use std::thread;
use std::thread::Threads;

/// Each session goes on through its script from its progress, with the pass of its number, all at the same time. It ends by the
/// rule of its script and the patience, or where it is answered a fault. It takes no memory. Where a thread can't be started, the
/// one that would start it does its work.
pub fn run_shift<R: Threads + Wait + Sync, D: Disk + Send, G: Recall + Send, P: Pace + Sync>(
    rt: &R,
    cell: &SharedCell<D, G>,
    passes: &mut [Pass<D, G>],
    progress: &[Progress],
    shift: &Shift,
    pace: &P,
)
    requires shift { ShiftFits cell.now.opening.cell shift.now }
    requires passes { AreAll cell.now passes.old }
    requires sessions { (length passes.old ≡ length shift.now.scripts) × (length progress.now ≡ length shift.now.scripts) }
    requires start { StartEach shift.now progress.now }
    ensures passes { AreAll cell.now passes.new }
    ensures run { (k : ℕ) (d : _) → k < length passes.old
        → HasRun (script_of shift.now (k + 1)) shift.now.patience (place_of (progress_at progress.now k))
        (slice_index_or passes.old k d) (slice_index_or passes.new k d) }
{
    run_all(rt, cell, passes, progress, shift, pace);
}

// As many threads as passes, each of which runs a session.
fn run_all<R: Threads + Wait + Sync, D: Disk + Send, G: Recall + Send, P: Pace + Sync>(
    rt: &R,
    cell: &SharedCell<D, G>,
    passes: &mut [Pass<D, G>],
    progress: &[Progress],
    shift: &Shift,
    pace: &P,
)
    requires shift { ShiftFits cell.now.opening.cell shift.now }
    requires lock { All (λ pass. pass.lock ≡ cell.now) passes.old }
    requires sessions { (length passes.old ≡ length shift.now.scripts) × (length progress.now ≡ length shift.now.scripts) }
    requires start { StartEach shift.now progress.now }
    ensures { (k : ℕ) (d : _) → k < length passes.old
        → HasRun (script_of shift.now (k + 1)) shift.now.patience (place_of (progress_at progress.now k))
        (slice_index_or passes.old k d) (slice_index_or passes.new k d) }
{
    let threads = passes.len().max(1);
    thread::for_each_mut(
        rt,
        passes,
        threads,
        &|k, pass| run_at(rt, cell, pass, k, progress, shift, pace),
    );
}

// Session `k + 1` goes on with its pass.
fn run_at<R: Wait, D: Disk, G: Recall, P: Pace>(
    rt: &R,
    cell: &SharedCell<D, G>,
    pass: &mut Pass<D, G>,
    k: usize,
    progress: &[Progress],
    shift: &Shift,
    pace: &P,
)
    requires lock { pass.old.lock ≡ cell.now }
    requires shift { ShiftFits cell.now.opening.cell shift.now }
    requires session { (k < length shift.now.scripts) × (k < length progress.now) }
    requires start { Starts (script_of shift.now (k + 1)) (progress_at progress.now k) }
    ensures { HasRun (script_of shift.now (k + 1)) shift.now.patience (place_of (progress_at progress.now k)) pass.old pass.new }
{
    let script = shift.scripts.get(k as u64);
    run_session(rt, cell, pass, script, shift.patience, progress[k], pace);
}
