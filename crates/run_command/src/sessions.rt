//! The sessions of a shift after the grants of a journal: started, run under the lock, and what comes of them.
ghost use Rattle.std.specs.Prelude.{◌≡◌, ◌*◌, IfOk, length};
ghost use Rattle.cell_walks.specs.Clauses.{disk_told};
ghost use Rattle.journal_texts.specs.Clauses.{EntriesFit, IsFresh, recorded_outcome};
ghost use Rattle.run_command.specs.Clauses.{AreBegun, AreDue, AreFirstSteps, HasStarted, IsAfterSessions, IsShiftRun};
ghost use Rattle.run_command.specs.Clauses.{ShiftFits, StandsForAdded, first_of_shift, new_passes, opening_of, steps_of};

use cell_base::{List, NoMemory, Shift};
use cell_lock::{Pass, SharedCell};
use cell_sessions::laws::own_grants_law;
use cell_sessions::{BeginFault, Progress, ShiftGrants, begin, run_shift};
use cell_texts::{Answered, Made};
use cell_walks::EarlyEnd;
use durable_cell::{Durable, Recalled, durable_law};
use journal_texts::{Recorded, at_other_shift, give_back, record_of};
use outside_io::{Disk, Pace};
use std::alloc::Global;
use std::sync::Wait;
use std::thread::Threads;

/// Runs the sessions from where they start after the grants of the opening, of which those of the shift's number are told; or gives the
/// disk back with the early end in the place of their record.
pub fn start<R: Threads + Wait + Sync, D: Disk + Send, P: Pace + Sync>(
    rt: &R,
    alloc: Global,
    durable: Durable<D, Recalled>,
    own: &ShiftGrants,
    shift: &Shift,
    pace: &P,
) -> Answered<Recorded, D>
    requires fresh { IsFresh durable }
    requires limit { durable.limit ≡ steps_of shift.now * shift.now.patience }
    requires shift { ShiftFits durable.cell shift.now }
    requires own { own.now.grants ≡ first_of_shift shift.now.number durable.opening }
    ensures started { HasStarted (disk_told D.reads_as D.may_leave D.moment D.left_since D.faults durable.entry result.disk)
        durable.cell durable.text shift.now durable.opening result.made }
    ensures due { AreDue durable.cell durable.opening }
    ensures fits { IfOk result.made EntriesFit }
{
    durable_law(&durable);
    own_grants_law(shift);
    match begin(alloc, shift, own.grants.as_slice()) {
        Ok(progress) => share(rt, alloc, durable, progress, shift, pace),
        Err(BeginFault::OtherShift { session }) => give_back(durable, at_other_shift(session)),
        Err(BeginFault::Memory) => give_back(durable, EarlyEnd::WantOfMemory),
    }
}

// Puts the durable cell under a lock, and runs the sessions.
fn share<R: Threads + Wait + Sync, D: Disk + Send, P: Pace + Sync>(
    rt: &R,
    alloc: Global,
    durable: Durable<D, Recalled>,
    progress: List<Progress>,
    shift: &Shift,
    pace: &P,
) -> Answered<Recorded, D>
    requires fresh { IsFresh durable }
    requires limit { durable.limit ≡ steps_of shift.now * shift.now.patience }
    requires shift { ShiftFits durable.cell shift.now }
    requires started { AreFirstSteps shift.now durable.opening }
    requires begun { AreBegun shift.now durable.opening progress }
    ensures started { HasStarted (disk_told D.reads_as D.may_leave D.moment D.left_since D.faults durable.entry result.disk)
        durable.cell durable.text shift.now durable.opening result.made }
    ensures fits { IfOk result.made EntriesFit }
{
    match SharedCell::open(alloc, durable, shift.number, shift.scripts.len() as u16) {
        Ok((cell, passes)) => {
            let durable = run_sessions(rt, cell, passes, &progress, shift, pace);
            let Made {
                made: recorded,
                disk,
            } = finish(durable, shift);
            Made {
                made: Ok(recorded),
                disk,
            }
        }
        Err((durable, NoMemory)) => give_back(durable, EarlyEnd::WantOfMemory),
    }
}

// Runs the sessions to their ends, and gives the durable cell after them.
fn run_sessions<R: Threads + Wait + Sync, D: Disk + Send, P: Pace + Sync>(
    rt: &R,
    cell: SharedCell<D, Recalled>,
    mut passes: List<Pass<D, Recalled>>,
    progress: &List<Progress>,
    shift: &Shift,
    pace: &P,
) -> Durable<D, Recalled>
    requires limit { cell.opening.limit ≡ steps_of shift.now * shift.now.patience }
    requires number { cell.opening.shift ≡ shift.now.number }
    requires shift { ShiftFits cell.opening.cell shift.now }
    requires passes { (passes ≡ new_passes D.moment cell 1 cell.opening.passes) × (cell.opening.passes ≡ length shift.now.scripts) }
    requires started { AreFirstSteps shift.now cell.opening.grants }
    requires begun { AreBegun shift.now cell.opening.grants progress.now }
    ensures opening { opening_of result cell.opening.shift cell.opening.passes ≡ cell.opening }
    ensures after { IsAfterSessions shift.now result }
{
    run_shift(
        rt,
        &cell,
        passes.as_mut_slice(),
        progress.as_slice(),
        shift,
        pace,
    );
    cell.close(passes)
}

// Takes the durable cell after the sessions apart.
fn finish<D: Disk>(durable: Durable<D, Recalled>, shift: &Shift) -> Made<Recorded, D>
    requires after { IsAfterSessions shift.now durable }
    requires shift { ShiftFits durable.cell shift.now }
    requires started { AreFirstSteps shift.now durable.opening }
    ensures run { IsShiftRun durable.cell shift.now durable.opening (recorded_outcome result.made) }
    ensures stands { let outcome = recorded_outcome result.made in
        StandsForAdded (disk_told D.reads_as D.may_leave D.moment D.left_since D.faults durable.entry result.disk)
        durable.text durable.opening outcome.added outcome.unsure }
    ensures fits { EntriesFit result.made }
{
    record_of(durable, shift.number)
}
