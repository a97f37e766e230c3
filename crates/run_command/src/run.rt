//! `run CELL SHIFT JOURNAL`: the sessions of a shift at the same time, each on a thread of its own, after the grants of the journal.
ghost use Rattle.std.specs.Prelude.{◌≤◌, length, IfOk};
ghost use Rattle.cell_walks.specs.Clauses.{Ends, IsAllowed, disk_told, files_told, observed, or_early, sink_told};
ghost use Rattle.cell_texts.specs.Clauses.{CellFits, MAX_CELL_BYTES, known};
ghost use Rattle.journal_texts.specs.Clauses.{EntriesFit, recorded_outcome};
ghost use Rattle.run_command.specs.Clauses.{IsRunOnJournal, ShiftFits, run};

use crate::sessions::start;
use cell_base::Shift;
use cell_sessions::ShiftGrants;
use cell_texts::{Answered, CellFile, CommandEnd, Made, read_cell, read_shift};
use cell_walks::leaves_only_now;
use durable_cell::MAX_BEFORE_DRAIN;
use journal_texts::{Recorded, open_journal_with, print_recorded};
use outside_io::{Disk, Files, Pace, Sink};
use solo_rounds::{asks_of, steps_of};
use std::alloc::Global;
use std::sync::Wait;
use std::thread::Threads;

/// Runs `run CELL SHIFT JOURNAL`. All memory is taken before the sessions start, and they have all ended before the first line is
/// printed.
pub fn run_on_journal<R: Threads + Wait + Sync, F: Files, K: Sink, D: Disk + Send, P: Pace + Sync>(
    rt: &R,
    alloc: Global,
    files: &mut F,
    out: &mut K,
    cell: &str,
    shift: &str,
    disk: D,
    pace: &P,
) -> CommandEnd<D>
    ensures { let files = files_told F.holds F.is_sound F.faults files.old files.new in
        let disk = disk_told D.reads_as D.may_leave D.moment D.left_since D.faults disk result.disk in
        Ends (observed files disk) (sink_told K.taken K.was_put K.faults out.old out.new) (run cell.now shift.now) result.status }
{
    let Made { made, disk } = run_of_files(rt, alloc, files, cell, shift, disk, pace);
    let status = print_recorded(out, made);
    CommandEnd { status, disk }
}

// The record of the run, or the early end in its place.
fn run_of_files<R: Threads + Wait + Sync, F: Files, D: Disk + Send, P: Pace + Sync>(
    rt: &R,
    alloc: Global,
    files: &mut F,
    cell: &str,
    shift: &str,
    disk: D,
    pace: &P,
) -> Answered<Recorded, D>
    ensures allowed { let files = files_told F.holds F.is_sound F.faults files.old files.new in
        let disk = disk_told D.reads_as D.may_leave D.moment D.left_since D.faults disk result.disk in
        IsAllowed (observed files disk) (run cell.now shift.now) (or_early recorded_outcome result.made) }
    ensures fits { IfOk result.made EntriesFit }
{
    leaves_only_now(&disk);
    match read_cell(alloc, files, cell) {
        Ok(held) => match read_shift(alloc, files, &held.cell, shift) {
            Ok(shift) => run_journal(rt, alloc, held, &shift, disk, pace),
            Err(end) => Made::ended(end, disk),
        },
        Err(end) => Made::ended(end, disk),
    }
}

// The same of a cell and a shift that were read.
fn run_journal<R: Threads + Wait + Sync, D: Disk + Send, P: Pace + Sync>(
    rt: &R,
    alloc: Global,
    held: CellFile,
    shift: &Shift,
    disk: D,
    pace: &P,
) -> Answered<Recorded, D>
    requires fits { CellFits held.cell }
    requires short { length held.text.items ≤ MAX_CELL_BYTES }
    requires shift { ShiftFits held.cell shift.now }
    ensures run { IsRunOnJournal (disk_told D.reads_as D.may_leave D.moment D.left_since D.faults disk result.disk) (known held) shift.now
        result.made }
    ensures fits { IfOk result.made EntriesFit }
{
    let room = MAX_BEFORE_DRAIN - steps_of(shift);
    let own = ShiftGrants::of(alloc, shift.number);
    match open_journal_with(alloc, held, disk, room, asks_of(shift), own) {
        Ok(opened) => start(rt, alloc, opened.durable, &opened.kept, shift, pace),
        Err(unopened) => Made::ended(unopened.made, unopened.disk),
    }
}
