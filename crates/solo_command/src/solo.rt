//! `solo CELL SHIFT`: a shift on the empty cell, its sessions in rounds on one thread.
ghost use Rattle.std.specs.Prelude.{◌≡◌, ℕ, List, IfErr, IfOk};
ghost use Rattle.cell_walks.specs.Clauses.{Ends, IsAllowed, disk_told, early, files_told, no_disk, observed, sink_told};
ghost use Rattle.cell_walks.specs.Outcomes.{done};
ghost use Rattle.solo_command.specs.Clauses.{IsAtStart, IsSoloRecord, solo};

use crate::playing::play;
use admission_core::Core;
use cell_base::Shift;
use cell_texts::{CommandEnd, read_cell, read_shift};
use cell_walks::{EarlyEnd, finish_early};
use outside_io::{Disk, Files, Sink};
use std::alloc::Global;

// A core with the empty cell, and the shift that is to run on it.
#[derive(Drop)]
struct Ready {
    core: Core,
    shift: Shift,
}

/// Runs `solo CELL SHIFT`. All memory is taken before the first session asks.
pub fn run_solo<F: Files, K: Sink, D: Disk>(
    alloc: Global,
    files: &mut F,
    out: &mut K,
    cell: &str,
    shift: &str,
    disk: D,
) -> CommandEnd<D>
    ensures ends { let files = files_told F.holds F.is_sound F.faults files.old files.new in
        let disk = disk_told D.reads_as D.may_leave D.moment D.left_since D.faults disk result.disk in
        Ends (observed files disk) (sink_told K.taken K.was_put K.faults out.old out.new) (solo cell.now shift.now) result.status }
    ensures same { result.disk ≡ disk }
{
    match ready_of_files(alloc, files, cell, shift) {
        Ok(Ready { core, shift }) => {
            let status = play(out, core, &shift);
            CommandEnd { status, disk }
        }
        Err(end) => CommandEnd {
            status: finish_early(out, end),
            disk,
        },
    }
}

// What is to run, or the early end in its place.
fn ready_of_files<F: Files>(
    alloc: Global,
    files: &mut F,
    cell: &str,
    shift: &str,
) -> Result<Ready, EarlyEnd>
    ensures start { IfOk result (λ ready. IsAtStart ready.core ready.shift) }
    ensures allowed { let files = files_told F.holds F.is_sound F.faults files.old files.new in
        IfOk result (λ ready. (lines : List (List ℕ)) → IsSoloRecord ready.core.cell ready.shift lines
        → IsAllowed (observed files no_disk) (solo cell.now shift.now) (done lines)) }
    ensures ended { let files = files_told F.holds F.is_sound F.faults files.old files.new in
        IfErr result (λ end. IsAllowed (observed files no_disk) (solo cell.now shift.now) (early end)) }
{
    match read_cell(alloc, files, cell) {
        Ok(held) => match read_shift(alloc, files, &held.cell, shift) {
            Ok(shift) => match Core::open(alloc, held.cell) {
                Ok(core) => Ok(Ready { core, shift }),
                Err(_) => Err(EarlyEnd::WantOfMemory),
            },
            Err(end) => Err(end),
        },
        Err(end) => Err(end),
    }
}
