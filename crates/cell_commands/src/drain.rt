//! `drain CELL JOURNAL`: the steps of the plan after the grants of the journal, asked one by one, each grant written to it.
ghost use Rattle.std.specs.Prelude.{◌≡◌};
ghost use Rattle.cell_walks.specs.Clauses.{Ends, disk_seen, files_seen, observed, sink_seen};
ghost use Rattle.journal_texts.specs.Clauses.{EntriesFit, IsFresh, recorded_outcome};
ghost use Rattle.cell_commands.specs.Draining.{AreDue, IsAdmitted, IsDrained, IsDrainedIn, KeepsHistory, StandsForAdded, first_parts};
ghost use Rattle.cell_commands.specs.declared.drain.TheConstants.{MAX_PLAN};
ghost use Rattle.cell_commands.specs.Drain.{drain};

use cell_driver::{Command, drive};
use cell_texts::{Answered, CellFile, CommandEnd, Made};
use cell_walks::Status;
use durable_cell::{Durable, MAX_ROOM, Recalled, durable_law};
use journal_texts::{Recorded, open_journal_with, print_record, record_of};
use outside_io::{Disk, Files, Sink};
use printer::Printer;
use shift_recovery::Discard;
use std::alloc::Global;

/// The most steps of a plan: 128 for each of the 4,096 units of a cell.
const MAX_PLAN: u64 = 524_288;

/// Runs `drain CELL JOURNAL`.
pub fn run_drain<F: Files, K: Sink, D: Disk>(
    alloc: Global,
    files: &mut F,
    out: &mut K,
    cell: &str,
    disk: D,
) -> CommandEnd<D>
    ensures { Ends (observed (files_seen F.Files files.old files.new) (disk_seen D.Disk disk result.disk))
        (sink_seen K.Sink out.old out.new) (drain cell.now) result.status }
{
    drive(&Drain, alloc, files, out, cell, disk)
}

/// The command `drain`.
pub struct Drain;

impl Command for Drain {
    ghost use Rattle.cell_commands.specs.Drain.{drain_journal};

    type Answer = Recorded;

    ghost onward = { λ _. drain_journal };

    ghost outcome = { recorded_outcome };

    ghost is_whole = { EntriesFit };

    ghost has_no_journal = { λ _. ⊥ };

    fn answer<F: Files, D: Disk>(
        &self,
        alloc: Global,
        held: CellFile,
        _files: &mut F,
        disk: D,
    ) -> Answered<Recorded, D> {
        match open_journal_with(alloc, held, disk, MAX_ROOM, MAX_PLAN, Discard) {
            Ok(opened) => {
                let Made {
                    made: recorded,
                    disk,
                } = drain_all(opened.durable);
                Made {
                    made: Ok(recorded),
                    disk,
                }
            }
            Err(unopened) => Made::ended(unopened.made, unopened.disk),
        }
    }

    fn print<K: Sink>(recorded: Recorded, out: &mut Printer<K>) -> Status {
        print_record(out, recorded)
    }
}

// Asks the steps of the plan, and takes the durable cell apart.
fn drain_all<D: Disk>(mut durable: Durable<D, Recalled>) -> Made<Recorded, D>
    requires fresh { IsFresh durable }
    requires limit { durable.limit ≡ MAX_PLAN }
    ensures drained { IsDrained durable.cell durable.opening (recorded_outcome result.made) }
    ensures stands { let outcome = recorded_outcome result.made in
        StandsForAdded (disk_seen D.Disk durable.entry result.disk)
        durable.text durable.opening outcome.added outcome.unsure }
    ensures fits { EntriesFit result.made }
    ensures due { AreDue durable.cell durable.opening }
{
    ask_steps(&mut durable);
    record_of(durable, 0)
}

// Asks each step of the plan as session 0 of shift 0, up to the first whose writing fails.
fn ask_steps<D: Disk>(durable: &mut Durable<D, Recalled>)
    requires fresh { IsFresh durable.old }
    requires limit { durable.old.limit ≡ MAX_PLAN }
    ensures drained { IsDrainedIn durable.old durable.new }
    ensures admitted { IsAdmitted durable.old.cell (first_parts durable.old) }
    ensures kept { KeepsHistory durable.old }
{
    durable_law(durable);
    while let Some(step) = durable.core().plan_step() {
        match durable.ask(0, 0, &step) {
            Ok(_) => {}
            Err(_) => return,
        }
    }
}
