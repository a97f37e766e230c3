//! `check CELL RECORD`: whether a record is right, or the first line that isn't, and why.
ghost use Rattle.std.specs.Prelude.{◌≡◌};
ghost use Rattle.cell_walks.specs.Clauses.{Ends, IsTaken, disk_seen, files_seen, observed, sink_seen};
ghost use Rattle.printer.specs.Printing.{Prints};
ghost use Rattle.cell_commands.specs.Check.{check, verdict_outcome, verdict_status};

use crate::verdicts::{check_record, verdict_line};
use cell_driver::{Command, drive};
use cell_texts::{Answered, CellFile, CommandEnd, Made};
use cell_walks::Status;
use outside_io::{Disk, Files, Sink};
use printer::Printer;
use shift_checker::Verdict;
use std::alloc::Global;

/// Runs `check CELL RECORD`.
pub fn run_check<F: Files, K: Sink, D: Disk>(
    alloc: Global,
    files: &mut F,
    out: &mut K,
    cell: &str,
    record_file: &str,
    disk: D,
) -> CommandEnd<D>
    ensures ends { Ends (observed (files_seen F.Files files.old files.new) (disk_seen D.Disk disk result.disk))
        (sink_seen K.Sink out.old out.new) (check cell.now record_file.now) result.status }
    ensures same { result.disk ≡ disk }
{
    drive(&Check { record_file }, alloc, files, out, cell, disk)
}

/// The command `check`, with the name of the record.
#[derive(Drop)]
pub struct Check<'a> {
    pub record_file: &'a str,
}

impl<'a> Command for Check<'a> {
    ghost use Rattle.std.specs.Prelude.{⊤};
    ghost use Rattle.cell_commands.specs.Check.{check_record_file};

    type Answer = Verdict;

    ghost onward = { λ check. check_record_file check.record_file.now };

    ghost outcome = { verdict_outcome };

    ghost is_whole = { λ _. ⊤ };

    ghost has_no_journal = { λ _. ⊤ };

    fn answer<F: Files, D: Disk>(
        &self,
        alloc: Global,
        held: CellFile,
        files: &mut F,
        disk: D,
    ) -> Answered<Verdict, D> {
        Made {
            made: check_record(alloc, files, &held.cell, self.record_file),
            disk,
        }
    }

    fn print<K: Sink>(verdict: Verdict, out: &mut Printer<K>) -> Status
        ensures printed { Prints K.Sink out.old out.new (verdict_outcome verdict).pieces }
        ensures status { result ≡ (verdict_outcome verdict).status }
        ensures taken { IsTaken result }
    {
        out.line(&verdict_line(&verdict));
        verdict_status(&verdict)
    }
}

// The status of a verdict.
fn verdict_status(verdict: &Verdict) -> Status
    ensures is { result ≡ verdict_status verdict.now }
    ensures taken { IsTaken result }
{
    match verdict {
        Verdict::Yes => Status::Done,
        Verdict::No { .. } => Status::Denied,
    }
}
