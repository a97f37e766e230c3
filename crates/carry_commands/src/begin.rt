//! `begin CELL START JOURNAL`: the requests of a start that the journal does not hold yet, asked one by one, each grant written to it.
ghost use Rattle.std.specs.Prelude.{◌≡◌, ◌≤◌, length, IfOk};
ghost use Rattle.std.specs.List.{All};
ghost use Rattle.cell_walks.specs.Clauses.{Ends, IsTaken, disk_seen, files_seen, observed, sink_seen};
ghost use Rattle.printer.specs.Printing.{Prints};
ghost use Rattle.cell_texts.specs.Clauses.{CellFits, MAX_CELL_BYTES, known};
ghost use Rattle.journal_texts.specs.Clauses.{EntriesFit, recorded_outcome};
ghost use Rattle.carry_commands.specs.BeginClauses.{IsBegunOnJournal, IsGrantedStart, IsPlacing, MAX_START_LINES};
ghost use Rattle.carry_commands.specs.Begin.{begin};

use crate::asking::begin_opened;
use crate::compared::Compared;
use crate::starts::{check_start, read_start_file};
use cell_base::Request;
use cell_driver::{Command, drive};
use cell_texts::{Answered, CellFile, CommandEnd, Made};
use cell_walks::Status;
use durable_cell::{Heard, MAX_ROOM};
use journal_texts::{Recorded, open_journal_with, print_record};
use outside_io::{Disk, Files, Sink};
use printer::Printer;
use record_text::MAX_START_LINES;
use std::alloc::Global;

/// Runs `begin CELL START JOURNAL`.
pub fn run_begin<F: Files, K: Sink, D: Disk>(
    alloc: Global,
    files: &mut F,
    out: &mut K,
    cell: &str,
    start: &str,
    disk: D,
) -> CommandEnd<D>
    ensures { Ends (observed (files_seen F.Files files.old files.new) (disk_seen D.Disk disk result.disk))
        (sink_seen K.Sink out.old out.new) (begin cell.now start.now) result.status }
{
    drive(&Begin { start }, alloc, files, out, cell, disk)
}

/// The command `begin`, with the name of the start file. All requests are asked before the first line is printed.
#[derive(Drop)]
pub struct Begin<'a> {
    pub start: &'a str,
}

impl<'a> Command for Begin<'a> {
    ghost use Rattle.carry_commands.specs.Begin.{begin_start};

    type Answer = Recorded;

    ghost onward = { λ begin. begin_start begin.start.now };

    ghost outcome = { recorded_outcome };

    ghost is_whole = { EntriesFit };

    ghost has_no_journal = { λ _. ⊥ };

    fn answer<F: Files, D: Disk>(
        &self,
        alloc: Global,
        held: CellFile,
        files: &mut F,
        disk: D,
    ) -> Answered<Recorded, D> {
        match read_start_file(alloc, files, &held.cell, self.start) {
            Ok(requests) => match check_start(alloc, &held.cell, requests.as_slice()) {
                Ok(()) => begin_journal(alloc, held, requests.as_slice(), disk),
                Err(end) => Made::ended(end, disk),
            },
            Err(end) => Made::ended(end, disk),
        }
    }

    fn print<K: Sink>(recorded: Recorded, out: &mut Printer<K>) -> Status
        requires { EntriesFit recorded }
        ensures printed { Prints K.Sink out.old out.new (recorded_outcome recorded).pieces }
        ensures status { result ≡ (recorded_outcome recorded).status }
        ensures taken { IsTaken result }
    {
        print_record(out, recorded)
    }
}

// The record of a start that was read, each request of which is granted in its turn; or the early end in its place.
fn begin_journal<D: Disk>(
    alloc: Global,
    held: CellFile,
    requests: &[Request],
    disk: D,
) -> Answered<Recorded, D>
    requires fits { CellFits held.cell }
    requires short { length held.text.items ≤ MAX_CELL_BYTES }
    requires placing { All (IsPlacing held.cell) requests.now }
    requires few { length requests.now ≤ MAX_START_LINES }
    requires granted { IsGrantedStart held.cell requests.now }
    ensures begun { IsBegunOnJournal (disk_seen D.Disk disk result.disk) (known held)
        requests.now result.made }
    ensures fits { IfOk result.made EntriesFit }
{
    let compared = Compared::new(requests);
    match open_journal_with(alloc, held, disk, MAX_ROOM, MAX_START_LINES, compared) {
        Ok(Heard { durable, kept }) => begin_opened(durable, requests, kept.other),
        Err(unopened) => Made::ended(unopened.made, unopened.disk),
    }
}
