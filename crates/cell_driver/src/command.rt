//! A command on a cell.
ghost use Rattle.std.specs.Prelude.{◌≡◌, ◌≤◌, length, IfOk};
ghost use Rattle.cell_walks.specs.Clauses.{IsTaken, disk_seen, files_seen};
ghost use Rattle.cell_walks.specs.Outcomes.{Outcome};
ghost use Rattle.cell_walks.specs.Walks.{Walk};
ghost use Rattle.cell_texts.specs.Clauses.{CellFits, MAX_CELL_BYTES, known};
ghost use Rattle.cell_texts.specs.Tests.{KnownCell};
ghost use Rattle.printer.specs.Printing.{Prints};
ghost use Rattle.cell_driver.specs.Driving.{IsMade};

use cell_texts::{Answered, CellFile};
use cell_walks::Status;
use outside_io::{Disk, Files, Sink};
use printer::Printer;
use std::alloc::Global;

/// What a command does once its cell file is read.
pub trait Command {
    /// What it answers.
    type Answer: Drop;

    /// Its walk from the cell on.
    ghost onward: { Self → KnownCell → Walk };

    /// What an answer comes to.
    ghost outcome: { Self.Answer → Outcome };

    /// What its printing may rely on.
    ghost is_whole: { Self.Answer → Type 0 };

    /// It has no journal, and hands the disk back as it was.
    ghost has_no_journal: { Self → Type 0 };

    /// The answer on this cell, or the early end in its place.
    fn answer<F: Files, D: Disk>(
        &self,
        alloc: Global,
        held: CellFile,
        files: &mut F,
        disk: D,
    ) -> Answered<Self::Answer, D>
        requires fits { CellFits held.cell }
        requires short { length held.text.items ≤ MAX_CELL_BYTES }
        ensures allowed { IsMade (files_seen F.Files files.old files.new) (disk_seen D.Disk disk result.disk)
            (onward self.now (known held)) outcome result.made }
        ensures whole { IfOk result.made is_whole }
        ensures same { has_no_journal self.now → result.disk ≡ disk };

    /// Prints an answer, and gives its status.
    fn print<K: Sink>(answer: Self::Answer, out: &mut Printer<K>) -> Status
        requires { is_whole answer }
        ensures printed { Prints K.Sink out.old out.new (outcome answer).pieces }
        ensures status { result ≡ (outcome answer).status }
        ensures taken { IsTaken result };
}
