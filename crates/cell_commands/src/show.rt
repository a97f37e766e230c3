//! `show CELL`: the resources of a cell, each with the stages of its neighborhood.
ghost use Rattle.std.specs.Prelude.{◌≡◌, IfOk};
ghost use Rattle.cell_walks.specs.Clauses.{Ends, disk_seen, files_seen, observed, sink_seen};
ghost use Rattle.cell_base.specs.Fits.{CellFits};
ghost use Rattle.refusal_reason.specs.Shown.{show_lines};
ghost use Rattle.printer.specs.Printing.{Prints};
ghost use Rattle.cell_commands.specs.Show.{IsShown, show};

use admission_core::Core;
use cell_base::{Cell, List, NoMemory};
use cell_driver::{Command, drive};
use cell_texts::{Answered, CellFile, CommandEnd, Made};
use cell_walks::{EarlyEnd, Status};
use outside_io::{Disk, Files, Sink};
use printer::Printer;
use record_text::cut_line;
use refusal_reason::laws::show_lines_are_lines;
use refusal_reason::show_text;
use std::alloc::Global;

/// Runs `show CELL`.
pub fn run_show<F: Files, K: Sink, D: Disk>(
    alloc: Global,
    files: &mut F,
    out: &mut K,
    cell: &str,
    disk: D,
) -> CommandEnd<D>
    ensures ends { Ends (observed (files_seen F.Files files.old files.new) (disk_seen D.Disk disk result.disk))
        (sink_seen K.Sink out.old out.new) (show cell.now) result.status }
    ensures same { result.disk ≡ disk }
{
    drive(&Show, alloc, files, out, cell, disk)
}

/// The command `show`.
pub struct Show;

/// What is shown: the cell of a core, and its text.
#[derive(Drop)]
pub struct Shown {
    core: Core,
    text: List<u8>,
}

impl Command for Show {
    ghost use Rattle.std.specs.Prelude.{⊤};
    ghost use Rattle.cell_walks.specs.Outcomes.{done};
    ghost use Rattle.cell_commands.specs.Show.{shown};

    type Answer = Shown;

    ghost onward = { λ _. shown };

    ghost outcome = { λ shown. done (show_lines shown.core.cell) };

    ghost is_whole = { IsShown };

    ghost has_no_journal = { λ _. ⊤ };

    fn answer<F: Files, D: Disk>(
        &self,
        alloc: Global,
        held: CellFile,
        _files: &mut F,
        disk: D,
    ) -> Answered<Shown, D> {
        match shown_of(alloc, held.cell) {
            Ok(shown) => Made {
                made: Ok(shown),
                disk,
            },
            Err(_) => Made::ended(EarlyEnd::WantOfMemory, disk),
        }
    }

    fn print<K: Sink>(shown: Shown, out: &mut Printer<K>) -> Status {
        print_shown(out, &shown);
        Status::Done
    }
}

// What is shown of a cell.
fn shown_of(alloc: Global, cell: Cell) -> Result<Shown, NoMemory>
    requires { CellFits cell }
    ensures cell { IfOk result (λ shown. shown.core.cell ≡ cell) }
    ensures text { IfOk result IsShown }
{
    let core = Core::open(alloc, cell)?;
    let text = show_text(alloc, &core)?;
    Ok(Shown { core, text })
}

// Prints each line of the text.
fn print_shown<K: Sink>(out: &mut Printer<K>, shown: &Shown)
    requires { IsShown shown.now }
    ensures { Prints K.Sink out.old out.new (show_lines shown.now.core.cell) }
{
    show_lines_are_lines(shown.core.cell());
    let mut rest = shown.text.as_slice();
    while let Some(later) = cut_line(rest).1 {
        out.piece(&rest[..rest.len() - later.len()]);
        rest = later;
    }
}
