//! A board printed. It takes no memory.
ghost use Rattle.std.specs.Prelude.{map};
ghost use Rattle.std.specs.List.{All};
ghost use Rattle.printer.specs.Printing.{Prints};
ghost use Rattle.queue_command.specs.Clauses.{BoardFits, BoardEntryFits, WaiterFits, board_lines, entry_line, still_line, told_lines};

use crate::lines::{write_entry, write_still};
use cell_base::Cell;
use outside_io::Sink;
use printer::Printer;
use record_printer::records::print_left;
use record_text::Line;
use wait_board::{Board, BoardEntry, Waiter};

/// Prints each entry, each session that waits, the number of the parts that are left, and their plan.
pub fn print_board<K: Sink>(out: &mut Printer<K>, board: Board)
    requires { BoardFits board.cell board.on }
    ensures { Prints K.Sink out.old out.new (board_lines board.cell board.on) }
{
    print_told(out, &board);
    print_left(out, board.into_core());
}

// Prints each entry, and then each session that waits.
fn print_told<K: Sink>(out: &mut Printer<K>, board: &Board)
    requires { BoardFits board.now.cell board.now.on }
    ensures { Prints K.Sink out.old out.new (told_lines board.now.cell board.now.on) }
{
    let cell = board.core().cell();
    print_entries(out, cell, board.history());
    print_waiters(out, cell, board.waiting());
}

// Prints the line of each entry.
fn print_entries<K: Sink>(out: &mut Printer<K>, cell: &Cell, entries: &[BoardEntry])
    requires { All (BoardEntryFits cell.now) entries.now }
    ensures { Prints K.Sink out.old out.new (map (entry_line cell.now) entries.now) }
{
    let mut line = Line::new();
    for entry in entries {
        write_entry(&mut line, cell, entry);
        out.line(&line);
    }
}

// Prints the line of each session that waits.
fn print_waiters<K: Sink>(out: &mut Printer<K>, cell: &Cell, waiters: &[Waiter])
    requires { All (WaiterFits cell.now) waiters.now }
    ensures { Prints K.Sink out.old out.new (map (still_line cell.now) waiters.now) }
{
    let mut line = Line::new();
    for waiter in waiters {
        write_still(&mut line, cell, waiter);
        out.line(&line);
    }
}
