//! `queue CELL SHIFT`: a shift on the empty cell, its sessions in rounds on one thread, over a board on which saturated requests wait.
ghost use Rattle.std.specs.Prelude.{◌≡◌, IfOk};
ghost use Rattle.cell_walks.specs.Clauses.{Ends, IsTaken, disk_seen, files_seen, observed, sink_seen};
ghost use Rattle.cell_walks.specs.declared.status.Status.TheVariants.{Done};
ghost use Rattle.printer.specs.Printing.{Prints};
ghost use Rattle.queue_command.specs.Clauses.{BoardFits, CellFits, IsQueueRun, ShiftFits, board_lines};
ghost use Rattle.queue_command.specs.Queue.{queue};

use crate::printing::print_board;
use admission_core::Core;
use board_rounds::ask_in_rounds;
use cell_base::{Cell, MAX_ASKS, NoMemory, Shift};
use cell_driver::{Command, drive};
use cell_texts::{Answered, CellFile, CommandEnd, Made, read_shift};
use cell_walks::{EarlyEnd, Status};
use outside_io::{Disk, Files, Sink};
use printer::Printer;
use std::alloc::Global;
use wait_board::Board;
use wait_board::laws::board_law;

/// The room of the board: an ask has two entries at most, one where it waits and one at the end of its wait.
const ROOM: u64 = 2 * MAX_ASKS;

/// Runs `queue CELL SHIFT`.
pub fn run_queue<F: Files, K: Sink, D: Disk>(
    alloc: Global,
    files: &mut F,
    out: &mut K,
    cell: &str,
    shift: &str,
    disk: D,
) -> CommandEnd<D>
    ensures ends { Ends (observed (files_seen F.Files files.old files.new) (disk_seen D.Disk disk result.disk))
        (sink_seen K.Sink out.old out.new) (queue cell.now shift.now) result.status }
    ensures same { result.disk ≡ disk }
{
    drive(&Queue { shift }, alloc, files, out, cell, disk)
}

/// The command `queue`, with the name of the shift. All memory is taken before the first session asks.
#[derive(Drop)]
pub struct Queue<'a> {
    pub shift: &'a str,
}

impl<'a> Command for Queue<'a> {
    ghost use Rattle.std.specs.Prelude.{⊤};
    ghost use Rattle.cell_walks.specs.Outcomes.{done};
    ghost use Rattle.queue_command.specs.Queue.{play_queue};

    type Answer = Board;

    ghost onward = { λ queue. play_queue queue.shift.now };

    ghost outcome = { λ board. done (board_lines board.cell board.on) };

    ghost is_whole = { λ board. BoardFits board.cell board.on };

    ghost has_no_journal = { λ _. ⊤ };

    fn answer<F: Files, D: Disk>(
        &self,
        alloc: Global,
        held: CellFile,
        files: &mut F,
        disk: D,
    ) -> Answered<Board, D> {
        match read_shift(alloc, files, &held.cell, self.shift) {
            Ok(shift) => match run_rounds(alloc, held.cell, &shift) {
                Ok(board) => Made {
                    made: Ok(board),
                    disk,
                },
                Err(_) => Made::ended(EarlyEnd::WantOfMemory, disk),
            },
            Err(end) => Made::ended(end, disk),
        }
    }

    fn print<K: Sink>(board: Board, out: &mut Printer<K>) -> Status
        requires { BoardFits board.cell board.on }
        ensures printed { Prints K.Sink out.old out.new (board_lines board.cell board.on) }
        ensures status { result ≡ Done }
        ensures taken { IsTaken result }
    {
        print_board(out, board);
        Status::Done
    }
}

// The sessions of a shift ask a board over the empty cell.
fn run_rounds(alloc: Global, cell: Cell, shift: &Shift) -> Result<Board, NoMemory>
    requires cell { CellFits cell }
    requires shift { ShiftFits cell shift.now }
    ensures run { IfOk result (IsQueueRun cell shift.now) }
    ensures fits { IfOk result (λ board. BoardFits board.cell board.on) }
{
    let core = Core::open(alloc, cell)?;
    match Board::open(alloc, core, shift.scripts.len() as u16, ROOM) {
        Ok(mut board) => {
            ask_in_rounds(&mut board, shift);
            board_law(&board);
            Ok(board)
        }
        Err((_, fault)) => Err(fault),
    }
}
