//! What holds of each board, and of its scan, each the contract of a function that does nothing.
ghost use Rattle.wait_board.specs.BoardState.{KeepsBoard};
ghost use Rattle.wait_board.specs.Laws.{ScanLaw};

use crate::Board;
use cell_base::Cell;

/// What stands on a board is what its asks make of its opening, in their order; its parts are those after its history; and each request on it
/// waits for a full neighborhood, no two for one session.
pub fn board_law(board: &Board)
    ensures { KeepsBoard board.now }
{
    let _waiting = board.waiting();
}

/// A board's scan serves and drops as the scan of a queue does, in the same order, and then each waiter keeps the refusal that names
/// its neighborhood.
pub fn scan_law(cell: &Cell)
    ensures { ScanLaw cell.now }
{}
