//! The laws of watches and scans, each the contract of a function that does nothing.
ghost use Rattle.cell_base.specs.Fits.{CellFits};
ghost use Rattle.wait_queue.specs.Laws.{ServedLaw, WatchLaw};

use cell_base::Cell;

/// While a neighborhood that a request would enter is full, the request is refused for want of room. A request that is refused so would
/// enter the neighborhood that its refusal names. A granted request of another job leaves what a request would enter.
pub fn watch_law(cell: &Cell)
    requires { CellFits cell.now }
    ensures { WatchLaw cell.now }
{}

/// After a scan each request that waits would be refused for want of room: none could be granted, and none is to be dropped.
pub fn served_law(cell: &Cell)
    ensures { ServedLaw cell.now }
{}
