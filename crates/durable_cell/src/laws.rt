//! What holds of each durable cell, and where one may go.
ghost use Rattle.durable_cell.specs.Clauses.{IsAdmitted, parts};
ghost use Rattle.durable_cell.specs.Acknowledged.{HasSince};
ghost use Rattle.durable_cell.specs.Kept.{KeepsHistory, KeepsDisk};
ghost use Rattle.std.specs.Prelude.{length};

use crate::{Durable, Recall};
use outside_io::Disk;

/// The parts of a durable cell are admitted, its history is legal and has the grants that were added, its disk stands for these, and
/// each image from now on has them.
pub fn durable_law<D: Disk, G: Recall>(durable: &Durable<D, G>)
    ensures admitted { IsAdmitted durable.now.cell (parts durable.now) }
    ensures kept { KeepsHistory durable.now }
    ensures keeps_disk { KeepsDisk D.reads_as D.may_leave D.moment D.left_since D.faults durable.now }
    ensures acknowledged { let durable = durable.now in
        HasSince D.reads_as D.moment D.left_since durable (D.moment durable.disk) (length durable.added) }
{
    let _core = durable.core();
    let _history = durable.history();
}

fn may_go<T: Send>() {}

// Proved for what it asks: a durable cell may go to another thread wherever its disk may.
fn goes_where_its_disk_goes<D: Disk + Send, G: Recall + Send>() {
    may_go::<Durable<D, G>>();
}
