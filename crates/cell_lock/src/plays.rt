//! What each step on the table tells, and how views are cut and joined.
ghost use Rattle.std.specs.Prelude.{◌+◌, ◌-◌, []};
ghost use Rattle.cell_lock.specs.Clauses.{HasSince};
ghost use Rattle.cell_lock.specs.Openings.{first_moment};
ghost use Rattle.cell_lock.specs.Law.{took, grew, gave, sat};
ghost use Rattle.cell_lock.specs.Views.{initial_view, passing, gathered, spent};

use crate::board::View;
use atomic_table::{Join, Play, Split};
use durable_cell::{Durable, Recall};
use outside_io::Disk;

/// Takes the turn, and the durable cell with it.
pub(crate) struct Take;

impl<D: Disk, G: Recall> Play<Durable<D, G>, View<D>> for Take {
    ghost then = { took (HasSince D.reads_as D.moment D.left_since) };
}

/// Tells the table of the entry by which the history grew.
pub(crate) struct Grow;

impl<D: Disk, G: Recall> Play<Durable<D, G>, View<D>> for Grow {
    ghost then = { grew };
}

/// Puts the durable cell back, and gives up the turn.
pub(crate) struct Give;

impl<D: Disk, G: Recall> Play<Durable<D, G>, View<D>> for Give {
    ghost then = { gave D.moment };
}

/// A new seat that knows nothing, after the last number.
pub(crate) struct NewSeat;

impl<D: Disk, G: Recall> Play<Durable<D, G>, View<D>> for NewSeat {
    ghost then = { sat };
}

/// Cuts off a pass with the least number.
pub(crate) struct Deal;

impl<D: Disk> Split<View<D>> for Deal {
    ghost left = { λ v. initial_view v.opening (v.first + 1) (v.count - 1) };

    ghost right = { λ v. passing v.opening v.first [] (first_moment D.moment v.opening) [] [] };
}

/// Takes in a seat with the next numbers.
pub(crate) struct Gather;

impl<D: Disk> Join<View<D>> for Gather {
    ghost both = { gathered };

    ghost spent = { spent };
}
