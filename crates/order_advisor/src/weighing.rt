//! What the memberships in a neighborhood weigh: each the same, or more where the resource has few units, since a place there is dearer.
ghost use Rattle.std.specs.Prelude.{◌≡◌, ◌*◌, ◌<◌, ◌≤◌, length};
ghost use Rattle.cell_base.specs.Fits.{CellFits};
ghost use Rattle.order_advisor.specs.Orders.{unit_weight};

use cell_base::{Cell, ResId};
use route_table::StageTable;

/// How the memberships in neighborhoods are weighed.
#[derive(Clone, Copy, Drop)]
pub enum Weighing {
    /// Each membership weighs 1.
    Alike,
    /// A membership in the neighborhood of a resource weighs `WHOLE` divided by the capacity of the resource, rounded down: a place in
    /// the neighborhood of a small resource is dearer than one in that of a large store.
    ByCapacity,
}

/// What a membership in the neighborhood of a resource of one unit weighs where capacity counts.
pub const WHOLE: u32 = 1000;

/// What so many memberships in the neighborhood of a resource weigh together: at most 4,096 times `WHOLE`.
pub fn weight_of(weighing: Weighing, table: &StageTable, r: ResId, members: u64) -> u64
    requires fits { CellFits table.now }
    requires resource { r.0 < length table.now.resources }
    requires members { members ≤ 4096 }
    ensures value { result ≡ members * unit_weight weighing table.now r.0 }
    ensures small { result ≤ 4096 * WHOLE }
{
    members * unit_weight(weighing, table.cell(), r)
}

/// What one of them weighs.
fn unit_weight(weighing: Weighing, cell: &Cell, r: ResId) -> u64
    requires fits { CellFits cell.now }
    requires resource { r.0 < length cell.now.resources }
    ensures value { result ≡ unit_weight weighing cell.now r.0 }
    ensures small { result ≤ WHOLE }
{
    match weighing {
        Weighing::Alike => 1,
        Weighing::ByCapacity => u64::from(WHOLE / cell.capacity_of(r)),
    }
}
