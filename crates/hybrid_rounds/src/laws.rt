//! A fact about histories in rounds, the contract of a function that does nothing.
ghost use Rattle.std.specs.Prelude.{◌≡◌};
ghost use Rattle.hybrid_rounds.specs.Clauses.{IsHybridRoundRobin};

use crate::entries::HybridEntry;
use cell_base::{Cell, Part, Shift};

/// There is at most one history in rounds of a hybrid, from the same parts.
pub fn one_hybrid_round_robin(
    cell: &Cell,
    parts: &[Part],
    shift: &Shift,
    one: &[HybridEntry],
    other: &[HybridEntry],
)
    requires one { IsHybridRoundRobin cell.now parts.now shift.now one.now }
    requires other { IsHybridRoundRobin cell.now parts.now shift.now other.now }
    ensures { one.now ≡ other.now }
{}
