//! The laws of orders, stuck sets and the hybrid, each the contract of a function that does nothing.
ghost use Rattle.cell_base.specs.Fits.{CellFits};
ghost use Rattle.banker_check.specs.Laws.{GreedLaw, FirstLaw, OrderedLaw};
ghost use Rattle.banker_check.specs.Laws.{GrantLaw, BlockLaw, BlockedLaw, UnsaturatedLaw, HybridDecisionLaw, HybridLaw, HybridPlanLaw};

use cell_base::Cell;

/// A part that could be first never hinders another one, so which of them is taken out first does not matter: what is left
/// in the end is the largest stuck set.
pub fn greed_law(cell: &Cell)
    ensures { GreedLaw cell.now }
{}

/// A part stands first in some order exactly where the other parts do not hold it up.
pub fn first_law(cell: &Cell)
    ensures { FirstLaw cell.now }
{}

/// The parts of a state have an order exactly where none of them are stuck.
pub fn ordered_law(cell: &Cell)
    ensures { OrderedLaw cell.now }
{}

/// What the policy grants, the hybrid grants.
pub fn grant_law(cell: &Cell)
    requires { CellFits cell.now }
    ensures { GrantLaw cell.now }
{}

/// A load or move that passes its other tests is granted exactly where the next state is hybrid.
pub fn block_law(cell: &Cell)
    ensures { BlockLaw cell.now }
{}

/// No request is refused for a full neighborhood alone.
pub fn unsaturated_law(cell: &Cell)
    requires { CellFits cell.now }
    ensures { UnsaturatedLaw cell.now }
{}

/// A block names a resource of the cell, with its capacity and a count above it.
pub fn blocked_law(cell: &Cell)
    requires { CellFits cell.now }
    ensures { BlockedLaw cell.now }
{}

/// A request that passes its other tests is granted exactly where the state that it asks for is hybrid, and blocked where not. A block
/// names the least resource whose neighborhood that state overfills, its count and its stuck parts.
pub fn hybrid_decision_law(cell: &Cell)
    requires { CellFits cell.now }
    ensures { HybridDecisionLaw cell.now }
{}

/// Each request that fits leads from a hybrid state to a hybrid state.
pub fn hybrid_law(cell: &Cell)
    requires { CellFits cell.now }
    ensures { HybridLaw cell.now }
{}

/// Every hybrid state can be drained by its plan, in as many steps as its parts need.
pub fn hybrid_plan_law(cell: &Cell)
    requires { CellFits cell.now }
    ensures { HybridPlanLaw cell.now }
{}
