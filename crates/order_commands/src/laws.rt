//! What the weight of orders is to `show`, each the contract of a function that does nothing.
ghost use Rattle.order_commands.specs.Shown.{ShowsMembers, ShowsWeight};

use cell_base::Cell;

/// Of a cell with other orders `show` prints for each resource one line, and as many for stages as there are memberships to be weighed.
pub fn shows_members(cell: &Cell)
    ensures { ShowsMembers cell.now }
{}

/// Of all resources it prints as many for stages as these orders weigh where each membership weighs 1, as for `advise`.
pub fn shows_weight(cell: &Cell)
    ensures { ShowsWeight cell.now }
{}
