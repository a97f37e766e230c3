//! Facts about the parts that are carried, each the contract of a function that does nothing.
ghost use Rattle.std.specs.Prelude.{◌≡◌, List as Items, Err, Ok};
ghost use Rattle.cell_base.specs.declared.requests.Request.{Request as Asked};
ghost use Rattle.carry_commands.specs.CarryClauses.{IsHindrance, carried};
ghost use Rattle.carry_commands.specs.declared.refusals.CarryFault.{CarryFault};

use admission_core::Core;
use admission_core::laws::core_law;
use cell_base::Cell;

/// A part of a core that can't be carried lacks its type there, or its place, or room: it is never refused for its job.
pub fn only_room_may_be_wanting(old: &Core, new: &Cell)
    ensures { (fault : CarryFault) → carried old.now.cell new.now old.now.parts ≡ Err fault → IsHindrance fault.why }
{
    core_law(old);
}

/// To its own cell each part of a core can be carried.
pub fn the_same_cell_takes_all(core: &Core)
    ensures { (requests : Items Asked) × (carried core.now.cell core.now.cell core.now.parts ≡ Ok requests) }
{
    core_law(core);
}
