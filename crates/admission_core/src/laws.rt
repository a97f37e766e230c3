//! What holds of each core, and what the policy never refuses, each the contract of a function that does nothing.
ghost use Rattle.std.specs.Prelude.{◌≡◌, ◌≢◌, ℕ, ◌≤◌};
ghost use Rattle.policy_laws.specs.Laws.{MayMove};
ghost use Rattle.admission_core.specs.Clauses.{CellFits, Granted, IsAdmitted, Move, Part, Refused, ResId, Saturated, Stage, Unload};
ghost use Rattle.admission_core.specs.Clauses.{order_at, reply_to, stage_of};

use crate::Core;
use cell_base::JobId;

/// The cell fits, and the policy admits the parts.
pub fn core_law(core: &Core)
    ensures fits { CellFits core.now.cell }
    ensures admitted { IsAdmitted core.now.cell core.now.parts }
{
    let _cell = core.cell();
}

/// A move of a done part by a branch that its stage has, to a resource of no lesser order, is granted.
pub fn move_to_no_lesser_order_is_granted(core: &Core, job: JobId, branch: u16)
    ensures { (part : Part) (to : Stage) → MayMove core.now.cell core.now.parts job branch part to
        → order_at core.now.cell (stage_of part) ≤ order_at core.now.cell to
        → reply_to core.now.cell core.now.parts (Move job branch) ≡ Granted }
{
    core_law(core);
}

/// An unload is never refused for a full neighborhood.
pub fn unload_is_never_saturated(core: &Core, job: JobId)
    ensures { (at : ResId) (held units : ℕ) → reply_to core.now.cell core.now.parts (Unload job) ≢ Refused (Saturated at held units) }
{}
