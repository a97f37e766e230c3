//! The plan that empties a hybrid, step by step.
ghost use Rattle.std.specs.Prelude.{◌≡◌, ◌+◌, ◌∷◌, ◌↔◌, [], None, IfSome};
ghost use Rattle.hybrid_command.specs.Clauses.{IsStep, plan_h_of, work};

use banker_check::Hybrid;
use cell_base::Request;

/// Takes the next step of the plan, which is granted. None exactly where no part is left.
pub fn take_step(hybrid: &mut Hybrid) -> Option<Request>
    ensures none { (result ≡ None) ↔ (hybrid.old.parts ≡ []) }
    ensures some { IfSome result (λ step.
        plan_h_of hybrid.old.cell hybrid.old.parts ≡ step ∷ plan_h_of hybrid.new.cell hybrid.new.parts) }
    ensures step { IfSome result (IsStep hybrid.old.cell) }
    ensures nearer { IfSome result (λ _.
        work hybrid.new.cell hybrid.new.parts + 1 ≡ work hybrid.old.cell hybrid.old.parts) }
    ensures cell { hybrid.new.cell ≡ hybrid.old.cell }
{
    let step = hybrid.plan_step()?;
    hybrid.apply(&step);
    Some(step)
}
