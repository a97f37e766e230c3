//! All steps of a plan as a list.
ghost use Rattle.std.specs.Prelude.{◌≡◌, length, IfOk};
ghost use Rattle.cell_base.specs.Plans.{Drains, plan_of, work};

use crate::Drainer;
use admission_core::Core;
use cell_base::{List, NoMemory, Request};
use std::alloc::Global;

/// The steps that empty the cell of a core: each is granted in its turn, and then no part is left.
pub fn plan(alloc: Global, core: Core) -> Result<List<Request>, NoMemory>
    ensures steps { IfOk result (λ steps. steps ≡ plan_of core.cell core.parts) }
    ensures drains { IfOk result (Drains core.cell core.parts) }
    ensures length { IfOk result (λ steps. length steps ≡ work core.cell core.parts) }
{
    let mut drainer = Drainer::new(core);
    steps_left(alloc, &mut drainer)
}

/// The steps that are left, which are taken.
fn steps_left(alloc: Global, drainer: &mut Drainer) -> Result<List<Request>, NoMemory>
    ensures steps { IfOk result (λ steps. steps ≡ plan_of drainer.old.cell drainer.old.parts) }
    ensures drains { IfOk result (Drains drainer.old.cell drainer.old.parts) }
    ensures length { IfOk result (λ steps. length steps ≡ work drainer.old.cell drainer.old.parts) }
{
    let mut steps = List::new(alloc);
    for _ in 0..drainer.length() {
        if let Some(step) = drainer.next() {
            steps.try_push(step)?;
        }
    }
    Ok(steps)
}
