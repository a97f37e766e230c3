//! A core that is emptied by its plan.
ghost use Rattle.std.specs.Prelude.{◌≡◌, ◌+◌, ◌∷◌, ◌↔◌, [], None, IfSome, length};
ghost use Rattle.cell_base.specs.declared.requests.Reply.TheVariants.{Granted};
ghost use Rattle.cell_base.specs.Fits.{CellFits};
ghost use Rattle.cell_base.specs.Outcomes.{reply_to, state_after};
ghost use Rattle.cell_base.specs.Plans.{Drains, plan_of, work};
ghost use Rattle.step_text.specs.Steps.{IsStep};

use admission_core::Core;
use cell_base::{Cell, Request};
use std::marker::Model;

/// A core whose plan is taken step by step. Contracts see it as the state of its core.
#[derive(Drop)]
pub struct Drainer {
    core: Core,
}

impl Model for Drainer {
    ghost use Rattle.admission_core.specs.CoreState.{CoreState};

    ghost Value = { CoreState };

    ghost view = { λ s. s.core };
}

impl Drainer {
    /// A planner at the state of a core.
    pub fn new(core: Core) -> Drainer
        ensures { result ≡ core }
    {
        Drainer { core }
    }

    /// The next step of the plan, which is granted and applied. None exactly where no part is left.
    pub fn next(&mut self) -> Option<Request>
        ensures none { (result ≡ None) ↔ (self.old.parts ≡ []) }
        ensures some { IfSome result (λ step.
            plan_of self.old.cell self.old.parts ≡ step ∷ plan_of self.new.cell self.new.parts) }
        ensures step { IfSome result (IsStep self.old.cell) }
        ensures granted { IfSome result (λ step. reply_to self.old.cell self.old.parts step ≡ Granted) }
        ensures applied { IfSome result (λ step.
            self.new.parts ≡ state_after self.old.cell self.old.parts step) }
        ensures nearer { IfSome result (λ _.
            work self.new.cell self.new.parts + 1 ≡ work self.old.cell self.old.parts) }

        ensures emptied { result ≡ None → self.new ≡ self.old }
        ensures cell { self.new.cell ≡ self.old.cell }
    {
        self.core.take_plan_step()
    }

    /// The number of steps still to come: what all parts need together.
    pub fn length(&self) -> u64
        ensures work { result ≡ work self.now.cell self.now.parts }
        ensures steps { result ≡ length (plan_of self.now.cell self.now.parts) }
        ensures drains { Drains self.now.cell self.now.parts (plan_of self.now.cell self.now.parts) }
    {
        self.core.work_left()
    }

    /// The cell.
    pub fn cell(&self) -> &Cell
        ensures cell { result.now ≡ self.now.cell }
        ensures fits { CellFits self.now.cell }
    {
        self.core.cell()
    }

    /// The core in the state that was reached.
    pub fn into_core(self) -> Core
        ensures { result ≡ self }
    {
        self.core
    }
}
