//! Facts about the verdict, each the contract of a function that does nothing.
ghost use Rattle.std.specs.Prelude.{◌≡◌, ◌∷◌, [], false, All};
ghost use Rattle.cell_base.specs.Fits.{CellFits, RequestFits};
ghost use Rattle.cell_base.specs.Histories.{IsLegal, after};
ghost use Rattle.cell_base.specs.Plans.{plan_of};
ghost use Rattle.cell_base.specs.Scripts.{holds_halt};
ghost use Rattle.record_text.specs.Records.{block_of};
ghost use Rattle.shift_checker.specs.declared.verdict.Verdict.TheVariants.{Yes};
ghost use Rattle.shift_checker.specs.Judging.{judge};

use cell_base::{Cell, Entry};

/// The record of a legal history from the empty state, in which nothing halted, and of the plan for the parts that it
/// leaves is right.
pub fn legal_record_is_right(cell: &Cell, shift: u32, history: &[Entry])
    requires cell { CellFits cell.now }
    requires fit { All (λ entry. RequestFits cell.now entry.request) history.now }
    requires legal { IsLegal cell.now [] history.now }
    requires unhalted { holds_halt history.now ≡ false }
    ensures { let plan = plan_of cell.now (after cell.now [] history.now) in
        judge cell.now (block_of cell.now [] shift 0 history.now plan ∷ []) ≡ Yes }
{}
