//! The laws of the policy for a cell, each the contract of a function that does nothing.
ghost use Rattle.cell_base.specs.Fits.{CellFits};
ghost use Rattle.cell_base.specs.Numbers.{NumberingLaw};
ghost use Rattle.policy_laws.specs.Laws.{MaskLaw, SweepLaw, UpLaw, DownLaw, MoveLaw, UnloadLaw, ProcessLaw};
ghost use Rattle.policy_laws.specs.Laws.{AdmissionLaw, RefusalLaw, SaturationLaw, UnitsLaw, PlanLaw};
ghost use Rattle.policy_laws.specs.Decisions.{DecisionLaw};

use cell_base::Cell;

/// Each stage has one number, and each number below their count is that of one stage.
pub fn numbering_law(cell: &Cell)
    ensures { NumberingLaw cell.now }
{}

/// Bit `r` of the mask of a stage is set exactly where the stage leads to resource `r`.
pub fn mask_law(cell: &Cell)
    requires { CellFits cell.now }
    ensures { MaskLaw cell.now }
{}

/// What a stage leads to is known from its successors.
pub fn sweep_law(cell: &Cell)
    requires { CellFits cell.now }
    ensures { SweepLaw cell.now }
{}

/// On a step to a resource of no lesser order, each neighborhood that holds the next stage holds the present one.
pub fn up_law(cell: &Cell)
    requires { CellFits cell.now }
    ensures { UpLaw cell.now }
{}

/// On a step to a resource of lesser order, a neighborhood that holds the next stage and not the present one is that of a
/// resource of lesser order than the present one, and each of its stages is on a resource of order at most that.
pub fn down_law(cell: &Cell)
    requires { CellFits cell.now }
    ensures { DownLaw cell.now }
{}

/// A move of a done part to a resource of no lesser order is granted.
pub fn move_law(cell: &Cell)
    requires { CellFits cell.now }
    ensures { MoveLaw cell.now }
{}

/// An unload of a done part at a last stage is granted, and no unload is refused for a full neighborhood.
pub fn unload_law(cell: &Cell)
    ensures { UnloadLaw cell.now }
{}

/// The work on a resource where a part waits for it is granted.
pub fn process_law(cell: &Cell)
    ensures { ProcessLaw cell.now }
{}

/// Each request that fits leads from an admitted state to an admitted state.
pub fn admission_law(cell: &Cell)
    requires { CellFits cell.now }
    ensures { AdmissionLaw cell.now }
{}

/// A refused request leaves the state.
pub fn refusal_law(cell: &Cell)
    ensures { RefusalLaw cell.now }
{}

/// A request that no earlier test refuses is granted exactly where the policy admits the state that it asks for, which then is the
/// next one, and else is refused for the least resource whose neighborhood that state overfills.
pub fn decision_law(cell: &Cell)
    requires { CellFits cell.now }
    ensures { DecisionLaw cell.now }
{}

/// A saturation names a neighborhood that is full.
pub fn saturation_law(cell: &Cell)
    requires { CellFits cell.now }
    ensures { SaturationLaw cell.now }
{}

/// An admitted state has no more parts than the cell has units.
pub fn units_law(cell: &Cell)
    requires { CellFits cell.now }
    ensures { UnitsLaw cell.now }
{}

/// Every admitted state can be drained by its plan, in as many steps as its parts need.
pub fn plan_law(cell: &Cell)
    requires { CellFits cell.now }
    ensures { PlanLaw cell.now }
{}
