//! What tells where the sessions of a shift begin, as the contract of a function that does nothing.
ghost use Rattle.std.specs.Prelude.{◌≤◌, List as Sequence};
ghost use Rattle.cell_base.specs.declared.limits.TheConstants.{MAX_STEPS};
ghost use Rattle.cell_base.specs.declared.shifts.Grant.{Grant};
ghost use Rattle.cell_base.specs.Fits.{steps_of};
ghost use Rattle.cell_base.specs.Starts.{AreFirstSteps};
ghost use Rattle.cell_sessions.specs.declared.fault.BeginFault.{BeginFault};
ghost use Rattle.cell_sessions.specs.declared.progress.Progress.{Progress};
ghost use Rattle.cell_sessions.specs.Starting.{AreBegun, IsBeginFault, first_of_shift};

use cell_base::Shift;

/// A grant of another shift counts for nothing, and grants beyond the steps of the shift are another shift's: the sessions begin after
/// grants as they do after the first of those of the shift's number alone.
pub fn own_grants_law(shift: &Shift)
    requires steps { steps_of shift.now ≤ MAX_STEPS }
    ensures started { (grants : Sequence Grant) → AreFirstSteps shift.now (first_of_shift shift.now.number grants)
        → AreFirstSteps shift.now grants }
    ensures begun { (grants : Sequence Grant) (progress : Sequence Progress)
        → AreFirstSteps shift.now (first_of_shift shift.now.number grants)
        → AreBegun shift.now (first_of_shift shift.now.number grants) progress → AreBegun shift.now grants progress }
    ensures fault { (grants : Sequence Grant) (fault : BeginFault)
        → IsBeginFault shift.now (first_of_shift shift.now.number grants) fault → IsBeginFault shift.now grants fault }
{}
