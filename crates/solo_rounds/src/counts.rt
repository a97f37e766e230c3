//! How much the sessions of a shift may ask.
ghost use Rattle.std.specs.Prelude.{◌≡◌, ◌*◌, ◌≤◌};
ghost use Rattle.cell_base.specs.declared.limits.TheConstants.{MAX_STEPS};
ghost use Rattle.cell_base.specs.Fits.{steps_of};

use cell_base::Shift;

/// How many steps all sessions have together.
pub fn steps_of(shift: &Shift) -> u64
    requires { steps_of shift.now ≤ MAX_STEPS }
    ensures { result ≡ steps_of shift.now }
{
    let scripts = shift.scripts.as_slice();
    scripts.iter().map(|script| script.len()).sum()
}

/// The most entries of the shift: its steps times its patience.
pub fn asks_of(shift: &Shift) -> u64
    requires { steps_of shift.now ≤ MAX_STEPS }
    ensures { result ≡ steps_of shift.now * shift.now.patience }
{
    steps_of(shift) * u64::from(shift.patience)
}
