//! Where the sessions of a shift begin after the grants that a journal has.
ghost use Rattle.std.specs.Prelude.{◌≡◌, List as Sequence, [], length, IfOk, IfErr};
ghost use Rattle.cell_base.specs.declared.limits.TheConstants.{MAX_STEPS};
ghost use Rattle.cell_base.specs.declared.shifts.Grant.{Grant as OneGrant};
ghost use Rattle.cell_base.specs.Starts.{AreFirstSteps};
ghost use Rattle.cell_sessions.specs.Progressing.{start_at};
ghost use Rattle.cell_sessions.specs.Starting.{AreBegun, IsBeginFault, IsReached, first_of_shift};

use crate::fault::BeginFault;
use crate::progress::Progress;
use crate::session_starts::SessionStarts;
use cell_base::{Grant, List, MAX_STEPS, NoMemory, Request, Shift};
use shift_recovery::GrantVisitor;
use solo_rounds::Progress as Stand;
use std::alloc::Global;

/// Each session begins at the step that its grants reach, with no refusals, and has ended where that is its script's end: session `k` has
/// element `k - 1`. A grant of the shift's number that is no next step is another shift's, and none begins. Grants of other shifts count
/// for nothing. Any shift may be handed in, also one beyond the limits.
pub fn begin(alloc: Global, shift: &Shift, opening: &[Grant]) -> Result<List<Progress>, BeginFault>
    ensures started { IfOk result (λ progress. AreFirstSteps shift.now opening.now) }
    ensures begun { IfOk result (AreBegun shift.now opening.now) }
    ensures fault { IfErr result (IsBeginFault shift.now opening.now) }
{
    let mut starts = SessionStarts::of(alloc, shift)?;
    for grant in opening {
        starts.lead(grant);
    }
    match starts.reached() {
        Ok(reached) => begin_at(alloc, shift, reached),
        Err(stray) => Err(stray),
    }
}

// Each session at the step that its grants reached.
fn begin_at(alloc: Global, shift: &Shift, reached: &[Stand]) -> Result<List<Progress>, BeginFault>
    requires sessions { length reached.now ≡ length shift.now.scripts }
    ensures begun { (grants : Sequence OneGrant) → IsReached shift.now grants reached.now → IfOk result (AreBegun shift.now grants) }
    ensures fault { IfErr result (λ fault. fault ≡ BeginFault.Memory) }
{
    let mut progress = List::new(alloc);
    for k in 0..shift.scripts.len() {
        // Beyond: a script and grants of more than a hundred gigabytes, which is want of memory.
        let Ok(next) = u32::try_from(reached[k as usize].step()) else {
            return Err(BeginFault::Memory);
        };
        progress.try_push(start_at(shift.scripts.get(k), next))?;
    }
    Ok(progress)
}

// A session at a step of its script.
fn start_at(script: &List<Request>, next: u32) -> Progress
    ensures { result ≡ start_at script.now next }
{
    Progress {
        next,
        refused: 0,
        asked: 0,
        ended: u64::from(next) == script.len(),
    }
}

/// A visitor that keeps the grants of one shift's number, which `begin` needs, and of the others none. Once it has more than any shift has
/// steps it keeps no more, since one of these is no next step.
#[derive(Drop)]
pub struct ShiftGrants {
    /// The number of the shift.
    pub number: u32,
    /// Its grants among those that were taken.
    pub grants: List<Grant>,
}

impl ShiftGrants {
    /// None yet.
    pub fn of(alloc: Global, number: u32) -> ShiftGrants
        ensures { result ≡ record { number = number; grants = [] } }
    {
        ShiftGrants {
            number,
            grants: List::new(alloc),
        }
    }
}

impl GrantVisitor for ShiftGrants {
    ghost visited = { λ start _ grants now. start.grants ≡ []
        → (now.number ≡ start.number) × (now.grants ≡ first_of_shift start.number grants) };

    fn visit(&mut self, _at: u64, grant: Grant) -> Result<(), NoMemory> {
        if grant.shift == self.number && self.grants.len() <= MAX_STEPS {
            self.grants.try_push(grant)?;
        }
        Ok(())
    }
}
