//! How grants lead the sessions of a shift on, one after the other.
ghost use Rattle.std.specs.Prelude.{◌≡◌, ◌<◌, ◌↔◌, IsTrue, List as Sequence, [], ◌∷◌, ◌++◌, length, slice_get, IfOk, IfErr};
ghost use Rattle.std.specs.Bool.{OnTrue, OnFalse};
ghost use Rattle.cell_base.specs.declared.shifts.Grant.{Grant as OneGrant};
ghost use Rattle.cell_base.specs.Starts.{AreFirstSteps};
ghost use Rattle.cell_sessions.specs.Starting.{HasLed, IsBeginFault, IsLed, IsReached};

use crate::fault::BeginFault;
use cell_base::{Grant, List, NoMemory, Request, Shift};
use solo_rounds::Progress as Stand;
use std::alloc::Global;
use std::marker::Model;

/// The sessions of a shift, each at the step that its grants reach among those that were taken; or the session of the first grant with
/// the shift's number that is no next step. The grants of other shifts count for nothing. Contracts see it as a `StartState`.
#[derive(Drop)]
pub(crate) struct SessionStarts<'a> {
    shift: &'a Shift,
    reached: List<Stand>,
    stray: Option<u16>,
}

impl<'a> Model for SessionStarts<'a> {
    ghost use Rattle.std.specs.Prelude.{◌≡◌, length};
    ghost use Rattle.cell_sessions.specs.Starting.{StartState};

    ghost Value = { StartState };

    ghost view = { λ s. record { shift = s.shift.now; reached = s.reached; stray = s.stray } };

    ghost invariant = { λ s. length s.reached ≡ length s.shift.now.scripts };
}

impl<'a> SessionStarts<'a> {
    /// No session has had a grant yet.
    pub(crate) fn of(alloc: Global, shift: &'a Shift) -> Result<SessionStarts<'a>, NoMemory>
        ensures shift { IfOk result (λ starts. starts.shift ≡ shift.now) }
        ensures none { IfOk result (HasLed []) }
    {
        let mut reached = List::new(alloc);
        for _ in 0..shift.scripts.len() {
            reached.try_push(Stand::begin_at(0))?;
        }
        Ok(SessionStarts {
            shift,
            reached,
            stray: None,
        })
    }

    /// One grant more. After a stray no grant leads on.
    pub(crate) fn lead(&mut self, grant: &Grant)
        ensures shift { self.new.shift ≡ self.old.shift }
        ensures led { (grants : Sequence OneGrant) → HasLed grants self.old → HasLed (grants ++ grant.now ∷ []) self.new }
    {
        if self.stray.is_none() {
            self.stray = stray_of(self.shift, grant, self.reached.as_mut_slice());
        }
    }

    /// The step that the grants of session `k + 1` reach; or the session of the first grant that was no next step.
    pub(crate) fn reached(&self) -> Result<&[Stand], BeginFault>
        ensures count { IfOk result (λ stands. length stands.now ≡ length self.now.shift.scripts) }
        ensures reached { (grants : Sequence OneGrant) → HasLed grants self.now
            → IfOk result (λ stands. IsReached self.now.shift grants stands.now) }
        ensures fault { (grants : Sequence OneGrant) → HasLed grants self.now → IfErr result (IsBeginFault self.now.shift grants) }
    {
        match self.stray {
            None => Ok(self.reached.as_slice()),
            Some(session) => Err(BeginFault::OtherShift { session }),
        }
    }
}

// A grant leads its session on, is another shift's, or is a stray of the session that is given.
fn stray_of(shift: &Shift, grant: &Grant, reached: &mut [Stand]) -> Option<u16>
    requires sessions { length reached.old ≡ length shift.now.scripts }
    ensures { (grants : Sequence OneGrant) → IsReached shift.now grants reached.old
        → IsLed shift.now (grants ++ grant.now ∷ []) reached.new result }
{
    if grant.shift != shift.number || lead_on(shift, grant, reached) {
        return None;
    }
    Some(grant.session)
}

// A grant of this shift leads its session to the next step, or it is a stray. Gives whether it leads it on.
fn lead_on(shift: &Shift, grant: &Grant, reached: &mut [Stand]) -> bool
    requires sessions { length reached.old ≡ length shift.now.scripts }
    requires own { grant.now.shift ≡ shift.now.number }
    ensures led { (grants : Sequence OneGrant) → IsReached shift.now grants reached.old
        → OnTrue result (IsReached shift.now (grants ++ grant.now ∷ []) reached.new) }
    ensures stray { (grants : Sequence OneGrant) → IsReached shift.now grants reached.old
        → OnFalse result (AreFirstSteps shift.now (grants ++ grant.now ∷ []) → ⊥) }
{
    let session = grant.session as u64;
    if session == 0 || shift.scripts.len() < session {
        return false;
    }
    let k = session - 1;
    let script = shift.scripts.get(k);
    let step = reached[k as usize].step();
    if step < script.len() && is_step(script, step, grant.request) {
        reached[k as usize] = Stand::begin_at(step + 1);
        return true;
    }
    false
}

// Whether this request is the step of the script with that number.
fn is_step(script: &List<Request>, step: u64, request: Request) -> bool
    requires { step < length script.now }
    ensures { IsTrue result ↔ (slice_get script.now step ≡ Some request) }
{
    *script.get(step) == request
}
