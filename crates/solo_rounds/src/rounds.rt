//! The rounds of the sessions of a shift, one ask at a time.
ghost use Rattle.std.specs.Prelude.{◌≡◌, ℕ, ◌+◌, ◌*◌, ◌<◌, ◌≤◌, List, [], ◌∷◌, ◌++◌, length, All, IfSome, IfNone};
ghost use Rattle.solo_rounds.specs.Clauses.{Cell, CoreState, Entry, IsRoundRobin, MAX_PATIENCE, MAX_SESSIONS, MAX_STEPS, Part, RequestFits};
ghost use Rattle.solo_rounds.specs.Clauses.{Shift, ShiftFits, steps_of};
ghost use Rattle.solo_rounds.specs.Underway.{AsksStep, CanGoOn, HasEndedAt, HaveEnded, HaveEndedFrom, IsNextGoing, IsUnderway, asks_left};
ghost use Rattle.solo_rounds.specs.Asking.{AreAsking, AreReady, asks_left_in};

use crate::progress::Progress;
use admission_core::Core;
use cell_base::{Entry, List, MAX_SESSIONS, Request, Shift, Told};
use std::marker::Model;

const SESSIONS: usize = MAX_SESSIONS as usize;

/// Where the sessions of a shift stand, and which of them has its turn next. Session `k` has script `k - 1`, and stands at place `k - 1`.
/// Contracts see it as the `Standing` of the definitions.
#[derive(Drop)]
pub struct Rounds {
    progress: [Progress; SESSIONS],
    next: u64,
}

impl Model for Rounds {
    ghost use Rattle.solo_rounds.specs.Standing.{Standing};

    ghost Value = { Standing };

    ghost view = { λ s. record { progress = s.progress; next = s.next } };
}

impl Rounds {
    /// No session has asked yet, and the first has its turn.
    pub fn begin() -> Rounds
        ensures ready { (cell : Cell) (shift : Shift) → ShiftFits cell shift → AreReady shift result }
        ensures room { (cell : Cell) (shift : Shift) → ShiftFits cell shift
            → asks_left_in shift result ≤ steps_of shift * shift.patience }
        ensures begun { (core : CoreState) (shift : Shift) → AreAsking shift core core.parts [] result }
    {
        Rounds {
            progress: [Progress::begin_at(0); SESSIONS],
            next: 0,
        }
    }

    /// The next session that has not ended asks its present step; where all have ended, none does. It takes no memory.
    #[inline(always)]
    pub fn ask(&mut self, core: &mut Core, shift: &Shift) -> Option<Entry>
        requires shift { ShiftFits core.old.cell shift.now }
        requires ready { AreReady shift.now self.old }
        ensures cell { core.new.cell ≡ core.old.cell }
        ensures ready { AreReady shift.now self.new }
        ensures fewer { IfSome result (λ _. asks_left_in shift.now self.new < asks_left_in shift.now self.old) }
        ensures asked { (start : List Part) (history : List Entry) → AreAsking shift.now core.old start history self.old
            → IfSome result (λ entry. AreAsking shift.now core.new start (history ++ entry ∷ []) self.new) }
        ensures ended { (start : List Part) (history : List Entry) → AreAsking shift.now core.old start history self.old
            → IfNone result (IsRoundRobin core.old.cell start shift.now history × (core.new ≡ core.old)) }
        ensures none { IfNone result (HaveEnded shift.now self.new.progress (length shift.now.scripts)) }
    {
        match next_going(&self.progress, self.next, shift) {
            Some(k) => {
                let entry = take_turn(core, shift, k, &mut self.progress);
                self.next = k + 1;
                Some(entry)
            }
            None => None,
        }
    }
}

// The next session that has not ended, from place `next` on, and then from the first one on.
fn next_going(progress: &[Progress; SESSIONS], next: u64, shift: &Shift) -> Option<u64>
    requires few { length shift.now.scripts ≤ MAX_SESSIONS }
    requires next { next ≤ length shift.now.scripts }
    ensures going { IfSome result (IsNextGoing shift.now progress.now next) }
    ensures none { IfNone result (HaveEnded shift.now progress.now (length shift.now.scripts)) }
{
    match first_going(progress, shift, next, shift.scripts.len()) {
        Some(k) => Some(k),
        None => first_going(progress, shift, 0, next),
    }
}

// The first session that has not ended, of those from one place up to another.
fn first_going(progress: &[Progress; SESSIONS], shift: &Shift, from: u64, to: u64) -> Option<u64>
    requires few { length shift.now.scripts ≤ MAX_SESSIONS }
    requires from { from ≤ to }
    requires to { to ≤ length shift.now.scripts }
    ensures before { IfSome result (λ k. (from ≤ k) × (k < to) × HaveEndedFrom shift.now progress.now from k) }
    ensures going { IfSome result (λ k. HasEndedAt shift.now progress.now k → ⊥) }
    ensures none { IfNone result (HaveEndedFrom shift.now progress.now from to) }
{
    for k in from..to {
        let script = shift.scripts.get(k);
        let at = progress[k as usize];
        if !at.has_ended(script, shift.patience) {
            return Some(k);
        }
    }
    None
}

// Session `k + 1`, which has not ended, asks its present step.
#[inline(always)]
fn take_turn(core: &mut Core, shift: &Shift, k: u64, progress: &mut [Progress; SESSIONS]) -> Entry
    requires shift { ShiftFits core.old.cell shift.now }
    requires session { k < length shift.now.scripts }
    requires ready { CanGoOn shift.now progress.old }
    requires going { HasEndedAt shift.now progress.old k → ⊥ }
    ensures cell { core.new.cell ≡ core.old.cell }
    ensures ready { CanGoOn shift.now progress.new }
    ensures fewer { asks_left shift.now.patience shift.now.scripts progress.new
        < asks_left shift.now.patience shift.now.scripts progress.old }
    ensures underway { (start : List Part) (history : List Entry) (turn : ℕ)
        → IsUnderway shift.now core.old.cell start core.old.parts history progress.old turn k
        → IsUnderway shift.now core.old.cell start core.new.parts (history ++ result ∷ []) progress.new turn (k + 1) }
{
    let script = shift.scripts.get(k);
    let at = progress[k as usize];
    let (entry, next) = ask_step(core, k as u16 + 1, script, at);
    progress[k as usize] = next;
    entry
}

// A session asks its present step, and goes on by the reply.
#[inline(always)]
fn ask_step(
    core: &mut Core,
    session: u16,
    script: &List<Request>,
    at: Progress,
) -> (Entry, Progress)
    requires step { at.step < length script.now }
    requires few { length script.now ≤ MAX_STEPS }
    requires refusals { at.refusals < MAX_PATIENCE }
    requires script { All (RequestFits core.old.cell) script.now }
    ensures { AsksStep core.old core.new session script.now at result.1 result.0 }
{
    let request = *script.get(at.step());
    let reply = core.ask(&request);
    let entry = Entry {
        session,
        request,
        told: Told::Answered(reply),
    };
    (entry, at.after(reply))
}
