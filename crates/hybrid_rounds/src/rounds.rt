//! The rounds in which the sessions of a shift ask a hybrid: each that has not ended has one turn in each.
ghost use Rattle.std.specs.Prelude.{◌≡◌, ℕ, ◌+◌, ◌*◌, ◌<◌, ◌≤◌, List, [], length, All};
ghost use Rattle.std.specs.Bool.{OnTrue, OnFalse};
ghost use Rattle.hybrid_rounds.specs.Clauses.{AsksHybrid, HasEndedAt, HaveEnded, HybridEntry, IsHybridRoundRobin, IsReady};
ghost use Rattle.hybrid_rounds.specs.Clauses.{IsUnderway, MAX_PATIENCE, MAX_STEPS, Part, RequestFits, ShiftFits};
ghost use Rattle.hybrid_rounds.specs.Clauses.{after_h, asks_left, steps_of};

use crate::entries::{HybridEntry, taken_reply};
use banker_check::Hybrid;
use cell_base::{List, MAX_SESSIONS, Request, Shelf, Shift};
use solo_rounds::Progress;

const SESSIONS: usize = MAX_SESSIONS as usize;

/// In each round every session that has not ended asks once, in the order of their numbers, until all have ended. Session `k`
/// has script `k - 1`. It takes no memory.
pub fn ask_in_rounds(hybrid: &mut Hybrid, shift: &Shift, history: &mut Shelf<HybridEntry>)
    requires shift { ShiftFits hybrid.old.cell shift.now }
    requires empty { history.old.items ≡ [] }
    requires room { steps_of shift.now * shift.now.patience ≤ history.old.spare }
    ensures rounds { IsHybridRoundRobin hybrid.old.cell hybrid.old.parts shift.now history.new.items }
    ensures requests { All (λ (entry : HybridEntry). RequestFits hybrid.old.cell entry.request) history.new.items }
    ensures state { hybrid.new ≡ record hybrid.old { parts = after_h hybrid.old.cell hybrid.old.parts history.new.items } }
{
    let mut progress = [Progress::begin_at(0); SESSIONS];
    'rounds: loop {
        if !play_round(hybrid, shift, &mut progress, history) {
            return;
        }
    }
}

// A turn of all sessions, in the order of their numbers. Gives whether one of them asked.
fn play_round(
    hybrid: &mut Hybrid,
    shift: &Shift,
    progress: &mut [Progress; SESSIONS],
    history: &mut Shelf<HybridEntry>,
) -> bool
    requires shift { ShiftFits hybrid.old.cell shift.now }
    requires ready { IsReady shift.now progress.old history.old.spare }
    ensures cell { hybrid.new.cell ≡ hybrid.old.cell }
    ensures ready { IsReady shift.now progress.new history.new.spare }
    ensures underway { (start : List Part) (turn : ℕ)
        → IsUnderway shift.now hybrid.old.cell start hybrid.old.parts history.old.items progress.old turn 0
        → IsUnderway shift.now hybrid.old.cell start hybrid.new.parts history.new.items progress.new (turn + 1) 0 }
    ensures asked { OnTrue result
        (asks_left shift.now.patience shift.now.scripts progress.new
        < asks_left shift.now.patience shift.now.scripts progress.old) }
    ensures ended { OnFalse result (HaveEnded shift.now progress.new (length shift.now.scripts)) }
{
    let mut asked = false;
    for k in 0..shift.scripts.len() {
        asked = take_turn(hybrid, shift, k, progress, history) || asked;
    }
    asked
}

// Session `k + 1` has its turn: unless it has ended, it asks once. Gives whether it asked.
fn take_turn(
    hybrid: &mut Hybrid,
    shift: &Shift,
    k: u64,
    progress: &mut [Progress; SESSIONS],
    history: &mut Shelf<HybridEntry>,
) -> bool
    requires shift { ShiftFits hybrid.old.cell shift.now }
    requires session { k < length shift.now.scripts }
    requires ready { IsReady shift.now progress.old history.old.spare }
    ensures cell { hybrid.new.cell ≡ hybrid.old.cell }
    ensures ready { IsReady shift.now progress.new history.new.spare }
    ensures underway { (start : List Part) (turn : ℕ)
        → IsUnderway shift.now hybrid.old.cell start hybrid.old.parts history.old.items progress.old turn k
        → IsUnderway shift.now hybrid.old.cell start hybrid.new.parts history.new.items progress.new turn (k + 1) }
    ensures asked { OnTrue result
        (asks_left shift.now.patience shift.now.scripts progress.new
        < asks_left shift.now.patience shift.now.scripts progress.old) }
    ensures passed { OnFalse result (HasEndedAt shift.now progress.old k × (progress.new ≡ progress.old)) }
{
    let script = shift.scripts.get(k);
    let at = progress[k as usize];
    if at.has_ended(script, shift.patience) {
        return false;
    }
    progress[k as usize] = ask_step(hybrid, k as u16 + 1, script, at, history);
    true
}

// A session asks its present step, and goes on by the reply.
fn ask_step(
    hybrid: &mut Hybrid,
    session: u16,
    script: &List<Request>,
    at: Progress,
    history: &mut Shelf<HybridEntry>,
) -> Progress
    requires step { at.step < length script.now }
    requires few { length script.now ≤ MAX_STEPS }
    requires refusals { at.refusals < MAX_PATIENCE }
    requires script { All (RequestFits hybrid.old.cell) script.now }
    requires room { 0 < history.old.spare }
    ensures asks { AsksHybrid hybrid.old hybrid.new session script.now at result history.old.items history.new.items }
    ensures room { history.new.spare + 1 ≡ history.old.spare }
{
    let request = *script.get(at.step());
    let told = hybrid.ask(&request);
    history.push(HybridEntry {
        session,
        request,
        told,
    });
    at.after(taken_reply(told))
}
