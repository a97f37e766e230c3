//! The rounds in which the sessions of a shift ask a board. A session that waits has no turn until it is served, and a round in which none
//! asks is the last.
ghost use Rattle.std.specs.Prelude.{◌≡◌, ◌+◌, ◌*◌, ◌<◌, ◌≤◌, length};
ghost use Rattle.std.specs.Bool.{OnTrue, OnFalse};
ghost use Rattle.std.specs.Option.{is_some};
ghost use Rattle.board_rounds.specs.Clauses.{HasBecome, IsReady, IsWithinScript, MAX_ASKS, MAX_SESSIONS, NobodyAsks, ShiftFits};
ghost use Rattle.board_rounds.specs.Clauses.{asks_of, opened, present_step, progress_in, queue_run, round, script_of, turn};

use crate::progress::{SESSIONS, go_on};
use cell_base::{Request, Shift};
use solo_rounds::Progress;
use wait_board::Board;

/// The sessions of a shift ask a new board in rounds, up to the first round in which none asks. Session `k` has script `k - 1`.
pub fn ask_in_rounds(board: &mut Board, shift: &Shift)
    requires shift { ShiftFits board.old.cell shift.now }
    requires sessions { board.old.sessions ≡ length shift.now.scripts }
    requires new { board.old.on ≡ opened board.old.on.parts }
    requires room { 2 * MAX_ASKS ≤ board.old.spare }
    ensures run { HasBecome board.old (queue_run board.old.cell board.old.on.parts shift.now) board.new }
    ensures over { NobodyAsks shift.now board.new.on }
{
    let mut progress = [Progress::begin_at(0); SESSIONS];
    'rounds: loop {
        if !play_round(board, shift, &mut progress) {
            return;
        }
    }
}

// Each session has its turn, in the order of their numbers. Gives whether one of them asked.
fn play_round(board: &mut Board, shift: &Shift, progress: &mut [Progress; SESSIONS]) -> bool
    requires ready { IsReady shift.now progress.old board.old }
    ensures ready { IsReady shift.now progress.new board.new }
    ensures round { HasBecome board.old (round board.old.cell shift.now board.old.on) board.new }
    ensures asked { OnTrue result (length (asks_of board.old.on.history) < length (asks_of board.new.on.history)) }
    ensures over { OnFalse result (NobodyAsks shift.now board.new.on × (board.new.on ≡ board.old.on)) }
{
    let mut asked = false;
    for k in 0..shift.scripts.len() {
        asked = take_turn(board, shift, k, progress) || asked;
    }
    asked
}

// Session `k + 1` has its turn: where it has neither ended nor waits, it asks once. Gives whether it asked.
fn take_turn(board: &mut Board, shift: &Shift, k: u64, progress: &mut [Progress; SESSIONS]) -> bool
    requires session { k < length shift.now.scripts }
    requires ready { IsReady shift.now progress.old board.old }
    ensures ready { IsReady shift.now progress.new board.new }
    ensures turn { HasBecome board.old (turn board.old.cell shift.now board.old.on (k + 1)) board.new }
    ensures asked { OnTrue result (length (asks_of board.old.on.history) < length (asks_of board.new.on.history)) }
    ensures passed { OnFalse result ((present_step shift.now board.old.on (k + 1) ≡ None) × (board.new ≡ board.old)) }
{
    match step_of(board, shift, k, progress[k as usize]) {
        Some(request) => {
            let before = board.history().len();
            board.ask(k as u16 + 1, &request);
            go_on(progress, board.history(), before);
            true
        }
        None => false,
    }
}

// The present step of session `k + 1`, which stands at this progress.
fn step_of(board: &Board, shift: &Shift, k: u64, at: Progress) -> Option<Request>
    requires session { k < length shift.now.scripts }
    requires few { length shift.now.scripts ≤ MAX_SESSIONS }
    requires at { at ≡ progress_in board.now.on.history (k + 1) }
    requires within { IsWithinScript (script_of shift.now (k + 1)) shift.now.patience at }
    ensures { result ≡ present_step shift.now board.now.on (k + 1) }
{
    let script = shift.scripts.get(k);
    if at.has_ended(script, shift.patience) || board.waiter_of(k as u16 + 1).is_some() {
        return None;
    }
    Some(*script.get(at.step()))
}
