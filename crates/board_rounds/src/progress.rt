//! Where the sessions stand after what a board told them.
ghost use Rattle.std.specs.Prelude.{◌≡◌, ◌+◌, ◌<◌, ◌≤◌, ◌^◌, length, take};
ghost use Rattle.std.specs.List.{All};
ghost use Rattle.cell_base.specs.declared.limits.TheConstants.{MAX_SESSIONS};
ghost use Rattle.cell_base.specs.Fits.{IsWithin};
ghost use Rattle.wait_board.specs.declared.entries.BoardEntry.{BoardEntry};
ghost use Rattle.board_rounds.specs.Rounds.{progress_told};
ghost use Rattle.board_rounds.specs.Underway.{Stands};

use cell_base::{MAX_SESSIONS, Reply};
use solo_rounds::Progress;
use wait_board::{BoardEntry, BoardTold};

/// As many sessions as a shift may have, for each of which there is a progress.
pub const SESSIONS: usize = MAX_SESSIONS as usize;

/// Brings the progress of each session from where it is after the first `from` entries of a history to where it is after all of it.
pub fn go_on(progress: &mut [Progress; SESSIONS], history: &[BoardEntry], from: usize)
    requires begun { from ≤ length history.now }
    requires short { length history.now < 2 ^ 32 }
    requires sessions { All (λ (entry : BoardEntry). IsWithin 1 MAX_SESSIONS entry.session) history.now }
    requires stands { Stands progress.old (take from history.now) }
    ensures stands { Stands progress.new history.now }
{
    for i in from..history.len() {
        let entry = history[i];
        let k = entry.session as usize - 1;
        progress[k] = told(progress[k], &entry.told);
    }
}

// Where a session stands when it was told.
fn told(at: Progress, told: &BoardTold) -> Progress
    requires step { at.step + 1 < 2 ^ 64 }
    requires refusals { at.refusals + 1 < 2 ^ 32 }
    ensures { result ≡ progress_told at told.now }
{
    match told {
        BoardTold::Granted | BoardTold::Served => at.after(Reply::Granted),
        BoardTold::Refused(why) | BoardTold::Dropped(why) => at.after(Reply::Refused(*why)),
        BoardTold::Waits(_) => at,
    }
}
