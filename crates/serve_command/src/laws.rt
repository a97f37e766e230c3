//! What follows of the answers, each law the contract of a function that does nothing.
ghost use Rattle.std.specs.Prelude.{List};
ghost use Rattle.cell_base.specs.declared.shifts.Grant.{Grant};
ghost use Rattle.serve_command.specs.BoardLaws.{BoardLaw};
ghost use Rattle.serve_command.specs.Laws.{AnswersEach, EachOnce, EndsEachWait, IsBlock, IsServedHistory, StaysSettled};
ghost use Rattle.serve_command.specs.ExactlyOnce.{Acknowledged, ExactlyOnce, GoesOn, OneGroup};
ghost use Rattle.serve_command.specs.Lives.{Start};
ghost use Rattle.serve_command.specs.declared.asks.Ask.{Ask};

use cell_base::Cell;
use wait_board::laws::scan_law;

/// Whenever lines are answered, the policy would refuse each step that waits for want of room: none waits that could be granted, and none
/// that is to be dropped.
pub fn nobody_waits_that_could_be_granted(cell: &Cell)
    ensures { StaysSettled cell.now }
{}

/// As many lines answer as were sent, one each, and all other lines end waits or are parts of lists: nothing else is put unasked.
pub fn each_line_is_answered_once(cell: &Cell)
    ensures { AnswersEach cell.now }
{}

/// No session waits twice, and each wait ends once: as many steps as were told that they wait have been served, dropped or cancelled, or
/// wait still.
pub fn each_wait_ends_once(cell: &Cell)
    ensures { (opening : List Grant) (asked : List Ask) → EndsEachWait cell.now opening asked }
{}

/// A session's number of grants grows by one at each line that tells it of a grant, `granted` or `served`, and at no other. So a client
/// that counts what it was told knows after any break, by `K grants`, whether its last step was granted.
pub fn each_grant_is_counted_once(cell: &Cell)
    ensures { EachOnce cell.now }
{}

/// The steps that are asked are one legal history after the grants of the journal, those that end a wait among them, and its grants are
/// those that are added.
pub fn steps_are_one_history(cell: &Cell)
    ensures { (opening : List Grant) (asked : List Ask) → IsServedHistory cell.now opening asked }
{}

/// Where each step that is asked may wait, and none is cancelled, what is told is what a board of `queue` tells that is opened on the same
/// parts and is asked the same.
pub fn waits_are_the_boards(cell: &Cell)
    ensures { BoardLaw cell.now }
{
    scan_law(cell);
}

/// Where each line asks for a step, what is put is a block of a record.
pub fn steps_are_a_record(cell: &Cell)
    ensures { (opening : List Grant) (asked : List Ask) → IsBlock cell.now opening asked }
{}

/// At each moment of a conversation each file that a crash then may leave has each grant that a whole line tells of, as granted or as
/// served.
pub fn acknowledged()
    ensures { (start : Start) → Acknowledged start }
{}

/// At each moment at most one group, of 512 lines, is on the disk and not yet answered: all of it or nothing.
pub fn at_most_one_group_is_unanswered()
    ensures { (start : Start) → OneGroup start }
{}

/// A session that was not told of at most one step what becomes of it, be it one that waits, finds after a crash at any moment the count of
/// grants that it was told, or one more: so the step was granted once, or not at all, and `K grants` tells which.
pub fn exactly_once()
    ensures { (start : Start) → ExactlyOnce start }
{}

/// A conversation that is opened on what a crash left goes on after the first of the lines that were sent.
pub fn goes_on_after_a_crash()
    ensures { (start : Start) → GoesOn start }
{}
