//! What is refused, and its line.
ghost use Rattle.std.specs.Prelude.{◌≡◌, ◌+◌, ◌≤◌, ◌++◌, length, Some};
ghost use Rattle.record_text.specs.Fitting.{RefusalFits};
ghost use Rattle.record_text.specs.Lines.{why_words};
ghost use Rattle.record_text.specs.Spaced.{spaced};
ghost use Rattle.cell_walks.specs.declared.early_end.Subject.TheVariants.{Command, Input};
ghost use Rattle.cell_walks.specs.Walks.{end_with};
ghost use Rattle.standby_commands.specs.Lines.{FaultFits, ack_line, feed_refused, follow_refused, frames_refused};

use cell_base::Cell;
use cell_walks::{EarlyEnd, Refusal, Subject};
use record_text::{Line, add_why};
use standby_link::TakeFault;

/// The end at a file that is no list of frames.
pub fn frames_refused() -> EarlyEnd
    ensures { result ≡ end_with Input (Some frames_refused) }
{
    EarlyEnd::Refused(Refusal {
        subject: Subject::Input,
        line: Line::of_word(b"frames refused").end(),
    })
}

/// The end at an index after the grants of a journal, of which there are so many.
pub fn feed_refused(len: u64) -> EarlyEnd
    ensures { result ≡ end_with Command (Some (feed_refused len)) }
{
    let mut line = Line::of_word(b"feed");
    line.word(b"refused");
    line.number(len);
    EarlyEnd::Refused(Refusal {
        subject: Subject::Command,
        line: line.end(),
    })
}

/// The line of an answer.
pub fn ack_line(ack: u64) -> Line
    ensures { result ≡ ack_line ack }
{
    let mut line = Line::of_word(b"ack");
    line.number(ack);
    line.end()
}

/// The line of a frame that is not taken, with the index that its bytes carry.
pub fn follow_refused(cell: &Cell, index: u64, why: &TakeFault) -> Line
    requires { FaultFits cell.now why.now }
    ensures { result ≡ follow_refused cell.now index why.now }
{
    let mut line = Line::of_word(b"follow");
    line.word(b"refused");
    line.number(index);
    match why {
        TakeFault::NotAFrame => line.word(b"frame"),
        TakeFault::Conflict { .. } => line.word(b"conflict"),
        TakeFault::NoFit => line.word(b"fit"),
        TakeFault::NotGranted(why) => add_why(&mut line, cell, why),
        TakeFault::Halted { .. } | TakeFault::Full { .. } | TakeFault::Device => {}
    }
    line.end()
}
