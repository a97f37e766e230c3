//! What can't be done, and its line.
ghost use Rattle.std.specs.Prelude.{◌≡◌, ◌+◌, ◌≤◌, ◌++◌, ◌∷◌, [], Some, length};
ghost use Rattle.cell_walks.specs.declared.early_end.Subject.TheVariants.{Command, Journal};
ghost use Rattle.cell_walks.specs.Walks.{end_with};
ghost use Rattle.record_text.specs.Fitting.{RefusalFits};
ghost use Rattle.record_text.specs.Lines.{why_words};
ghost use Rattle.record_text.specs.Spaced.{spaced};
ghost use Rattle.carry_commands.specs.Refusals.{UncarriedFits, carry_refused, other_start, start_refused};

use cell_base::{Cell, JobId, Refusal};
use cell_walks::{EarlyEnd, Subject};
use record_text::{Line, add_why};

/// Why a part can't be carried to another cell.
#[derive(Clone, Copy, Debug, PartialEq, Eq)]
pub enum Uncarried {
    /// No type of the other cell has the name of its type.
    NoType,
    /// That type has no such place on a resource of the same name.
    NoPlace,
    /// The policy doesn't admit it there, after the parts before it.
    NotAdmitted(Refusal),
}

/// The first part that can't be carried, by its job, and why.
#[derive(Clone, Copy, Debug, PartialEq, Eq)]
pub struct CarryFault {
    pub job: JobId,
    pub why: Uncarried,
}

/// The first request of a start that isn't granted, by its line from 1, and why.
#[derive(Clone, Copy, Debug, PartialEq, Eq)]
pub struct StartFault {
    pub line: u32,
    pub why: Refusal,
}

/// The end at a part that can't be carried to this cell.
pub fn at_carry_fault(new: &Cell, fault: &CarryFault) -> EarlyEnd
    requires { UncarriedFits new.now fault.now.why }
    ensures { result ≡ end_with Command (Some (carry_refused new.now fault.now)) }
{
    let mut line = Line::of_word(b"carry");
    line.word(b"refused");
    line.number(fault.job.0);
    match &fault.why {
        Uncarried::NoType => line.word(b"type"),
        Uncarried::NoPlace => line.word(b"place"),
        Uncarried::NotAdmitted(why) => add_why(&mut line, new, why),
    }
    refused(Subject::Command, line)
}

/// The end at a request of a start that isn't granted.
pub fn at_start_fault(cell: &Cell, fault: &StartFault) -> EarlyEnd
    requires { RefusalFits cell.now fault.now.why }
    ensures { result ≡ end_with Command (Some (start_refused cell.now fault.now)) }
{
    let mut line = Line::of_word(b"start");
    line.word(b"refused");
    line.number(fault.line);
    add_why(&mut line, cell, &fault.why);
    refused(Subject::Command, line)
}

/// The end at a journal whose grant at this index is not the start's.
pub fn at_other_start(at: u64) -> EarlyEnd
    ensures { result ≡ end_with Journal (Some (other_start at)) }
{
    let mut line = Line::of_word(b"journal");
    line.word(b"refused");
    line.number(6u8);
    line.number(at);
    refused(Subject::Journal, line)
}

// The end at what is refused, with this line.
fn refused(subject: Subject, line: Line) -> EarlyEnd
    requires { length line ≤ 150 }
    ensures { result ≡ end_with subject (Some (line ++ 10 ∷ [])) }
{
    EarlyEnd::Refused(cell_walks::Refusal {
        subject,
        line: line.end(),
    })
}
