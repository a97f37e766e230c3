//! The end of a command at its journal: a fault of the bytes, or a grant of another shift, each with its number.
ghost use Rattle.std.specs.Prelude.{◌≡◌, Some};
ghost use Rattle.cell_walks.specs.Walks.{end_with};
ghost use Rattle.cell_walks.specs.declared.early_end.Subject.TheVariants.{Journal};
ghost use Rattle.journal_texts.specs.FaultNumbers.{journal_fault_code};
ghost use Rattle.journal_texts.specs.Openings.{end_unopened};
ghost use Rattle.journal_texts.specs.Starting.{other_shift};
ghost use Rattle.journal_texts.specs.Tests.{journal_line};

use cell_texts::{FaultCode, at_fault_code};
use cell_walks::{EarlyEnd, Subject};
use shift_recovery::{JournalFault, OpenFault};

// The fault of a journal, as its line shows it.
fn finding_of(fault: JournalFault) -> FaultCode
    ensures { result ≡ journal_fault_code fault }
{
    match fault {
        JournalFault::NotAJournal => FaultCode::plain(1),
        JournalFault::OtherCell { at } => FaultCode::with_count(2, at),
        JournalFault::Damaged { at } => FaultCode::with_count(3, at),
        JournalFault::Long { len } => FaultCode::with_count(4, len),
    }
}

/// The end at a fault of a journal.
pub fn at_journal_fault(why: JournalFault) -> EarlyEnd
    ensures { result ≡ end_with Journal (Some (journal_line why)) }
{
    at_fault_code(Subject::Journal, b"journal", Some(finding_of(why)))
}

/// The end at a disk that was not opened.
pub fn at_open_fault(why: OpenFault) -> EarlyEnd
    ensures { result ≡ end_unopened why }
{
    match why {
        OpenFault::Refused(why) => at_journal_fault(why),
        OpenFault::Device => EarlyEnd::DeviceFailed,
        OpenFault::Memory => EarlyEnd::WantOfMemory,
    }
}

/// The end at a grant of another shift in a journal, of this session.
pub fn at_other_shift(session: u16) -> EarlyEnd
    ensures { result ≡ end_with Journal (Some (other_shift session)) }
{
    at_fault_code(
        Subject::Journal,
        b"journal",
        Some(FaultCode::with_count(5, u64::from(session))),
    )
}
