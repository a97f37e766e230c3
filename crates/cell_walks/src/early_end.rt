//! Ends before a command answers.
ghost use Rattle.std.specs.Prelude.{◌≡◌};
ghost use Rattle.cell_walks.specs.Statuses.{early_status, subject_status};

use crate::status::Status;
use cell_base::NoMemory;
use line_text::Line;
use outside_io::FileFail;

/// What is refused.
#[derive(Clone, Copy, Debug, PartialEq, Eq)]
pub enum Subject {
    /// The words.
    Words,
    /// The bytes of a cell file.
    Cell,
    /// The bytes of another file, or a word.
    Input,
    /// The bytes of the journal, or its grants.
    Journal,
    /// What was read stands for something that can't be done.
    Command,
}

impl Subject {
    /// The status of such a refusal.
    pub fn status(self) -> Status
        ensures { result ≡ subject_status self }
    {
        match self {
            Subject::Words => Status::NoCommand,
            Subject::Cell => Status::CellRefused,
            Subject::Input => Status::InputRefused,
            Subject::Journal => Status::JournalRefused,
            Subject::Command => Status::CommandRefused,
        }
    }
}

/// What is refused, and the line that says so.
#[derive(Drop)]
pub struct Refusal {
    pub subject: Subject,
    pub line: Line,
}

/// Why a command ends before it answers.
#[derive(Drop)]
pub enum EarlyEnd {
    /// A file could not be read.
    NotRead,
    /// The device failed before the journal was opened.
    DeviceFailed,
    /// Want of memory.
    WantOfMemory,
    /// What was read is refused.
    Refused(Refusal),
}

impl EarlyEnd {
    /// Its status.
    pub fn status(&self) -> Status
        ensures { result ≡ early_status self.now }
    {
        match self {
            EarlyEnd::NotRead => Status::ReadFault,
            EarlyEnd::DeviceFailed => Status::DeviceFault,
            EarlyEnd::WantOfMemory => Status::NoMemory,
            EarlyEnd::Refused(refusal) => refusal.subject.status(),
        }
    }
}
