//! The end of a command at a fault, with its line.
ghost use Rattle.std.specs.Prelude.{◌≡◌, ◌≤◌, length};
ghost use Rattle.std.specs.Option.{option_map};
ghost use Rattle.cell_walks.specs.Walks.{end_with};
ghost use Rattle.cell_walks.specs.declared.early_end.Subject.TheVariants.{Cell, Input};
ghost use Rattle.cell_texts.specs.RecordReads.{record_line};
ghost use Rattle.cell_texts.specs.Tests.{cell_fault_line, shift_fault_line, step_fault_line};
ghost use Rattle.cell_texts.specs.Texts.{refusal_text};

use crate::fault_codes::FaultCode;
use crate::lines::{bad_line, refusal_line, step_line};
use cell_file::CellFault;
use cell_walks::{EarlyEnd, Refusal, Subject};
use record_text::RecordFault;
use shift_file::ShiftFault;
use step_text::StepFault;

/// The end at a fault code in a file of this kind, which is a word of 7 bytes at most; without one it is want of memory.
pub fn at_fault_code(subject: Subject, file: &[u8], code: Option<FaultCode>) -> EarlyEnd
    requires { length file.now ≤ 7 }
    ensures { result ≡ end_with subject (option_map (refusal_text file.now) code) }
{
    match code {
        Some(code) => EarlyEnd::Refused(Refusal {
            subject,
            line: refusal_line(file, &code),
        }),
        None => EarlyEnd::WantOfMemory,
    }
}

/// The end at a fault of a cell file.
pub fn at_cell_fault(fault: CellFault) -> EarlyEnd
    ensures { result ≡ end_with Cell (cell_fault_line fault) }
{
    at_fault_code(Subject::Cell, b"cell", FaultCode::of_cell(fault))
}

/// The end at a fault of a shift file.
pub fn at_shift_fault(fault: ShiftFault) -> EarlyEnd
    ensures { result ≡ end_with Input (shift_fault_line fault) }
{
    at_fault_code(Subject::Input, b"shift", FaultCode::of_shift(fault))
}

/// The end at a fault of a record.
pub fn at_record_fault(fault: RecordFault) -> EarlyEnd
    ensures { result ≡ end_with Input (record_line fault) }
{
    match fault {
        RecordFault::Bad { line } => EarlyEnd::Refused(Refusal {
            subject: Subject::Input,
            line: bad_line(line),
        }),
        RecordFault::Memory => EarlyEnd::WantOfMemory,
    }
}

/// The end at a word that is no step.
pub fn at_step_fault(fault: StepFault) -> EarlyEnd
    ensures { result ≡ end_with Input (step_fault_line fault) }
{
    let _ = fault;
    EarlyEnd::Refused(Refusal {
        subject: Subject::Input,
        line: step_line(),
    })
}
