//! A record file that is read and judged, and the line of the verdict on it.
ghost use Rattle.std.specs.Prelude.{◌≡◌, ◌≤◌, length, IfOk, IfErr};
ghost use Rattle.shift_checker.specs.declared.verdict.Verdict.TheVariants.{No};
ghost use Rattle.cell_walks.specs.Clauses.{IsEndedAt, files_told};
ghost use Rattle.cell_texts.specs.Clauses.{CellFits, record_file};
ghost use Rattle.cell_commands.specs.JudgedFiles.{IsJudgedFile};
ghost use Rattle.cell_commands.specs.Verdicts.{verdict_text, why_word};

use cell_base::Cell;
use cell_texts::{at_record_fault, read_named};
use cell_walks::EarlyEnd;
use outside_io::Files;
use record_text::{Line, MAX_RECORD_BYTES};
use shift_checker::{Verdict, Why, check_text};
use std::alloc::Global;

/// The verdict on a record file of this cell, or the end in its place.
pub fn check_record<F: Files>(
    alloc: Global,
    files: &mut F,
    cell: &Cell,
    name: &str,
) -> Result<Verdict, EarlyEnd>
    requires { CellFits cell.now }
    ensures judged { IfOk result (IsJudgedFile (files_told F.holds F.is_sound F.faults files.old files.new) cell.now name.now) }
    ensures ended { IfErr result (IsEndedAt (files_told F.holds F.is_sound F.faults files.old files.new) (record_file cell.now name.now)) }
{
    let bytes = match read_named(alloc, files, name, MAX_RECORD_BYTES as u32) {
        Ok(bytes) => bytes,
        Err(end) => return Err(end),
    };
    match check_text(alloc, cell, &bytes) {
        Ok(verdict) => Ok(verdict),
        Err(fault) => Err(at_record_fault(fault)),
    }
}

/// The line of a verdict.
pub fn verdict_line(verdict: &Verdict) -> Line
    ensures { result ≡ verdict_text verdict.now }
{
    match verdict {
        Verdict::Yes => Line::of_word(b"yes").end(),
        Verdict::No { line, why } => no_line(*line, *why),
    }
}

fn no_line(number: u32, why: Why) -> Line
    ensures { result ≡ verdict_text (No number why) }
{
    let mut line = Line::of_word(b"no");
    line.number(number);
    line.word(why_word(why));
    line.end()
}

fn why_word(why: Why) -> &'static [u8]
    ensures word { result.now ≡ why_word why }
    ensures len { length result.now ≤ 5 }
{
    match why {
        Why::After => b"after",
        Why::Reply => b"reply",
        Why::Left => b"left",
        Why::Step => b"step",
        Why::Parts => b"parts",
    }
}
