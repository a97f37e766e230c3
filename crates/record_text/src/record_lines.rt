//! What a line of a record says, and which lines may come next.
ghost use Rattle.std.specs.Prelude.{◌≡◌, IfSome};
ghost use Rattle.cell_base.specs.Histories.{was_halted};
ghost use Rattle.step_text.specs.Words.{words};
ghost use Rattle.record_text.specs.Turns.{IsTurn, LineFits, Suits, before_steps, line_at, turn_after};

use crate::lines_at::{entry_at, head_at, left_at, plan_at, step_at};
use cell_base::{Entry, Request, Told};
use step_text::IndexedCell;

/// What a line of a record says.
#[derive(Clone, Copy)]
pub enum RecordLine {
    /// The number of a shift, and how many grants were made before it.
    Head { shift: u32, after: u64 },
    Entry(Entry),
    /// How many parts are left.
    Left(u32),
    /// How many steps the plan has.
    Plan(u64),
    Step(Request),
}

/// What may come next.
#[derive(Clone, Copy)]
pub enum Turn {
    /// A head, or the end of the file.
    Between,
    /// An entry or the left line.
    Entries,
    /// The plan line.
    Left,
    /// This many steps, one at least.
    Steps { missing: u64 },
}

/// What a line says in its turn, and None where it is bad.
pub fn line_at(cell: &IndexedCell<'_>, turn: Turn, line: &[u8]) -> Option<RecordLine>
    ensures said { result ≡ line_at cell.now turn (words line.now) }
    ensures suits { IfSome result (Suits turn) }
    ensures fits { IfSome result (LineFits cell.now) }
{
    match turn {
        Turn::Between => {
            let (shift, after) = head_at(line)?;
            Some(RecordLine::Head { shift, after })
        }
        Turn::Entries => match entry_at(cell, line) {
            Some(entry) => Some(RecordLine::Entry(entry)),
            None => left_at(line).map(RecordLine::Left),
        },
        Turn::Left => plan_at(line).map(RecordLine::Plan),
        Turn::Steps { .. } => {
            let step = step_at(cell, line)?;
            Some(RecordLine::Step(step))
        }
    }
}

/// What may come after a line.
pub fn turn_after(turn: Turn, line: &RecordLine) -> Turn
    requires turn { IsTurn turn }
    requires line { Suits turn line.now }
    ensures next { result ≡ turn_after turn line.now }
    ensures turn { IsTurn result }
{
    match *line {
        RecordLine::Head { .. } => Turn::Entries,
        RecordLine::Entry(entry) => {
            if was_halted(&entry.told) {
                Turn::Between
            } else {
                Turn::Entries
            }
        }
        RecordLine::Left(_) => Turn::Left,
        RecordLine::Plan(steps) => before_steps(steps),
        RecordLine::Step(_) => match turn {
            Turn::Steps { missing } => before_steps(missing - 1),
            _ => turn,
        },
    }
}

fn before_steps(missing: u64) -> Turn
    ensures next { result ≡ before_steps missing }
    ensures turn { IsTurn result }
{
    if missing == 0 {
        Turn::Between
    } else {
        Turn::Steps { missing }
    }
}

fn was_halted(told: &Told) -> bool
    ensures { result ≡ was_halted told.now }
{
    matches!(told, Told::Halted)
}
