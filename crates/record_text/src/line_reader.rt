//! The lines of a record, read one after the other.
ghost use Rattle.std.specs.Prelude.{◌≡◌, ◌+◌, ◌<◌, ◌≤◌, ◌⊎◌, true, false, length, Ok, None, IfOk, IfErr, IfSome, List as Items, ℕ};
ghost use Rattle.record_text.specs.Clauses.{AreRead, AreWellFormed, Between, CellFits, IsRecordOf, LineFits, MAX_RECORD_BYTES, Reading};
ghost use Rattle.record_text.specs.Clauses.{RefusedAt, Suits, unread, with_line};
ghost use Rattle.record_text.specs.Turns.{line_at};
ghost use Rattle.step_text.specs.Words.{words};

use crate::record::{MAX_RECORD_BYTES, RecordFault, cut_line};
use crate::record_lines::{RecordLine, Turn, line_at, turn_after};
use cell_base::Cell;
use std::marker::Model;
use step_text::{IndexedCell, NameIndex};

/// What is left of the bytes of a record. It gives one line after the other, and keeps none of them:
///
/// ```rust
/// let mut left = LineReader::new(&cell, text)?;
/// while let Some(line) = left.next()? {
///     // what the lines of a record say, if no later line is bad
/// }
/// ```
#[derive(Drop)]
pub struct LineReader<'a> {
    cell: &'a Cell,
    names: NameIndex,
    number: u32,
    rest: &'a [u8],
    turn: Turn,
}

impl<'a> Model for LineReader<'a> {
    ghost use Rattle.std.specs.Prelude.{◌+◌, ◌≤◌, length};
    ghost use Rattle.cell_base.specs.Fits.{CellFits};
    ghost use Rattle.record_text.specs.declared.record.TheConstants.{MAX_RECORD_BYTES};
    ghost use Rattle.record_text.specs.Remains.{LinesLeft};
    ghost use Rattle.record_text.specs.Turns.{IsTurn};

    ghost Value = { LinesLeft };

    ghost view = { λ s. record { cell = s.cell.now; number = s.number; bytes = s.rest.now; turn = s.turn } };

    ghost invariant = { λ s. CellFits s.cell.now × (s.number + length s.rest.now ≤ MAX_RECORD_BYTES + 1) × IsTurn s.turn };
}

impl<'a> LineReader<'a> {
    /// Before the first line of bytes, unless there are too many.
    pub fn new(cell: &'a Cell, bytes: &'a [u8]) -> Result<LineReader<'a>, RecordFault>
        requires { CellFits cell.now }
        ensures begun { IfOk result (λ left. AreRead left bytes.now unread) }
        ensures first { IfOk result (λ left. left.number ≡ 1) }
        ensures cell { IfOk result (λ left. left.cell ≡ cell.now) }
        ensures refused { IfErr result (RefusedAt cell.now bytes.now) }
    {
        if bytes.len() as u64 > MAX_RECORD_BYTES {
            return Err(RecordFault::Bad { line: 0 });
        }
        Ok(LineReader {
            cell,
            names: NameIndex::of(cell),
            number: 1,
            rest: bytes,
            turn: Turn::Between,
        })
    }

    /// The number of the next line, from 1.
    pub fn number(&self) -> u32
        ensures value { result ≡ self.now.number }
        ensures small { result ≤ MAX_RECORD_BYTES + 1 }
    {
        self.number
    }

    /// What the next line says, or None where the bytes end as a record may. They are read once, and no copy of them is made.
    pub fn next(&mut self) -> Result<Option<RecordLine>, RecordFault>
        ensures line { (bytes : Items ℕ) → (so_far : Reading) → AreRead self.old bytes so_far
            → IfOk result (λ found. IfSome found (λ line. AreRead self.new bytes (with_line self.old.number so_far.0 so_far.1 line))) }
        ensures suits { IfOk result (λ found. IfSome found (Suits self.old.turn)) }
        ensures fits { IfOk result (λ found. IfSome found (LineFits self.old.cell)) }
        ensures number { IfOk result (λ found. IfSome found (λ _. self.new.number ≡ self.old.number + 1)) }
        ensures fewer { IfOk result (λ found. IfSome found (λ _. length self.new.bytes < length self.old.bytes)) }
        ensures cell { self.new.cell ≡ self.old.cell }

        ensures ended { (bytes : Items ℕ) → (so_far : Reading) → AreRead self.old bytes so_far
            → result ≡ Ok None → so_far.1 ≡ Between }
        ensures whole { (bytes : Items ℕ) → (so_far : Reading) → AreRead self.old bytes so_far
            → result ≡ Ok None → IsRecordOf self.old.cell bytes so_far.0 }
        ensures formed { (bytes : Items ℕ) → (so_far : Reading) → AreRead self.old bytes so_far
            → result ≡ Ok None → AreWellFormed self.old.cell so_far.0 }
        ensures refused { (bytes : Items ℕ) → (so_far : Reading) → AreRead self.old bytes so_far
            → IfErr result (RefusedAt self.old.cell bytes) }
    {
        if self.is_at_end() {
            return Ok(None);
        }
        let (line, rest) = cut_line(self.rest);
        let Some(rest) = rest else {
            return Err(RecordFault::Bad { line: self.number });
        };
        let Some(found) = read_line(self.cell, &self.names, self.turn, line) else {
            return Err(RecordFault::Bad { line: self.number });
        };
        self.turn = turn_after(self.turn, &found);
        self.number += 1;
        self.rest = rest;
        Ok(Some(found))
    }

    // Whether a record may end here.
    fn is_at_end(&self) -> bool
        ensures ended { result ≡ true → (self.now.turn ≡ Turn.Between) × (length self.now.bytes ≡ 0) × (1 < self.now.number) }
        ensures goes_on { result ≡ false → self.now.turn ≡ Turn.Between → (0 < length self.now.bytes) ⊎ (self.now.number ≤ 1) }
    {
        matches!(self.turn, Turn::Between) && self.rest.is_empty() && self.number > 1
    }
}

// What a line says in its turn, by an index of the cell's names.
fn read_line(cell: &Cell, names: &NameIndex, turn: Turn, line: &[u8]) -> Option<RecordLine>
    requires { CellFits cell.now }
    ensures said { result ≡ line_at cell.now turn (words line.now) }
    ensures suits { IfSome result (Suits turn) }
    ensures fits { IfSome result (LineFits cell.now) }
{
    line_at(&IndexedCell::over(cell, names), turn, line)
}
