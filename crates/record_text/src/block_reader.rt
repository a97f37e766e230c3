//! The blocks of a record, read one after the other.
ghost use Rattle.std.specs.Prelude.{◌≡◌, ◌<◌, ◌++◌, ◌∷◌, [], length, Ok, None, IfOk, IfErr, IfSome, List as Items, ℕ};
ghost use Rattle.cell_base.specs.Fits.{CellFits};
ghost use Rattle.record_text.specs.declared.blocks.Block.{Block};
ghost use Rattle.record_text.specs.BadLines.{IsRecordOf, RefusedAt};
ghost use Rattle.record_text.specs.Progress.{IsAdvance, LacksStep, on_line, reading_of};
ghost use Rattle.record_text.specs.Remains.{IsReadTo};
ghost use Rattle.std.specs.Option.{option_map};
ghost use Rattle.step_text.specs.Words.{words};

use crate::blocks::Block;
use crate::record::{MAX_RECORD_BYTES, RecordFault, cut_line};
use crate::stages::{Advance, Stage, on_line};
use cell_base::{Cell, NoMemory};
use std::alloc::Global;
use std::marker::Model;
use step_text::{IndexedCell, NameIndex};

/// What is left of the bytes of a record. It gives one block after the other, and keeps none of them:
///
/// ```rust
/// let mut left = BlockReader::new(alloc, &cell, text)?;
/// while let Some(block) = left.next()? {
///     // the blocks whose text the bytes are, if no later line is bad
/// }
/// ```
#[derive(Drop)]
pub struct BlockReader<'a> {
    alloc: Global,
    cell: &'a Cell,
    names: NameIndex,
    number: u32,
    rest: &'a [u8],
}

impl<'a> Model for BlockReader<'a> {
    ghost use Rattle.std.specs.Prelude.{◌+◌, ◌≤◌, length};
    ghost use Rattle.cell_base.specs.Fits.{CellFits};
    ghost use Rattle.record_text.specs.declared.record.TheConstants.{MAX_RECORD_BYTES};
    ghost use Rattle.record_text.specs.Remains.{Remains};

    ghost Value = { Remains };

    ghost view = { λ s. record { cell = s.cell.now; number = s.number; bytes = s.rest.now } };

    ghost invariant = { λ s. CellFits s.cell.now × (s.number + length s.rest.now ≤ MAX_RECORD_BYTES + 1) };
}

impl<'a> BlockReader<'a> {
    /// Before the first block of bytes, unless there are too many.
    pub fn new(
        alloc: Global,
        cell: &'a Cell,
        bytes: &'a [u8],
    ) -> Result<BlockReader<'a>, RecordFault>
        requires { CellFits cell.now }
        ensures begun { IfOk result (λ left. IsReadTo left bytes.now []) }
        ensures cell { IfOk result (λ left. left.cell ≡ cell.now) }
        ensures refused { IfErr result (RefusedAt cell.now bytes.now) }
    {
        if bytes.len() as u64 > MAX_RECORD_BYTES {
            return Err(RecordFault::Bad { line: 0 });
        }
        Ok(BlockReader {
            alloc,
            cell,
            names: NameIndex::of(cell),
            number: 1,
            rest: bytes,
        })
    }

    /// The next block, or None where the bytes end as a record may. They are read once, and no copy of them is made.
    pub fn next(&mut self) -> Result<Option<Block>, RecordFault>
        ensures block { (bytes : Items ℕ) → (given : Items Block) → IsReadTo self.old bytes given
            → IfOk result (λ found. IfSome found (λ block. IsReadTo self.new bytes (given ++ block ∷ []))) }
        ensures whole { (bytes : Items ℕ) → (given : Items Block) → IsReadTo self.old bytes given
            → result ≡ Ok None → IsRecordOf self.old.cell bytes given }
        ensures refused { (bytes : Items ℕ) → (given : Items Block) → IsReadTo self.old bytes given
            → IfErr result (RefusedAt self.old.cell bytes) }
        ensures cell { self.new.cell ≡ self.old.cell }
        ensures fewer { IfOk result (λ found. IfSome found (λ _. length self.new.bytes < length self.old.bytes)) }
    {
        if self.rest.is_empty() && self.number > 1 {
            return Ok(None);
        }
        let mut stage = Stage::Between;
        let mut number = self.number;
        let mut rest = self.rest;
        loop {
            let (line, more) = cut_line(rest);
            let Some(more) = more else {
                return Err(RecordFault::Bad { line: number });
            };
            stage = match advance(self.alloc, self.cell, &self.names, number, stage, line)? {
                Some(Advance::Within(next)) => next,
                Some(Advance::Whole(block)) => {
                    self.number = number + 1;
                    self.rest = more;
                    return Ok(Some(block));
                }
                None => return Err(RecordFault::Bad { line: number }),
            };
            number += 1;
            rest = more;
        }
    }
}

// What becomes of a stage on a line, by an index of the cell's names.
fn advance(
    alloc: Global,
    cell: &Cell,
    names: &NameIndex,
    number: u32,
    stage: Stage,
    line: &[u8],
) -> Result<Option<Advance>, NoMemory>
    requires fits { CellFits cell.now }
    requires stage { LacksStep stage }
    ensures next { IfOk result (λ found. option_map reading_of found ≡ on_line cell.now number [] stage (words line.now)) }
    ensures within { IfOk result (λ found. IfSome found IsAdvance) }
{
    on_line(alloc, &IndexedCell::over(cell, names), number, stage, line)
}
