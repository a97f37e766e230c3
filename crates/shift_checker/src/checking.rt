//! The check of a record.
ghost use Rattle.std.specs.Prelude.{◌≡◌, IfOk, IfErr};
ghost use Rattle.cell_base.specs.Fits.{CellFits};
ghost use Rattle.record_text.specs.BadLines.{RefusedAt};
ghost use Rattle.record_text.specs.Blocks.{AreWellFormed};
ghost use Rattle.shift_checker.specs.Judging.{judge, IsVerdictOn};

use crate::Verdict;
use crate::block_lines::walk_blocks;
use crate::walk::Walk;
use cell_base::{Cell, List, NoMemory};
use record_text::{Block, LineReader, RecordFault};
use std::alloc::Global;

/// The verdict on the blocks of a record, as `read_record` gives them. Memory is taken once, for the parts.
pub fn check(alloc: Global, cell: &Cell, blocks: &List<Block>) -> Result<Verdict, NoMemory>
    requires cell { CellFits cell.now }
    requires blocks { AreWellFormed cell.now blocks.now }
    ensures { IfOk result (λ verdict. verdict ≡ judge cell.now blocks.now) }
{
    let mut walk = Walk::new(alloc, cell)?;
    Ok(walk_blocks(&mut walk, blocks.as_slice()))
}

/// The verdict on the record that some bytes are. Each line is judged as soon as it is read, and none is kept. After a line that
/// fails the others are still read, since a later one may be none of a record.
pub fn check_text(alloc: Global, cell: &Cell, bytes: &[u8]) -> Result<Verdict, RecordFault>
    requires { CellFits cell.now }
    ensures judged { IfOk result (IsVerdictOn cell.now bytes.now) }
    ensures refused { IfErr result (RefusedAt cell.now bytes.now) }
{
    let mut left = LineReader::new(cell, bytes)?;
    let mut walk = Walk::new(alloc, cell)?;
    let mut verdict = Verdict::Yes;
    loop {
        let number = left.number();
        let Some(line) = left.next()? else {
            return Ok(verdict);
        };
        if let Verdict::Yes = verdict {
            verdict = walk.line(number, &line);
        }
    }
}
