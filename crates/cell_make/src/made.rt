//! The cell and the shift of a number.
ghost use Rattle.std.specs.Prelude.{◌≡◌, IfOk};
ghost use Rattle.cell_base.specs.Fits.{CellFits, ShiftFits};
ghost use Rattle.cell_make.specs.Cells.{drawn_cell};
ghost use Rattle.cell_make.specs.Shifts.{drawn_shift};

use crate::cells::draw_cell;
use crate::draws::Draws;
use crate::shifts::{draw_kinds, shift_of};
use cell_base::{Cell, NoMemory, Shift};
use std::alloc::Global;

/// A cell, and a shift that fits it.
#[derive(Drop)]
pub struct Made {
    pub cell: Cell,
    pub shift: Shift,
}

/// The cell and the shift that are drawn from a number.
pub fn make(alloc: Global, number: u64) -> Result<Made, NoMemory>
    ensures cell { IfOk result (λ made. made.cell ≡ drawn_cell number) }
    ensures shift { IfOk result (λ made. made.shift ≡ drawn_shift number) }

    ensures cell_fits { IfOk result (λ made. CellFits made.cell) }
    ensures shift_fits { IfOk result (λ made. ShiftFits made.cell made.shift) }
{
    let mut draws = Draws { number };
    let cell = draw_cell(alloc, &mut draws)?;
    let kinds = draw_kinds(alloc, &mut draws)?;
    let shift = shift_of(alloc, &cell, kinds.as_slice())?;
    Ok(Made { cell, shift })
}
