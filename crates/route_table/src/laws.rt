//! What holds of each table of stages.
ghost use Rattle.cell_base.specs.Fits.{CellFits};

use crate::StageTable;

/// The cell of a table fits.
pub fn table_law(table: &StageTable)
    ensures { CellFits table.now }
{
    let _cell = table.cell();
}
