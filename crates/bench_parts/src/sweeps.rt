//! The stage table and the masks of the largest cell.
ghost use Rattle.cell_base.specs.Fits.{CellFits};

use crate::largest::largest_cell;
use anyhow::{Context, Result, bail};
use cell_base::{Cell, NoMemory, cell_fits};
use route_table::{StageNo, StageTable};
use upstream_sets::Upstream;

/// Sweeps the largest cell so many times, and prints how much that was.
pub fn sweep_all<R: Print + AllocGlobal>(rt: &R, times: u64) -> Result<()> {
    let cell = largest_cell(rt.alloc()).ok().context("no memory")?;
    if !cell_fits(&cell) {
        bail!("the largest cell does not fit");
    }
    let mut stages: u64 = 0;
    let mut bits: u32 = 0;
    for _ in 0..times {
        let swept = sweep(rt, &cell).ok().context("no memory")?;
        stages = stages.saturating_add(u64::from(swept.stages));
        bits = swept.bits;
    }
    println!(rt; "{stages} stages, {bits} bits a cell")?;
    Ok(())
}

// The stages of a cell, and the bits that are set in all their masks together.
#[derive(Clone, Copy)]
struct Swept {
    stages: u16,
    bits: u32,
}

// Makes the table and the masks of a cell.
fn sweep<R: AllocGlobal>(rt: &R, cell: &Cell) -> Result<Swept, NoMemory>
    requires { CellFits cell.now }
{
    let table = StageTable::new(rt.alloc(), cell)?;
    let upstream = Upstream::new(rt.alloc(), &table)?;
    let stages = table.stages();
    let mut bits: u32 = 0;
    for stage in 0..stages {
        bits = bits.saturating_add(upstream.mask(StageNo(stage)).count_ones());
    }
    Ok(Swept { stages, bits })
}
