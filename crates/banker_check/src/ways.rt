//! The sweep from the last stage to the first that finds the masks of all ways.
//!
//! The way of a stage has the resource of its successor by branch 0 and, after it, the way of that successor.
ghost use Rattle.std.specs.Prelude.{◌≡◌, ◌+◌, length, IfOk};
ghost use Rattle.cell_base.specs.Stages.{stages};
ghost use Rattle.cell_base.specs.Numbers.{IsNumber, stage_numbered};
ghost use Rattle.cell_base.specs.Fits.{CellFits};
ghost use Rattle.banker_check.specs.WayMasks.{IsWayMask, KnowsWays, AreWays};

use cell_base::NoMemory;
use route_table::{StageNo, StageTable};
use std::alloc::Global;

/// For each stage the mask of its way.
pub fn sweep(alloc: Global, table: &StageTable) -> Result<Vec<u64>, NoMemory>
    requires { CellFits table.now }
    ensures { IfOk result (λ ways. AreWays table.now ways.items) }
{
    let stages = table.stages();
    let mut ways = vec![in alloc; 0u64; stages as usize]?;
    for stage in (0..stages).rev() {
        ways[stage as usize] = way_at(table, &ways, StageNo(stage));
    }
    Ok(ways)
}

/// The mask of a stage's way, once the stages after it have theirs.
fn way_at(table: &StageTable, ways: &[u64], stage: StageNo) -> u64
    requires fits { CellFits table.now }
    requires stage { IsNumber table.now stage.0 }
    requires length { length ways.now ≡ length (stages table.now) }
    requires behind { KnowsWays table.now (stage.0 + 1) ways.now }
    ensures { IsWayMask table.now (stage_numbered table.now stage.0) result }
{
    match table.next_of(stage, 0) {
        None => 0,
        Some(next) => ways[next.0 as usize] | 1 << table.resource_of(next).0,
    }
}
