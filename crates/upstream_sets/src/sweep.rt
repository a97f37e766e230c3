//! The sweep from the last stage to the first that finds the masks of all.
//!
//! The mask of a stage has the resource on which the stage is, and of what its successors lead to the resources of order at
//! least that of its own.
ghost use Rattle.std.specs.Prelude.{◌≡◌, ℕ, ◌+◌, ◌<◌, Some, length, IfOk};
ghost use Rattle.std.specs.List.{list_any};
ghost use Rattle.cell_base.specs.declared.limits.TheConstants.{MAX_RESOURCES};
ghost use Rattle.cell_base.specs.Masks.{has_bit};
ghost use Rattle.cell_base.specs.Stages.{Stage, stages, successors, successor};
ghost use Rattle.cell_base.specs.Neighborhoods.{leads, mask_of, masks_of};
ghost use Rattle.cell_base.specs.Fits.{CellFits};
ghost use Rattle.upstream_sets.specs.Sweeps.{KnowsMasks, IsFloor, AreFloors, IsNumber, stage_numbered};

use cell_base::{MAX_RESOURCES, NoMemory, ResId};
use route_table::{StageNo, StageTable};
use std::alloc::Global;

/// The resources of the largest cell.
const RESOURCES: usize = MAX_RESOURCES as usize;

/// The masks of all stages.
pub fn sweep(alloc: Global, table: &StageTable) -> Result<Vec<u64>, NoMemory>
    ensures masks { IfOk result (λ masks. masks.items ≡ masks_of table.now) }
    ensures few { IfOk result (λ masks. length masks.items < 65536) }
{
    let floors = floors(table);
    let stages = table.stages();
    let mut masks = vec![in alloc; 0u64; stages as usize]?;
    for stage in (0..stages).rev() {
        masks[stage as usize] = mask_at(table, &floors, &masks, StageNo(stage));
    }
    Ok(masks)
}

/// The mask of a stage, once those after it have theirs.
fn mask_at(table: &StageTable, floors: &[u64; RESOURCES], masks: &[u64], stage: StageNo) -> u64
    requires fits { CellFits table.now }
    requires stage { IsNumber table.now stage.0 }
    requires floors { AreFloors table.now (length table.now.resources) floors.now }
    requires length { length masks.now ≡ length (stages table.now) }
    requires later { KnowsMasks table.now (stage.0 + 1) masks.now }
    ensures { result ≡ mask_of table.now (stage_numbered table.now stage.0) }
{
    let on = table.resource_of(stage);
    joined(table, masks, stage) & floors[on.0 as usize] | 1 << on.0
}

/// The resources to which some successor of a stage leads.
fn joined(table: &StageTable, masks: &[u64], stage: StageNo) -> u64
    requires fits { CellFits table.now }
    requires stage { IsNumber table.now stage.0 }
    requires length { length masks.now ≡ length (stages table.now) }
    requires later { KnowsMasks table.now (stage.0 + 1) masks.now }
    ensures { (r : ℕ) → has_bit result r ≡ list_any (λ t. leads table.now t r) (successors table.now (stage_numbered table.now stage.0)) }
{
    let mut mask = 0;
    for branch in 0..table.branches(stage) {
        mask |= next_mask(table, masks, stage, branch);
    }
    mask
}

/// The mask of the successor by a branch.
fn next_mask(table: &StageTable, masks: &[u64], stage: StageNo, branch: u16) -> u64
    requires stage { IsNumber table.now stage.0 }
    requires length { length masks.now ≡ length (stages table.now) }
    requires later { KnowsMasks table.now (stage.0 + 1) masks.now }
    ensures { (t : Stage) → successor table.now (stage_numbered table.now stage.0) branch ≡ Some t → result ≡ mask_of table.now t }
{
    match table.next_of(stage, branch) {
        None => 0,
        Some(next) => masks[next.0 as usize],
    }
}

/// For each resource the resources of at least its order.
fn floors(table: &StageTable) -> [u64; RESOURCES]
    ensures floors { AreFloors table.now (length table.now.resources) result }
    ensures fits { CellFits table.now }
{
    let mut floors = [0; RESOURCES];
    for r in 0..table.cell().resources.len() as u16 {
        floors[r as usize] = floor(table, table.order_of(ResId(r)));
    }
    floors
}

/// The resources of at least an order.
fn floor(table: &StageTable, least: u32) -> u64
    ensures { IsFloor table.now least result }
{
    let mut mask = 0;
    for r in 0..table.cell().resources.len() as u16 {
        if least <= table.order_of(ResId(r)) {
            mask |= 1 << r;
        }
    }
    mask
}
