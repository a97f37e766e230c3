//! For each stage the resources of a set to which it leads on resources of the set alone.
//!
//! One sweep from the last stage to the first finds them: what a stage on a resource of the set leads to is its own resource and
//! what its successors lead to; a stage on another resource leads nowhere.
ghost use Rattle.std.specs.Prelude.{◌≡◌, ℕ, ◌+◌, ◌<◌, ◌≤◌, Some, length};
ghost use Rattle.std.specs.List.{list_any, filter};
ghost use Rattle.cell_base.specs.Masks.{has_bit};
ghost use Rattle.cell_base.specs.Stages.{Stage, stages, successors, successor};
ghost use Rattle.cell_base.specs.Numbers.{IsNumber, stage_numbered};
ghost use Rattle.cell_base.specs.Fits.{CellFits};
ghost use Rattle.order_advisor.specs.Sets.{leads_inside, IsInsideMask, KnowsInside};

use cell_base::ResId;
use route_table::{StageNo, StageTable};

/// Writes the masks of all stages.
pub fn sweep(table: &StageTable, set: u64, masks: &mut [u64])
    requires fits { CellFits table.now }
    requires length { length masks.old ≡ length (stages table.now) }
    ensures { KnowsInside table.now set 0 masks.new }
{
    for stage in (0..table.stages()).rev() {
        masks[stage as usize] = mask_at(table, set, masks, StageNo(stage));
    }
}

/// The mask of a stage, once those after it have theirs.
fn mask_at(table: &StageTable, set: u64, masks: &[u64], stage: StageNo) -> u64
    requires fits { CellFits table.now }
    requires stage { IsNumber table.now stage.0 }
    requires length { length masks.now ≡ length (stages table.now) }
    requires later { KnowsInside table.now set (stage.0 + 1) masks.now }
    ensures { IsInsideMask table.now set (stage_numbered table.now stage.0) result }
{
    let on = table.resource_of(stage);
    if has_bit(set, on.0) {
        joined(table, set, masks, stage) | 1 << on.0
    } else {
        0
    }
}

/// What some successor of a stage leads to.
fn joined(table: &StageTable, set: u64, masks: &[u64], stage: StageNo) -> u64
    requires fits { CellFits table.now }
    requires stage { IsNumber table.now stage.0 }
    requires length { length masks.now ≡ length (stages table.now) }
    requires later { KnowsInside table.now set (stage.0 + 1) masks.now }
    ensures { (r : ℕ) → has_bit result r
        ≡ list_any (λ t. leads_inside table.now set t r) (successors table.now (stage_numbered table.now stage.0)) }
{
    let mut mask = 0;
    for branch in 0..table.branches(stage) {
        mask |= next_mask(table, set, masks, stage, branch);
    }
    mask
}

/// The mask of the successor by a branch.
fn next_mask(table: &StageTable, set: u64, masks: &[u64], stage: StageNo, branch: u16) -> u64
    requires stage { IsNumber table.now stage.0 }
    requires length { length masks.now ≡ length (stages table.now) }
    requires later { KnowsInside table.now set (stage.0 + 1) masks.now }
    ensures { (t : Stage) → successor table.now (stage_numbered table.now stage.0) branch ≡ Some t → IsInsideMask table.now set t result }
{
    match table.next_of(stage, branch) {
        None => 0,
        Some(next) => masks[next.0 as usize],
    }
}

/// How many masks have a bit.
pub fn count(masks: &[u64], r: ResId) -> u64
    requires { r.0 < 64 }
    ensures value { result ≡ length (filter (λ mask. has_bit mask r.0) masks.now) }
    ensures few { result ≤ length masks.now }
{
    let mut count = 0;
    for mask in masks {
        if has_bit(*mask, r.0) {
            count += 1;
        }
    }
    count
}

/// Whether a mask has a bit.
pub fn has_bit(mask: u64, r: u16) -> bool
    requires { r < 64 }
    ensures { result ≡ has_bit mask r }
{
    mask >> r & 1 == 1
}
