//! The laws of a step over masks, each the contract of a function that does nothing.
ghost use Rattle.std.specs.Prelude.{◌≡◌, ℕ, ◌<◌, ◌≤◌, true, false, slice_index};
ghost use Rattle.std.specs.List.{Contains};
ghost use Rattle.cell_base.specs.Masks.{has_bit};
ghost use Rattle.cell_base.specs.Stages.{successors, order_at};
ghost use Rattle.cell_base.specs.Numbers.{IsNumber, stage_numbered};
ghost use Rattle.cell_base.specs.Neighborhoods.{masks_of};
ghost use Rattle.policy_laws.specs.Laws.{IsBelow};

use crate::Upstream;
use cell_base::ResId;
use route_table::{StageNo, StageTable, table_law};

/// On a step to a resource of no lesser order, each bit of the mask of the next stage is set in that of the present one.
pub fn up_law(table: &StageTable, upstream: &Upstream, from: StageNo, to: StageNo)
    requires made { upstream.now ≡ masks_of table.now }
    requires from { IsNumber table.now from.0 }
    requires to { IsNumber table.now to.0 }
    requires next { Contains (successors table.now (stage_numbered table.now from.0)) (stage_numbered table.now to.0) }
    requires order { order_at table.now (stage_numbered table.now from.0) ≤ order_at table.now (stage_numbered table.now to.0) }
    ensures { (r : ℕ) → has_bit (slice_index upstream.now to.0) r ≡ true → has_bit (slice_index upstream.now from.0) r ≡ true }
{
    table_law(table);
}

/// On a step to a resource of lesser order, a bit that the mask of the next stage has and that of the present one has not is
/// that of a resource of lesser order than the present one, and each stage of its neighborhood is on a resource of order at
/// most its own.
pub fn down_law(table: &StageTable, upstream: &Upstream, from: StageNo, to: StageNo, k: ResId)
    requires made { upstream.now ≡ masks_of table.now }
    requires from { IsNumber table.now from.0 }
    requires to { IsNumber table.now to.0 }
    requires next { Contains (successors table.now (stage_numbered table.now from.0)) (stage_numbered table.now to.0) }
    requires order { order_at table.now (stage_numbered table.now to.0) < order_at table.now (stage_numbered table.now from.0) }
    requires new { has_bit (slice_index upstream.now to.0) k.0 ≡ true }
    requires old { has_bit (slice_index upstream.now from.0) k.0 ≡ false }
    ensures { IsBelow table.now k.0 (stage_numbered table.now from.0) }
{
    table_law(table);
}
