//! The resources on which no more parts fit, and who is held up by that.
ghost use Rattle.std.specs.Prelude.{◌≡◌, ◌≤◌, List, ℕ};
ghost use Rattle.cell_base.specs.Stages.{IsStage, stage_of};
ghost use Rattle.cell_base.specs.Fits.{CellFits};
ghost use Rattle.banker_check.specs.WayMasks.{HoldBeyond, AreFull};
ghost use Rattle.banker_check.specs.Counts.{is_held_up_by};

use crate::held::RESOURCES;
use crate::stage_masks::{StageMasks, table_law};
use cell_base::{Cell, Part, ResId};

/// The resources on which as many parts stand as they have units, and those on which more stand, as masks.
#[derive(Clone, Copy, Debug, PartialEq, Eq)]
pub struct Fullness {
    pub full: u64,
    pub over: u64,
}

/// The masks of some numbers of parts.
pub fn fullness_of(table: &StageMasks, held: &[u32; RESOURCES]) -> Fullness
    ensures { AreFull table.now held.now result }
{
    let cell = table.cell();
    Fullness {
        full: holding(cell, held, 0),
        over: holding(cell, held, 1),
    }
}

/// The resources on which as many parts stand as they have units, and at least so many beyond.
fn holding(cell: &Cell, held: &[u32; RESOURCES], beyond: u32) -> u64
    requires fits { CellFits cell.now }
    requires few { beyond ≤ 1 }
    ensures { HoldBeyond cell.now held.now beyond result }
{
    let mut mask = 0;
    for r in 0..cell.resources.len() as u16 {
        if u64::from(cell.capacity_of(ResId(r))) + u64::from(beyond)
            <= u64::from(held[r as usize])
        {
            mask |= 1 << r;
        }
    }
    mask
}

/// Whether the others hold up a part: on some resource of its way they hold each unit. A unit that the part itself holds does not count.
pub fn is_held_up(table: &StageMasks, held: Fullness, part: Part) -> bool
    requires { IsStage table.now (stage_of part) }
    ensures { (counts : List ℕ) → AreFull table.now counts held → result ≡ is_held_up_by table.now counts part }
{
    table_law(table);
    let own = 1 << table.resource_at(part).0;
    table.way(part) & (held.full & !own | held.over) != 0
}
