//! A cell with the table of the resources to which each stage leads.
ghost use Rattle.std.specs.Prelude.{◌≡◌, ◌<◌, length, IfOk, IfSome, option_map};
ghost use Rattle.cell_base.specs.Stages.{stage, IsStage, stage_of, is_last, successor};
ghost use Rattle.cell_base.specs.Neighborhoods.{leads, mask_of};
ghost use Rattle.cell_base.specs.Outcomes.{arrival};
ghost use Rattle.cell_base.specs.Fits.{CellFits};

use crate::mask::has_bit;
use crate::sweep;
use cell_base::{Cell, JobId, List, NoMemory, Part, ResId, TypeId};
use std::alloc::Global;
use std::marker::Model;

/// A cell that fits, with the masks of its stages. Contracts see it as the cell.
#[derive(Drop)]
pub struct StageMasks<'a> {
    cell: &'a Cell,
    /// By type and place: a bit for each resource to which the stage leads.
    masks: List<List<u64>>,
}

impl<'a> Model for StageMasks<'a> {
    ghost use Rattle.std.specs.Prelude.{◌≡◌};
    ghost use Rattle.cell_base.specs.declared.cells.Cell.{Cell};
    ghost use Rattle.cell_base.specs.Fits.{CellFits};
    ghost use Rattle.plain_recount.specs.Leading.{leading_table};

    ghost Value = { Cell };

    ghost view = { λ s. s.cell.now };

    ghost invariant = { λ s. CellFits s.cell.now × (s.masks ≡ leading_table s.cell.now) };
}

impl<'a> StageMasks<'a> {
    /// The cell with its table.
    pub fn new(alloc: Global, cell: &'a Cell) -> Result<StageMasks<'a>, NoMemory>
        requires { CellFits cell.now }
        ensures { IfOk result (λ table. table ≡ cell.now) }
    {
        let masks = sweep::table(alloc, cell)?;
        Ok(StageMasks { cell, masks })
    }

    /// The cell.
    pub fn cell(&self) -> &Cell
        ensures value { result.now ≡ self.now }
        ensures fits { CellFits self.now }
    {
        self.cell
    }

    /// The resources to which a part's stage leads, as a mask.
    pub fn mask(&self, part: Part) -> u64
        requires { IsStage self.now (stage_of part) }
        ensures mask { result ≡ mask_of self.now (stage_of part) }
        ensures fits { CellFits self.now }
    {
        *self.masks.get(part.kind.0 as u64).get(part.place as u64)
    }

    /// Whether a part's stage leads to a resource.
    pub fn leads(&self, part: Part, r: ResId) -> bool
        requires resource { r.0 < length self.now.resources }
        requires stage { IsStage self.now (stage_of part) }
        ensures { result ≡ leads self.now (stage_of part) r.0 }
    {
        has_bit(self.mask(part), r)
    }

    /// Whether a part stands at a last stage.
    pub fn is_last(&self, part: Part) -> bool
        requires { IsStage self.now (stage_of part) }
        ensures { result ≡ is_last self.now (stage_of part) }
    {
        self.cell.is_last(part.kind, part.place)
    }

    /// The place to which a part goes by a branch.
    pub fn next_place(&self, part: Part, branch: u16) -> Option<u16>
        requires { IsStage self.now (stage_of part) }
        ensures successor { option_map (stage part.kind.0) result ≡ successor self.now (stage_of part) branch }
        ensures within { IfSome result (λ place. IsStage self.now (stage part.kind.0 place)) }
    {
        self.cell.successor(part.kind, part.place, branch)
    }

    /// A part that arrives at a place.
    pub fn arrival(&self, job: JobId, kind: TypeId, place: u16) -> Part
        requires { IsStage self.now (stage kind.0 place) }
        ensures { result ≡ arrival self.now job kind place }
    {
        arrival(self.cell, job, kind, place)
    }

    /// A part that arrives at the first place of its route.
    pub fn entry(&self, job: JobId, kind: TypeId) -> Part
        requires { kind.0 < length self.now.types }
        ensures value { result ≡ arrival self.now job kind 0 }
        ensures stage { IsStage self.now (stage_of result) }
    {
        arrival(self.cell, job, kind, 0)
    }
}

/// A part that arrives at a stage of a cell: it is done at once where the stage does not work.
fn arrival(cell: &Cell, job: JobId, kind: TypeId, place: u16) -> Part
    requires { IsStage cell.now (stage kind.0 place) }
    ensures { result ≡ arrival cell.now job kind place }
{
    Part {
        job,
        kind,
        place,
        done: !cell.works_at(kind, place),
    }
}
