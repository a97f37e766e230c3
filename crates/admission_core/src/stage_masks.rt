//! A cell with its stages by number and their masks.
ghost use Rattle.std.specs.Prelude.{◌≡◌, ◌<◌, length, IfOk, IfSome, option_map};
ghost use Rattle.cell_base.specs.Stages.{stage, IsStage, stage_of, is_last, resource_at, successor};
ghost use Rattle.cell_base.specs.Neighborhoods.{mask_of, masks_of};
ghost use Rattle.cell_base.specs.Outcomes.{arrival};
ghost use Rattle.cell_base.specs.Fits.{CellFits};
ghost use Rattle.admission_core.specs.Rows.{IsRowOf};

use crate::stage_rows::{Row, rows};
use cell_base::{Cell, JobId, NoMemory, Part, ResId, TypeId};
use route_table::StageTable;
use std::alloc::Global;
use std::marker::Model;
use upstream_sets::Upstream;

/// A cell that fits, with its stages by number and their masks. Contracts see it as the cell.
pub struct StageMasks {
    stages: StageTable,
    upstream: Upstream,
    /// By stage, what is looked up of it at each request.
    rows: Vec<Row>,
}

// Written out, as that of `Core` is.
impl Drop for StageMasks {
    fn drop(self) {
        let StageMasks {
            stages: _,
            upstream: _,
            rows: _,
        } = self;
    }
}

impl Model for StageMasks {
    ghost use Rattle.std.specs.Prelude.{◌≡◌};
    ghost use Rattle.cell_base.specs.declared.cells.Cell.{Cell};
    ghost use Rattle.cell_base.specs.Neighborhoods.{masks_of};
    ghost use Rattle.admission_core.specs.Rows.{AreRows};

    ghost Value = { Cell };

    ghost view = { λ s. s.stages };

    ghost invariant = { λ s. (s.upstream ≡ masks_of s.stages) × AreRows s.stages s.rows.items };
}

impl StageMasks {
    /// The table of a cell, which it keeps.
    pub fn of(alloc: Global, cell: Cell) -> Result<StageMasks, NoMemory>
        requires { CellFits cell }
        ensures { IfOk result (λ table. table ≡ cell) }
    {
        let stages = StageTable::of(alloc, cell)?;
        let upstream = Upstream::new(alloc, &stages)?;
        let rows = rows(alloc, &stages, &upstream)?;
        Ok(StageMasks {
            stages,
            upstream,
            rows,
        })
    }

    /// The cell.
    pub fn cell(&self) -> &Cell
        ensures value { result.now ≡ self.now }
        ensures fits { CellFits self.now }
    {
        self.stages.cell()
    }

    /// The stages of the cell.
    pub fn stages(&self) -> &StageTable
        ensures { result.now ≡ self.now }
    {
        &self.stages
    }

    /// The masks of the stages.
    pub fn upstream(&self) -> &Upstream
        ensures { result.now ≡ masks_of self.now }
    {
        &self.upstream
    }

    /// The row of the stage at a place.
    fn row(&self, kind: TypeId, place: u16) -> Row
        requires { IsStage self.now (stage kind.0 place) }
        ensures { IsRowOf self.now (stage kind.0 place) result }
    {
        let stage = self.stages.number(kind, place);
        self.rows[stage.0 as usize]
    }

    /// The row of a part's stage.
    pub fn row_of(&self, part: Part) -> Row
        requires { IsStage self.now (stage_of part) }
        ensures { IsRowOf self.now (stage_of part) result }
    {
        self.row(part.kind, part.place)
    }

    /// The mask of a part's stage.
    pub fn mask(&self, part: Part) -> u64
        requires { IsStage self.now (stage_of part) }
        ensures { result ≡ mask_of self.now (stage_of part) }
    {
        self.row(part.kind, part.place).mask
    }

    /// The resource of a part's stage.
    pub fn resource_at(&self, part: Part) -> ResId
        requires { IsStage self.now (stage_of part) }
        ensures value { result.0 ≡ resource_at self.now (stage_of part) }
        ensures within { result.0 < length self.now.resources }
    {
        self.row(part.kind, part.place).on
    }

    /// Whether a part stands at a last stage.
    pub fn is_last(&self, part: Part) -> bool
        requires { IsStage self.now (stage_of part) }
        ensures { result ≡ is_last self.now (stage_of part) }
    {
        self.row(part.kind, part.place).first.is_none()
    }

    /// The place to which a part goes by a branch.
    pub fn next_place(&self, part: Part, branch: u16) -> Option<u16>
        requires { IsStage self.now (stage_of part) }
        ensures successor { option_map (stage part.kind.0) result ≡ successor self.now (stage_of part) branch }
        ensures within { IfSome result (λ place. IsStage self.now (stage part.kind.0 place)) }
    {
        if branch == 0 {
            self.row(part.kind, part.place).first
        } else {
            self.cell().successor(part.kind, part.place, branch)
        }
    }

    /// A part that arrives at a place: it is done at once where the stage does not work.
    pub fn arrival(&self, job: JobId, kind: TypeId, place: u16) -> Part
        requires { IsStage self.now (stage kind.0 place) }
        ensures { result ≡ arrival self.now job kind place }
    {
        Part {
            job,
            kind,
            place,
            done: !self.row(kind, place).works,
        }
    }

    /// A part that arrives at the first place of its route.
    pub fn entry(&self, job: JobId, kind: TypeId) -> Part
        requires { kind.0 < length self.now.types }
        ensures value { result ≡ arrival self.now job kind 0 }
        ensures stage { IsStage self.now (stage_of result) }
    {
        table_law(self);
        self.arrival(job, kind, 0)
    }
}

/// The cell of a table fits.
fn table_law(table: &StageMasks)
    ensures { CellFits table.now }
{
    let _cell = table.cell();
}
