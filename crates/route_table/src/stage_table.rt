//! The table of the stages of a cell: a number for each, and under it what is looked up of the stage, so that no look-up walks a route.
ghost use Rattle.std.specs.Prelude.{◌≡◌, ◌<◌, length, option_map, IfOk, IfSome};
ghost use Rattle.std.specs.Arc.{arc_value};
ghost use Rattle.std.specs.Option.{SomeIff};
ghost use Rattle.cell_base.specs.Stages.{stage, IsStage, stages, resource_at, works_at, order_of, successor, successors};
ghost use Rattle.cell_base.specs.Plans.{work_from};
ghost use Rattle.cell_base.specs.Fits.{CellFits};
ghost use Rattle.cell_base.specs.Numbers.{number_of, IsNumber, stage_numbered};

use crate::entries::{Entry, push_route};
use cell_base::{Cell, List, NoMemory, ResId, TypeId};
use std::alloc::Global;
use std::marker::Model;
use std::sync::Arc;

/// A stage, by its number from 0: types in the order of the cell, places upward.
#[derive(Clone, Copy, Debug, PartialEq, Eq, Drop)]
pub struct StageNo(pub u16);

/// The stages of a cell by their numbers. Contracts see it as the cell, which fits.
#[derive(Drop)]
pub struct StageTable {
    cell: Arc<Cell, Global>,
    /// By type, the number of its first stage.
    firsts: List<u16>,
    /// By stage.
    entries: List<Entry>,
}

impl Model for StageTable {
    ghost use Rattle.cell_base.specs.declared.cells.Cell.{Cell};

    ghost Value = { Cell };

    ghost use Rattle.std.specs.Arc.{arc_value};
    ghost use Rattle.route_table.specs.Entries.{IsTableOf};

    ghost view = { λ s. arc_value s.cell };

    ghost invariant = { λ s. IsTableOf (arc_value s.cell) s.firsts s.entries };
}

impl StageTable {
    ghost use Rattle.route_table.specs.Entries.{stage_entry};

    /// The table of a cell, which it copies.
    pub fn new(alloc: Global, cell: &Cell) -> Result<StageTable, NoMemory>
        requires { CellFits cell.now }
        ensures { IfOk result (λ table. table ≡ cell.now) }
    {
        StageTable::of(alloc, cell.copied(alloc)?)
    }

    /// The table of a cell, which it keeps.
    pub fn of(alloc: Global, cell: Cell) -> Result<StageTable, NoMemory>
        requires { CellFits cell }
        ensures { IfOk result (λ table. table ≡ cell) }
    {
        let mut firsts = List::new(alloc);
        let mut entries = List::new(alloc);
        for kind in 0..cell.types.len() {
            firsts.try_push(entries.len() as u16)?;
            push_route(&mut entries, &cell, TypeId(kind as u16))?;
        }
        Ok(StageTable {
            cell: Arc::new(alloc, cell)?,
            firsts,
            entries,
        })
    }

    /// The cell.
    pub fn cell(&self) -> &Cell
        ensures value { result.now ≡ self.now }
        ensures fits { CellFits self.now }
    {
        let _entries = &self.entries;
        &self.cell
    }

    /// The cell, for one holder more.
    pub fn shared(&self) -> Result<Arc<Cell, Global>, NoMemory>
        ensures { IfOk result (λ cell. arc_value cell ≡ self.now) }
    {
        Ok(Arc::try_clone(&self.cell)?)
    }

    /// The number of stages.
    pub fn stages(&self) -> u16
        ensures { result ≡ length (stages self.now) }
    {
        self.entries.len() as u16
    }

    /// The stage at a place of a type, if there are such a type and such a place.
    pub fn stage_of(&self, kind: TypeId, place: u16) -> Option<StageNo>
        ensures { SomeIff result (IsStage self.now (stage kind.0 place)) (record { 0 = number_of self.now (stage kind.0 place) }) }
    {
        if u64::from(kind.0) >= self.cell.types.len()
            || u64::from(place) >= self.cell.places(kind)
        {
            return None;
        }
        Some(self.number(kind, place))
    }

    /// The stage at a place of a type, where the route is known to have such a place.
    pub fn number(&self, kind: TypeId, place: u16) -> StageNo
        requires { IsStage self.now (stage kind.0 place) }
        ensures { result.0 ≡ number_of self.now (stage kind.0 place) }
    {
        StageNo(self.firsts.get(u64::from(kind.0)) + place)
    }

    /// What the table keeps of a stage.
    fn entry(&self, stage: StageNo) -> Entry
        requires { IsNumber self.now stage.0 }
        ensures entry { result ≡ stage_entry self.now (stage_numbered self.now stage.0) }
        ensures stage { IsStage self.now (stage_numbered self.now stage.0) }
        ensures fits { CellFits self.now }
    {
        *self.entries.get(u64::from(stage.0))
    }

    /// The type whose route a stage is on.
    pub fn kind_of(&self, stage: StageNo) -> TypeId
        requires { IsNumber self.now stage.0 }
        ensures value { result.0 ≡ (stage_numbered self.now stage.0).kind }
        ensures within { result.0 < length self.now.types }
    {
        self.entry(stage).kind
    }

    /// The place of its route at which a stage is, from 0.
    pub fn place_of(&self, stage: StageNo) -> u16
        requires { IsNumber self.now stage.0 }
        ensures { result ≡ (stage_numbered self.now stage.0).place }
    {
        self.entry(stage).place
    }

    /// The resource of a stage.
    pub fn resource_of(&self, stage: StageNo) -> ResId
        requires { IsNumber self.now stage.0 }
        ensures value { result.0 ≡ resource_at self.now (stage_numbered self.now stage.0) }
        ensures within { result.0 < length self.now.resources }
    {
        let entry = self.entry(stage);
        self.cell.resource_at(entry.kind, entry.place)
    }

    /// Whether a stage works: where it does not, a part is done as it arrives.
    pub fn works(&self, stage: StageNo) -> bool
        requires { IsNumber self.now stage.0 }
        ensures { result ≡ works_at self.now (stage_numbered self.now stage.0) }
    {
        let entry = self.entry(stage);
        self.cell.works_at(entry.kind, entry.place)
    }

    /// The number of branches of a stage: a last stage has none.
    pub fn branches(&self, stage: StageNo) -> u16
        requires { IsNumber self.now stage.0 }
        ensures { result ≡ length (successors self.now (stage_numbered self.now stage.0)) }
    {
        let entry = self.entry(stage);
        self.cell.next_places(entry.kind, entry.place).len() as u16
    }

    /// The stage to which a branch leads, if the stage has such a branch.
    pub fn next_of(&self, stage: StageNo, branch: u16) -> Option<StageNo>
        requires { IsNumber self.now stage.0 }
        ensures stage { option_map (λ (next : StageNo). stage_numbered self.now next.0) result
            ≡ successor self.now (stage_numbered self.now stage.0) branch }
        ensures within { IfSome result (λ next. IsNumber self.now next.0) }
        ensures later { IfSome result (λ next. stage.0 < next.0) }
    {
        let entry = self.entry(stage);
        let place = self.cell.successor(entry.kind, entry.place, branch)?;
        Some(self.number(entry.kind, place))
    }

    /// The order of a resource.
    pub fn order_of(&self, r: ResId) -> u32
        requires { r.0 < length self.now.resources }
        ensures { result ≡ order_of self.now r.0 }
    {
        self.cell.order_of(r)
    }

    /// How many steps a part needs that stands at a stage, until it is out by the way of branch 0.
    pub fn remaining(&self, stage: StageNo, done: bool) -> u32
        requires { IsNumber self.now stage.0 }
        ensures { result ≡ work_from self.now (stage_numbered self.now stage.0) done }
    {
        let left = self.entry(stage).left;
        if done { left } else { left + 1 }
    }
}
