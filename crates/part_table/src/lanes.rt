//! The resource of each stage of a cell, which is found by the type and the place of a part.
ghost use Rattle.std.specs.Prelude.{◌≡◌, ◌<◌, Some, None, IfOk, is_some};
ghost use Rattle.std.specs.Option.{ForSome};
ghost use Rattle.cell_base.specs.Fits.{CellFits};
ghost use Rattle.cell_base.specs.Stages.{resource_at, stage};
ghost use Rattle.cell_base.specs.declared.limits.TheConstants.{MAX_RESOURCES};
ghost use Rattle.part_table.specs.Lanes.{lanes_of};

use cell_base::{Cell, List, MAX_PLACES, NoMemory, ResId, TypeId};
use route_table::StageTable;
use std::alloc::Global;
use std::marker::Model;
use std::sync::Arc;

/// The resources of a cell's stages, in a byte for each place that a route may have; or none. Contracts see the cell.
#[derive(Drop)]
pub struct Lanes {
    /// The cell, which contracts alone read.
    cell: Option<Arc<Cell, Global>>,
    resources: List<u8>,
}

impl Model for Lanes {
    ghost use Rattle.std.specs.Arc.{arc_value};
    ghost use Rattle.std.specs.Option.{option_map};
    ghost use Rattle.std.specs.Prelude.{Option};
    ghost use Rattle.cell_base.specs.declared.cells.Cell.{Cell as OneCell};
    ghost use Rattle.part_table.specs.Lanes.{AreLanes};

    ghost Value = { Option OneCell };

    ghost view = { λ s. option_map (λ cell. arc_value cell) s.cell };

    ghost invariant = { λ s. AreLanes (option_map (λ cell. arc_value cell) s.cell) s.resources };
}

/// The resource of a stage by a table, and that of number 0 where there is no such stage.
pub fn resource_of(table: &StageTable, kind: TypeId, place: u16) -> ResId
    ensures value { result.0 ≡ resource_at table.now (stage kind.0 place) }
    ensures within { result.0 < MAX_RESOURCES }
{
    let cell = table.cell();
    match table.stage_of(kind, place) {
        Some(_) => cell.resource_at(kind, place),
        None => ResId(0),
    }
}

/// The resources of all stages, type by type.
fn resources_of(alloc: Global, table: &StageTable) -> Result<List<u8>, NoMemory>
    ensures all { IfOk result (λ resources. resources ≡ lanes_of table.now) }
    ensures fits { CellFits table.now }
{
    let mut resources = List::new(alloc);
    for at in 0..table.cell().types.len() * MAX_PLACES {
        let kind = TypeId((at / MAX_PLACES) as u16);
        let place = (at % MAX_PLACES) as u16;
        resources.try_push(resource_of(table, kind, place).0 as u8)?;
    }
    Ok(resources)
}

impl Lanes {
    /// Of no cell.
    pub fn none(alloc: Global) -> Lanes
        ensures { result ≡ None }
    {
        Lanes {
            cell: None,
            resources: List::new(alloc),
        }
    }

    /// Of a cell.
    pub fn of(alloc: Global, table: &StageTable) -> Result<Lanes, NoMemory>
        ensures { IfOk result (λ lanes. lanes ≡ Some table.now) }
    {
        let resources = resources_of(alloc, table)?;
        Ok(Lanes {
            cell: Some(table.shared()?),
            resources,
        })
    }

    /// Whether there is a cell.
    pub fn are_told(&self) -> bool
        ensures { result ≡ is_some self.now }
    {
        self.cell.is_some()
    }

    /// The resource of a stage, and that of number 0 where there is no such stage.
    #[inline(always)]
    pub fn on(&self, kind: TypeId, place: u16) -> ResId
        ensures told { ForSome self.now (λ cell. result.0 ≡ resource_at cell (stage kind.0 place)) }
        ensures within { result.0 < MAX_RESOURCES }
    {
        let resources = self.resources.as_slice();
        if u64::from(place) >= MAX_PLACES {
            return ResId(0);
        }
        let at = usize::from(kind.0) * MAX_PLACES as usize + usize::from(place);
        match resources.get(at) {
            Some(on) => ResId(u16::from(*on)),
            None => ResId(0),
        }
    }
}
