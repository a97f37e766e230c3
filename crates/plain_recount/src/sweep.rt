//! The sweep of each route that finds which of its stages lead to which resources.
ghost use Rattle.std.specs.Prelude.{◌≡◌, ◌+◌, ◌<◌, length, All, slice_index, IfOk};
ghost use Rattle.std.specs.List.{list_any};
ghost use Rattle.cell_base.specs.declared.limits.TheConstants.{MAX_PLACES, MAX_RESOURCES};
ghost use Rattle.cell_base.specs.Stages.{stage, IsStage};
ghost use Rattle.cell_base.specs.Neighborhoods.{leads, mask_of};
ghost use Rattle.cell_base.specs.Masks.{has_bit};
ghost use Rattle.cell_base.specs.Fits.{CellFits};
ghost use Rattle.plain_recount.specs.Leading.{KnowsAfter, leading_row, leading_table};

use crate::mask::has_bit;
use cell_base::{Cell, List, MAX_PLACES, NoMemory, ResId, TypeId};
use std::alloc::Global;

/// The places of the longest route.
const PLACES: usize = MAX_PLACES as usize;

/// By type and place the mask of a stage: a bit for each resource to which it leads.
#[tactic(auto, using(lists::proofs::Growing::map_next))]
pub fn table(alloc: Global, cell: &Cell) -> Result<List<List<u64>>, NoMemory>
    requires { CellFits cell.now }
    ensures { IfOk result (λ table. table ≡ leading_table cell.now) }
{
    let mut table = List::new(alloc);
    for kind in 0..cell.types.len() {
        table.try_push(row(alloc, cell, TypeId(kind as u16))?)?;
    }
    Ok(table)
}

#[tactic(auto, using(lists::proofs::Growing::map_next))]
fn row(alloc: Global, cell: &Cell, kind: TypeId) -> Result<List<u64>, NoMemory>
    requires fits { CellFits cell.now }
    requires kind { kind.0 < length cell.now.types }
    ensures { IfOk result (λ row. row ≡ leading_row cell.now kind.0) }
{
    let swept = sweep(cell, kind);
    let mut row = List::new(alloc);
    for place in 0..cell.places(kind) {
        row.try_push(swept[place as usize])?;
    }
    Ok(row)
}

/// The masks of the places of a route. The row is filled from its end, since a stage leads on by later places only.
fn sweep(cell: &Cell, kind: TypeId) -> [u64; PLACES]
    requires fits { CellFits cell.now }
    requires kind { kind.0 < length cell.now.types }
    ensures { KnowsAfter cell.now kind.0 0 result }
{
    let mut row = [0; PLACES];
    for place in (0..cell.places(kind)).rev() {
        row[place as usize] = mask_at(cell, kind, place as u16, &row);
    }
    row
}

/// The mask of a stage, by a row that knows those of the later places.
fn mask_at(cell: &Cell, kind: TypeId, place: u16, row: &[u64; PLACES]) -> u64
    requires fits { CellFits cell.now }
    requires stage { IsStage cell.now (stage kind.0 place) }
    requires row { KnowsAfter cell.now kind.0 (place + 1) row.now }
    ensures { result ≡ mask_of cell.now (stage kind.0 place) }
{
    let mut mask = 0;
    for r in 0..cell.resources.len() as u16 {
        if leads_at(cell, ResId(r), kind, place, row) {
            mask += 1 << r;
        }
    }
    mask
}

/// Whether a stage leads to a resource, by a row that knows the masks of the later places.
fn leads_at(cell: &Cell, r: ResId, kind: TypeId, place: u16, row: &[u64; PLACES]) -> bool
    requires fits { CellFits cell.now }
    requires resource { r.0 < length cell.now.resources }
    requires stage { IsStage cell.now (stage kind.0 place) }
    requires row { KnowsAfter cell.now kind.0 (place + 1) row.now }
    ensures { result ≡ leads cell.now (stage kind.0 place) r.0 }
{
    let on = cell.resource_at(kind, place);
    on == r
        || (cell.order_of(on) <= cell.order_of(r)
            && leads_on(cell.next_places(kind, place), row, r))
}

/// Whether one of the next places leads on.
fn leads_on(next: &[u16], row: &[u64; PLACES], r: ResId) -> bool
    requires places { All (λ place. place < MAX_PLACES) next.now }
    requires resource { r.0 < MAX_RESOURCES }
    ensures { result ≡ list_any (λ place. has_bit (slice_index row.now place) r.0) next.now }
{
    next.iter().any(|place| has_bit(row[*place as usize], r))
}
