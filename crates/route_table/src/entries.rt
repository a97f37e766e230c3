//! The entries of a table: one for each stage, made route by route.
ghost use Rattle.std.specs.Prelude.{◌≡◌, ◌+◌, ◌++◌, ◌<◌, length, map, true, OnOk};
ghost use Rattle.cell_base.specs.declared.limits.TheConstants.{MAX_PLACES};
ghost use Rattle.cell_base.specs.Stages.{stage, IsStage, stages_of};
ghost use Rattle.cell_base.specs.Plans.{work_at, work_from};
ghost use Rattle.cell_base.specs.Fits.{CellFits};
ghost use Rattle.route_table.specs.Entries.{stage_entry, KnowsWork};

use cell_base::{Cell, List, MAX_PLACES, NoMemory, TypeId};

/// The places of the longest route.
const PLACES: usize = MAX_PLACES as usize;

/// What the table keeps of a stage: its type and place, and the steps that a part needs which is done there.
#[derive(Clone, Copy, Drop)]
pub struct Entry {
    pub kind: TypeId,
    pub place: u16,
    pub left: u32,
}

/// Appends the entries of the stages of a type.
#[tactic(auto, using(crate::proofs::Made::entries_more))]
pub fn push_route(entries: &mut List<Entry>, cell: &Cell, kind: TypeId) -> Result<(), NoMemory>
    requires fits { CellFits cell.now }
    requires kind { kind.0 < length cell.now.types }
    ensures { OnOk result (entries.new ≡ entries.old ++ map (stage_entry cell.now) (stages_of cell.now kind.0)) }
{
    let row = sweep(cell, kind);
    for place in 0..cell.places(kind) {
        entries.try_push(Entry {
            kind,
            place: place as u16,
            left: row[place as usize],
        })?;
    }
    Ok(())
}

/// For each place of a route the steps that a part needs which is done there. The row is filled from its end, since a part goes
/// on to later places only.
fn sweep(cell: &Cell, kind: TypeId) -> [u32; PLACES]
    requires fits { CellFits cell.now }
    requires kind { kind.0 < length cell.now.types }
    ensures { KnowsWork cell.now kind.0 0 result }
{
    let mut row = [0; PLACES];
    for place in (0..cell.places(kind)).rev() {
        row[place as usize] = left_at(cell, kind, place as u16, &row);
    }
    row
}

/// The steps that a part needs which is done at a stage, by a row that knows them of the later places.
fn left_at(cell: &Cell, kind: TypeId, place: u16, row: &[u32; PLACES]) -> u32
    requires fits { CellFits cell.now }
    requires stage { IsStage cell.now (stage kind.0 place) }
    requires row { KnowsWork cell.now kind.0 (place + 1) row.now }
    ensures { result ≡ work_from cell.now (stage kind.0 place) true }
{
    match cell.successor(kind, place, 0) {
        None => 1,
        Some(next) => row[next as usize] + arrival_steps(cell, kind, next),
    }
}

/// The steps that a stage needs of a part that comes to it: its arrival, and its work.
fn arrival_steps(cell: &Cell, kind: TypeId, place: u16) -> u32
    requires { IsStage cell.now (stage kind.0 place) }
    ensures { result ≡ work_at cell.now (stage kind.0 place) }
{
    if cell.works_at(kind, place) { 2 } else { 1 }
}
