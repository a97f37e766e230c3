//! The cell of a number: the units and the order of each of sixteen resources are drawn, and then the route of each of eight types.
ghost use Rattle.std.specs.Prelude.{◌≡◌, ◌+◌, ◌<◌, ◌≤◌, length, IfOk, OnOk};
ghost use Rattle.cell_base.specs.Successors.{place_after, default_next};
ghost use Rattle.cell_make.specs.Draws.{next_number, number_after};
ghost use Rattle.cell_make.specs.Cells.{drawn_resource, drawn_resources, drawn_step, drawn_steps, drawn_length};
ghost use Rattle.cell_make.specs.Cells.{drawn_type, drawn_types, drawn_cell};
ghost use Rattle.cell_make.specs.Cells.{number_after_type, number_after_types, number_after_cell};

use crate::draws::Draws;
use crate::names::numbered_name;
use cell_base::{Cell, JobType, List, NoMemory, ResId, Resource, Step};
use std::alloc::Global;

/// The first letter of the names of resources.
pub const RESOURCE_LETTER: u8 = b'R';

/// The first letter of the names of types.
pub const TYPE_LETTER: u8 = b'T';

/// Draws the cell.
pub fn draw_cell(alloc: Global, draws: &mut Draws) -> Result<Cell, NoMemory>
    ensures value { IfOk result (λ cell. cell ≡ drawn_cell draws.old.number) }
    ensures after { OnOk result (draws.new.number ≡ number_after_cell draws.old.number) }
{
    let resources = draw_resources(alloc, draws)?;
    let types = draw_types(alloc, draws)?;
    Ok(Cell { resources, types })
}

/// Draws the sixteen resources.
fn draw_resources(alloc: Global, draws: &mut Draws) -> Result<List<Resource>, NoMemory>
    ensures value { IfOk result (λ list. list ≡ drawn_resources draws.old.number 16) }
    ensures after { OnOk result (draws.new.number ≡ number_after draws.old.number 32) }
{
    let mut resources = List::new(alloc);
    for r in 0..16 {
        resources.try_push(draw_resource(draws, r))?;
    }
    Ok(resources)
}

/// Draws the units and the order of a resource.
fn draw_resource(draws: &mut Draws, r: u8) -> Resource
    requires { r < 16 }
    ensures value { result ≡ drawn_resource draws.old.number r }
    ensures after { draws.new.number ≡ next_number (next_number draws.old.number) }
{
    Resource {
        name: numbered_name(RESOURCE_LETTER, r),
        capacity: 1 + draws.draw(4) as u32,
        order: 1 + draws.draw(8) as u32,
    }
}

/// Draws the eight types.
fn draw_types(alloc: Global, draws: &mut Draws) -> Result<List<JobType>, NoMemory>
    ensures value { IfOk result (λ list. list ≡ drawn_types draws.old.number 8) }
    ensures after { OnOk result (draws.new.number ≡ number_after_types draws.old.number 8) }
{
    let mut types = List::new(alloc);
    for t in 0..8 {
        types.try_push(draw_type(alloc, draws, t)?)?;
    }
    Ok(types)
}

/// Draws the route of a type.
fn draw_type(alloc: Global, draws: &mut Draws, t: u8) -> Result<JobType, NoMemory>
    requires { t < 8 }
    ensures value { IfOk result (λ job_type. job_type ≡ drawn_type draws.old.number t) }
    ensures after { OnOk result (draws.new.number ≡ number_after_type draws.old.number) }
{
    let route = draw_route(alloc, draws)?;
    Ok(JobType {
        name: numbered_name(TYPE_LETTER, t),
        next: each_goes_on(alloc, route.len() as u16)?,
        route,
    })
}

/// Draws the length of a route, and then its places.
fn draw_route(alloc: Global, draws: &mut Draws) -> Result<List<Step>, NoMemory>
    ensures value { IfOk result (λ list. list ≡ drawn_steps draws.old.number (drawn_length draws.old.number)) }
    ensures length { IfOk result (λ list. length list ≡ drawn_length draws.old.number) }
    ensures after { OnOk result (draws.new.number ≡ number_after_type draws.old.number) }
{
    let mut route = List::new(alloc);
    for _ in 0..3 + draws.draw(6) {
        route.try_push(draw_place(draws))?;
    }
    Ok(route)
}

/// Draws the resource of a place, and whether it works.
fn draw_place(draws: &mut Draws) -> Step
    ensures value { result ≡ drawn_step draws.old.number }
    ensures after { draws.new.number ≡ next_number (next_number draws.old.number) }
{
    Step {
        on: ResId(draws.draw(16) as u16),
        works: draws.draw(4) != 0,
    }
}

/// Each of these places but the last goes on to the one after it.
fn each_goes_on(alloc: Global, places: u16) -> Result<List<List<u16>>, NoMemory>
    requires { places ≤ 64 }
    ensures { IfOk result (λ list. list ≡ default_next places) }
{
    let mut next = List::new(alloc);
    for place in 0..places {
        next.try_push(place_after(alloc, places, place)?)?;
    }
    Ok(next)
}

/// The place after a place, where there is one.
fn place_after(alloc: Global, places: u16, place: u16) -> Result<List<u16>, NoMemory>
    requires few { places ≤ 64 }
    requires place { place < places }
    ensures { IfOk result (λ list. list ≡ place_after places place) }
{
    let mut found = List::new(alloc);
    if place + 1 < places {
        found.try_push(place + 1)?;
    }
    Ok(found)
}
