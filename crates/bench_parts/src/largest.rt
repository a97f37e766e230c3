//! A cell at every limit of its stages: 64 types of 64 places, each place with its eight next ones as successors.
ghost use Rattle.std.specs.Prelude.{◌<◌};
ghost use Rattle.cell_base.specs.declared.limits.TheConstants.{MAX_PLACES, MAX_TYPES};

use cell_base::{
    Cell, JobType, List, MAX_BRANCHES, MAX_PLACES, MAX_RESOURCES, MAX_TYPES, Name, NoMemory, ResId,
    Resource, Step,
};
use std::alloc::Global;

/// The cell. Its resources have rising orders, and the route of each type begins at another one.
pub fn largest_cell(alloc: Global) -> Result<Cell, NoMemory> {
    let mut resources = List::new(alloc);
    for r in 0..MAX_RESOURCES {
        if let Some(name) = number_name(r) {
            resources.try_push(Resource {
                name,
                capacity: 1,
                order: r as u32,
            })?;
        }
    }
    let mut types = List::new(alloc);
    for kind in 0..MAX_TYPES {
        if let Some(name) = number_name(kind) {
            types.try_push(job_type(alloc, name, kind)?)?;
        }
    }
    Ok(Cell { resources, types })
}

// A type whose route goes round all resources, from its own on.
fn job_type(alloc: Global, name: Name, kind: u64) -> Result<JobType, NoMemory>
    requires { kind < MAX_TYPES }
{
    let mut route = List::new(alloc);
    let mut next = List::new(alloc);
    for place in 0..MAX_PLACES {
        route.try_push(Step {
            on: ResId(((kind + place) % MAX_RESOURCES) as u16),
            works: true,
        })?;
        next.try_push(places_after(alloc, place)?)?;
    }
    Ok(JobType { name, route, next })
}

// The places after a place, up to the most that a stage may have.
fn places_after(alloc: Global, place: u64) -> Result<List<u16>, NoMemory>
    requires { place < MAX_PLACES }
{
    let mut places = List::new(alloc);
    for later in place + 1..(place + 1 + MAX_BRANCHES).min(MAX_PLACES) {
        places.try_push(later as u16)?;
    }
    Ok(places)
}

// Two digits.
fn number_name(number: u64) -> Option<Name> {
    let digits = [b'0' + (number / 10 % 10) as u8, b'0' + (number % 10) as u8];
    Name::read(&digits)
}
