//! Small cells, each made by its shape.
ghost use Rattle.std.specs.Prelude.{◌<◌, ◌≤◌};

use cell_base::{Cell, JobType, List, Name, NoMemory, ResId, Resource, Step};
use std::alloc::Global;

/// How many resources a cell has and of how many units, how many types and how many places on each route, and how many places
/// may follow a place.
#[derive(Clone, Copy, Drop)]
pub struct Shape {
    resources: u16,
    units: u32,
    types: u16,
    places: u16,
    branches: u16,
}

/// A cell of few units, one of long routes, and one whose routes branch.
pub const SHAPES: [Shape; 3] = [
    Shape {
        resources: 3,
        units: 1,
        types: 2,
        places: 3,
        branches: 1,
    },
    Shape {
        resources: 6,
        units: 3,
        types: 5,
        places: 5,
        branches: 1,
    },
    Shape {
        resources: 5,
        units: 3,
        types: 3,
        places: 4,
        branches: 2,
    },
];

/// The cell of a shape. Its resources have orders that rise and fall, its routes go round them, and each third stage is a buffer.
pub fn cell_of(alloc: Global, shape: Shape) -> Result<Cell, NoMemory> {
    let mut resources = List::new(alloc);
    for r in 0..shape.resources {
        if let Some(name) = name_of(r) {
            resources.try_push(Resource {
                name,
                capacity: shape.units,
                order: u32::from(r) * 5 % 7 + 1,
            })?;
        }
    }
    let mut types = List::new(alloc);
    for kind in 0..shape.types {
        if let Some(name) = name_of(kind) {
            types.try_push(type_of(alloc, name, shape, kind)?)?;
        }
    }
    Ok(Cell { resources, types })
}

// A type whose route begins at a resource of its own.
fn type_of(alloc: Global, name: Name, shape: Shape, kind: u16) -> Result<JobType, NoMemory> {
    let mut route = List::new(alloc);
    let mut next = List::new(alloc);
    for place in 0..shape.places {
        let turn = kind.wrapping_mul(2).wrapping_add(place);
        route.try_push(Step {
            on: ResId(turn % shape.resources.max(1)),
            works: turn % 3 != 0,
        })?;
        next.try_push(places_after(alloc, shape, place)?)?;
    }
    Ok(JobType { name, route, next })
}

// The places that may follow a place.
fn places_after(alloc: Global, shape: Shape, place: u16) -> Result<List<u16>, NoMemory> {
    let mut places = List::new(alloc);
    for later in place.saturating_add(1)..shape.places {
        if later - place <= shape.branches {
            places.try_push(later)?;
        }
    }
    Ok(places)
}

// A letter.
fn name_of(number: u16) -> Option<Name> {
    Name::read(&[b'A' + (number % 26) as u8])
}
