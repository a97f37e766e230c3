//! Cells of machines with one unit each.

use cell_base::{Cell, JobType, List, MAX_PLACES, Name, NoMemory, ResId, Resource, Step};
use std::alloc::Global;

// As many places as a route may have.
const PLACES: usize = MAX_PLACES as usize;

/// A machine of one unit, and a type whose route is that machine.
pub fn cell_of_one(alloc: Global) -> Result<Cell, NoMemory> {
    let mut resources = List::new(alloc);
    add_machine(&mut resources, b"M1", 1)?;
    let mut types = List::new(alloc);
    add_type(alloc, &mut types, b"A", &[0])?;
    Ok(Cell { resources, types })
}

/// Two machines of one unit: A goes from the first to the second, and Z from the second to the first.
pub fn crossing(alloc: Global) -> Result<Cell, NoMemory> {
    let mut resources = List::new(alloc);
    add_machine(&mut resources, b"M1", 1)?;
    add_machine(&mut resources, b"M2", 2)?;
    let mut types = List::new(alloc);
    add_type(alloc, &mut types, b"A", &[0, 1])?;
    add_type(alloc, &mut types, b"Z", &[1, 0])?;
    Ok(Cell { resources, types })
}

/// Adds a machine of one unit. Nothing is added where that is no name.
pub fn add_machine(list: &mut List<Resource>, name: &[u8], order: u32) -> Result<(), NoMemory> {
    match Name::read(name) {
        Some(name) => list.try_push(Resource {
            name,
            capacity: 1,
            order,
        }),
        None => Ok(()),
    }
}

/// Adds a type that is worked on by these machines, one after the other. Nothing is added where that is no name.
pub fn add_type(
    alloc: Global,
    list: &mut List<JobType>,
    name: &[u8],
    machines: &[u16],
) -> Result<(), NoMemory> {
    let mut route = List::new(alloc);
    let mut next = List::new(alloc);
    let places = machines.len().min(PLACES);
    for place in 0..places {
        route.try_push(Step {
            on: ResId(machines[place]),
            works: true,
        })?;
        let mut after = List::new(alloc);
        if place + 1 < places {
            after.try_push(place as u16 + 1)?;
        }
        next.try_push(after)?;
    }
    match Name::read(name) {
        Some(name) => list.try_push(JobType { name, route, next }),
        None => Ok(()),
    }
}
