//! That memory is had, and what the tests of the limits say of a small cell.
ghost use Rattle.std.specs.Prelude.{◌≡◌, ◌<◌, length, slice_set};

use crate::same::assert_same;
use cell_base::{
    Cell, JobId, JobType, List, Name, NoMemory, Request, ResId, Resource, Shelf, Shift, Step,
    TypeId, cell_fits, request_fits, shift_fits,
};
use std::alloc::Global;

fn list_of<T: Copy>(alloc: Global, values: &[T]) -> Result<List<T>, NoMemory> {
    let mut list = List::new(alloc);
    for value in values {
        list.try_push(*value)?;
    }
    Ok(list)
}

fn machine(alloc: Global, name: &[u8], order: u32) -> Result<List<Resource>, NoMemory> {
    let mut list = List::new(alloc);
    if let Some(name) = Name::read(name) {
        list.try_push(Resource {
            name,
            capacity: 1,
            order,
        })?;
    }
    Ok(list)
}

/// A cell with one machine, and a type whose route is that machine twice.
fn small_cell(alloc: Global, after_first: u16) -> Result<Cell, NoMemory> {
    let step = Step {
        on: ResId(0),
        works: true,
    };
    let mut next = List::new(alloc);
    next.try_push(list_of(alloc, &[after_first])?)?;
    next.try_push(List::new(alloc))?;
    let mut types = List::new(alloc);
    if let Some(name) = Name::read(b"B") {
        types.try_push(JobType {
            name,
            route: list_of(alloc, &[step, step])?,
            next,
        })?;
    }
    Ok(Cell {
        resources: machine(alloc, b"M1", 1)?,
        types,
    })
}

/// What other threads may have.
fn may_be_shared<T: Send + Sync>(value: T) -> T {
    value
}

fn write_first(list: &mut List<u32>, value: u32)
    requires { 0 < length list.old }
    ensures { list.new ≡ slice_set list.old 0 value }
{
    list.as_mut_slice()[0] = value;
}

#[test]
fn takes_memory(rt: HostRuntime) {
    let alloc = rt.alloc();
    let mut shelf = Shelf::with_room(alloc, 2).expect(&rt, "memory");
    shelf.push(7u32);
    shelf.push(8);
    let mut list = may_be_shared(may_be_shared(shelf).into_list());
    list.try_push(9).expect(&rt, "memory");
    assert_same(&rt, list.pop(), Some(9));
    assert_eq!(rt; list.len(), 2);
    write_first(&mut list, 6);
    assert_same(&rt, list.as_slice(), [6, 8].as_slice());
}

/// A shift of one session with one step.
fn shift_of_one(alloc: Global) -> Result<Shift, NoMemory> {
    let mut scripts = List::new(alloc);
    scripts.try_push(list_of(alloc, &[Request::Process { machine: ResId(0) }])?)?;
    Ok(Shift {
        number: 1,
        patience: 2,
        scripts,
    })
}

#[test]
fn fits(rt: HostRuntime) {
    let alloc = rt.alloc();
    let cell = may_be_shared(small_cell(alloc, 1).expect(&rt, "memory"));
    let load = Request::Load {
        job: JobId(7),
        kind: TypeId(0),
    };
    assert!(rt; cell_fits(&cell));
    assert!(rt; request_fits(&cell, &load));
    assert!(rt; !request_fits(&cell, &Request::Process { machine: ResId(1) }));
    assert!(rt; shift_fits(&cell, &shift_of_one(alloc).expect(&rt, "memory")));
    assert!(rt; !cell_fits(&small_cell(alloc, 0).expect(&rt, "memory")));
}
