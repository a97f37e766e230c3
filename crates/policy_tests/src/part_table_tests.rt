//! With memory at hand the table is made, and a part is found by any hint, be it right, stale or none.
ghost use Rattle.std.specs.Prelude.{◌≡◌, false};

use crate::same::assert_same;
use cell_base::{JobId, Part, ResId, TypeId, cell_fits};
use part_table::{Found, Parts};
use route_table::StageTable;
use std::alloc::Global;
use std::process::Abort;
use test_fixtures::cell_of_one;

/// The part of a job at a place.
fn part(job: u32, place: u16) -> Part
    ensures { result ≡ record { job = record { 0 = job }; kind = record { 0 = 0 }; place = place; done = false } }
{
    Part {
        job: JobId(job),
        kind: TypeId(0),
        place,
        done: false,
    }
}

/// The parts are these.
fn assert_parts(rt: &impl Abort, alloc: Global, parts: &Parts, expected: &[Part]) {
    let listed = parts.listed(alloc).expect(rt, "memory");
    assert_same(rt, listed.as_slice(), expected);
}

#[test]
fn a_table_is_made(rt: HostRuntime) {
    let alloc = rt.alloc();
    let parts = Parts::with_room(alloc, 3).expect(&rt, "memory");
    assert_same(&rt, parts.len(), 0);
    assert_same(&rt, parts.find(JobId(7)), None);
}

#[test]
fn a_part_goes_on_by_any_hint(rt: HostRuntime) {
    let alloc = rt.alloc();
    let mut parts = Parts::with_room(alloc, 3).expect(&rt, "memory");
    parts.arrive(part(7, 0));
    parts.arrive(part(8, 0));
    let found = parts.find(JobId(7)).expect(&rt, "a part");
    assert_same(&rt, found.part, part(7, 0));
    parts.advance_found(found, 1, false);
    assert_parts(&rt, alloc, &parts, &[part(8, 0), part(7, 1)]);
    let moved = Found {
        part: part(7, 1),
        hint: found.hint,
    };
    parts.advance_found(moved, 2, false);
    assert_parts(&rt, alloc, &parts, &[part(8, 0), part(7, 2)]);
    parts.advance(JobId(8), 3, false);
    assert_parts(&rt, alloc, &parts, &[part(7, 2), part(8, 3)]);
}

#[test]
fn a_part_leaves_by_any_hint(rt: HostRuntime) {
    let alloc = rt.alloc();
    let mut parts = Parts::with_room(alloc, 3).expect(&rt, "memory");
    parts.arrive(part(7, 0));
    parts.arrive(part(8, 0));
    parts.arrive(part(9, 0));
    let found = parts.find(JobId(7)).expect(&rt, "a part");
    assert_same(&rt, found.part, part(7, 0));
    let other = Found {
        part: part(8, 0),
        hint: found.hint,
    };
    parts.depart_found(other);
    assert_parts(&rt, alloc, &parts, &[part(7, 0), part(9, 0)]);
    parts.depart_found(found);
    assert_parts(&rt, alloc, &parts, &[part(9, 0)]);
    parts.depart(JobId(9));
    assert_parts(&rt, alloc, &parts, &[]);
    assert_same(&rt, parts.find(JobId(9)), None);
}

#[test]
fn a_table_that_was_told_finds_by_resources(rt: HostRuntime) {
    let alloc = rt.alloc();
    let cell = cell_of_one(alloc).expect(&rt, "memory");
    assert!(rt; cell_fits(&cell));
    let stages = StageTable::of(alloc, cell).expect(&rt, "memory");
    let mut parts = Parts::with_room(alloc, 3)
        .expect(&rt, "memory")
        .told_of(alloc, &stages)
        .expect(&rt, "memory");
    assert_same(&rt, parts.find_on(ResId(0)), None);
    parts.arrive(part(7, 0));
    let found = parts.find_on(ResId(0)).expect(&rt, "a part");
    assert_same(&rt, found.part, part(7, 0));
    assert_same(&rt, parts.finish_first(ResId(0)), Some(JobId(7)));
}
