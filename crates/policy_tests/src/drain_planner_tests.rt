//! That memory is had, and that a plan comes to its end, on a cell of one machine.
use crate::same::assert_same;
use admission_core::Core;
use cell_base::{JobId, Reply, Request, ResId, TypeId, cell_fits, request_fits};
use drain_planner::{Drainer, plan};
use std::alloc::Global;
use std::test::Fail;
use test_fixtures::cell_of_one;

/// A machine of one unit, on which a part of one type has come to its only stage.
fn loaded_core(alloc: Global) -> Result<Core, Fail> {
    let cell = cell_of_one(alloc)?;
    let load = Request::Load {
        job: JobId(7),
        kind: TypeId(0),
    };
    if !cell_fits(&cell) || !request_fits(&cell, &load) {
        return Err(Fail::from("the cell fits, and the load fits it"));
    }
    let mut core = Core::open(alloc, cell)?;
    match core.ask(&load) {
        Reply::Granted => Ok(core),
        Reply::Refused(_) => Err(Fail::from("the load is granted")),
    }
}

#[test]
fn one_part_is_worked_on_and_unloaded(rt: HostRuntime) -> Result<(), Fail> {
    let steps = [
        Request::Process { machine: ResId(0) },
        Request::Unload { job: JobId(7) },
    ];
    let mut drainer = Drainer::new(loaded_core(rt.alloc())?);
    assert_same(&rt, drainer.length(), 2);
    assert_same(&rt, drainer.cell().resources.len(), 1);
    for step in steps {
        assert_same(&rt, drainer.next(), Some(step));
    }
    assert_same(&rt, drainer.next(), None);
    assert_same(&rt, drainer.into_core().parts_left(), 0);
    let listed = plan(rt.alloc(), loaded_core(rt.alloc())?)?;
    assert_same(&rt, listed.as_slice(), steps.as_slice());
    Ok(())
}
