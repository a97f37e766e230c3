//! That a whole shift runs, and where it begins after grants, on a cell of one machine with one job.
use crate::job::{JOB, LOAD, PROCESS, UNLOAD};
use crate::same::assert_same;
use admission_core::Core;
use cell_base::{
    Entry, Grant, List, NoMemory, Reply, Request, Shelf, Shift, Told, cell_fits, shift_fits,
};
use cell_sessions::{BeginFault, Progress, ShiftGrants, begin, solo};
use shift_recovery::GrantVisitor;
use std::alloc::Global;
use std::test::Fail;
use test_fixtures::cell_of_one;

fn list_of<T: Drop>(alloc: Global, value: T) -> Result<List<T>, NoMemory> {
    let mut list = List::new(alloc);
    list.try_push(value)?;
    Ok(list)
}

/// Shift 1, of one session with this script.
fn shift_of_one(alloc: Global, script: &[Request]) -> Result<Shift, NoMemory> {
    Ok(Shift {
        number: 1,
        patience: 2,
        scripts: list_of(alloc, List::copy_of(alloc, script)?)?,
    })
}

fn granted(request: Request) -> Entry {
    Entry {
        session: 1,
        request,
        told: Told::Answered(Reply::Granted),
    }
}

#[test]
fn one_job_from_load_to_unload(rt: HostRuntime) {
    let alloc = rt.alloc();
    let cell = cell_of_one(alloc).expect(&rt, "memory");
    let shift = shift_of_one(alloc, &JOB).expect(&rt, "memory");
    assert!(rt; cell_fits(&cell));
    assert!(rt; shift_fits(&cell, &shift));
    let mut history = Shelf::with_room(alloc, 1_048_576).expect(&rt, "memory");
    let mut core = Core::open(alloc, cell).expect(&rt, "memory");
    solo(&mut core, &shift, &mut history);
    let expected = [granted(LOAD), granted(PROCESS), granted(UNLOAD)];
    assert_same(&rt, history.as_slice(), expected.as_slice());
    assert_same(&rt, core.parts_left(), 0);
}

fn grant(shift: u32, session: u16, request: Request) -> Grant {
    Grant {
        shift,
        session,
        request,
    }
}

/// Grants of a journal, of which the second is of another shift.
fn opening() -> [Grant; 3] {
    [grant(1, 1, LOAD), grant(2, 1, UNLOAD), grant(1, 1, PROCESS)]
}

/// What a shift of one session begins with after these grants.
fn begun(alloc: Global, opening: &[Grant]) -> Result<Result<List<Progress>, BeginFault>, Fail> {
    let cell = cell_of_one(alloc)?;
    let shift = shift_of_one(alloc, &JOB)?;
    if !cell_fits(&cell) || !shift_fits(&cell, &shift) {
        return Err("the shift fits".into());
    }
    Ok(begin(alloc, &shift, opening))
}

#[test]
fn begins_after_its_own_grants(rt: HostRuntime) -> Result<(), Fail> {
    let expected = Progress {
        next: 2,
        refused: 0,
        asked: 0,
        ended: false,
    };
    let told = begun(rt.alloc(), &opening())??;
    assert_same(&rt, told.as_slice(), [expected].as_slice());
    Ok(())
}

#[test]
fn does_not_begin_after_grants_of_a_session_that_it_lacks(rt: HostRuntime) -> Result<(), Fail> {
    let strays = [grant(1, 1, LOAD), grant(1, 2, PROCESS), grant(1, 1, LOAD)];
    let fault = begun(rt.alloc(), &strays)?.err();
    assert_same(&rt, fault, Some(BeginFault::OtherShift { session: 2 }));
    Ok(())
}

#[test]
fn keeps_the_grants_of_one_shift(rt: HostRuntime) {
    let mut own = ShiftGrants::of(rt.alloc(), 1);
    let opening = opening();
    for grant in &opening {
        own.visit(0, *grant).expect(&rt, "memory");
    }
    assert_same(
        &rt,
        own.grants.as_slice(),
        [opening[0], opening[2]].as_slice(),
    );
}
