//! That memory is had, and that each call answers, on a cell of one machine.
use crate::same::assert_same;
use admission_core::Core;
use cell_base::{JobId, Part, Refusal, Reply, Request, ResId, TypeId, cell_fits, request_fits};
use std::process::Abort;
use std::test::Fail;
use test_fixtures::cell_of_one;

/// What other threads may have.
fn may_be_shared<T: Send + Sync>(value: T) -> T {
    value
}

/// A core with one part is emptied by the steps of its plan.
fn takes_its_plan(rt: &impl Abort, core: &mut Core, job: JobId) {
    let work = Request::Process { machine: ResId(0) };
    assert_same(rt, core.take_plan_step(), Some(work));
    assert_same(rt, core.take_plan_step(), Some(Request::Unload { job }));
    assert_same(rt, core.take_plan_step(), None);
    assert_same(rt, core.parts_left(), 0);
    assert_same(rt, core.full(), 0);
}

#[test]
fn opens_and_answers(rt: HostRuntime) -> Result<(), Fail> {
    let cell = cell_of_one(rt.alloc())?;
    let job = JobId(7);
    let kind = TypeId(0);
    let load = Request::Load { job, kind };
    let waiting = Part {
        job,
        kind,
        place: 0,
        done: false,
    };
    assert!(rt; cell_fits(&cell));
    assert!(rt; request_fits(&cell, &load));
    let mut core = Core::open(rt.alloc(), cell)?;
    assert_eq!(rt; core.ask(&load), Reply::Granted);
    assert_eq!(rt; core.decide(&load), Reply::Refused(Refusal::JobLoaded));
    assert_eq!(rt; core.parts_left(), 1);
    assert_same(&rt, core.part(0), waiting);
    assert_same(&rt, core.part_of(job), Some(waiting));
    assert_same(&rt, core.part_of(JobId(8)), None);
    assert_same(&rt, core.count(ResId(0)), 1);
    assert_same(&rt, core.full(), 1);
    takes_its_plan(&rt, &mut core, job);
    let _core = may_be_shared(core);
    Ok(())
}
