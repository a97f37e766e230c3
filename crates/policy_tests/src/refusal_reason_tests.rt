//! Why requests are refused in a small cell, and what that cell shows.
ghost use Rattle.cell_base.specs.Fits.{RequestFits};

use crate::same::assert_same;
use admission_core::Core;
use cell_base::{
    JobId, List, NoMemory, Refusal, Reply, Request, ResId, TypeId, cell_fits, request_fits,
};
use refusal_reason::{explain, laws, show_text};
use std::alloc::Global;
use test_fixtures::crossing;

/// The jobs that stand in the way of a request, if it is refused.
fn jobs_in_the_way(alloc: Global, core: &Core, request: &Request) -> Result<List<JobId>, NoMemory>
    requires { RequestFits core.now.cell request.now }
{
    match core.decide(request) {
        Reply::Refused(why) => {
            laws::refusal_is_present(core, request, &why);
            explain(alloc, core, &why)
        }
        Reply::Granted => Ok(List::new(alloc)),
    }
}

#[test]
fn refusals_are_explained(rt: HostRuntime) {
    let cell = crossing(rt.alloc()).expect(&rt, "memory");
    assert!(rt; cell_fits(&cell));
    let mut core = Core::open(rt.alloc(), cell).expect(&rt, "memory");
    let first = Request::Load {
        job: JobId(7),
        kind: TypeId(0),
    };
    let second = Request::Load {
        job: JobId(8),
        kind: TypeId(1),
    };
    assert!(rt; request_fits(core.cell(), &first));
    assert_same(&rt, core.ask(&first), Reply::Granted);
    assert!(rt; request_fits(core.cell(), &second));
    let full = Refusal::Saturated {
        at: ResId(1),
        count: 1,
        capacity: 1,
    };
    assert_same(&rt, core.decide(&second), Reply::Refused(full));
    assert_same(
        &rt,
        jobs_in_the_way(rt.alloc(), &core, &second)
            .expect(&rt, "memory")
            .as_slice(),
        [JobId(7)].as_slice(),
    );
    assert_same(
        &rt,
        explain(rt.alloc(), &core, &Refusal::Idle)
            .expect(&rt, "memory")
            .len(),
        0,
    );
}

#[test]
fn resources_are_shown(rt: HostRuntime) {
    let cell = crossing(rt.alloc()).expect(&rt, "memory");
    assert!(rt; cell_fits(&cell));
    let core = Core::open(rt.alloc(), cell).expect(&rt, "memory");
    let text = show_text(rt.alloc(), &core).expect(&rt, "memory");
    let first = b"resource M1 capacity 1 order 1\nstage A 0\nstage Z 1\n";
    let second = b"resource M2 capacity 1 order 2\nstage A 0\nstage A 1\nstage Z 0\n";
    assert_same(&rt, text.len(), (first.len() + second.len()) as u64);
    assert!(rt; text.as_slice().starts_with(first));
    assert!(rt; text.as_slice().ends_with(second));
}
