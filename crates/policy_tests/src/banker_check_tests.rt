//! Two parts on a cell of two machines: in each other's way, and one after the other.
use crate::same::assert_same;
use banker_check::{Hybrid, HybridReply};
use cell_base::{JobId, Request, ResId, TypeId, cell_fits, request_fits};
use test_fixtures::crossing;

fn load(job: u32, kind: u16) -> Request {
    Request::Load {
        job: JobId(job),
        kind: TypeId(kind),
    }
}

#[test]
fn blocks_opposite_parts(rt: HostRuntime) {
    let cell = crossing(rt.alloc()).expect(&rt, "memory");
    assert!(rt; cell_fits(&cell));
    let mut hybrid = Hybrid::open(rt.alloc(), cell).expect(&rt, "memory");
    let (first, second) = (load(7, 0), load(8, 1));
    assert!(rt; request_fits(hybrid.cell(), &first));
    assert_same(&rt, hybrid.ask(&first), HybridReply::Granted);
    assert!(rt; request_fits(hybrid.cell(), &second));
    let blocked = HybridReply::Blocked {
        at: ResId(1),
        count: 2,
        capacity: 1,
        stuck: 2,
    };
    assert_same(&rt, hybrid.ask(&second), blocked);
    assert_same(&rt, hybrid.parts_left(), 1);
}

#[test]
fn orders_parts_that_follow_each_other(rt: HostRuntime) {
    let cell = crossing(rt.alloc()).expect(&rt, "memory");
    assert!(rt; cell_fits(&cell));
    let mut hybrid = Hybrid::open(rt.alloc(), cell).expect(&rt, "memory");
    let process = Request::Process { machine: ResId(0) };
    let go_on = Request::Move {
        job: JobId(7),
        branch: 0,
    };
    for request in [load(7, 0), process, go_on, load(8, 0)] {
        assert!(rt; request_fits(hybrid.cell(), &request));
        assert_same(&rt, hybrid.ask(&request), HybridReply::Granted);
    }
    assert_same(&rt, hybrid.work_left(), 6);
    let order = hybrid
        .order(rt.alloc())
        .expect(&rt, "memory")
        .expect(&rt, "an order");
    assert_same(&rt, order.as_slice(), [JobId(7), JobId(8)].as_slice());
    for _ in 0..6 {
        let step = hybrid.plan_step().expect(&rt, "a step");
        assert!(rt; request_fits(hybrid.cell(), &step));
        assert_same(&rt, hybrid.ask(&step), HybridReply::Granted);
    }
    assert_same(&rt, hybrid.parts_left(), 0);
}
