//! What no clause says: that memory is had. Two sessions wait, and one of them cancels.
use crate::same::assert_same;
use cell_base::{JobId, Refusal, Request, ResId, TypeId};
use wait_queue::{WaitQueue, Waiter};

/// A session that waits with a load of the job for the first machine.
fn loading(session: u16, job: u32) -> Waiter {
    Waiter {
        session,
        request: Request::Load {
            job: JobId(job),
            kind: TypeId(0),
        },
        refusal: Refusal::Saturated {
            at: ResId(0),
            count: 1,
            capacity: 1,
        },
    }
}

#[test]
fn a_session_that_cancels_waits_no_more(rt: HostRuntime) {
    let mut queue = WaitQueue::with_room(rt.alloc(), 2).expect(&rt, "memory");
    queue.push(loading(2, 8), ResId(0));
    queue.push(loading(3, 9), ResId(0));
    assert_same(&rt, queue.cancel(2), Some(loading(2, 8)));
    assert_same(&rt, queue.cancel(2), None);
    assert_same(&rt, queue.waiting(), [loading(3, 9)].as_slice());
    assert_same(&rt, queue.waiter_of(3), Some(loading(3, 9)));
}
