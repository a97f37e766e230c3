//! Records as bytes, both ways.
use crate::same::assert_same;
use cell_base::{Grant, JobId, Request, ResId, TypeId};
use entry_codec::{decode, encode};

fn granted(shift: u32, session: u16, request: Request) -> Grant {
    Grant {
        shift,
        session,
        request,
    }
}

#[test]
fn each_kind_is_read_back(rt: HostRuntime) {
    let job = JobId(7);
    let kind = TypeId(0);
    let machine = ResId(1);
    let load = Request::Load { job, kind };
    let on = Request::Move { job, branch: 0 };
    let aside = Request::Move { job, branch: 1 };
    let placed = Request::Place {
        job,
        kind,
        place: 1,
        done: false,
    };
    let table = [
        (
            granted(1, 1, load),
            [1, 0, 0, 1, 0, 0, 0, 1, 0, 0, 0, 7, 0, 0, 0, 0],
        ),
        (
            granted(1, 2, Request::Process { machine }),
            [2, 0, 0, 2, 0, 0, 0, 1, 0, 0, 0, 0, 0, 0, 0, 1],
        ),
        (
            granted(1, 1, on),
            [3, 0, 0, 1, 0, 0, 0, 1, 0, 0, 0, 7, 0, 0, 0, 0],
        ),
        (
            granted(1, 1, aside),
            [3, 0, 0, 1, 0, 0, 0, 1, 0, 0, 0, 7, 0, 0, 0, 1],
        ),
        (
            granted(0, 0, placed),
            [5, 0, 0, 0, 0, 0, 0, 0, 0, 0, 0, 7, 0, 0, 0, 1],
        ),
    ];
    for (grant, bytes) in table {
        assert_eq!(rt; decode(&bytes), Some(grant));
        assert_same(&rt, encode(&grant), bytes);
    }
}

#[test]
fn other_bytes_are_no_record(rt: HostRuntime) {
    assert!(rt; decode(&[0; 16]).is_none());
    assert!(rt; decode(&[3, 0, 0, 1, 0, 0, 0, 1, 0, 0, 0, 7, 0, 0, 0, 8]).is_none());
    assert!(rt; decode(&[4, 0, 0, 1, 0, 0, 0, 1, 0, 0, 0, 7, 0, 0, 0, 1]).is_none());
    assert!(rt; decode(&[5, 2, 0, 0, 0, 0, 0, 0, 0, 0, 0, 7, 0, 0, 0, 0]).is_none());
}
