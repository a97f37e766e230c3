//! A frame's bytes both ways, from outside, what a feeder hears, and what a follower answers. The cell has one machine.
ghost use Rattle.std.specs.Prelude.{◌≡◌, [], IfOk};

use crate::same::assert_same;
use cell_base::{Grant, JobId, List, Refusal, Request, ResId, TypeId, cell_fits};
use durable_cell::{Durable, Opening};
use outside_io::MemDisk;
use standby_link::{Feeder, Follower, Frame, TakeFault, TooFar};
use std::alloc::Global;
use std::test::Fail;
use test_fixtures::cell_of_one;

const LOAD: Grant = Grant {
    shift: 1,
    session: 1,
    request: Request::Load {
        job: JobId(7),
        kind: TypeId(0),
    },
};

const GRANTS: [Grant; 2] = [
    LOAD,
    Grant {
        shift: 1,
        session: 1,
        request: Request::Process { machine: ResId(0) },
    },
];

const FIRST: [u8; 24] = [
    0, 0, 0, 0, 0, 0, 0, 0, 1, 0, 0, 1, 0, 0, 0, 1, 0, 0, 0, 7, 0, 0, 0, 0,
];

const OTHER_FIRST: [u8; 24] = [
    0, 0, 0, 0, 0, 0, 0, 0, 1, 0, 0, 1, 0, 0, 0, 1, 0, 0, 0, 8, 0, 0, 0, 0,
];

const SECOND_AGAIN_AS_THIRD: [u8; 24] = [
    0, 0, 0, 0, 0, 0, 0, 2, 2, 0, 0, 1, 0, 0, 0, 1, 0, 0, 0, 0, 0, 0, 0, 0,
];

const THIRD: [u8; 24] = [
    0, 0, 0, 0, 0, 0, 0, 2, 4, 0, 0, 1, 0, 0, 0, 1, 0, 0, 0, 7, 0, 0, 0, 0,
];

// What a follower with room for two grants answers to frames.
const TAKEN: [([u8; 24], Result<u64, TakeFault>); 8] = [
    (SECOND, Ok(0)),
    (FIRST, Ok(1)),
    (FIRST, Ok(1)),
    (SECOND, Ok(2)),
    ([0; 24], Err(TakeFault::NotAFrame)),
    (OTHER_FIRST, Err(TakeFault::Conflict { at: 0, kept: LOAD })),
    (
        SECOND_AGAIN_AS_THIRD,
        Err(TakeFault::NotGranted(Refusal::Idle)),
    ),
    (THIRD, Err(TakeFault::Full { len: 2 })),
];

const SECOND: [u8; 24] = [
    0, 0, 0, 0, 0, 0, 0, 1, 2, 0, 0, 1, 0, 0, 0, 1, 0, 0, 0, 0, 0, 0, 0, 0,
];

#[test]
fn frames_go_and_answers_come(rt: HostRuntime) {
    let mut feeder = Feeder::new(List::copy_of(rt.alloc(), &GRANTS).expect(&rt, "memory"));
    assert_same(&rt, feeder.len(), 2);
    assert_same(&rt, feeder.frame(1), SECOND);
    assert_same(&rt, feeder.heard(3), Err(TooFar { len: 2 }));
    assert_same(&rt, feeder.heard(2), Ok(()));
    assert_same(&rt, feeder.heard(1), Ok(()));
    assert_same(&rt, feeder.known(), 2);
}

#[test]
fn bytes_are_read_as_a_frame(rt: HostRuntime) {
    let second = Frame {
        index: 1,
        grant: GRANTS[1],
    };
    assert_same(&rt, Frame::from_bytes(&SECOND), Some(second));
    assert_same(&rt, Frame::from_bytes(&[0; 24]), None);
}

// A durable cell in which nothing was decided.
fn opened(alloc: Global, disk: MemDisk) -> Result<Durable<MemDisk>, Fail>
    ensures fresh { IfOk result (λ durable. durable.history ≡ []) }
    ensures limit { IfOk result (λ durable. durable.limit ≡ 2) }
{
    let cell = cell_of_one(alloc)?;
    if !cell_fits(&cell) {
        return Err(Fail::from("the cell fits"));
    }
    match Durable::open(alloc, cell, b"cell", disk, 8, 2) {
        Opening::Open(durable) => Ok(durable),
        _ => Err(Fail::from("not opened")),
    }
}

fn follower(alloc: Global) -> Result<Follower<MemDisk>, Fail> {
    let durable = opened(alloc, MemDisk::new(alloc, b"", List::new(alloc))?)?;
    match Follower::open(alloc, durable, 2) {
        Ok(follower) => Ok(follower),
        Err(_) => Err(Fail::from("no memory")),
    }
}

fn takes_as_listed(follower: &mut Follower<MemDisk>) -> bool {
    for (bytes, answer) in &TAKEN {
        if follower.take(bytes) != *answer {
            return false;
        }
    }
    true
}

#[test]
fn frames_are_taken(rt: HostRuntime) -> Result<(), Fail> {
    let mut follower = follower(rt.alloc())?;
    assert!(rt; takes_as_listed(&mut follower));
    assert_same(&rt, follower.grants(), GRANTS.as_slice());
    let finished = follower.into_durable().finish();
    let again = opened(rt.alloc(), finished.disk)?;
    assert_same(&rt, again.held(), 2);
    assert_same(&rt, again.opening(), GRANTS.as_slice());
    Ok(())
}
