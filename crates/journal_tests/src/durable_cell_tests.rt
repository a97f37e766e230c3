//! What no clause says: that memory is had, and that a durable cell may go to another thread. The cell has one machine.
use crate::job::{LOAD, PROCESS, UNLOAD};
use crate::same::assert_same;
use cell_base::{Grant, List, Refusal, Reply, Request, cell_fits, request_fits};
use durable_cell::{AskFault, Durable, Opening};
use outside_io::{CallKind, Disk, DiskCall, MemDisk};
use std::alloc::Global;
use std::test::Fail;
use test_fixtures::cell_of_one;

type Answer = Result<Reply, AskFault>;

/// How a run ended: whether each answer was the one that is listed, the parts that are left, and how many grants the disk
/// has when it is opened again.
#[derive(Clone, Copy, Debug, PartialEq, Eq)]
struct Outcome {
    as_listed: bool,
    parts: u32,
    found: u64,
}

const GRANTED: Answer = Ok(Reply::Granted);

const A_WHOLE_JOB: [(Request, Answer); 6] = [
    (LOAD, GRANTED),
    (LOAD, Ok(Reply::Refused(Refusal::JobLoaded))),
    (PROCESS, GRANTED),
    (UNLOAD, GRANTED),
    (UNLOAD, Ok(Reply::Refused(Refusal::NoSuchJob))),
    (LOAD, Err(AskFault::Full { len: 5 })),
];

const A_FAILED_WRITE: [(Request, Answer); 3] = [
    (LOAD, GRANTED),
    (PROCESS, Err(AskFault::Device { at: 1 })),
    (UNLOAD, Err(AskFault::Halted { at: 1 })),
];

/// A request that a run asks and is granted.
fn granted(request: Request) -> Grant {
    Grant {
        shift: 1,
        session: 2,
        request,
    }
}

fn may_be_sent<T: Send>(value: T) -> T {
    value
}

/// A durable cell goes where its disk goes.
fn sent<D: Disk + Send>(durable: Durable<D>) -> Durable<D> {
    may_be_sent(durable)
}

fn opened(alloc: Global, disk: MemDisk) -> Result<Durable<MemDisk>, Fail> {
    let cell = cell_of_one(alloc)?;
    if !cell_fits(&cell) {
        return Err(Fail::from("the cell fits"));
    }
    match Durable::open(alloc, cell, b"cell", disk, 8, 5) {
        Opening::Open(durable) => Ok(durable),
        Opening::Refused { .. } => Err(Fail::from("no journal of this cell")),
        Opening::Device { .. } => Err(Fail::from("the device failed")),
        Opening::Memory { .. } => Err(Fail::from("no memory")),
    }
}

fn answers_as_listed(durable: &mut Durable<MemDisk>, asks: &[(Request, Answer)]) -> bool {
    for (request, answer) in asks {
        if !request_fits(durable.core().cell(), request) {
            return false;
        }
        let reply = durable.ask(1, 2, request);
        if reply != *answer {
            return false;
        }
    }
    true
}

fn found_again(alloc: Global, disk: MemDisk) -> Result<u64, Fail> {
    let again = opened(alloc, disk)?;
    Ok(again.held())
}

fn run(alloc: Global, fails: List<DiskCall>, asks: &[(Request, Answer)]) -> Result<Outcome, Fail> {
    let disk = MemDisk::new(alloc, b"", fails)?;
    let mut durable = sent(opened(alloc, disk)?);
    let as_listed = answers_as_listed(&mut durable, asks);
    let finished = durable.finish();
    let parts = finished.core.parts_left();
    let found = found_again(alloc, finished.disk)?;
    Ok(Outcome {
        as_listed,
        parts,
        found,
    })
}

#[test]
fn grants_are_found_again(rt: HostRuntime) -> Result<(), Fail> {
    let outcome = run(rt.alloc(), List::new(rt.alloc()), &A_WHOLE_JOB)?;
    let expected = Outcome {
        as_listed: true,
        parts: 0,
        found: 3,
    };
    assert_same(&rt, outcome, expected);
    Ok(())
}

#[test]
fn a_failed_write_halts(rt: HostRuntime) -> Result<(), Fail> {
    let mut fails = List::new(rt.alloc());
    fails
        .try_push(DiskCall {
            kind: CallKind::Write,
            nth: 6,
        })
        .expect(&rt, "memory");
    let outcome = run(rt.alloc(), fails, &A_FAILED_WRITE)?;
    let expected = Outcome {
        as_listed: true,
        parts: 1,
        found: 1,
    };
    assert_same(&rt, outcome, expected);
    Ok(())
}

#[test]
fn an_opening_has_the_grants_in_their_order(rt: HostRuntime) -> Result<(), Fail> {
    let alloc = rt.alloc();
    let mut durable = opened(alloc, MemDisk::new(alloc, b"", List::new(alloc))?)?;
    let as_listed = answers_as_listed(&mut durable, &A_WHOLE_JOB);
    assert!(rt; as_listed && durable.opening().is_empty());
    let again = opened(alloc, durable.finish().disk)?;
    let expected = [granted(LOAD), granted(PROCESS), granted(UNLOAD)];
    assert_same(&rt, again.opening(), expected.as_slice());
    Ok(())
}
