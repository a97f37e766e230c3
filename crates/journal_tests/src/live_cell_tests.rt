//! What no clause says: that memory is had, and what a group whose writing failed leaves. The cell has one machine.
ghost use Rattle.std.specs.Prelude.{◌≡◌, false, IfOk};

use crate::job::{JOB, LOAD, PROCESS, UNLOAD};
use crate::same::assert_same;
use cell_base::{Grant, List, Refusal, Reply, Request, cell_fits, request_fits};
use live_cell::{JournalFull, LiveCell, LiveParts, OpenedLive};
use outside_io::{CallKind, Disk, DiskCall, MemDisk};
use shift_recovery::{OpenError, OpenFault};
use std::alloc::Global;
use std::test::Fail;
use test_fixtures::cell_of_one;

type Answer = Result<Reply, JournalFull>;

const GRANTED: Answer = Ok(Reply::Granted);

const LOADED: Answer = Ok(Reply::Refused(Refusal::JobLoaded));

/// Calls of a disk that are more than an opening and a commit make of one kind.
const MOST_CALLS: u64 = 20;

fn may_be_sent<T: Send>(value: T) -> T {
    value
}

/// A live cell goes where its disk goes.
fn sent<D: Disk + Send>(live: LiveCell<D>) -> LiveCell<D> {
    may_be_sent(live)
}

/// A live cell with the grants that were found, or the disk where the device failed.
fn opened(
    alloc: Global,
    disk: MemDisk,
    room: u64,
) -> Result<Result<(LiveCell<MemDisk>, List<Grant>), MemDisk>, Fail>
    ensures { IfOk result (λ opened. IfOk opened (λ both. both.0.is_halted ≡ false)) }
{
    let cell = cell_of_one(alloc)?;
    if !cell_fits(&cell) || room > 8 {
        return Err(Fail::from("the cell fits"));
    }
    match LiveCell::open(alloc, cell, b"cell", disk, room, 4, List::new(alloc)) {
        Ok(OpenedLive { live, kept }) => Ok(Ok((live, kept))),
        Err(
            OpenError {
                disk,
                why: OpenFault::Device,
            },
        ) => Ok(Err(disk)),
        _ => Err(Fail::from("not opened")),
    }
}

fn opened_anew(alloc: Global, room: u64) -> Result<LiveCell<MemDisk>, Fail>
    ensures { IfOk result (λ live. live.is_halted ≡ false) }
{
    match opened(alloc, MemDisk::new(alloc, b"", List::new(alloc))?, room)? {
        Ok((live, _)) => Ok(live),
        Err(_) => Err(Fail::from("no call fails")),
    }
}

/// The grants for which a disk stands.
fn found(alloc: Global, disk: MemDisk) -> Result<List<Grant>, Fail> {
    match opened(alloc, disk, 8)? {
        Ok((_, grants)) => Ok(grants),
        Err(_) => Err(Fail::from("no call fails")),
    }
}

/// Whether the request is answered so, and a look at it before says the same: a full journal turns away what would be granted.
fn is_told(live: &mut LiveCell<MemDisk>, request: &Request, answer: Answer) -> bool
    requires { live.old.is_halted ≡ false }
    ensures { live.new.is_halted ≡ false }
{
    if live.spare() == 0 || !request_fits(live.core().cell(), request) {
        return false;
    }
    let looked = live.decide(request);
    let told = live.ask(2, request);
    told == answer && told.unwrap_or(Reply::Granted) == looked
}

/// Whether a job goes through, with a request between its first two that is refused.
fn goes_through(live: &mut LiveCell<MemDisk>) -> bool
    requires { live.old.is_halted ≡ false }
    ensures { live.new.is_halted ≡ false }
{
    is_told(live, &LOAD, GRANTED)
        && is_told(live, &LOAD, LOADED)
        && is_told(live, &PROCESS, GRANTED)
        && is_told(live, &UNLOAD, GRANTED)
}

#[test]
fn a_group_is_found_again(rt: HostRuntime) -> Result<(), Fail> {
    let alloc = rt.alloc();
    let mut live = opened_anew(alloc, 8)?;
    assert!(rt; goes_through(&mut live));
    assert_same(&rt, (live.len(), live.spare()), (0, 1));
    assert_same(&rt, live.commit(), Ok(()));
    assert_same(&rt, (live.len(), live.spare()), (3, 4));
    let LiveParts { core, disk } = sent(live).finish();
    assert_same(&rt, core.parts_left(), 0);
    let expected = JOB.map(|request| Grant {
        shift: 0,
        session: 2,
        request,
    });
    assert_same(&rt, found(alloc, disk)?.as_slice(), expected.as_slice());
    Ok(())
}

#[test]
fn a_full_journal_takes_no_grant_and_refuses_on(rt: HostRuntime) -> Result<(), Fail> {
    let mut live = opened_anew(rt.alloc(), 2)?;
    assert!(rt; is_told(&mut live, &LOAD, GRANTED));
    assert!(rt; is_told(&mut live, &PROCESS, GRANTED));
    assert!(rt; is_told(&mut live, &UNLOAD, Err(JournalFull)));
    assert!(rt; is_told(&mut live, &LOAD, LOADED));
    assert_eq!(rt; live.commit(), Ok(()));
    assert!(rt; is_told(&mut live, &UNLOAD, Err(JournalFull)));
    assert_same(&rt, live.len(), 2);
    Ok(())
}

/// Whether each of some disks that a crash may leave stands for one of these numbers of grants.
fn leaves_one_of(alloc: Global, disk: &MemDisk, counts: &[u64]) -> Result<bool, Fail> {
    for pick in 0..8 {
        let image = disk.crash(alloc, pick)?;
        if !counts.contains(&found(alloc, image)?.len()) {
            return Ok(false);
        }
    }
    Ok(true)
}

/// Whether a group is there whole where it was committed, and else whole or not at all.
fn is_whole(alloc: Global, live: LiveCell<MemDisk>) -> Result<bool, Fail>
    requires { live.is_halted ≡ false }
{
    let mut live = live;
    if !goes_through(&mut live) {
        return Ok(false);
    }
    let committed = live.commit();
    let counts: &[u64] = if committed.is_ok() { &[3] } else { &[0, 3] };
    leaves_one_of(alloc, &live.into_disk(), counts)
}

/// The same on a disk of which this call fails, and of one that is not opened that there are no grants.
fn fails_well(alloc: Global, call: DiskCall) -> Result<bool, Fail> {
    let mut fails = List::new(alloc);
    fails.try_push(call)?;
    match opened(alloc, MemDisk::new(alloc, b"", fails)?, 8)? {
        Ok((live, _)) => is_whole(alloc, live),
        Err(disk) => leaves_one_of(alloc, &disk, &[0]),
    }
}

#[test]
fn a_group_is_there_whole_or_not_at_all(rt: HostRuntime) -> Result<(), Fail> {
    for kind in [CallKind::Read, CallKind::Write, CallKind::Sync] {
        for nth in 1..MOST_CALLS {
            assert!(rt; fails_well(rt.alloc(), DiskCall { kind, nth })?);
        }
    }
    Ok(())
}
