//! What no clause says of the disk in memory: that its calls succeed with memory at hand. `crashes` enumerates its images.
use crate::same::assert_same;
use cell_base::List;
use outside_io::{CallKind, Disk, DiskCall, Failed, MemDisk};
use std::alloc::Global;
use std::test::Fail;

fn may_be_sent<T: Send>(value: T) -> T {
    value
}

fn failing(alloc: Global, kind: CallKind, nth: u64) -> Result<List<DiskCall>, Fail> {
    let mut fails = List::new(alloc);
    fails.try_push(DiskCall { kind, nth })?;
    Ok(fails)
}

#[test]
fn a_failed_sync_makes_nothing_stable(rt: HostRuntime) -> Result<(), Fail> {
    let alloc = rt.alloc();
    let mut disk = MemDisk::new(alloc, b"abc", failing(alloc, CallKind::Sync, 1)?)?;
    assert_same(&rt, disk.write_at(1, b"BCDE"), Ok(()));
    assert_same(&rt, disk.sync(), Err(Failed));
    assert_same(&rt, disk.crash(alloc, 0)?.bytes(), b"abc".as_slice());
    assert_same(&rt, disk.crash(alloc, 1)?.bytes(), b"aBCDE".as_slice());
    assert_same(&rt, disk.sync(), Ok(()));
    assert_same(&rt, disk.crash(alloc, 0)?.bytes(), b"aBCDE".as_slice());
    assert_same(&rt, disk.starved(), 0);
    Ok(())
}

#[test]
fn a_stopped_disk_fails_at_every_call(rt: HostRuntime) -> Result<(), Fail> {
    let alloc = rt.alloc();
    let mut disk = may_be_sent(MemDisk::new(alloc, b"abc", List::new(alloc))?);
    disk.stop_after(1);
    assert_same(&rt, disk.len(), Ok(3));
    assert_same(&rt, disk.len(), Err(Failed));
    assert_same(&rt, disk.sync(), Err(Failed));
    Ok(())
}
