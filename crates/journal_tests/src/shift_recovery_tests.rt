//! What no clause says: that a journal is made and found again with memory at hand. `crashes` has the other cases.
use crate::same::assert_same;
use cell_base::{Grant, JobId, List, Request};
use outside_io::MemDisk;
use shift_recovery::{Opened, recover};
use std::test::Fail;

#[test]
fn a_journal_is_made_and_found_again(rt: HostRuntime) -> Result<(), Fail> {
    let alloc = rt.alloc();
    let grant = Grant {
        shift: 1,
        session: 1,
        request: Request::Unload { job: JobId(7) },
    };
    let disk = MemDisk::new(alloc, b"", List::new(alloc)).expect(&rt, "memory");
    let Opened::Fresh(blank) = recover(alloc, disk, b"cell", 8) else {
        return Err(Fail::from("not blank"));
    };
    let Ok(cleared) = blank.clear() else {
        return Err(Fail::from("not cleared"));
    };
    let Ok(mut journal) = cleared.create(b"cell") else {
        return Err(Fail::from("not created"));
    };
    journal.append(&grant).expect(&rt, "memory");
    let Opened::Found { journal, grants } = recover(alloc, journal.into_disk(), b"cell", 8) else {
        return Err(Fail::from("not found"));
    };
    assert_same(&rt, journal.len(), 1);
    assert_same(&rt, grants.as_slice(), [grant].as_slice());
    Ok(())
}
