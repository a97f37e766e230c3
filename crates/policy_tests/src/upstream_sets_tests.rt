//! That memory is had, and the neighborhoods of two machines.
use crate::same::assert_same;
use cell_base::{ResId, cell_fits};
use route_table::{StageNo, StageTable};
use std::alloc::Global;
use std::test::Fail;
use test_fixtures::crossing;
use upstream_sets::Upstream;

/// What other threads may have.
fn may_be_shared<T: Send + Sync>(value: T) -> T {
    value
}

/// The neighborhoods of a cell whose two types go through its machines in opposite orders.
fn upstream_of_crossing(alloc: Global) -> Result<Upstream, Fail> {
    let cell = crossing(alloc)?;
    if !cell_fits(&cell) {
        return Err("the cell fits".into());
    }
    let table = StageTable::of(alloc, cell)?;
    Ok(may_be_shared(Upstream::new(alloc, &table)?))
}

const FIRST: [StageNo; 2] = [StageNo(0), StageNo(3)];

const SECOND: [StageNo; 3] = [StageNo(0), StageNo(1), StageNo(2)];

#[test]
fn members_are_told(rt: HostRuntime) -> Result<(), Fail> {
    let upstream = upstream_of_crossing(rt.alloc())?;
    let first = upstream.members(rt.alloc(), ResId(0)).expect(&rt, "memory");
    assert_same(&rt, first.as_slice(), FIRST.as_slice());
    let second = upstream.members(rt.alloc(), ResId(1)).expect(&rt, "memory");
    assert_same(&rt, second.as_slice(), SECOND.as_slice());
    Ok(())
}

#[test]
fn neighborhoods_are_told(rt: HostRuntime) -> Result<(), Fail> {
    let all = upstream_of_crossing(rt.alloc())?.neighborhoods(rt.alloc())?;
    assert_same(&rt, all.len(), 64);
    assert_same(&rt, all[0].as_slice(), FIRST.as_slice());
    assert_same(&rt, all[1].as_slice(), SECOND.as_slice());
    assert!(rt; all[2].as_slice().is_empty());
    Ok(())
}
