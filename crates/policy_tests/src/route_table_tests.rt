//! That memory is had, and that the look-ups answer.
use crate::same::assert_same;
use cell_base::{ResId, TypeId, cell_fits};
use route_table::{StageNo, StageTable};
use test_fixtures::crossing;

/// What other threads may have.
fn may_be_shared<T: Send + Sync>(value: T) -> T {
    value
}

#[test]
fn table_is_made(rt: HostRuntime) {
    let cell = crossing(rt.alloc()).expect(&rt, "memory");
    assert!(rt; cell_fits(&cell));
    let table = may_be_shared(StageTable::of(rt.alloc(), cell).expect(&rt, "memory"));
    assert_same(&rt, table.stages(), 4);
    assert_same(&rt, table.stage_of(TypeId(1), 1), Some(StageNo(3)));
    assert_same(&rt, table.stage_of(TypeId(1), 2), None);
    assert_same(&rt, table.order_of(ResId(0)), 1);
}
