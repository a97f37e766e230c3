//! With memory at hand the counts are made.
use crate::same::assert_same;
use cell_base::{List, ResId};
use neighborhood_counts::Counts;

#[test]
fn counts_are_made(rt: HostRuntime) {
    let mut capacities = List::new(rt.alloc());
    capacities.try_push(2u32).expect(&rt, "memory");
    capacities.try_push(1).expect(&rt, "memory");
    let counts = Counts::new(rt.alloc(), &capacities).expect(&rt, "memory");
    assert_same(&rt, counts.count(ResId(1)), 0);
    assert_same(&rt, counts.full(), 0);
}
