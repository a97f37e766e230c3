//! That memory is had, and the advice for small cells.
use crate::same::assert_same;
use cell_base::{Cell, List, NoMemory, cell_fits};
use order_advisor::{AdviceFault, advise, arrange};
use std::alloc::Global;
use test_fixtures::{add_machine, add_type};

/// Machines of one unit with these orders, and one type that goes through all of them in turn.
fn in_a_row(alloc: Global, orders: &[u32]) -> Result<Cell, NoMemory> {
    let mut resources = List::new(alloc);
    for (order, name) in orders.iter().zip(b"ABCDEFGH") {
        add_machine(&mut resources, &[*name], *order)?;
    }
    let all = [0, 1, 2, 3, 4, 5, 6, 7];
    let mut types = List::new(alloc);
    add_type(alloc, &mut types, b"T", &all[..orders.len().min(8)])?;
    Ok(Cell { resources, types })
}

/// Two machines of one unit, and two types that go through both in opposite orders.
fn both_ways(alloc: Global, second_order: u32) -> Result<Cell, NoMemory> {
    let mut cell = in_a_row(alloc, &[1, second_order])?;
    add_type(alloc, &mut cell.types, b"Z", &[1, 0])?;
    Ok(cell)
}

#[test]
fn of_two_lists_that_weigh_the_same_the_first_is_given(rt: HostRuntime) {
    for (second_order, given) in [(2u32, 5u64), (1, 6)] {
        let cell = both_ways(rt.alloc(), second_order).expect(&rt, "memory");
        assert!(rt; cell_fits(&cell));
        let advice = advise(rt.alloc(), &cell).expect(&rt, "advice");
        assert_same(&rt, advice.orders.as_slice(), [1, 2].as_slice());
        assert_same(&rt, advice.weight, 5);
        assert_same(&rt, advice.given, given);
    }
}

#[test]
fn the_last_machine_comes_first(rt: HostRuntime) {
    let cell = in_a_row(rt.alloc(), &[1, 2, 3]).expect(&rt, "memory");
    assert!(rt; cell_fits(&cell));
    let advice = advise(rt.alloc(), &cell).expect(&rt, "advice");
    assert_same(&rt, advice.orders.as_slice(), [3, 2, 1].as_slice());
    assert_same(&rt, advice.weight, 3);
    assert_same(&rt, advice.given, 6);
}

#[test]
fn eight_machines_are_for_the_larger_table(rt: HostRuntime) {
    let cell = in_a_row(rt.alloc(), &[1, 1, 1, 1, 1, 1, 1, 1]).expect(&rt, "memory");
    assert!(rt; cell_fits(&cell));
    let refused = advise(rt.alloc(), &cell).err();
    assert_same(
        &rt,
        refused,
        Some(AdviceFault::TooManyResources { count: 8 }),
    );
    let advice = arrange(rt.alloc(), &cell).expect(&rt, "advice");
    assert_same(
        &rt,
        advice.orders.as_slice(),
        [8, 7, 6, 5, 4, 3, 2, 1].as_slice(),
    );
    assert_same(&rt, advice.weight, 8_000);
    assert_same(&rt, advice.given, 36_000);
}

#[test]
fn a_machine_comes_before_a_store_of_three_units(rt: HostRuntime) {
    let mut cell = both_ways(rt.alloc(), 2).expect(&rt, "memory");
    for (r, resource) in cell.resources.as_mut_slice().iter_mut().enumerate() {
        if r == 0 {
            resource.capacity = 3;
        }
    }
    assert!(rt; cell_fits(&cell));
    let alike = advise(rt.alloc(), &cell).expect(&rt, "advice");
    assert_same(&rt, alike.orders.as_slice(), [1, 2].as_slice());
    assert_same(&rt, alike.weight, 5);
    let by_capacity = arrange(rt.alloc(), &cell).expect(&rt, "advice");
    assert_same(&rt, by_capacity.orders.as_slice(), [2, 1].as_slice());
    assert_same(&rt, by_capacity.weight, 2_999);
    assert_same(&rt, by_capacity.given, 3_666);
}
