//! That memory is had, and some draws of a known number, as another program makes them.
use crate::same::assert_same;
use cell_make::{Made, make};
use std::test::Fail;

#[test]
fn one_draws_what_another_program_draws(rt: HostRuntime) -> Result<(), Fail> {
    let Made { cell, shift } = make(rt.alloc(), 1).map_err(|_| "made")?;
    assert_same(&rt, cell.resources.get(0).capacity, 3);
    assert_same(&rt, cell.types.len(), 8);
    assert_eq!(rt; shift.scripts.len(), 64);
    assert_same(&rt, shift.scripts.get(0).len(), 9);
    assert_same(&rt, shift.scripts.get(48).len(), 8);
    Ok(())
}
