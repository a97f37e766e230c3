//! Cell files as they are read and printed.
use crate::same::assert_same;
use cell_file::{CellFault, print_cell, read_cell};
use std::alloc::Global;
use std::test::Fail;
use test_fixtures::CROSSING;

const CELL_Y: &str = "version = 2
[[resource]]
name = \"M1\"
capacity = 1
order = 1
[[resource]]
name = \"M2\"
capacity = 1
order = 2
[[resource]]
name = \"M3\"
capacity = 1
order = 3
[[type]]
name = \"B\"
route = [\"M1\", \"M2:hold\", \"M3\"]
next = [[1, 2], [], []]
";

const WORKSHOP: &str = "version = 1
[[resource]]
name = \"IN\"
capacity = 20
[[resource]]
name = \"OUT\"
capacity = 20
[[resource]]
name = \"M1\"
capacity = 2
[[resource]]
name = \"M2\"
capacity = 2
[[resource]]
name = \"M3\"
capacity = 2
[[resource]]
name = \"M4\"
capacity = 2
[[resource]]
name = \"M5\"
capacity = 2
[[resource]]
name = \"M6\"
capacity = 2
[[type]]
name = \"P1\"
route = [\"IN:hold\", \"M1\", \"M2\", \"M3\", \"OUT:hold\"]
[[type]]
name = \"P2\"
route = [\"IN:hold\", \"M3\", \"M2\", \"M1\", \"OUT:hold\"]
[[type]]
name = \"P3\"
route = [\"IN:hold\", \"M4\", \"M5\", \"M6\", \"M1\", \"OUT:hold\"]
[[type]]
name = \"P4\"
route = [\"IN:hold\", \"M6\", \"M4\", \"M2\", \"M5\", \"M3\", \"OUT:hold\"]
";

#[test]
fn reads_two_types(rt: HostRuntime) -> Result<(), Fail> {
    let cell = read_cell(rt.alloc(), CROSSING)?;
    assert_same(&rt, cell.resources.len(), 2);
    assert_same(&rt, cell.types.len(), 2);
    for (i, resource) in cell.resources.as_slice().iter().enumerate() {
        let name = if i == 0 { "M1" } else { "M2" };
        assert_same(&rt, resource.name.bytes(), name.as_bytes());
        assert_same(&rt, resource.capacity, 1);
        assert_same(&rt, resource.order, if i == 0 { 1 } else { 2 });
    }
    for (i, job_type) in cell.types.as_slice().iter().enumerate() {
        let name = if i == 0 { "A" } else { "Z" };
        assert_same(&rt, job_type.name.bytes(), name.as_bytes());
        for (k, step) in job_type.route.as_slice().iter().enumerate() {
            let on = if i == k { 0 } else { 1 };
            assert_same(&rt, step.on.0, on);
            assert!(rt; step.works);
        }
        for (k, next) in job_type.next.as_slice().iter().enumerate() {
            let wanted: &[u16] = if k == 0 { &[1] } else { &[] };
            assert_same(&rt, next.as_slice(), wanted);
        }
    }
    Ok(())
}

#[test]
fn reads_branches_and_a_held_step(rt: HostRuntime) -> Result<(), Fail> {
    let cell = read_cell(rt.alloc(), CELL_Y.as_bytes())?;
    assert_same(&rt, cell.types.len(), 1);
    for job_type in cell.types.as_slice() {
        for (k, step) in job_type.route.as_slice().iter().enumerate() {
            assert_same(&rt, step.works, k != 1);
        }
        for (k, next) in job_type.next.as_slice().iter().enumerate() {
            let successors: &[u16] = if k == 0 { &[1, 2] } else { &[] };
            assert_same(&rt, next.as_slice(), successors);
        }
    }
    Ok(())
}

// What is printed for the cell of a text, and for the cell that is read back from that.
fn printed_twice(alloc: Global, text: &[u8]) -> Result<(String, String), CellFault> {
    let cell = read_cell(alloc, text)?;
    let first = print_cell(alloc, &cell)?;
    let second = print_cell(alloc, &read_cell(alloc, first.as_bytes())?)?;
    Ok((first, second))
}

#[test]
fn prints_the_least_version(rt: HostRuntime) -> Result<(), Fail> {
    let cells: [(&[u8], &str); 3] = [
        (CROSSING, "version = 1\n"),
        (CELL_Y.as_bytes(), "version = 2\n"),
        (WORKSHOP.as_bytes(), "version = 1\n"),
    ];
    for (text, start) in cells {
        let (first, second) = printed_twice(rt.alloc(), text)?;
        assert!(rt; first.as_str().starts_with(start));
        assert_same(&rt, first.as_str(), second.as_str());
    }
    Ok(())
}
