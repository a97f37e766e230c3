//! That the cells fit.
use cell_base::cell_fits;
use test_fixtures::{cell_of_one, crossing};

#[test]
fn the_cells_fit(rt: HostRuntime) {
    assert!(rt; cell_fits(&cell_of_one(rt.alloc()).expect(&rt, "memory")));
    assert!(rt; cell_fits(&crossing(rt.alloc()).expect(&rt, "memory")));
}
