//! That a cell and its passes may go to threads wherever the disk may.
use cell_lock::{Pass, SharedCell};
use outside_io::{Disk, MemDisk};

fn may_go<T: Send>() {}

fn may_be_shared<T: Sync>() {}

fn go_where_the_disk_goes<D: Disk + Send>() {
    may_go::<SharedCell<D>>();
    may_be_shared::<SharedCell<D>>();
    may_go::<Pass<D>>();
}

#[test]
fn a_disk_in_memory_goes_to_threads() {
    go_where_the_disk_goes::<MemDisk>();
}
