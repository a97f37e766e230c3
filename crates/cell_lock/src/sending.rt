//! Where a lock and its passes may go.
use crate::{Pass, SharedCell};
use durable_cell::Recall;
use outside_io::Disk;

fn may_go<T: Send>() {}

fn may_be_shared<T: Sync>() {}

// Proved for what it asks: a lock may go to other threads and be shared by them, and its passes may go, wherever the disk may.
fn go_where_the_disk_goes<D: Disk + Send, G: Recall + Send>() {
    may_go::<SharedCell<D, G>>();
    may_be_shared::<SharedCell<D, G>>();
    may_go::<Pass<D, G>>();
}
