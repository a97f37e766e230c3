//! Each object of this crate may go to another thread, and be shared by threads. Nothing here is called: the check proves the bounds.
use crate::{
    FreePace, MemDisk, MemFiles, MemSink, MemSource, NoSource, NullDisk, NullSink, SureFiles,
};

fn may_go_and_be_shared<T: Send + Sync>() {}

fn objects_may_go_and_be_shared() {
    may_go_and_be_shared::<MemFiles>();
    may_go_and_be_shared::<SureFiles>();
    may_go_and_be_shared::<MemSource>();
    may_go_and_be_shared::<NoSource>();
    may_go_and_be_shared::<MemSink>();
    may_go_and_be_shared::<NullSink>();
    may_go_and_be_shared::<MemDisk>();
    may_go_and_be_shared::<NullDisk>();
    may_go_and_be_shared::<FreePace>();
}
