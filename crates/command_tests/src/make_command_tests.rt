//! That memory is had, and the lines of a number.
use crate::same::assert_same;
use cell_walks::Status;
use lists::List;
use make_command::run_make;
use outside_io::{MemFiles, MemSink, NullDisk};
use std::test::Fail;

#[test]
fn one_is_told_in_four_lines(rt: HostRuntime) -> Result<(), Fail> {
    let alloc = rt.alloc();
    let files = MemFiles::new(alloc, List::new(alloc));
    let mut out = MemSink::new(alloc, List::new(alloc));
    let ended = run_make(
        alloc,
        &files,
        &mut out,
        "1",
        b"usage: make NUMBER\n",
        NullDisk,
    );
    assert_same(&rt, ended.status, Status::Done);
    assert_same(
        &rt,
        out.bytes(),
        b"make 1\nresources 16 types 8 sessions 64 steps 491\ngranted 491 refused 2081\nleft 0 plan 0\n".as_slice(),
    );
    Ok(())
}
