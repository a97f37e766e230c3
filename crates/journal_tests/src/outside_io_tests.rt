//! What no clause says of the objects in memory: that their calls succeed with memory at hand, each once.
use crate::same::assert_same;
use cell_base::List;
use outside_io::{
    Disk, Failed, FileFail, Files, FreePace, MemFiles, MemSink, MemSource, NoSource, NullDisk,
    NullSink, Pace, Sink, Source, SureFiles,
};

#[test]
fn files_fail_at_listed_calls_and_absent_names(rt: HostRuntime) {
    let alloc = rt.alloc();
    let mut fails = List::new(alloc);
    fails.try_push(2).expect(&rt, "memory");
    let mut files = MemFiles::new(alloc, fails);
    files.add("cell", b"version").expect(&rt, "memory");
    let mut out = Vec::new(alloc);
    assert_same(&rt, files.read_file(alloc, "cell", 3, &mut out), Ok(()));
    assert_same(&rt, out.as_slice(), b"vers".as_slice());
    assert_same(
        &rt,
        files.read_file(alloc, "cell", 3, &mut out),
        Err(FileFail::Failed),
    );
    assert_same(&rt, files.read_file(alloc, "cell", 6, &mut out), Ok(()));
    assert_same(&rt, out.as_slice(), b"version".as_slice());
    assert_same(
        &rt,
        files.read_file(alloc, "none", 3, &mut out),
        Err(FileFail::Failed),
    );
    assert_same(&rt, out.len(), 0);
}

#[test]
fn sure_files_have_every_name(rt: HostRuntime) {
    let alloc = rt.alloc();
    let mut files = SureFiles::new(alloc);
    files.add("cell", b"old").expect(&rt, "memory");
    files.add("cell", b"version").expect(&rt, "memory");
    let mut out = Vec::new(alloc);
    assert_same(&rt, files.read_file(alloc, "cell", 65536, &mut out), Ok(()));
    assert_same(&rt, out.as_slice(), b"version".as_slice());
    assert_same(&rt, files.read_file(alloc, "none", 65536, &mut out), Ok(()));
    assert_same(&rt, out.len(), 0);
}

#[test]
fn a_sink_keeps_what_it_took(rt: HostRuntime) {
    let alloc = rt.alloc();
    let mut fails = List::new(alloc);
    fails.try_push(2).expect(&rt, "memory");
    let mut sink = MemSink::new(alloc, fails);
    assert_same(&rt, sink.put(b"a\n"), Ok(()));
    assert_same(&rt, sink.put(b"b\n"), Err(Failed));
    assert_same(&rt, sink.put(b"c\n"), Ok(()));
    assert_same(&rt, sink.bytes(), b"a\nc\n".as_slice());
    assert_same(&rt, sink.starved(), 0);
}

#[test]
fn a_source_gives_its_bytes_in_pieces(rt: HostRuntime) {
    let alloc = rt.alloc();
    let mut fails = List::new(alloc);
    fails.try_push(2).expect(&rt, "memory");
    let mut source = MemSource::new(alloc, b"abcde", 2, fails).expect(&rt, "memory");
    let mut room = [0u8; 4];
    for (wanted, now) in [
        (Ok(2), b"ab\0\0"),
        (Err(Failed), b"ab\0\0"),
        (Ok(2), b"cd\0\0"),
        (Ok(1), b"ed\0\0"),
        (Ok(0), b"ed\0\0"),
    ] {
        assert_same(&rt, source.next_piece(&mut room), wanted);
        assert_same(&rt, room.as_slice(), now.as_slice());
    }
    assert_same(&rt, NoSource.next_piece(&mut room), Ok(0));
}

#[test]
fn the_rest_takes_everything_and_keeps_nothing(rt: HostRuntime) {
    let mut disk = NullDisk;
    let mut bytes = [];
    FreePace.turn(&rt, 1, 0);
    assert_same(&rt, NullSink.put(b"a\n"), Ok(()));
    assert_same(&rt, disk.write_at(0, b"a"), Ok(()));
    assert_same(&rt, disk.read_at(0, &mut bytes), Ok(()));
    assert_same(&rt, disk.sync(), Ok(()));
    assert_same(&rt, disk.len(), Ok(0));
}
