//! That a put is torn.
use outside_io::Sink;
use test_fixtures::TornSink;

#[test]
fn a_put_after_the_whole_ones_is_torn(rt: HostRuntime) {
    let mut out = TornSink::new(rt.alloc(), 1);
    assert!(rt; out.put(b"whole\n").is_ok());
    assert!(rt; out.put(b"torn\n").is_err());
    assert!(rt; out.bytes() == b"whole\nto".as_slice());
}
