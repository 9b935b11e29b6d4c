//! Tests of the calls of a reader at slices.
use ssh_encoding::*;
use std::test::Fail;

#[test]
fn prefixed(rt: HostRuntime) {
    let alloc = rt.alloc();
    let mut reader = b"\0\0\0\x03\x01\x02\x03\x04".as_slice();
    let one: Result<u8> = reader.read_prefixed(|r: &mut &[u8]| u8::decode(alloc, r));
    assert!(rt; one == Ok(1));
    assert!(rt; reader == b"\x04".as_slice());
}

#[test]
fn buffers(rt: HostRuntime) {
    let mut buf = [0u8; 4];
    let mut reader = b"abcd\0\0\0\x02hi\0\0\0\x02hi\0\0\0\x02hi\0".as_slice();
    assert!(rt; reader.read(&mut buf) == Ok(b"abcd"));
    assert!(rt; reader.read_byten(&mut buf) == Ok(b"hi"));
    assert!(rt; reader.read_string(&mut buf) == Ok("hi"));
    assert!(rt; reader.drain_prefixed() == Ok(2));
    assert!(rt; reader.finish(7) == Err(Error::TrailingData { remaining: 1 }));
}
