//! Tests of replies as bytes and back. The bytes follow draft-ietf-secsh-filexfer-02, sections 3 to 5 and 7, and
//! OpenSSH's PROTOCOL, section 4.
use sftp_wire::*;
use std::alloc::Global;
use std::test::Fail;

/// Frames with the id 2, which VERSION lacks.
const FRAMES: [&[u8]; 8] = [
    // VERSION 3 with `limits@openssh.com`
    b"\0\0\0\x20\x02\0\0\0\x03\0\0\0\x12limits@openssh.com\0\0\0\x011",
    // VERSION 3 with two extensions
    b"\0\0\0\x38\x02\0\0\0\x03\0\0\0\x18posix-rename@openssh.com\0\0\0\x011\0\0\0\x09copy-data\0\0\0\x011",
    // STATUS 4
    b"\0\0\0\x15\x65\0\0\0\x02\0\0\0\x04\0\0\0\x02no\0\0\0\x02en",
    // HANDLE
    b"\0\0\0\x0d\x66\0\0\0\x02\0\0\0\x04\0\0\0\x01",
    // DATA
    b"\0\0\0\x0e\x67\0\0\0\x02\0\0\0\x05hello",
    // NAME of two entries, the second with all attributes
    b"\0\0\0\x45\x68\0\0\0\x02\0\0\0\x02\0\0\0\x01a\0\0\0\x06long a\0\0\0\0\0\0\0\x01b\0\0\0\0\0\0\0\x0f\0\0\0\0\0\0\0\x05\0\0\0\x01\0\0\0\x02\0\0\x81\xa4\0\0\0\x03\0\0\0\x04",
    // ATTRS with all attributes
    b"\0\0\0\x25\x69\0\0\0\x02\0\0\0\x0f\0\0\0\0\0\0\0\x05\0\0\0\x01\0\0\0\x02\0\0\x81\xa4\0\0\0\x03\0\0\0\x04",
    // EXTENDED_REPLY
    b"\0\0\0\x08\xc9\0\0\0\x02any",
];

fn is_written(alloc: Global, reply: &Reply, frame: &[u8]) -> Result<bool, Fail> {
    let mut out = Vec::new(alloc);
    write_reply(reply, 2, &mut out)?;
    Ok(out.as_slice() == frame)
}

/// Returns true if the reply that a frame carries is written as the frame.
fn is_spelled(alloc: Global, frame: &[u8]) -> Result<bool, Fail> {
    let body = frame.get(4..).ok_or("no length")?;
    let (_id, reply) = read_reply(alloc, body)?;
    is_written(alloc, &reply, frame)
}

#[test]
fn every_reply(rt: HostRuntime) -> Result<(), Fail> {
    for frame in FRAMES {
        assert!(rt; is_spelled(rt.alloc(), frame)?);
    }
    Ok(())
}

/// Checks the content of the reply to the query for limits: four numbers (OpenSSH's PROTOCOL, section 4.8).
#[test]
fn limits(rt: HostRuntime) -> Result<(), Fail> {
    let content =
        b"\0\0\0\0\0\0\0\x01\0\0\0\0\0\0\0\x02\0\0\0\0\0\0\0\x03\xff\xff\xff\xff\xff\xff\xff\xff";
    let limits = Limits {
        packet_len: 1,
        read_len: 2,
        write_len: 3,
        open_handles: u64::MAX,
    };
    assert!(rt; read_limits(rt.alloc(), content) == Ok(limits));
    Ok(())
}
