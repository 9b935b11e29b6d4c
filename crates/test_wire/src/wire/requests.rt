//! Tests of requests as bytes and back. The bytes follow draft-ietf-secsh-filexfer-02, sections 3 to 6 and 8, and
//! OpenSSH's PROTOCOL, section 4.
use sftp_wire::*;
use std::alloc::Global;
use std::test::Fail;

/// Frames with the id 7, which the hello lacks.
const FRAMES: [&[u8]; 25] = [
    // the hello, version 3
    b"\0\0\0\x05\x01\0\0\0\x03",
    // OPEN of `a` to write and create, with all attributes
    b"\0\0\0\x2e\x03\0\0\0\x07\0\0\0\x01a\0\0\0\x0a\0\0\0\x0f\0\0\0\0\0\0\0\x05\0\0\0\x01\0\0\0\x02\0\0\x81\xa4\0\0\0\x03\0\0\0\x04",
    // CLOSE
    b"\0\0\0\x0d\x04\0\0\0\x07\0\0\0\x04\0\0\0\x01",
    // READ of 3 bytes at 258
    b"\0\0\0\x19\x05\0\0\0\x07\0\0\0\x04\0\0\0\x01\0\0\0\0\0\0\x01\x02\0\0\0\x03",
    // WRITE of `hello` at 258
    b"\0\0\0\x1e\x06\0\0\0\x07\0\0\0\x04\0\0\0\x01\0\0\0\0\0\0\x01\x02\0\0\0\x05hello",
    // LSTAT
    b"\0\0\0\x0a\x07\0\0\0\x07\0\0\0\x01a",
    // FSTAT
    b"\0\0\0\x0d\x08\0\0\0\x07\0\0\0\x04\0\0\0\x01",
    // SETSTAT of all attributes
    b"\0\0\0\x2a\x09\0\0\0\x07\0\0\0\x01a\0\0\0\x0f\0\0\0\0\0\0\0\x05\0\0\0\x01\0\0\0\x02\0\0\x81\xa4\0\0\0\x03\0\0\0\x04",
    // FSETSTAT of none
    b"\0\0\0\x11\x0a\0\0\0\x07\0\0\0\x04\0\0\0\x01\0\0\0\0",
    // OPENDIR
    b"\0\0\0\x0a\x0b\0\0\0\x07\0\0\0\x01a",
    // READDIR
    b"\0\0\0\x0d\x0c\0\0\0\x07\0\0\0\x04\0\0\0\x01",
    // REMOVE
    b"\0\0\0\x0a\x0d\0\0\0\x07\0\0\0\x01a",
    // MKDIR
    b"\0\0\0\x0e\x0e\0\0\0\x07\0\0\0\x01a\0\0\0\0",
    // RMDIR
    b"\0\0\0\x0a\x0f\0\0\0\x07\0\0\0\x01a",
    // REALPATH
    b"\0\0\0\x0a\x10\0\0\0\x07\0\0\0\x01a",
    // STAT
    b"\0\0\0\x0a\x11\0\0\0\x07\0\0\0\x01a",
    // RENAME of `a` to `b`
    b"\0\0\0\x0f\x12\0\0\0\x07\0\0\0\x01a\0\0\0\x01b",
    // READLINK
    b"\0\0\0\x0a\x13\0\0\0\x07\0\0\0\x01a",
    // SYMLINK: the target `a`, and the link `b`
    b"\0\0\0\x0f\x14\0\0\0\x07\0\0\0\x01a\0\0\0\x01b",
    // the six extensions
    b"\0\0\0\x2b\xc8\0\0\0\x07\0\0\0\x18posix-rename@openssh.com\0\0\0\x01a\0\0\0\x01b",
    b"\0\0\0\x27\xc8\0\0\0\x07\0\0\0\x14hardlink@openssh.com\0\0\0\x01a\0\0\0\x01b",
    b"\0\0\0\x22\xc8\0\0\0\x07\0\0\0\x11fsync@openssh.com\0\0\0\x04\0\0\0\x01",
    b"\0\0\0\x25\xc8\0\0\0\x07\0\0\0\x17expand-path@openssh.com\0\0\0\x01a",
    b"\0\0\0\x37\xc8\0\0\0\x07\0\0\0\x09copy-data\0\0\0\x04\0\0\0\x01\0\0\0\0\0\0\0\x02\0\0\0\0\0\0\0\x03\0\0\0\x01\x04\0\0\0\0\0\0\0\x05",
    b"\0\0\0\x1b\xc8\0\0\0\x07\0\0\0\x12limits@openssh.com",
];

fn written(alloc: Global, request: &Request) -> Result<Vec<u8>, Fail> {
    let mut out = Vec::new(alloc);
    match request_len(request) {
        Some(_) => write_request(request, 7, &mut out)?,
        None => return Err("the request is too long".into()),
    }
    Ok(out)
}

fn is_written(alloc: Global, request: &Request, frame: &[u8]) -> Result<bool, Fail> {
    Ok(written(alloc, request)?.as_slice() == frame)
}

/// Returns true if the request that a frame carries is written as the frame.
fn is_spelled(alloc: Global, frame: &[u8]) -> Result<bool, Fail> {
    let body = frame.get(4..).ok_or("no length")?;
    let (_id, request) = read_request(alloc, body)?;
    is_written(alloc, &request, frame)
}

#[test]
fn every_request(rt: HostRuntime) -> Result<(), Fail> {
    for frame in FRAMES {
        assert!(rt; is_spelled(rt.alloc(), frame)?);
    }
    Ok(())
}

/// Returns true if the head of the frame is its bytes before the content.
fn begins(alloc: Global, request: &Request, head: &[u8]) -> Result<bool, Fail> {
    let mut out = Vec::new(alloc);
    match request_len(request) {
        Some(_) => write_request_head(request, 7, &mut out)?,
        None => return Err("the request is too long".into()),
    }
    Ok(out.as_slice() == head)
}

/// Checks the frame of a WRITE without its 5 bytes of content.
#[test]
fn head_of_write(rt: HostRuntime) -> Result<(), Fail> {
    let body = FRAMES[4].get(4..).ok_or("no length")?;
    let head = FRAMES[4].get(..29).ok_or("no content")?;
    let (_id, request) = read_request(rt.alloc(), body)?;
    assert!(rt; begins(rt.alloc(), &request, head)?);
    Ok(())
}
