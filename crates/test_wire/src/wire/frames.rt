//! Tests of frames that come in pieces, and of bodies without a frame.
use sftp_wire::*;
use std::test::Fail;

/// Returns true if a reader that receives at most `most` bytes at once has the body of a frame in the end.
fn takes(reader: &mut FrameReader, frame: &[u8], most: usize) -> Result<bool, Fail> {
    let mut rest = frame;
    for _ in 0..frame.len() {
        let (piece, later) = rest.split_at(reader.need().min(rest.len()).min(most));
        reader.push(piece)?;
        rest = later;
    }
    Ok(reader.frame() == frame.get(4..))
}

/// Checks a CLOSE in pieces of three bytes at most.
#[test]
fn pieces(rt: HostRuntime) -> Result<(), Fail> {
    let mut reader = FrameReader::new(rt.alloc());
    assert!(rt;
        takes(
            &mut reader,
            b"\0\0\0\x0d\x04\0\0\0\x01\0\0\0\x04\0\0\0\0",
            3
        )?
    );
    Ok(())
}

/// Returns true if a reader whose memory is reserved before each piece has the body of a frame after its length and its
/// body.
fn takes_reserved(reader: &mut FrameReader, frame: &[u8]) -> Result<bool, Fail> {
    let mut rest = frame;
    for _ in 0..2 {
        let (piece, later) = rest.split_at(reader.need().min(rest.len()));
        let memory = reader.reserve()?;
        if reader.push_reserved(memory, piece).is_err() {
            return Ok(false);
        }
        rest = later;
    }
    Ok(reader.frame() == frame.get(4..))
}

/// Checks the hello in two pieces for which memory was reserved.
#[test]
fn reserved(rt: HostRuntime) -> Result<(), Fail> {
    let mut reader = FrameReader::new(rt.alloc());
    let taken = takes_reserved(&mut reader, b"\0\0\0\x05\x01\0\0\0\x03")?;
    reader.clear();
    assert!(rt; taken && reader.is_empty());
    Ok(())
}

fn no_attrs() -> FileAttrs {
    FileAttrs {
        size: None,
        id: None,
        permissions: None,
        time: None,
    }
}

/// Checks the bodies of a request and of a reply, after bytes that stay.
#[test]
fn bodies(rt: HostRuntime) -> Result<(), Fail> {
    let mut out = Vec::from_slice(rt.alloc(), b"ab")?;
    write_body(Message::Request(&Request::Init { version: 3 }), 2, &mut out)?;
    write_body(Message::Reply(&Reply::Attrs(no_attrs())), 2, &mut out)?;
    assert!(rt; out.as_slice() == b"ab\x01\0\0\0\x03\x69\0\0\0\x02\0\0\0\0".as_slice());
    Ok(())
}
