//! Tests of the examples.
use crate::{read_host, through_bytes, write_host};
use sftp_model::Request;
use std::test::Fail;

/// Checks that a host is read as it was written.
#[test]
fn a_host(rt: HostRuntime) -> Result<(), Fail> {
    let mut bytes = Vec::new(rt.alloc());
    write_host(&String::from_str(rt.alloc(), "localhost")?, 22, &mut bytes)?;
    assert_eq!(rt;
        bytes.as_slice(),
        b"\0\0\0\x09localhost\0\0\0\x16".as_slice()
    );
    let (name, port) = read_host(rt.alloc(), &bytes)?;
    assert_eq!(rt; (name.as_str(), port), ("localhost", 22));
    Ok(())
}

/// Checks that a hello is read as it was written.
#[test]
fn a_hello(rt: HostRuntime) -> Result<(), Fail> {
    let read = through_bytes(rt.alloc(), &Request::Init { version: 3 }, 0)?;
    assert!(rt; read == Request::Init { version: 3 });
    Ok(())
}
