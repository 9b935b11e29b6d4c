//! Tests of lists of strings, as vectors and as slices.
use crate::encoding::values::{is_spelled, is_written};
use ssh_encoding::*;
use std::alloc::Global;
use std::test::Fail;

/// Returns true if a list of one string is written as the string `a` and its length.
fn is_a<T: Rfc4251String + Drop>(alloc: Global, item: T) -> std::result::Result<bool, Fail> {
    let mut list = Vec::new(alloc);
    list.push(item)?;
    let bytes = b"\0\0\0\x05\0\0\0\x01a";
    Ok(is_written(alloc, &list, bytes)? && is_written(alloc, &list.as_slice(), bytes)?)
}

#[test]
fn lent_strings(rt: HostRuntime) -> std::result::Result<(), Fail> {
    assert!(rt; is_a(rt.alloc(), "a")? && is_a(rt.alloc(), b"a".as_slice())?);
    Ok(())
}

#[test]
fn several_texts(rt: HostRuntime) -> std::result::Result<(), Fail> {
    round_trip::<Vec<String>>();
    one_spelling::<Vec<String>>();
    let bytes = b"\0\0\0\x15\0\0\0\x03foo\0\0\0\x03bar\0\0\0\x03baz";
    assert!(rt; is_spelled::<Vec<String>>(rt.alloc(), bytes)?);
    Ok(())
}
