//! Tests of each type in both directions, with bytes from RFC 4251, section 5, and by hand.
use bytes::Bytes;
use ssh_encoding::*;
use std::alloc::Global;
use std::test::Fail;

const EXAMPLE: &[u8] = b"\0\0\0\x07example";

/// Returns the value that bytes spell.
pub(crate) fn read<T: Decode<Error = Error> + Drop>(
    alloc: Global,
    bytes: &[u8],
) -> std::result::Result<T, Fail> {
    let mut reader = bytes;
    let value = decode_exact::<T, &[u8]>(alloc, &mut reader)?;
    Ok(reader.finish(value)?)
}

/// Returns true if a value is written as these bytes, also after its length.
fn is_prefixed<T: Encode>(
    alloc: Global,
    value: &T,
    bytes: &[u8],
) -> std::result::Result<bool, Fail> {
    let mut out = Vec::new(alloc);
    value.encode_prefixed(&mut out)?;
    Ok(out.len() == value.encoded_len_prefixed()? && out.get(4..) == Some(bytes))
}

/// Returns true if a value is written as these bytes, by each of the ways to write.
pub(crate) fn is_written<T: Encode>(
    alloc: Global,
    value: &T,
    bytes: &[u8],
) -> std::result::Result<bool, Fail> {
    Ok(
        value.encode_vec(alloc)?.as_slice() == bytes
            && value.encode_bytes(alloc)?.as_slice() == bytes
            && value.encoded_len()? == bytes.len()
            && is_prefixed(alloc, value, bytes)?,
    )
}

/// Returns true if the value that bytes spell is written as them.
pub(crate) fn is_spelled<T: Decode<Error = Error> + Encode + Drop>(
    alloc: Global,
    bytes: &[u8],
) -> std::result::Result<bool, Fail> {
    let value = read::<T>(alloc, bytes)?;
    is_written(alloc, &value, bytes)
}

#[test]
fn numbers(rt: HostRuntime) -> std::result::Result<(), Fail> {
    let alloc = rt.alloc();
    let all = is_spelled::<u8>(alloc, b"\x42")?
        && is_spelled::<bool>(alloc, b"\x01")?
        && is_spelled::<u32>(alloc, b"\x29\xb7\xf4\xaa")?
        && is_spelled::<u64>(alloc, b"\0\0\xde\xad\xbe\xef\xca\xfe")?
        && is_spelled::<[u8; 7]>(alloc, b"example")?
        && read::<u32>(alloc, b"\x29\xb7\xf4\xaa")? == 699921578
        && read::<bool>(alloc, b"\xff")?;
    assert!(rt; all);
    Ok(())
}

#[test]
fn strings(rt: HostRuntime) -> std::result::Result<(), Fail> {
    let alloc = rt.alloc();
    assert!(rt; is_spelled::<Bytes>(alloc, EXAMPLE)? && is_spelled::<String>(alloc, EXAMPLE)?);
    Ok(())
}
