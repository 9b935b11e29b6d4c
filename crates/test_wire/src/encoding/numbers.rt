//! Tests of whole numbers of any size: the examples of RFC 4251, section 5.
use crate::encoding::values::is_spelled;
use ssh_encoding::*;
use std::alloc::Global;
use std::boxed::BoxedSlice;
use std::fmt;
use std::test::Fail;

/// Returns true if each constructor of a number accepts canonical bytes.
fn is_taken(alloc: Global, bytes: &[u8]) -> std::result::Result<bool, Fail> {
    let number = Mpint::from_bytes(alloc, bytes)?;
    Ok(
        number.as_bytes() == bytes
            && Mpint::try_from_slice(alloc, bytes)? == number
            && Mpint::try_from(BoxedSlice::from_slice(alloc, bytes)?)? == number,
    )
}

#[test]
fn examples(rt: HostRuntime) -> std::result::Result<(), Fail> {
    for bytes in [
        b"\0\0\0\0".as_slice(),
        b"\0\0\0\x08\x09\xa3\x78\xf9\xb2\xe3\x32\xa7",
        b"\0\0\0\x02\0\x80",
        b"\0\0\0\x02\xed\xcc",
        b"\0\0\0\x05\xff\x21\x52\x41\x11",
    ] {
        assert!(rt; is_spelled::<Mpint>(rt.alloc(), bytes)?);
    }
    assert!(rt; is_taken(rt.alloc(), b"\xed\xcc")?);
    Ok(())
}

/// Checks bytes without a sign.
#[test]
fn number_above_zero(rt: HostRuntime) -> std::result::Result<(), Fail> {
    let number = Mpint::from_positive_bytes(rt.alloc(), b"\x80")?;
    assert!(rt; number.as_bytes() == b"\0\x80".as_slice());
    Ok(())
}

/// A number by its upper-case digits.
#[derive(Drop)]
struct Upper<'a>(&'a Mpint);

impl fmt::Display for Upper<'_> {
    fn fmt<W: fmt::Write>(&self, f: &mut fmt::Formatter<W>) -> fmt::Result {
        fmt::UpperHex::fmt(self.0, f)
    }
}

/// A number by its lower-case digits.
#[derive(Drop)]
struct Lower<'a>(&'a Mpint);

impl fmt::Display for Lower<'_> {
    fn fmt<W: fmt::Write>(&self, f: &mut fmt::Formatter<W>) -> fmt::Result {
        fmt::LowerHex::fmt(self.0, f)
    }
}

#[test]
fn digits(rt: HostRuntime) -> std::result::Result<(), Fail> {
    let number = Mpint::from_bytes(rt.alloc(), b"\x09\xa3\x0f")?;
    let text = format!(in rt.alloc(); "{number} {} {} {number:?}", Upper(&number), Lower(&number))?;
    assert!(rt; text.as_str() == "09A30F 09A30F 09a30f Mpint(09A30F)");
    Ok(())
}
