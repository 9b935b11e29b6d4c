//! Tests of the texts of errors.
use ssh_encoding::*;
use std::alloc::Global;
use std::test::Fail;

fn is_text(alloc: Global, error: &Error, text: &str) -> std::result::Result<bool, Fail> {
    Ok(format!(in alloc; "{error}")?.as_str() == text)
}

fn shows(alloc: Global, error: Error, text: &str) -> std::result::Result<bool, Fail> {
    is_text(alloc, &error, text)
}

#[test]
fn texts(rt: HostRuntime) -> std::result::Result<(), Fail> {
    let alloc = rt.alloc();
    let all = shows(
        alloc,
        Error::CharacterEncoding,
        "character encoding invalid",
    )? && shows(alloc, Error::Length, "length invalid")?
        && shows(alloc, Error::MpintEncoding, "`mpint` encoding invalid")?
        && shows(alloc, Error::Overflow, "internal overflow error")?
        && shows(
            alloc,
            Error::TrailingData { remaining: 3 },
            "unexpected trailing data at end of message (3 bytes)",
        )?
        && shows(
            alloc,
            Error::InvalidDiscriminant(7),
            "invalid discriminant value: 7",
        )?
        && shows(alloc, Error::OutOfMemory, "out of memory")?
        && shows(
            alloc,
            Error::Label(LabelError::new(alloc, "L")?),
            "invalid label: 'L'",
        )?;
    assert!(rt; all);
    Ok(())
}
