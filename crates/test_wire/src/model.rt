//! Tests of copies, contents and paths of the model, and of the texts of its errors.
use bitflags::Flags;
use bytes::Bytes;
use sftp_model::*;
use sftp_values::{ByteText, Same, is_same};
use std::alloc::Global;
use std::test::Fail;

fn text(alloc: Global, bytes: &[u8]) -> Result<ByteText, Fail> {
    Ok(ByteText::new(Vec::from_slice(alloc, bytes)?))
}

fn path(alloc: Global, bytes: &[u8]) -> Result<RemotePath, Fail> {
    Ok(RemotePath::new(Vec::from_slice(alloc, bytes)?))
}

/// Returns true if a copy by the trait's bound equals its source.
fn is_copied<T: TryCopy + Same + Drop>(alloc: Global, value: &T) -> Result<bool, Fail> {
    Ok(is_same(&value.try_copy(alloc)?, value))
}

#[test]
fn copy_of_bytes(rt: HostRuntime) -> Result<(), Fail> {
    let text = text(rt.alloc(), b"text")?;
    assert!(rt; is_copied(rt.alloc(), &text)?);
    Ok(())
}

/// Checks that bytes in two pieces equal the same bytes in one.
#[test]
fn contents(rt: HostRuntime) -> Result<(), Fail> {
    let mut content = Content::new(rt.alloc());
    content.push(Bytes::from_static(b"hel"))?;
    content.push(Bytes::from_static(b"lo"))?;
    let mut whole = Content::new(rt.alloc());
    whole.push(Bytes::from_static(b"hello"))?;
    assert!(rt; whole == content);
    Ok(())
}

/// Returns an error of a refusal with its message.
fn refusal(alloc: Global) -> Result<Error, Fail> {
    Ok(Error::SftpError {
        code: 2,
        message: text(alloc, b"no")?,
        language: text(alloc, b"en")?,
    })
}

fn joins(alloc: Global, directory: &[u8], name: &[u8], joined: &[u8]) -> Result<bool, Fail> {
    Ok(path(alloc, directory)?.join(alloc, name)?.as_bytes() == joined)
}

#[test]
fn paths_are_joined(rt: HostRuntime) -> Result<(), Fail> {
    let rows: [(&[u8], &[u8], &[u8]); 3] = [
        (b"/x", b"a", b"/x/a"),
        (b"/x/", b"a", b"/x/a"),
        (b"/x", b"/a", b"/a"),
    ];
    for (directory, name, joined) in rows {
        assert!(rt; joins(rt.alloc(), directory, name, joined)?);
    }
    Ok(())
}

fn is_text(alloc: Global, error: &Error, text: &str) -> Result<bool, Fail> {
    Ok(format!(in alloc; "{error}")?.as_str() == text)
}

fn shows(alloc: Global, error: Error, text: &str) -> Result<bool, Fail> {
    is_text(alloc, &error, text)
}

#[test]
fn texts_of_errors(rt: HostRuntime) -> Result<(), Fail> {
    let alloc = rt.alloc();
    let all = shows(
        alloc,
        Error::InvalidResponseId { id: 7 },
        "a reply has the id 7, which no unanswered request has",
    )? && shows(
        alloc,
        Error::FormatError(FormatKind::TrailingData { remaining: 3 }),
        "3 bytes follow the last field of a frame",
    )? && shows(
        alloc,
        Error::BackgroundTaskFailure(Fault::Protocol { version: 2 }),
        "the session failed earlier: the server speaks version 2 of the protocol, and only 3 is supported",
    )? && shows(
        alloc,
        Error::IOError(IoKind::PathTooLong),
        "the path is too long for a frame",
    )? && shows(
        alloc,
        refusal(alloc)?,
        "the server refused the request: no such file (status 2): \"no\"",
    )?;
    assert!(rt; all);
    Ok(())
}

#[test]
fn texts_of_frame_errors(rt: HostRuntime) -> Result<(), Fail> {
    let text = format!(in rt.alloc(); "{}", FrameError::HandleTooLong { len: 257 })?;
    assert!(rt; text.as_str() == "a handle has 257 bytes, and at most 256 are allowed");
    Ok(())
}

/// Returns the options of these letters: read, write, append, truncate, create, create_new.
fn options(letters: &str) -> OpenOptions {
    let mut options = OpenOptions::default();
    for letter in letters.bytes() {
        let _ = match letter {
            b'r' => options.read(true),
            b'w' => options.write(true),
            b'a' => options.append(true),
            b't' => options.truncate(true),
            b'c' => options.create(true),
            _ => options.create_new(true),
        };
    }
    options
}

/// Checks the flags of an OPEN by the draft's section 6.3.
#[test]
fn flags(rt: HostRuntime) {
    let rows = [
        ("", 0),
        ("r", 1),
        ("w", 2),
        ("a", 2 + 4),
        ("rwa", 1 + 2 + 4),
        ("t", 0),
        ("wt", 2),
        ("wc", 2 + 8),
        ("wtc", 2 + 8 + 16),
        ("wn", 2 + 8 + 32),
        ("wtcn", 2 + 8 + 32),
    ];
    for (letters, bits) in rows {
        assert!(rt; options(letters).flags().bits() == bits, "at {letters}");
    }
}
