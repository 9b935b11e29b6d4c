//! The text of a refusal by the server.
use crate::numbers;
use sftp_values::ByteText;
use std::fmt;
use std::fmt::Write;

/// Returns the meaning of a status (draft-ietf-secsh-filexfer-02, section 7).
fn meaning(code: u32) -> &'static str {
    match code {
        numbers::SSH_FX_EOF => "end of file",
        numbers::SSH_FX_NO_SUCH_FILE => "no such file",
        numbers::SSH_FX_PERMISSION_DENIED => "permission denied",
        numbers::SSH_FX_FAILURE => "failure",
        numbers::SSH_FX_BAD_MESSAGE => "bad message",
        numbers::SSH_FX_NO_CONNECTION => "no connection",
        numbers::SSH_FX_CONNECTION_LOST => "connection lost",
        numbers::SSH_FX_OP_UNSUPPORTED => "operation unsupported",
        _ => "unknown status",
    }
}

/// Writes the meaning of a refusal and its code, and the server's message if it says more. What the server wrote is
/// escaped, so that it changes nothing on a terminal.
pub(crate) fn write_refusal<W: Write>(
    code: &u32,
    message: &ByteText,
    language: &ByteText,
    f: &mut fmt::Formatter<W>,
) -> fmt::Result {
    let _ = language;
    let meaning = meaning(*code);
    write!(
        f,
        "the server refused the request: {meaning} (status {code})"
    )?;
    let message = message.as_slice();
    if message.is_empty() || message.eq_ignore_ascii_case(meaning.as_bytes()) {
        return Ok(());
    }
    match str::from_utf8(message) {
        Ok(text) => write!(f, ": {text:?}"),
        Err(_) => write!(f, ": \"{}\"", message.escape_ascii()),
    }
}
