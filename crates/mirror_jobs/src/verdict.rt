//! The results of files to copy.
use sftp_model::Error;
use sftp_values::ByteText;

/// The result of a file to copy.
///
/// Used in `crates/mirror_jobs/src/verdicts.rt`.
#[derive(Debug, Drop, PartialEq, Eq)]
pub enum Verdict {
    /// One of its calls was refused; this is the first refusal.
    Refused(Error),
    /// A call reached its bound on READs.
    GivenUp,
    /// The bytes read back differ from those written.
    Differs,
    /// It was written, and read back as it was written.
    Copied,
    /// The bytes that were read.
    Got(ByteText),
}
