//! An action of a plan.
use sftp_values::ByteText;

/// The operation of an action.
///
/// Example: `crates/sftp_transfer/src/planned.rt`.
#[derive(Debug, Drop)]
pub enum Step {
    /// Removes a file, a symbolic link or anything else that is no directory.
    RemoveFile,
    /// Removes a directory, which is empty by then.
    RemoveDirectory,
    /// Creates a directory.
    MakeDirectory,
    /// Copies a file with its permissions and times. A file that exists is replaced.
    CopyFile,
    /// Creates a symbolic link with this text. A symbolic link that exists is replaced.
    MakeLink(ByteText),
    /// Sets permissions and times.
    SetAttributes,
}

/// An action of a plan.
///
/// Example: `crates/sftp_transfer/src/planned.rt`.
#[derive(Debug, Drop)]
pub struct Action {
    /// The operation.
    pub step: Step,
    /// The path below the root of the target.
    pub path: ByteText,
}
