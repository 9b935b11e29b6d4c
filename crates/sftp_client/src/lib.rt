//! A client of SFTP version 3 (draft-ietf-secsh-filexfer-02) over any link, without `async` and without threads of its
//! own. The contract of a call says what it returns, when each error comes, and what is unchanged after it.
//!
//! # The first program
//!
//! It connects to a server that listens at a Unix socket, writes a file, reads its first bytes and lists a directory.
//! `crates/example_client/src/first.rt` and its `main.rt` are the same program, proved.
//!
//! ```text
//! let link = UnixDial::new(rt).dial("sftp.socket")?;               // of `sftp_link`
//! let mut sftp = Sftp::new(rt.alloc(), link, &SftpOptions::new())?;
//! sftp.write_file(b"notes.txt", b"buy milk\n")?;
//! let mut file = sftp.open(b"notes.txt")?;
//! match sftp.read(&mut file, 4096) {                               // at most 4096 bytes
//!     Ok(start) => {
//!         sftp.close_file(file)?;
//!         let entries = sftp.read_dir(b".")?;
//!         Ok((start, entries))
//!     }
//!     Err(e) => {
//!         sftp.release_file(file);                                 // a file cannot be dropped
//!         Err(e)
//!     }
//! }
//! ```
//!
//! # Calls
//!
//! - On paths: `metadata`, `set_metadata`, `set_permissions`, `create_dir`, `create_dir_all`, `remove_dir`,
//!   `remove_file`, `rename`, `symlink`, `hard_link`, `read_link`, `canonicalize`, `read_file`, `write_file`,
//!   `read_dir` and their like are methods of `Sftp`, each of which sends its request and waits for the reply.
//! - On files: `open`, `create`, `read`, `write_all`, `copy`, `close_file`, `release_file`.
//! - Many calls in flight: a `start_` call of `Fs` or `File` submits a request and returns a state; `flush` and `take`
//!   move the frames, and `poll`, `wait` or `finish` return the result.
//!
//! docs/GUIDE.md has a section for each, with errors, streams, threads and running out of memory.
#![tactic(auto)]

mod dir_paths;
mod incoming;
mod outgoing;
mod sftp;
mod walk_entries;
mod walk_entry;

pub use plan_state::{Alone, PendingCall, PlanRunner, Poll};
pub use sftp::Sftp;
pub use sftp_core::{Core, Ended, Grant, Info};
pub use sftp_file::{
    AttrsCall, CloseCall, CopyCall, File, OnFile, OpenCall, PollCopy, PollFile, PollReadAll,
    ReadAllCall, ReadAllError, ReadCall, StartOpen, StatusCall, WriteAllCall, WriteCall,
    attrs_call, cancel_read_all, close_call, status_call, take_bytes, take_io_slices,
};
pub use sftp_fs::{Dir, DirBuilder, DirCall, DirEntry, Fs, FsWriteCall, PathCall, ReadDir};
pub use sftp_fs_read::{FsReadCall, StartRead};
pub use sftp_link::Link;
pub use sftp_meta::{
    FileType, MetaData, MetaDataBuilder, Permissions, RawFileType, RawPermissions, UnixTimeStamp,
    UnixTimeStampError,
};
pub use sftp_model::{
    Error, Extensions, Fault, FormatKind, IoKind, OpenOptions, RemotePath, SftpOptions,
};
pub use ssh_encoding::OutOfMemory;
pub use walk_entry::WalkEntry;
