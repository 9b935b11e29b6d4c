//! `open`: opens a file, whose grant is that of the HANDLE.
ghost use Rattle.std.specs.Prelude.{◌≡◌, ◌≤◌, ℕ, false, length, refl, IfOk};
ghost use Rattle.sftp_model.specs.declared.flags.OpenFlags.{OpenFlags};
ghost use Rattle.sftp_model.specs.declared.slot.Site.{Site};
ghost use Rattle.sftp_model.specs.OpenOptions.{flags_of};
ghost use Rattle.plan_model.specs.FilePlans.{open_request};
ghost use Rattle.sftp_model.specs.Frames.{is_too_long};
ghost use Rattle.plan_state.specs.Asked.{IsReady, request_of};
ghost use Rattle.plan_state.specs.declared.submission.Asking.TheVariants as asking;
ghost use Rattle.sftp_file.specs.Opens.{OpenStarts, open_waits, open_meaning};

use crate::file::File;
use plan_state::{Alone, Asking, PendingCall, PlanRunner, Then, Told};
use sftp_core::Core;
use sftp_model::{Error, FileAttrs, IoKind, OpenOptions, RemotePath, Reply, Request};
use ssh_encoding::OutOfMemory;
use std::alloc::Global;

/// The greatest length of a path, in bytes, whose OPEN fits a frame. The body of an OPEN without attributes has 17
/// bytes more than its path, and the body of a frame at most 1048575 (draft-ietf-secsh-filexfer-02, sections 3 and
/// 6.3).
const MAX_PATH_LEN: usize = 1048558;

/// An OPEN whose HANDLE gives the file.
///
/// Example: `crates/example_client/src/files.rt`.
#[derive(Drop)]
pub struct Opening {
    /// True if the file may be read.
    readable: bool,
    /// True if the file may be written.
    writable: bool,
}

/// An open under way. It returns the file, at offset 0.
pub type OpenCall = PendingCall<Opening>;

impl Alone for Opening {}

impl PlanRunner for Opening {
    type Value = File;

    ghost World = { ℕ × Site };

    ghost meaning = { open_meaning };

    ghost waits = { open_waits };

    ghost stays = { λ m. refl };

    fn at_once(&mut self) -> Option<File> {
        None
    }

    fn on(&mut self, told: Told) -> Then<File> {
        match told {
            Told::Granted(grant) => Then::Done(Ok(File::of(grant, self.readable, self.writable))),
            Told::Reply(
                Reply::Status {
                    code,
                    message,
                    language,
                },
            ) => Then::Done(Err(Error::SftpError {
                code,
                message,
                language,
            })),
            Told::Reply(_) => unreachable!(),
        }
    }
}

/// Options with which a file can be opened.
///
/// Example: `crates/test_client/src/buffered.rt`.
pub trait StartOpen {
    // The flags of the OPEN.
    ghost flags: { Self → OpenFlags };

    /// Asks the server to open a file (draft-ietf-secsh-filexfer-02, section 6.3). The path is sent unchanged, with
    /// attributes without fields.
    ///
    /// # Errors
    ///
    /// Checked in this order: `IOError(PathTooLong)`, exactly if the path has more than 1048558 bytes, so that the body
    /// of its OPEN passes 1048575; `BackgroundTaskFailure` if the core has recorded a fault. `OutOfMemory` may come in
    /// place of any result. After an error nothing was submitted, and the core is unchanged.
    fn start_open(&self, alloc: Global, core: &mut Core, path: &[u8]) -> Result<OpenCall, Error>
        requires { IsReady core.old }
        ensures { OpenStarts (Self.flags self.now) path.now core.old core.new result };
}

impl StartOpen for OpenOptions {
    ghost flags = { flags_of };

    fn start_open(&self, alloc: Global, core: &mut Core, path: &[u8]) -> Result<OpenCall, Error> {
        if path.len() > MAX_PATH_LEN {
            return Err(Error::IOError(IoKind::PathTooLong));
        }
        let request = match open_request(self, alloc, path) {
            Ok(request) => request,
            Err(OutOfMemory) => return Err(Error::OutOfMemory),
        };
        let runner = Opening {
            readable: self.may_read(),
            writable: self.may_write(),
        };
        PendingCall::ask(core, request, runner)
    }
}

/// Returns the OPEN of a path that isn't too long.
fn open_request(options: &OpenOptions, alloc: Global, path: &[u8]) -> Result<Asking, OutOfMemory>
    requires { length path.now ≤ 1048558 }
    ensures value { IfOk result (λ asked. asked ≡ asking.Whole (open_request (flags_of options.now) path.now)) }
    ensures short { IfOk result (λ asked. is_too_long (request_of asked) ≡ false) }
{
    Ok(Asking::Whole(Request::OpenFile {
        path: RemotePath::new(Vec::from_slice(alloc, path)?),
        flags: options.flags(),
        attrs: FileAttrs {
            size: None,
            id: None,
            permissions: None,
            time: None,
        },
    }))
}
