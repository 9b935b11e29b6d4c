//! Open directories, and the call that opens one.
ghost use Rattle.std.specs.Prelude.{◌≡◌, ◌<◌, ℕ, List};
ghost use Rattle.plan_model.specs.Moves.{Own};
ghost use Rattle.sftp_model.specs.declared.slot.Move.{Move};
ghost use Rattle.sftp_model.specs.declared.slot.Site.{Site};
ghost use Rattle.sftp_core.specs.Core.{record_at, core_after_retain, users_of, IsGrant};
ghost use Rattle.plan_state.specs.Asked.{IsReady};
ghost use Rattle.sftp_fs.specs.Directories.{ClosesDir, OpensFrom, granted_waits, opening_dir};
ghost use Rattle.sftp_fs.specs.Listings.{fresh_listing};

use crate::asks::ask;
use crate::fs::Fs;
use crate::read_dir::ReadDir;
use plan_state::{Alone, PendingCall, PlanRunner, Then, Told};
use sftp_core::{Core, Ended, Grant};
use sftp_file::{CloseCall, close_call};
use sftp_model::{Error, Reply, Request};
use std::alloc::Global;
use std::marker::Model;

/// An open directory of the server. It isn't droppable: `read_dir` and `start_close` consume it, and `let_go` does
/// after its core was given up. A contract sees its grant.
///
/// Example: `crates/sftp_client/src/sftp/directories.rt`.
#[must_use]
pub struct Dir {
    grant: Grant,
}

impl Model for Dir {
    ghost use Rattle.sftp_core.specs.Grant.{GrantValue};

    ghost Value = { GrantValue };

    ghost view = { λ d. d.grant };
}

impl Dir {
    /// Returns a listing that reads the directory from its start, with one user of the directory.
    pub fn read_dir(self, alloc: Global) -> ReadDir
        ensures { result ≡ fresh_listing self }
    {
        let Dir { grant } = self;
        ReadDir::new(alloc, grant)
    }

    /// Releases the directory. CLOSE is sent exactly for the last user; the first poll of any other user's call returns
    /// `()` (draft-ietf-secsh-filexfer-02, section 6.3). It can't be refused.
    pub fn start_close(self, core: &mut Core) -> CloseCall
        requires { IsGrant core.old self }
        ensures { ClosesDir self core.old core.new result }
    {
        let Dir { grant } = self;
        close_call(core.release(grant))
    }

    /// Returns the same directory for another user. It is closed once its last user has closed it. All users continue
    /// to read from one position, which the server keeps.
    pub fn clone_dir(&self, core: &mut Core) -> Dir
        requires counted { IsGrant core.old self.now }
        requires few { users_of (record_at core.old self.now.id) < 4294967295 }
        ensures dir { result ≡ self.now }
        ensures core { core.new ≡ core_after_retain core.old self.now }
        ensures granted { IsGrant core.new self.now }
    {
        Dir {
            grant: core.retain(&self.grant),
        }
    }

    /// Releases the directory after its core was given up. No CLOSE is sent.
    pub fn let_go(self, core: Ended) {
        let Dir { grant } = self;
        grant.let_go(core);
    }
}

/// An OPENDIR whose HANDLE gives the directory.
///
/// Used by the functions of this module.
#[derive(Drop)]
pub struct OpeningDir {}

/// An open of a directory under way.
pub type DirCall = PendingCall<OpeningDir>;

impl Alone for OpeningDir {}

impl PlanRunner for OpeningDir {
    type Value = Dir;

    ghost World = { Site × (List ℕ → Own → Move) };

    ghost meaning = { opening_dir };

    ghost waits = { granted_waits };

    ghost stays = { λ m. tt };

    fn at_once(&mut self) -> Option<Dir> {
        None
    }

    fn on(&mut self, told: Told) -> Then<Dir> {
        match told {
            Told::Granted(grant) => Then::Done(Ok(Dir { grant })),
            Told::Reply(
                Reply::Status {
                    code,
                    message,
                    language,
                },
            ) => Then::Done(Err(Error::SftpError {
                code,
                message,
                language,
            })),
            Told::Reply(_) => unreachable!(),
        }
    }
}

impl Fs {
    /// Opens a directory, to list it (draft-ietf-secsh-filexfer-02, section 6.7).
    ///
    /// # Errors
    ///
    /// Checked in this order: `IOError(PathTooLong)`, exactly if the body of the request would pass 1048575 bytes;
    /// `BackgroundTaskFailure` if the core has recorded a fault. `OutOfMemory` may come in place of any result. After
    /// an error nothing was submitted, and the core is unchanged.
    pub fn start_open_dir(
        &self,
        alloc: Global,
        core: &mut Core,
        path: &[u8],
    ) -> Result<DirCall, Error>
        requires { IsReady core.old }
        ensures { OpensFrom path.now self.now core.old core.new result }
    {
        let path = self.named(alloc, path)?;
        ask(core, Request::Opendir { path }, OpeningDir {})
    }
}
