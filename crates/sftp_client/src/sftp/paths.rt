//! Calls on paths, each of which runs to its end.
ghost use Rattle.std.specs.Prelude.{Some};
ghost use Rattle.plan_state.specs.Asked.{IsReady};
ghost use Rattle.sftp_model.specs.Frames.{no_attributes};
ghost use Rattle.plan_model.specs.PathPlans.{canonicalize_next, hard_link_next, lstat_next, mkdir_next, read_link_next, remove_next, rename_next, rmdir_next, stat_next, symlink_next};
ghost use Rattle.sftp_client.specs.Calls.{CallsOnPath, IsCallable};
ghost use Rattle.sftp_file.specs.Settles.{settle_meaning};
ghost use Rattle.sftp_file.specs.Tells.{attrs_meaning};
ghost use Rattle.sftp_fs.specs.Names.{name_meaning};
ghost use Rattle.sftp_fs.specs.PathStarts.{StartsFrom};
ghost use Rattle.sftp_fs.specs.SettingPlans.{make_dir_next, set_attrs_next};

use super::Sftp;
use sftp_core::Core;
use sftp_file::StatusCall;
use sftp_fs::Fs;
use sftp_link::Link;
use sftp_meta::{MetaData, Permissions};
use sftp_model::{Error, RemotePath};
use std::alloc::Global;

/// Starts to create a directory with these permissions, or with none that are sent.
fn start_dir(
    fs: &Fs,
    alloc: Global,
    core: &mut Core,
    path: &[u8],
    perm: Option<Permissions>,
) -> Result<StatusCall, Error>
    requires { IsReady core.old }
    ensures { StartsFrom settle_meaning (make_dir_next path.now (record no_attributes { permissions = perm })) fs.now
        core.old core.new result }
{
    let mut builder = fs.dir_builder();
    match perm {
        Some(perm) => {
            let _ = builder.permissions(perm);
            builder.start_create(alloc, core, path)
        }
        None => builder.start_create(alloc, core, path),
    }
}

/// The calls on paths. A relative path begins in the directory in which the session began. Each of them sends what is
/// queued and takes frames until its reply comes; the replies to other calls are kept for them. Whatever the result,
/// tickets and files of others stay theirs.
impl<L: Link> Sftp<L> {
    /// Returns the metadata of the file that a path names; a symbolic link is followed (draft-ietf-secsh-filexfer-02,
    /// section 6.8).
    ///
    /// # Errors
    ///
    /// A recorded fault is reported first. `OutOfMemory` if 2147483648 ids are in use or an allocation fails;
    /// `IOError(PathTooLong)` if the request would pass 1048575 bytes; `SftpError` with the server's status and message if
    /// it refuses; otherwise the errors of `flush` and `take`. After each of them the calls of `Sftp` that run in one may
    /// be made.
    pub fn metadata(&mut self, path: &[u8]) -> Result<MetaData, Error>
        requires { IsCallable L.LinkState.state self.old }
        ensures { CallsOnPath attrs_meaning (stat_next path.now) L.LinkState.state self.old self.new result }
    {
        self.check_start()?;
        let call = self.fs().start_metadata(self.alloc, &mut self.core, path)?;
        self.finish(call)
    }

    /// Returns the metadata of the file that a path names, or of a symbolic link itself.
    ///
    /// # Errors
    ///
    /// Those of `metadata`.
    pub fn symlink_metadata(&mut self, path: &[u8]) -> Result<MetaData, Error>
        requires { IsCallable L.LinkState.state self.old }
        ensures { CallsOnPath attrs_meaning (lstat_next path.now) L.LinkState.state self.old self.new result }
    {
        self.check_start()?;
        let call = self
            .fs()
            .start_symlink_metadata(self.alloc, &mut self.core, path)?;
        self.finish(call)
    }

    /// Sets the attributes that the metadata has (draft-ietf-secsh-filexfer-02, section 6.9).
    ///
    /// # Errors
    ///
    /// Those of `metadata`.
    pub fn set_metadata(&mut self, path: &[u8], metadata: MetaData) -> Result<(), Error>
        requires { IsCallable L.LinkState.state self.old }
        ensures { CallsOnPath settle_meaning (set_attrs_next path.now metadata)
            L.LinkState.state self.old self.new result }
    {
        self.check_start()?;
        let call = self
            .fs()
            .start_set_metadata(self.alloc, &mut self.core, path, metadata)?;
        self.finish(call)
    }

    /// Sets the permissions of the file that a path names.
    ///
    /// # Errors
    ///
    /// Those of `metadata`.
    pub fn set_permissions(&mut self, path: &[u8], perm: Permissions) -> Result<(), Error>
        requires { IsCallable L.LinkState.state self.old }
        ensures { CallsOnPath settle_meaning (set_attrs_next path.now (record no_attributes { permissions = Some perm }))
            L.LinkState.state self.old self.new result }
    {
        self.check_start()?;
        let call = self
            .fs()
            .start_set_permissions(self.alloc, &mut self.core, path, perm)?;
        self.finish(call)
    }

    /// Creates a directory (draft-ietf-secsh-filexfer-02, section 6.6).
    ///
    /// # Errors
    ///
    /// Those of `metadata`.
    pub fn create_dir(&mut self, path: &[u8]) -> Result<(), Error>
        requires { IsCallable L.LinkState.state self.old }
        ensures { CallsOnPath settle_meaning (mkdir_next path.now) L.LinkState.state self.old self.new result }
    {
        self.check_start()?;
        let call = self
            .fs()
            .start_create_dir(self.alloc, &mut self.core, path)?;
        self.finish(call)
    }

    /// Creates a directory with these permissions, or with those that the server chooses (draft-ietf-secsh-filexfer-02,
    /// section 6.6). The server may leave some of them out.
    ///
    /// # Errors
    ///
    /// Those of `metadata`.
    pub fn create_dir_with(&mut self, path: &[u8], perm: Option<Permissions>) -> Result<(), Error>
        requires { IsCallable L.LinkState.state self.old }
        ensures { CallsOnPath settle_meaning (make_dir_next path.now (record no_attributes { permissions = perm }))
            L.LinkState.state self.old self.new result }
    {
        self.check_start()?;
        let call = start_dir(&self.fs(), self.alloc, &mut self.core, path, perm)?;
        self.finish(call)
    }

    /// Removes an empty directory (draft-ietf-secsh-filexfer-02, section 6.6).
    ///
    /// # Errors
    ///
    /// Those of `metadata`.
    pub fn remove_dir(&mut self, path: &[u8]) -> Result<(), Error>
        requires { IsCallable L.LinkState.state self.old }
        ensures { CallsOnPath settle_meaning (rmdir_next path.now) L.LinkState.state self.old self.new result }
    {
        self.check_start()?;
        let call = self
            .fs()
            .start_remove_dir(self.alloc, &mut self.core, path)?;
        self.finish(call)
    }

    /// Removes a file (draft-ietf-secsh-filexfer-02, section 6.5).
    ///
    /// # Errors
    ///
    /// Those of `metadata`.
    pub fn remove_file(&mut self, path: &[u8]) -> Result<(), Error>
        requires { IsCallable L.LinkState.state self.old }
        ensures { CallsOnPath settle_meaning (remove_next path.now) L.LinkState.state self.old self.new result }
    {
        self.check_start()?;
        let call = self
            .fs()
            .start_remove_file(self.alloc, &mut self.core, path)?;
        self.finish(call)
    }

    /// Renames `old` to `to` (draft-ietf-secsh-filexfer-02, section 6.5). A file of the new name is replaced if the server
    /// offers `posix-rename@openssh.com`.
    ///
    /// # Errors
    ///
    /// Those of `metadata`.
    pub fn rename(&mut self, old: &[u8], to: &[u8]) -> Result<(), Error>
        requires { IsCallable L.LinkState.state self.old }
        ensures { CallsOnPath settle_meaning (rename_next old.now to.now) L.LinkState.state self.old self.new result }
    {
        self.check_start()?;
        let call = self.fs().start_rename(self.alloc, &mut self.core, old, to)?;
        self.finish(call)
    }

    /// Creates a symbolic link at `dst` that names `src` (draft-ietf-secsh-filexfer-02, section 6.10).
    ///
    /// # Errors
    ///
    /// Those of `metadata`.
    pub fn symlink(&mut self, src: &[u8], dst: &[u8]) -> Result<(), Error>
        requires { IsCallable L.LinkState.state self.old }
        ensures { CallsOnPath settle_meaning (symlink_next src.now dst.now) L.LinkState.state self.old self.new result }
    {
        self.check_start()?;
        let call = self
            .fs()
            .start_symlink(self.alloc, &mut self.core, src, dst)?;
        self.finish(call)
    }

    /// Gives the file `old` a second name (`hardlink@openssh.com`, OpenSSH's PROTOCOL, section 4.5).
    ///
    /// # Errors
    ///
    /// Those of `metadata`; `UnsupportedExtension` if the server doesn't offer it.
    pub fn hard_link(&mut self, old: &[u8], to: &[u8]) -> Result<(), Error>
        requires { IsCallable L.LinkState.state self.old }
        ensures { CallsOnPath settle_meaning (hard_link_next old.now to.now)
            L.LinkState.state self.old self.new result }
    {
        self.check_start()?;
        let call = self
            .fs()
            .start_hard_link(self.alloc, &mut self.core, old, to)?;
        self.finish(call)
    }

    /// Returns the path that a symbolic link names (draft-ietf-secsh-filexfer-02, section 6.10).
    ///
    /// # Errors
    ///
    /// Those of `metadata`.
    pub fn read_link(&mut self, path: &[u8]) -> Result<RemotePath, Error>
        requires { IsCallable L.LinkState.state self.old }
        ensures { CallsOnPath name_meaning (read_link_next path.now) L.LinkState.state self.old self.new result }
    {
        self.check_start()?;
        let call = self.fs().start_read_link(self.alloc, &mut self.core, path)?;
        self.finish(call)
    }

    /// Returns the absolute form of a path (draft-ietf-secsh-filexfer-02, section 6.11); `~` is known if the server offers
    /// `expand-path@openssh.com`.
    ///
    /// # Errors
    ///
    /// Those of `metadata`.
    pub fn canonicalize(&mut self, path: &[u8]) -> Result<RemotePath, Error>
        requires { IsCallable L.LinkState.state self.old }
        ensures { CallsOnPath name_meaning (canonicalize_next path.now) L.LinkState.state self.old self.new result }
    {
        self.check_start()?;
        let call = self
            .fs()
            .start_canonicalize(self.alloc, &mut self.core, path)?;
        self.finish(call)
    }
}
