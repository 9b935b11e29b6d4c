//! The calls on paths, seen from a working directory.
ghost use Rattle.std.specs.Prelude.{◌≡◌, IfOk, IfErr, IsSome, Some};
ghost use Rattle.sftp_model.specs.Frames.{no_attributes};
ghost use Rattle.sftp_model.specs.Paths.{joined_path};
ghost use Rattle.sftp_model.specs.declared.error.Error.TheVariants as error;
ghost use Rattle.plan_model.specs.PathPlans.{canonical_request, canonicalize_next, read_link_next, lstat_next};
ghost use Rattle.plan_model.specs.PathPlans.{stat_next, mkdir_next, remove_next, rmdir_next, hard_link_next};
ghost use Rattle.plan_model.specs.PathPlans.{rename_next, rename_request, symlink_next};
ghost use Rattle.sftp_core.specs.Info.{info_of};
ghost use Rattle.plan_state.specs.Asked.{IsReady};
ghost use Rattle.sftp_file.specs.Files.{facts_of};
ghost use Rattle.sftp_fs.specs.Names.{name_meaning};
ghost use Rattle.sftp_fs.specs.PathStarts.{StartsFrom};
ghost use Rattle.sftp_file.specs.Tells.{attrs_meaning};
ghost use Rattle.sftp_file.specs.Settles.{settle_meaning};
ghost use Rattle.sftp_fs.specs.SettingPlans.{make_dir_next, set_attrs_next};

use crate::asks::{ask_attrs, ask_name, ask_status, offers};
use crate::directory_builder::DirBuilder;
use crate::path_call::PathCall;
use sftp_core::Core;
use sftp_file::{AttrsCall, StatusCall};
use sftp_meta::{MetaData, MetaDataBuilder, Permissions};
use sftp_model::{Error, Extensions, FileAttrs, RemotePath, Request};
use ssh_encoding::OutOfMemory;
use std::alloc::Global;
use std::marker::Model;

/// The calls on paths. A relative path is joined to the working directory, unless that is empty: then it is sent
/// unchanged, and the server resolves it from the directory in which the session began (draft-ietf-secsh-filexfer-02,
/// section 6.2). A contract sees the bytes of the working directory.
///
/// Example: `crates/sftp_client/src/sftp.rt`.
#[derive(Drop)]
pub struct Fs {
    cwd: RemotePath,
}

impl Model for Fs {
    ghost use Rattle.std.specs.Prelude.{List, ℕ};

    ghost Value = { List ℕ };

    ghost view = { λ f. f.cwd };
}

impl Fs {
    /// Returns the calls on paths from this working directory. No request is sent: nothing checks that the directory
    /// exists.
    pub fn new(cwd: RemotePath) -> Fs
        ensures { result ≡ cwd }
    {
        Fs { cwd }
    }

    /// Returns the working directory.
    pub fn cwd(&self) -> &RemotePath
        ensures { result.now ≡ self.now }
    {
        &self.cwd
    }

    /// Sets the working directory of later calls. No request is sent: nothing checks that the directory exists.
    pub fn set_cwd(&mut self, cwd: RemotePath)
        ensures { self.new ≡ cwd }
    {
        self.cwd = cwd;
    }

    /// Returns a builder of directories, with nothing set.
    pub fn dir_builder(&self) -> DirBuilder
        ensures { result ≡ record { cwd = self.now; attrs = no_attributes } }
    {
        DirBuilder::new(self)
    }

    /// Returns the path joined to the working directory.
    ///
    /// # Errors
    ///
    /// `OutOfMemory` if an allocation fails.
    pub fn named(&self, alloc: Global, path: &[u8]) -> Result<RemotePath, Error>
        ensures path { IfOk result (λ p. p ≡ joined_path self.now path.now) }
        ensures err { IfErr result (λ e. e ≡ error.OutOfMemory) }
    {
        match self.cwd.join(alloc, path) {
            Ok(path) => Ok(path),
            Err(OutOfMemory) => Err(Error::OutOfMemory),
        }
    }

    /// Asks for the absolute form of a path (draft-ietf-secsh-filexfer-02, section 6.11). If the server offers
    /// `expand-path@openssh.com` (OpenSSH's PROTOCOL, section 4.9), that is sent, which knows `~`.
    ///
    /// # Errors
    ///
    /// Those of `start_read_link`.
    pub fn start_canonicalize(
        &self,
        alloc: Global,
        core: &mut Core,
        path: &[u8],
    ) -> Result<PathCall, Error>
        requires { IsReady core.old }
        ensures { StartsFrom name_meaning (canonicalize_next path.now) self.now core.old core.new result }
    {
        let path = self.named(alloc, path)?;
        let request = canonical_request(core, path);
        ask_name(core, request)
    }

    /// Asks for the path that a symbolic link names (draft-ietf-secsh-filexfer-02, section 6.10).
    ///
    /// # Errors
    ///
    /// Checked in this order: `IOError(PathTooLong)`, exactly if the body of the request would pass 1048575 bytes;
    /// `BackgroundTaskFailure` if the core has recorded a fault. `OutOfMemory` may come in place of any result. After
    /// an error nothing was submitted, and the core is unchanged.
    pub fn start_read_link(
        &self,
        alloc: Global,
        core: &mut Core,
        path: &[u8],
    ) -> Result<PathCall, Error>
        requires { IsReady core.old }
        ensures { StartsFrom name_meaning (read_link_next path.now) self.now core.old core.new result }
    {
        let path = self.named(alloc, path)?;
        ask_name(core, Request::Readlink { path })
    }

    /// Asks for the metadata of the file that a path names; a symbolic link is followed (draft-ietf-secsh-filexfer-02,
    /// section 6.8).
    ///
    /// # Errors
    ///
    /// Checked in this order: `IOError(PathTooLong)`, exactly if the body of the request would pass 1048575 bytes;
    /// `BackgroundTaskFailure` if the core has recorded a fault. `OutOfMemory` may come in place of any result. After
    /// an error nothing was submitted, and the core is unchanged.
    pub fn start_metadata(
        &self,
        alloc: Global,
        core: &mut Core,
        path: &[u8],
    ) -> Result<AttrsCall, Error>
        requires { IsReady core.old }
        ensures { StartsFrom attrs_meaning (stat_next path.now) self.now core.old core.new result }
    {
        let path = self.named(alloc, path)?;
        ask_attrs(core, Request::Stat { path })
    }

    /// Asks for the metadata of the file that a path names, or of a symbolic link itself.
    ///
    /// # Errors
    ///
    /// Those of `start_metadata`.
    pub fn start_symlink_metadata(
        &self,
        alloc: Global,
        core: &mut Core,
        path: &[u8],
    ) -> Result<AttrsCall, Error>
        requires { IsReady core.old }
        ensures { StartsFrom attrs_meaning (lstat_next path.now) self.now core.old core.new result }
    {
        let path = self.named(alloc, path)?;
        ask_attrs(core, Request::Lstat { path })
    }

    /// Creates a directory (draft-ietf-secsh-filexfer-02, section 6.6).
    ///
    /// # Errors
    ///
    /// Checked in this order: `IOError(PathTooLong)`, exactly if the body of the request would pass 1048575 bytes;
    /// `BackgroundTaskFailure` if the core has recorded a fault. `OutOfMemory` may come in place of any result. After
    /// an error nothing was submitted, and the core is unchanged.
    pub fn start_create_dir(
        &self,
        alloc: Global,
        core: &mut Core,
        path: &[u8],
    ) -> Result<StatusCall, Error>
        requires { IsReady core.old }
        ensures { StartsFrom settle_meaning (mkdir_next path.now) self.now core.old core.new result }
    {
        self.make_dir(alloc, core, path, MetaDataBuilder::new().create())
    }

    /// Creates a directory with these attributes.
    pub(crate) fn make_dir(
        &self,
        alloc: Global,
        core: &mut Core,
        path: &[u8],
        metadata: MetaData,
    ) -> Result<StatusCall, Error>
        requires { IsReady core.old }
        ensures { StartsFrom settle_meaning (make_dir_next path.now metadata) self.now core.old core.new result }
    {
        let path = self.named(alloc, path)?;
        let attrs = metadata.into_inner();
        ask_status(core, Request::Mkdir { path, attrs })
    }

    /// Removes an empty directory (draft-ietf-secsh-filexfer-02, section 6.6).
    ///
    /// # Errors
    ///
    /// Those of `start_create_dir`.
    pub fn start_remove_dir(
        &self,
        alloc: Global,
        core: &mut Core,
        path: &[u8],
    ) -> Result<StatusCall, Error>
        requires { IsReady core.old }
        ensures { StartsFrom settle_meaning (rmdir_next path.now) self.now core.old core.new result }
    {
        let path = self.named(alloc, path)?;
        ask_status(core, Request::Rmdir { path })
    }

    /// Removes a file (draft-ietf-secsh-filexfer-02, section 6.5).
    ///
    /// # Errors
    ///
    /// Those of `start_create_dir`.
    pub fn start_remove_file(
        &self,
        alloc: Global,
        core: &mut Core,
        path: &[u8],
    ) -> Result<StatusCall, Error>
        requires { IsReady core.old }
        ensures { StartsFrom settle_meaning (remove_next path.now) self.now core.old core.new result }
    {
        let path = self.named(alloc, path)?;
        ask_status(core, Request::Remove { path })
    }

    /// Sets the attributes of the file that a path names to those that the metadata has (draft-ietf-secsh-filexfer-02,
    /// section 6.9).
    ///
    /// # Errors
    ///
    /// Those of `start_create_dir`.
    pub fn start_set_metadata(
        &self,
        alloc: Global,
        core: &mut Core,
        path: &[u8],
        metadata: MetaData,
    ) -> Result<StatusCall, Error>
        requires { IsReady core.old }
        ensures { StartsFrom settle_meaning (set_attrs_next path.now metadata) self.now core.old core.new result }
    {
        let path = self.named(alloc, path)?;
        let attrs = metadata.into_inner();
        ask_status(core, Request::Setstat { path, attrs })
    }

    /// Sets the permissions of the file that a path names, as `start_set_metadata` does.
    ///
    /// # Errors
    ///
    /// Those of `start_create_dir`.
    pub fn start_set_permissions(
        &self,
        alloc: Global,
        core: &mut Core,
        path: &[u8],
        perm: Permissions,
    ) -> Result<StatusCall, Error>
        requires { IsReady core.old }
        ensures { StartsFrom settle_meaning (set_attrs_next path.now (record no_attributes { permissions = Some perm }))
            self.now core.old core.new result }
    {
        let attrs = FileAttrs {
            size: None,
            id: None,
            permissions: Some(perm.as_raw().bits()),
            time: None,
        };
        self.start_set_metadata(alloc, core, path, MetaData::new(attrs))
    }

    /// Gives the file `old` a second name (`hardlink@openssh.com`, OpenSSH's PROTOCOL, section 4.5).
    ///
    /// # Errors
    ///
    /// Checked in this order: `UnsupportedExtension`; `IOError(PathTooLong)`, exactly if the body of the request would
    /// pass 1048575 bytes; `BackgroundTaskFailure` if the core has recorded a fault. `OutOfMemory` may come in place of
    /// any result. After an error nothing was submitted, and the core is unchanged.
    pub fn start_hard_link(
        &self,
        alloc: Global,
        core: &mut Core,
        old: &[u8],
        to: &[u8],
    ) -> Result<StatusCall, Error>
        requires { IsReady core.old }
        ensures { StartsFrom settle_meaning (hard_link_next old.now to.now) self.now core.old core.new result }
    {
        if !offers(core, Extensions::HARDLINK) {
            return Err(Error::UnsupportedExtension(Extensions::HARDLINK));
        }
        let old = self.named(alloc, old)?;
        let to = self.named(alloc, to)?;
        ask_status(core, Request::Hardlink { old, to })
    }

    /// Creates a symbolic link at `dst` that names `src` (draft-ietf-secsh-filexfer-02, section 6.10). Each is joined
    /// to the working directory if it is relative. `src` is sent first, as OpenSSH's server reads it (OpenSSH's
    /// PROTOCOL, section 4.1).
    ///
    /// # Errors
    ///
    /// Those of `start_rename`.
    pub fn start_symlink(
        &self,
        alloc: Global,
        core: &mut Core,
        src: &[u8],
        dst: &[u8],
    ) -> Result<StatusCall, Error>
        requires { IsReady core.old }
        ensures { StartsFrom settle_meaning (symlink_next src.now dst.now) self.now core.old core.new result }
    {
        let src = self.named(alloc, src)?;
        let dst = self.named(alloc, dst)?;
        ask_status(core, Request::Symlink { src, dst })
    }

    /// Renames `old` (draft-ietf-secsh-filexfer-02, section 6.5). If the server offers `posix-rename@openssh.com`
    /// (OpenSSH's PROTOCOL, section 4.3), that is sent, which replaces a file that has the new name.
    ///
    /// # Errors
    ///
    /// Checked in this order: `IOError(PathTooLong)`, exactly if the body of the request would pass 1048575 bytes;
    /// `BackgroundTaskFailure` if the core has recorded a fault. `OutOfMemory` may come in place of any result. After
    /// an error nothing was submitted, and the core is unchanged.
    pub fn start_rename(
        &self,
        alloc: Global,
        core: &mut Core,
        old: &[u8],
        to: &[u8],
    ) -> Result<StatusCall, Error>
        requires { IsReady core.old }
        ensures { StartsFrom settle_meaning (rename_next old.now to.now) self.now core.old core.new result }
    {
        let old = self.named(alloc, old)?;
        let to = self.named(alloc, to)?;
        let request = rename_request(core, old, to);
        ask_status(core, request)
    }
}

/// Returns the request for the absolute form of a path: the one of the extension that knows `~`, if it is offered.
fn canonical_request(core: &Core, path: RemotePath) -> Request
    requires { IsSome (info_of core.now.phase) }
    ensures { result ≡ canonical_request (facts_of core.now) path }
{
    if offers(core, Extensions::EXPAND_PATH) {
        return Request::ExpandPath { path };
    }
    Request::Realpath { path }
}

/// Returns the request that renames: the one that replaces, if the server offers it.
fn rename_request(core: &Core, old: RemotePath, to: RemotePath) -> Request
    requires { IsSome (info_of core.now.phase) }
    ensures { result ≡ rename_request (facts_of core.now) old to }
{
    if offers(core, Extensions::POSIX_RENAME) {
        return Request::PosixRename { old, to };
    }
    Request::Rename { old, to }
}
