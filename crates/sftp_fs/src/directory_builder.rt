//! Directories that are created with attributes of their own.
ghost use Rattle.std.specs.Prelude.{◌≡◌, Some};
ghost use Rattle.sftp_model.specs.Frames.{no_attributes};
ghost use Rattle.plan_state.specs.Asked.{IsReady};
ghost use Rattle.sftp_file.specs.Settles.{settle_meaning};
ghost use Rattle.sftp_fs.specs.PathStarts.{StartsFrom};
ghost use Rattle.sftp_fs.specs.SettingPlans.{make_dir_next};

use crate::fs::Fs;
use sftp_core::Core;
use sftp_file::StatusCall;
use sftp_meta::{MetaDataBuilder, Permissions};
use sftp_model::Error;
use std::alloc::Global;
use std::marker::Model;

/// A builder of directories with these attributes. A contract sees the working directory and the attributes.
///
/// Used in `crates/sftp_fs/src/fs.rt`.
#[derive(Drop)]
pub struct DirBuilder<'a> {
    fs: &'a Fs,
    metadata: MetaDataBuilder,
}

impl<'a> Model for DirBuilder<'a> {
    ghost use Rattle.sftp_fs.specs.Directories.{BuilderValue};

    ghost Value = { BuilderValue };

    ghost view = { λ b. record { cwd = b.fs.now; attrs = b.metadata } };
}

impl<'a> DirBuilder<'a> {
    /// Returns a builder with nothing set.
    pub(crate) fn new(fs: &'a Fs) -> DirBuilder<'a>
        ensures { result ≡ record { cwd = fs.now; attrs = no_attributes } }
    {
        DirBuilder {
            fs,
            metadata: MetaDataBuilder::new(),
        }
    }

    /// Clears all that was set.
    pub fn reset(&mut self) -> &mut DirBuilder<'a>
        ensures same_reference { result.ghost_name ≡ self.entry.ghost_name }
        ensures value { result.now ≡ record self.old { attrs = no_attributes } }
    {
        let _ = self.metadata.reset();
        self
    }

    /// Sets the numbers of the user and of the group who will own the directory.
    pub fn id(&mut self, id: (u32, u32)) -> &mut DirBuilder<'a>
        ensures same_reference { result.ghost_name ≡ self.entry.ghost_name }
        ensures value { result.now ≡ record self.old { attrs = record self.old.attrs { id = Some id } } }
    {
        let _ = self.metadata.id(id);
        self
    }

    /// Sets the permissions of the directory.
    pub fn permissions(&mut self, perm: Permissions) -> &mut DirBuilder<'a>
        ensures same_reference { result.ghost_name ≡ self.entry.ghost_name }
        ensures value { result.now ≡ record self.old { attrs = record self.old.attrs { permissions = Some perm } } }
    {
        let _ = self.metadata.permissions(perm);
        self
    }

    /// Creates a directory with the attributes that were set (draft-ietf-secsh-filexfer-02, section 6.6).
    ///
    /// # Errors
    ///
    /// Checked in this order: `IOError(PathTooLong)`, exactly if the body of the request would pass 1048575 bytes;
    /// `BackgroundTaskFailure` if the core has recorded a fault. `OutOfMemory` may come in place of any result. After
    /// an error nothing was submitted, and the core is unchanged.
    pub fn start_create(
        &self,
        alloc: Global,
        core: &mut Core,
        path: &[u8],
    ) -> Result<StatusCall, Error>
        requires { IsReady core.old }
        ensures { StartsFrom settle_meaning (make_dir_next path.now self.now.attrs) self.now.cwd core.old core.new result }
    {
        self.fs.make_dir(alloc, core, path, self.metadata.create())
    }
}
