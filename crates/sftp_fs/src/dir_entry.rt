//! Entries of a directory.
ghost use Rattle.std.specs.Prelude.{◌≡◌, option_and_then};
ghost use Rattle.std.specs.Borrow.{Lends, sem};
ghost use Rattle.sftp_meta.specs.FileType.{type_of_mode};
ghost use Rattle.sftp_fs.specs.Entries.{with_filename};
ghost use Rattle.sftp_fs.specs.contracts.dir_entry.DirEntry.{the_row};
ghost use Rattle.sftp_model.specs.contracts.remote_path.RemotePath.{the_row as path_row};

use sftp_meta::{FileType, MetaData};
use sftp_model::{NameEntry, RemotePath};
use std::marker::Model;

/// An entry of a directory, as the server reported it (draft-ietf-secsh-filexfer-02, section 7). A contract sees it as
/// that entry.
///
/// Example: `crates/example_client/src/tasks.rt`.
#[derive(Debug, Drop)]
pub struct DirEntry {
    entry: NameEntry,
}

impl Model for DirEntry {
    ghost use Rattle.sftp_model.specs.declared.reply.NameEntry.{NameEntry};

    ghost Value = { NameEntry };

    ghost view = { λ e. e.entry };
}

impl DirEntry {
    /// Returns the entry that a server reported.
    pub(crate) fn new(entry: NameEntry) -> DirEntry
        ensures { result ≡ entry }
    {
        DirEntry { entry }
    }

    /// Returns the name that the server gave: of the entry alone, without its directory.
    pub fn filename(&self) -> &RemotePath
        ensures { result.now ≡ self.now.filename }
    {
        &self.entry.filename
    }

    /// Returns the name, to be changed. The server isn't asked.
    pub fn filename_mut(&mut self) -> &mut RemotePath
        ensures value { result.now ≡ self.old.filename }
        ensures* writes_back { sem 𝓛 (Lends the_row path_row self.entry result (with_filename self.old)) }
    {
        &mut self.entry.filename
    }

    /// Returns the metadata that the server reported.
    pub fn metadata(&self) -> MetaData
        ensures { result ≡ self.now.attrs }
    {
        MetaData::new(self.entry.attrs)
    }

    /// Returns the kind of file. It is `None` also if the bits `0o170000` of the mode are those of no kind.
    pub fn file_type(&self) -> Option<FileType>
        ensures { result ≡ option_and_then type_of_mode self.now.attrs.permissions }
    {
        self.metadata().file_type()
    }
}
