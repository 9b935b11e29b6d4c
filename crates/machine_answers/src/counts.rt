//! The counts of files, directories and handles.
ghost use Rattle.std.specs.Prelude.{◌≡◌, length, filter};
ghost use Rattle.machine_answers.specs.MachineState.{IsConsistent, IsValid};
ghost use Rattle.machine_model.specs.Listing.{has_file, has_directory};

use crate::machine::Machine;
use machine_tree::{count_directories, count_files};
use sftp_model::ServerConfig;

impl Machine {
    /// Returns the number of names that have a file.
    pub fn file_count(&self) -> u64
        ensures { result ≡ length (filter has_file self.now.tree.names) }
    {
        count_files(self.store.names.listed())
    }

    /// Returns the number of names that have a directory; the root has no name.
    pub fn dir_count(&self) -> u64
        ensures { result ≡ length (filter has_directory self.now.tree.names) }
    {
        count_directories(self.store.names.listed())
    }

    /// Returns the number of handles that were granted. Each open handle is a number below it, and the files and
    /// directories are consistent.
    pub fn grant_count(&self) -> u64
        ensures count { result ≡ self.now.grants }
        ensures valid { IsValid self.now }
        ensures consistent { IsConsistent self.now.tree }
    {
        self.store.grant_count()
    }

    /// Returns the extensions and limits that the server offers.
    pub fn config(&self) -> ServerConfig
        ensures { result ≡ self.now.config }
    {
        self.store.config
    }
}
