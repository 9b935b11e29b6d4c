//! A local file that is compared with the bytes read back from the server.
use crate::comparison::{compare_end, compare_next};
use bytes::Bytes;
use std::alloc::Global;
use std::fs::File;
use std::io::ErrorKind;
use std::marker::Model;
use transfer_pool::{LocalError, LocalFile};

/// A file of the system, and the index of its job. A write to it compares its bytes with those that come, and a
/// rename checks that it has ended. Nothing is written. It does not record its operations.
#[derive(Drop)]
pub(crate) struct ComparedFile<'a> {
    runtime: &'a HostRuntime,
    job: usize,
    file: Option<File>,
}

/// Returns the error for a file that was not opened, or for a call that a comparison doesn't make.
fn unopened() -> LocalError {
    LocalError::Failed(ErrorKind::NotFound.into())
}

impl<'a> ComparedFile<'a> {
    /// Returns a value without a file, for the job at an index.
    pub(crate) fn new(runtime: &'a HostRuntime, job: usize) -> ComparedFile<'a> {
        ComparedFile {
            runtime,
            job,
            file: None,
        }
    }

    /// Returns the index of its job.
    pub(crate) fn job(&self) -> usize {
        self.job
    }
}

impl<'a> LocalFile for ComparedFile<'a> {
    ghost History = { Unit {0} };

    ghost done = { λ act history. history };

    ghost history = { λ file. tt };

    fn open(&mut self, _name: &str, _from: u64) -> Result<(), LocalError> {
        Err(unopened())
    }

    fn create(&mut self, name: &str) -> Result<(), LocalError> {
        self.file = Some(File::open(self.runtime, name)?);
        Ok(())
    }

    fn reopen(&mut self, _name: &str, _len: u64) -> Result<(), LocalError> {
        Err(unopened())
    }

    fn read(&mut self, _alloc: Global, _most: u32) -> Result<Bytes, LocalError> {
        Err(unopened())
    }

    fn write(&mut self, bytes: &[u8]) -> Result<(), LocalError> {
        let Some(file) = &mut self.file else {
            return Err(unopened());
        };
        compare_next(self.runtime.alloc(), file, bytes)
    }

    fn sync(&mut self) -> Result<(), LocalError> {
        Ok(())
    }

    fn rename(&mut self, _from: &str, _to: &str) -> Result<(), LocalError> {
        let Some(file) = &mut self.file else {
            return Err(unopened());
        };
        compare_end(file)
    }

    fn sync_parent(&mut self, _name: &str) -> Result<(), LocalError> {
        Ok(())
    }
}
