//! A file of the system as a local file.
use crate::comparison::read_some;
use crate::local_side::folder_of;
use bytes::Bytes;
use std::alloc::Global;
use std::fs::{File, Metadata, OpenFile, OpenOptions};
use std::io::{ErrorKind, Seek, SeekFrom, Write};
use std::marker::Model;
use std::os::unix::fs::{MetadataExt, OpenOptionsExt};
use std::{fs, io};
use transfer_pool::{LocalError, LocalFile};

/// A file of the system, and the index of its job. It does not record its operations.
///
/// Used in `crates/sftp_transfer/src/batch.rt`.
#[derive(Drop)]
pub struct SystemFile<'a> {
    runtime: &'a HostRuntime,
    job: usize,
    mode: Option<u32>,
    file: Option<File>,
}

impl<'a> SystemFile<'a> {
    /// Returns a value without a file, for the job at an index. A file that it creates has these permissions, as far as
    /// the umask permits them.
    pub fn new(runtime: &'a HostRuntime, job: usize, mode: Option<u32>) -> SystemFile<'a> {
        SystemFile {
            runtime,
            job,
            mode,
            file: None,
        }
    }

    /// Returns the index of its job.
    pub fn job(&self) -> usize {
        self.job
    }
}

impl<'a> LocalFile for SystemFile<'a> {
    ghost History = { Unit {0} };

    ghost done = { λ act history. history };

    ghost history = { λ file. tt };

    fn open(&mut self, name: &str, from: u64) -> Result<(), LocalError> {
        let mut file = File::open(self.runtime, name)?;
        if from > 0 {
            file.seek(SeekFrom::Start(from))?;
        }
        self.file = Some(file);
        Ok(())
    }

    fn create(&mut self, name: &str) -> Result<(), LocalError> {
        self.file = Some(create_file(self.runtime, name, self.mode)?);
        Ok(())
    }

    fn reopen(&mut self, name: &str, len: u64) -> Result<(), LocalError> {
        self.file = Some(open_behind(self.runtime, name, len)?);
        Ok(())
    }

    fn read(&mut self, alloc: Global, most: u32) -> Result<Bytes, LocalError> {
        let Some(file) = &mut self.file else {
            return Err(LocalError::Failed(ErrorKind::NotFound.into()));
        };
        let Ok(mut room) = vec![in alloc; 0u8; most as usize] else {
            return Err(LocalError::OutOfMemory);
        };
        let len = read_some(file, room.as_mut_slice())?;
        room.truncate(len);
        match Bytes::from_vec(room) {
            Ok(bytes) => Ok(bytes),
            Err(_) => Err(LocalError::OutOfMemory),
        }
    }

    fn write(&mut self, bytes: &[u8]) -> Result<(), LocalError> {
        match &mut self.file {
            Some(file) => Ok(file.write_all(bytes)?),
            None => Err(LocalError::Failed(ErrorKind::NotFound.into())),
        }
    }

    fn sync(&mut self) -> Result<(), LocalError> {
        match &self.file {
            Some(file) => Ok(file.sync_all()?),
            None => Err(LocalError::Failed(ErrorKind::NotFound.into())),
        }
    }

    fn rename(&mut self, from: &str, to: &str) -> Result<(), LocalError> {
        let Some(file) = &self.file else {
            return Err(LocalError::Failed(ErrorKind::NotFound.into()));
        };
        if !is_same_file(
            &file.metadata()?,
            &fs::symlink_metadata(self.runtime, from)?,
        ) {
            return Err(LocalError::Failed(changed()));
        }
        Ok(fs::rename(self.runtime, from, to)?)
    }

    fn sync_parent(&mut self, name: &str) -> Result<(), LocalError> {
        Ok(File::open(self.runtime, folder_of(name))?.sync_all()?)
    }
}

/// Creates a file that does not exist, with these permissions under the umask; without any, with 0666. An entry with
/// the name, such as a symbolic link, is an error.
fn create_file(rt: &HostRuntime, name: &str, mode: Option<u32>) -> io::Result<File> {
    OpenOptions::new()
        .write(true)
        .create_new(true)
        .mode(mode.unwrap_or(0o666))
        .open(rt, name)
}

/// Returns true if these are metadata of one file.
fn is_same_file(one: &Metadata, other: &Metadata) -> bool {
    one.dev() == other.dev() && one.ino() == other.ino()
}

/// Returns the error for a file that is not the one that was found.
fn changed() -> io::Error {
    io::Error::new(
        ErrorKind::InvalidInput,
        "its part file was changed by another program",
    )
}

/// Opens a regular file of exactly `len` bytes, for writing after them. A symbolic link is refused, also one that was
/// put there in the meantime: the file that was opened is the one that was examined.
fn open_behind(rt: &HostRuntime, name: &str, len: u64) -> io::Result<File> {
    let seen = fs::symlink_metadata(rt, name)?;
    if !seen.is_file() || seen.len() != len {
        return Err(changed());
    }
    let file = OpenOptions::new().append(true).open(rt, name)?;
    let now = file.metadata()?;
    if !is_same_file(&now, &seen) || now.len() != len {
        return Err(changed());
    }
    Ok(file)
}
