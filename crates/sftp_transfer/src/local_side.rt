//! Directories, links and attributes of the local side.
use crate::transfer_error::{TransferError, no_text, tell_of};
use sftp_model::FileAttrs;
use std::fs::{DirBuilder, DirEntry, File, FileTimes, Metadata, OpenFile, Permissions};
use std::io::ErrorKind;
use std::os::unix::fs::{DirBuilderExt, MetadataExt, PermissionsExt};
use std::time::{Duration, SystemTime};
use std::{fs, io, str};
use transfer_plan::{EntryKind, Walk, WalkError, path_in};

/// Returns the file attributes for the metadata of a local file.
pub(crate) fn attrs_of(metadata: &Metadata) -> FileAttrs {
    let accessed = u32::try_from(metadata.atime());
    let modified = u32::try_from(metadata.mtime());
    let time = match (accessed, modified) {
        (Ok(accessed), Ok(modified)) => Some((accessed, modified)),
        _ => None,
    };
    FileAttrs {
        size: Some(metadata.len()),
        id: None,
        permissions: Some(metadata.mode()),
        time,
    }
}

/// Returns the kind of a local entry.
pub(crate) fn kind_of(metadata: &Metadata) -> EntryKind {
    let kind = metadata.file_type();
    if kind.is_file() {
        EntryKind::File
    } else if kind.is_dir() {
        EntryKind::Folder
    } else if kind.is_symlink() {
        EntryKind::Link
    } else {
        EntryKind::Other
    }
}

/// Returns the directory that contains a path.
pub(crate) fn folder_of(path: &str) -> &str {
    match path.trim_end_matches('/').rsplit_once('/') {
        Some(("", _)) => "/",
        Some((folder, _)) => folder,
        None => ".",
    }
}

/// Returns true if a directory exists at a path; a symbolic link is followed.
pub(crate) fn is_folder(rt: &HostRuntime, path: &str) -> bool {
    match fs::metadata(rt, path) {
        Ok(metadata) => metadata.is_dir(),
        Err(_) => false,
    }
}

/// Creates a directory with these permissions, as far as the umask permits them, or accepts an existing one. An
/// existing symbolic link is a directory only if it is followed.
pub(crate) fn make_local_folder(
    rt: &HostRuntime,
    path: &str,
    mode: Option<u32>,
    is_followed: bool,
) -> io::Result<()> {
    let Err(e) = DirBuilder::new()
        .mode(mode.unwrap_or(0o777))
        .create(rt, path)
    else {
        return Ok(());
    };
    let there = if is_followed {
        fs::metadata(rt, path)
    } else {
        fs::symlink_metadata(rt, path)
    };
    match there {
        Ok(metadata) if metadata.is_dir() => Ok(()),
        _ => Err(e),
    }
}

/// Returns true if a symbolic link exists at a path.
pub(crate) fn is_local_link(rt: &HostRuntime, path: &str) -> bool {
    match fs::symlink_metadata(rt, path) {
        Ok(metadata) => metadata.is_symlink(),
        Err(_) => false,
    }
}

/// Creates a symbolic link, or accepts an existing one with the same target.
pub(crate) fn make_local_link(rt: &HostRuntime, names: &str, path: &str) -> io::Result<()> {
    let Err(e) = std::os::unix::fs::symlink(rt, names, path) else {
        return Ok(());
    };
    match fs::read_link(rt, path) {
        Ok(there) if there.as_path().as_str() == names => Ok(()),
        _ => Err(e),
    }
}

/// Returns the time at this many seconds.
fn moment(seconds: u32) -> SystemTime {
    SystemTime::UNIX_EPOCH + Duration::from_secs(u64::from(seconds))
}

/// Gives a local file or directory the permissions and times of these attributes, if they have them. A symbolic link is
/// followed.
pub(crate) fn keep_local(rt: &HostRuntime, path: &str, attrs: &FileAttrs) -> io::Result<()> {
    if let Some((accessed, modified)) = attrs.time {
        let times = FileTimes::new()
            .set_accessed(moment(accessed))
            .set_modified(moment(modified));
        File::open(rt, path)?.set_times(times)?;
    }
    if let Some(mode) = attrs.permissions {
        fs::set_permissions(rt, path, Permissions::from_mode(mode & 0o777))?;
    }
    Ok(())
}

/// Returns true if a file can get this name: nothing has it, or a file or a symbolic link to one, which is replaced.
pub(crate) fn may_be_replaced(rt: &HostRuntime, path: &str) -> bool {
    match fs::symlink_metadata(rt, path) {
        Ok(metadata) if metadata.is_symlink() => match fs::metadata(rt, path) {
            Ok(metadata) => metadata.is_file(),
            Err(e) => e.kind() == ErrorKind::NotFound,
        },
        Ok(metadata) => metadata.is_file(),
        Err(_) => true,
    }
}

/// Adds an entry of a local directory to a walk. An entry that can't be examined, for example because it was removed in
/// the meantime, is reported.
///
/// # Errors
///
/// A `TransferError` if the walk can't continue.
fn add_local(
    rt: &HostRuntime,
    walk: &mut Walk,
    entry: &DirEntry,
    complete: &mut bool,
) -> Result<(), TransferError> {
    let name = entry.file_name().as_bytes();
    let metadata = match entry.metadata() {
        Ok(metadata) => metadata,
        Err(e) => {
            *complete = false;
            let path = path_in(rt.alloc(), walk.folder().source.as_slice(), name)?;
            tell_of(rt, &path, &TransferError::from(e));
            return Ok(());
        }
    };
    match walk.add(rt.alloc(), name, kind_of(&metadata), attrs_of(&metadata)) {
        Ok(()) => Ok(()),
        Err(WalkError::TooMany) => Err(TransferError::TooManyEntries),
        Err(WalkError::OutOfMemory) => Err(TransferError::OutOfMemory),
    }
}

/// Adds the entries of a local directory to a walk. A name that isn't UTF-8 can't be opened: it is reported, and the
/// walk isn't complete.
pub(crate) fn list_local(
    rt: &HostRuntime,
    walk: &mut Walk,
    complete: &mut bool,
) -> Result<(), TransferError> {
    let Ok(path) = str::from_utf8(walk.folder().source.as_slice()) else {
        return Err(no_text());
    };
    let entries = fs::read_dir(rt, path)?;
    for entry in entries {
        match entry {
            Ok(entry) => add_local(rt, walk, &entry, complete)?,
            Err(e) if e.kind() == ErrorKind::InvalidFilename => {
                *complete = false;
                tell_of(
                    rt,
                    walk.folder().source.as_slice(),
                    &TransferError::Refused("an entry is skipped: its name is not UTF-8"),
                );
            }
            Err(e) => return Err(e.into()),
        }
    }
    Ok(())
}
