//! Tests of kinds of files, times, and the traits of the types of metadata.
use bitflags::Flags;
use sftp_meta::{FileType, MetaData, Permissions, RawFileType, RawPermissions, UnixTimeStamp};
use sftp_model::FileAttrs;
use sftp_values::{Same, is_same};
use std::alloc::Global;
use std::hash::{DefaultHasher, Hash, Hasher};
use std::test::Fail;

fn of_mode(mode: u32) -> MetaData {
    MetaData::new(FileAttrs {
        size: None,
        id: None,
        permissions: Some(mode),
        time: None,
    })
}

/// Checks the types of POSIX modes.
#[test]
fn types_of_modes(rt: HostRuntime) {
    let rows = [
        (0o140000, RawFileType::Socket),
        (0o120777, RawFileType::Symlink),
        (0o100644, RawFileType::RegularFile),
        (0o060000, RawFileType::BlockDevice),
        (0o040755, RawFileType::Directory),
        (0o020000, RawFileType::CharacterDevice),
        (0o010000, RawFileType::FIFO),
    ];
    for (mode, kind) in rows {
        assert!(rt; of_mode(mode).file_type() == Some(FileType::from(kind)));
    }
    assert!(rt; of_mode(0o100644).permissions() == Some(Permissions::from(0o644)));
}

fn hash_of<T: Hash>(value: &T) -> u64 {
    let mut state = DefaultHasher::new();
    value.hash(&mut state);
    state.finish()
}

/// Returns true if a value equals itself, and its hash equals itself.
fn is_itself<T: Hash + Same>(value: &T) -> bool {
    is_same(value, value) && hash_of(value) == hash_of(value)
}

#[test]
fn traits(rt: HostRuntime) {
    assert!(rt;
        is_itself(&RawPermissions::all())
            && is_itself(&Permissions::default())
            && is_itself(&RawFileType::Directory)
            && is_itself(&FileType::from(RawFileType::Directory))
            && is_itself(&UnixTimeStamp::default())
            && is_same(&of_mode(0o644), &of_mode(0o644))
    );
}

fn is_refused(alloc: Global, seconds: u64, text: &str) -> Result<bool, Fail> {
    match UnixTimeStamp::new(seconds) {
        Ok(_) => Ok(false),
        Err(e) => Ok(format!(in alloc; "{e}")?.as_str() == text),
    }
}

#[test]
fn time_past_the_last(rt: HostRuntime) -> Result<(), Fail> {
    assert!(rt;
        is_refused(
            rt.alloc(),
            4294967296,
            "4294967296 seconds since 1970 are over 4294967295, the greatest timestamp",
        )?
    );
    Ok(())
}
