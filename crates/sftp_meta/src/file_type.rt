//! The kinds of file.
ghost use Rattle.std.specs.Prelude.{◌≡◌, ◌↔◌, IsTrue};
ghost use Rattle.sftp_meta.specs.FileType.{type_of_mode};

use std::marker::Model;

/// The kinds of file, by the bits `0o170000` of POSIX's `st_mode`.
///
/// Example: `crates/test_wire/src/metadata.rt`.
#[derive(Clone, Copy, Debug, PartialEq, Eq, Hash)]
pub enum RawFileType {
    /// `0o140000`.
    Socket,
    /// `0o120000`.
    Symlink,
    /// `0o100000`.
    RegularFile,
    /// `0o060000`.
    BlockDevice,
    /// `0o040000`.
    Directory,
    /// `0o020000`.
    CharacterDevice,
    /// `0o010000`.
    FIFO,
}

/// The kind of a file, as `MetaData::file_type` returns it. A contract sees the `RawFileType`.
///
/// Example: `crates/test_wire/src/metadata.rt`.
#[derive(Clone, Copy, Debug, PartialEq, Eq, Hash)]
pub struct FileType(RawFileType);

impl Model for FileType {
    ghost use Rattle.sftp_meta.specs.declared.file_type.RawFileType.{RawFileType};

    ghost Value = { RawFileType };

    ghost view = { λ t. t.0 };

    ghost inverse = { λ kind. record { 0 = kind } };
}

impl FileType {
    /// Returns the kind of file of an `st_mode`, if its bits `0o170000` are those of one.
    pub(crate) fn of_mode(mode: u32) -> Option<FileType>
        ensures { result ≡ type_of_mode mode }
    {
        let kind = match mode & 0o170000 {
            0o140000 => RawFileType::Socket,
            0o120000 => RawFileType::Symlink,
            0o100000 => RawFileType::RegularFile,
            0o060000 => RawFileType::BlockDevice,
            0o040000 => RawFileType::Directory,
            0o020000 => RawFileType::CharacterDevice,
            0o010000 => RawFileType::FIFO,
            _ => return None,
        };
        Some(FileType(kind))
    }

    /// Returns the kind of file.
    pub fn as_raw(&self) -> RawFileType
        ensures { result ≡ self.now }
    {
        self.0
    }

    /// Returns true if it is a directory.
    pub fn is_dir(&self) -> bool
        ensures { IsTrue result ↔ (self.now ≡ RawFileType.Directory) }
    {
        self.0 == RawFileType::Directory
    }

    /// Returns true if it is a regular file.
    pub fn is_file(&self) -> bool
        ensures { IsTrue result ↔ (self.now ≡ RawFileType.RegularFile) }
    {
        self.0 == RawFileType::RegularFile
    }

    /// Returns true if it is a symbolic link.
    pub fn is_symlink(&self) -> bool
        ensures { IsTrue result ↔ (self.now ≡ RawFileType.Symlink) }
    {
        self.0 == RawFileType::Symlink
    }

    /// Returns true if it is a named pipe.
    pub fn is_fifo(&self) -> bool
        ensures { IsTrue result ↔ (self.now ≡ RawFileType.FIFO) }
    {
        self.0 == RawFileType::FIFO
    }

    /// Returns true if it is a socket.
    pub fn is_socket(&self) -> bool
        ensures { IsTrue result ↔ (self.now ≡ RawFileType.Socket) }
    {
        self.0 == RawFileType::Socket
    }

    /// Returns true if it is a block device.
    pub fn is_block_device(&self) -> bool
        ensures { IsTrue result ↔ (self.now ≡ RawFileType.BlockDevice) }
    {
        self.0 == RawFileType::BlockDevice
    }

    /// Returns true if it is a character device.
    pub fn is_char_device(&self) -> bool
        ensures { IsTrue result ↔ (self.now ≡ RawFileType.CharacterDevice) }
    {
        self.0 == RawFileType::CharacterDevice
    }
}

impl From<RawFileType> for FileType {
    ghost from_gives = { λ kind t. t ≡ kind };

    fn from(kind: RawFileType) -> FileType {
        FileType(kind)
    }
}
