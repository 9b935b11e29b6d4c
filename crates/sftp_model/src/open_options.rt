//! The options of an open.
ghost use Rattle.std.specs.Prelude.{◌≡◌, ◌||◌};
ghost use Rattle.sftp_model.specs.OpenOptions.{nothing_chosen, flags_of};

use crate::flags::OpenFlags;
use crate::numbers::{
    SSH_FXF_APPEND, SSH_FXF_CREAT, SSH_FXF_EXCL, SSH_FXF_READ, SSH_FXF_TRUNC, SSH_FXF_WRITE,
};
use bitflags::Flags;

/// The options with which a file is opened. Each setter returns the options that it changed, so that calls can be
/// chained.
///
/// Example: `crates/test_wire/src/model.rt`.
#[derive(Clone, Copy, Debug, PartialEq, Eq)]
pub struct OpenOptions {
    read: bool,
    write: bool,
    append: bool,
    truncate: bool,
    create: bool,
    create_new: bool,
}

impl OpenOptions {
    /// Creates options with nothing chosen.
    pub fn new() -> OpenOptions
        ensures { result ≡ nothing_chosen }
    {
        OpenOptions {
            read: false,
            write: false,
            append: false,
            truncate: false,
            create: false,
            create_new: false,
        }
    }

    /// Sets whether the file may be read.
    pub fn read(&mut self, read: bool) -> &mut OpenOptions
        ensures same_reference { result.ghost_name ≡ self.entry.ghost_name }
        ensures value { result.now ≡ record self.old { read = read } }
    {
        self.read = read;
        self
    }

    /// Sets whether the file may be written. This alone truncates nothing.
    pub fn write(&mut self, write: bool) -> &mut OpenOptions
        ensures same_reference { result.ghost_name ≡ self.entry.ghost_name }
        ensures value { result.now ≡ record self.old { write = write } }
    {
        self.write = write;
        self
    }

    /// Sets whether each write goes to the file's end. The file may then be written.
    pub fn append(&mut self, append: bool) -> &mut OpenOptions
        ensures same_reference { result.ghost_name ≡ self.entry.ghost_name }
        ensures value { result.now ≡ record self.old { append = append } }
    {
        self.append = append;
        self
    }

    /// Sets whether a file that exists is truncated. It counts only with `create`.
    pub fn truncate(&mut self, truncate: bool) -> &mut OpenOptions
        ensures same_reference { result.ghost_name ≡ self.entry.ghost_name }
        ensures value { result.now ≡ record self.old { truncate = truncate } }
    {
        self.truncate = truncate;
        self
    }

    /// Sets whether a file that does not exist is created.
    pub fn create(&mut self, create: bool) -> &mut OpenOptions
        ensures same_reference { result.ghost_name ≡ self.entry.ghost_name }
        ensures value { result.now ≡ record self.old { create = create } }
    {
        self.create = create;
        self
    }

    /// Sets whether the file must be created by this open: if it exists, the open fails. `create` and `truncate` don't
    /// count then.
    pub fn create_new(&mut self, create_new: bool) -> &mut OpenOptions
        ensures same_reference { result.ghost_name ≡ self.entry.ghost_name }
        ensures value { result.now ≡ record self.old { create_new = create_new } }
    {
        self.create_new = create_new;
        self
    }

    /// Returns true if a file opened with these options may be read.
    pub fn may_read(&self) -> bool
        ensures { result ≡ self.now.read }
    {
        self.read
    }

    /// Returns true if a file opened with these options may be written, by `write` or by `append`.
    pub fn may_write(&self) -> bool
        ensures { result ≡ (self.now.write || self.now.append) }
    {
        self.write || self.append
    }

    /// Returns the flags of the OPEN (draft-ietf-secsh-filexfer-02, section 6.3).
    pub fn flags(&self) -> OpenFlags
        ensures { result ≡ flags_of self.now }
    {
        let read = if self.read { SSH_FXF_READ } else { 0 };
        let write = if self.write || self.append {
            SSH_FXF_WRITE
        } else {
            0
        };
        let append = if self.append { SSH_FXF_APPEND } else { 0 };
        let made = if self.create_new {
            SSH_FXF_CREAT + SSH_FXF_EXCL
        } else if self.create && self.truncate {
            SSH_FXF_CREAT + SSH_FXF_TRUNC
        } else if self.create {
            SSH_FXF_CREAT
        } else {
            0
        };
        OpenFlags::from_bits_retain(read + write + append + made)
    }
}

impl Default for OpenOptions {
    ghost is_default = { λ options. options ≡ nothing_chosen };

    /// Returns the same options as `new`.
    fn default() -> OpenOptions {
        OpenOptions::new()
    }
}
