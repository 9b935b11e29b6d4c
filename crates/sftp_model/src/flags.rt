//! Sets of flags.
ghost use Rattle.std.specs.Prelude.{⊤, ◌≡◌, [], ◌∷◌, codes};
ghost use Rattle.sftp_model.specs.Numbers.{SSH_FXF_READ, SSH_FXF_WRITE, SSH_FXF_APPEND, SSH_FXF_CREAT, SSH_FXF_TRUNC, SSH_FXF_EXCL};

use crate::numbers;
use bitflags::{Flag, Flags, bitflag_items};

/// The flags of an OPEN (draft-ietf-secsh-filexfer-02, section 6.3).
///
/// Example: `crates/sftp_fs/src/fs_write.rt`.
#[derive(Clone, Copy, PartialEq, Eq, Debug)]
pub struct OpenFlags(u32);

bitflag_items! {
    impl OpenFlags: u32 {
        const READ = numbers::SSH_FXF_READ;
        const WRITE = numbers::SSH_FXF_WRITE;
        const APPEND = numbers::SSH_FXF_APPEND;
        const CREAT = numbers::SSH_FXF_CREAT;
        const TRUNC = numbers::SSH_FXF_TRUNC;
        const EXCL = numbers::SSH_FXF_EXCL;
    }
}

impl Flags for OpenFlags {
    type Bits = u32;

    ghost exact = { ⊤ };

    ghost table = { (codes "READ", SSH_FXF_READ) ∷ (codes "WRITE", SSH_FXF_WRITE) ∷ (codes "APPEND", SSH_FXF_APPEND)
        ∷ (codes "CREAT", SSH_FXF_CREAT) ∷ (codes "TRUNC", SSH_FXF_TRUNC) ∷ (codes "EXCL", SSH_FXF_EXCL) ∷ [] };

    ghost set_of = { λ p. p.0 };

    fn flags<'a>() -> &'a [Flag<OpenFlags>] {
        OpenFlags::FLAGS
    }

    fn bits(&self) -> u32 {
        self.0
    }

    fn from_bits_retain(bits: u32) -> OpenFlags {
        OpenFlags(bits)
    }
}

/// The extensions that a server may offer (OpenSSH's PROTOCOL, section 4; `copy-data` belongs to
/// draft-ietf-secsh-filexfer-extensions-00, section 7).
///
/// Example: `crates/example_threads/src/receipts.rt`.
#[derive(Clone, Copy, PartialEq, Eq, Debug)]
pub struct Extensions(u32);

bitflag_items! {
    impl Extensions: u32 {
        const POSIX_RENAME = 1;
        const HARDLINK = 2;
        const FSYNC = 4;
        const EXPAND_PATH = 8;
        const COPY_DATA = 16;
        const LIMITS = 32;
    }
}

impl Flags for Extensions {
    type Bits = u32;

    ghost exact = { ⊤ };

    ghost table = { (codes "POSIX_RENAME", 1) ∷ (codes "HARDLINK", 2) ∷ (codes "FSYNC", 4) ∷ (codes "EXPAND_PATH", 8)
        ∷ (codes "COPY_DATA", 16) ∷ (codes "LIMITS", 32) ∷ [] };

    ghost set_of = { λ p. p.0 };

    fn flags<'a>() -> &'a [Flag<Extensions>] {
        Extensions::FLAGS
    }

    fn bits(&self) -> u32 {
        self.0
    }

    fn from_bits_retain(bits: u32) -> Extensions {
        Extensions(bits)
    }
}
