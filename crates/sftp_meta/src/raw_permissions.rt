//! The permission bits as a set of flags.
ghost use Rattle.std.specs.Prelude.{⊤, ◌≡◌, [], ◌∷◌, codes};
ghost use Rattle.sftp_meta.specs.RawPermissions.{bits_of};

use bitflags::{Flag, Flags, bitflag_items};

/// The permission bits of POSIX's `st_mode`, as a set of flags. It may hold other bits too, for example those kept by
/// `from_bits_retain`.
#[derive(Clone, Copy, Debug, PartialEq, Eq, Hash)]
pub struct RawPermissions(u32);

bitflag_items! {
    impl RawPermissions: u32 {
        /// The file runs as its owner.
        const SET_UID = 0o4000;
        /// The file runs as its group.
        const SET_GID = 0o2000;
        /// Only owners delete files of the directory.
        const SET_VTX = 0o1000;
        /// The owner may read.
        const READ_BY_OWNER = 0o400;
        /// The owner may write.
        const WRITE_BY_OWNER = 0o200;
        /// The owner may execute.
        const EXECUTE_BY_OWNER = 0o100;
        /// The group may read.
        const READ_BY_GROUP = 0o40;
        /// The group may write.
        const WRITE_BY_GROUP = 0o20;
        /// The group may execute.
        const EXECUTE_BY_GROUP = 0o10;
        /// Others may read.
        const READ_BY_OTHER = 0o4;
        /// Others may write.
        const WRITE_BY_OTHER = 0o2;
        /// Others may execute.
        const EXECUTE_BY_OTHER = 0o1;
    }
}

impl RawPermissions {
    /// Returns the bits as a number.
    pub fn bits(&self) -> u32
        ensures { result ≡ bits_of self.now }
    {
        self.0
    }
}

impl Flags for RawPermissions {
    type Bits = u32;

    ghost exact = { ⊤ };

    ghost table = { (codes "SET_UID", 0o4000) ∷ (codes "SET_GID", 0o2000) ∷ (codes "SET_VTX", 0o1000)
        ∷ (codes "READ_BY_OWNER", 0o400) ∷ (codes "WRITE_BY_OWNER", 0o200) ∷ (codes "EXECUTE_BY_OWNER", 0o100)
        ∷ (codes "READ_BY_GROUP", 0o40) ∷ (codes "WRITE_BY_GROUP", 0o20) ∷ (codes "EXECUTE_BY_GROUP", 0o10)
        ∷ (codes "READ_BY_OTHER", 0o4) ∷ (codes "WRITE_BY_OTHER", 0o2) ∷ (codes "EXECUTE_BY_OTHER", 0o1)
        ∷ [] };

    ghost set_of = { λ p. p.0 };

    fn flags<'a>() -> &'a [Flag<RawPermissions>] {
        RawPermissions::FLAGS
    }

    fn bits(&self) -> u32 {
        self.0
    }

    fn from_bits_retain(bits: u32) -> RawPermissions {
        RawPermissions(bits)
    }
}
