//! The permissions of a file.
ghost use Rattle.std.specs.Prelude.{◌≡◌, ℕ};
ghost use Rattle.sftp_model.specs.Readings.{permission_bits, has_bit};
ghost use Rattle.sftp_meta.specs.Permissions.{with_bit, is_readonly, with_readonly};
ghost use Rattle.sftp_meta.specs.RawPermissions.{bits_of};

use crate::raw_permissions::RawPermissions;
use bitflags::Flags;
use std::marker::Model;

/// The permissions of a file, as the low twelve bits of POSIX's `st_mode`. A contract sees them as the number of their
/// bits. Each setter changes its own bit and no other, and returns the permissions that it changed, so that setters can
/// be chained.
///
/// Example: `crates/test_wire/src/metadata.rt`.
#[derive(Clone, Copy, Debug, PartialEq, Eq, Hash)]
pub struct Permissions(RawPermissions);

impl Model for Permissions {
    ghost Value = { ℕ };

    ghost view = { λ p. p.0.0 };

    ghost inverse = { λ n. record { 0 = record { 0 = n } } };
}

impl Permissions {
    /// Returns no permissions.
    pub fn new() -> Permissions
        ensures { result ≡ 0 }
    {
        Permissions(RawPermissions::empty())
    }

    /// Returns the permissions of these flags, including any bit that no flag names.
    pub fn from_raw(p: RawPermissions) -> Permissions
        ensures { result ≡ bits_of p }
    {
        Permissions(p)
    }

    /// Returns the permissions of an `st_mode`, without the kind of file.
    pub(crate) fn of_mode(mode: u32) -> Permissions
        ensures { result ≡ permission_bits mode }
    {
        Permissions(RawPermissions::from_bits_retain(mode & 0o7777))
    }

    /// Returns the permissions as flags.
    pub fn as_raw(&self) -> RawPermissions
        ensures { bits_of result ≡ self.now }
    {
        self.0
    }

    /// Returns true if the file runs as its owner (set-user-id), `0o4000`.
    pub fn suid(&self) -> bool
        ensures { result ≡ has_bit self.now 0o4000 }
    {
        self.0.intersects(RawPermissions::SET_UID)
    }

    /// Sets whether the file runs as its owner (set-user-id), `0o4000`.
    pub fn set_suid(&mut self, value: bool) -> &mut Permissions
        ensures same_reference { result.ghost_name ≡ self.entry.ghost_name }
        ensures value { result.now ≡ with_bit self.old 0o4000 value }
    {
        self.0.set(RawPermissions::SET_UID, value);
        self
    }

    /// Returns true if the file runs as its group (set-group-id), `0o2000`.
    pub fn sgid(&self) -> bool
        ensures { result ≡ has_bit self.now 0o2000 }
    {
        self.0.intersects(RawPermissions::SET_GID)
    }

    /// Sets whether the file runs as its group (set-group-id), `0o2000`.
    pub fn set_sgid(&mut self, value: bool) -> &mut Permissions
        ensures same_reference { result.ghost_name ≡ self.entry.ghost_name }
        ensures value { result.now ≡ with_bit self.old 0o2000 value }
    {
        self.0.set(RawPermissions::SET_GID, value);
        self
    }

    /// Returns true if only owners delete files of the directory (sticky), `0o1000`.
    pub fn svtx(&self) -> bool
        ensures { result ≡ has_bit self.now 0o1000 }
    {
        self.0.intersects(RawPermissions::SET_VTX)
    }

    /// Sets whether only owners delete files of the directory (sticky), `0o1000`.
    pub fn set_vtx(&mut self, value: bool) -> &mut Permissions
        ensures same_reference { result.ghost_name ≡ self.entry.ghost_name }
        ensures value { result.now ≡ with_bit self.old 0o1000 value }
    {
        self.0.set(RawPermissions::SET_VTX, value);
        self
    }

    /// Returns true if the owner may read, `0o400`.
    pub fn read_by_owner(&self) -> bool
        ensures { result ≡ has_bit self.now 0o400 }
    {
        self.0.intersects(RawPermissions::READ_BY_OWNER)
    }

    /// Sets whether the owner may read, `0o400`.
    pub fn set_read_by_owner(&mut self, value: bool) -> &mut Permissions
        ensures same_reference { result.ghost_name ≡ self.entry.ghost_name }
        ensures value { result.now ≡ with_bit self.old 0o400 value }
    {
        self.0.set(RawPermissions::READ_BY_OWNER, value);
        self
    }

    /// Returns true if the owner may write, `0o200`.
    pub fn write_by_owner(&self) -> bool
        ensures { result ≡ has_bit self.now 0o200 }
    {
        self.0.intersects(RawPermissions::WRITE_BY_OWNER)
    }

    /// Sets whether the owner may write, `0o200`.
    pub fn set_write_by_owner(&mut self, value: bool) -> &mut Permissions
        ensures same_reference { result.ghost_name ≡ self.entry.ghost_name }
        ensures value { result.now ≡ with_bit self.old 0o200 value }
    {
        self.0.set(RawPermissions::WRITE_BY_OWNER, value);
        self
    }

    /// Returns true if the owner may execute, `0o100`.
    pub fn execute_by_owner(&self) -> bool
        ensures { result ≡ has_bit self.now 0o100 }
    {
        self.0.intersects(RawPermissions::EXECUTE_BY_OWNER)
    }

    /// Sets whether the owner may execute, `0o100`.
    pub fn set_execute_by_owner(&mut self, value: bool) -> &mut Permissions
        ensures same_reference { result.ghost_name ≡ self.entry.ghost_name }
        ensures value { result.now ≡ with_bit self.old 0o100 value }
    {
        self.0.set(RawPermissions::EXECUTE_BY_OWNER, value);
        self
    }

    /// Returns true if the group may read, `0o40`.
    pub fn read_by_group(&self) -> bool
        ensures { result ≡ has_bit self.now 0o40 }
    {
        self.0.intersects(RawPermissions::READ_BY_GROUP)
    }

    /// Sets whether the group may read, `0o40`.
    pub fn set_read_by_group(&mut self, value: bool) -> &mut Permissions
        ensures same_reference { result.ghost_name ≡ self.entry.ghost_name }
        ensures value { result.now ≡ with_bit self.old 0o40 value }
    {
        self.0.set(RawPermissions::READ_BY_GROUP, value);
        self
    }

    /// Returns true if the group may write, `0o20`.
    pub fn write_by_group(&self) -> bool
        ensures { result ≡ has_bit self.now 0o20 }
    {
        self.0.intersects(RawPermissions::WRITE_BY_GROUP)
    }

    /// Sets whether the group may write, `0o20`.
    pub fn set_write_by_group(&mut self, value: bool) -> &mut Permissions
        ensures same_reference { result.ghost_name ≡ self.entry.ghost_name }
        ensures value { result.now ≡ with_bit self.old 0o20 value }
    {
        self.0.set(RawPermissions::WRITE_BY_GROUP, value);
        self
    }

    /// Returns true if the group may execute, `0o10`.
    pub fn execute_by_group(&self) -> bool
        ensures { result ≡ has_bit self.now 0o10 }
    {
        self.0.intersects(RawPermissions::EXECUTE_BY_GROUP)
    }

    /// Sets whether the group may execute, `0o10`.
    pub fn set_execute_by_group(&mut self, value: bool) -> &mut Permissions
        ensures same_reference { result.ghost_name ≡ self.entry.ghost_name }
        ensures value { result.now ≡ with_bit self.old 0o10 value }
    {
        self.0.set(RawPermissions::EXECUTE_BY_GROUP, value);
        self
    }

    /// Returns true if others may read, `0o4`.
    pub fn read_by_other(&self) -> bool
        ensures { result ≡ has_bit self.now 0o4 }
    {
        self.0.intersects(RawPermissions::READ_BY_OTHER)
    }

    /// Sets whether others may read, `0o4`.
    pub fn set_read_by_other(&mut self, value: bool) -> &mut Permissions
        ensures same_reference { result.ghost_name ≡ self.entry.ghost_name }
        ensures value { result.now ≡ with_bit self.old 0o4 value }
    {
        self.0.set(RawPermissions::READ_BY_OTHER, value);
        self
    }

    /// Returns true if others may write, `0o2`.
    pub fn write_by_other(&self) -> bool
        ensures { result ≡ has_bit self.now 0o2 }
    {
        self.0.intersects(RawPermissions::WRITE_BY_OTHER)
    }

    /// Sets whether others may write, `0o2`.
    pub fn set_write_by_other(&mut self, value: bool) -> &mut Permissions
        ensures same_reference { result.ghost_name ≡ self.entry.ghost_name }
        ensures value { result.now ≡ with_bit self.old 0o2 value }
    {
        self.0.set(RawPermissions::WRITE_BY_OTHER, value);
        self
    }

    /// Returns true if others may execute, `0o1`.
    pub fn execute_by_other(&self) -> bool
        ensures { result ≡ has_bit self.now 0o1 }
    {
        self.0.intersects(RawPermissions::EXECUTE_BY_OTHER)
    }

    /// Sets whether others may execute, `0o1`.
    pub fn set_execute_by_other(&mut self, value: bool) -> &mut Permissions
        ensures same_reference { result.ghost_name ≡ self.entry.ghost_name }
        ensures value { result.now ≡ with_bit self.old 0o1 value }
    {
        self.0.set(RawPermissions::EXECUTE_BY_OTHER, value);
        self
    }

    /// Returns true if nobody may write: neither the owner, nor the group, nor others.
    pub fn readonly(&self) -> bool
        ensures { result ≡ is_readonly self.now }
    {
        !self.write_by_owner() && !self.write_by_group() && !self.write_by_other()
    }

    /// Removes write permission from everybody if `readonly` is true, and gives it to the owner, the group and others
    /// otherwise. No file changes by it.
    #[tactic(auto, using(crate::proofs::Bits::readonly_after))]
    pub fn set_readonly(&mut self, readonly: bool)
        ensures value { self.new ≡ with_readonly self.old readonly }
        ensures reads_back { is_readonly self.new ≡ readonly }
    {
        self.set_write_by_owner(!readonly)
            .set_write_by_group(!readonly)
            .set_write_by_other(!readonly);
    }
}

impl Default for Permissions {
    ghost is_default = { λ p. p ≡ 0 };

    /// Returns no permissions.
    fn default() -> Permissions {
        Permissions::new()
    }
}

impl From<u16> for Permissions {
    ghost from_gives = { λ mode p. p ≡ permission_bits mode };

    /// Returns the permissions of an `st_mode`, such as `0o755`. Bits over `0o7777` are ignored.
    fn from(mode: u16) -> Permissions {
        Permissions::of_mode(u32::from(mode))
    }
}
