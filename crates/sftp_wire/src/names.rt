//! The names of the extensions (OpenSSH's PROTOCOL, section 4; `copy-data` belongs to
//! draft-ietf-secsh-filexfer-extensions-00, section 7).

pub(crate) const POSIX_RENAME: &[u8] = b"posix-rename@openssh.com";

pub(crate) const HARDLINK: &[u8] = b"hardlink@openssh.com";

pub(crate) const FSYNC: &[u8] = b"fsync@openssh.com";

pub(crate) const EXPAND_PATH: &[u8] = b"expand-path@openssh.com";

pub(crate) const COPY_DATA: &[u8] = b"copy-data";

pub(crate) const LIMITS: &[u8] = b"limits@openssh.com";

/// The value of each of the six in a pair of VERSION.
pub(crate) const VALUE: &[u8] = b"1";
