//! Limits of a session, as its core reports them.
ghost use Rattle.std.specs.Prelude.{◌≡◌, ◌≤◌, IsSome};
ghost use Rattle.sftp_core.specs.Info.{info_of};
ghost use Rattle.sftp_file.specs.Files.{facts_of};
ghost use Rattle.sftp_model.specs.Numbers.{MAX_TRANSFER_LEN};

use sftp_core::Core;

/// Returns the most bytes of a buffered file's deferred writes, at least 1.
pub(crate) fn write_limit(core: &Core) -> u64
    ensures { result ≡ (facts_of core.now).write_limit }
{
    (core.options().get_tokio_compat_file_write_limit() as u64).max(1)
}

/// Returns the most bytes that one WRITE carries.
pub(crate) fn write_len(core: &Core) -> u32
    requires { IsSome (info_of core.now.phase) }
    ensures is { result ≡ (facts_of core.now).write_len }
    ensures range { result ≤ MAX_TRANSFER_LEN }
{
    match core.info() {
        Some(info) => info.write_len,
        None => unreachable!(),
    }
}

/// Returns the most bytes that one READ asks for.
pub(crate) fn read_len(core: &Core) -> u32
    requires { IsSome (info_of core.now.phase) }
    ensures { result ≡ (facts_of core.now).read_len }
{
    match core.info() {
        Some(info) => info.read_len,
        None => unreachable!(),
    }
}
