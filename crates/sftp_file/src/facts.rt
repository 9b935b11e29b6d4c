//! Facts that plans use, as a core reports them.
ghost use Rattle.std.specs.Prelude.{◌≡◌, ◌≤◌, IsSome};
ghost use Rattle.sftp_core.specs.Info.{info_of};
ghost use Rattle.sftp_model.specs.Numbers.{MAX_TRANSFER_LEN};
ghost use Rattle.sftp_file.specs.Files.{facts_of};

use sftp_core::Core;
use sftp_model::Facts;

/// Returns the facts that a session fixes.
pub(crate) fn facts(core: &Core) -> Facts
    requires { IsSome (info_of core.now.phase) }
    ensures is { result ≡ facts_of core.now }
    ensures read_range { (1 ≤ result.read_len) × (result.read_len ≤ MAX_TRANSFER_LEN) }
    ensures write_range { (1 ≤ result.write_len) × (result.write_len ≤ MAX_TRANSFER_LEN) }
{
    let options = core.options();
    let Some(info) = core.info() else {
        unreachable!()
    };
    Facts {
        extensions: info.extensions,
        read_len: info.read_len,
        write_len: info.write_len,
        write_limit: (options.get_tokio_compat_file_write_limit() as u64).max(1),
        read_window: options.get_read_window().max(1).min(64),
    }
}
