//! Calls on paths.
ghost use Rattle.std.specs.Prelude.{◌≡◌, option_map};
ghost use Rattle.plan_model.specs.PathPlans.{lstat_next, read_link_next, remove_next, rename_next, rmdir_next, stat_next, symlink_next};
ghost use Rattle.sftp_file.specs.Settles.{settle_meaning};
ghost use Rattle.sftp_file.specs.Tells.{attrs_meaning};
ghost use Rattle.sftp_fs.specs.Names.{name_meaning};
ghost use Rattle.sftp_fs.specs.SettingPlans.{make_dir_next, set_attrs_next};
ghost use Rattle.sftp_model.specs.Frames.{no_attributes};
ghost use Rattle.sftp_model.specs.Readings.{permission_bits};
ghost use Rattle.transfer_pool.specs.Sessions.{IsGoing};
ghost use Rattle.transfer_remote.specs.Failures.{remote_result};
ghost use Rattle.transfer_remote.specs.RemoteCalls.{CallsRemote};

use crate::remote_error::RemoteError;
use sftp_client::Sftp;
use sftp_link::Link;
use sftp_meta::{MetaData, Permissions};
use sftp_model::{Error, FileAttrs, RemotePath};
use std::alloc::Global;

/// Returns the result of a call of a session, with its error as a failure.
pub(crate) fn settled<V>(answer: Result<V, Error>) -> Result<V, RemoteError>
    ensures { result ≡ remote_result answer }
{
    // No `?`: it converts the error, and the clause is an equation.
    match answer {
        Ok(value) => Ok(value),
        Err(e) => Err(e.into()),
    }
}

/// Returns the low twelve bits of a mode as permissions.
fn permissions_of(mode: Option<u32>) -> Option<Permissions>
    ensures { result ≡ option_map permission_bits mode }
{
    let attrs = FileAttrs {
        size: None,
        id: None,
        permissions: mode,
        time: None,
    };
    MetaData::new(attrs).permissions()
}

/// Creates a directory (draft-ietf-secsh-filexfer-02, section 6.6). Of a mode the low twelve bits are sent as the
/// permissions that the directory is created with; without one the server chooses them.
///
/// # Errors
///
/// A `RemoteError` if the server refuses, the session fails or an allocation fails; the session stays open.
pub fn make_remote_folder<L: Link>(
    _alloc: Global,
    sftp: &mut Sftp<L>,
    path: &[u8],
    mode: Option<u32>,
) -> Result<(), RemoteError>
    requires { IsGoing L.LinkState.state sftp.old }
    ensures { CallsRemote settle_meaning (make_dir_next path.now
        (record no_attributes { permissions = option_map permission_bits mode })) L.LinkState.state sftp.old sftp.new
        result }
{
    settled(sftp.create_dir_with(path, permissions_of(mode)))
}

/// Renames a file, a directory or a symbolic link (draft-ietf-secsh-filexfer-02, section 6.5). If the server offers
/// `posix-rename@openssh.com` (OpenSSH's PROTOCOL, section 4.3), that is sent, which replaces a file that has the new
/// name.
///
/// # Errors
///
/// A `RemoteError` if the server refuses, the session fails or an allocation fails; the session stays open.
pub fn rename_remote<L: Link>(
    _alloc: Global,
    sftp: &mut Sftp<L>,
    from: &[u8],
    to: &[u8],
) -> Result<(), RemoteError>
    requires { IsGoing L.LinkState.state sftp.old }
    ensures { CallsRemote settle_meaning (rename_next from.now to.now) L.LinkState.state sftp.old sftp.new result }
{
    settled(sftp.rename(from, to))
}

/// Removes a file or a symbolic link (draft-ietf-secsh-filexfer-02, section 6.5).
///
/// # Errors
///
/// A `RemoteError` if the server refuses, the session fails or an allocation fails; the session stays open.
pub fn remove_remote<L: Link>(
    _alloc: Global,
    sftp: &mut Sftp<L>,
    path: &[u8],
) -> Result<(), RemoteError>
    requires { IsGoing L.LinkState.state sftp.old }
    ensures { CallsRemote settle_meaning (remove_next path.now) L.LinkState.state sftp.old sftp.new result }
{
    settled(sftp.remove_file(path))
}

/// Removes an empty directory (draft-ietf-secsh-filexfer-02, section 6.6).
///
/// # Errors
///
/// A `RemoteError` if the server refuses, for example because the directory is not empty, the session fails or an
/// allocation fails; the session stays open.
pub fn remove_remote_folder<L: Link>(
    _alloc: Global,
    sftp: &mut Sftp<L>,
    path: &[u8],
) -> Result<(), RemoteError>
    requires { IsGoing L.LinkState.state sftp.old }
    ensures { CallsRemote settle_meaning (rmdir_next path.now) L.LinkState.state sftp.old sftp.new result }
{
    settled(sftp.remove_dir(path))
}

/// Creates a symbolic link at a path (draft-ietf-secsh-filexfer-02, section 6.10, in the order that OpenSSH's server
/// reads).
///
/// # Errors
///
/// A `RemoteError` if the server refuses, the session fails or an allocation fails; the session stays open.
pub fn make_remote_link<L: Link>(
    _alloc: Global,
    sftp: &mut Sftp<L>,
    names: &[u8],
    path: &[u8],
) -> Result<(), RemoteError>
    requires { IsGoing L.LinkState.state sftp.old }
    ensures { CallsRemote settle_meaning (symlink_next names.now path.now) L.LinkState.state sftp.old sftp.new result }
{
    settled(sftp.symlink(names, path))
}

/// Returns the target of the symbolic link at a path (draft-ietf-secsh-filexfer-02, section 6.10).
///
/// # Errors
///
/// A `RemoteError` if the server refuses, the session fails or an allocation fails; the session stays open.
pub fn read_remote_link<L: Link>(
    _alloc: Global,
    sftp: &mut Sftp<L>,
    path: &[u8],
) -> Result<RemotePath, RemoteError>
    requires { IsGoing L.LinkState.state sftp.old }
    ensures { CallsRemote name_meaning (read_link_next path.now) L.LinkState.state sftp.old sftp.new result }
{
    settled(sftp.read_link(path))
}

/// Returns the metadata that the server reports for a path; a symbolic link is followed (draft-ietf-secsh-filexfer-02,
/// section 6.8).
///
/// # Errors
///
/// A `RemoteError` if the server refuses, the session fails or an allocation fails; the session stays open.
pub fn remote_metadata<L: Link>(
    _alloc: Global,
    sftp: &mut Sftp<L>,
    path: &[u8],
) -> Result<MetaData, RemoteError>
    requires { IsGoing L.LinkState.state sftp.old }
    ensures { CallsRemote attrs_meaning (stat_next path.now) L.LinkState.state sftp.old sftp.new result }
{
    settled(sftp.metadata(path))
}

/// Returns the metadata that the server reports for a path; a symbolic link is not followed, and its own metadata is
/// returned (draft-ietf-secsh-filexfer-02, section 6.8).
///
/// # Errors
///
/// A `RemoteError` if the server refuses, the session fails or an allocation fails; the session stays open.
pub fn remote_link_metadata<L: Link>(
    _alloc: Global,
    sftp: &mut Sftp<L>,
    path: &[u8],
) -> Result<MetaData, RemoteError>
    requires { IsGoing L.LinkState.state sftp.old }
    ensures { CallsRemote attrs_meaning (lstat_next path.now) L.LinkState.state sftp.old sftp.new result }
{
    settled(sftp.symlink_metadata(path))
}

/// Sets the attributes that are given (draft-ietf-secsh-filexfer-02, section 6.9).
///
/// # Errors
///
/// A `RemoteError` if the server refuses, the session fails or an allocation fails; the session stays open.
pub fn set_remote_attrs<L: Link>(
    _alloc: Global,
    sftp: &mut Sftp<L>,
    path: &[u8],
    attrs: FileAttrs,
) -> Result<(), RemoteError>
    requires { IsGoing L.LinkState.state sftp.old }
    ensures { CallsRemote settle_meaning (set_attrs_next path.now attrs) L.LinkState.state sftp.old sftp.new result }
{
    settled(sftp.set_metadata(path, MetaData::new(attrs)))
}
