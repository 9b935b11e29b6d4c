//! The server in memory, and a session over it.
ghost use Rattle.std.specs.Prelude.{◌≡◌, true, IfOk, IsSome};
ghost use Rattle.sftp_core.specs.Info.{info_of};

use bitflags::Flags;
use sftp_client::{Extensions, Sftp, SftpOptions};
use sftp_map_server::{Choice, MapServer, ServerConfig, may_begin};
use sftp_values::Items;
use std::alloc::Global;
use std::test::Fail;

/// A session over the server in memory.
pub(crate) type Session = Sftp<MapServer>;

/// Returns an empty server that offers all extensions except limits. It moves at most `cut` bytes a call, if that is
/// not 0, and gives at most `cap` bytes a DATA to its first requests. It uses these picks of the replies that wait.
pub(crate) fn server(alloc: Global, cut: u32, cap: u32, picks: &[u32]) -> Result<MapServer, Fail> {
    let config = ServerConfig {
        extensions: Extensions::from_bits_retain(31),
        limits: None,
        cut,
    };
    let mut choices = Vec::new(alloc);
    choices.resize(100, Choice { refuse: 0, cap })?;
    let picks = Items::new(Vec::from_slice(alloc, picks)?);
    if !may_begin(alloc, &[], &[])? {
        return Err("it may not begin")?;
    }
    Ok(MapServer::new(alloc, &[], config, Items::new(choices), picks)?)
}

/// Returns a session with it. READs ask for at most 4 bytes, of which 3 may be under way, and WRITEs carry 3.
pub(crate) fn open_session(alloc: Global, server: MapServer) -> Result<Session, Fail> {
    let options = SftpOptions::new()
        .max_read_len(4)
        .max_write_len(3)
        .read_window(3);
    match Sftp::new(alloc, server, &options) {
        Ok(sftp) => Ok(sftp),
        Err((_e, _server)) => Err("it didn't open")?,
    }
}

/// Returns true if a session is open.
pub(crate) fn is_open(sftp: &mut Session) -> bool
    ensures { result ≡ true → IsSome (info_of sftp.new.core.phase) }
{
    sftp.core().info().is_some()
}
