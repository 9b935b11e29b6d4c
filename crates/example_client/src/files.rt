//! Files of a server, written and read whole, one call after another.
ghost use Rattle.std.specs.Prelude.{◌≡◌, ◌++◌, OnOk, IfOk};
ghost use Rattle.example_client.specs.Files.{HasFile, IsGot, IsPut, IsReadToEnd};
ghost use Rattle.sftp_client.specs.Calls.{IsUsable};

use sftp_client::{Error, File, Link, Sftp};
use std::alloc::Global;

/// Writes a file whole: it is created if it doesn't exist, and truncated if it does.
///
/// # Errors
///
/// The error of the session or the server. The file is closed then, and has the bytes that were written before it.
pub fn put<L: Link>(sftp: &mut Sftp<L>, path: &[u8], content: &[u8]) -> Result<(), Error>
    requires { IsUsable L.LinkState.state sftp.old }
    ensures { OnOk result (IsPut path.now content.now L.LinkState.state sftp.old sftp.new) }
{
    let mut file = sftp.create(path)?;
    match sftp.write_all(&mut file, content) {
        Ok(()) => sftp.close_file(file),
        Err(e) => {
            sftp.release_file(file);
            Err(e)
        }
    }
}

/// Reads a file whole, one READ after another.
///
/// # Errors
///
/// The error of the session or the server. The file is closed then, and the bytes that were read are dropped.
pub fn get<L: Link>(alloc: Global, sftp: &mut Sftp<L>, path: &[u8]) -> Result<Vec<u8>, Error>
    requires { IsUsable L.LinkState.state sftp.old }
    ensures { IfOk result (λ bytes. IsGot path.now L.LinkState.state sftp.old sftp.new bytes.items) }
{
    let mut file = sftp.open(path)?;
    match read_to_end(alloc, sftp, &mut file) {
        Ok(bytes) => {
            sftp.close_file(file)?;
            Ok(bytes)
        }
        Err(e) => {
            sftp.release_file(file);
            Err(e)
        }
    }
}

/// Reads from the offset of the file to its end.
fn read_to_end<L: Link>(
    alloc: Global,
    sftp: &mut Sftp<L>,
    file: &mut File,
) -> Result<Vec<u8>, Error>
    requires usable { IsUsable L.LinkState.state sftp.old }
    requires held { HasFile sftp.old file.old }
    ensures read { IfOk result (λ bytes. IsReadToEnd L.LinkState.state sftp.old sftp.new file.old file.new bytes.items) }
    ensures held { HasFile sftp.new file.new }
    ensures usable { OnOk result (IsUsable L.LinkState.state sftp.new) }
{
    let len = sftp.max_read_len();
    let mut bytes = Vec::new(alloc);
    for _ in 0..u64::MAX {
        match sftp.read(file, len)? {
            Some(part) => append(&mut bytes, &part)?,
            None => return Ok(bytes),
        }
    }
    Err(Error::OutOfMemory)
}

/// Appends bytes.
pub(crate) fn append(bytes: &mut Vec<u8>, part: &[u8]) -> Result<(), Error>
    ensures { OnOk result (bytes.new.items ≡ bytes.old.items ++ part.now) }
{
    match bytes.extend_from_slice(part) {
        Ok(()) => Ok(()),
        Err(_) => Err(Error::OutOfMemory),
    }
}
