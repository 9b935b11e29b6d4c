//! The first program of the page of `sftp_client`: a file that is written and read, and a directory that is listed.
ghost use Rattle.std.specs.Prelude.{IfOk};
ghost use Rattle.example_client.specs.First.{IsVisit};
ghost use Rattle.sftp_client.specs.Calls.{IsUsable};

use bytes::Bytes;
use sftp_client::{DirEntry, Error, Link, Sftp};

/// Writes a note, reads its first bytes, at most 4096, and lists the directory. Returns the bytes and the entries.
///
/// # Errors
///
/// The error of the session or the server. The file is closed then.
pub fn visit<L: Link>(sftp: &mut Sftp<L>) -> Result<(Option<Bytes>, Vec<DirEntry>), Error>
    requires { IsUsable L.LinkState.state sftp.old }
    ensures { IfOk result (λ seen. IsVisit L.LinkState.state sftp.old sftp.new seen.0 seen.1.items) }
{
    sftp.write_file(b"notes.txt", b"buy milk\n")?;
    let mut file = sftp.open(b"notes.txt")?;
    match sftp.read(&mut file, 4096) {
        Ok(start) => {
            sftp.close_file(file)?;
            let entries = sftp.read_dir(b".")?;
            Ok((start, entries))
        }
        Err(e) => {
            sftp.release_file(file);
            Err(e)
        }
    }
}
