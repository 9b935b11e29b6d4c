//! A name and a port, as RFC 4251 writes them: a `string` and a `uint32`.
ghost use Rattle.std.specs.Prelude.{◌≡◌, ◌++◌, IfOk, OnOk};
ghost use Rattle.std.specs.String.{string_bytes};
ghost use Rattle.ssh_encoding.specs.Writing.{string, uint32};
ghost use Rattle.example_encoding.specs.Host.{IsHost};

use ssh_encoding::{Encode, Reader, Result, decode_exact};
use std::alloc::Global;

/// Appends a name and a port.
///
/// # Errors
///
/// The error of writing one of them.
pub fn write_host(name: &String, port: u32, out: &mut Vec<u8>) -> Result<()>
    ensures { OnOk result (out.new.items ≡ out.old.items ++ string (string_bytes name.now) ++ uint32 port) }
{
    name.encode(out)?;
    port.encode(out)
}

/// Reads a name and a port, and fails if bytes follow them.
///
/// # Errors
///
/// The error of reading one of them, or `TrailingData` if bytes follow the port.
pub fn read_host(alloc: Global, bytes: &[u8]) -> Result<(String, u32)>
    ensures { IfOk result (λ host. IsHost (string_bytes host.0) host.1 bytes.now) }
{
    let mut reader = bytes;
    let name: String = decode_exact(alloc, &mut reader)?;
    let port: u32 = decode_exact(alloc, &mut reader)?;
    reader.finish((name, port))
}
