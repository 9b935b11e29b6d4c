//! Calls on links, over a server whose replies are a script: the server in memory has no links.
ghost use Rattle.std.specs.Prelude.{◌<◌, ◌-◌, ◌^◌, IfOk, IfSome, IsSome};
ghost use Rattle.sftp_core.specs.Info.{info_of};

use crate::offers::session;
use sftp_client::{Error, Sftp};
use sftp_link::{Scripted, ScriptedLink};
use sftp_values::ByteText;
use std::alloc::{AllocError, Global};
use std::test::Fail;

/// Returns the reply to a request: its type, and its fields after the id.
fn reply(alloc: Global, request: u32, kind: u8, fields: &[u8]) -> Result<Scripted, AllocError> {
    Ok(Scripted::To {
        request,
        flip: 0,
        kind,
        fields: ByteText::new(Vec::from_slice(alloc, fields)?),
    })
}

/// Returns a server that offers hard links. It answers the first two requests by SSH_FX_OK, and the third by a NAME.
fn server(alloc: Global) -> Result<ScriptedLink, AllocError>
    ensures { IfOk result (λ link. link.calls.faults < 2 ^ 64 - 1) }
{
    let mut items = Vec::with_capacity(alloc, 4)?;
    items.push(Scripted::Raw(ByteText::new(Vec::from_slice(alloc, VERSION)?)))?;
    items.push(reply(alloc, 1, 101, DONE)?)?;
    items.push(reply(alloc, 2, 101, DONE)?)?;
    items.push(reply(alloc, 3, 104, TARGET)?)?;
    Ok(ScriptedLink::new(alloc, items, Vec::new(alloc), 64))
}

/// Returns true if links are created, and the target of one is read.
fn links(sftp: &mut Sftp<ScriptedLink>) -> Result<bool, Error>
    requires opened { IsSome (info_of sftp.old.core.phase) }
    requires count { sftp.old.link.calls.faults < 2 ^ 64 - 1 }
{
    sftp.hard_link(b"a", b"b")?;
    sftp.symlink(b"a", b"l")?;
    Ok(sftp.read_link(b"l")?.as_bytes() == b"a".as_slice())
}

#[test]
fn links_are_created(rt: HostRuntime) -> Result<(), Fail> {
    let met = match session(rt.alloc(), server(rt.alloc())?) {
        Some(mut sftp) => links(&mut sftp) == Ok(true),
        None => false,
    };
    assert!(rt; met);
    Ok(())
}

/// A VERSION that offers `hardlink@openssh.com`.
const VERSION: &[u8] = b"\0\0\0\x22\x02\0\0\0\x03\0\0\0\x14hardlink@openssh.com\0\0\0\x011";

/// The fields of a STATUS of SSH_FX_OK.
const DONE: &[u8] = b"\0\0\0\0\0\0\0\0\0\0\0\0";

/// The fields of a NAME of one entry, `a`, without a long name and attributes.
const TARGET: &[u8] = b"\0\0\0\x01\0\0\0\x01a\0\0\0\0\0\0\0\0";
