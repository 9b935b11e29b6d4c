//! Tests of what a session offers by the extensions of its VERSION (OpenSSH's PROTOCOL, section 4; `copy-data` of
//! draft-ietf-secsh-filexfer-extensions-00, section 7), and of its lengths.
ghost use Rattle.std.specs.Prelude.{◌<◌, ◌-◌, ◌^◌, IfOk, IfSome, IsSome};
ghost use Rattle.sftp_core.specs.Info.{info_of};

use sftp_client::{OpenOptions, Sftp, SftpOptions};
use sftp_link::{Scripted, ScriptedLink};
use sftp_values::ByteText;
use std::alloc::{AllocError, Global};
use std::test::Fail;

/// The offers: a path's whole name, a sync, a hard link, a rename that replaces, a copy.
type Offers = [bool; 5];

/// A VERSION, its offers, and the most bytes that a READ asks for and that a WRITE carries.
type Row = (&'static [u8], Offers, (u32, u32));

/// Returns a server that sends this VERSION, and answers the query for limits.
fn server(alloc: Global, version: &[u8]) -> Result<ScriptedLink, AllocError>
    ensures { IfOk result (λ link. link.calls.faults < 2 ^ 64 - 1) }
{
    let mut items = Vec::with_capacity(alloc, 2)?;
    items.push(Scripted::Raw(ByteText::new(Vec::from_slice(alloc, version)?)))?;
    items.push(Scripted::To {
        request: 1,
        flip: 0,
        kind: 201,
        fields: ByteText::new(Vec::from_slice(alloc, LIMITS)?),
    })?;
    Ok(ScriptedLink::new(alloc, items, Vec::new(alloc), 64))
}

/// Returns a session over a link, if it opens.
pub(crate) fn session(alloc: Global, link: ScriptedLink) -> Option<Sftp<ScriptedLink>>
    requires { link.calls.faults < 2 ^ 64 - 1 }
    ensures opened { IfSome result (λ sftp. IsSome (info_of sftp.core.phase)) }
    ensures count { IfSome result (λ sftp. sftp.link.calls.faults < 2 ^ 64 - 1) }
{
    match Sftp::new(alloc, link, &SftpOptions::new()) {
        Ok(sftp) => Some(sftp),
        Err((_e, _link)) => None,
    }
}

/// Returns true if a session offers this. At rest it has nothing to send or to take, and its options choose nothing.
fn is_offered(sftp: &mut Sftp<ScriptedLink>, offers: Offers, lens: (u32, u32)) -> bool
    requires opened { IsSome (info_of sftp.old.core.phase) }
    requires count { sftp.old.link.calls.faults < 2 ^ 64 - 1 }
{
    let told = [
        sftp.support_expand_path(),
        sftp.support_fsync(),
        sftp.support_hardlink(),
        sftp.support_posix_rename(),
        sftp.support_copy(),
    ];
    told == offers
        && (sftp.max_read_len(), sftp.max_write_len()) == lens
        && sftp.options().flags() == OpenOptions::new().flags()
        && sftp.manual_flush().is_ok()
}

/// Returns true if a session offers what its VERSION says.
fn is_met(alloc: Global, row: Row) -> Result<bool, Fail> {
    let (version, offers, lens) = row;
    match session(alloc, server(alloc, version)?) {
        Some(mut sftp) => Ok(is_offered(&mut sftp, offers, lens)),
        None => Ok(false),
    }
}

#[test]
fn each_extension_alone(rt: HostRuntime) -> Result<(), Fail> {
    for row in ROWS {
        assert!(rt; is_met(rt.alloc(), row)?);
    }
    Ok(())
}

/// The fields of the reply to the query for limits: frames of 2000 bytes, READs of 1000, WRITEs of 500, and no limit on
/// handles.
const LIMITS: &[u8] =
    b"\0\0\0\0\0\0\x07\xd0\0\0\0\0\0\0\x03\xe8\0\0\0\0\0\0\x01\xf4\0\0\0\0\0\0\0\0";

const PLAIN: (u32, u32) = (32768, 32768);

const ROWS: [Row; 7] = [
    (
        b"\0\0\0\x05\x02\0\0\0\x03",
        [false, false, false, false, false],
        PLAIN,
    ),
    (
        b"\0\0\0\x25\x02\0\0\0\x03\0\0\0\x17expand-path@openssh.com\0\0\0\x011",
        [true, false, false, false, false],
        PLAIN,
    ),
    (
        b"\0\0\0\x1f\x02\0\0\0\x03\0\0\0\x11fsync@openssh.com\0\0\0\x011",
        [false, true, false, false, false],
        PLAIN,
    ),
    (
        b"\0\0\0\x22\x02\0\0\0\x03\0\0\0\x14hardlink@openssh.com\0\0\0\x011",
        [false, false, true, false, false],
        PLAIN,
    ),
    (
        b"\0\0\0\x26\x02\0\0\0\x03\0\0\0\x18posix-rename@openssh.com\0\0\0\x011",
        [false, false, false, true, false],
        PLAIN,
    ),
    (
        b"\0\0\0\x17\x02\0\0\0\x03\0\0\0\x09copy-data\0\0\0\x011",
        [false, false, false, false, true],
        PLAIN,
    ),
    (
        b"\0\0\0\x20\x02\0\0\0\x03\0\0\0\x12limits@openssh.com\0\0\0\x011",
        [false, false, false, false, false],
        (1000, 500),
    ),
];
