//! The requests that name a file, and the extensions that a server offers for them.
ghost use Rattle.std.specs.Prelude.{◌≡◌, true, IfOk};
ghost use Rattle.sftp_core.specs.Core.{is_call};
ghost use Rattle.sftp_model.specs.OpenOptions.{flags_of};
ghost use Rattle.sftp_model.specs.Frames.{no_attributes};
ghost use Rattle.sftp_model.specs.declared.request.Request.TheVariants as request;
ghost use Rattle.plan_model.specs.FilePlans.{open_request};
ghost use Rattle.sftp_core.specs.Info.{info_of};
ghost use Rattle.transfer_copy.specs.PutRequests.{has_extension, naming_request};

use crate::aside::aside_of;
use crate::put::PutStage;
use bitflags::Flags;
use sftp_core::Core;
use sftp_model::{Extensions, FileAttrs, OpenOptions, RemotePath, Request};
use ssh_encoding::OutOfMemory;
use std::alloc::Global;

/// Returns true if the server offers this extension (OpenSSH's PROTOCOL, sections 4.3 and 4.6).
pub(crate) fn offers(core: &Core, extension: Extensions) -> bool
    ensures { result ≡ has_extension extension.0 (info_of core.now.phase) }
{
    match core.info() {
        Some(info) => info.extensions.bits() & extension.bits() != 0,
        None => false,
    }
}

/// Returns the path of these bytes. Fails only if an allocation fails.
pub(crate) fn path(alloc: Global, bytes: &str) -> Result<RemotePath, OutOfMemory>
    ensures { IfOk result (λ path. path ≡ bytes.now) }
{
    Ok(RemotePath::new(Vec::from_slice(alloc, bytes.as_bytes())?))
}

/// Returns the OPEN of a path, with attributes without fields (draft-ietf-secsh-filexfer-02, section 6.3). Fails only
/// if an allocation fails.
pub(crate) fn open_request(
    alloc: Global,
    options: OpenOptions,
    name: &str,
) -> Result<Request, OutOfMemory>
    ensures is { IfOk result (λ asked. asked ≡ open_request (flags_of options) name.now) }
    ensures call { IfOk result (λ asked. is_call asked ≡ true) }
{
    open_with(alloc, options, None, name)
}

/// Returns the OPEN of a path, with the permissions of a file that it creates, or none (draft-ietf-secsh-filexfer-02,
/// section 6.3). Fails only if an allocation fails.
pub(crate) fn open_with(
    alloc: Global,
    options: OpenOptions,
    permissions: Option<u32>,
    name: &str,
) -> Result<Request, OutOfMemory>
    ensures is { IfOk result (λ asked. asked ≡ request.OpenFile name.now (flags_of options)
        (record no_attributes { permissions = permissions })) }
    ensures call { IfOk result (λ asked. is_call asked ≡ true) }
{
    Ok(Request::OpenFile {
        path: path(alloc, name)?,
        flags: options.flags(),
        attrs: FileAttrs {
            size: None,
            id: None,
            permissions,
            time: None,
        },
    })
}

/// Returns the RENAME of the part (draft-ietf-secsh-filexfer-02, section 6.5). Fails only if an allocation fails.
fn rename_request(alloc: Global, part: &str, remote: &str) -> Result<Request, OutOfMemory>
    ensures is { IfOk result (λ asked. asked ≡ request.Rename part.now remote.now) }
    ensures call { IfOk result (λ asked. is_call asked ≡ true) }
{
    Ok(Request::Rename {
        old: path(alloc, part)?,
        to: path(alloc, remote)?,
    })
}

/// Returns the request that is awaited at a stage of the end, at which the part gets its name. Fails only if an
/// allocation fails.
pub(crate) fn naming_request(
    alloc: Global,
    part: &str,
    remote: &str,
    stage: PutStage,
) -> Result<Request, OutOfMemory>
    ensures is { IfOk result (λ asked. asked ≡ naming_request part.now remote.now stage) }
    ensures call { IfOk result (λ asked. is_call asked ≡ true) }
{
    match stage {
        PutStage::Replacing => Ok(Request::PosixRename {
            old: path(alloc, part)?,
            to: path(alloc, remote)?,
        }),
        PutStage::Renaming => rename_request(alloc, part, remote),
        PutStage::SettingAside => Ok(Request::Rename {
            old: path(alloc, remote)?,
            to: aside_of(alloc, part)?,
        }),
        PutStage::RenamingAgain => rename_request(alloc, part, remote),
        PutStage::RemovingOld => Ok(Request::Remove {
            path: aside_of(alloc, part)?,
        }),
        PutStage::RestoringOld => Ok(Request::Rename {
            old: aside_of(alloc, part)?,
            to: path(alloc, remote)?,
        }),
        _ => Ok(Request::Lstat {
            path: path(alloc, remote)?,
        }),
    }
}
