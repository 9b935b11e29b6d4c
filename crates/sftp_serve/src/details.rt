//! The attributes and long names that replies have with `--long`.
ghost use Rattle.std.specs.Prelude.{◌≡◌, map, IfOk};
ghost use Rattle.sftp_model.specs.Frames.{reply_frame};
ghost use Rattle.machine_model.specs.FitTrees.{MayReply};
ghost use Rattle.sftp_serve.specs.Details.{full_attrs, full_entry, full_reply, has_attrs, long_name, mode_text, shown_reply};

use itoa::Buffer;
use sftp_map_server::frame_of;
use sftp_model::{FileAttrs, NameEntry, RemotePath, Reply};
use sftp_values::{ByteText, Items};
use ssh_encoding::OutOfMemory;
use std::alloc::Global;

/// The mode of a file: a regular file that its owner may write and everybody may read.
const FILE_MODE: u32 = 33188;

/// The spaces before a number in a column.
const SPACES: &[u8] = b"        ";

/// Returns the attributes, with those that the machine does not keep.
fn full_attrs(attrs: FileAttrs) -> FileAttrs
    ensures { result ≡ full_attrs attrs }
{
    FileAttrs {
        size: Some(attrs.size.unwrap_or(0)),
        id: Some((0, 0)),
        permissions: Some(attrs.permissions.unwrap_or(FILE_MODE)),
        time: Some((0, 0)),
    }
}

/// Returns the first column of a listing. The machine reports permissions of directories alone.
fn mode_text(permissions: Option<u32>) -> &'static [u8]
    ensures { result.now ≡ mode_text permissions }
{
    match permissions {
        Some(_) => b"drwxr-xr-x",
        None => b"-rw-r--r--",
    }
}

/// Returns the line of a file in a listing. Fails only if an allocation fails.
fn long_name(alloc: Global, name: &[u8], attrs: FileAttrs) -> Result<Vec<u8>, OutOfMemory>
    ensures { IfOk result (λ text. text.items ≡ long_name name.now attrs) }
{
    let mut buffer = Buffer::new();
    let digits = buffer.format(attrs.size.unwrap_or(0)).as_bytes();
    let mut text = Vec::from_slice(alloc, mode_text(attrs.permissions))?;
    text.extend_from_slice(b"    1 root     root     ")?;
    text.extend_from_slice(&SPACES[digits.len().min(8)..])?;
    text.extend_from_slice(digits)?;
    text.extend_from_slice(b" Jan  1  1970 ")?;
    text.extend_from_slice(name)?;
    Ok(text)
}

/// Returns an entry of a listing with its long name and all attributes. Fails only if an allocation fails.
fn full_entry(alloc: Global, entry: &NameEntry) -> Result<NameEntry, OutOfMemory>
    ensures { IfOk result (λ full. full ≡ full_entry entry.now) }
{
    let filename = RemotePath::new(Vec::from_slice(alloc, entry.filename.as_bytes())?);
    if entry.attrs.size.is_none() && entry.attrs.permissions.is_none() {
        let longname = ByteText::new(Vec::from_slice(alloc, entry.longname.as_slice())?);
        return Ok(NameEntry {
            filename,
            longname,
            attrs: entry.attrs,
        });
    }
    let longname = long_name(alloc, entry.filename.as_bytes(), entry.attrs)?;
    Ok(NameEntry {
        filename,
        longname: ByteText::new(longname),
        attrs: full_attrs(entry.attrs),
    })
}

/// Returns the entries with their long names and all attributes. Fails only if an allocation fails.
fn full_entries(alloc: Global, entries: &[NameEntry]) -> Result<Items<NameEntry>, OutOfMemory>
    ensures { IfOk result (λ full. full ≡ map full_entry entries.now) }
{
    let mut full = Vec::with_capacity(alloc, entries.len())?;
    for entry in entries {
        full.push(full_entry(alloc, entry)?)?;
    }
    Ok(Items::new(full))
}

/// Returns the frame of a reply of the machine, with all attributes and long names. Fails only if an allocation fails.
fn full_frame(alloc: Global, reply: &Reply, id: u32) -> Result<Vec<u8>, OutOfMemory>
    requires { MayReply reply.now }
    ensures { IfOk result (λ frame. frame.items ≡ reply_frame (full_reply reply.now) id) }
{
    match reply {
        Reply::Names(entries) => {
            let full = Reply::Names(full_entries(alloc, entries.as_slice())?);
            frame_of(alloc, &full, id)
        }
        Reply::Attrs(attrs) => frame_of(alloc, &Reply::Attrs(full_attrs(*attrs)), id),
        other => frame_of(alloc, other, id),
    }
}

/// Returns the frame of a reply of the machine; with `long` it has all attributes and long names.
///
/// # Errors
///
/// `OutOfMemory` if an allocation fails.
pub(crate) fn shown_frame(
    alloc: Global,
    long: bool,
    reply: &Reply,
    id: u32,
) -> Result<Vec<u8>, OutOfMemory>
    requires { MayReply reply.now }
    ensures { IfOk result (λ frame. frame.items ≡ reply_frame (shown_reply long reply.now) id) }
{
    if long {
        full_frame(alloc, reply, id)
    } else {
        frame_of(alloc, reply, id)
    }
}
