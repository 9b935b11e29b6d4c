//! Readers of replies (draft-ietf-secsh-filexfer-02, sections 4 and 7).
ghost use Rattle.std.specs.Prelude.{◌≡◌, ◌++◌, [], ◌∷◌, OnOk, IfOk, IfErr};
ghost use Rattle.ssh_encoding.specs.declared.error.Error.TheVariants as encoding;
ghost use Rattle.sftp_model.specs.Readings.{with_id, without_id, pair_bit as bit_of_pair, named_bit as bit_of_name, extensions_at};
ghost use Rattle.sftp_model.specs.Frames.{extension_table};
ghost use Rattle.sftp_model.specs.ReplyReadings.{version_at, status_at, handle_at, content_at, entry_at, entries_at, names_at, attrs_at, extended_at, handles_of_reply, reply_at, limits_at};
ghost use Rattle.sftp_wire.specs.Reading.{ReadsField, GivesBody, to_end};

use crate::field_readers::{attributes, finished, handle_of, long, number, shared_text, text};
use crate::names;
use bitflags::Flags;
use sftp_model::{
    Extensions, FormatKind, FrameError, Limits, NameEntry, RemotePath, Reply, numbers,
};
use sftp_values::{ByteText, Items};
use ssh_encoding::{Decode, Reader};
use std::alloc::Global;

/// Returns the bit of an extension's name; 0 for any other name.
fn named_bit(name: &[u8]) -> u32
    ensures { result ≡ bit_of_name extension_table name.now }
{
    if name == names::POSIX_RENAME {
        Extensions::POSIX_RENAME.bits()
    } else if name == names::HARDLINK {
        Extensions::HARDLINK.bits()
    } else if name == names::FSYNC {
        Extensions::FSYNC.bits()
    } else if name == names::EXPAND_PATH {
        Extensions::EXPAND_PATH.bits()
    } else if name == names::COPY_DATA {
        Extensions::COPY_DATA.bits()
    } else if name == names::LIMITS {
        Extensions::LIMITS.bits()
    } else {
        0
    }
}

/// Returns the bit that a pair of VERSION adds: only the value `1` counts.
fn pair_bit(name: &[u8], value: &[u8]) -> u32
    ensures { result ≡ bit_of_pair name.now value.now }
{
    if value == names::VALUE {
        named_bit(name)
    } else {
        0
    }
}

/// Reads the bits of the pairs up to the end.
#[tactic(auto, unfolding(sftp_model::specs::Readings::extensions_at))]
fn extensions<R: Reader>(alloc: Global, reader: &mut R) -> Result<u32, FrameError>
    ensures { GivesBody result (extensions_at (R.left reader.old)) }
{
    let mut set = 0;
    let most = reader.remaining_len();
    for i in 0..most {
        if reader.is_finished() {
            break;
        }
        let name = text(alloc, reader)?;
        let value = text(alloc, reader)?;
        set |= pair_bit(&name, &value);
    }
    Ok(set)
}

/// Reads VERSION, which has no id.
#[tactic(auto, unfolding(sftp_model::specs::ReplyReadings::version_at))]
fn version<R: Reader>(alloc: Global, reader: &mut R) -> Result<(Option<u32>, Reply), FrameError>
    ensures { GivesBody result (to_end handles_of_reply (without_id version_at (R.left reader.old))) }
{
    let version = number(alloc, reader)?;
    let bits = extensions(alloc, reader)?;
    let extensions = Extensions::from_bits_retain(bits);
    Ok((
        None,
        Reply::Version {
            version,
            extensions,
        },
    ))
}

/// Reads STATUS.
#[tactic(auto, unfolding(sftp_model::specs::ReplyReadings::status_at))]
fn status<R: Reader>(alloc: Global, reader: &mut R) -> Result<(Option<u32>, Reply), FrameError>
    ensures { GivesBody result (to_end handles_of_reply (with_id status_at (R.left reader.old))) }
{
    let id = number(alloc, reader)?;
    let code = number(alloc, reader)?;
    let message = text(alloc, reader)?;
    let language = text(alloc, reader)?;
    finished(reader)?;
    Ok((
        Some(id),
        Reply::Status {
            code,
            message: ByteText::new(message),
            language: ByteText::new(language),
        },
    ))
}

/// Reads HANDLE. `HandleTooLong` only if no bytes are left.
#[tactic(auto, unfolding(sftp_model::specs::ReplyReadings::handle_at))]
fn handle<R: Reader>(alloc: Global, reader: &mut R) -> Result<(Option<u32>, Reply), FrameError>
    ensures { GivesBody result (to_end handles_of_reply (with_id handle_at (R.left reader.old))) }
{
    let id = number(alloc, reader)?;
    let bytes = text(alloc, reader)?;
    finished(reader)?;
    let handle = handle_of(&bytes)?;
    Ok((Some(id), Reply::Handle(handle)))
}

/// Reads DATA.
#[tactic(auto, unfolding(sftp_model::specs::ReplyReadings::content_at))]
fn content<R: Reader>(alloc: Global, reader: &mut R) -> Result<(Option<u32>, Reply), FrameError>
    ensures { GivesBody result (to_end handles_of_reply (with_id content_at (R.left reader.old))) }
{
    let id = number(alloc, reader)?;
    let content = shared_text(alloc, reader)?;
    finished(reader)?;
    Ok((Some(id), Reply::Content(content)))
}

#[tactic(auto, unfolding(sftp_model::specs::ReplyReadings::entry_at))]
fn entry<R: Reader>(alloc: Global, reader: &mut R) -> Result<NameEntry, FrameError>
    ensures { ReadsField (λ e. e) (R.left reader.new) result (entry_at (R.left reader.old)) }
{
    let filename = text(alloc, reader)?;
    let longname = text(alloc, reader)?;
    let attrs = attributes(alloc, reader)?;
    Ok(NameEntry {
        filename: RemotePath::new(filename),
        longname: ByteText::new(longname),
        attrs,
    })
}

fn add(entries: &mut Vec<NameEntry>, entry: NameEntry) -> Result<(), ssh_encoding::Error>
    ensures ok { OnOk result (entries.new.items ≡ entries.old.items ++ entry ∷ []) }
    ensures err { IfErr result (λ e. e ≡ encoding.OutOfMemory) }
{
    entries.push(entry)?;
    Ok(())
}

/// Reads this many entries, one by one. The count by itself allocates nothing.
fn entries<R: Reader>(
    alloc: Global,
    count: u32,
    reader: &mut R,
) -> Result<Vec<NameEntry>, FrameError>
    ensures { ReadsField (λ v. v.items) (R.left reader.new) result (entries_at count (R.left reader.old)) }
{
    let mut entries = Vec::new(alloc);
    for i in 0..count {
        let entry = entry(alloc, reader)?;
        add(&mut entries, entry)?;
    }
    Ok(entries)
}

/// Reads NAME.
#[tactic(auto, unfolding(sftp_model::specs::ReplyReadings::names_at))]
fn listing<R: Reader>(alloc: Global, reader: &mut R) -> Result<(Option<u32>, Reply), FrameError>
    ensures { GivesBody result (to_end handles_of_reply (with_id names_at (R.left reader.old))) }
{
    let id = number(alloc, reader)?;
    let count = number(alloc, reader)?;
    let names = entries(alloc, count, reader)?;
    finished(reader)?;
    Ok((Some(id), Reply::Names(Items::new(names))))
}

/// Reads ATTRS.
#[tactic(auto, unfolding(sftp_model::specs::ReplyReadings::attrs_at))]
fn attrs<R: Reader>(alloc: Global, reader: &mut R) -> Result<(Option<u32>, Reply), FrameError>
    ensures { GivesBody result (to_end handles_of_reply (with_id attrs_at (R.left reader.old))) }
{
    let id = number(alloc, reader)?;
    let attrs = attributes(alloc, reader)?;
    finished(reader)?;
    Ok((Some(id), Reply::Attrs(attrs)))
}

/// Reads all bytes that are left.
fn rest<R: Reader>(alloc: Global, reader: &mut R) -> Result<Vec<u8>, ssh_encoding::Error>
    ensures ok { IfOk result (λ v. v.items ≡ R.left reader.old) }
    ensures err { IfErr result (λ e. e ≡ encoding.OutOfMemory) }
{
    let mut bytes = vec![in alloc; 0u8; reader.remaining_len()]?;
    reader.fill(&mut bytes)?;
    Ok(bytes)
}

/// Reads EXTENDED_REPLY.
#[tactic(auto, unfolding(sftp_model::specs::ReplyReadings::extended_at))]
fn extended<R: Reader>(alloc: Global, reader: &mut R) -> Result<(Option<u32>, Reply), FrameError>
    ensures { GivesBody result (to_end handles_of_reply (with_id extended_at (R.left reader.old))) }
{
    let id = number(alloc, reader)?;
    let content = rest(alloc, reader)?;
    Ok((Some(id), Reply::Extended(ByteText::new(content))))
}

/// Reads the body of a reply, and its id, which only VERSION lacks. A count by itself allocates nothing.
///
/// # Errors
///
/// `Format` and `HandleTooLong` report the first thing that is wrong, starting at the first byte
/// (draft-ietf-secsh-filexfer-02, sections 3, 4 and 7). `OutOfMemory` may come in place of any result.
#[tactic(auto, unfolding(sftp_model::specs::ReplyReadings::reply_at, sftp_model::specs::ReplyReadings::reply_fields_at))]
pub fn read_reply(alloc: Global, body: &[u8]) -> Result<(Option<u32>, Reply), FrameError>
    ensures { GivesBody result (reply_at body.now) }
{
    let mut reader = body;
    let kind = u8::decode(alloc, &mut reader)?;
    match kind {
        numbers::SSH_FXP_VERSION => version(alloc, &mut reader),
        numbers::SSH_FXP_STATUS => status(alloc, &mut reader),
        numbers::SSH_FXP_HANDLE => handle(alloc, &mut reader),
        numbers::SSH_FXP_DATA => content(alloc, &mut reader),
        numbers::SSH_FXP_NAME => listing(alloc, &mut reader),
        numbers::SSH_FXP_ATTRS => attrs(alloc, &mut reader),
        numbers::SSH_FXP_EXTENDED_REPLY => extended(alloc, &mut reader),
        _ => Err(FrameError::Format(FormatKind::InvalidDiscriminant(kind))),
    }
}

/// Reads the content of the EXTENDED_REPLY to the query for limits: four numbers, in 32 bytes (OpenSSH's PROTOCOL,
/// section 4.8).
///
/// # Errors
///
/// `Format(Length)` if there are fewer bytes, and `Format(TrailingData)` if there are more. `OutOfMemory` may come in
/// place of any result.
#[tactic(auto, unfolding(sftp_model::specs::ReplyReadings::limits_at))]
pub fn read_limits(alloc: Global, content: &[u8]) -> Result<Limits, FrameError>
    ensures { GivesBody result (limits_at content.now) }
{
    let mut reader = content;
    let packet_len = long(alloc, &mut reader)?;
    let read_len = long(alloc, &mut reader)?;
    let write_len = long(alloc, &mut reader)?;
    let open_handles = long(alloc, &mut reader)?;
    finished(&reader)?;
    Ok(Limits {
        packet_len,
        read_len,
        write_len,
        open_handles,
    })
}
