//! The table of bodies: the type byte and the fields of each request and reply.
ghost use Rattle.std.specs.Prelude.{◌≡◌, [], ◌∷◌, ℕ, true, false};
ghost use Rattle.sftp_model.specs.Frames.{request_body, reply_body};
ghost use Rattle.sftp_wire.specs.declared.body.Field.TheVariants as fields;
ghost use Rattle.sftp_wire.specs.Body.{body_bytes};

use crate::names;
use bitflags::Flags;
use bytes::Bytes;
use sftp_model::{Extensions, FileAttrs, NameEntry, Reply, Request, numbers};

/// A field of a body, as it is written.
#[derive(Clone, Copy)]
pub(crate) enum Field<'a> {
    Nothing,
    /// uint32
    Number(u32),
    /// uint64
    Long(u64),
    /// string
    Text(&'a [u8]),
    /// The pieces of one string.
    Pieces(&'a [Bytes]),
    Attributes(FileAttrs),
    /// A count and the entries of a NAME.
    Entries(&'a [NameEntry]),
    /// The pairs of VERSION.
    Pairs(Extensions),
    /// Bytes without a length.
    Raw(&'a [u8]),
}

/// The type byte and the fields of a request or a reply. Both its length and its bytes are made from these.
#[derive(Drop)]
pub(crate) struct Body<'a> {
    pub(crate) kind: u8,
    pub(crate) has_id: bool,
    pub(crate) fields: [Field<'a>; 6],
}

fn one<'a>(a: Field<'a>) -> [Field<'a>; 6]
    ensures { result ≡ a.entry ∷ fields.Nothing ∷ fields.Nothing ∷ fields.Nothing ∷ fields.Nothing ∷ fields.Nothing ∷ [] }
{
    three(a, Field::Nothing, Field::Nothing)
}

fn two<'a>(a: Field<'a>, b: Field<'a>) -> [Field<'a>; 6]
    ensures { result ≡ a.entry ∷ b.entry ∷ fields.Nothing ∷ fields.Nothing ∷ fields.Nothing ∷ fields.Nothing ∷ [] }
{
    three(a, b, Field::Nothing)
}

fn three<'a>(a: Field<'a>, b: Field<'a>, c: Field<'a>) -> [Field<'a>; 6]
    ensures { result ≡ a.entry ∷ b.entry ∷ c.entry ∷ fields.Nothing ∷ fields.Nothing ∷ fields.Nothing ∷ [] }
{
    [a, b, c, Field::Nothing, Field::Nothing, Field::Nothing]
}

/// Returns a body with an id.
fn of_type<'a>(kind: u8, fields: [Field<'a>; 6]) -> Body<'a>
    ensures { result ≡ record { kind = kind; has_id = true; fields = fields.entry } }
{
    Body {
        kind,
        has_id: true,
        fields,
    }
}

/// Returns a body without an id.
fn without_id<'a>(kind: u8, fields: [Field<'a>; 6]) -> Body<'a>
    ensures { result ≡ record { kind = kind; has_id = false; fields = fields.entry } }
{
    Body {
        kind,
        has_id: false,
        fields,
    }
}

impl<'a> Body<'a> {
    /// Returns the body of a request: the one table of requests (draft-ietf-secsh-filexfer-02, sections 4, 6 and 8;
    /// OpenSSH's PROTOCOL, section 4).
    #[tactic(auto, using(crate::proofs::Parts::joins), unfolding(sftp_model::specs::Frames::request_body))]
    pub(crate) fn of_request(request: &'a Request) -> Body<'a>
        ensures { (id : ℕ) → body_bytes result id ≡ request_body request.now id }
    {
        use Field::{Attributes, Long, Number, Pieces, Text};
        match request {
            Request::Init { version } => without_id(numbers::SSH_FXP_INIT, one(Number(*version))),
            Request::OpenFile { path, flags, attrs } => of_type(
                numbers::SSH_FXP_OPEN,
                three(
                    Text(path.as_bytes()),
                    Number(flags.bits()),
                    Attributes(*attrs),
                ),
            ),
            Request::Close { handle } => of_type(
                numbers::SSH_FXP_CLOSE,
                one(Text(handle.as_bytes())),
            ),
            Request::Read {
                handle,
                offset,
                len,
            } => of_type(
                numbers::SSH_FXP_READ,
                three(Text(handle.as_bytes()), Long(*offset), Number(*len)),
            ),
            Request::Write {
                handle,
                offset,
                content,
            } => of_type(
                numbers::SSH_FXP_WRITE,
                three(
                    Text(handle.as_bytes()),
                    Long(*offset),
                    Pieces(content.pieces()),
                ),
            ),
            Request::Lstat { path } => of_type(numbers::SSH_FXP_LSTAT, one(Text(path.as_bytes()))),
            Request::Fstat { handle } => of_type(
                numbers::SSH_FXP_FSTAT,
                one(Text(handle.as_bytes())),
            ),
            Request::Setstat { path, attrs } => of_type(
                numbers::SSH_FXP_SETSTAT,
                two(Text(path.as_bytes()), Attributes(*attrs)),
            ),
            Request::Fsetstat { handle, attrs } => of_type(
                numbers::SSH_FXP_FSETSTAT,
                two(Text(handle.as_bytes()), Attributes(*attrs)),
            ),
            Request::Opendir { path } => of_type(
                numbers::SSH_FXP_OPENDIR,
                one(Text(path.as_bytes())),
            ),
            Request::Readdir { handle } => of_type(
                numbers::SSH_FXP_READDIR,
                one(Text(handle.as_bytes())),
            ),
            Request::Remove { path } => of_type(
                numbers::SSH_FXP_REMOVE,
                one(Text(path.as_bytes())),
            ),
            Request::Mkdir { path, attrs } => of_type(
                numbers::SSH_FXP_MKDIR,
                two(Text(path.as_bytes()), Attributes(*attrs)),
            ),
            Request::Rmdir { path } => of_type(numbers::SSH_FXP_RMDIR, one(Text(path.as_bytes()))),
            Request::Realpath { path } => of_type(
                numbers::SSH_FXP_REALPATH,
                one(Text(path.as_bytes())),
            ),
            Request::Stat { path } => of_type(numbers::SSH_FXP_STAT, one(Text(path.as_bytes()))),
            Request::Rename { old, to } => of_type(
                numbers::SSH_FXP_RENAME,
                two(Text(old.as_bytes()), Text(to.as_bytes())),
            ),
            Request::Readlink { path } => of_type(
                numbers::SSH_FXP_READLINK,
                one(Text(path.as_bytes())),
            ),
            Request::Symlink { src, dst } => of_type(
                numbers::SSH_FXP_SYMLINK,
                two(Text(src.as_bytes()), Text(dst.as_bytes())),
            ),
            Request::PosixRename { old, to } => of_type(
                numbers::SSH_FXP_EXTENDED,
                three(
                    Text(names::POSIX_RENAME),
                    Text(old.as_bytes()),
                    Text(to.as_bytes()),
                ),
            ),
            Request::Hardlink { old, to } => of_type(
                numbers::SSH_FXP_EXTENDED,
                three(
                    Text(names::HARDLINK),
                    Text(old.as_bytes()),
                    Text(to.as_bytes()),
                ),
            ),
            Request::Fsync { handle } => of_type(
                numbers::SSH_FXP_EXTENDED,
                two(Text(names::FSYNC), Text(handle.as_bytes())),
            ),
            Request::ExpandPath { path } => of_type(
                numbers::SSH_FXP_EXTENDED,
                two(Text(names::EXPAND_PATH), Text(path.as_bytes())),
            ),
            Request::CopyData {
                from,
                from_offset,
                len,
                to,
                to_offset,
            } => of_type(
                numbers::SSH_FXP_EXTENDED,
                [
                    Text(names::COPY_DATA),
                    Text(from.as_bytes()),
                    Long(*from_offset),
                    Long(*len),
                    Text(to.as_bytes()),
                    Long(*to_offset),
                ],
            ),
            Request::LimitsQuery => of_type(numbers::SSH_FXP_EXTENDED, one(Text(names::LIMITS))),
        }
    }

    /// Returns the body of a reply: the one table of replies (draft-ietf-secsh-filexfer-02, sections 4 and 7).
    #[tactic(auto, using(crate::proofs::Parts::joins), unfolding(sftp_model::specs::Frames::reply_body))]
    pub(crate) fn of_reply(reply: &'a Reply) -> Body<'a>
        ensures { (id : ℕ) → body_bytes result id ≡ reply_body reply.now id }
    {
        use Field::{Attributes, Entries, Number, Pairs, Raw, Text};
        match reply {
            Reply::Version {
                version,
                extensions,
            } => without_id(
                numbers::SSH_FXP_VERSION,
                two(Number(*version), Pairs(*extensions)),
            ),
            Reply::Status {
                code,
                message,
                language,
            } => of_type(
                numbers::SSH_FXP_STATUS,
                three(
                    Number(*code),
                    Text(message.as_slice()),
                    Text(language.as_slice()),
                ),
            ),
            Reply::Handle(handle) => of_type(numbers::SSH_FXP_HANDLE, one(Text(handle.as_bytes()))),
            Reply::Content(content) => of_type(
                numbers::SSH_FXP_DATA,
                one(Text(content.as_slice())),
            ),
            Reply::Names(names) => of_type(numbers::SSH_FXP_NAME, one(Entries(names.as_slice()))),
            Reply::Attrs(attrs) => of_type(numbers::SSH_FXP_ATTRS, one(Attributes(*attrs))),
            Reply::Extended(content) => of_type(
                numbers::SSH_FXP_EXTENDED_REPLY,
                one(Raw(content.as_slice())),
            ),
        }
    }
}
