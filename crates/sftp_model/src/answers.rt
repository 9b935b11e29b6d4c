//! The replies that may answer a request.
ghost use Rattle.std.specs.Prelude.{◌≡◌};
ghost use Rattle.sftp_model.specs.Answers.{expected_of, allows_reply, may_answer, ends_reading, is_status, is_refusal, is_handle, is_content, is_names, is_some_names, is_attrs, is_extended, is_version};

use crate::numbers::{SSH_FX_EOF, SSH_FX_OK};
use crate::reply::Reply;
use crate::request::Request;

/// The replies that may answer a request. Each except `Version` and `Status` allows a STATUS other than OK as well
/// (draft-ietf-secsh-filexfer-02, sections 6 and 7).
///
/// Used in `crates/sftp_core/src/id_record.rt`.
#[derive(Clone, Copy, Debug, PartialEq, Eq)]
pub enum Expected {
    /// VERSION.
    Version,
    /// A HANDLE.
    Handle,
    /// DATA of 1 to `len` bytes.
    Content { len: u32 },
    /// A NAME, which may have no entry.
    Names,
    /// A NAME of at least one entry, of which the first counts.
    FirstName,
    /// ATTRS.
    Attrs,
    /// An EXTENDED_REPLY with the server's limits.
    Limits,
    /// Any STATUS.
    Status,
}

impl Expected {
    /// Returns the replies that a request expects.
    pub fn of(request: &Request) -> Expected
        ensures { result ≡ expected_of request.now }
    {
        match request {
            Request::Init { .. } => Expected::Version,
            Request::OpenFile { .. } | Request::Opendir { .. } => Expected::Handle,
            Request::Read { len, .. } => Expected::Content { len: *len },
            Request::Readdir { .. } => Expected::Names,
            Request::Lstat { .. } | Request::Fstat { .. } | Request::Stat { .. } => Expected::Attrs,
            Request::Realpath { .. } | Request::Readlink { .. } | Request::ExpandPath { .. } => {
                Expected::FirstName
            }
            Request::LimitsQuery => Expected::Limits,
            _ => Expected::Status,
        }
    }

    /// Returns true if this reply is among them.
    pub fn allows(self, reply: &Reply) -> bool
        ensures { result ≡ allows_reply self reply.now }
    {
        match self {
            Expected::Version => is_version(reply),
            Expected::Handle => is_handle(reply) || is_refusal(reply),
            Expected::Content { len } => is_content(len, reply) || is_refusal(reply),
            Expected::Names => is_names(reply) || is_refusal(reply),
            Expected::FirstName => is_some_names(reply) || is_refusal(reply),
            Expected::Attrs => is_attrs(reply) || is_refusal(reply),
            Expected::Limits => is_extended(reply) || is_refusal(reply),
            Expected::Status => is_status(reply),
        }
    }
}

/// Returns true if a reply may answer a request.
///
/// DATA of 1 to `len` bytes may answer a READ of `len`. A NAME of at least one entry may answer a request for one path.
/// A STATUS of OK may answer only a request that expects no other reply (draft-ietf-secsh-filexfer-02, sections 6 and
/// 7).
pub fn may_answer(request: &Request, reply: &Reply) -> bool
    ensures { result ≡ may_answer request.now reply.now }
{
    Expected::of(request).allows(reply)
}

/// Returns true if a reply says that no bytes or names are left to read: a STATUS of EOF to a READ or READDIR. To other
/// requests it is a refusal.
pub fn ends(request: &Request, reply: &Reply) -> bool
    ensures { result ≡ ends_reading request.now reply.now }
{
    match request {
        Request::Read { .. } | Request::Readdir { .. } => match reply {
            Reply::Status { code, .. } => *code == SSH_FX_EOF,
            _ => false,
        },
        _ => false,
    }
}

fn is_version(reply: &Reply) -> bool
    ensures { result ≡ is_version reply.now }
{
    matches!(reply, Reply::Version { .. })
}

fn is_status(reply: &Reply) -> bool
    ensures { result ≡ is_status reply.now }
{
    matches!(reply, Reply::Status { .. })
}

fn is_refusal(reply: &Reply) -> bool
    ensures { result ≡ is_refusal reply.now }
{
    match reply {
        Reply::Status { code, .. } => *code != SSH_FX_OK,
        _ => false,
    }
}

fn is_handle(reply: &Reply) -> bool
    ensures { result ≡ is_handle reply.now }
{
    matches!(reply, Reply::Handle(_))
}

fn is_content(len: u32, reply: &Reply) -> bool
    ensures { result ≡ is_content len reply.now }
{
    match reply {
        Reply::Content(content) => 0 < content.len() && content.len() <= len as usize,
        _ => false,
    }
}

fn is_names(reply: &Reply) -> bool
    ensures { result ≡ is_names reply.now }
{
    matches!(reply, Reply::Names(_))
}

fn is_some_names(reply: &Reply) -> bool
    ensures { result ≡ is_some_names reply.now }
{
    match reply {
        Reply::Names(names) => 0 < names.as_slice().len(),
        _ => false,
    }
}

fn is_attrs(reply: &Reply) -> bool
    ensures { result ≡ is_attrs reply.now }
{
    matches!(reply, Reply::Attrs(_))
}

fn is_extended(reply: &Reply) -> bool
    ensures { result ≡ is_extended reply.now }
{
    matches!(reply, Reply::Extended(_))
}
