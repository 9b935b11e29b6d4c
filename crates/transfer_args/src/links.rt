//! The address of the server.
ghost use Rattle.std.specs.Prelude.{◌≡◌};
ghost use Rattle.std.specs.Option.{option_map};
ghost use Rattle.transfer_args.specs.Links.{files_at, link_at, link_seen, socket_at};

use crate::asked::LinkAt;

/// Returns the two files that a word names, with a colon between them.
fn files_at(word: &str) -> Option<LinkAt<'_>>
    ensures { option_map link_seen result ≡ files_at word.now }
{
    let (replies, requests) = word.split_once(':')?;
    Some(LinkAt::Files(replies, requests))
}

/// Returns the address of a socket that a word writes.
fn socket_at(word: &str) -> Option<LinkAt<'_>>
    ensures { option_map link_seen result ≡ socket_at word.now }
{
    if let Some(path) = word.strip_prefix("ssh:") {
        return Some(LinkAt::Ssh(path));
    }
    if let Some(path) = word.strip_prefix("unix:") {
        return Some(LinkAt::Unix(path));
    }
    match word.strip_prefix("tcp:") {
        Some(address) => Some(LinkAt::Tcp(address)),
        None => None,
    }
}

/// Returns the address of the server that a word writes.
pub(crate) fn link_at(word: &str) -> Option<LinkAt<'_>>
    ensures { option_map link_seen result ≡ link_at word.now }
{
    if word == "stdio" {
        return Some(LinkAt::Stdio);
    }
    if let Some(files) = word.strip_prefix("files:") {
        return files_at(files);
    }
    socket_at(word)
}
