//! The server for one client, by the arguments of the command line.
ghost use Rattle.std.specs.Prelude.{◌≡◌, ◌≢◌, ◌⊎◌, map, true, IfOk, MatchResult};
ghost use Rattle.std.specs.String.{string_bytes};
ghost use Rattle.script_grammar.specs.ServerWords.{server_of};
ghost use Rattle.machine_model.specs.FirstTree.{may_begin};
ghost use Rattle.sftp_serve.specs.Logs.{MayServe, ServesStream};
ghost use Rattle.sftp_serve.specs.Words.{is_long, script_state, server_lines};

use crate::engine::serve_client;
use crate::server::Server;
use crate::stop::OUT_OF_MEMORY;
use crate::words::{is_long, server_lines};
use script_grammar::{LineError, Script, read_server_words};
use sftp_link::Link;
use std::alloc::Global;

/// The status if an argument is refused.
pub(crate) const WORDS: u8 = 2;

/// Serves the files and directories of a script.
fn serve_script<L: Link>(alloc: Global, script: &Script, long: bool, link: &mut L) -> u8
    requires begins { may_begin script.now.files script.now.dirs ≡ true }
    requires may { MayServe (L.LinkState.state link.old) }
    ensures serves { ServesStream (script_state long script.now) result (L.LinkState.state link.old) (L.LinkState.state link.new) }
    ensures status { (result ≡ 0) ⊎ (result ≡ 1) ⊎ (result ≡ 3) ⊎ (result ≡ 5) ⊎ (result ≡ 7) }
{
    match Server::new(alloc, script, long) {
        Ok(server) => serve_client(alloc, server, link),
        Err(_) => OUT_OF_MEMORY,
    }
}

/// Serves files and directories in memory to one client, until the client's stream ends, and returns the exit status.
///
/// The first argument may be `--long`: then files have all attributes, and the entries of listings have long names.
/// Each other argument is one line of a script: `file NAME CONTENT`, `dir NAME`, `server limits P R W H` or `server ext
/// NAME`. All frames that came whole are answered before more is read.
///
/// The status is:
///
/// - 0: the stream ended after a frame.
/// - 1: the stream ended within a frame, or a frame came that is no request, or is not the hello at its place.
/// - 2: an argument is refused; nothing was read or sent.
/// - 3: the link failed.
/// - 5: an allocation failed.
/// - 7: 18446744073709551615 frames were served.
pub fn serve<L: Link>(alloc: Global, words: &[String], link: &mut L) -> u8
    requires { MayServe (L.LinkState.state link.old) }
    ensures words { MatchResult (server_of (server_lines (map string_bytes words.now))) (λ script. result ≢ 2)
        (λ why. ((result ≡ 2) ⊎ (result ≡ 5)) × (link.new ≡ link.old)) }
    ensures serves { IfOk (server_of (server_lines (map string_bytes words.now)))
        (λ script. ServesStream (script_state (is_long (map string_bytes words.now)) script) result
        (L.LinkState.state link.old) (L.LinkState.state link.new)) }
    ensures status { (result ≡ 0) ⊎ (result ≡ 1) ⊎ (result ≡ 2) ⊎ (result ≡ 3) ⊎ (result ≡ 5) ⊎ (result ≡ 7) }
{
    match read_server_words(alloc, server_lines(words)) {
        Ok(script) => serve_script(alloc, &script, is_long(words), link),
        Err(LineError::OutOfMemory) => OUT_OF_MEMORY,
        Err(LineError::Refused(_)) => WORDS,
    }
}
