//! Serves files and directories in memory on standard input and output, as an SFTP version 3 server
//! (draft-ietf-secsh-filexfer-02).
#![tactic(auto)]

mod details;
mod engine;
mod handles;
mod laws;
mod serve;
mod server;
mod stop;
mod words;

pub use laws::{handles_are_bounded, other_extensions_are_answered};
pub use serve::serve;
use sftp_link::{Duplex, ReadSource, WriteSink};
use std::env;
use std::io::ErrorKind;
use std::process::ExitCode;

/// Serves the files of the command line, or writes the text of `--help` or `--version`. Reports a status other than 0
/// on standard error.
fn main(rt: HostRuntime) -> ExitCode {
    let mut words = Vec::new(rt.alloc());
    let mut unread = None;
    match env::args(&rt) {
        Ok(args) => {
            for word in args.skip(1) {
                if words.push(word).is_err() {
                    unread = Some(stop::OUT_OF_MEMORY);
                }
            }
        }
        Err(error) if error.kind() == ErrorKind::OutOfMemory => unread = Some(stop::OUT_OF_MEMORY),
        // An argument that is not UTF-8 is refused.
        Err(_) => unread = Some(serve::WORDS),
    }
    let status = if let Some(status) = unread {
        status
    } else if let Some(text) = words::text_for(&words) {
        match rt.print(text) {
            Ok(()) => 0,
            Err(_) => stop::LINK_FAULT,
        }
    } else {
        let mut link = Duplex::new(ReadSource::new(rt.stdin()), WriteSink::new(rt.stdout()));
        serve(rt.alloc(), &words, &mut link)
    };
    if let Some(cause) = words::cause_of(status) {
        let refused = if status == serve::WORDS {
            words::refused_word(rt.alloc(), words::server_lines(&words))
        } else {
            Ok(None)
        };
        // If standard error fails too, the message is lost.
        let _ = match refused {
            Ok(Some((line, why))) => {
                let number = line + usize::from(words::is_long(&words));
                eprintln!(rt; "sftp_serve: word {number} {why}")
            }
            _ if unread == Some(serve::WORDS) => {
                eprintln!(rt; "sftp_serve: an argument is not UTF-8 (try --help)")
            }
            _ => eprintln!(rt; "sftp_serve: {cause}"),
        };
    }
    ExitCode::from(status)
}
