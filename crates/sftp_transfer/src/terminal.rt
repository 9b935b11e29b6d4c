//! The environment of the program as it is run.
use crate::connection::{files_link, stdio_link, tcp_link, unix_link};
use crate::ended::{Reach, Text};
use crate::mirror::can_mirror;
use crate::run::Outside;
use crate::texts::written;
use crate::work::{can_begin, over};
use link_duplex::release_stdio;
use ssh_channel::OpenError;
use std::io::{self, ErrorKind};
use std::time::Duration;
use std::{env, thread};
use transfer_args::{ArgsError, Asked, LinkAt, Misfit, Work, misfit_of};

/// The advice if a server that is reached over TCP does not answer as an SFTP server.
const NO_SFTP: &str = "an ssh server is reached by ssh:PATH, the control socket of its connection";

/// The files, the streams and the network of the system. It does not record what is done with it.
#[derive(Drop)]
pub(crate) struct Terminal<'a> {
    rt: &'a HostRuntime,
    words: &'a [String],
}

impl<'a> Terminal<'a> {
    /// Returns the environment of this runtime, for a command line.
    pub(crate) fn new(rt: &'a HostRuntime, words: &'a [String]) -> Terminal<'a> {
        Terminal { rt, words }
    }
}

/// Reports why no connection could be made. If standard error fails too, the message is lost.
fn no_link(rt: &HostRuntime, place: &str, why: io::Error) -> Reach {
    let _ = eprintln!(rt; "sftp_transfer: {place}: {why}");
    Reach::NoLink
}

/// Reports why the server gave no channel.
fn no_channel(rt: &HostRuntime, path: &str, why: OpenError) -> Reach {
    let _ = eprintln!(rt; "sftp_transfer: {path}: {why}");
    match why {
        OpenError::OutOfMemory => Reach::OutOfMemory,
        _ => Reach::NoLink,
    }
}

/// Returns true if an argument of the command line is not UTF-8.
fn has_other_bytes(rt: &HostRuntime) -> bool {
    match env::args(rt) {
        Ok(_) => false,
        Err(error) => error.kind() != ErrorKind::OutOfMemory,
    }
}

impl<'a> Outside for Terminal<'a> {
    ghost History = { Unit {0} };

    ghost done = { λ act history. history };

    ghost history = { λ terminal. tt };

    fn write(&mut self, text: Text) -> bool {
        match self.rt.print(written(text)) {
            Ok(()) => true,
            Err(error) => {
                let _ = eprintln!(self.rt; "sftp_transfer: standard output: {error}");
                false
            }
        }
    }

    fn refuse(&mut self, why: ArgsError) {
        if why == ArgsError::OutOfMemory {
            let _ = eprintln!(self.rt; "sftp_transfer: out of memory");
            return;
        }
        let _ = match misfit_of(self.rt.alloc(), self.words) {
            Some(Misfit::Missing) if has_other_bytes(self.rt) => {
                eprintln!(self.rt; "sftp_transfer: an argument is not UTF-8 (try --help)")
            }
            Some(misfit) => eprintln!(self.rt; "sftp_transfer: {misfit} (try --help)"),
            None => eprintln!(self.rt; "sftp_transfer: invalid arguments (try --help)"),
        };
    }

    fn look(&mut self, work: &Work<'_>) -> bool {
        match work {
            Work::Copy(transfer) => can_begin(self.rt, transfer),
            Work::List(_) | Work::Act(_) => true,
            Work::Mirror(mirror) => can_mirror(self.rt, mirror),
        }
    }

    fn go(&mut self, asked: &Asked<'_>) -> Reach {
        let timeout = match asked.work.timeout() {
            0 => None,
            seconds => Some(Duration::from_secs(u64::from(seconds))),
        };
        let work = &asked.work;
        match asked.link {
            LinkAt::Ssh(path) => match unix_link(self.rt, path, timeout) {
                Ok(link) => match ssh_channel::open(self.rt.alloc(), link, b"sftp") {
                    Ok(channel) => over(self.rt, channel, work, None),
                    Err(why) => no_channel(self.rt, path, why),
                },
                Err(why) => no_link(self.rt, path, why),
            },
            LinkAt::Unix(path) => match unix_link(self.rt, path, timeout) {
                Ok(link) => over(self.rt, link, work, None),
                Err(why) => no_link(self.rt, path, why),
            },
            LinkAt::Tcp(address) => match tcp_link(self.rt, address, timeout) {
                Ok(link) => over(self.rt, link, work, Some(NO_SFTP)),
                Err(why) => no_link(self.rt, address, why),
            },
            LinkAt::Files(replies, requests) => {
                match files_link(self.rt, replies, requests, timeout) {
                    Ok(link) => over(self.rt, link, work, None),
                    Err(why) => no_link(self.rt, requests, why),
                }
            }
            LinkAt::Stdio => {
                let reach = match stdio_link(self.rt, timeout) {
                    Ok(link) => over(self.rt, link, work, None),
                    Err(why) => no_link(self.rt, "stdio", why),
                };
                release_stdio(self.rt);
                reach
            }
        }
    }

    fn pause(&mut self, seconds: u32) {
        let _ = eprintln!(self.rt; "sftp_transfer: trying again in {seconds} s");
        let _ = thread::sleep(self.rt, Duration::from_secs(u64::from(seconds)));
    }
}
