//! Copies files and trees from and to an SFTP server.
#![tactic(auto)]

mod acts;
mod batch;
mod compared;
mod comparison;
mod connection;
mod copy;
mod courier;
mod ended;
mod listing;
mod local_side;
mod mirror;
mod patterns;
mod planned;
mod printable;
mod resume;
mod run;
mod run_number;
mod slowed;
mod sources;
mod system;
mod terminal;
mod texts;
mod transfer_error;
mod tree;
mod verdicts;
mod verify;
mod walks;
mod window;
mod work;

pub use ended::{Reach, Text};
use link_duplex::StandardStreams;
pub use run::{Outside, run};
use std::env;
use std::io::ErrorKind;
use std::process::ExitCode;
pub use system::SystemFile;
use terminal::Terminal;

fn main(rt: HostRuntime) -> ExitCode {
    let _streams = StandardStreams::keep(&rt);
    let mut words = Vec::new(rt.alloc());
    let mut starved = false;
    match env::args(&rt) {
        Ok(args) => {
            for word in args.skip(1) {
                starved |= words.push(word).is_err();
            }
        }
        // An argument that is not UTF-8 leaves no command line, and an empty command line is refused.
        Err(error) => starved = error.kind() == ErrorKind::OutOfMemory,
    }
    let status = if starved {
        let _ = eprintln!(rt; "sftp_transfer: out of memory");
        ended::OUT_OF_MEMORY
    } else {
        run(&mut Terminal::new(&rt, &words), rt.alloc(), &words)
    };
    ExitCode::from(status)
}
