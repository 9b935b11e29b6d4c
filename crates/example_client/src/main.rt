//! Programs over `sftp_client`, each proved: files that are written and read whole, and directories that are created,
//! listed, walked and removed, one call after another; sizes of files, many of which are asked for at once; and a report
//! of the largest files of a tree, which are downloaded at once.
#![tactic(auto)]

ghost use Rattle.std.specs.Prelude.{IfOk};
ghost use Rattle.sftp_link.specs.Views.{stream_view};
ghost use Rattle.sftp_client.specs.Calls.{IsUsable};

mod downloads;
mod files;
mod first;
mod largest;
mod reports;
mod sizes;
mod tasks;

pub use downloads::Download;
pub use files::{get, put};
pub use first::visit;
pub use reports::write_report;
use sftp_client::{Error, RemotePath, Sftp, SftpOptions};
use sftp_link::{Dial, ReadSource, UnixDial, UnixLink, WriteSink, read_up_to, write_all};
pub use sizes::sizes;
use std::env;
use std::process::ExitCode;
use tasks::lines;
pub use tasks::{Task, do_task};

/// The reason why an example wasn't done.
#[derive(Drop)]
enum Failure {
    /// The program's own reason.
    Refused(&'static str),
    /// The error of the session or the server.
    Remote(Error),
}

impl From<&'static str> for Failure {
    fn from(why: &'static str) -> Failure {
        Failure::Refused(why)
    }
}

impl From<Error> for Failure {
    fn from(e: Error) -> Failure {
        Failure::Remote(e)
    }
}

/// The greatest size of a file that is written, in bytes.
const MAX_CONTENT: usize = 67_108_864;

/// The text that `--help` prints.
const USAGE: &str = "example_client put|get|list|tree|mkdir|remove SOCKET PATH\n\
    put: writes standard input to a file of the server that listens at SOCKET\n\
    get: prints a file\n\
    list: prints the names of a directory, a line each\n\
    tree: prints the paths of all that is below a directory, a line each\n\
    mkdir: creates a directory and each missing one on the way to it\n\
    remove: removes a directory and all that is below it\n\
    example_client sizes SOCKET PATH..\n\
    sizes: prints the sizes of files, of which many are asked for at once\n\
    example_client report SOCKET DIRECTORY TARGET\n\
    report: downloads the ten largest files below a directory at once, and writes\n\
    to TARGET a line for each: its size, the number of bytes that came, its path\n\
    example_client first SOCKET\n\
    first: writes notes.txt, prints its first bytes and the names of its directory\n";

/// Runs one of the examples:
///
/// - `example_client put SOCKET PATH` writes standard input to a file.
/// - `get SOCKET PATH` prints a file.
/// - `list SOCKET PATH` prints the names of a directory.
/// - `tree SOCKET PATH` prints the paths of everything below a directory.
/// - `mkdir SOCKET PATH` creates a directory and each missing one on the way to it.
/// - `remove SOCKET PATH` removes a directory and everything below it.
/// - `sizes SOCKET PATH..` prints the sizes of files.
/// - `report SOCKET DIRECTORY TARGET` downloads the ten largest files below a directory, and writes a report of them.
/// - `first SOCKET` writes a note, and prints its first bytes and the names of its directory.
fn main(rt: HostRuntime) -> ExitCode {
    match run(&rt) {
        Ok(()) => ExitCode::from(0),
        Err(why) => {
            report(&rt, &why);
            ExitCode::from(1)
        }
    }
}

/// Writes to standard error why an example wasn't done. If standard error fails too, the message is lost.
fn report(rt: &HostRuntime, why: &Failure) {
    let _ = match why {
        Failure::Refused(why) => eprintln!(rt; "example_client: {why}"),
        Failure::Remote(e) => eprintln!(rt; "example_client: {e}"),
    };
}

/// Runs the example that the command line asks for.
fn run(rt: &HostRuntime) -> Result<(), Failure> {
    let words = words_of(rt)?;
    match words.as_slice() {
        [word] if word.as_str() == "--help" => print(rt, USAGE.as_bytes()),
        [word, socket] if word.as_str() == "first" => print_first(rt, socket),
        [word, socket, paths @ ..] if word.as_str() == "sizes" => print_sizes(rt, socket, paths),
        [word, socket, path] => run_on(rt, word, socket, path.as_bytes()),
        [word, socket, directory, target] if word.as_str() == "report" => run_report(
            rt,
            socket,
            directory.as_bytes(),
            target.as_bytes(),
        ),
        _ => Err(Failure::Refused(
            "a word, the path of a socket, and a path are needed (try --help)",
        )),
    }
}

/// Returns the arguments.
fn words_of(rt: &HostRuntime) -> Result<Vec<String>, &'static str> {
    let mut words = Vec::new(rt.alloc());
    let args = env::args(rt).map_err(|_| "the arguments are not UTF-8")?;
    for word in args.skip(1) {
        words.push(word).map_err(|_| "out of memory")?;
    }
    Ok(words)
}

/// Runs an example that has one path.
fn run_on(rt: &HostRuntime, word: &str, socket: &str, path: &[u8]) -> Result<(), Failure> {
    match word {
        "put" => over(rt, socket, Task::Put, path),
        "get" => over(rt, socket, Task::Get, path),
        "list" => over(rt, socket, Task::ListDir, path),
        "tree" => over(rt, socket, Task::Walk, path),
        "mkdir" => over(rt, socket, Task::CreateDirs, path),
        "remove" => over(rt, socket, Task::RemoveDirs, path),
        _ => Err(Failure::Refused(
            "the first word is put, get, list, tree, mkdir, remove, sizes, report or first (try --help)",
        )),
    }
}

/// Runs an example over the server that listens at a socket.
fn over(rt: &HostRuntime, socket: &str, task: Task, path: &[u8]) -> Result<(), Failure> {
    let alloc = rt.alloc();
    let content = if matches!(task, Task::Put) {
        read_up_to(alloc, &mut ReadSource::new(rt.stdin()), MAX_CONTENT).map_err(
            |_| Failure::Refused("standard input can't be read"),
        )?
    } else {
        Vec::new(alloc)
    };
    let mut sftp = session(rt, socket)?;
    let printed = do_task(alloc, &mut sftp, task, path, &content)?;
    print(rt, &printed)
}

/// Runs the first program over the server that listens at a socket, and closes the session.
fn print_first(rt: &HostRuntime, socket: &str) -> Result<(), Failure> {
    let mut sftp = session(rt, socket)?;
    let (start, entries) = visit(&mut sftp)?;
    let text = lines(rt.alloc(), &entries)?;
    match start {
        Some(bytes) => print(rt, &bytes)?,
        None => {}
    }
    print(rt, &text)
}

/// Writes a report of a directory to a file of the server that listens at a socket, and closes the session.
fn run_report(
    rt: &HostRuntime,
    socket: &str,
    directory: &[u8],
    target: &[u8],
) -> Result<(), Failure> {
    let mut sftp = session(rt, socket)?;
    write_report(rt.alloc(), &mut sftp, directory, target)?;
    match sftp.close() {
        Ok(_link) => Ok(()),
        Err((e, _link)) => Err(Failure::Remote(e)),
    }
}

/// Prints the sizes of files of the server that listens at a socket, a line each.
fn print_sizes(rt: &HostRuntime, socket: &str, words: &[String]) -> Result<(), Failure> {
    let mut paths = Vec::new(rt.alloc());
    for word in words {
        let path = remote(rt, word.as_bytes())?;
        paths
            .push(path)
            .map_err(|_| Failure::Refused("out of memory"))?;
    }
    let mut sftp = session(rt, socket)?;
    for size in sizes(rt.alloc(), &mut sftp, &paths)? {
        match size {
            Some(n) => println!(rt; "{n}"),
            None => println!(rt; "unknown"),
        }
        .map_err(|_| Failure::Refused("standard output can't be written"))?;
    }
    Ok(())
}

/// Writes bytes to standard output.
fn print(rt: &HostRuntime, bytes: &[u8]) -> Result<(), Failure> {
    write_all(&mut WriteSink::new(rt.stdout()), bytes).map_err(|_| Failure::Refused(
        "standard output can't be written",
    ))
}

/// Returns the path of these bytes.
fn remote(rt: &HostRuntime, path: &[u8]) -> Result<RemotePath, &'static str> {
    match Vec::from_slice(rt.alloc(), path) {
        Ok(bytes) => Ok(RemotePath::new(bytes)),
        Err(_) => Err("out of memory"),
    }
}

/// Returns a session with the server that listens at a socket.
fn session(rt: &HostRuntime, socket: &str) -> Result<Sftp<UnixLink>, Failure>
    ensures { IfOk result (IsUsable stream_view) }
{
    let link = UnixDial::new(rt)
        .dial(socket)
        .map_err(|_| Failure::Refused("no server listens on the socket"))?;
    match Sftp::new(rt.alloc(), link, &SftpOptions::new()) {
        Ok(sftp) => Ok(sftp),
        Err((e, _link)) => Err(Failure::Remote(e)),
    }
}
