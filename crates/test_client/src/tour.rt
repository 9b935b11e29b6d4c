//! Tests of one session after another over the server in memory, each of the same steps.
ghost use Rattle.std.specs.Prelude.{IsSome};
ghost use Rattle.sftp_core.specs.Info.{info_of};

use crate::calls::Call;
use crate::files::Change;
use crate::server::{Session, is_open, open_session, server};
use crate::{buffered, calls, files, names, polls, streams};
use sftp_client::{Core, Ended, Error, SftpOptions};
use sftp_link::LinkIn;
use sftp_map_server::MapServer;
use sftp_model::numbers::{
    SSH_FX_FAILURE as FAILURE, SSH_FX_NO_SUCH_FILE as NO_SUCH_FILE, SSH_FX_OK as OK,
    SSH_FX_OP_UNSUPPORTED as OP_UNSUPPORTED,
};
use std::alloc::Global;
use std::test::Fail;

/// An operation. Its operands are a path, and another path, a content, or an expected result.
#[derive(Clone, Copy)]
enum Do {
    /// A call of the session that runs to its end.
    Call(Call),
    /// A file is created and changed. One WRITE wrote this many bytes, and its offset is then as given.
    Change(Change, usize, u64),
    /// A file has these first bytes, by a call that is kept or not.
    BeginsWith(bool),
    /// A file of this content is moved.
    Move,
    /// Calls on two files wait, and are given up.
    Wait,
    /// A file is created, or has these bytes, by several requests at once.
    Uploads,
    Downloads,
    /// Calls on a buffered file.
    Buffered,
    /// A directory is created with attributes, is shared, and has one entry.
    BuildDir,
    Share,
    List,
    /// The file of this name has this length, from a working directory.
    HasLen(u64),
}

/// An operation, its operands, and the status of its end.
type Step = (Do, &'static [u8], &'static [u8], u32);

/// The status of an operation that failed without one.
const REFUSED: u32 = 1000;

/// The status of one that ended without error, but not as its operands say.
const DIFFERS: u32 = 1001;

/// Does an operation. Returns true if its result is the expected one.
fn do_step(alloc: Global, sftp: &mut Session, step: Step, ended: Ended) -> Result<bool, Error>
    requires { IsSome (info_of sftp.old.core.phase) }
{
    let (what, path, other, _) = step;
    match what {
        Do::Call(call) => calls::answer(sftp, call, path, other, ended),
        Do::Change(change, n, at) => files::changes(sftp, path, change, (n, at), ended),
        Do::BeginsWith(keeps) => files::begins_with(alloc, sftp, path, other, keeps, ended),
        Do::Move => files::moves(sftp, path, other.len() as u64, ended),
        Do::Wait => polls::wait(alloc, sftp, path, other, ended),
        Do::Uploads => streams::uploads(sftp, path, other, ended),
        Do::Downloads => streams::downloads(alloc, sftp, path, other, ended),
        Do::Buffered => buffered::plays(alloc, sftp, path, ended),
        Do::BuildDir => names::builds(alloc, sftp, path),
        Do::Share => names::shares(alloc, sftp, path, ended),
        Do::List => names::lists(alloc, sftp, path, other),
        Do::HasLen(len) => names::has_len_in(alloc, sftp, path, other, len),
    }
}

/// Returns the status of a result.
fn status_of(answer: Result<bool, Error>) -> u32 {
    match answer {
        Ok(true) => OK,
        Ok(false) => DIFFERS,
        Err(Error::SftpError { code, .. }) => code,
        Err(_) => REFUSED,
    }
}

/// Returns true if a step ends with its status.
fn is_met(alloc: Global, sftp: &mut Session, step: Step, ended: Ended) -> bool {
    is_open(sftp) && status_of(do_step(alloc, sftp, step, ended)) == step.3
}

/// Returns how many steps end with their status, before one that does not.
fn steps_met(alloc: Global, sftp: &mut Session, steps: &[Step], ended: Ended) -> usize {
    let mut met = 0;
    for step in steps {
        if !is_met(alloc, sftp, *step, ended) {
            return met;
        }
        met = met.saturating_add(1);
    }
    met
}

/// Returns the server of a session that ends, if all was answered.
fn server_left(sftp: Session) -> Result<MapServer, Fail> {
    let mut sftp = sftp;
    if !is_open(&mut sftp) {
        return Err("it isn't open")?;
    }
    match sftp.close() {
        Ok(server) => Ok(server),
        Err((_e, _server)) => Err("it didn't end")?,
    }
}

/// Returns what is left of a server: how many files and directories, whether the file is the one of the last step, and
/// whether nothing comes any more.
fn left(server: &mut MapServer) -> (u64, u64, bool, bool) {
    let is_file = match server.file(0) {
        Some((name, bytes)) => name == NAME && bytes == LAST,
        None => false,
    };
    let is_over = server.recv(&mut [0; 8]) == Ok(0) && server.is_ended();
    (server.file_count(), server.dir_count(), is_file, is_over)
}

/// Returns how many steps ended with their status over a server, and whether the server is left as they say.
fn toured(alloc: Global, server: MapServer, ended: Ended) -> Result<(usize, bool), Fail> {
    let mut sftp = open_session(alloc, server)?;
    let met = steps_met(alloc, &mut sftp, STEPS, ended);
    let mut server = server_left(sftp)?;
    Ok((met, left(&mut server) == (1, 0, true, true)))
}

#[test]
fn tours(rt: HostRuntime) -> Result<(), Fail> {
    let alloc = rt.alloc();
    let ended = Core::new(alloc, &SftpOptions::new())?.end();
    for (cut, cap, picks) in SERVERS {
        let server = server(alloc, cut, cap, picks)?;
        let told = toured(alloc, server, ended)?;
        assert_eq!(rt; told, (STEPS.len(), true), "at a cut of {cut}");
    }
    Ok(())
}

/// The most bytes that a server moves a call, 0 for no limit, the most bytes of a DATA, and its picks of the replies that
/// wait.
const SERVERS: [(u32, u32, &[u32]); 3] = [(0, 0, &[]), (1, 0, &[]), (7, 2, &[1, 2, 1, 1, 2, 2, 1])];

/// The file that is left, and its bytes.
const NAME: &[u8] = b"n";

const LAST: &[u8] = b"helloWORLDd";

/// Eleven bytes.
const HELLO: &[u8] = b"hello world";

const STEPS: &[Step] = &[
    // Files whole: what was written is read.
    (Do::Call(Call::WriteFile), b"a", HELLO, OK),
    (Do::Call(Call::ReadFile), b"a", HELLO, OK),
    (Do::Call(Call::WriteFile), b"b", b"", OK),
    (Do::Call(Call::ReadFile), b"b", b"", OK),
    (Do::Call(Call::ReadFile), b"c", b"", NO_SUCH_FILE),
    (Do::Call(Call::WriteFile), b"c/b", b"", NO_SUCH_FILE),
    // Open files.
    (Do::Call(Call::Create), b"b", HELLO, OK),
    (Do::Call(Call::ReadFile), b"b", HELLO, OK),
    (Do::Call(Call::Open), b"b", b"h", OK),
    (Do::Call(Call::Create), b"b", b"", OK),
    (Do::Call(Call::Open), b"b", b"", OK),
    (Do::Call(Call::Create), b"c/b", b"", NO_SUCH_FILE),
    (Do::Call(Call::Open), b"c", b"", NO_SUCH_FILE),
    (Do::Call(Call::WriteOpened), b"a", b"", REFUSED),
    (Do::Call(Call::ReadCreated), b"b", b"", REFUSED),
    (Do::Call(Call::Copy), b"a", b"b", OK),
    (Do::Call(Call::ReadFile), b"b", b"hello", OK),
    (Do::Call(Call::CopyAll), b"a", b"b", OK),
    (Do::Call(Call::ReadFile), b"b", HELLO, OK),
    (Do::Call(Call::Copy), b"c", b"b", NO_SUCH_FILE),
    (Do::Call(Call::CopyAll), b"a", b"c/b", NO_SUCH_FILE),
    // Attributes.
    (Do::Call(Call::Metadata), b"b", HELLO, OK),
    (Do::Call(Call::Metadata), b"c", b"", NO_SUCH_FILE),
    (Do::Call(Call::SetMetadata), b"b", b"hel", OK),
    (Do::Call(Call::SymlinkMetadata), b"b", b"hel", OK),
    (Do::Call(Call::SymlinkMetadata), b"c", b"", NO_SUCH_FILE),
    (Do::Call(Call::ReadFile), b"b", b"hel", OK),
    (Do::Call(Call::SetMetadata), b"c", b"hel", NO_SUCH_FILE),
    (Do::Call(Call::SetPermissions), b"b", b"", OK),
    (Do::Call(Call::SetPermissions), b"c", b"", NO_SUCH_FILE),
    // Directories and names.
    (Do::Call(Call::CreateDir), b"d", b"", OK),
    (Do::Call(Call::CreateDir), b"d", b"", FAILURE),
    (Do::Call(Call::ReadDir), b".", b"abd", OK),
    (Do::Call(Call::ReadDir), b"c", b"", NO_SUCH_FILE),
    (Do::Call(Call::Rename), b"b", b"d/b", OK),
    (Do::Call(Call::Rename), b"b", b"d/b", NO_SUCH_FILE),
    (Do::Call(Call::ReadDir), b"d", b"b", OK),
    (Do::Call(Call::RemoveDir), b"d", b"", FAILURE),
    (Do::Call(Call::Canonicalize), b"d/./b", b"/d/b", OK),
    (Do::Call(Call::Symlink), b"a", b"l", OP_UNSUPPORTED),
    (Do::Call(Call::HardLink), b"a", b"l", OP_UNSUPPORTED),
    (Do::Call(Call::ReadLink), b"a", b"", OP_UNSUPPORTED),
    (Do::List, b"d", b"b", OK),
    (Do::HasLen(3), b"d", b"b", OK),
    (Do::Call(Call::RemoveFile), b"d/b", b"", OK),
    (Do::Call(Call::RemoveFile), b"d/b", b"", NO_SUCH_FILE),
    (Do::Call(Call::RemoveFile), b"d", b"", FAILURE),
    (Do::Call(Call::RemoveDir), b"d", b"", OK),
    (Do::Call(Call::RemoveDir), b"d", b"", NO_SUCH_FILE),
    (Do::BuildDir, b"d", b"", OK),
    (Do::Share, b"d", b"", OK),
    (Do::Call(Call::ReadDir), b"d", b"", OK),
    (Do::Call(Call::RemoveDir), b"d", b"", OK),
    // Calls that are started first.
    (Do::BeginsWith(true), b"a", HELLO, OK),
    (Do::BeginsWith(false), b"a", b"hell", OK),
    (Do::Move, b"a", HELLO, OK),
    (Do::Change(Change::Write, 3, 3), b"b", b"", OK),
    (Do::Call(Call::ReadFile), b"b", b"xyz", OK),
    (Do::Change(Change::WritePieces, 3, 3), b"b", b"", OK),
    (Do::Call(Call::ReadFile), b"b", b"xyz", OK),
    (Do::Change(Change::WriteUncopied, 3, 3), b"b", b"", OK),
    (Do::Call(Call::ReadFile), b"b", b"xyz", OK),
    (Do::Change(Change::WriteAllPieces, 0, 4), b"b", b"", OK),
    (Do::Call(Call::ReadFile), b"b", b"xyz!", OK),
    (Do::Change(Change::WriteAllUncopied, 0, 4), b"b", b"", OK),
    (Do::Call(Call::ReadFile), b"b", b"xyz!", OK),
    (Do::Change(Change::SetLen, 0, 0), b"b", b"", OK),
    (Do::Call(Call::ReadFile), b"b", b"\0\0\0\0\0", OK),
    (Do::Change(Change::SetMetadata, 0, 0), b"b", b"", OK),
    (Do::Call(Call::ReadFile), b"b", b"\0\0\0\0\0", OK),
    (Do::Change(Change::SetPermissions, 0, 0), b"b", b"", OK),
    (Do::Change(Change::Sync, 0, 0), b"b", b"", OK),
    (Do::Wait, b"a", b"b", OK),
    (Do::Uploads, b"b", HELLO, OK),
    (Do::Downloads, b"b", HELLO, OK),
    (Do::Buffered, b"a", b"", OK),
    (Do::Call(Call::ReadFile), b"a", LAST, OK),
    (Do::Call(Call::RemoveFile), b"b", b"", OK),
    (Do::Call(Call::Rename), b"a", NAME, OK),
    (Do::Call(Call::ReadDir), b".", NAME, OK),
];
