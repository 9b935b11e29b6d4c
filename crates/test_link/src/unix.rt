//! A test of a link over a Unix socket.
use sftp_link::{DeviceError, Dial, Logged, UnixDial, recv_exact, send_all};
use std::alloc::Global;
use std::io::{Read, Write};
use std::net::Net;
use std::os::unix::net::UnixListener;
use std::test::Fail;
use std::{fs, io, thread};

/// Accepts one stream, gives it three bytes and takes two from it.
fn serve(listener: &UnixListener) -> io::Result<[u8; 2]> {
    let (mut stream, _) = listener.accept()?;
    stream.write_all(&[1, 2, 3])?;
    let mut got = [0; 2];
    stream.read_exact(&mut got)?;
    Ok(got)
}

/// Dials, sends two bytes and receives. Returns true if four came before the end, and the bytes that came.
fn call<R: Net + Drop>(
    runtime: R,
    alloc: Global,
    path: &str,
) -> Result<(bool, [u8; 4]), DeviceError> {
    let mut dial = UnixDial::new(runtime);
    let mut end = Logged::new(alloc, dial.dial(path)?);
    send_all(&mut end, &[4, 5])?;
    let mut room = [0; 4];
    let filled = recv_exact(&mut end, &mut room)?;
    dial.put_back(end);
    Ok((filled, room))
}

/// A path of 100 bytes; a socket's path may have 107.
const PATH: &str =
    "a-socket-whose-path-has-one-hundred-bytes-which-is-near-the-most-that-the-path-of-a-socket-may-have-";

#[test]
fn calls_a_listening_socket(rt: HostRuntime) -> Result<(), Fail> {
    let path = PATH;
    let _ = fs::remove_file(&rt, path);
    let listener = UnixListener::bind(&rt, path)?;
    let (rt, listener) = (&rt, &listener);
    let (served, came) = thread::join(
        rt,
        move || serve(listener),
        move || call(rt, rt.alloc(), path),
    );
    fs::remove_file(rt, path)?;
    let all = served? == [4, 5] && came? == (false, [1, 2, 3, 0]);
    assert!(rt; all);
    Ok(())
}
