//! The loop that answers the frames that come over a link, one after another.
ghost use Rattle.std.specs.Prelude.{◌≡◌, ◌≢◌, ◌<◌, ◌-◌, ◌^◌, ◌⊎◌, length, true, if◌then◌else◌};
ghost use Rattle.sftp_link.specs.Told.{IfLogged};
ghost use Rattle.sftp_wire.specs.FrameReader.{nothing};
ghost use Rattle.sftp_serve.specs.declared.stop.Stop.TheVariants as stop;
ghost use Rattle.sftp_serve.specs.Logs.{MayServe, ServesStream};
ghost use Rattle.sftp_serve.specs.Serving.{HaltsAll, HasRoom, ServedOne, TookFrame, TookSome};

use crate::server::Server;
use crate::stop::Stop;
use sftp_link::{Link, LinkIn, send_all};
use sftp_model::FrameError;
use sftp_wire::FrameReader;
use ssh_encoding::OutOfMemory;
use std::alloc::Global;

/// The most bytes that one recv asks for.
const ROOM: usize = 4096;

/// The status if the stream has the most frames that are served.
const FULL: u8 = 7;

/// Takes some bytes of a frame, at most the number that is missing; returns false at the end.
fn take_some<L: LinkIn>(
    link: &mut L,
    reader: &mut FrameReader,
    room: &mut [u8],
) -> Result<bool, Stop>
    requires room { HasRoom reader.old room.old }
    requires count { (L.LinkState.state link.old).faults < 2 ^ 64 - 1 }
    ensures { TookSome reader.old reader.new (L.LinkState.state link.old) (L.LinkState.state link.new) result }
{
    let n = link.recv(room)?;
    if n == 0 {
        return Ok(false);
    }
    match reader.push(&room[..n]) {
        Ok(()) => Ok(true),
        Err(FrameError::OutOfMemory) => Err(Stop::OutOfMemory),
        Err(FrameError::Format(_)) => Err(Stop::Broken),
        Err(FrameError::HandleTooLong { .. }) => unreachable!(),
    }
}

/// Returns the reason for the end of a stream; `begun` is true if a part of a frame came.
fn ended(begun: bool) -> Stop
    ensures { result ≡ (if begun then stop.Broken else stop.Ended) }
{
    if begun { Stop::Broken } else { Stop::Ended }
}

/// Takes a frame, and no byte past it.
fn take_frame<L: LinkIn>(
    link: &mut L,
    reader: &mut FrameReader,
    room: &mut [u8],
) -> Result<(), Stop>
    requires fresh { reader.old ≡ nothing }
    requires some { 0 < length room.old }
    requires count { (L.LinkState.state link.old).faults < 2 ^ 64 - 1 }
    ensures took { TookFrame reader.new (L.LinkState.state link.old) (L.LinkState.state link.new) result }
    ensures room { length room.new ≡ length room.old }
{
    let mut begun = false;
    while reader.need() > 0 {
        let wanted = reader.need().min(room.len());
        // No `?`: it converts the error, and `took` is by cases on the result.
        match take_some(link, reader, &mut room[..wanted]) {
            Ok(true) => begun = true,
            Ok(false) => return Err(ended(begun)),
            Err(e) => return Err(e),
        }
    }
    Ok(())
}

/// Takes a frame and sends its answer.
fn serve_frame<L: Link>(
    link: &mut L,
    server: &mut Server,
    reader: &mut FrameReader,
    room: &mut [u8],
) -> Result<(), Stop>
    requires fresh { reader.old ≡ nothing }
    requires some { 0 < length room.old }
    requires count { (L.LinkState.state link.old).faults < 2 ^ 64 - 1 }
    ensures served { ServedOne server.old server.new reader.new (L.LinkState.state link.old) (L.LinkState.state link.new) result }
    ensures room { length room.new ≡ length room.old }
{
    // No `?`: it converts the error, and `served` is by cases on the result.
    match take_frame(link, reader, room) {
        Ok(()) => {}
        Err(e) => return Err(e),
    }
    let Some(body) = reader.frame() else {
        unreachable!();
    };
    match server.answer(body) {
        Ok(Some(frame)) => match send_all(link, &frame) {
            Ok(()) => {
                reader.clear();
                Ok(())
            }
            Err(e) => Err(Stop::from(e)),
        },
        Ok(None) => Err(Stop::Broken),
        Err(OutOfMemory) => Err(Stop::OutOfMemory),
    }
}

/// Answers frames until the stream ends or breaks, the link fails or an allocation fails.
fn serve_frames<L: Link>(alloc: Global, link: &mut L, server: &mut Server) -> u8
    requires { (L.LinkState.state link.old).faults < 2 ^ 64 - 1 }
    ensures log { IfLogged (HaltsAll server.old result (L.LinkState.state link.new).ended) (L.LinkState.state link.old).log (L.LinkState.state link.new).log }
    ensures ended { result ≡ 0 → (L.LinkState.state link.new).ended ≡ true }
    ensures fault { result ≡ 3 → (L.LinkState.state link.old).faults < (L.LinkState.state link.new).faults }
    ensures unfailed { result ≢ 3 → (L.LinkState.state link.new).faults ≡ (L.LinkState.state link.old).faults }
    ensures status { (result ≡ 0) ⊎ (result ≡ 1) ⊎ (result ≡ 3) ⊎ (result ≡ 5) ⊎ (result ≡ 7) }
{
    let mut reader = FrameReader::new(alloc);
    let mut room = [0u8; ROOM];
    for _ in 0..u64::MAX {
        if let Err(stop) = serve_frame(link, server, &mut reader, &mut room) {
            return stop.status();
        }
    }
    FULL
}

/// Serves one client on a link, and returns the exit status.
#[tactic(auto, using(crate::proofs::Ends::serves_stream))]
pub(crate) fn serve_client<L: Link>(alloc: Global, server: Server, link: &mut L) -> u8
    requires { MayServe (L.LinkState.state link.old) }
    ensures serves { ServesStream server result (L.LinkState.state link.old) (L.LinkState.state link.new) }
    ensures status { (result ≡ 0) ⊎ (result ≡ 1) ⊎ (result ≡ 3) ⊎ (result ≡ 5) ⊎ (result ≡ 7) }
{
    let mut server = server;
    serve_frames(alloc, link, &mut server)
}
