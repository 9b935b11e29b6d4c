//! A test of links, sources, sinks and a dial in memory.
ghost use Rattle.std.specs.Prelude.{◌<◌, ◌-◌, ◌^◌};

use sftp_link::*;
use sftp_values::ByteText;
use std::alloc::{AllocError, Global};
use std::test::Fail;

const HELLO: [u8; 9] = [0, 0, 0, 5, 1, 0, 0, 0, 3];

const CLOSE: [u8; 9] = [0, 0, 0, 5, 4, 0, 0, 0, 7];

/// Returns an item that answers the request after the hello, with another id.
fn items(alloc: Global) -> Result<Vec<Scripted>, AllocError> {
    let mut items = Vec::new(alloc);
    items.push(Scripted::To {
        request: 1,
        flip: 1,
        kind: 101,
        fields: ByteText::new(Vec::from_slice(alloc, &[9])?),
    })?;
    Ok(items)
}

/// Sends the hello and a CLOSE with the id 7, and fills ten bytes with the reply.
fn ask<L: Link>(link: &mut L) -> Result<(bool, [u8; 10]), DeviceError>
    requires { (L.LinkState.state link.old).faults < 2 ^ 64 - 1 }
{
    send_all(link, &HELLO)?;
    send_all(link, &CLOSE)?;
    let mut reply = [0; 10];
    let filled = recv_exact(link, &mut reply)?;
    Ok((filled, reply))
}

/// Returns true if a scripted link answers, and its log is that of the link that logs it.
fn is_logged(alloc: Global) -> Result<bool, AllocError> {
    let link = ScriptedLink::new(alloc, items(alloc)?, Vec::new(alloc), 4);
    let mut logged = Logged::new(alloc, link);
    let answers = ask(&mut logged) == Ok((true, [0, 0, 0, 6, 101, 0, 0, 0, 6, 9]));
    let same = logged.log() == logged.inner().log();
    let (link, pieces) = logged.into_parts();
    let link = Logged::new(alloc, link).into_inner();
    Ok(answers && same && link.log() == pieces.as_slice())
}

/// Returns true if a dial in memory gives its link once.
fn is_dialled(alloc: Global) -> Result<bool, DeviceError> {
    let link = ScriptedLink::new(alloc, Vec::new(alloc), Vec::new(alloc), 0);
    let mut dial = MemoryDial::new(Some(link));
    let mut end = Logged::new(alloc, dial.dial("p")?);
    let sent = end.send(&HELLO);
    dial.put_back(end);
    let is_back = sent == Ok(9) && dial.log().len() == 1;
    Ok(is_back && dial.dial("p").is_err() && dial.dials() == 2)
}

/// Returns true if the bytes of a source go to a sink.
fn is_moved(alloc: Global) -> Result<bool, Fail> {
    let mut source = MemorySource::new(Vec::from_slice(alloc, &[1, 2, 3])?, Vec::new(alloc));
    let mut sink = MemorySink::new(alloc, Vec::new(alloc));
    let first = read_up_to(alloc, &mut source, 2)?;
    write_all(&mut sink, first.as_slice())?;
    Ok(sink.bytes() == [1, 2].as_slice())
}

#[test]
fn links_in_memory(rt: HostRuntime) -> Result<(), Fail> {
    let alloc = rt.alloc();
    let all = is_logged(alloc)? && is_dialled(alloc)? && is_moved(alloc)?;
    assert!(rt; all);
    Ok(())
}

#[test]
fn error_texts(rt: HostRuntime) -> Result<(), Fail> {
    let texts = format!(in rt.alloc(); "{}, {}", DeviceError::OutOfMemory, DeviceError::Failed)?;
    assert!(rt; texts.as_str() == "out of memory, the device failed");
    Ok(())
}
