//! Tests of links, sources and sinks over a stream of which one call fails.
use sftp_link::{
    DeviceError, LinkIn, LinkOut, ReadSource, Sink, Source, StreamLink, WriteSink, read_up_to,
    recv_exact, send_all, write_all,
};
use std::alloc::Global;
use std::io;
use std::io::{Read, Write};
use std::test::Fail;

/// A stream of which the call with this number fails. It gives sevens without end, takes at most two bytes at a write,
/// and knows how many of them were flushed.
#[derive(Clone, Copy, Drop)]
struct Faulty {
    fails: u32,
    calls: u32,
    taken: usize,
    flushed: usize,
}

impl Faulty {
    fn new(fails: u32) -> Faulty {
        Faulty {
            fails,
            calls: 0,
            taken: 0,
            flushed: 0,
        }
    }

    fn call(&mut self) -> io::Result<()> {
        let fails = self.calls == self.fails;
        self.calls = self.calls.saturating_add(1);
        if fails {
            return Err(io::Error::from(io::ErrorKind::WouldBlock));
        }
        Ok(())
    }
}

impl Read for Faulty {
    fn read(&mut self, room: &mut [u8]) -> io::Result<usize> {
        self.call()?;
        room.fill(7);
        Ok(room.len())
    }
}

impl Write for Faulty {
    fn write(&mut self, bytes: &[u8]) -> io::Result<usize> {
        self.call()?;
        let n = bytes.len().min(2);
        self.taken = self.taken.saturating_add(n);
        Ok(n)
    }

    fn flush(&mut self) -> io::Result<()> {
        self.call()?;
        self.flushed = self.taken;
        Ok(())
    }
}

const FAILED: Result<usize, DeviceError> = Err(DeviceError::Failed);

fn received(fails: u32) -> [Result<usize, DeviceError>; 3] {
    let mut link = StreamLink::new(Faulty::new(fails));
    let mut room = [0; 4];
    [
        link.recv(&mut room),
        link.recv(&mut room),
        link.recv(&mut room),
    ]
}

fn sent(fails: u32) -> [Result<usize, DeviceError>; 3] {
    let mut link = StreamLink::new(Faulty::new(fails));
    [
        link.send(&[1, 2, 3, 4]),
        link.send(&[3, 4]),
        link.send(&[5]),
    ]
}

fn read(fails: u32) -> [Result<usize, DeviceError>; 3] {
    let mut source = ReadSource::new(Faulty::new(fails));
    let mut room = [0; 4];
    [
        source.read(&mut room),
        source.read(&mut room),
        source.read(&mut room),
    ]
}

/// Returns true if each error comes at the call that met it, and the next call succeeds.
fn come_once() -> bool {
    let full = [(0, FAILED, Ok(4)), (1, Ok(4), FAILED), (9, Ok(4), Ok(4))];
    for (fails, first, second) in full {
        let wanted = [first, second, Ok(4)];
        if !(received(fails) == wanted && read(fails) == wanted) {
            return false;
        }
    }
    let cut = [(0, FAILED, Ok(2)), (1, Ok(2), FAILED), (9, Ok(2), Ok(2))];
    for (fails, first, second) in cut {
        if !(sent(fails) == [first, second, Ok(1)]) {
            return false;
        }
    }
    true
}

/// Makes two writes, and returns how many bytes were taken and flushed then.
fn written(fails: u32) -> ([Result<usize, DeviceError>; 2], usize, usize) {
    let mut writer = Faulty::new(fails);
    let mut sink = WriteSink::new(&mut writer);
    let answers = [sink.write(&[1, 2, 3]), sink.write(&[3])];
    (answers, writer.taken, writer.flushed)
}

/// Returns true if each write is flushed, and a flush that fails is an error of its write.
fn are_flushed() -> bool {
    let rows = [
        (9, ([Ok(2), Ok(1)], 3, 3)),
        (0, ([FAILED, Ok(1)], 1, 1)),
        (1, ([FAILED, Ok(1)], 3, 3)),
        (2, ([Ok(2), FAILED], 2, 2)),
        (3, ([Ok(2), FAILED], 3, 2)),
    ];
    for (fails, wanted) in rows {
        if !(written(fails) == wanted) {
            return false;
        }
    }
    WriteSink::new(Faulty::new(9)).write(&[]) == Ok(0)
}

/// Returns true if 5000 bytes are read over two calls, and none if a third fails.
fn are_read(alloc: Global) -> Result<bool, Fail> {
    let mut source = ReadSource::new(Faulty::new(3));
    let whole = source.read(&mut [0; 4096]) == Ok(4096);
    let bytes = read_up_to(alloc, &mut source, 5000)?;
    let same = bytes.len() == 5000 && bytes.iter().all(|byte| *byte == 7);
    Ok(whole && same && read_up_to(alloc, &mut source, 5000).is_err())
}

/// Returns whether five bytes were sent, received and written whole, each over a stream of its own.
fn whole(fails: u32) -> (bool, bool, bool) {
    let mut link = StreamLink::new(Faulty::new(fails));
    let sent = send_all(&mut link, &[1, 2, 3, 4, 5]).is_ok();
    let mut link = StreamLink::new(Faulty::new(fails));
    let received = recv_exact(&mut link, &mut [0; 5]) == Ok(true);
    let mut sink = WriteSink::new(Faulty::new(fails));
    let written = write_all(&mut sink, &[1, 2, 3, 4, 5]).is_ok();
    (sent, received, written)
}

/// Returns true if a fault within the bytes is reported.
fn are_whole() -> bool {
    let rows = [
        (0, (false, false, false)),
        (2, (false, true, false)),
        (3, (true, true, false)),
        (5, (true, true, false)),
        (6, (true, true, true)),
    ];
    for (fails, wanted) in rows {
        if !(whole(fails) == wanted) {
            return false;
        }
    }
    true
}

#[test]
fn each_error_is_reported_once(rt: HostRuntime) -> Result<(), Fail> {
    let all = come_once() && are_flushed() && are_whole() && are_read(rt.alloc())?;
    assert!(rt; all);
    Ok(())
}
