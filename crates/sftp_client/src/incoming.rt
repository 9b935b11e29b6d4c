//! Bytes of one frame, as they come.
ghost use Rattle.std.specs.Prelude.{◌≡◌, ◌<◌, ◌≤◌, ◌-◌, ◌^◌, length, take, MatchOption};
ghost use Rattle.ssh_encoding.specs.Writing.{string};
ghost use Rattle.sftp_wire.specs.FrameReader.{missing_bytes};
ghost use Rattle.sftp_client.specs.Incoming.{Coming, FillsPart, IsRoomFor, ReadsFrame, PullsPart, TellsWhole, nothing_came};

use link_frames::fault;
use sftp_link::LinkIn;
use sftp_model::{Error, FrameError};
use sftp_wire::FrameReader;
use std::alloc::Global;
use std::marker::Model;

/// The bytes of a frame that came, and room for the part that comes next: the length, or the body. A contract sees the
/// parts that came whole, and the bytes that came of the next.
#[derive(Drop)]
pub(crate) struct Incoming {
    reader: FrameReader,
    room: Vec<u8>,
    filled: usize,
}

impl Model for Incoming {
    ghost use Rattle.std.specs.Prelude.{take};
    ghost use Rattle.sftp_client.specs.Incoming.{Coming, IsComing};

    ghost Value = { Coming };

    ghost view = { λ i. record { whole = i.reader.bytes; part = take i.filled i.room.items } };

    ghost invariant = { λ i. IsComing i.reader i.room.items i.filled };
}

impl Incoming {
    /// Returns a reader to which nothing of a frame has come. No memory is allocated.
    pub(crate) fn new(alloc: Global) -> Incoming
        ensures { result ≡ nothing_came }
    {
        Incoming {
            reader: FrameReader::new(alloc),
            room: Vec::new(alloc),
            filled: 0,
        }
    }

    /// Clears the reader for the next frame.
    pub(crate) fn clear(&mut self)
        ensures { self.new ≡ nothing_came }
    {
        self.reader.clear();
        self.room.clear();
        self.filled = 0;
    }

    /// Returns the body of the frame, once the frame is whole.
    pub(crate) fn frame(&self) -> Option<&[u8]>
        ensures { MatchOption result (0 < missing_bytes self.now.whole) (λ body. self.now.whole ≡ string body.now) }
    {
        self.reader.frame()
    }

    /// Returns true if the frame is whole.
    fn is_whole(&self) -> bool
        ensures { TellsWhole result self.now }
    {
        self.reader.need() == 0
    }

    /// Takes the missing bytes of the frame, and no byte past it. If an allocation fails, the link faults or it ends,
    /// the bytes that came are kept, and the next call continues with them. After a length that no frame may have, none
    /// are kept.
    pub(crate) fn pull<L: LinkIn>(&mut self, alloc: Global, link: &mut L) -> Result<(), Error>
        requires { (L.LinkState.state link.old).faults < 2 ^ 64 - 1 }
        ensures { ReadsFrame self.old self.new (L.LinkState.state link.old) (L.LinkState.state link.new) result }
    {
        while !self.is_whole() {
            self.pull_part(alloc, link)?;
        }
        Ok(())
    }

    /// Takes the missing bytes of the length, or of the body.
    fn pull_part<L: LinkIn>(&mut self, alloc: Global, link: &mut L) -> Result<(), Error>
        requires missing { 0 < missing_bytes self.old.whole }
        requires count { (L.LinkState.state link.old).faults < 2 ^ 64 - 1 }
        ensures { PullsPart self.old self.new (L.LinkState.state link.old) (L.LinkState.state link.new) result }
    {
        let need = self.reader.need();
        fill_part(alloc, link, need, &mut self.room, &mut self.filled)?;
        match self.reader.push(&self.room) {
            Ok(()) => {
                self.room.clear();
                self.filled = 0;
                Ok(())
            }
            Err(FrameError::OutOfMemory) => Err(Error::OutOfMemory),
            Err(FrameError::Format(kind)) => {
                self.reader.clear();
                self.room.clear();
                self.filled = 0;
                Err(Error::FormatError(kind))
            }
            Err(FrameError::HandleTooLong { .. }) => unreachable!(),
        }
    }
}

/// Takes a part of `need` bytes into a room, which is allocated if there is none yet. After an error the bytes that
/// came are counted.
fn fill_part<L: LinkIn>(
    alloc: Global,
    link: &mut L,
    need: usize,
    room: &mut Vec<u8>,
    filled: &mut usize,
) -> Result<(), Error>
    requires some { 0 < need }
    requires room { IsRoomFor need room.old.items filled.old }
    requires count { (L.LinkState.state link.old).faults < 2 ^ 64 - 1 }
    ensures fills { FillsPart need (take filled.old room.old.items) (take filled.new room.new.items) (L.LinkState.state link.old) (L.LinkState.state link.new) result }
    ensures room { IsRoomFor need room.new.items filled.new }
{
    if room.is_empty() {
        let Ok(zeros) = vec![in alloc; 0u8; need] else {
            return Err(Error::OutOfMemory);
        };
        *room = zeros;
        *filled = 0;
    }
    fill(link, room.as_mut_slice(), filled)
}

/// Takes bytes into the rest of a room until it is full. After an error the bytes that came are counted.
fn fill<L: LinkIn>(link: &mut L, room: &mut [u8], filled: &mut usize) -> Result<(), Error>
    requires within { filled.old ≤ length room.old }
    requires count { (L.LinkState.state link.old).faults < 2 ^ 64 - 1 }
    ensures fills { FillsPart (length room.old) (take filled.old room.old) (take filled.new room.new) (L.LinkState.state link.old) (L.LinkState.state link.new) result }
    ensures within { filled.new ≤ length room.new }
{
    while *filled < room.len() {
        match link.recv(&mut room[*filled..]) {
            Ok(0) => return Err(Error::LinkEnded),
            Ok(n) => *filled += n,
            Err(e) => return Err(fault(e)),
        }
    }
    Ok(())
}
