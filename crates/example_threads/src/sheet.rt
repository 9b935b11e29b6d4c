//! A link in two halves whose replies are laid out beforehand, each to one request; frames are laid out by
//! draft-ietf-secsh-filexfer-02, sections 3 to 7.
ghost use Rattle.std.specs.Prelude.{◌≤◌, length, IfOk};

use sftp_link::{DeviceError, LinkIn, LinkOut, LinkState};
use std::alloc::{AllocError, Global};
use std::sync::{Arc, Mutex, Wait};

const VERSION: &[u8] = &[0, 0, 0, 5, 2, 0, 0, 0, 3];

/// The type byte of INIT.
const INIT: u8 = 1;

/// The head and the fields of a STATUS of `SSH_FX_OP_UNSUPPORTED`, without texts.
const UNKNOWN_HEAD: &[u8] = &[0, 0, 0, 17, 101];

const UNKNOWN_FIELDS: &[u8] = &[0, 0, 0, 8, 0, 0, 0, 0, 0, 0, 0, 0];

/// The answer to one request.
#[derive(Drop)]
pub(crate) struct Page {
    /// The type byte of the request and its fields, without its id.
    pub(crate) request: Vec<u8>,
    /// The length and the type byte of the reply.
    pub(crate) head: Vec<u8>,
    /// The bytes after the reply's id.
    pub(crate) fields: Vec<u8>,
}

/// Pages, the bytes of a frame that isn't whole yet, and the replies that wait. The one that came last is returned
/// first.
#[derive(Drop)]
pub(crate) struct Sheet {
    alloc: Global,
    pages: Vec<Page>,
    input: Vec<u8>,
    waiting: Vec<Vec<u8>>,
    output: Vec<u8>,
}

/// Returns the length before a body, if all its bytes have come.
fn told_len(input: &[u8]) -> Option<usize> {
    match input {
        [a, b, c, d, ..] => Some(u32::from_be_bytes([*a, *b, *c, *d]) as usize),
        _ => None,
    }
}

/// Takes the first frame off the input, if it is whole, and returns its body.
fn first_body(alloc: Global, input: &mut Vec<u8>) -> Result<Option<Vec<u8>>, AllocError> {
    let Some(len) = told_len(input) else {
        return Ok(None);
    };
    let end = len.saturating_add(4);
    if input.len() < end {
        return Ok(None);
    }
    let body = Vec::from_slice(alloc, &input[4..end])?;
    let rest = Vec::from_slice(alloc, &input[end..])?;
    *input = rest;
    Ok(Some(body))
}

/// Returns true if a page answers the request of this type and these fields.
fn is_of(page: &Page, kind: u8, fields: &[u8]) -> bool {
    match page.request.as_slice() {
        [first, rest @ ..] => *first == kind && *rest == *fields,
        [] => false,
    }
}

/// Returns the frame of a reply, with an id.
fn frame_of(alloc: Global, head: &[u8], id: &[u8], fields: &[u8]) -> Result<Vec<u8>, AllocError> {
    let mut frame = Vec::from_slice(alloc, head)?;
    frame.extend_from_slice(id)?;
    frame.extend_from_slice(fields)?;
    Ok(frame)
}

/// Returns the frame that answers a request by the pages. A request that no page has is unsupported.
fn answer_by(
    alloc: Global,
    pages: &[Page],
    kind: u8,
    id: &[u8],
    fields: &[u8],
) -> Result<Vec<u8>, AllocError> {
    for page in pages {
        if is_of(page, kind, fields) {
            return frame_of(alloc, page.head.as_slice(), id, page.fields.as_slice());
        }
    }
    frame_of(alloc, UNKNOWN_HEAD, id, UNKNOWN_FIELDS)
}

/// Returns the frame that answers the body of a request. The hello is answered with VERSION.
fn answer(alloc: Global, pages: &[Page], body: &[u8]) -> Result<Vec<u8>, AllocError> {
    match body {
        [INIT, ..] => Vec::from_slice(alloc, VERSION),
        [kind, a, b, c, d, fields @ ..] => {
            answer_by(alloc, pages, *kind, &[*a, *b, *c, *d], fields)
        }
        _ => answer_by(alloc, &[], 0, &[0, 0, 0, 0], &[]),
    }
}

impl Sheet {
    pub(crate) fn new(alloc: Global, pages: Vec<Page>) -> Sheet {
        Sheet {
            alloc,
            pages,
            input: Vec::new(alloc),
            waiting: Vec::new(alloc),
            output: Vec::new(alloc),
        }
    }

    /// Takes bytes, and answers each frame that is whole then.
    fn take(&mut self, bytes: &[u8]) -> Result<(), AllocError> {
        self.input.extend_from_slice(bytes)?;
        for _ in 0..bytes.len() {
            let Some(body) = first_body(self.alloc, &mut self.input)? else {
                return Ok(());
            };
            let frame = answer(self.alloc, self.pages.as_slice(), body.as_slice())?;
            self.waiting.push(frame)?;
        }
        Ok(())
    }

    /// Writes the next bytes of the current reply into the buffer, or of the waiting one that came last, and returns
    /// their number.
    fn give(&mut self, room: &mut [u8]) -> Result<usize, AllocError>
        ensures { IfOk result (λ n. n ≤ length room.new) }
    {
        if self.output.is_empty() {
            match self.waiting.pop() {
                Some(frame) => self.output = frame,
                None => return Ok(0),
            }
        }
        let n = room.len().min(self.output.len());
        let rest = Vec::from_slice(self.alloc, &self.output[n..])?;
        room[..n].copy_from_slice(&self.output[..n]);
        self.output = rest;
        Ok(n)
    }
}

/// The half to which requests are sent. It has no faults, and records no bytes.
#[derive(Drop)]
pub(crate) struct SheetOut<R> {
    rt: R,
    sheet: Arc<Mutex<Sheet>, Global>,
}

/// The half from which replies come. It has no faults, and records no bytes.
#[derive(Drop)]
pub(crate) struct SheetIn<R> {
    rt: R,
    sheet: Arc<Mutex<Sheet>, Global>,
    ended: bool,
}

/// Returns the two halves of a link that a sheet answers.
pub(crate) fn halves<R: Wait + Clone + Drop>(
    rt: &R,
    alloc: Global,
    sheet: Sheet,
) -> Result<(SheetOut<R>, SheetIn<R>), AllocError> {
    let sheet = Arc::new(alloc, Mutex::new(sheet))?;
    let theirs = Arc::try_clone(&sheet)?;
    let out = SheetOut {
        rt: rt.clone()?,
        sheet,
    };
    let input = SheetIn {
        rt: rt.clone()?,
        sheet: theirs,
        ended: false,
    };
    Ok((out, input))
}

impl<R> LinkState for SheetOut<R> {
    ghost use Rattle.std.specs.Prelude.{false};
    ghost use Rattle.example_threads.specs.Silent.{silent_link};

    ghost Service = { Unit {0} };

    ghost state = { λ _. silent_link false };
}

impl<R> LinkState for SheetIn<R> {
    ghost use Rattle.example_threads.specs.Silent.{silent_link};

    ghost Service = { Unit {0} };

    ghost state = { λ h. silent_link h.ended };
}

impl<R: Wait> LinkOut for SheetOut<R> {
    /// Sends all bytes, under the lock of the sheet.
    fn send(&mut self, bytes: &[u8]) -> Result<usize, DeviceError> {
        let mut sheet = self.sheet.lock(&self.rt);
        let taken = sheet.take(bytes);
        drop(sheet);
        match taken {
            Ok(()) => Ok(bytes.len()),
            Err(AllocError) => Err(DeviceError::OutOfMemory),
        }
    }
}

impl<R: Wait> LinkIn for SheetIn<R> {
    /// Receives under the lock of the sheet. If no reply waits, that is the end.
    fn recv(&mut self, room: &mut [u8]) -> Result<usize, DeviceError> {
        self.ended = false;
        let mut sheet = self.sheet.lock(&self.rt);
        let given = sheet.give(room);
        drop(sheet);
        match given {
            Ok(n) => {
                self.ended = n == 0;
                Ok(n)
            }
            Err(AllocError) => Err(DeviceError::OutOfMemory),
        }
    }
}
