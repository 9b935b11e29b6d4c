//! The core of a session: its queue, and the requests and frames that pass through it.
ghost use Rattle.std.specs.Prelude.{◌≡◌, ◌+◌, ◌<◌, ◌≤◌, ◌∷◌, ◌++◌, [], ℕ, map, slice_get, None, Some, false, IsTrue, IsSome, IfOk, IfErr, IfSome, OnOk, OnErr, vec_len, vec_capacity};
ghost use Rattle.std.specs.FinMap as fin;
ghost use Rattle.std.specs.Option.{option_map};
ghost use Rattle.sftp_model.specs.Frames.{frames_of, is_too_long};
ghost use Rattle.sftp_core.specs.Core.{fresh, queued_of, awaited_of, unanswered_of, kept_of, failed_with, is_call, write_of, refusal_of, submit_refusal, IsSubmitError, QueuesRequest, SubmittedParts, handed_out};
ghost use Rattle.sftp_wire.specs.Heads.{request_head};
ghost use Rattle.sftp_core.specs.Frames.{AreFilled, IsShort};
ghost use Rattle.sftp_core.specs.Pieces.{asked_of, chunk_bytes, pieces_of, HasFrames, IsCut};
ghost use Rattle.sftp_core.specs.Info.{MAX_IDS, info_of, HasLengths};
ghost use Rattle.sftp_core.specs.Queue.{IsPutLast, IsUnput};
ghost use Rattle.sftp_core.specs.Table.{marked_all};

use crate::chunk::Chunk;
use crate::errors::SubmitError;
use crate::handshake::Handshake;
use crate::id_record::IdRecord;
use crate::info::Info;
use crate::queued::{Queued, content_of, filled_parts, parts_of};
use crate::table::Table;
use crate::tokens::Ticket;
use bytes::Bytes;
use sftp_model::{Expected, Fault, Handle, Request, SftpOptions, TryCopy};
use sftp_wire::request_len;
use ssh_encoding::OutOfMemory;
use std::alloc::Global;
use std::marker::Model;
use std::mem;

mod replies;

/// The protocol of one session without its link: it numbers requests, queues their frames, and passes each reply to the
/// one request with its id (draft-ietf-secsh-filexfer-02, sections 3 to 7).
///
/// A contract sees the record under each id, the queue and the pieces of its frames, the kept fault and how far the
/// greeting has come.
///
/// Example: `crates/test_client/src/buffered.rt`.
#[derive(Drop)]
pub struct Core {
    alloc: Global,
    options: SftpOptions,
    hello_sent: bool,
    phase: Handshake,
    queue: Vec<Queued>,
    table: Table,
    fault: Option<Fault>,
    spare: Chunk,
}

impl Model for Core {
    ghost use Rattle.std.specs.Prelude.{vec_len, vec_capacity, map};
    ghost use Rattle.sftp_core.specs.Pieces.{asked_of, pieces_of};
    ghost use Rattle.std.specs.Coded.{codes};
    ghost use Rattle.sftp_core.specs.contracts.table.Table as of_table;
    ghost use Rattle.sftp_core.specs.Core.{Core};
    ghost use Rattle.sftp_core.specs.Sound.{IsSound};

    ghost Value = { Core };

    ghost coded = { Prim.hlevel (codes, of_table.the_row.coded) };

    ghost view = { λ c. record {
      options = c.options;
      hello_sent = c.hello_sent;
      phase = c.phase;
      queue = map asked_of c.queue.items;
      pieces = pieces_of c.queue.items;
      table = c.table;
      fault = c.fault;
    } };

    ghost invariant = { λ c. IsSound c.hello_sent c.phase (map asked_of c.queue.items) (vec_len c.queue) (vec_capacity c.queue) c.table };
}

impl Core {
    /// Creates a core whose queue holds only the hello, with the capacity for requests that the options name.
    ///
    /// # Errors
    ///
    /// `OutOfMemory` if an allocation fails.
    pub fn new(alloc: Global, options: &SftpOptions) -> Result<Core, OutOfMemory>
        ensures { IfOk result (λ core. core ≡ fresh options.now) }
    {
        let mut queue = Vec::with_capacity(alloc, options.get_requests_buffer_size().max(1))?;
        push_reserved(&mut queue, 0, Request::Init { version: 3 }, Vec::new(alloc));
        Ok(Core {
            alloc,
            options: *options,
            hello_sent: false,
            phase: Handshake::Greeting,
            queue,
            table: Table::new(alloc),
            fault: None,
            spare: Chunk::new(alloc),
        })
    }

    /// Returns the facts known about the server. It is `Some` exactly once VERSION was taken, and also the reply to the
    /// query for limits if the server offers it. Both lengths are from 1 to 1048275 bytes.
    pub fn info(&self) -> Option<Info>
        ensures value { result ≡ info_of self.now.phase }
        ensures range { IfSome result (λ info. HasLengths info) }
    {
        self.phase.info()
    }

    /// Returns the options that the core was made with.
    pub fn options(&self) -> &SftpOptions
        ensures { result.now ≡ self.now.options }
    {
        &self.options
    }

    /// Returns the allocator of the core. A contract sees no allocator, so none says which it is.
    pub fn alloc(&self) -> Global {
        self.alloc
    }

    /// Returns the kept fault, which is the first one.
    pub fn fault(&self) -> Option<Fault>
        ensures { result ≡ self.now.fault }
    {
        self.fault
    }

    /// Keeps a fault, if none is kept.
    pub fn fail(&mut self, fault: Fault)
        ensures { self.new ≡ failed_with self.old fault }
    {
        if self.fault.is_none() {
            self.fault = Some(fault);
        }
    }

    /// Returns the number of queued frames, including the hello.
    pub fn queued(&self) -> u32
        ensures { result ≡ queued_of self.now }
    {
        self.queue.len() as u32
    }

    /// Returns the id and the request of the k-th queued frame, counted from 0; None exactly past the end. The hello
    /// has the id 0 here.
    pub fn queued_request(&self, k: u32) -> Option<(u32, &Request)>
        ensures { option_map (λ p. (p.0, p.1.now)) result ≡ slice_get self.now.queue k }
    {
        match self.queue.get(k as usize) {
            Some(queued) => Some((queued.id(), queued.request())),
            None => None,
        }
    }

    /// Returns the number of frames that were handed out and have no reply, including the hello.
    pub fn awaited(&self) -> u32
        ensures { result ≡ awaited_of self.now }
    {
        if self.hello_sent {
            (self.table.waiting() - self.queue.len()) as u32 + self.phase.hello()
        } else {
            (self.table.waiting() + 1 - self.queue.len()) as u32
        }
    }

    /// Returns the number of frames that have no reply, handed out or queued, including the hello.
    pub fn unanswered(&self) -> u32
        ensures { result ≡ unanswered_of self.now }
    {
        self.table.waiting() as u32 + self.phase.hello()
    }

    /// Returns the number of ids in use, including the hello: the unanswered requests, the answered requests whose
    /// ticket is out, and the grants whose CLOSE was not submitted. Only a submitted request raises it.
    pub fn kept(&self) -> u32
        ensures { result ≡ kept_of self.now }
    {
        self.table.len() as u32 + self.phase.hello()
    }

    /// Puts a request last into the queue, under an id that no unanswered request has. An OPEN or OPENDIR also
    /// allocates the memory for its CLOSE.
    ///
    /// # Errors
    ///
    /// `Failed` with a kept fault comes before `TooLong` and `OutOfMemory`. The core is unchanged.
    #[tactic(auto, using(crate::proofs::Refusals::no_fault))]
    pub fn submit(&mut self, request: &Request) -> Result<Ticket, SubmitError>
        requires ready { IsSome (info_of self.old.phase) }
        requires few { fin.len self.old.table < MAX_IDS }
        requires call { IsTrue (is_call request.now) }
        ensures ok { IfOk result (λ ticket. QueuesRequest self.old request.now ticket self.new) }
        ensures refused { IfErr result (λ e. IsSubmitError e (submit_refusal self.old request.now)) }
        ensures unchanged { OnErr result (self.new ≡ self.old) }
    {
        if let Some(fault) = self.fault {
            return Err(SubmitError::Failed(fault));
        }
        if request_len(request).is_none() {
            return Err(SubmitError::TooLong);
        }
        let copy = request.try_copy(self.alloc)?;
        let parts = parts_of(self.alloc, request)?;
        let id = put_last(&mut self.queue, &mut self.table, copy, parts, true)?;
        Ok(Ticket { id })
    }

    /// Submits the WRITE of these parts, joined. The parts are shared and not copied. The queue's pieces of it are its
    /// head and then each part that is not empty, by itself.
    ///
    /// # Errors
    ///
    /// `Failed` with a kept fault comes before `TooLong` and `OutOfMemory`, as with `submit`. The core is unchanged.
    #[tactic(auto, using(crate::proofs::Refusals::no_fault))]
    pub fn submit_parts(
        &mut self,
        handle: &Handle,
        offset: u64,
        parts: &[Bytes],
    ) -> Result<Ticket, SubmitError>
        requires ready { IsSome (info_of self.old.phase) }
        requires few { fin.len self.old.table < MAX_IDS }
        ensures ok { IfOk result (λ ticket.
            SubmittedParts self.old handle.now offset parts.now ticket self.new) }
        ensures refused { IfErr result (λ e.
            IsSubmitError e (submit_refusal self.old (write_of handle.now offset parts.now))) }
        ensures unchanged { OnErr result (self.new ≡ self.old) }
    {
        if let Some(fault) = self.fault {
            return Err(SubmitError::Failed(fault));
        }
        let request = short_write(self.alloc, handle, offset, parts)?;
        let filled = filled_parts(self.alloc, parts)?;
        let id = put_last(&mut self.queue, &mut self.table, request, filled, true)?;
        Ok(Ticket { id })
    }

    /// Returns the frames of all queued requests in order, as pieces, none of them empty. The pieces of a frame are its
    /// head, and then the pieces of its content as they were passed in. Then nothing is queued, and each request counts
    /// as sent.
    ///
    /// # Errors
    ///
    /// `OutOfMemory` if an allocation fails; the core is unchanged.
    pub fn hand_out(&mut self) -> Result<Chunk, OutOfMemory>
        ensures ok { IfOk result (λ chunk. chunk_bytes chunk ≡ frames_of self.old.queue) }
        ensures frames { IfOk result (λ chunk. HasFrames chunk self.old.queue) }
        ensures pieces { IfOk result (λ chunk. chunk.pieces ≡ self.old.pieces) }
        ensures filled { IfOk result (λ chunk. AreFilled chunk.pieces) }
        ensures after { OnOk result (self.new ≡ handed_out self.old) }
        ensures unchanged { OnErr result (self.new ≡ self.old) }
    {
        let spare = mem::replace(&mut self.spare, Chunk::new(self.alloc));
        let chunk = Chunk::of_queue(self.alloc, self.queue.as_slice(), spare)?;
        mark_all(&mut self.table, self.queue.as_slice());
        self.queue.clear();
        self.hello_sent = true;
        Ok(chunk)
    }

    /// Takes a chunk back, and keeps its memory for the next one. Nothing else changes.
    pub fn give_back(&mut self, chunk: Chunk)
        ensures { self.new ≡ self.old }
    {
        self.spare = chunk.cleared();
    }

    /// Ends the core. No bytes are sent. The returned value allows the release of its tickets and grants.
    pub fn end(self) -> Ended {
        Ended(())
    }
}

/// The proof that a core was ended. The tickets and grants that it handed out have no use any more, and may be
/// released.
///
/// It does not distinguish two cores: the caller must pass the `Ended` of the core that the ticket or grant came from.
///
/// Example: `crates/test_client/src/files.rt`.
#[derive(Clone, Copy, Debug)]
pub struct Ended(());

/// Returns the WRITE of these parts, if its frame is within the limit.
#[tactic(auto, using(crate::proofs::Refusals::no_fault))]
fn short_write(
    alloc: Global,
    handle: &Handle,
    offset: u64,
    parts: &[Bytes],
) -> Result<Request, SubmitError>
    ensures ok { IfOk result (λ request. request ≡ write_of handle.now offset parts.now) }
    ensures short { (id : ℕ) → OnOk result (IsShort (id, write_of handle.now offset parts.now)) }
    ensures only { OnOk result (refusal_of None (is_too_long (write_of handle.now offset parts.now)) ≡ None) }
    ensures refused { IfErr result (λ e.
        IsSubmitError e (refusal_of None (is_too_long (write_of handle.now offset parts.now)))) }
{
    let content = content_of(alloc, parts)?;
    let request = Request::Write {
        handle: handle.copied(),
        offset,
        content,
    };
    if request_len(&request).is_none() {
        return Err(SubmitError::TooLong);
    }
    Ok(request)
}

/// Marks each request of a queue as handed out.
fn mark_all(table: &mut Table, queue: &[Queued])
    ensures { table.new ≡ marked_all table.old (map asked_of queue.now) }
{
    let mut rest = queue;
    loop {
        match rest {
            [] => return,
            [queued, later @ ..] => {
                table.mark_sent(queued.id());
                rest = later;
            }
        }
    }
}

/// Puts a request last into the queue, with the pieces of its content, and under a free id, which is 0 if none is in
/// use. The queue then has capacity for each CLOSE that may come. Fails only if an allocation fails; only that capacity
/// may have changed.
fn put_last(
    queue: &mut Vec<Queued>,
    table: &mut Table,
    request: Request,
    parts: Vec<Bytes>,
    wanted: bool,
) -> Result<u32, OutOfMemory>
    requires few { fin.len table.old < MAX_IDS }
    requires cut { IsCut request parts.items }
    ensures ok { IfOk result (λ id. IsPutLast request parts.items wanted id queue.old queue.new table.old table.new) }
    ensures err { OnErr result (IsUnput queue.old queue.new table.old table.new) }
    ensures grows { vec_capacity queue.old ≤ vec_capacity queue.new }
{
    let held = IdRecord::Waiting {
        expected: Expected::of(&request),
        sent: false,
        wanted,
    };
    let more = table.owing() + held.owing() + 1;
    queue.reserve(more)?;
    let id = table.insert(held)?;
    push_reserved(queue, id, request, parts);
    Ok(id)
}

/// Pushes into capacity that exists.
fn push_reserved(queue: &mut Vec<Queued>, id: u32, request: Request, parts: Vec<Bytes>)
    requires capacity { vec_len queue.old < vec_capacity queue.old }
    requires cut { IsCut request parts.items }
    ensures items { map asked_of queue.new.items ≡ map asked_of queue.old.items ++ (id, request) ∷ [] }
    ensures pieces { pieces_of queue.new.items ≡ pieces_of queue.old.items ++ request_head request id ∷ parts.items }
    ensures len { vec_len queue.new ≡ vec_len queue.old + 1 }
    ensures grows { vec_capacity queue.old ≤ vec_capacity queue.new }
{
    let pushed: Result<_, _> = queue.push(Queued::new(id, request, parts));
    pushed.unwrap();
}
