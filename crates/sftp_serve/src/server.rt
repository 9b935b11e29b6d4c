//! The answer of the server to the body of a frame.
ghost use Rattle.std.specs.Prelude.{◌≡◌, IfOk, false, length, true};
ghost use Rattle.machine_model.specs.FirstTree.{may_begin};
ghost use Rattle.sftp_model.specs.Answers.{IsAfterHello, status};
ghost use Rattle.sftp_model.specs.Numbers.{SSH_FX_OP_UNSUPPORTED};
ghost use Rattle.sftp_map_server.specs.Serving.{id_of as id_by, is_hello as is_hello_by};
ghost use Rattle.sftp_serve.specs.Stream.{IsSaid, machine_answer, choice_for, id_in as id_in_by, is_welcome as is_welcome_by, answer_to_frame, to_refused, to_request, unknown_id as unknown_id_by, unsupported_answer, version_answer};
ghost use Rattle.sftp_serve.specs.Words.{script_state};

use crate::details::shown_frame;
use crate::handles::{choice_for, count_after};
use machine_answers::Machine;
use script_grammar::Script;
use sftp_map_server::{frame_of, version};
use sftp_model::numbers::{SSH_FX_OP_UNSUPPORTED, SSH_FXP_EXTENDED};
use sftp_model::{Choice, FormatKind, FrameError, Reply, Request};
use sftp_values::ByteText;
use sftp_wire::read_request;
use ssh_encoding::OutOfMemory;
use std::alloc::Global;
use std::marker::Model;

/// A machine and the number of its open handles, a flag that is true if replies have all attributes and long names, and
/// one that is true if the hello came.
#[derive(Drop)]
pub(crate) struct Server {
    alloc: Global,
    machine: Machine,
    handle_count: u64,
    long: bool,
    greeted: bool,
}

impl Model for Server {
    ghost use Rattle.sftp_serve.specs.HandleCounts.{CountsHandles};
    ghost use Rattle.sftp_serve.specs.Stream.{ServedState};

    ghost Value = { ServedState };

    ghost view = { λ s. record { long = s.long; greeted = s.greeted; machine = s.machine } };

    ghost invariant = { λ s. CountsHandles s.machine s.handle_count };
}

/// Returns true if a request is the hello.
fn is_hello(request: &Request) -> bool
    ensures { result ≡ is_hello_by request.now }
{
    match request {
        Request::Init { .. } => true,
        _ => false,
    }
}

/// Returns true if a request is the hello of a client that knows version 3.
fn is_welcome(request: &Request) -> bool
    ensures { result ≡ is_welcome_by request.now }
{
    match request {
        Request::Init { version } => *version >= 3,
        _ => false,
    }
}

/// Returns the id of a request; the hello has none.
fn id_of(id: Option<u32>) -> u32
    ensures { result ≡ id_by id }
{
    match id {
        Some(id) => id,
        None => 0,
    }
}

/// Returns the id after the type of a body.
fn id_in(body: &[u8]) -> Option<u32>
    ensures { result ≡ id_in_by body.now }
{
    if body.len() < 5 {
        return None;
    }
    Some(u32::from_be_bytes([body[1], body[2], body[3], body[4]]))
}

/// Returns the id of a body that is no request because the name of its extension isn't known.
fn unknown_id(body: &[u8], e: FrameError) -> Option<u32>
    ensures { result ≡ unknown_id_by body.now e }
{
    match e {
        FrameError::Format(FormatKind::InvalidDiscriminant(kind)) => {
            if kind == SSH_FXP_EXTENDED {
                id_in(body)
            } else {
                None
            }
        }
        _ => None,
    }
}

/// Returns the answer to an unknown extension.
fn unsupported(alloc: Global) -> Reply
    ensures { result ≡ status SSH_FX_OP_UNSUPPORTED }
{
    Reply::Status {
        code: SSH_FX_OP_UNSUPPORTED,
        message: ByteText::new(Vec::new(alloc)),
        language: ByteText::new(Vec::new(alloc)),
    }
}

impl Server {
    /// Returns the state before the first frame, with the files and directories of a script.
    ///
    /// # Errors
    ///
    /// `OutOfMemory` if an allocation fails.
    pub(crate) fn new(alloc: Global, script: &Script, long: bool) -> Result<Server, OutOfMemory>
        requires { may_begin script.now.files script.now.dirs ≡ true }
        ensures { IfOk result (λ server. server ≡ script_state long script.now) }
    {
        let machine = Machine::new_tree(
            alloc,
            script.files.as_slice(),
            script.dirs.as_slice(),
            script.server,
        )?;
        Ok(Server {
            alloc,
            machine,
            handle_count: 0,
            long,
            greeted: false,
        })
    }

    // Answers the hello with VERSION.
    fn greet(&mut self) -> Result<Vec<u8>, OutOfMemory>
        ensures { IfOk result (λ frame. version_answer self.old ≡ (frame.items, self.new)) }
    {
        let frame = frame_of(self.alloc, &version(self.machine.config()), 0)?;
        self.greeted = true;
        Ok(frame)
    }

    // Returns the choice for a request.
    fn choice(&self, request: &Request) -> Choice
        ensures { result ≡ choice_for (length self.now.machine.tree.handles) request.now }
    {
        choice_for(self.handle_count, request)
    }

    // Answers a request by the machine.
    fn serve(&mut self, id: Option<u32>, request: &Request) -> Result<Vec<u8>, OutOfMemory>
        requires { IsAfterHello request.now }
        ensures { IfOk result (λ frame. machine_answer self.old id request.now ≡ (frame.items, self.new)) }
    {
        // For the contract: its files and directories are consistent.
        let _count = self.machine.grant_count();
        let choice = self.choice(request);
        let answered = self.machine.answer(request, choice)?;
        let frame = shown_frame(self.alloc, self.long, answered.reply(), id_of(id))?;
        let handle_count = count_after(self.handle_count, request, answered.reply());
        self.machine.commit(answered)?;
        self.handle_count = handle_count;
        Ok(frame)
    }

    // Answers an unknown extension with a STATUS.
    fn unsupported(&self, id: u32) -> Result<Vec<u8>, OutOfMemory>
        ensures { IfOk result (λ frame. unsupported_answer self.now id ≡ (frame.items, self.now)) }
    {
        frame_of(self.alloc, &unsupported(self.alloc), id)
    }

    // Answers a request, of which the first is the hello.
    fn respond(
        &mut self,
        id: Option<u32>,
        request: &Request,
    ) -> Result<Option<Vec<u8>>, OutOfMemory>
        ensures { IfOk result (λ frame. IsSaid (to_request self.old id request.now) frame self.new) }
    {
        if !self.greeted {
            if is_welcome(request) {
                return Ok(Some(self.greet()?));
            }
            return Ok(None);
        }
        if is_hello(request) {
            return Ok(None);
        }
        Ok(Some(self.serve(id, request)?))
    }

    // Answers a body that reads as no request.
    fn refuse(&self, body: &[u8], e: FrameError) -> Result<Option<Vec<u8>>, OutOfMemory>
        ensures { IfOk result (λ frame. IsSaid (to_refused self.now body.now e) frame self.now) }
    {
        if !self.greeted {
            return Ok(None);
        }
        match unknown_id(body, e) {
            Some(id) => Ok(Some(self.unsupported(id)?)),
            None => Ok(None),
        }
    }

    /// Returns the answer to the frame of a body, or `None` if the frame may not come here. Fails only if an allocation
    /// fails.
    #[tactic(auto, unfolding(crate::specs::Stream::answer_to_frame))]
    pub(crate) fn answer(&mut self, body: &[u8]) -> Result<Option<Vec<u8>>, OutOfMemory>
        ensures { IfOk result (λ frame. IsSaid (answer_to_frame self.old body.now) frame self.new) }
    {
        match read_request(self.alloc, body) {
            Ok((id, request)) => self.respond(id, &request),
            Err(FrameError::OutOfMemory) => Err(OutOfMemory),
            Err(e) => self.refuse(body, e),
        }
    }
}
