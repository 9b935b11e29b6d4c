//! The replies to the bodies of frames.
ghost use Rattle.std.specs.Prelude.{◌≡◌, ◌≤◌, Some, false, true, length, IfOk, OnOk, OnErr};
ghost use Rattle.std.specs.Result.{result_ok};
ghost use Rattle.sftp_model.specs.Answers.{IsAfterHello};
ghost use Rattle.sftp_model.specs.Numbers.{MAX_BODY_LEN};
ghost use Rattle.sftp_model.specs.Frames.{reply_body, reply_frame};
ghost use Rattle.sftp_model.specs.RequestReadings.{request_at};
ghost use Rattle.machine_model.specs.FitTrees.{IsFit};
ghost use Rattle.machine_model.specs.TreeAnswers.{first_choice, limits_reply};
ghost use Rattle.sftp_map_server.specs.Serving.{at_once, gives_within as gives_within_by, greet, id_of as id_by, is_hello as is_hello_by, is_query as is_query_by, over_at, respond, serve, after_choice, step, version_reply, with_said};

use bitflags::Flags;
use machine_answers::{Machine, Outbox, gives_within};
use sftp_model::{Choice, Extensions, FrameError, Reply, Request, ServerConfig};
use sftp_values::Items;
use sftp_wire::{read_request, write_reply};
use ssh_encoding::OutOfMemory;
use std::alloc::Global;
use std::marker::Model;

/// A machine, its choices, and the state of the link.
#[derive(Drop)]
pub(crate) struct ServerState {
    alloc: Global,
    machine: Machine,
    choices: Items<Choice>,
    used: usize,
    greeted: bool,
    over: bool,
}

impl Model for ServerState {
    ghost use Rattle.std.specs.Prelude.{◌≤◌, drop, length};
    ghost use Rattle.machine_model.specs.FitTrees.{IsFit};
    ghost use Rattle.sftp_map_server.specs.Serving.{ServerState as StateValue};

    ghost Value = { StateValue };

    ghost view = { λ d. record {
      machine = d.machine;
      choices = drop d.used d.choices;
      greeted = d.greeted;
      over = d.over;
    } };

    // Replies fit a frame.
    ghost invariant = { λ d. (d.used ≤ length d.choices) × IsFit d.machine.tree };
}

/// Returns true if a request is the hello.
fn is_hello(request: &Request) -> bool
    ensures { result ≡ is_hello_by request.now }
{
    match request {
        Request::Init { .. } => true,
        _ => false,
    }
}

/// Returns true if a request is the query for limits.
fn is_query(request: &Request) -> bool
    ensures { result ≡ is_query_by request.now }
{
    match request {
        Request::LimitsQuery => true,
        _ => false,
    }
}

/// Returns true if the reply to a request has at most the bytes that one DATA can carry.
fn may_serve(request: &Request, choice: Choice) -> bool
    ensures { result ≡ gives_within_by request.now choice }
{
    gives_within(request, choice.cap)
}

/// Returns the request that a body spells, with its id; None if it spells none.
fn asked(alloc: Global, body: &[u8]) -> Result<Option<(Option<u32>, Request)>, OutOfMemory>
    ensures { IfOk result (λ asked. asked ≡ result_ok (request_at body.now)) }
{
    match read_request(alloc, body) {
        Ok(asked) => Ok(Some(asked)),
        Err(FrameError::OutOfMemory) => Err(OutOfMemory),
        Err(_) => Ok(None),
    }
}

/// Returns the reply to the hello.
pub fn version(config: ServerConfig) -> Reply
    ensures { result ≡ version_reply config }
{
    let extensions = match config.limits {
        Some(_) => config.extensions.bits() | 32,
        None => config.extensions.bits() & 31,
    };
    Reply::Version {
        version: 3,
        extensions: Extensions::from_bits_retain(extensions),
    }
}

/// Returns the frame of a reply that fits one.
///
/// # Errors
///
/// `OutOfMemory` if an allocation fails.
pub fn frame_of(alloc: Global, reply: &Reply, id: u32) -> Result<Vec<u8>, OutOfMemory>
    requires { length (reply_body reply.now id) ≤ MAX_BODY_LEN }
    ensures { IfOk result (λ frame. frame.items ≡ reply_frame reply.now id) }
{
    let mut frame = Vec::new(alloc);
    match write_reply(reply, id, &mut frame) {
        Ok(()) => Ok(frame),
        Err(FrameError::OutOfMemory) => Err(OutOfMemory),
        Err(_) => unreachable!(),
    }
}

/// Returns the id of a request; the hello has none.
fn id_of(id: Option<u32>) -> u32
    ensures { result ≡ id_by id }
{
    match id {
        Some(id) => id,
        None => 0,
    }
}

impl ServerState {
    /// Creates the state before the first request.
    pub(crate) fn new(alloc: Global, machine: Machine, choices: Items<Choice>) -> ServerState
        requires { IsFit machine.tree }
        ensures { result ≡ record { machine = machine; choices = choices; greeted = false; over = false } }
    {
        ServerState {
            alloc,
            machine,
            choices,
            used: 0,
            greeted: false,
            over: false,
        }
    }

    /// Returns the machine.
    pub(crate) fn machine(&self) -> &Machine
        ensures { result.now ≡ self.now.machine }
    {
        &self.machine
    }

    /// Returns the most bytes that one call moves; 0 is no limit.
    pub(crate) fn cut(&self) -> u32
        ensures { result ≡ self.now.machine.config.cut }
    {
        self.machine.config().cut
    }

    /// Returns true if the link is over.
    pub(crate) fn is_over(&self) -> bool
        ensures { result ≡ self.now.over }
    {
        self.over
    }

    /// Ends the link.
    pub(crate) fn end(&mut self)
        ensures { self.new ≡ over_at self.old }
    {
        self.over = true;
    }

    // Returns the choice for the next request.
    fn choice(&self) -> Choice
        ensures { result ≡ first_choice self.now.choices }
    {
        match self.choices.as_slice().get(self.used) {
            Some(choice) => *choice,
            None => Choice { refuse: 0, cap: 0 },
        }
    }

    // Answers the hello by VERSION, once.
    fn greet(&mut self, outbox: &mut Outbox) -> Result<(), OutOfMemory>
        ensures left { OnOk result (self.new ≡ (greet self.old).1) }
        ensures said { OnOk result (outbox.new ≡ with_said outbox.old (greet self.old).0) }
        ensures unchanged { OnErr result (self.new ≡ self.old) }
        ensures outbox { OnErr result (outbox.new ≡ outbox.old) }
    {
        if self.greeted {
            self.over = true;
            return Ok(());
        }
        let frame = frame_of(self.alloc, &version(self.machine.config()), 0)?;
        outbox.say(&frame)?;
        self.greeted = true;
        Ok(())
    }

    // Answers the query for limits at once; it takes no choice.
    fn tell(&self, id: Option<u32>, query: &Request, outbox: &mut Outbox) -> Result<(), OutOfMemory>
        requires { is_query_by query.now ≡ true }
        ensures said { OnOk result (outbox.new ≡ with_said outbox.old
            (at_once (reply_frame (limits_reply self.now.machine.config.limits) (id_by id)))) }
        ensures outbox { OnErr result (outbox.new ≡ outbox.old) }
    {
        let answered = self.machine.answer(query, Choice { refuse: 0, cap: 0 })?;
        let frame = frame_of(self.alloc, answered.reply(), id_of(id))?;
        outbox.say(&frame)
    }

    // Answers a request of the machine, which takes the next choice; the reply waits.
    fn serve(
        &mut self,
        id: Option<u32>,
        request: &Request,
        outbox: &mut Outbox,
    ) -> Result<(), OutOfMemory>
        requires { IsAfterHello request.now }
        ensures left { OnOk result (self.new ≡ (serve self.old id request.now).1) }
        ensures said { OnOk result (outbox.new ≡ with_said outbox.old (serve self.old id request.now).0) }
        ensures unchanged { OnErr result (self.new ≡ self.old) }
        ensures outbox { OnErr result (outbox.new ≡ outbox.old) }
    {
        let choice = self.choice();
        if !may_serve(request, choice) {
            self.over = true;
            return Ok(());
        }
        let answered = self.machine.answer(request, choice)?;
        let frame = frame_of(self.alloc, answered.reply(), id_of(id))?;
        outbox.hold(Items::new(frame))?;
        if self.machine.commit(answered).is_err() {
            outbox.take_back();
            return Err(OutOfMemory);
        }
        self.spend();
        Ok(())
    }

    // Takes the next choice.
    fn spend(&mut self)
        ensures { self.new ≡ after_choice self.old self.old.machine }
    {
        if self.used < self.choices.as_slice().len() {
            self.used += 1;
        }
    }

    // Answers a request; the first one must be the hello.
    fn respond(
        &mut self,
        id: Option<u32>,
        request: &Request,
        outbox: &mut Outbox,
    ) -> Result<(), OutOfMemory>
        ensures left { OnOk result (self.new ≡ (respond self.old id request.now).1) }
        ensures said { OnOk result (outbox.new ≡ with_said outbox.old (respond self.old id request.now).0) }
        ensures unchanged { OnErr result (self.new ≡ self.old) }
        ensures outbox { OnErr result (outbox.new ≡ outbox.old) }
    {
        if is_hello(request) {
            return self.greet(outbox);
        }
        if !self.greeted {
            self.over = true;
            return Ok(());
        }
        if is_query(request) {
            return self.tell(id, request, outbox);
        }
        self.serve(id, request, outbox)
    }

    /// Answers the body of a frame: VERSION and the limits are sent at once, and the frame of any other reply waits.
    /// Fails only if an allocation fails; nothing is changed.
    #[tactic(auto, unfolding(crate::specs::Serving::step))]
    pub(crate) fn answer(&mut self, body: &[u8], outbox: &mut Outbox) -> Result<(), OutOfMemory>
        ensures left { OnOk result (self.new ≡ (step self.old body.now).1) }
        ensures said { OnOk result (outbox.new ≡ with_said outbox.old (step self.old body.now).0) }
        ensures unchanged { OnErr result (self.new ≡ self.old) }
        ensures outbox { OnErr result (outbox.new ≡ outbox.old) }
    {
        if self.over {
            return Ok(());
        }
        let Some((id, request)) = asked(self.alloc, body)? else {
            self.over = true;
            return Ok(());
        };
        self.respond(id, &request, outbox)
    }
}
