//! The replay of a trace by a file machine.
ghost use Rattle.std.specs.Prelude.{◌≡◌, true, drop, IfOk, OnOk};
ghost use Rattle.std.specs.Option.{option_copied};
ghost use Rattle.sftp_model.specs.Answers.{IsAfterHello};
ghost use Rattle.machine_model.specs.FirstTree.{may_begin};
ghost use Rattle.machine_answers.specs.MachineState.{answer};
ghost use Rattle.sftp_share.specs.Replays.{NoHello, choice_for, choices_after, is_reply, is_uncounted, replay_of, reply_in};

use crate::outcome::Replay;
use machine_answers::Machine;
use script_grammar::Script;
use session_model::Event;
use sftp_model::{Choice, Reply, Request};
use ssh_encoding::OutOfMemory;
use std::alloc::Global;

/// Returns true if a request takes no choice, as the query for limits does.
fn is_uncounted(request: &Request) -> bool
    ensures { result ≡ is_uncounted request.now }
{
    match request {
        Request::LimitsQuery => true,
        _ => false,
    }
}

/// Returns the choice for a request: the first that is left. After the last one, and for the query for limits, the
/// choice refuses and cuts nothing.
fn choice_for(request: &Request, choices: &[Choice]) -> Choice
    ensures { result ≡ choice_for request.now choices.now }
{
    if is_uncounted(request) {
        return Choice { refuse: 0, cap: 0 };
    }
    match choices {
        [choice, ..] => *choice,
        [] => Choice { refuse: 0, cap: 0 },
    }
}

/// Returns the choices that a request leaves.
fn choices_after<'a>(request: &Request, choices: &'a [Choice]) -> &'a [Choice]
    ensures { result.now ≡ choices_after request.now choices.now }
{
    if is_uncounted(request) {
        return choices;
    }
    match choices {
        [_, left @ ..] => left,
        [] => choices,
    }
}

/// Returns the reply to a request with this id, in the events after its Submit.
fn reply_in(id: u32, events: &[Event]) -> Option<&Reply>
    ensures { option_copied result ≡ reply_in id events.now }
{
    let mut rest = events;
    loop {
        match rest {
            [] => return None,
            [event, later @ ..] => {
                match event {
                    Event::Take {
                        id: answered,
                        reply,
                    } => {
                        if *answered == id {
                            return Some(reply);
                        }
                    }
                    Event::Submit { id: taken, .. } => {
                        if *taken == id {
                            return None;
                        }
                    }
                    _ => {}
                }
                rest = later;
            }
        }
    }
}

/// Returns true if no reply was taken, or the reply that was taken is this one.
fn is_reply(taken: Option<&Reply>, reply: &Reply) -> bool
    ensures { result ≡ is_reply (option_copied taken.entry) reply.now }
{
    match taken {
        Some(taken) => *taken == *reply,
        None => true,
    }
}

/// Gives the requests of a trace, in the order of their Submits, to a machine of the script's files, directories and
/// configuration, with the script's choices. The query for limits takes no choice. Each answer is compared with the
/// reply that was taken; a request without a reply is answered all the same.
///
/// # Errors
///
/// `OutOfMemory` if an allocation fails.
pub fn replay(alloc: Global, script: &Script, trace: &[Event]) -> Result<Replay, OutOfMemory>
    requires begins { may_begin script.now.files script.now.dirs ≡ true }
    requires hello { NoHello trace.now }
    ensures { IfOk result (λ replay. replay ≡ replay_of script.now trace.now) }
{
    let mut machine = Machine::new_tree(
        alloc,
        script.files.as_slice(),
        script.dirs.as_slice(),
        script.server,
    )?;
    let mut choices = script.choices.as_slice();
    let mut place: u64 = 0;
    let mut rest = trace;
    loop {
        match rest {
            [] => return Ok(Replay::Serves(machine)),
            [event, later @ ..] => {
                if let Event::Submit { id, request, .. } = event {
                    let reply = machine.apply(request, choice_for(request, choices))?;
                    if !is_reply(reply_in(*id, later), &reply) {
                        return Ok(Replay::Differs { place, reply });
                    }
                    choices = choices_after(request, choices);
                    place += 1;
                }
                rest = later;
            }
        }
    }
}
