//! A server of files and directories in memory as a link.
ghost use Rattle.std.specs.Prelude.{◌≡◌, ◌≤◌, ◌<◌, ◌∷◌, ◌++◌, ◌+◌, ◌-◌, [], None, Some, length, filter, reverse, IfOk, OnOk, OnErr, is_some, false, true, drop, min, take, vec_len, vec_capacity};
ghost use Rattle.std.specs.Option.{option_map};
ghost use Rattle.sftp_link.specs.Moves.{HasReceived, HasSent};
ghost use Rattle.sftp_link.specs.Script.{length_cut_at as limited_by};
ghost use Rattle.machine_answers.specs.MachineState.{IsValid};
ghost use Rattle.machine_answers.specs.WaitingFrames.{with_next_picked};
ghost use Rattle.sftp_map_server.specs.Serving.{AbsorbsBytes, HandsBytes, IsServing, Server, server_of, server_view, fresh_server, first_state, tree_left};
ghost use Rattle.sftp_model.specs.Numbers.{MAX_BODY_LEN};
ghost use Rattle.machine_model.specs.FirstTree.{may_begin};
ghost use Rattle.machine_model.specs.Listing.{dir_at, file_at, has_directory, has_file};
ghost use Rattle.sftp_wire.specs.FrameReader.{told_len as told_len_of, fault_of, missing_bytes as missing_of};
ghost use Rattle.ssh_encoding.specs.Writing.{string};

use crate::state::ServerState;
use machine_answers::{Machine, Outbox};
use sftp_link::{DeviceError, Link, LinkIn, LinkOut, LinkState, Piece};
use sftp_model::numbers::MAX_BODY_LEN;
use sftp_model::{Choice, ServerConfig};
use sftp_values::{ByteText, Items};
use ssh_encoding::OutOfMemory;
use std::alloc::Global;
use std::marker::Model;
use std::snapshot::Snapshot;

/// A server of files and directories in memory, as a link without faults. It answers each frame as soon as it has come
/// whole, in order, as a [`Machine`] does, and sends its replies in the order of its picks.
///
/// Example: `crates/example_threads/src/receipts.rt`.
#[derive(Drop)]
pub struct MapServer {
    alloc: Global,
    state: ServerState,
    log: Vec<Piece>,
    input: Vec<u8>,
    outbox: Outbox,
    ended: bool,
    // The state at its start; only clauses read it.
    first_state: Snapshot<ServerState>,
    first_picks: Snapshot<Items<u32>>,
}

impl Model for MapServer {
    ghost use Rattle.std.specs.Prelude.{reverse};
    ghost use Rattle.sftp_map_server.specs.Serving.{Serving, IsServing, fresh_server, server_of};

    ghost Value = { Serving };

    ghost view = { λ s. record {
      first = fresh_server s.first_state.value s.first_picks.value;
      now = server_of s.state s.input.items s.outbox;
      log = reverse s.log.items;
      ended = s.ended;
    } };

    ghost invariant = { λ s. IsServing (fresh_server s.first_state.value s.first_picks.value)
        (server_of s.state s.input.items s.outbox) (reverse s.log.items) s.ended };
}

/// Returns the length in the first four bytes.
fn told_len(bytes: &[u8]) -> u32
    requires { 4 ≤ length bytes.now }
    ensures { result ≡ told_len_of bytes.now }
{
    u32::from_be_bytes([bytes[0], bytes[1], bytes[2], bytes[3]])
}

/// Returns the number of bytes that are missing to the end of the length, or of the body.
fn missing(input: &[u8]) -> usize
    ensures { result ≡ missing_of input.now }
{
    if input.len() < 4 {
        return 4 - input.len();
    }
    (4 + told_len(input) as usize).saturating_sub(input.len())
}

/// Returns true if the length is 0 or too great.
fn is_bad(input: &[u8]) -> bool
    ensures { result ≡ is_some (fault_of input.now) }
{
    if input.len() < 4 {
        return false;
    }
    let len = told_len(input);
    len == 0 || len > MAX_BODY_LEN
}

/// Returns the body of a frame that has come exactly whole.
fn body_of(input: &[u8]) -> &[u8]
    requires length { 4 ≤ length input.now }
    requires whole { length input.now ≡ 4 + told_len_of input.now }
    ensures body { result.now ≡ drop 4 input.now }
    ensures spelled { input.now ≡ string result.now }
{
    let (_, body) = input.split_at(4);
    body
}

/// Returns the number, limited by the cut; 0 is no limit.
fn limited(cut: u32, n: usize) -> usize
    ensures { result ≡ limited_by cut n }
{
    if cut == 0 { n } else { n.min(cut as usize) }
}

/// Adds a piece to a log that has room for it.
fn add_piece(log: &mut Vec<Piece>, piece: Piece)
    requires { vec_len log.old < vec_capacity log.old }
    ensures { log.new.items ≡ log.old.items ++ piece ∷ [] }
{
    log.push(piece).unwrap();
}

/// Takes bytes, at most up to the end of the next frame, and answers the frame if it is then whole. Fails only if an
/// allocation fails; nothing is then done.
fn absorb(
    state: &mut ServerState,
    input: &mut Vec<u8>,
    outbox: &mut Outbox,
    bytes: &[u8],
) -> Result<(), OutOfMemory>
    requires part { 0 < missing_of input.old.items }
    requires within { state.old.over ≡ false → length bytes.now ≤ missing_of input.old.items }
    ensures absorbs { OnOk result (AbsorbsBytes (server_of state.old input.old.items outbox.old) bytes.now
        (server_of state.new input.new.items outbox.new)) }
    ensures state { OnErr result (state.new ≡ state.old) }
    ensures input { OnErr result (input.new.items ≡ input.old.items) }
    ensures outbox { OnErr result (outbox.new ≡ outbox.old) }
{
    if state.is_over() {
        input.clear();
        return Ok(());
    }
    let before = input.len();
    input.extend_from_slice(bytes)?;
    if is_bad(input) {
        state.end();
        input.clear();
        return Ok(());
    }
    if missing(input) > 0 {
        return Ok(());
    }
    if state.answer(body_of(input), outbox).is_err() {
        input.truncate(before);
        return Err(OutOfMemory);
    }
    input.clear();
    Ok(())
}

impl MapServer {
    /// Creates a server of these files, each a path and its bytes, and of the parents of their names. Its k-th request
    /// takes the k-th choice, and the k-th reply that it sends is the one that the k-th pick takes of those that wait.
    /// `may_begin` returns true if the server may start with these files.
    ///
    /// # Errors
    ///
    /// `OutOfMemory` if an allocation fails; nothing remains of the server then.
    pub fn new(
        alloc: Global,
        files: &[(ByteText, ByteText)],
        config: ServerConfig,
        choices: Items<Choice>,
        picks: Items<u32>,
    ) -> Result<MapServer, OutOfMemory>
        requires { may_begin files.now [] ≡ true }
        ensures { IfOk result (λ s. s ≡ record {
          first = fresh_server (first_state files.now [] config choices) picks;
          now = fresh_server (first_state files.now [] config choices) picks;
          log = [];
          ended = false;
        }) }
    {
        MapServer::new_tree(alloc, files, &[], config, choices, picks)
    }

    /// Creates the same server with these directories too, each a path.
    ///
    /// # Errors
    ///
    /// `OutOfMemory` if an allocation fails; nothing remains of the server then.
    pub fn new_tree(
        alloc: Global,
        files: &[(ByteText, ByteText)],
        dirs: &[ByteText],
        config: ServerConfig,
        choices: Items<Choice>,
        picks: Items<u32>,
    ) -> Result<MapServer, OutOfMemory>
        requires { may_begin files.now dirs.now ≡ true }
        ensures { IfOk result (λ s. s ≡ record {
          first = fresh_server (first_state files.now dirs.now config choices) picks;
          now = fresh_server (first_state files.now dirs.now config choices) picks;
          log = [];
          ended = false;
        }) }
    {
        let machine = Machine::new_tree(alloc, files, dirs, config)?;
        let state = ServerState::new(alloc, machine, choices);
        Ok(MapServer {
            alloc,
            first_state: Snapshot::of(&state),
            first_picks: Snapshot::of(&picks),
            state,
            log: Vec::new(alloc),
            input: Vec::new(alloc),
            outbox: Outbox::new(alloc, picks),
            ended: false,
        })
    }

    /// Returns the number of names that have a file.
    pub fn file_count(&self) -> u64
        ensures { result ≡ length (filter has_file (tree_left self.now).names) }
    {
        self.state.machine().file_count()
    }

    /// Returns the written name and the bytes of file `k`, counted from 0 in the order of the written names by bytes.
    pub fn file(&self, k: u64) -> Option<(&[u8], &[u8])>
        ensures { option_map (λ f. (f.0.now, f.1.now)) result
            ≡ file_at (tree_left self.now) k }
    {
        self.state.machine().file(k)
    }

    /// Returns the number of names that have a directory; the root has no name.
    pub fn dir_count(&self) -> u64
        ensures { result ≡ length (filter has_directory (tree_left self.now).names) }
    {
        self.state.machine().dir_count()
    }

    /// Returns the written name of directory `k`, counted from 0 in the order of the written names by bytes.
    pub fn dir(&self, k: u64) -> Option<&[u8]>
        ensures { option_map (λ d. d.now) result ≡ dir_at (tree_left self.now) k }
    {
        self.state.machine().dir(k)
    }

    /// Returns the number of handles that were granted. Each open handle is a number below it.
    pub fn grant_count(&self) -> u64
        ensures count { result ≡ self.now.now.state.machine.grants }
        ensures valid { IsValid self.now.now.state.machine }
    {
        self.state.machine().grant_count()
    }

    /// Returns true if its last call found the end. The contract also states its invariant: its log is that of a server
    /// from its first state on.
    pub fn is_ended(&self) -> bool
        ensures ended { result ≡ self.now.ended }
        ensures serving { IsServing self.now.first self.now.now self.now.log self.now.ended }
    {
        self.ended
    }
}

/// Returns the number of bytes that are taken next: at most up to the end of the next frame's length or body.
fn wanted(is_over: bool, input: &[u8], most: usize) -> usize
    requires some { 0 < most }
    requires part { 0 < missing_of input.now }
    ensures some { 0 < result }
    ensures within { result ≤ most }
    ensures part { is_over ≡ false → result ≤ missing_of input.now }
{
    if is_over {
        most
    } else {
        most.min(missing(input))
    }
}

impl LinkState for MapServer {
    ghost use Rattle.sftp_map_server.specs.Serving.{Server, server_view};

    ghost Service = { Server };

    ghost state = { λ s. server_view s };
}

impl LinkOut for MapServer {
    /// Takes the first bytes up to the cut, and at most up to the end of the next frame's length or body. A frame that
    /// is then whole is answered. If the link is over, bytes are dropped.
    ///
    /// # Errors
    ///
    /// `OutOfMemory` if an allocation fails; the state of the server is unchanged.
    fn send(&mut self, bytes: &[u8]) -> Result<usize, DeviceError>
        requires some { 0 < length bytes.now }
        ensures sends { HasSent Server bytes.now (server_view self.old) (server_view self.new) result }
        ensures cut { IfOk result
            (λ n. n ≤ limited_by self.old.now.state.machine.config.cut (length bytes.now)) }
        ensures absorbs { IfOk result (λ n. AbsorbsBytes self.old.now (take n bytes.now) self.new.now) }
        ensures unchanged { OnErr result (self.new.now ≡ self.old.now) }
    {
        self.ended = false;
        let most = limited(self.state.cut(), bytes.len());
        let n = wanted(self.state.is_over(), &self.input, most);
        let front = Vec::from_slice(self.alloc, &bytes[..n])?;
        self.log.reserve(1)?;
        if absorb(&mut self.state, &mut self.input, &mut self.outbox, &front).is_err() {
            return Err(DeviceError::OutOfMemory);
        }
        add_piece(&mut self.log, Piece::Sent(ByteText::new(front)));
        Ok(n)
    }
}

impl LinkIn for MapServer {
    /// Returns the first bytes that are sent next, up to the cut and the room: of the frame that is being sent, or of
    /// the one that is picked. If no frame waits, that is the end. The rest of the room is unchanged.
    ///
    /// # Errors
    ///
    /// `OutOfMemory` if an allocation fails; the state of the server is unchanged.
    fn recv(&mut self, room: &mut [u8]) -> Result<usize, DeviceError>
        requires some { 0 < length room.old }
        ensures receives { HasReceived Server room.new (server_view self.old) (server_view self.new) result }
        ensures cut { IfOk result (λ n. n ≡ min
            (limited_by self.old.now.state.machine.config.cut (length room.old))
            (length (with_next_picked self.old.now.output).ready)) }
        ensures gives { IfOk result (λ n. HandsBytes self.old.now (take n room.new) self.new.now) }
        ensures unchanged { OnErr result (self.new.now ≡ self.old.now) }
        ensures rest { IfOk result (λ n. drop n room.new ≡ drop n room.old) }
    {
        self.ended = false;
        let n = limited(self.state.cut(), room.len()).min(self.outbox.front().len());
        let piece = Vec::from_slice(self.alloc, &self.outbox.front()[..n])?;
        self.log.reserve(1)?;
        room[..n].copy_from_slice(&piece);
        add_piece(&mut self.log, Piece::Got(ByteText::new(piece)));
        self.outbox.give(n);
        self.ended = n == 0;
        Ok(n)
    }
}

impl Link for MapServer {}
