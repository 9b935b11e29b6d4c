//! A script of which some lines are read.
ghost use Rattle.std.specs.Prelude.{◌≡◌, ◌++◌, ◌∷◌, ◌≤◌, ◌==◌, [], not, None, Some, Ok, is_some, ◌≢◌, Err, OnOk, IfOk, IfErr, MatchResult, MatchBool, true};
ghost use Rattle.std.specs.List.{list_any};
ghost use Rattle.std.specs.Int.RustNames.{bit_or};
ghost use Rattle.sftp_model.specs.Readings.{has_bit};
ghost use Rattle.script_words.specs.Lines.{words_of};
ghost use Rattle.script_grammar.specs.Setup.{with_options, unless_said, may_add, meets_file, meets_dir, setup_line, with_extension, with_limits};
ghost use Rattle.script_grammar.specs.Scripts.{empty_script, with_lane, with_turn, call_at_end, with_call};
ghost use Rattle.machine_model.specs.Components.{components};
ghost use Rattle.script_grammar.specs.Parts.{with_cut, with_dir, with_file};
ghost use Rattle.script_grammar.specs.CanRun.{CanBegin};
ghost use Rattle.script_words.specs.Refusals.{RefusesLine, RefusesIn};

use crate::first::FirstTree;
use crate::script::Script;
use crate::setup::setup_line;
use bitflags::Flags;
use script_words::{LineError, Reason};
use session_model::{Call, Lane, Turn};
use sftp_model::{Choice, Extensions, Limits, ServerConfig, SftpOptions};
use sftp_values::{ByteText, Items};
use ssh_encoding::OutOfMemory;
use std::alloc::Global;
use std::marker::Model;

/// The part that was read so far, and the options that were named, by the order of their table and the last one first.
///
/// Used in `crates/sftp_mirror/src/list.rt`.
#[derive(Drop)]
pub struct Draft {
    options: SftpOptions,
    server: ServerConfig,
    first: FirstTree,
    choices: Vec<Choice>,
    picks: Vec<u32>,
    lanes: Vec<Lane>,
    turns: Vec<Turn>,
    named: Vec<u8>,
}

impl Model for Draft {
    ghost use Rattle.script_grammar.specs.Setup.{Draft};

    ghost Value = { Draft };

    ghost view = { λ d. record {
      script = record {
        options = d.options;
        server = d.server;
        files = d.first.files;
        dirs = d.first.dirs;
        choices = d.choices.items;
        picks = d.picks.items;
        lanes = d.lanes.items;
        turns = d.turns.items;
      };
      named = d.named.items;
    } };
}

impl Draft {
    /// Returns a draft of which nothing is read.
    pub fn new(alloc: Global) -> Draft
        ensures { result ≡ record { script = empty_script; named = [] } }
    {
        Draft {
            options: SftpOptions::new(),
            server: ServerConfig {
                extensions: Extensions::from_bits_retain(0),
                limits: None,
                cut: 0,
            },
            first: FirstTree::new(alloc),
            choices: Vec::new(alloc),
            picks: Vec::new(alloc),
            lanes: Vec::new(alloc),
            turns: Vec::new(alloc),
            named: Vec::new(alloc),
        }
    }

    /// Returns the script that was read.
    pub fn into_script(self) -> Script
        ensures { result ≡ self.script }
    {
        let (files, dirs) = self.first.into_parts();
        Script {
            options: self.options,
            server: self.server,
            files,
            dirs,
            choices: Items::new(self.choices),
            picks: Items::new(self.picks),
            lanes: Items::new(self.lanes),
            turns: Items::new(self.turns),
        }
    }

    /// Reads a line `option`, `server`, `file`, `dir`, `choice` or `pick`, by its first word and the text after it.
    /// Returns `false` for a line with another first word, and nothing changes then.
    ///
    /// # Errors
    ///
    /// `Refused` with the reason if the line is refused, or `OutOfMemory` if an allocation fails.
    #[tactic(auto, using(crate::proofs::SetupLaws::setup_kept))]
    pub fn read_setup(&mut self, alloc: Global, word: &[u8], line: &[u8]) -> Result<bool, LineError>
        ensures ok { IfOk result (λ is. MatchBool is
            (setup_line self.old word.now (words_of line.now) ≡ Some (Ok self.new))
            ((setup_line self.old word.now (words_of line.now) ≡ None) × (self.new ≡ self.old))) }
        ensures refused { IfErr result (λ e. RefusesIn (setup_line self.old word.now (words_of line.now)) e) }
        ensures keeps { OnOk result (CanBegin self.old.script → CanBegin self.new.script) }
    {
        setup_line(alloc, self, word, line)
    }

    /// Returns the options so far.
    pub(crate) fn options(&self) -> SftpOptions
        ensures { result ≡ self.now.script.options }
    {
        self.options
    }

    /// Sets the options, one of which is now named.
    pub(crate) fn set_options(&mut self, key: u8, options: SftpOptions) -> Result<(), LineError>
        ensures ok { OnOk result (unless_said (list_any (λ k. k == key) self.old.named) (with_options self.old key options) ≡ Ok self.new) }
        ensures refused { IfErr result (λ e. RefusesLine (unless_said (list_any (λ k. k == key) self.old.named) (with_options self.old key options)) e) }
    {
        if is_named(self.named.as_slice(), key) {
            return Err(LineError::Refused(Reason::Repeat));
        }
        self.named.insert(0, key)?;
        self.options = options;
        Ok(())
    }

    /// Adds an extension, by its bit.
    pub(crate) fn add_extension(&mut self, bit: u32) -> Result<(), Reason>
        ensures { MatchResult result
            (λ _. unless_said (has_bit self.old.script.server.extensions.0 bit) (with_extension self.old bit) ≡ Ok self.new)
            (λ e. unless_said (has_bit self.old.script.server.extensions.0 bit) (with_extension self.old bit) ≡ Err e) }
    {
        let bits = self.server.extensions.bits();
        if bits & bit != 0 {
            return Err(Reason::Repeat);
        }
        self.server.extensions = Extensions::from_bits_retain(bits | bit);
        Ok(())
    }

    /// Sets the limits, which were not given before.
    pub(crate) fn set_limits(&mut self, limits: Limits) -> Result<(), Reason>
        ensures { MatchResult result
            (λ _. unless_said (is_some self.old.script.server.limits) (with_limits self.old limits) ≡ Ok self.new)
            (λ e. unless_said (is_some self.old.script.server.limits) (with_limits self.old limits) ≡ Err e) }
    {
        if self.server.limits.is_some() {
            return Err(Reason::Repeat);
        }
        self.server.limits = Some(limits);
        Ok(())
    }

    /// Sets the cut, which was not given before.
    pub(crate) fn set_cut(&mut self, cut: u32) -> Result<(), Reason>
        ensures { MatchResult result
            (λ _. unless_said (not (self.old.script.server.cut == 0)) (with_cut self.old cut) ≡ Ok self.new)
            (λ e. unless_said (not (self.old.script.server.cut == 0)) (with_cut self.old cut) ≡ Err e) }
    {
        if self.server.cut != 0 {
            return Err(Reason::Repeat);
        }
        self.server.cut = cut;
        Ok(())
    }

    /// Returns true if another file may have these bytes.
    pub(crate) fn may_add(&self, content: &[u8]) -> bool
        ensures { result ≡ may_add self.now.script.files content.now }
    {
        self.first.may_add(content)
    }

    /// Adds a file, unless its name conflicts with one that was given before.
    pub(crate) fn add_file(
        &mut self,
        path: ByteText,
        name: Items<ByteText>,
        content: ByteText,
    ) -> Result<(), LineError>
        requires named { name ≡ components path }
        requires room { may_add self.old.script.files content ≡ true }
        ensures ok { OnOk result (unless_said (meets_file self.old.script (components path)) (with_file self.old path content) ≡ Ok self.new) }
        ensures refused { IfErr result (λ e. RefusesLine (unless_said (meets_file self.old.script (components path)) (with_file self.old path content)) e) }
    {
        if self.first.meets_file(name.as_slice()) {
            return Err(LineError::Refused(Reason::Repeat));
        }
        self.first.add_file(path, name, content)?;
        Ok(())
    }

    /// Adds a directory, unless its name conflicts with one that was given before.
    pub(crate) fn add_dir(&mut self, path: ByteText, name: Items<ByteText>) -> Result<(), LineError>
        requires { name ≡ components path }
        ensures ok { OnOk result (unless_said (meets_dir self.old.script (components path)) (with_dir self.old path) ≡ Ok self.new) }
        ensures refused { IfErr result (λ e. RefusesLine (unless_said (meets_dir self.old.script (components path)) (with_dir self.old path)) e) }
    {
        if self.first.meets_dir(name.as_slice()) {
            return Err(LineError::Refused(Reason::Repeat));
        }
        self.first.add_dir(path, name)?;
        Ok(())
    }

    /// Adds a choice. Fails only if an allocation fails.
    pub(crate) fn add_choice(&mut self, choice: Choice) -> Result<(), OutOfMemory>
        ensures { OnOk result (self.new ≡ record self.old { script = record self.old.script { choices = self.old.script.choices ++ choice ∷ [] } }) }
    {
        self.choices.push(choice)?;
        Ok(())
    }

    /// Adds a pick. Fails only if an allocation fails.
    pub(crate) fn add_pick(&mut self, pick: u32) -> Result<(), OutOfMemory>
        ensures { OnOk result (self.new ≡ record self.old { script = record self.old.script { picks = self.old.script.picks ++ pick ∷ [] } }) }
    {
        self.picks.push(pick)?;
        Ok(())
    }

    /// Adds a lane without a call. Fails only if an allocation fails.
    pub(crate) fn add_lane(&mut self, alloc: Global) -> Result<(), OutOfMemory>
        ensures { OnOk result (self.new ≡ with_lane self.old) }
    {
        self.lanes.push(Lane {
            calls: Items::new(Vec::new(alloc)),
        })?;
        Ok(())
    }

    /// Adds a turn. Fails only if an allocation fails.
    pub(crate) fn add_turn(&mut self, turn: Turn) -> Result<(), OutOfMemory>
        ensures { OnOk result (self.new ≡ with_turn self.old turn) }
    {
        self.turns.push(turn)?;
        Ok(())
    }

    /// Returns true if no lane was started.
    pub(crate) fn has_no_lane(&self) -> bool
        ensures { MatchBool result (self.now.script.lanes ≡ []) (self.now.script.lanes ≢ []) }
    {
        self.lanes.is_empty()
    }

    /// Adds a call at the end of the last lane. Fails only if an allocation fails.
    pub(crate) fn add_call(&mut self, call: Call) -> Result<(), OutOfMemory>
        ensures { OnOk result (self.new ≡ with_call self.old call) }
    {
        push_call(&mut self.lanes, call)
    }
}

/// Returns true if an option is among those that were named.
fn is_named(named: &[u8], key: u8) -> bool
    ensures { result ≡ list_any (λ k. k == key) named.now }
{
    named.iter().any(|k| *k == key)
}

/// Adds a call at the end of the last lane, if there is a lane. Fails only if an allocation fails.
#[tactic(auto, using(crate::proofs::Ends::at_end))]
fn push_call(lanes: &mut Vec<Lane>, call: Call) -> Result<(), OutOfMemory>
    ensures { OnOk result (lanes.new.items ≡ call_at_end lanes.old.items call) }
{
    if let Some(lane) = lanes.pop() {
        let mut calls = lane.calls.into_vec();
        calls.push(call)?;
        lanes.push(Lane {
            calls: Items::new(calls),
        })?;
    }
    Ok(())
}
