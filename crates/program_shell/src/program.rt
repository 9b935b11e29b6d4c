//! The interface of a program: the value that it reads, and the run of that value.
ghost use Rattle.std.specs.Prelude.{◌≡◌, [], Some, Ok, IfOk, IfErr};
ghost use Rattle.sftp_link.specs.Views.{last_of};
ghost use Rattle.script_grammar.specs.CanRun.{CanBegin};
ghost use Rattle.script_words.specs.Refusals.{RefusesScript};
ghost use Rattle.program_shell.specs.Ended.{IsNewServer, RefusesLong};

use crate::printed::Printed;
use script_grammar::{Script, ScriptError};
use sftp_link::{Link, Logged};
use sftp_map_server::MapServer;
use ssh_encoding::OutOfMemory;
use std::alloc::Global;

/// A program that reads a value and runs it over a server in memory.
///
/// Used in `crates/sftp_view/src/reply.rt`.
pub trait Program {
    ghost use Rattle.std.specs.Prelude.{ℕ, List, Option};
    ghost use Rattle.sftp_map_server.specs.Serving.{Serving};
    ghost use Rattle.script_grammar.specs.declared.script.Script.{Script as Setup};
    ghost use Rattle.program_shell.specs.Ended.{ReadAs};

    /// The value that it reads.
    type Value: Drop;

    // Holds if the program's own numbers are within their ranges.
    ghost may: { Self → Type 0 };

    // The reading of bytes.
    ghost reads: { Self → List ℕ → ReadAs Self.Value };

    // The facts known of a value that was read.
    ghost can: { Self → Self.Value → Type 0 };

    // The lines of setup of a value.
    ghost setup: { Self.Value → Setup };

    // Holds of a server over which a value was run, whether or not the run succeeded.
    ghost leaves: { Self → Self.Value → Serving → Type 0 };

    // Holds if a text is right for a value, over the server that is kept.
    ghost right: { Self → Option Serving → Self.Value → List ℕ → Type 0 };

    /// Reads a value.
    ///
    /// # Errors
    ///
    /// `Line` with the number of the first line that is no line of a value, and the reason; line 0 for more bytes than
    /// may be read. `OutOfMemory` if an allocation fails; it may come in place of any other result.
    fn read(&self, alloc: Global, bytes: &[u8]) -> Result<Self::Value, ScriptError>
        ensures ok { IfOk result (λ value. reads self.now bytes.now ≡ Ok value) }
        ensures can { IfOk result (can self.now) }
        ensures refused { IfErr result (λ e. RefusesScript (reads self.now bytes.now) e) }
        ensures long { RefusesLong (reads self.now) };

    /// Returns the lines of setup of a value.
    fn setup_of<'a>(&self, value: &'a Self::Value) -> &'a Script
        requires { can self.now value.now }
        ensures is { result.now ≡ setup value.now }
        ensures begins { CanBegin (setup value.now) };

    /// Runs a value over its server, to which nothing was sent, and returns the text of the run and of the files and
    /// directories left there.
    ///
    /// # Errors
    ///
    /// `OutOfMemory` if an allocation fails.
    fn text_over(
        &self,
        alloc: Global,
        server: &mut MapServer,
        value: &Self::Value,
    ) -> Result<Vec<u8>, OutOfMemory>
        requires may { may self.now }
        requires can { can self.now value.now }
        requires new { IsNewServer (setup value.now) server.old }
        ensures text { IfOk result (λ text. right self.now (Some server.new) value.now text.items) }
        ensures left { leaves self.now value.now server.new };
}

/// A program that also runs a value over any link.
///
/// Used in `crates/sftp_cli/src/script.rt`.
pub trait LinkProgram: Program {
    ghost use Rattle.std.specs.Prelude.{ℕ, List, Option};
    ghost use Rattle.sftp_link.specs.Views.{LastLink};
    ghost use Rattle.program_shell.specs.declared.ending.Answered.{Answered};

    // Holds if an answer is right for a value, over a link that was put back.
    ghost over: { Self → Option LastLink → Self.Value → Answered → List ℕ → Type 0 };

    /// Runs a value over a link on which nothing was moved, and returns the text of the run, or the line of the error
    /// that stopped it.
    ///
    /// # Errors
    ///
    /// `OutOfMemory` if an allocation fails.
    fn reply_over<L: Link>(
        &self,
        alloc: Global,
        link: &mut Logged<L>,
        value: &Self::Value,
    ) -> Result<Printed, OutOfMemory>
        requires may { Self.may self.now }
        requires can { Self.can self.now value.now }
        requires quiet { link.old.pieces ≡ [] }
        requires unfailed { (L.LinkState.state link.old.link).faults ≡ 0 }
        ensures { IfOk result (λ reply. over self.now (Some (last_of L.LinkState.state link.new)) value.now reply.answered reply.text.items) };
}
