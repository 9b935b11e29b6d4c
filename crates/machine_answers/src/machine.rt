//! A server of files and directories in memory, without a link.
ghost use Rattle.std.specs.Prelude.{◌≡◌, ◌<◌, [], true, IfOk, OnOk, OnErr};
ghost use Rattle.sftp_model.specs.Answers.{MayAnswer, IsAfterHello};
ghost use Rattle.sftp_model.specs.Fits.{FitsReply};
ghost use Rattle.machine_model.specs.FitTrees.{GivesWithin};
ghost use Rattle.machine_model.specs.FirstTree.{first_tree, may_begin};
ghost use Rattle.machine_answers.specs.Changes.{FitsChange, is_grant};
ghost use Rattle.machine_answers.specs.MachineState.{IsConsistent, IsFramed, MAX_HANDLES, MayCommit, answer as answer_by, after_change, left_by};

use crate::answer::grants;
use crate::answered::Answered;
use crate::change::Change;
use crate::store::Store;
use sftp_model::numbers::SSH_FX_FAILURE;
use sftp_model::{Choice, Reply, Request, ServerConfig};
use sftp_values::ByteText;
use ssh_encoding::OutOfMemory;
use std::alloc::Global;
use std::marker::Model;

/// A server of files and directories in memory, without a link. Its handles are the numbers 0, 1, 2 and so on in the
/// order of grants, each as four bytes, the most significant first.
///
/// A contract sees the tree of its files and directories, its offer, and the number of handles that it granted. Each
/// name occurs once and beneath a directory, no two names have one file, and files and names are within their bounds:
/// the contract of `grant_count` says so.
///
/// Example: `crates/sftp_map_server/src/state.rt`.
#[derive(Drop)]
pub struct Machine {
    pub(crate) store: Store,
}

impl Model for Machine {
    ghost use Rattle.machine_answers.specs.MachineState.{IsConsistent, MachineState};

    ghost Value = { MachineState };

    ghost view = { λ m. m.store };

    ghost invariant = { λ m. IsConsistent m.store.tree };
}

impl Machine {
    /// Creates a server with these files, each a path and its bytes, numbered in their order. The directories that a
    /// path passes through are created too. The caller must check that `may_begin` returns true.
    ///
    /// # Errors
    ///
    /// `OutOfMemory` if an allocation fails; nothing remains of the server then.
    pub fn new(
        alloc: Global,
        files: &[(ByteText, ByteText)],
        config: ServerConfig,
    ) -> Result<Machine, OutOfMemory>
        requires { may_begin files.now [] ≡ true }
        ensures { IfOk result (λ m. m ≡ record { tree = first_tree files.now []; config = config; grants = 0 }) }
    {
        Machine::new_tree(alloc, files, &[], config)
    }

    /// Creates the same server with these directories too, each a path. The directories that a path of a file or of a
    /// directory passes through are created too, each once; the root always exists.
    ///
    /// # Errors
    ///
    /// `OutOfMemory` if an allocation fails; nothing remains of the server then.
    #[tactic(auto, using(crate::proofs::FirstLaws::first_consistent))]
    pub fn new_tree(
        alloc: Global,
        files: &[(ByteText, ByteText)],
        dirs: &[ByteText],
        config: ServerConfig,
    ) -> Result<Machine, OutOfMemory>
        requires { may_begin files.now dirs.now ≡ true }
        ensures { IfOk result (λ m. m ≡ record { tree = first_tree files.now dirs.now; config = config; grants = 0 }) }
    {
        let store = Store::new(alloc, files, dirs, config)?;
        Ok(Machine { store })
    }

    /// Answers a request, which is not the hello, and makes its change. The reply and the state after it are those of
    /// the definition, with the next number as the handle that an OPEN or an OPENDIR is granted.
    ///
    /// Once all 4294967296 handles were granted, such a request is refused with a STATUS of FAILURE and changes
    /// nothing. The reply fits a frame if `gives_within` holds.
    ///
    /// # Errors
    ///
    /// `OutOfMemory` if an allocation fails; everything is unchanged.
    pub fn apply(&mut self, request: &Request, choice: Choice) -> Result<Reply, OutOfMemory>
        requires after_hello { IsAfterHello request.now }
        ensures reply { IfOk result (λ r. r ≡ (answer_by self.old request.now choice).0) }
        ensures left { OnOk result (self.new ≡ (answer_by self.old request.now choice).1) }
        ensures unchanged { OnErr result (self.new ≡ self.old) }

        // Consequences of these clauses: the reply may answer the request, and it fits a frame.
        ensures answers { IfOk result (λ r. MayAnswer request.now r) }
        ensures fits { IfOk result (λ r. GivesWithin choice.cap request.now → FitsReply r) }
    {
        let Answered { reply, change } = self.answer(request, choice)?;
        self.make(change)?;
        Ok(reply)
    }

    /// Returns the answer to a request, as `apply` would make it. Nothing changes before `commit`, so a caller can
    /// write the reply in between, and drop the answer if that fails. If no handle is left for an OPEN or an OPENDIR,
    /// the answer is a STATUS of FAILURE without a change.
    ///
    /// # Errors
    ///
    /// `OutOfMemory` if an allocation fails.
    pub fn answer(&self, request: &Request, choice: Choice) -> Result<Answered, OutOfMemory>
        requires after_hello { IsAfterHello request.now }
        ensures reply { IfOk result (λ a. a.reply ≡ (answer_by self.now request.now choice).0) }
        ensures left { IfOk result (λ a. left_by self.now a ≡ (answer_by self.now request.now choice).1) }
        ensures may { IfOk result (λ a. MayCommit self.now a) }

        // Consequences of these clauses: the reply may answer the request, it fits a frame, and its body is within the
        // bound.
        ensures answers { IfOk result (λ a. MayAnswer request.now a.reply) }
        ensures fits { IfOk result (λ a. GivesWithin choice.cap request.now → IsFramed a.reply) }
    {
        self.find(request, choice)
    }

    /// Makes the change of an answer that was found in the server's present state.
    ///
    /// # Errors
    ///
    /// `OutOfMemory` if an allocation fails; everything is unchanged.
    pub fn commit(&mut self, answered: Answered) -> Result<(), OutOfMemory>
        requires may { MayCommit self.old answered }
        ensures left { OnOk result (self.new ≡ left_by self.old answered) }
        ensures unchanged { OnErr result (self.new ≡ self.old) }
    {
        self.make(answered.change)
    }

    // Returns the answer, by the definition alone.
    #[tactic(auto, using(crate::proofs::CommitLaws::refused, crate::proofs::CommitLaws::granted, crate::proofs::ReplyLaws::consistent_committed))]
    fn find(&self, request: &Request, choice: Choice) -> Result<Answered, OutOfMemory>
        ensures reply { IfOk result (λ a. a.reply ≡ (answer_by self.now request.now choice).0) }
        ensures left { IfOk result (λ a. left_by self.now a ≡ (answer_by self.now request.now choice).1) }
        ensures may { IfOk result (λ a. MayCommit self.now a) }
        ensures consistent { IsConsistent self.now.tree }
    {
        let (reply, change) = self.store.answer(request, choice)?;
        if self.store.is_full() && grants(&change) {
            let (reply, change) = self.store.refused(SSH_FX_FAILURE);
            return Ok(Answered { reply, change });
        }
        Ok(Answered { reply, change })
    }

    // Makes a change. Fails only if an allocation fails; everything is then unchanged.
    fn make(&mut self, change: Change) -> Result<(), OutOfMemory>
        requires room { is_grant change ≡ true → self.old.grants < MAX_HANDLES }
        requires fits { FitsChange change }
        requires within { IsConsistent (after_change self.old change).tree }
        ensures left { OnOk result (self.new ≡ after_change self.old change) }
        ensures unchanged { OnErr result (self.new ≡ self.old) }
    {
        self.store.commit(change)
    }
}
