//! The files, directories and handles of a server.
ghost use Rattle.std.specs.Prelude.{◌≡◌, ◌==◌, ◌<◌, ◌≤◌, ◌^◌, ℕ, [], None, Some, true, false, length, take, drop, IfOk, OnOk, OnErr, MatchOption, ◌+◌, ◌-◌, ◌||◌, max, min, nat_lt};
ghost use Rattle.std.specs.Option.{option_copied};
ghost use Rattle.sftp_model.specs.Numbers.{SSH_FX_OK};
ghost use Rattle.sftp_model.specs.declared.reply.Reply.TheVariants as reply;
ghost use Rattle.machine_model.specs.declared.node.Node.TheVariants as node;
ghost use Rattle.machine_model.specs.Components.{parent_of, text_of_name as written_by};
ghost use Rattle.machine_model.specs.Limits.{MAX_FILE_LEN, MAX_TOTAL_LEN};
ghost use Rattle.machine_model.specs.HandleRequests.{refusal_answer as refuses_by, ok_answer as done_by};
ghost use Rattle.machine_model.specs.FileTree.{node_at as node_by, opened_at as opened_by, file_of, entries_of, bytes_of as bytes_by, attributes_of as attributes_by, is_directory as is_directory_by, is_over as is_over_by};
ghost use Rattle.machine_model.specs.Listing.{node_bytes as node_bytes_by};
ghost use Rattle.machine_tree.specs.Numbers.{numbered_handle as bytes_of_handle};
ghost use Rattle.machine_model.specs.FirstTree.{first_tree};
ghost use Rattle.machine_answers.specs.MachineState.{MachineState, IsValid, MakesAnswer, after_change, MAX_HANDLES};
ghost use Rattle.machine_answers.specs.declared.change.Change.TheVariants as change;

use crate::change::Change;
use machine_model::limits::{DIRECTORY_PERMISSIONS, MAX_FILE_LEN, MAX_TOTAL_LEN};
use machine_model::{Held, Node, Opened};
use machine_tree::{
    FileBytes, Handles, Names, TreeName, all_bytes, first_contents, first_names, is_directory,
    numbered_handle,
};
use sftp_model::numbers::SSH_FX_OK;
use sftp_model::{FileAttrs, Reply, ServerConfig};
use sftp_values::ByteText;
use ssh_encoding::OutOfMemory;
use std::alloc::Global;
use std::marker::Model;

// The count of handles: the count of numbers of four bytes.
const MAX_HANDLES: u64 = 4_294_967_296;

/// Files and directories in memory, with their open handles, for any sizes of files and names.
///
/// Used in `crates/machine_answers/src/machine.rt`.
#[derive(Drop)]
pub struct Store {
    pub(crate) alloc: Global,
    pub(crate) names: Names,
    pub(crate) files: Vec<FileBytes>,
    pub(crate) handles: Handles,
    pub(crate) config: ServerConfig,
    pub(crate) grants: u64,
}

impl Model for Store {
    ghost use Rattle.machine_answers.specs.MachineState.{MachineState, IsValid};

    ghost Value = { MachineState };

    ghost view = { λ m. record {
      tree = record { names = m.names; files = m.files.items; handles = m.handles };
      config = m.config;
      grants = m.grants;
    } };

    ghost invariant = { λ m. IsValid (record {
      tree = record { names = m.names; files = m.files.items; handles = m.handles };
      config = m.config;
      grants = m.grants;
    }) };
}

impl Store {
    /// Creates the store of these files, each a path and its bytes, of these directories, each a path, and of the
    /// parents of all. Fails only if an allocation fails.
    pub(crate) fn new(
        alloc: Global,
        files: &[(ByteText, ByteText)],
        dirs: &[ByteText],
        config: ServerConfig,
    ) -> Result<Store, OutOfMemory>
        ensures { IfOk result (λ m. m ≡ record { tree = first_tree files.now dirs.now; config = config; grants = 0 }) }
    {
        let names = first_names(alloc, files, dirs)?;
        let contents = first_contents(alloc, files)?;
        Ok(Store {
            alloc,
            names,
            files: contents,
            handles: Handles::new(alloc),
            config,
            grants: 0,
        })
    }

    /// Returns the number of handles that were granted.
    pub(crate) fn grant_count(&self) -> u64
        ensures count { result ≡ self.now.grants }
        ensures valid { IsValid self.now }
    {
        self.grants
    }

    /// Returns true if all handles were granted.
    pub(crate) fn is_full(&self) -> bool
        ensures full { result ≡ (self.now.grants == MAX_HANDLES) }
        ensures count { self.now.grants ≤ MAX_HANDLES }
    {
        self.grants == MAX_HANDLES
    }

    /// Returns the bytes of a name's file; a directory has none.
    pub(crate) fn node_bytes(&self, node: Node) -> &[u8]
        ensures { result.now ≡ node_bytes_by self.now.tree node }
    {
        match node {
            Node::Directory => &[],
            Node::File(file) => self.bytes_of(file),
        }
    }

    /// Returns the file or directory of a name.
    pub(crate) fn node_at(&self, name: &TreeName) -> Option<Node>
        ensures { result ≡ node_by self.now.tree name.now }
    {
        self.node_of(name.parts(), name.written())
    }

    // Returns the file or directory of a name with this written form.
    fn node_of(&self, name: &[ByteText], written: &[u8]) -> Option<Node>
        requires { written.now ≡ written_by name.now }
        ensures { result ≡ node_by self.now.tree name.now }
    {
        match name {
            [] => Some(Node::Directory),
            _ => self.names.find(name, written),
        }
    }

    /// Returns the file or directory that a handle has open.
    pub(crate) fn opened_at(&self, handle: &[u8]) -> Option<&Opened>
        ensures { option_copied result ≡ opened_by self.now.tree handle.now }
    {
        self.handles.get(handle)
    }

    /// Returns the file that is open by a handle.
    pub(crate) fn held_at(&self, handle: &[u8]) -> Option<Held>
        ensures { result ≡ file_of (opened_by self.now.tree handle.now) }
    {
        match self.opened_at(handle) {
            Some(Opened::File(held)) => Some(*held),
            _ => None,
        }
    }

    /// Returns the bytes of a file.
    pub(crate) fn bytes_of(&self, file: u64) -> &[u8]
        ensures { result.now ≡ bytes_by self.now.tree file }
    {
        match self.files.get(file as usize) {
            Some(bytes) => bytes.as_slice(),
            None => &[],
        }
    }

    /// Returns the attributes that are reported.
    pub(crate) fn attributes_of(&self, node: Node) -> FileAttrs
        ensures { result ≡ attributes_by self.now.tree node }
    {
        match node {
            Node::Directory => FileAttrs {
                size: None,
                id: None,
                permissions: Some(DIRECTORY_PERMISSIONS),
                time: None,
            },
            Node::File(file) => FileAttrs {
                size: Some(self.bytes_of(file).len() as u64),
                id: None,
                permissions: None,
                time: None,
            },
        }
    }

    /// Returns true if a file may not have this size.
    pub(crate) fn is_over(&self, file: u64, size: u64) -> bool
        ensures { result ≡ is_over_by self.now.tree file size }
    {
        let before = self.bytes_of(file).len() as u64;
        is_past(size, before, all_bytes(&self.files))
    }

    /// Returns true if a name's parent is a directory.
    pub(crate) fn has_parent(&self, name: &TreeName) -> bool
        ensures { result ≡ is_directory_by (node_by self.now.tree (parent_of name.now)) }
    {
        is_directory(self.node_of(name.parent_parts(), name.parent_written()))
    }

    /// Returns a STATUS with an empty message and language.
    pub(crate) fn status(&self, code: u32) -> Reply
        ensures { result ≡ reply.Status code [] [] }
    {
        Reply::Status {
            code,
            message: ByteText::new(Vec::new(self.alloc)),
            language: ByteText::new(Vec::new(self.alloc)),
        }
    }

    /// Returns a STATUS that changes nothing.
    pub(crate) fn refused(&self, code: u32) -> (Reply, Change)
        ensures { MakesAnswer self.now result (refuses_by self.now.tree code) }
    {
        (self.status(code), Change::Unchanged)
    }

    /// Returns a STATUS 0 with a change.
    pub(crate) fn done(&self, change: Change) -> (Reply, Change)
        ensures { result ≡ (reply.Status SSH_FX_OK [] [], change) }
    {
        (self.status(SSH_FX_OK), change)
    }

    /// Returns the next handle, with the change that grants it.
    pub(crate) fn grants(&self, change: Change) -> (Reply, Change)
        ensures { result ≡ (reply.Handle (bytes_of_handle self.now.grants), change) }
    {
        (Reply::Handle(numbered_handle(self.grants)), change)
    }
}

/// Returns true if a size passes a limit. The file had `before` bytes, and all files had `all`.
fn is_past(size: u64, before: u64, all: u64) -> bool
    ensures { result ≡ (nat_lt MAX_FILE_LEN size || nat_lt MAX_TOTAL_LEN (min (all - before + size) (2 ^ 64 - 1))) }
{
    size > MAX_FILE_LEN || all.saturating_sub(before).saturating_add(size) > MAX_TOTAL_LEN
}
