//! The answers to requests on names, and to READDIR.
ghost use Rattle.std.specs.Prelude.{◌≡◌, ◌<◌, ◌≤◌, ℕ, [], None, Some, true, false, length, take, drop, map, filter, IfOk, ◌+◌, ◌∷◌, min};
ghost use Rattle.std.specs.List.{insert};
ghost use Rattle.std.specs.Option.{option_copied};
ghost use Rattle.machine_model.specs.declared.node.Node.TheVariants as node;
ghost use Rattle.sftp_model.specs.Numbers.{SSH_FX_OK};
ghost use Rattle.sftp_model.specs.declared.reply.NameEntry.{NameEntry as Entry};
ghost use Rattle.sftp_model.specs.declared.reply.Reply.TheVariants as reply;
ghost use Rattle.machine_answers.specs.declared.change.Change.TheVariants as change;
ghost use Rattle.sftp_model.specs.Frames.{no_attributes};
ghost use Rattle.machine_model.specs.Components.{text_of_name, last_of as last_by, is_child as is_child_by};
ghost use Rattle.machine_model.specs.NameRequests.{after_stat, sets_node, after_setstat, after_remove, after_mkdir, after_rmdir, after_opendir, after_readdir, path_reply as path_by, after_realpath, after_rename, replace_answer, after_posix_rename, entries_at as entries_by, entry_of as entry_by, in_order, insert_in_order};
ghost use Rattle.machine_model.specs.FileTree.{node_at as node_by, opened_at as opened_by, entries_of};
ghost use Rattle.machine_answers.specs.MachineState.{MachineState, MakesAnswer};
ghost use Rattle.machine_tree.specs.Numbers.{numbered_handle as bytes_of_handle};

use crate::change::Change;
use crate::handle_requests::capped;
use crate::store::Store;
use machine_model::limits::MAX_NAME_ENTRIES;
use machine_model::{Node, Opened};
use machine_tree::{TreeName, has_child, is_before, is_child, is_long, is_within};
use sftp_model::numbers::{SSH_FX_EOF, SSH_FX_FAILURE, SSH_FX_NO_SUCH_FILE};
use sftp_model::{FileAttrs, Handle, NameEntry, RemotePath, Reply, TryCopy};
use sftp_values::{ByteText, Items};
use ssh_encoding::OutOfMemory;
use std::alloc::Global;

impl Store {
    /// Answers a STAT or an LSTAT.
    pub(crate) fn stat(&self, node: Option<Node>) -> (Reply, Change)
        ensures { MakesAnswer self.now result (after_stat self.now.tree node) }
    {
        match node {
            None => self.refused(SSH_FX_NO_SUCH_FILE),
            Some(node) => (Reply::Attrs(self.attributes_of(node)), Change::Unchanged),
        }
    }

    /// Answers a SETSTAT.
    pub(crate) fn setstat(&self, attrs: FileAttrs, node: Option<Node>) -> (Reply, Change)
        ensures { MakesAnswer self.now result (after_setstat self.now.tree attrs node) }
    {
        let Some(node) = node else {
            return self.refused(SSH_FX_NO_SUCH_FILE);
        };
        let Some(size) = attrs.size else {
            return self.done(Change::Unchanged);
        };
        match node {
            Node::Directory => self.refused(SSH_FX_FAILURE),
            Node::File(file) => self.resizes(file, size),
        }
    }

    /// Answers a REMOVE.
    pub(crate) fn remove(&self, name: TreeName) -> (Reply, Change)
        ensures { MakesAnswer self.now result
            (after_remove self.now.tree name (node_by self.now.tree name)) }
    {
        match self.node_at(&name) {
            None => self.refused(SSH_FX_NO_SUCH_FILE),
            Some(Node::Directory) => self.refused(SSH_FX_FAILURE),
            Some(Node::File(file)) => self.done(Change::RemovedFile(name, file)),
        }
    }

    /// Answers a MKDIR.
    pub(crate) fn mkdir(&self, name: TreeName) -> (Reply, Change)
        ensures { MakesAnswer self.now result
            (after_mkdir self.now.tree name (node_by self.now.tree name)) }
    {
        if self.node_at(&name).is_some() {
            return self.refused(SSH_FX_FAILURE);
        }
        if !self.has_parent(&name) {
            return self.refused(SSH_FX_NO_SUCH_FILE);
        }
        if is_long(name.parts()) {
            return self.refused(SSH_FX_FAILURE);
        }
        self.done(Change::MadeDirectory(name))
    }

    /// Answers an RMDIR.
    pub(crate) fn rmdir(&self, name: TreeName) -> (Reply, Change)
        ensures { MakesAnswer self.now result
            (after_rmdir self.now.tree name (node_by self.now.tree name)) }
    {
        match self.node_at(&name) {
            None => self.refused(SSH_FX_NO_SUCH_FILE),
            Some(Node::File(_)) => self.refused(SSH_FX_FAILURE),
            Some(Node::Directory) => self.rmdir_there(name),
        }
    }

    // Answers an RMDIR of an existing directory.
    fn rmdir_there(&self, name: TreeName) -> (Reply, Change)
        ensures { MakesAnswer self.now result
            (after_rmdir self.now.tree name (Some node.Directory)) }
    {
        if name.parts().is_empty() || has_child(self.names.listed(), name.parts()) {
            return self.refused(SSH_FX_FAILURE);
        }
        self.done(Change::RemovedDirectory(name))
    }

    /// Answers an OPENDIR.
    pub(crate) fn opendir(&self, name: &TreeName) -> Result<(Reply, Change), OutOfMemory>
        ensures { IfOk result (λ r. MakesAnswer self.now r (after_opendir self.now.tree
            (bytes_of_handle self.now.grants) name.now (node_by self.now.tree name.now))) }
    {
        match self.node_at(name) {
            None => Ok(self.refused(SSH_FX_NO_SUCH_FILE)),
            Some(Node::File(_)) => Ok(self.refused(SSH_FX_FAILURE)),
            Some(Node::Directory) => {
                let entries = Items::new(self.entries_at(name.parts())?);
                Ok(self.grants(Change::Granted(Opened::Directory(entries))))
            }
        }
    }

    // Returns the entries of a directory, in order.
    fn entries_at(&self, name: &[ByteText]) -> Result<Vec<NameEntry>, OutOfMemory>
        ensures { IfOk result (λ entries. entries.items ≡ entries_by self.now.tree name.now) }
    {
        let mut entries = Vec::new(self.alloc);
        let mut left: &[(TreeName, Node)] = self.names.listed();
        while let [earlier @ .., pair] = left {
            if is_child(name, pair.0.parts()) {
                let entry = self.entry_of(pair.0.parts(), pair.1)?;
                let index = index_of(&entries, entry.filename.as_bytes());
                entries.insert(index, entry)?;
            }
            left = earlier;
        }
        Ok(entries)
    }

    // Returns the entry of a name.
    fn entry_of(&self, name: &[ByteText], node: Node) -> Result<NameEntry, OutOfMemory>
        ensures { IfOk result (λ e. e ≡ entry_by self.now.tree (name.now, node)) }
    {
        let last: &[u8] = match name.last() {
            Some(part) => part.as_slice(),
            None => &[],
        };
        Ok(NameEntry {
            filename: RemotePath::new(Vec::from_slice(self.alloc, last)?),
            longname: ByteText::new(Vec::new(self.alloc)),
            attrs: self.attributes_of(node),
        })
    }

    /// Answers a READDIR.
    #[tactic(auto, using(crate::proofs::KeptLaws::given_replaced))]
    pub(crate) fn readdir(&self, cap: u32, handle: &Handle) -> Result<(Reply, Change), OutOfMemory>
        ensures { IfOk result (λ r. MakesAnswer self.now r (after_readdir self.now.tree cap handle.now
            (entries_of (opened_by self.now.tree handle.now)))) }
    {
        let Some(Opened::Directory(entries)) = self.opened_at(handle.as_bytes()) else {
            return Ok(self.refused(SSH_FX_FAILURE));
        };
        if entries.as_slice().is_empty() {
            return Ok(self.refused(SSH_FX_EOF));
        }
        let n = capped(cap, MAX_NAME_ENTRIES) as usize;
        let given = first_copies(self.alloc, entries.as_slice(), n)?;
        let reply = Reply::Names(Items::new(given));
        Ok((reply, Change::Listed(handle.copied(), n)))
    }

    /// Answers a REALPATH or an `expand-path@openssh.com`.
    pub(crate) fn realpath(&self, name: &TreeName) -> Result<(Reply, Change), OutOfMemory>
        ensures { IfOk result (λ r. MakesAnswer self.now r (after_realpath self.now.tree name.now)) }
    {
        let path = absolute(self.alloc, name)?;
        if path.as_bytes().len() > MAX_PATH_LEN {
            return Ok(self.refused(SSH_FX_FAILURE));
        }
        Ok((alone(self.alloc, path)?, Change::Unchanged))
    }

    /// Answers a RENAME.
    pub(crate) fn rename(&self, old: TreeName, to: TreeName) -> (Reply, Change)
        ensures { MakesAnswer self.now result (after_rename self.now.tree old to
            (node_by self.now.tree old) (node_by self.now.tree to)) }
    {
        if self.node_at(&old).is_none() {
            return self.refused(SSH_FX_NO_SUCH_FILE);
        }
        if self.node_at(&to).is_some() {
            return self.refused(SSH_FX_FAILURE);
        }
        if is_within(old.parts(), to.parts()) {
            return self.refused(SSH_FX_FAILURE);
        }
        if !self.has_parent(&to) {
            return self.refused(SSH_FX_NO_SUCH_FILE);
        }
        if is_long(to.parts()) {
            return self.refused(SSH_FX_FAILURE);
        }
        self.done(Change::Renamed(old, to))
    }

    /// Answers a `posix-rename@openssh.com`.
    pub(crate) fn posix_rename(&self, old: TreeName, to: TreeName) -> (Reply, Change)
        ensures { MakesAnswer self.now result (after_posix_rename self.now.tree old to
            (node_by self.now.tree old) (node_by self.now.tree to)) }
    {
        let Some(node) = self.node_at(&old) else {
            return self.refused(SSH_FX_NO_SUCH_FILE);
        };
        if old.parts() == to.parts() {
            return self.done(Change::Unchanged);
        }
        if is_within(old.parts(), to.parts()) || is_within(to.parts(), old.parts()) {
            return self.refused(SSH_FX_FAILURE);
        }
        let there = self.node_at(&to);
        self.replaces(old, to, node, there)
    }

    // Replaces a file by a file; a directory is not replaced.
    fn replaces(
        &self,
        old: TreeName,
        to: TreeName,
        node: Node,
        there: Option<Node>,
    ) -> (Reply, Change)
        ensures { MakesAnswer self.now result (replace_answer self.now.tree old to node there) }
    {
        let Some(there) = there else {
            if !self.has_parent(&to) {
                return self.refused(SSH_FX_NO_SUCH_FILE);
            }
            if is_long(to.parts()) {
                return self.refused(SSH_FX_FAILURE);
            }
            return self.done(Change::Renamed(old, to));
        };
        match (node, there) {
            (Node::File(_), Node::File(gone)) => self.done(Change::Replaced(old, to, gone)),
            _ => self.refused(SSH_FX_FAILURE),
        }
    }
}

// The greatest length of a path in a NAME, in bytes: all of a body except its kind, id, count, two lengths and
// attributes.
const MAX_PATH_LEN: usize = 1_048_554;

/// Returns the path of a name from the root.
fn absolute(alloc: Global, name: &TreeName) -> Result<RemotePath, OutOfMemory>
    ensures { IfOk result (λ path. path ≡ 47 ∷ text_of_name name.now) }
{
    if name.parts().is_empty() {
        return Ok(RemotePath::new(Vec::from_slice(alloc, b"/")?));
    }
    Ok(RemotePath::new(Vec::from_slice(alloc, name.text())?))
}

/// Returns a NAME with only a path.
fn alone(alloc: Global, path: RemotePath) -> Result<Reply, OutOfMemory>
    ensures { IfOk result (λ r. r ≡ reply.Names
        (record { filename = path; longname = []; attrs = no_attributes } ∷ [])) }
{
    let mut entries = Vec::with_capacity(alloc, 1)?;
    let attrs = FileAttrs {
        size: None,
        id: None,
        permissions: None,
        time: None,
    };
    let longname = ByteText::new(Vec::new(alloc));
    entries.push(NameEntry {
        filename: path,
        longname,
        attrs,
    })?;
    Ok(Reply::Names(Items::new(entries)))
}

/// Returns copies of the first entries.
fn first_copies(
    alloc: Global,
    entries: &[NameEntry],
    n: usize,
) -> Result<Vec<NameEntry>, OutOfMemory>
    ensures { IfOk result (λ copies. copies.items ≡ take n entries.now) }
{
    let n = n.min(entries.len());
    let mut copies = Vec::with_capacity(alloc, n)?;
    for entry in &entries[..n] {
        copies.push(entry.try_copy(alloc)?)?;
    }
    Ok(copies)
}

/// Returns the index of an entry among those in order.
fn index_of(entries: &[NameEntry], filename: &[u8]) -> usize
    ensures within { result ≤ length entries.now }
    ensures index { (entry : Entry) → entry.filename ≡ filename.now
        → insert entries.now result entry ≡ insert_in_order entry entries.now }
{
    let mut index = 0;
    while index < entries.len() {
        if !is_before(entries[index].filename.as_bytes(), filename) {
            return index;
        }
        index += 1;
    }
    index
}
