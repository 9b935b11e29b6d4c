//! The effects of changes.
ghost use Rattle.std.specs.Prelude.{◌≡◌, ◌<◌, true, OnOk, OnErr};
ghost use Rattle.machine_model.specs.FileTree.{after_loss};
ghost use Rattle.machine_answers.specs.Changes.{FitsChange, is_grant};
ghost use Rattle.machine_answers.specs.MachineState.{after_change, MAX_HANDLES, with_tree};
ghost use Rattle.machine_answers.specs.declared.change.Change.TheVariants as change;

use crate::change::Change;
use crate::store::Store;
use machine_model::{Node, Opened};
use machine_tree::{
    FileBytes, TreeName, empty_in, is_named, moved_names, names_but, numbered_handle, put_in,
    resize_in,
};
use ssh_encoding::OutOfMemory;

impl Store {
    /// Makes a change. Fails only if an allocation fails; everything is then unchanged.
    pub(crate) fn commit(&mut self, change: Change) -> Result<(), OutOfMemory>
        requires room { is_grant change ≡ true → self.old.grants < MAX_HANDLES }
        requires fits { FitsChange change }
        ensures left { OnOk result (self.new ≡ after_change self.old change) }
        ensures unchanged { OnErr result (self.new ≡ self.old) }
    {
        match change {
            Change::Unchanged => Ok(()),
            Change::Written(file, offset, piece) => {
                put_in(&mut self.files, file, offset, piece.as_slice())
            }
            Change::Resized(file, size) => resize_in(&mut self.files, file, size),
            Change::Granted(opened) => self.grant(opened),
            Change::Truncated(file, opened) => self.grant_emptied(file, opened),
            Change::Created(name, opened) => self.create(name, opened),
            Change::ClosedDirectory(handle) => {
                self.forget_handle(handle.as_bytes());
                Ok(())
            }
            Change::ClosedFile(handle, file) => {
                self.forget_handle(handle.as_bytes());
                self.drop_lost(file);
                Ok(())
            }
            Change::Listed(handle, n) => {
                self.drop_entries(handle.as_bytes(), n);
                Ok(())
            }
            Change::MadeDirectory(name) => self.names.push(name, Node::Directory),
            Change::RemovedDirectory(name) => {
                self.names.remove(name.parts());
                Ok(())
            }
            Change::RemovedFile(name, file) => {
                self.names.remove(name.parts());
                self.drop_lost(file);
                Ok(())
            }
            Change::Renamed(old, to) => self.rename_all(&old, &to),
            Change::Replaced(old, to, gone) => self.replace(&old, &to, gone),
        }
    }

    // Opens the next handle.
    fn grant(&mut self, opened: Opened) -> Result<(), OutOfMemory>
        requires { self.old.grants < MAX_HANDLES }
        ensures left { OnOk result (self.new ≡ after_change self.old (change.Granted opened)) }
        ensures unchanged { OnErr result (self.new ≡ self.old) }
    {
        self.handles.push(self.grants as u32, opened)?;
        self.grants += 1;
        Ok(())
    }

    // Truncates a file, and opens it by the next handle.
    fn grant_emptied(&mut self, file: u64, opened: Opened) -> Result<(), OutOfMemory>
        requires { self.old.grants < MAX_HANDLES }
        ensures left { OnOk result (self.new ≡ after_change self.old (change.Truncated file opened)) }
        ensures unchanged { OnErr result (self.new ≡ self.old) }
    {
        self.grant(opened)?;
        empty_in(self.alloc, &mut self.files, file);
        Ok(())
    }

    // Creates an empty file under a name, and opens it by the next handle.
    fn create(&mut self, name: TreeName, opened: Opened) -> Result<(), OutOfMemory>
        requires { self.old.grants < MAX_HANDLES }
        ensures left { OnOk result (self.new ≡ after_change self.old (change.Created name opened)) }
        ensures unchanged { OnErr result (self.new ≡ self.old) }
    {
        self.files.reserve(1)?;
        let file = self.files.len() as u64;
        self.handles.push(self.grants as u32, opened)?;
        if self.names.push(name, Node::File(file)).is_err() {
            self.handles.remove(numbered_handle(self.grants).as_bytes());
            return Err(OutOfMemory);
        }
        self.grants += 1;
        self.files
            .push(FileBytes::new(Vec::new(self.alloc)))
            .unwrap();
        Ok(())
    }

    // Removes a handle.
    fn forget_handle(&mut self, handle: &[u8])
        ensures { self.new ≡ after_change self.old (change.ClosedDirectory handle.now) }
    {
        self.handles.remove(handle);
    }

    // Drops a handle's first entries, which were listed.
    fn drop_entries(&mut self, handle: &[u8], n: usize)
        ensures { self.new ≡ after_change self.old (change.Listed handle.now n) }
    {
        self.handles.drop_entries(self.alloc, handle, n);
    }

    // Truncates a file that no name and no handle has any longer.
    fn drop_lost(&mut self, file: u64)
        ensures { self.new ≡ with_tree self.old (after_loss self.old.tree file) }
    {
        if !is_named(self.names.listed(), file) && !self.handles.holds(file) {
            empty_in(self.alloc, &mut self.files, file);
        }
    }

    // Moves the old name, with all within it.
    fn rename_all(&mut self, old: &TreeName, to: &TreeName) -> Result<(), OutOfMemory>
        ensures left { OnOk result (self.new ≡ after_change self.old (change.Renamed old.now to.now)) }
        ensures unchanged { OnErr result (self.new ≡ self.old) }
    {
        self.names = moved_names(self.alloc, self.names.listed(), old.parts(), to.parts())?;
        Ok(())
    }

    // Moves the old name, if the new name had a file.
    fn replace(&mut self, old: &TreeName, to: &TreeName, gone: u64) -> Result<(), OutOfMemory>
        ensures left { OnOk result (self.new ≡ after_change self.old (change.Replaced old.now to.now gone)) }
        ensures unchanged { OnErr result (self.new ≡ self.old) }
    {
        self.names = names_but(self.alloc, self.names.listed(), old.parts(), to.parts())?;
        self.drop_lost(gone);
        Ok(())
    }
}
