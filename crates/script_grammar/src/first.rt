//! The first files and directories of a script of which some lines are read.
ghost use Rattle.std.specs.Prelude.{◌≡◌, ◌++◌, ◌∷◌, ◌||◌, [], true, not, map, OnErr, OnOk};
ghost use Rattle.std.specs.List.{list_all, list_any};
ghost use Rattle.machine_model.specs.Components.{components, is_within, same_name};
ghost use Rattle.machine_model.specs.FirstTree.{are_apart, name_of};
ghost use Rattle.script_grammar.specs.Setup.{may_add};

use crate::names::{has_name, has_within, is_apart_from_all, is_within_any};
use machine_model::limits::{MAX_FILE_LEN, MAX_TOTAL_LEN};
use sftp_values::{ByteText, Items};
use ssh_encoding::OutOfMemory;
use std::alloc::Global;
use std::marker::Model;

/// First files and directories. A contract sees the paths and contents.
///
/// Used in `crates/script_grammar/src/names.rt`.
#[derive(Drop)]
pub struct FirstTree {
    files: Vec<(ByteText, ByteText)>,
    dirs: Vec<ByteText>,
    // The names that the paths denote, in the same order.
    file_names: Vec<Items<ByteText>>,
    dir_names: Vec<Items<ByteText>>,
    // The total size of all files in bytes.
    total: u64,
}

impl Model for FirstTree {
    ghost use Rattle.std.specs.Prelude.{◌≡◌, ◌≤◌, length, map};
    ghost use Rattle.std.specs.List.{sum_by};
    ghost use Rattle.machine_model.specs.Components.{components};
    ghost use Rattle.machine_model.specs.FirstTree.{name_of};
    ghost use Rattle.machine_model.specs.Limits.{MAX_TOTAL_LEN};
    ghost use Rattle.script_grammar.specs.Parts.{First};

    ghost Value = { First };

    ghost view = { λ t. record { files = t.files.items; dirs = t.dirs.items } };

    ghost invariant = { λ t. (t.file_names.items ≡ map name_of t.files.items)
        × (t.dir_names.items ≡ map components t.dirs.items)
        × (t.total ≡ sum_by (λ file. length file.1) t.files.items) × (t.total ≤ MAX_TOTAL_LEN) };
}

impl FirstTree {
    /// Returns a tree without files and directories.
    pub(crate) fn new(alloc: Global) -> FirstTree
        ensures { result ≡ record { files = []; dirs = [] } }
    {
        FirstTree {
            files: Vec::new(alloc),
            dirs: Vec::new(alloc),
            file_names: Vec::new(alloc),
            dir_names: Vec::new(alloc),
            total: 0,
        }
    }

    /// Returns the files and the directories.
    pub(crate) fn into_parts(self) -> (Items<(ByteText, ByteText)>, Items<ByteText>)
        ensures { result ≡ (self.files, self.dirs) }
    {
        (Items::new(self.files), Items::new(self.dirs))
    }

    /// Returns true if another file may have these bytes.
    pub(crate) fn may_add(&self, content: &[u8]) -> bool
        ensures { result ≡ may_add self.now.files content.now }
    {
        let len = content.len() as u64;
        len <= MAX_FILE_LEN && self.total + len <= MAX_TOTAL_LEN
    }

    /// Returns true if the name already belongs to a file or a directory, or lies within a file.
    pub(crate) fn meets_file(&self, name: &[ByteText]) -> bool
        ensures { result ≡ (not (list_all (are_apart name.now) (map name_of self.now.files))
            || list_any (is_within name.now) (map components self.now.dirs)) }
    {
        !is_apart_from_all(self.file_names.as_slice(), name)
            || has_within(self.dir_names.as_slice(), name)
    }

    /// Returns true if the name belongs to a file or lies within a file.
    fn is_within_file(&self, name: &[ByteText]) -> bool
        ensures { result ≡ list_any (λ file. is_within (name_of file) name.now) self.now.files }
    {
        is_within_any(self.file_names.as_slice(), name)
    }

    /// Returns true if the name was given to a directory, belongs to a file, or lies within a file.
    pub(crate) fn meets_dir(&self, name: &[ByteText]) -> bool
        ensures { result ≡ (list_any (same_name name.now) (map components self.now.dirs)
            || list_any (λ file. is_within (name_of file) name.now) self.now.files) }
    {
        has_name(self.dir_names.as_slice(), name) || self.is_within_file(name)
    }

    /// Adds a file, which may have these bytes. Fails only if an allocation fails; nothing changes then.
    pub(crate) fn add_file(
        &mut self,
        path: ByteText,
        name: Items<ByteText>,
        content: ByteText,
    ) -> Result<(), OutOfMemory>
        requires named { name ≡ components path }
        requires room { may_add self.old.files content ≡ true }
        ensures added { OnOk result (self.new ≡ record self.old { files = self.old.files ++ (path, content) ∷ [] }) }
        ensures unchanged { OnErr result (self.new ≡ self.old) }
    {
        self.files.reserve(1)?;
        self.file_names.push(name)?;
        self.total += content.as_slice().len() as u64;
        self.files.push((path, content)).unwrap();
        Ok(())
    }

    /// Adds a directory. Fails only if an allocation fails; nothing changes then.
    pub(crate) fn add_dir(
        &mut self,
        path: ByteText,
        name: Items<ByteText>,
    ) -> Result<(), OutOfMemory>
        requires { name ≡ components path }
        ensures added { OnOk result (self.new ≡ record self.old { dirs = self.old.dirs ++ path ∷ [] }) }
        ensures unchanged { OnErr result (self.new ≡ self.old) }
    {
        self.dirs.reserve(1)?;
        self.dir_names.push(name)?;
        self.dirs.push(path).unwrap();
        Ok(())
    }
}
