//! The handles that are open, with their files and directories.
ghost use Rattle.std.specs.Prelude.{◌≡◌, ◌<◌, ◌^◌, ℕ, [], ◌∷◌, ◌++◌, false, MatchOption, OnOk, OnErr};
ghost use Rattle.std.specs.BTreeMap.{insert_entry, is_at};
ghost use Rattle.std.specs.Map.{lookup, remove_entry, set_value, values_of};
ghost use Rattle.std.specs.Ordering.{nat_cmp};
ghost use Rattle.std.specs.List.{list_any};
ghost use Rattle.std.specs.Option.{option_copied};
ghost use Rattle.std.specs.Str.{bytes_eq};
ghost use Rattle.machine_model.specs.FileTree.{value_at_key, opens_file, without_key};
ghost use Rattle.machine_tree.specs.Numbers.{AllBelow, given_pairs, numbered_handle as bytes_of_handle, without_first};

use machine_model::Opened;
use sftp_model::Handle;
use sftp_values::Items;
use ssh_encoding::OutOfMemory;
use std::alloc::Global;
use std::collections::BTreeMap;
use std::marker::Model;

/// The open files and directories, by the numbers of the handles. A contract sees the handles, each as its four bytes,
/// with their files and directories, in the order of the grants.
///
/// Used in `crates/machine_answers/src/store.rt`.
#[derive(Drop)]
pub struct Handles {
    by_number: BTreeMap<u32, Opened>,
}

impl Model for Handles {
    ghost use Rattle.std.specs.Prelude.{List, ℕ};
    ghost use Rattle.machine_model.specs.declared.opened.Opened.{Opened as IsOpened};
    ghost use Rattle.machine_tree.specs.Numbers.{AreNumbers, with_handles};

    ghost Value = { List (List ℕ × IsOpened) };

    ghost view = { λ h. with_handles h.by_number.entries };

    ghost invariant = { λ h. AreNumbers h.by_number.entries };
}

impl Handles {
    /// Creates it without open handles. Does not allocate.
    pub fn new(alloc: Global) -> Handles
        ensures { result ≡ [] }
    {
        Handles {
            by_number: BTreeMap::new(alloc),
        }
    }

    /// Returns the file or directory that a handle has open.
    pub fn get(&self, handle: &[u8]) -> Option<&Opened>
        ensures { option_copied result ≡ value_at_key bytes_eq self.now handle.now }
    {
        match number_of(handle) {
            Some(number) => self.by_number.get(&number),
            None => None,
        }
    }

    /// Adds the handle of a number; each open handle has a lower one.
    ///
    /// # Errors
    ///
    /// `OutOfMemory` if an allocation fails; nothing is changed.
    pub fn push(&mut self, number: u32, opened: Opened) -> Result<(), OutOfMemory>
        requires { AllBelow number self.old }
        ensures left { OnOk result (self.new ≡ self.old ++ (bytes_of_handle number, opened) ∷ []) }
        ensures unchanged { OnErr result (self.new ≡ self.old) }
    {
        put(&mut self.by_number, number, opened)
    }

    /// Removes a handle.
    pub fn remove(&mut self, handle: &[u8])
        ensures { self.new ≡ without_key bytes_eq self.old handle.now }
    {
        if let Some(number) = number_of(handle) {
            take(&mut self.by_number, number);
        }
    }

    /// Drops a handle's first entries, which were listed.
    pub fn drop_entries(&mut self, alloc: Global, handle: &[u8], n: usize)
        ensures { self.new ≡ given_pairs self.old handle.now n }
    {
        if let Some(number) = number_of(handle) {
            drop_first_at(alloc, &mut self.by_number, number, n);
        }
    }

    /// Returns true if a handle has the file.
    pub fn holds(&self, file: u64) -> bool
        ensures { result ≡ list_any (λ pair. opens_file file pair.1) self.now }
    {
        holds(&self.by_number, file)
    }
}

/// Adds a number. Fails only if an allocation fails; nothing is changed.
fn put(
    by_number: &mut BTreeMap<u32, Opened>,
    number: u32,
    opened: Opened,
) -> Result<(), OutOfMemory>
    ensures left { OnOk result (by_number.new.entries ≡ insert_entry nat_cmp by_number.old.entries number opened) }
    ensures unchanged { OnErr result (by_number.new.entries ≡ by_number.old.entries) }
{
    by_number.insert(number, opened)?;
    Ok(())
}

/// Removes a number.
fn take(by_number: &mut BTreeMap<u32, Opened>, number: u32)
    ensures { by_number.new.entries ≡ remove_entry (is_at (nat_cmp number)) by_number.old.entries }
{
    let _ = by_number.remove(&number);
}

/// Drops the first entries of a number's directory.
fn drop_first_at(alloc: Global, by_number: &mut BTreeMap<u32, Opened>, number: u32, n: usize)
    ensures { MatchOption (lookup (is_at (nat_cmp number)) by_number.old.entries) (by_number.new.entries ≡ by_number.old.entries)
        (λ had. by_number.new.entries ≡ set_value (is_at (nat_cmp number)) by_number.old.entries (without_first n had)) }
{
    if let Some(opened) = by_number.get_mut(&number) {
        drop_first(alloc, opened, n);
    }
}

/// Returns true if a number has the file.
fn holds(by_number: &BTreeMap<u32, Opened>, file: u64) -> bool
    ensures { result ≡ list_any (opens_file file) (values_of by_number.now.entries) }
{
    by_number.values().any(|opened| has_open(file, opened))
}

/// Returns the number of a handle, if it has four bytes.
fn number_of(handle: &[u8]) -> Option<u32>
    ensures { MatchOption result ((n : ℕ) → bytes_eq (bytes_of_handle n) handle.now ≡ false)
        (λ n. (n < 2 ^ 32) × (bytes_of_handle n ≡ handle.now)) }
{
    match handle {
        [a, b, c, d] => Some(u32::from_be_bytes([*a, *b, *c, *d])),
        _ => None,
    }
}

/// Returns true if the file of a number is the one that is open.
fn has_open(file: u64, opened: &Opened) -> bool
    ensures { result ≡ opens_file file opened.now }
{
    match opened {
        Opened::File(held) => held.file == file,
        Opened::Directory(_) => false,
    }
}

/// Drops the first entries.
fn drop_first(alloc: Global, opened: &mut Opened, n: usize)
    ensures { opened.new ≡ without_first n opened.old }
{
    if let Opened::Directory(entries) = opened {
        let before = std::mem::replace(entries, Items::new(Vec::new(alloc)));
        let mut rest = before.into_vec();
        rest.drain(..n.min(rest.len()));
        *entries = Items::new(rest);
    }
}

/// Returns the handle of a number, which is taken modulo the count of numbers of four bytes.
pub fn numbered_handle(number: u64) -> Handle
    ensures { result ≡ bytes_of_handle number }
{
    match Handle::new(&number.to_be_bytes()[4..]) {
        Some(handle) => handle,
        None => unreachable!(),
    }
}
