//! Names of files and directories.
ghost use Rattle.std.specs.Prelude.{◌≡◌, ◌++◌, List, ℕ, IfOk, OnOk, drop};
ghost use Rattle.std.specs.List.{flat_map};
ghost use Rattle.machine_model.specs.Components.{components as components_by, step_into, parent_of, Name, text_of_name as written_by};
ghost use Rattle.machine_tree.specs.Names.{with_slash_before};

use sftp_model::TryCopy;
use sftp_values::{ByteText, Items};
use ssh_encoding::OutOfMemory;
use std::alloc::Global;
use std::marker::Model;

/// The name of a file or a directory: its components. A contract sees it as their list.
///
/// Example: `crates/machine_answers/src/name_requests.rt`.
#[derive(Debug, Drop)]
pub struct TreeName {
    parts: Vec<ByteText>,
    // Each component with a slash before it.
    text: ByteText,
}

impl Model for TreeName {
    ghost use Rattle.std.specs.Prelude.{◌≡◌, List, ℕ};
    ghost use Rattle.std.specs.List.{flat_map};
    ghost use Rattle.machine_tree.specs.Names.{with_slash_before};

    ghost Value = { List (List ℕ) };

    ghost view = { λ n. n.parts.items };

    ghost invariant = { λ n. n.text ≡ flat_map with_slash_before n.parts.items };
}

impl TreeName {
    /// Creates the name with these components.
    ///
    /// # Errors
    ///
    /// `OutOfMemory` if an allocation fails.
    pub fn new(alloc: Global, parts: Vec<ByteText>) -> Result<TreeName, OutOfMemory>
        ensures { IfOk result (λ n. n ≡ parts.items) }
    {
        let text = ByteText::new(written(alloc, &parts)?);
        Ok(TreeName { parts, text })
    }

    /// Returns its components.
    pub fn parts(&self) -> &[ByteText]
        ensures { result.now ≡ self.now }
    {
        self.parts.as_slice()
    }

    /// Returns its components with a slash between each two; no bytes for the root.
    pub fn written(&self) -> &[u8]
        ensures { result.now ≡ written_by self.now }
    {
        unslashed(self.text.as_slice())
    }

    /// Returns the components of its parent; the root's is the root.
    pub fn parent_parts(&self) -> &[ByteText]
        ensures { result.now ≡ parent_of self.now }
    {
        let count = self.parts.len().saturating_sub(1);
        &self.parts[..count]
    }

    /// Returns its parent as it is written.
    pub fn parent_written(&self) -> &[u8]
        ensures { result.now ≡ written_by (parent_of self.now) }
    {
        match self.parts.last() {
            Some(part) => {
                let text = self.text.as_slice();
                let end = text.len().saturating_sub(1 + part.as_slice().len());
                unslashed(&text[..end])
            }
            None => &[],
        }
    }

    /// Returns each component with a slash before it.
    pub fn text(&self) -> &[u8]
        ensures { result.now ≡ flat_map with_slash_before self.now }
    {
        self.text.as_slice()
    }
}

impl TryCopy for TreeName {
    fn try_copy(&self, alloc: Global) -> Result<TreeName, OutOfMemory> {
        let mut parts = Vec::with_capacity(alloc, self.parts.len())?;
        add_copies(alloc, &mut parts, &self.parts)?;
        let text = self.text.try_copy(alloc)?;
        Ok(TreeName { parts, text })
    }
}

/// Adds copies of components.
pub(crate) fn add_copies(
    alloc: Global,
    parts: &mut Vec<ByteText>,
    more: &[ByteText],
) -> Result<(), OutOfMemory>
    ensures { OnOk result (parts.new.items ≡ parts.old.items ++ more.now) }
{
    for part in more {
        parts.push(part.try_copy(alloc)?)?;
    }
    Ok(())
}

/// Returns the text without its first byte.
fn unslashed(text: &[u8]) -> &[u8]
    ensures { (name : Name) → text.now ≡ flat_map with_slash_before name → result.now ≡ written_by name }
{
    match text {
        [] => &[],
        [_, rest @ ..] => rest,
    }
}

/// Returns each component with a slash before it. Fails only if an allocation fails.
fn written(alloc: Global, parts: &[ByteText]) -> Result<Vec<u8>, OutOfMemory>
    ensures { IfOk result (λ text. text.items ≡ flat_map with_slash_before parts.now) }
{
    let mut text = Vec::new(alloc);
    for part in parts {
        text.push(b'/')?;
        text.extend_from_slice(part.as_slice())?;
    }
    Ok(text)
}

/// Returns the components of the name that a path denotes (draft-ietf-secsh-filexfer-02, section 6.2). The path is
/// split at each slash and walked from the root. Empty components and `.` are dropped, and `..` leads up. The root has
/// none.
///
/// # Errors
///
/// `OutOfMemory` if an allocation fails; nothing remains of the components then.
pub fn components(alloc: Global, path: &[u8]) -> Result<Items<ByteText>, OutOfMemory>
    ensures { IfOk result (λ parts. parts ≡ components_by path.now) }
{
    Ok(Items::new(walk(alloc, path)?))
}

// Returns the same as a vector.
#[tactic(auto, unfolding(machine_model::specs::Components::components))]
pub(crate) fn walk(alloc: Global, path: &[u8]) -> Result<Vec<ByteText>, OutOfMemory>
    ensures { IfOk result (λ parts. parts.items ≡ components_by path.now) }
{
    let mut at = Vec::new(alloc);
    let mut part = Vec::new(alloc);
    for b in path {
        if *b == b'/' {
            enter(&mut at, part)?;
            part = Vec::new(alloc);
        } else {
            part.push(*b)?;
        }
    }
    enter(&mut at, part)?;
    Ok(at)
}

const HERE: &[u8] = b".";

const ABOVE: &[u8] = b"..";

/// Moves to the name that a part leads to.
fn enter(at: &mut Vec<ByteText>, part: Vec<u8>) -> Result<(), OutOfMemory>
    ensures { OnOk result (at.new.items ≡ step_into at.old.items part.items) }
{
    if part.as_slice() == ABOVE {
        at.pop();
        return Ok(());
    }
    if !part.is_empty() && part.as_slice() != HERE {
        at.push(ByteText::new(part))?;
    }
    Ok(())
}
