//! The error of a name that was refused.
ghost use Rattle.std.specs.Prelude.{◌≡◌, ◌==◌, List, ℕ, IfOk, Some, ◌++◌, codes};
ghost use Rattle.std.specs.String.{string_bytes};
ghost use Rattle.std.proofs.Common.{rules};
ghost use Rattle.std.specs.Cmp.Lexicographic.{pointwise};
ghost use Rattle.std.specs.Cmp.Rules.{comparing};

use crate::out_of_memory::OutOfMemory;
use std::alloc::Global;
use std::fmt;
use std::marker::Model;

/// A name that was refused, with its text. A contract sees it as the bytes of the text.
///
/// Example: `crates/test_wire/src/encoding/labels.rt`.
#[derive(Debug, Drop)]
pub struct LabelError {
    label: String,
}

impl Model for LabelError {
    ghost Value = { List ℕ };

    ghost view = { λ e. string_bytes e.label };
}

impl LabelError {
    /// Creates the error of a name. Its text is copied.
    ///
    /// # Errors
    ///
    /// `OutOfMemory` if an allocation fails.
    pub fn new(alloc: Global, label: &str) -> Result<LabelError, OutOfMemory>
        ensures { IfOk result (λ e. e ≡ label.now) }
    {
        Ok(LabelError {
            label: String::from_str(alloc, label)?,
        })
    }

    /// Returns the text that was refused.
    pub fn label(&self) -> &str
        ensures { result.now ≡ self.now }
    {
        self.label.as_str()
    }
}

impl PartialEq for LabelError {
    ghost eq = { pointwise ◌==◌ };

    ghost laws = { Prim.search (comparing, rules) };

    fn eq(&self, other: &LabelError) -> bool {
        self.label.as_str() == other.label.as_str()
    }
}

impl Eq for LabelError {
    ghost laws = { Prim.search (comparing, rules) };
}

impl fmt::Display for LabelError {
    ghost output = { λ e. Some (codes "invalid label: '" ++ e ++ codes "'") };

    fn fmt<W: fmt::Write>(&self, f: &mut fmt::Formatter<W>) -> fmt::Result {
        write!(f, "invalid label: '{}'", self.label.as_str())
    }
}
