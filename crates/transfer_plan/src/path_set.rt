//! A set of paths.
ghost use Rattle.std.specs.Prelude.{◌≡◌, ◌||◌, ℕ, List, [], not, IfOk, OnOk};
ghost use Rattle.std.specs.Str.{bytes_eq};
ghost use Rattle.transfer_plan.specs.Apart.{has_path};

use ssh_encoding::OutOfMemory;
use std::alloc::Global;
use std::collections::BTreeSet;
use std::marker::Model;

/// A set of paths. A contract sees them as a list whose order has no meaning.
#[derive(Drop)]
pub(crate) struct PathSet {
    paths: BTreeSet<Vec<u8>>,
}

impl Model for PathSet {
    ghost use Rattle.std.specs.Prelude.{List, ℕ, map};

    ghost Value = { List (List ℕ) };

    ghost view = { λ s. map (λ p. p.items) s.paths.keys };
}

impl PathSet {
    /// Returns an empty set.
    pub(crate) fn new(alloc: Global) -> PathSet
        ensures { result ≡ [] }
    {
        PathSet {
            paths: BTreeSet::new(alloc),
        }
    }

    /// Returns true if the set contains a path.
    pub(crate) fn has(&self, path: &[u8]) -> bool
        ensures { result ≡ has_path self.now path.now }
    {
        self.paths.contains(path)
    }

    /// Inserts a path, and returns true if it was not in the set. Fails only if an allocation fails; the set is
    /// unchanged then.
    pub(crate) fn insert(&mut self, path: Vec<u8>) -> Result<bool, OutOfMemory>
        ensures new { IfOk result (λ is_new. is_new ≡ not (has_path self.old path.items)) }
        ensures has { OnOk result ((other : List ℕ) → has_path self.new other ≡ (has_path self.old other || bytes_eq other path.items)) }
    {
        Ok(self.paths.insert(path)?)
    }
}
