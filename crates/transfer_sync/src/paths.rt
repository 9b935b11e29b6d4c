//! Paths below a root, sets of paths, and the places of paths.
ghost use Rattle.std.specs.Prelude.{◌≡◌, ◌||◌, ℕ, List, Some, not, IfOk, OnOk, IsSome};
ghost use Rattle.std.specs.Option.{option_copied};
ghost use Rattle.transfer_sync.specs.PathMaps.{no_place, path_set, place_map, with_place};
ghost use Rattle.transfer_sync.specs.Listings.{name_in_directory};
ghost use Rattle.transfer_sync.specs.Paths.{directory_of, no_path, with_path};

use std::alloc::{AllocError, Global};
use std::collections::{BTreeMap, BTreeSet};
use std::marker::Model;

/// Returns the directory of a path: the bytes before its last slash, or the root if it has no slash.
pub(crate) fn directory_of(path: &[u8]) -> &[u8]
    ensures { result.now ≡ directory_of path.now }
{
    let mut cut = 0;
    for (i, b) in path.iter().enumerate() {
        if *b == b'/' {
            cut = i;
        }
    }
    &path[..cut]
}

/// Returns the name of a path in its directory: the bytes after the directory and a slash, or the whole path if its
/// directory is the root.
#[tactic(auto, using(crate::proofs::PathLaws::name_within))]
pub(crate) fn name_in_directory(path: &[u8]) -> &[u8]
    ensures { result.now ≡ name_in_directory path.now }
{
    let directory = directory_of(path);
    if directory.is_empty() {
        return path;
    }
    &path[directory.len() + 1..]
}

/// A set of paths. A contract sees them as a list whose order has no meaning.
#[derive(Drop)]
pub(crate) struct PathSet {
    paths: BTreeSet<Vec<u8>>,
}

impl Model for PathSet {
    ghost use Rattle.std.specs.Prelude.{List, ℕ, map};

    ghost Value = { List (List ℕ) };

    ghost view = { λ s. map (λ p. p.items) s.paths.keys };
}

impl PathSet {
    /// Returns an empty set.
    pub(crate) fn new(alloc: Global) -> PathSet
        ensures { path_set result ≡ no_path }
    {
        PathSet {
            paths: BTreeSet::new(alloc),
        }
    }

    /// Returns true if the set contains a path.
    pub(crate) fn has(&self, path: &[u8]) -> bool
        ensures { result ≡ path_set self.now path.now }
    {
        self.paths.contains(path)
    }

    /// Inserts a path. Fails only if an allocation fails.
    pub(crate) fn insert(&mut self, path: Vec<u8>) -> Result<(), AllocError>
        ensures { OnOk result (path_set self.new ≡ with_path (path_set self.old) path.items) }
    {
        self.paths.insert(path)?;
        Ok(())
    }
}

/// A map from paths to places. A contract sees it as a list of pairs whose order has no meaning.
#[derive(Drop)]
pub(crate) struct Places {
    places: BTreeMap<Vec<u8>, usize>,
}

impl Model for Places {
    ghost use Rattle.std.specs.Prelude.{List, ℕ, map};

    ghost Value = { List (List ℕ × ℕ) };

    ghost view = { λ s. map (λ e. (e.0.items, e.1)) s.places.entries };
}

impl Places {
    /// Returns an empty map.
    pub(crate) fn new(alloc: Global) -> Places
        ensures { place_map result ≡ no_place }
    {
        Places {
            places: BTreeMap::new(alloc),
        }
    }

    /// Returns the place of a path.
    pub(crate) fn get(&self, path: &[u8]) -> Option<usize>
        ensures { result ≡ place_map self.now path.now }
    {
        self.places.get(path).copied()
    }

    /// Sets the place of a path. Fails only if an allocation fails.
    pub(crate) fn insert(&mut self, path: Vec<u8>, place: usize) -> Result<(), AllocError>
        ensures { OnOk result (place_map self.new ≡ with_place (place_map self.old) path.items place) }
    {
        self.places.insert(path, place)?;
        Ok(())
    }
}
