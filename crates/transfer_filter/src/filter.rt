//! The filter of a tree.
ghost use Rattle.std.specs.Prelude.{◌≡◌, [], length, map};
ghost use Rattle.transfer_filter.specs.Filters.{AddsRule, leaves_out};
ghost use Rattle.transfer_filter.specs.Rules.{HasRoom, rule_seen};

use crate::effect::Effect;
use crate::filter_error::FilterError;
use crate::matcher::matches_entry;
use crate::pattern::is_pattern;
use crate::rule::Rule;
use std::alloc::Global;
use std::marker::Model;

/// Returns true if the first rule that matches an entry excludes it.
fn first_excludes(rules: &[Rule], row: &mut [bool], path: &[u8], is_directory: bool) -> bool
    requires { HasRoom rules.now (length row.old) }
    ensures is { result ≡ leaves_out (map rule_seen rules.now) path.now is_directory }
    ensures len { length row.new ≡ length row.old }
{
    for rule in rules {
        if matches_entry(rule.pattern.as_slice(), row, path, is_directory) {
            return rule.effect == Effect::Exclude;
        }
    }
    false
}

/// An ordered list of rules that say which entries of a tree are left out. A contract sees each rule's
/// effect and pattern.
///
/// Example: `crates/sftp_transfer/src/patterns.rt`.
#[derive(Drop)]
pub struct Filter {
    alloc: Global,
    rules: Vec<Rule>,
    // The matcher's row, with a cell for each place of the longest pattern and for its end.
    row: Vec<bool>,
}

impl Model for Filter {
    ghost use Rattle.std.specs.Prelude.{List, ℕ, length, map};
    ghost use Rattle.transfer_filter.specs.Rules.{HasRoom, rule_seen};
    ghost use Rattle.transfer_filter.specs.declared.effect.Effect.{Effect};

    ghost Value = { List (Effect × List ℕ) };

    ghost view = { λ f. map rule_seen f.rules.items };

    ghost invariant = { λ f. HasRoom f.rules.items (length f.row.items) };
}

impl Filter {
    /// Returns a filter without rules, which leaves out nothing.
    pub fn new(alloc: Global) -> Filter
        ensures { result ≡ [] }
    {
        Filter {
            alloc,
            rules: Vec::new(alloc),
            row: Vec::new(alloc),
        }
    }

    /// Adds a rule after the others.
    ///
    /// # Errors
    ///
    /// `BadPattern` if the text is no pattern, or `OutOfMemory` if an allocation fails; the filter is unchanged.
    pub fn add(&mut self, effect: Effect, pattern: &str) -> Result<(), FilterError>
        ensures { AddsRule effect pattern.now self.old self.new result }
    {
        if !is_pattern(pattern) {
            return Err(FilterError::BadPattern);
        }
        let pattern = Vec::from_slice(self.alloc, pattern.as_bytes())?;
        self.rules.reserve(1)?;
        if self.row.len() <= pattern.len() {
            self.row.resize(pattern.len() + 1, false)?;
        }
        self.rules.push(Rule { effect, pattern }).unwrap();
        Ok(())
    }

    /// Returns true if the first rule whose pattern matches an entry excludes it. `path` is the path of the entry from
    /// the root of the tree: components with a slash between each two. Allocates nothing; the rules are unchanged.
    pub fn leaves_out(&mut self, path: &[u8], is_directory: bool) -> bool
        ensures is { result ≡ leaves_out self.old path.now is_directory }
        ensures unchanged { self.new ≡ self.old }
    {
        first_excludes(
            self.rules.as_slice(),
            self.row.as_mut_slice(),
            path,
            is_directory,
        )
    }
}
