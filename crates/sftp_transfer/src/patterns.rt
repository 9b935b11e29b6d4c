//! The patterns of the entries that a run leaves out.
use crate::transfer_error::{TransferError, tell};
use std::fs;
use transfer_args::Pattern;
use transfer_filter::{Effect, Filter, FilterError};

/// Returns the rule that a line of a file writes: a pattern to exclude, or after `+ ` one to include and after `- ` one
/// to exclude.
fn rule_of(line: &str) -> (Effect, &str) {
    if let Some(pattern) = line.strip_prefix("+ ") {
        return (Effect::Include, pattern);
    }
    match line.strip_prefix("- ") {
        Some(pattern) => (Effect::Exclude, pattern),
        None => (Effect::Exclude, line),
    }
}

/// Returns true if a line of a file writes no rule: it is empty or a comment.
fn is_remark(line: &str) -> bool {
    line.is_empty() || line.starts_with('#') || line.starts_with(';')
}

/// Adds a rule after others, and returns true. If it can't be added, the reason is reported.
fn add_rule(rt: &HostRuntime, filter: &mut Filter, effect: Effect, pattern: &str) -> bool {
    match filter.add(effect, pattern) {
        Ok(()) => true,
        Err(FilterError::OutOfMemory) => {
            tell(rt, pattern, &TransferError::OutOfMemory);
            false
        }
        Err(FilterError::BadPattern) => {
            tell(
                rt,
                pattern,
                &TransferError::Refused("not a pattern that is understood"),
            );
            false
        }
    }
}

/// Adds the rules of a local file after others, and returns true. If that fails, the reason is reported.
fn add_file(rt: &HostRuntime, filter: &mut Filter, path: &str) -> bool {
    let text = match fs::read_to_string(rt, path) {
        Ok(text) => text,
        Err(e) => {
            tell(rt, path, &TransferError::from(e));
            return false;
        }
    };
    for line in text.as_str().lines() {
        let (effect, pattern) = rule_of(line);
        if !is_remark(line) && !add_rule(rt, filter, effect, pattern) {
            tell(
                rt,
                path,
                &TransferError::Refused("its patterns can't be used"),
            );
            return false;
        }
    }
    true
}

/// Returns the filter of a command line's patterns. If one can't be used or a file of patterns can't be read, the
/// reason is reported and `None` is returned.
pub(crate) fn filter_of(rt: &HostRuntime, patterns: &[Pattern<'_>]) -> Option<Filter> {
    let mut filter = Filter::new(rt.alloc());
    for pattern in patterns {
        let added = match *pattern {
            Pattern::Exclude(text) => add_rule(rt, &mut filter, Effect::Exclude, text),
            Pattern::Include(text) => add_rule(rt, &mut filter, Effect::Include, text),
            Pattern::ExcludeFrom(path) => add_file(rt, &mut filter, path),
        };
        if !added {
            return None;
        }
    }
    Some(filter)
}
