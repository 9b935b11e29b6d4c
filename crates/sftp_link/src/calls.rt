//! The calls of an object in memory, counted.
ghost use Rattle.std.specs.Prelude.{◌≡◌, ◌==◌, ◌<◌, ◌-◌, ◌^◌};
ghost use Rattle.std.specs.List.{list_any};
ghost use Rattle.sftp_link.specs.Calls.{before_first_call, fails_next, after_call};

use std::marker::Model;

/// The calls of an object in memory: which fail, how many were made and how many failed.
#[derive(Drop)]
pub(crate) struct Calls {
    fails: Vec<u32>,
    made: u64,
    faults: u64,
}

impl Model for Calls {
    ghost use Rattle.sftp_link.specs.Calls.{Counted};

    ghost Value = { Counted };

    ghost view = { λ c. record { fails = c.fails.items; made = c.made; faults = c.faults } };
}

// Returns true if this number is in the list.
fn is_listed(numbers: &[u32], number: u64) -> bool
    ensures { result ≡ list_any (λ k. k == number) numbers.now }
{
    numbers.iter().any(|k| u64::from(*k) == number)
}

impl Calls {
    /// Creates the counter before the first call. The calls with these numbers, from 0, will fail.
    pub(crate) fn new(fails: Vec<u32>) -> Calls
        ensures { result ≡ before_first_call fails.items }
    {
        Calls {
            fails,
            made: 0,
            faults: 0,
        }
    }

    /// Counts a call, and returns true if it fails.
    pub(crate) fn count(&mut self) -> bool
        requires { self.old.faults < 2 ^ 64 - 1 }
        ensures fails { result ≡ fails_next self.old }
        ensures counted { self.new ≡ after_call self.old }
    {
        let fails = is_listed(&self.fails, self.made);
        self.made = self.made.saturating_add(1);
        if fails {
            self.faults += 1;
        }
        fails
    }
}
