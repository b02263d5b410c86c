ghost use Rattle.std.specs.Prelude.{◌≡◌, ◌≤◌, ◌↔◌, IsTrue};
ghost use Rattle.io_model.specs.Calls.{Calls, no_calls, NextIsListed, one_call, one_fault};

use std::marker::Model;

/// The calls of an object, counted, and those of them that it is told to fail. Takes no memory.
#[derive(Debug, Drop)]
pub(crate) struct PlannedCalls {
    listed: Vec<u64>,
    made: u64,
    failed: u64,
}

impl Model for PlannedCalls {
    ghost use Rattle.io_model.specs.Calls.{Calls};

    ghost Value = { Calls };

    ghost view = { λ calls.
        record { listed = calls.listed.items; made = calls.made; failed = calls.failed } };
}

impl PlannedCalls {
    /// No call was made yet. The numbers are those of the calls that are to fail, counted from 1.
    pub(crate) fn new(listed: Vec<u64>) -> Self
        ensures { result ≡ no_calls listed.items }
    {
        PlannedCalls {
            listed,
            made: 0,
            failed: 0,
        }
    }

    /// Whether the next call is to fail.
    pub(crate) fn next_is_listed(&self) -> bool
        ensures { IsTrue result ↔ NextIsListed self.now }
    {
        let number = self.made.saturating_add(1);
        self.listed.contains(&number)
    }

    /// Counts a call that didn't fail.
    pub(crate) fn count_call(&mut self)
        ensures { self.new ≡ one_call self.old }
    {
        self.made = self.made.saturating_add(1);
    }

    /// Counts a call that failed.
    pub(crate) fn count_fault(&mut self)
        ensures counted { self.new ≡ one_fault self.old }
        ensures later { self.old.failed ≤ self.new.failed }
    {
        self.made = self.made.saturating_add(1);
        self.failed = self.failed.saturating_add(1);
    }
}
