ghost use Rattle.std.specs.Prelude.{◌≡◌, ◌≤◌};
ghost use Rattle.disk_model.specs.Faults.{one_more};
ghost use Rattle.disk_model.specs.Memory.{Reads};

use std::marker::Model;

/// A meter of a disk in memory: its number, counted from 1, how many reads were made through it, and
/// how many of them failed.
#[derive(Debug, Drop)]
pub struct MemMeter {
    number: u64,
    made: u64,
    failed: u64,
}

impl Model for MemMeter {
    ghost use Rattle.disk_model.specs.Memory.{Reads};

    ghost Value = { Reads };

    ghost view = { λ meter. record { meter = meter.number; made = meter.made; failed = meter.failed } };
}

impl MemMeter {
    /// The meter of this number, through which nothing was read yet.
    pub(crate) fn new(number: u64) -> MemMeter
        ensures { result ≡ record { meter = number; made = 0; failed = 0 } }
    {
        MemMeter {
            number,
            made: 0,
            failed: 0,
        }
    }

    /// The meter's number.
    pub(crate) fn number(&self) -> u64
        ensures { result ≡ self.now.meter }
    {
        self.number
    }

    /// How many reads failed.
    pub(crate) fn failed(&self) -> u64
        ensures { result ≡ self.now.failed }
    {
        self.failed
    }

    /// Counts one more read, and answers its number.
    pub(crate) fn count_read(&mut self) -> u64
        ensures number { result ≡ one_more self.old.made }
        ensures counted { self.new ≡ record self.old { made = one_more self.old.made } }
    {
        self.made = self.made.saturating_add(1);
        self.made
    }

    /// Counts the last read as one that failed.
    pub(crate) fn count_fault(&mut self)
        ensures counted { self.new ≡ record self.old { failed = one_more self.old.failed } }
        ensures later { self.old.failed ≤ self.new.failed }
    {
        self.failed = self.failed.saturating_add(1);
    }
}
