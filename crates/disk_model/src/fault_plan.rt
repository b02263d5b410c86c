ghost use Rattle.std.specs.Prelude.{◌≡◌};
ghost use Rattle.disk_model.specs.Plans.{fails_call, fails_read};

/// Reads of one meter, by their numbers. Meters and reads are counted from 1.
#[derive(Clone, Copy, Debug, PartialEq, Eq)]
pub struct ReadSpan {
    pub meter: u64,
    pub first: u64,
    pub last: u64,
}

/// Which calls a disk in memory is told to fail. Calls of `meter`, `write` and `barrier` are counted
/// together from 1 since the disk was made.
#[derive(Clone, Copy, Debug, PartialEq, Eq)]
pub struct FaultPlan {
    /// This one call.
    pub call: Option<u64>,
    /// This call and all after it.
    pub from: Option<u64>,
    /// These reads.
    pub reads: Option<ReadSpan>,
}

impl FaultPlan {
    /// Nothing is to fail.
    pub const NONE: FaultPlan = FaultPlan {
        call: None,
        from: None,
        reads: None,
    };

    /// Whether the call of this number is to fail.
    pub(crate) fn fails_call(&self, number: u64) -> bool
        ensures { result ≡ fails_call self.now number }
    {
        self.call.is_some_and(|call| call == number) || self.from.is_some_and(|from| from <= number)
    }

    /// Whether the read of this number of the meter of this number is to fail.
    pub(crate) fn fails_read(&self, meter: u64, read: u64) -> bool
        ensures { result ≡ fails_read self.now meter read }
    {
        match self.reads {
            Some(span) => span.meter == meter && span.first <= read && read <= span.last,
            None => false,
        }
    }
}
