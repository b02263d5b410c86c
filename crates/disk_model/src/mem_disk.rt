ghost use Rattle.std.specs.Prelude.{◌≡◌, ◌≤◌, ◌<◌, ◌+◌, ◌-◌, ◌^◌, ℕ, [], ◌∷◌, ◌++◌, length, replicate, Some, min, IfOk, IfErr, OnOk, OnErr, IsErr, IsTrue, ◌↔◌};
ghost use Rattle.disk_model.specs.Images.{Image};
ghost use Rattle.disk_model.specs.DiskLaws.{IsImage, Torn, Stays, Holds, MayTouch, Gives, TellsImage, zero_sector, Follows, SameOutcomes, Elapses};
ghost use Rattle.disk_model.specs.Crashes.{NothingPending};
ghost use Rattle.disk_model.specs.Accounts.{Keeps, Accounts};
ghost use Rattle.disk_model.specs.Faults.{HasCause, one_more};
ghost use Rattle.disk_model.specs.Plans.{fails_read};
ghost use Rattle.disk_model.specs.Memory.{MemoryDisk, contents, cells_of, MayBeLeft, state_of, padded, new_disk, next_fails, refused, without_memory, recorded, metered, Answers, crash_image};
ghost use Rattle.disk_model.specs.declared.call.Call.TheVariants.{Write, Barrier};
ghost use Rattle.disk_model.specs.MemoryLaws.{is_disk, always_told};

use crate::call::{Call, SectorWrite};
use crate::crash::{crash_all, padded_copy, replay};
use crate::disk::{Disk, Failed};
use crate::fault_plan::{FaultPlan, ReadSpan};
use crate::mem_meter::MemMeter;
use std::alloc::{AllocError, Global};
use std::marker::Model;

/// A disk in memory. It tells its contents, and by its record of writes and barriers also what a crash
/// at each moment might have left. A call of it fails where it is told to, or where there is no memory.
#[derive(Drop)]
pub struct MemDisk {
    alloc: Global,
    /// What it held when it was made; sectors past its end held zeros.
    start: Vec<[u8; 4096]>,
    /// What it holds now.
    cells: Vec<[u8; 4096]>,
    /// The writes and barriers that were done.
    calls: Vec<Call>,
    plan: FaultPlan,
    made: u64,
    meters: u64,
    write_faults: u64,
    read_faults: u64,
    starved: u64,
}

impl Model for MemDisk {
    ghost use Rattle.std.specs.Prelude.{◌≡◌, length};
    ghost use Rattle.disk_model.specs.DiskLaws.{IsImage};
    ghost use Rattle.disk_model.specs.Memory.{MemoryDisk, contents, cells_after, cells_now, padded, IsKept};

    ghost Value = { MemoryDisk };

    ghost view = { λ disk. record {
      sectors = length disk.cells.items;
      start = padded (length disk.cells.items) disk.start.items;
      calls = disk.calls.items;
      plan = disk.plan;
      made = disk.made;
      meters = disk.meters;
      write_faults = disk.write_faults;
      read_faults = disk.read_faults;
      starved = disk.starved;
    } };

    ghost invariant = { λ disk. IsKept (length disk.cells.items) disk.start.items disk.calls.items disk.cells.items };
}

impl MemDisk {
    /// A disk of so many sectors of zeros. The error is want of memory.
    pub fn new(alloc: Global, sectors: u64) -> Result<MemDisk, AllocError>
        ensures made { IfOk result (λ disk. disk ≡ new_disk sectors (padded sectors [])) }
        ensures settled { IfOk result (λ disk. NothingPending (Some (contents disk)) (MayBeLeft disk)) }
    {
        let zeros = padded_copy(alloc, sectors as usize, &[])?;
        Ok(MemDisk::holding(alloc, Vec::new(alloc), zeros))
    }

    /// Tells it to fail this one of its calls of `meter`, `write` and `barrier`, counted together from 1
    /// since it was made.
    pub fn fail_call(&mut self, call: u64)
        ensures { self.new ≡ record self.old { plan = record self.old.plan { call = Some call } } }
    {
        self.plan.call = Some(call);
    }

    /// Tells it to fail all of its calls of `meter`, `write` and `barrier` from this one on.
    pub fn fail_from(&mut self, from: u64)
        ensures { self.new ≡ record self.old { plan = record self.old.plan { «from» = Some «from» } } }
    {
        self.plan.from = Some(from);
    }

    /// Tells it to fail the reads of these numbers through this meter, all counted from 1.
    pub fn fail_reads(&mut self, meter: u64, first: u64, last: u64)
        ensures { self.new ≡ record self.old {
          plan = record self.old.plan {
            reads = Some (record { meter = meter; first = first; last = last });
          };
        } }
    {
        self.plan.reads = Some(ReadSpan { meter, first, last });
    }

    /// How many calls failed for want of memory.
    pub fn starved(&self) -> u64
        ensures { result ≡ self.now.starved }
    {
        self.starved
    }

    /// How many calls of `meter`, `write` and `barrier` were made.
    pub fn calls_made(&self) -> u64
        ensures { result ≡ self.now.made }
    {
        self.made
    }

    /// The disk that a crash now leaves: each pending sector holds what it held at the last barrier
    /// (choice 0), what was written (1), bytes of value 165 (2), or these three in turn by the sector's
    /// number (3). It is told to fail nothing, and its counts begin anew. Where there is no memory for
    /// it, the disk is handed back.
    pub fn crash(self, choice: u8) -> Result<MemDisk, MemDisk>
        requires { choice ≤ 3 }
        ensures left { IfOk result (λ disk. disk ≡ new_disk self.sectors (crash_image choice (cells_of self))) }
        ensures outcome { IfOk result (λ disk. MayBeLeft self (contents disk)) }
        ensures settled { IfOk result (λ disk. NothingPending (Some (contents disk)) (MayBeLeft disk)) }
        ensures refused { IfErr result (λ disk. disk ≡ self) }
    {
        match self.sectors_after_crash(choice) {
            Ok((start, cells)) => Ok(MemDisk::holding(self.alloc, start, cells)),
            Err(_) => Err(self),
        }
    }

    /// A disk that holds these sectors, with nothing pending and no calls made. `start` may lack zeros
    /// at its end.
    fn holding(alloc: Global, start: Vec<[u8; 4096]>, cells: Vec<[u8; 4096]>) -> MemDisk
        requires fits { length start.items ≤ length cells.items }
        requires same { padded (length cells.items) start.items ≡ cells.items }
        requires whole { IsImage (length cells.items) cells.items }
        ensures { result ≡ new_disk (length cells.items) cells.items }
    {
        MemDisk {
            alloc,
            start,
            cells,
            calls: Vec::new(alloc),
            plan: FaultPlan::NONE,
            made: 0,
            meters: 0,
            write_faults: 0,
            read_faults: 0,
            starved: 0,
        }
    }

    /// What the disk holds after a crash by this choice, twice. The error is want of memory.
    fn sectors_after_crash(
        &self,
        choice: u8,
    ) -> Result<(Vec<[u8; 4096]>, Vec<[u8; 4096]>), AllocError>
        requires { choice ≤ 3 }
        ensures first { IfOk result (λ pair. pair.0.items ≡ pair.1.items) }
        ensures second { IfOk result (λ pair. pair.1.items ≡ crash_image choice (cells_of self.now)) }
    {
        let settled = replay(self.alloc, self.cells.len(), &self.start, &self.calls)?;
        let mut left = settled.base;
        crash_all(choice, &mut left, &self.cells, &settled.pending);
        let copy = padded_copy(self.alloc, self.cells.len(), &left)?;
        Ok((left, copy))
    }

    /// Whether the next call of `meter`, `write` or `barrier` is to fail.
    fn next_fails(&self) -> bool
        ensures { result ≡ next_fails self.now }
    {
        self.plan.fails_call(self.made.saturating_add(1))
    }

    /// Counts a call that was told to fail.
    fn refuse(&mut self) -> Failed
        ensures counted { self.new ≡ refused self.old }
        ensures later { self.old.write_faults ≤ self.new.write_faults }
    {
        self.made = self.made.saturating_add(1);
        self.write_faults = self.write_faults.saturating_add(1);
        Failed
    }

    /// Counts a call that found no memory.
    fn starve(&mut self) -> Failed
        ensures counted { self.new ≡ without_memory self.old }
        ensures later { self.old.write_faults ≤ self.new.write_faults }
    {
        self.starved = self.starved.saturating_add(1);
        self.refuse()
    }
}

impl Disk for MemDisk {
    type Meter = MemMeter;

    ghost state = { λ disk. state_of disk };

    ghost meter_faults = { λ meter. meter.failed };

    ghost is_disk = { λ disk. is_disk disk };

    ghost tells_alike = { λ disk other untold. always_told (contents disk) (contents other) untold };

    fn sectors(&self) -> u64 {
        self.cells.len() as u64
    }

    fn meter(&mut self) -> Result<MemMeter, Failed>
        ensures contents { Stays (Some (contents self.old)) (Some (contents self.new)) }
        ensures crash { SameOutcomes (MayBeLeft self.old) (MayBeLeft self.new) }
        ensures time { Elapses (state_of self.old) (state_of self.new) }
        ensures accounts { Accounts (state_of self.old) (state_of self.new) result }
        ensures fresh { IfOk result (λ meter. meter.failed ≡ 0) }

        // It fails exactly where it is told to: it takes no memory.
        ensures told { IsErr result ↔ IsTrue (next_fails self.old) }
        ensures exact { Answers self.old self.new result (metered self.old) }
        ensures numbered { IfOk result (λ meter. meter ≡ record { meter = self.new.meters; made = 0; failed = 0 }) }
    {
        if self.next_fails() {
            return Err(self.refuse());
        }
        self.made = self.made.saturating_add(1);
        self.meters = self.meters.saturating_add(1);
        Ok(MemMeter::new(self.meters))
    }

    fn faults(meter: &MemMeter) -> u64 {
        meter.failed()
    }

    fn retire(&mut self, meter: MemMeter)
        ensures contents { Stays (Some (contents self.old)) (Some (contents self.new)) }
        ensures crash { SameOutcomes (MayBeLeft self.old) (MayBeLeft self.new) }
        ensures time { Elapses (state_of self.old) (state_of self.new) }
        ensures keeps { Keeps (state_of self.old) (state_of self.new) }
        ensures reads { min (self.old.read_faults + meter.failed) (2 ^ 64 - 1) ≤ self.new.read_faults }
        ensures counted { self.new ≡ record self.old { read_faults = min (self.old.read_faults + meter.failed) (2 ^ 64 - 1) } }
    {
        self.read_faults = self.read_faults.saturating_add(meter.failed());
    }

    fn read(&self, meter: &mut MemMeter, at: u64, out: &mut [u8; 4096]) -> Result<(), Failed>
        requires { at < self.now.sectors }
        ensures bytes { OnOk result (Gives (Some (contents self.now)) at out.new) }
        ensures cause { HasCause meter.old.failed meter.new.failed result }

        // It fails exactly where it is told to, and then leaves the buffer as it was.
        ensures told { IsErr result ↔ IsTrue (fails_read self.now.plan meter.old.meter (one_more meter.old.made)) }
        ensures ok { OnOk result (meter.new ≡ record meter.old { made = one_more meter.old.made }) }
        ensures err { OnErr result (meter.new ≡ record meter.old { made = one_more meter.old.made; failed = one_more meter.old.failed }) }
        ensures untouched { OnErr result (out.new ≡ out.old) }
    {
        let number = meter.count_read();
        if self.plan.fails_read(meter.number(), number) {
            meter.count_fault();
            return Err(Failed);
        }
        *out = self.cells[at as usize];
        Ok(())
    }

    fn write(&mut self, at: u64, from: &[u8; 4096]) -> Result<(), Failed>
        requires { at < self.old.sectors }
        ensures written { OnOk result (Holds (Some (contents self.old)) (Some (contents self.new)) at from.now) }
        ensures touched { OnErr result (MayTouch (Some (contents self.old)) (Some (contents self.new)) at) }
        ensures crash { Follows (Torn at) (MayBeLeft self.old) (MayBeLeft self.new) }
        ensures time { Elapses (state_of self.old) (state_of self.new) }
        ensures accounts { Accounts (state_of self.old) (state_of self.new) result }

        // It fails where it is told to, or for want of memory, and then changes its counts alone.
        ensures exact { Answers self.old self.new result
            (recorded self.old (Write (record { at = at; bytes = from.now }))) }
    {
        if self.next_fails() {
            return Err(self.refuse());
        }
        let write = SectorWrite { at, bytes: *from };
        let Ok(()) = self.calls.push(Call::Write(write)) else {
            return Err(self.starve());
        };
        self.cells[at as usize] = *from;
        self.made = self.made.saturating_add(1);
        Ok(())
    }

    fn barrier(&mut self) -> Result<(), Failed>
        ensures contents { Stays (Some (contents self.old)) (Some (contents self.new)) }
        ensures durable { OnOk result (NothingPending (Some (contents self.new)) (MayBeLeft self.new)) }
        ensures crash { (c : Image) → MayBeLeft self.new c → MayBeLeft self.old c }
        ensures time { Elapses (state_of self.old) (state_of self.new) }
        ensures accounts { Accounts (state_of self.old) (state_of self.new) result }

        // It fails where it is told to, or for want of memory, and then changes its counts alone.
        ensures exact { Answers self.old self.new result (recorded self.old Barrier) }
    {
        if self.next_fails() {
            return Err(self.refuse());
        }
        let Ok(()) = self.calls.push(Call::Barrier) else {
            return Err(self.starve());
        };
        self.made = self.made.saturating_add(1);
        Ok(())
    }
}
