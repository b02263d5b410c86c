ghost use Rattle.std.specs.Prelude.{◌≡◌, ℕ, ◌+◌, ◌<◌, ◌≤◌, [], length, sum, slice_index, slice_get, IfOk, Some};
ghost use Rattle.machine_model.specs.Histories.{meaning, AreBelow, IsLegal};
ghost use Rattle.lane_lock.specs.Gathering.{IsLeft, InOrder, Gathered, Closes};
ghost use Rattle.lane_lock.specs.Seats.{SeatView, lock_view, first_seat, AreFirst, IsSeatOf, Answers};

use crate::lane_table::{LaneTable, Place};
use crate::seat::Seat;
use machine_model::Machine;
use std::alloc::{AllocError, Global};
use std::marker::Model;
use std::sync::Wait;

/// A lock round a machine. Contracts see it as which lock it is, the machine that it was opened with, and
/// the shares of its lanes.
#[derive(Drop)]
pub struct LaneLock<M: Machine> {
    lanes: LaneTable<M>,
}

impl<M: Machine> Model for LaneLock<M> {
    ghost use Rattle.lane_lock.specs.Seats.{LockView, lock_view};

    ghost Value = { LockView M };

    ghost view = { λ s. lock_view s.lanes.table.shared };
}

impl<M: Machine> LaneLock<M> {
    /// A lock round a machine with an empty history, and a seat for each lane, in order: lane i may keep
    /// `shares[i]` events. There are 1 to 16 lanes, and the machine has room for all shares together.
    /// The error is want of memory, and drops the machine.
    pub fn new(
        alloc: Global,
        machine: M,
        shares: &[u64],
    ) -> Result<(LaneLock<M>, Vec<Seat<M>>), AllocError>
        requires fresh { (M.history machine ≡ []) × (sum shares.now ≤ M.spare machine) }
        requires few { (0 < length shares.now) × (length shares.now ≤ 16) }
        ensures lock { IfOk result (λ r. (r.0.first ≡ machine) × (r.0.shares ≡ shares.now)) }
        ensures count { IfOk result (λ r. length r.1.items ≡ length shares.now) }
        ensures seats { IfOk result (λ r. AreFirst r.0 r.1.items) }
    {
        let (lanes, place) = LaneTable::open(alloc, machine, shares)?;
        let seats = seat_lanes(alloc, &lanes, place, shares.len() as u32)?;
        Ok((LaneLock { lanes }, seats))
    }

    /// Waits for the turn, applies the step to the machine, and passes the turn on. Takes no memory and
    /// can't be refused. The step is of the seat's lane, which has to have kept fewer events than its share.
    pub fn act<R: Wait>(&self, rt: &R, seat: &mut Seat<M>, step: M::Step) -> M::Answer
        requires ours { IsSeatOf self.now seat.old }
        requires lane { M.lane_of step ≡ seat.old.lane }
        requires fits { M.fits (M.base self.now.first) step }
        requires room { length seat.old.own < slice_index seat.old.shares seat.old.lane }
        ensures same { IsSeatOf self.now seat.new }
        ensures lane { seat.new.lane ≡ seat.old.lane }
        ensures act { Answers (meaning M.base M.history M.spare M.lane_of M.fits M.reply M.keeps)
            (M.base self.now.first) seat.old seat.new step result }
    {
        self.lanes.act(rt, &mut seat.place, step)
    }

    /// The machine, once all seats are back, in the order of their lanes. Takes no memory and can't be refused.
    pub fn close(self, seats: Vec<Seat<M>>) -> M
        requires ours { (k : ℕ) (s : SeatView M M.Step M.Answer) → slice_get seats.items k ≡ Some s → IsSeatOf self s × (s.lane ≡ k) }
        requires all { (length seats.items ≡ length self.shares) × (0 < length self.shares) }
        ensures base { M.base result ≡ M.base self.first }
        ensures legal { IsLegal M.fits M.reply (M.base self.first) [] (M.history result) }
        ensures lanes { AreBelow M.lane_of (length self.shares) (M.history result) }
        ensures seats { (k : ℕ) (s : SeatView M M.Step M.Answer) → slice_get seats.items k ≡ Some s
            → Closes (meaning M.base M.history M.spare M.lane_of M.fits M.reply M.keeps) result k s }
    {
        let LaneLock { lanes } = self;
        let place = gather(&lanes, seats);
        lanes.finish(place)
    }
}

// The seat of the first lane that is left.
fn cut_off<M: Machine>(lanes: &LaneTable<M>, place: &mut Place<M>, lane: u32) -> Seat<M>
    requires ours { place.old.table_id ≡ lanes.now.table.shared.table_id }
    requires left { IsLeft (lock_view lanes.now.table.shared) lane place.old.me }
    requires more { lane + 1 < length lanes.now.table.shared.key.shares.value.items }
    ensures ours { place.new.table_id ≡ lanes.now.table.shared.table_id }
    ensures left { IsLeft (lock_view lanes.now.table.shared) (lane + 1) place.new.me }
    ensures seat { result ≡ first_seat (lock_view lanes.now.table.shared) lane }
{
    Seat::of_place(lanes.split(place), lane)
}

// The seat of the last lane.
fn last_seat<M: Machine>(_lanes: &LaneTable<M>, place: Place<M>, lane: u32) -> Seat<M>
    requires ours { place.table_id ≡ _lanes.now.table.shared.table_id }
    requires left { IsLeft (lock_view _lanes.now.table.shared) lane place.me }
    requires last { length _lanes.now.table.shared.key.shares.value.items ≤ lane + 1 }
    ensures seat { result ≡ first_seat (lock_view _lanes.now.table.shared) lane }
{
    Seat::of_place(place, lane)
}

// A seat for each lane, cut off from one that keeps all.
fn seat_lanes<M: Machine>(
    alloc: Global,
    lanes: &LaneTable<M>,
    mut place: Place<M>,
    count: u32,
) -> Result<Vec<Seat<M>>, AllocError>
    requires ours { place.table_id ≡ lanes.now.table.shared.table_id }
    requires left { IsLeft (lock_view lanes.now.table.shared) 0 place.me }
    requires count { count ≡ length lanes.now.table.shared.key.shares.value.items }
    ensures many { IfOk result (λ v. length v.items ≡ count) }
    ensures seats { IfOk result (λ v. AreFirst (lock_view lanes.now.table.shared) v.items) }
{
    let mut seats = Vec::new(alloc);
    let mut lane: u32 = 0;
    'cut: while lane < count - 1 {
        seats.push(cut_off(lanes, &mut place, lane))?;
        lane += 1;
    }
    seats.push(last_seat(lanes, place, lane))?;
    Ok(seats)
}

// One seat that has taken in all, from the last lane to the first.
fn gather<M: Machine>(lanes: &LaneTable<M>, mut seats: Vec<Seat<M>>) -> Place<M>
    requires ours { InOrder lanes.now.table.shared.table_id seats.items }
    requires some { 0 < length seats.items }
    ensures ours { result.table_id ≡ lanes.now.table.shared.table_id }
    ensures all { Gathered (meaning M.base M.history M.spare M.lane_of M.fits M.reply M.keeps) seats.items 0 result.me }
{
    let Some(last) = seats.pop() else {
        unreachable!()
    };
    let mut place = last.into_place();
    'take_in: while let Some(seat) = seats.pop() {
        lanes.join(&mut place, seat.into_place());
    }
    place
}
