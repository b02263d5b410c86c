//! The steps of the lock on its words and its slot, each with what it tells the seat that takes it.
ghost use Rattle.std.specs.Prelude.{◌≡◌, ℕ, ◌<◌, ◌≤◌, true, [], length, sum, slice_index, MatchBool, Some, IfOk};
ghost use Rattle.machine_model.specs.Histories.{meaning};
ghost use Rattle.lane_lock.specs.declared.view.Stage.TheVariants.{Idle, Waits};
ghost use Rattle.lane_lock.specs.Rules.{has, opening_of, newcomer};
ghost use Rattle.lane_lock.specs.Gathering.{CanSplit, Ended};
ghost use Rattle.lane_lock.specs.Seats.{seat_view, IsAtRest, Answers};
ghost use Rattle.lane_lock.specs.Steps.{drew, keeping, given, joined, HasTurn, passed, holding, CanPass, HasApplied, IsSame, IsTold};

use crate::turns::{Draw, GiveLane, Look, Pass, TakeIn, Turns};
use crate::view::{Start, View};
use atomic_table::{Seat, Table};
use crossbeam_utils::Backoff;
use machine_model::Machine;
use std::alloc::{AllocError, Global};
use std::snapshot::Snapshot;
use std::sync::Wait;

/// The word with the ticket that is drawn next.
const NEXT: usize = 0;

/// The word with the ticket that is served.
const SERVED: usize = 1;

/// The slot of the machine.
const MACHINE: usize = 0;

/// A seat at the table.
pub type Place<M> = Seat<Option<M>, View<M, <M as Machine>::Step, <M as Machine>::Answer>>;

/// The words and the slot.
#[derive(Drop)]
pub struct LaneTable<M: Machine> {
    pub table: Table<Option<M>, View<M, M::Step, M::Answer>, Start<M>, Turns<M>, Global>,
    ghost sized: { (table.shared.table_id.words ≡ 2) × (table.shared.table_id.slots ≡ 1) },
}

impl<M: Machine> LaneTable<M> {
    /// Draws a ticket.
    fn draw(&self, place: &mut Place<M>) -> u64
        requires ours { place.old.table_id ≡ self.now.table.shared.table_id }
        requires idle { place.old.me.0.stage ≡ Idle }
        requires lanes { 0 < length place.old.me.0.lanes }
        ensures same { IsSame place.old place.new }
        ensures drew { drew place.old.me result place.new.me }
    {
        self.table.shared.fetch_add::<Draw>(place, NEXT, 1)
    }

    /// Whether the ticket is served. If so the seat has the machine in hand.
    fn look(&self, place: &mut Place<M>, ticket: u64) -> bool
        requires ours { place.old.table_id ≡ self.now.table.shared.table_id }
        requires waits { (place.old.me.0.stage ≡ Waits ticket) × (place.old.me.1 ≡ []) }
        ensures same { IsSame place.old place.new }
        ensures turn { MatchBool result
            (HasTurn (meaning M.base M.history M.spare M.lane_of M.fits M.reply M.keeps) place.old.me.0 place.new.me)
            (place.new.me ≡ place.old.me) }
    {
        self.table.shared.load::<Look<M>>(place, SERVED) == ticket
    }

    /// Waits for the turn.
    pub fn take_turn<R: Wait>(&self, rt: &R, place: &mut Place<M>)
        requires ours { place.old.table_id ≡ self.now.table.shared.table_id }
        requires idle { (place.old.me.0.stage ≡ Idle) × (place.old.me.1 ≡ []) }
        requires lanes { 0 < length place.old.me.0.lanes }
        ensures same { IsSame place.old place.new }
        ensures turn { HasTurn (meaning M.base M.history M.spare M.lane_of M.fits M.reply M.keeps) place.old.me.0 place.new.me }
    {
        let ticket = self.draw(place);
        let backoff = Backoff::new();
        for _ in rt.forever() {
            if self.look(place, ticket) {
                return;
            }
            backoff.snooze();
        }
        unreachable!()
    }

    /// Applies a step to the machine in hand.
    pub fn apply_in_hand(&self, place: &mut Place<M>, step: M::Step) -> M::Answer
        requires ours { place.old.table_id ≡ self.now.table.shared.table_id }
        requires can { (now : M) × (place.old.me.1 ≡ holding now) × M.fits (M.base now) step × (0 < M.spare now) }
        ensures same { IsSame place.old place.new }
        ensures applied { HasApplied (meaning M.base M.history M.spare M.lane_of M.fits M.reply M.keeps) step result place.old.me
            place.new.me }
    {
        let Some(mut machine) = self.table.shared.exchange(place, MACHINE, None) else {
            unreachable!()
        };
        let answer = machine.apply(step);
        let None = self.table.shared.exchange(place, MACHINE, Some(machine)) else {
            unreachable!()
        };
        answer
    }

    /// Gives the machine back and passes the turn on.
    pub fn pass(&self, place: &mut Place<M>)
        requires ours { place.old.table_id ≡ self.now.table.shared.table_id }
        requires can { CanPass (meaning M.base M.history M.spare M.lane_of M.fits M.reply M.keeps) place.old.me }
        ensures same { IsSame place.old place.new }
        ensures passed { passed (meaning M.base M.history M.spare M.lane_of M.fits M.reply M.keeps) place.old.me place.new.me }
    {
        self.table.shared.fetch_add::<Pass<M>>(place, SERVED, 1);
    }

    /// Takes a turn with one step.
    pub fn act<R: Wait>(&self, rt: &R, place: &mut Place<M>, step: M::Step) -> M::Answer
        requires ours { place.old.table_id ≡ self.now.table.shared.table_id }
        requires rest { IsAtRest (meaning M.base M.history M.spare M.lane_of M.fits M.reply M.keeps) (M.lane_of step) place.old.me }
        requires told { place.old.me.0.origin ≡ Some self.now.table.shared.key.machine.value }
        requires fits { M.fits (M.base self.now.table.shared.key.machine.value) step }
        requires room { length place.old.me.0.own < slice_index place.old.me.0.shares (M.lane_of step) }
        ensures same { IsSame place.old place.new }
        ensures told { IsTold place.old.me.0 place.new.me.0 }
        ensures rest { IsAtRest (meaning M.base M.history M.spare M.lane_of M.fits M.reply M.keeps) (M.lane_of step) place.new.me }
        ensures act { Answers (meaning M.base M.history M.spare M.lane_of M.fits M.reply M.keeps)
            (M.base self.now.table.shared.key.machine.value) (seat_view place.old.table_id (M.lane_of step) place.old.me)
            (seat_view place.new.table_id (M.lane_of step) place.new.me) step result }
    {
        self.take_turn(rt, place);
        let answer = self.apply_in_hand(place, step);
        self.pass(place);
        answer
    }

    /// The words and the slot, with a seat that keeps all lanes.
    pub fn open(
        alloc: Global,
        machine: M,
        shares: &[u64],
    ) -> Result<(LaneTable<M>, Place<M>), AllocError>
        requires fresh { (M.history machine ≡ []) × (sum shares.now ≤ M.spare machine) }
        requires few { length shares.now ≤ 16 }
        ensures key { IfOk result (λ r. (r.0.table.shared.key.machine.value ≡ machine)
            × (r.0.table.shared.key.shares.value.items ≡ shares.now)) }
        ensures place { IfOk result (λ r. (r.1.table_id ≡ r.0.table.shared.table_id)
            × (r.1.me ≡ (newcomer (opening_of machine shares.now), []))) }
    {
        let mut kept = Vec::new(alloc);
        kept.extend_from_slice(shares)?;
        let start = Start {
            machine: Snapshot::of(&machine),
            shares: Snapshot::of(&kept),
        };
        let mut slots = Vec::new(alloc);
        slots.push(Some(machine))?;
        let Ok((table, place)) = Table::new(alloc, &[0, 0], slots, &start) else {
            return Err(AllocError);
        };
        Ok((LaneTable { table }, place))
    }

    /// A seat that keeps the first lane, which the other gives away.
    pub fn split(&self, place: &mut Place<M>) -> Place<M>
        requires ours { place.old.table_id ≡ self.now.table.shared.table_id }
        requires can { CanSplit place.old.me.0 }
        ensures same { IsSame place.old place.new }
        ensures kept { place.new.me ≡ (keeping place.old.me.0, place.old.me.1) }
        ensures given { (result.table_id ≡ place.old.table_id) × (result.me ≡ (given place.old.me.0, [])) }
    {
        self.table.shared.split_seat::<GiveLane>(place)
    }

    /// Takes in another seat, with its lanes and events.
    pub fn join(&self, place: &mut Place<M>, other: Place<M>)
        requires ours { (place.old.table_id ≡ self.now.table.shared.table_id) × (other.table_id ≡ self.now.table.shared.table_id) }
        requires idle { (place.old.me.0.stage ≡ Idle) × (other.me.0.stage ≡ Idle) × (other.me.1 ≡ []) }
        requires lanes { 0 < length place.old.me.0.lanes }
        ensures same { IsSame place.old place.new }
        ensures joined { place.new.me ≡ (joined place.old.me.0 other.me.0, place.old.me.1) }
    {
        self.table.shared.join_seat::<TakeIn>(place, other);
    }

    /// The machine, once one seat keeps all lanes.
    pub fn finish(self, place: Place<M>) -> M
        requires ours { place.table_id ≡ self.table.shared.table_id }
        requires idle { place.me.0.stage ≡ Idle }
        requires all { (l : ℕ) → l < length self.table.shared.key.shares.value.items → has l place.me.0.lanes ≡ true }
        ensures ended { Ended (meaning M.base M.history M.spare M.lane_of M.fits M.reply M.keeps)
            (opening_of self.table.shared.key.machine.value self.table.shared.key.shares.value.items) place.me.0 result }
    {
        let LaneTable { table } = self;
        let mut closed = table.close_with(place);
        let Some(machine) = closed.take(MACHINE) else {
            unreachable!()
        };
        closed.free();
        machine
    }
}
