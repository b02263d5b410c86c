ghost use Rattle.std.specs.Prelude.{◌≡◌};
ghost use Rattle.machine_model.specs.Histories.{meaning};
ghost use Rattle.lane_lock.specs.Seats.{seat_view, IsAtRest};
ghost use Rattle.lane_lock.specs.Gathering.{IsPlaceOf};

use crate::lane_table::Place;
use machine_model::Machine;
use std::marker::Model;

/// The right to take steps as one lane of one lock. Contracts see it as its lock, its lane, what it has
/// seen of the history, and its own events. Between two calls it has neither a ticket nor the turn.
#[derive(Drop)]
pub struct Seat<M: Machine> {
    pub(crate) place: Place<M>,
    pub(crate) lane: u32,
}

impl<M: Machine> Model for Seat<M> {
    ghost use Rattle.machine_model.specs.Histories.{meaning};
    ghost use Rattle.lane_lock.specs.Seats.{SeatView, seat_view, IsAtRest};

    ghost Value = { SeatView M M.Step M.Answer };

    ghost view = { λ s. seat_view s.place.table_id s.lane s.place.me };

    ghost invariant = { λ s. IsAtRest (meaning M.base M.history M.spare M.lane_of M.fits M.reply M.keeps) s.lane s.place.me };
}

impl<M: Machine> Seat<M> {
    /// A seat at rest, as callers see it.
    pub(crate) fn of_place(place: Place<M>, lane: u32) -> Seat<M>
        requires rest { IsAtRest (meaning M.base M.history M.spare M.lane_of M.fits M.reply M.keeps) lane place.me }
        ensures seat { result ≡ seat_view place.table_id lane place.me }
    {
        Seat { place, lane }
    }

    /// What stands behind a seat.
    pub(crate) fn into_place(self) -> Place<M>
        ensures place { IsPlaceOf (meaning M.base M.history M.spare M.lane_of M.fits M.reply M.keeps) self result.table_id result.me }
    {
        self.place
    }
}

/// The lane of a seat.
pub fn lane<M: Machine>(seat: &Seat<M>) -> u32
    ensures { result ≡ seat.now.lane }
{
    seat.lane
}
