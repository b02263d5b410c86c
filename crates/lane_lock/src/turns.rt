//! The rule of the lock, and what each of its steps tells.
ghost use Rattle.machine_model.specs.Histories.{meaning};
ghost use Rattle.lane_lock.specs.Rules.{Ruled, opening_of, newcomer};
ghost use Rattle.lane_lock.specs.Steps.{drew, looked, passed, keeping, given, joined, spent};

use crate::view::{Start, View};
use atomic_table::{Join, Play, Split, TableRule};
use machine_model::Machine;
use std::marker::PhantomData;

/// The rule, for one kind of machine.
pub struct Turns<M> {
    machine: PhantomData<M>,
}

impl<M: Machine> TableRule<Option<M>, View<M, M::Step, M::Answer>, Start<M>> for Turns<M> {
    ghost holds = { λ key. Ruled (meaning M.base M.history M.spare M.lane_of M.fits M.reply M.keeps)
        (opening_of key.machine.value key.shares.value.items) };

    ghost first = { λ key. newcomer (opening_of key.machine.value key.shares.value.items) };
}

/// A ticket is drawn.
pub struct Draw;

impl<M, S, A> Play<Option<M>, View<M, S, A>> for Draw {
    ghost then = { λ st m r m'. drew m r m' };
}

/// The word is read that says which ticket is served.
pub struct Look<M> {
    machine: PhantomData<M>,
}

impl<M: Machine> Play<Option<M>, View<M, M::Step, M::Answer>> for Look<M> {
    ghost then = { λ st m r m'. looked (meaning M.base M.history M.spare M.lane_of M.fits M.reply M.keeps) m r m' };
}

/// The turn is passed on, and the machine goes back.
pub struct Pass<M> {
    machine: PhantomData<M>,
}

impl<M: Machine> Play<Option<M>, View<M, M::Step, M::Answer>> for Pass<M> {
    ghost then = { λ st m r m'. passed (meaning M.base M.history M.spare M.lane_of M.fits M.reply M.keeps) m m' };
}

/// A seat gives its first lane away.
pub struct GiveLane;

impl<M, S, A> Split<View<M, S, A>> for GiveLane {
    ghost left = { keeping };

    ghost right = { given };
}

/// A seat takes in another.
pub struct TakeIn;

impl<M, S, A> Join<View<M, S, A>> for TakeIn {
    ghost both = { joined };

    ghost spent = { spent };
}
