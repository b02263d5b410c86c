ghost use Rattle.std.specs.Prelude.{◌≡◌, slice_set};
ghost use Rattle.pool_model.specs.Command.{first_of, rest_of, next_fresh, take_fresh};

use std::marker::Model;

/// The fresh places that a lane has left, in the order in which it takes them.
#[derive(Drop)]
pub struct PlaceQueue {
    pub places: Vec<u64>,
}

impl Model for PlaceQueue {
    ghost use Rattle.std.specs.Prelude.{ℕ, List};

    ghost Value = { List ℕ };

    ghost view = { λ queue. queue.places.items };
}

impl PlaceQueue {
    /// The next place; there is none at 0, which is never free.
    fn first(&self) -> u64
        ensures { result ≡ first_of self.now }
    {
        self.places.first().copied().unwrap_or(0)
    }

    /// Takes the next place off.
    fn drop_first(&mut self)
        ensures { self.new ≡ rest_of self.old }
    {
        if !self.places.is_empty() {
            let _first = self.places.remove(0);
        }
    }
}

/// The next fresh place of a lane, and 0 where it has none.
pub fn next_fresh(fresh: &[PlaceQueue], lane: u32) -> u64
    ensures { result ≡ next_fresh lane fresh.now }
{
    match fresh.get(lane as usize) {
        Some(queue) => queue.first(),
        None => 0,
    }
}

/// The fresh places without the next one of a lane.
pub fn take_fresh(mut fresh: Vec<PlaceQueue>, lane: u32) -> Vec<PlaceQueue>
    ensures { result.items ≡ take_fresh lane fresh.items }
{
    if (lane as usize) < fresh.len() {
        fresh[lane as usize].drop_first();
    }
    fresh
}

/// The fresh places of all lanes, with these in a lane's place.
pub fn set_places(mut fresh: Vec<PlaceQueue>, lane: u32, queue: PlaceQueue) -> Vec<PlaceQueue>
    ensures { result.items ≡ slice_set fresh.items lane queue }
{
    if (lane as usize) < fresh.len() {
        fresh[lane as usize] = queue;
    }
    fresh
}
