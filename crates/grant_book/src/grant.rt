ghost use Rattle.std.specs.Prelude.{◌≡◌, ◌<◌, ◌^◌, [], ◌∷◌, length, slice_get, IfSome, IfNone};

use crate::PlaceList;
use std::marker::Model;

/// Places that were given out and not taken yet, in rising order.
#[derive(Drop)]
pub struct Grant {
    places: PlaceList,
    taken: u64,
}

impl Model for Grant {
    ghost use Rattle.std.specs.Prelude.{ℕ, ◌≤◌, List, length, drop};

    ghost Value = { List ℕ };

    ghost view = { λ grant. drop grant.taken grant.places.items };

    ghost invariant = { λ grant. grant.taken ≤ length grant.places.items };
}

/// There are fewer places than memory could name. It does nothing.
fn is_small(places: &PlaceList)
    ensures { length places.now.items < 2 ^ 64 }
{
    let _count = places.len();
}

impl Grant {
    /// The grant of these places.
    pub(crate) fn of_places(places: PlaceList) -> Grant
        ensures { result ≡ places.items }
    {
        Grant { places, taken: 0 }
    }

    /// The places that weren't taken.
    pub(crate) fn rest(&self) -> &[u64]
        ensures { result.now ≡ self.now }
    {
        self.places.as_slice().split_at(self.taken as usize).1
    }

    /// Takes the next place, or answers `None` where all were taken.
    pub fn take(&mut self) -> Option<u64>
        ensures next { IfSome result (λ place. self.old ≡ place ∷ self.new) }
        ensures empty { IfNone result ((self.old ≡ []) × (self.new ≡ [])) }
    {
        let next = self.peek()?;
        is_small(&self.places);
        self.taken += 1;
        Some(next)
    }

    /// What the next `take` gives.
    pub fn peek(&self) -> Option<u64>
        ensures { result ≡ slice_get self.now 0 }
    {
        self.places.get(self.taken).copied()
    }
}
