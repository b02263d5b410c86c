ghost use Rattle.std.specs.Prelude.{◌≡◌};
ghost use Rattle.pool_model.specs.Group.{emptied, settled, home_eq, change_from};

use ddt_entry::{Change, Entry, Home, Key};

/// What a group of this number leaves of a key, by its home before the group and now: a home that the
/// group made and lost again is none, or stands as it stood.
pub fn settled(number: u64, before: Option<Home>, now: Option<Home>) -> Option<Home>
    ensures { result ≡ settled number before now }
{
    match now {
        None => before,
        Some(home) if home.count == 0 && home.birth == number => emptied(before),
        Some(home) => Some(home),
    }
}

/// The change of a key from one home to another: none where both agree in all numbers.
pub fn change_from(key: &Key, before: Option<Home>, now: Option<Home>) -> Option<Change>
    ensures { result ≡ change_from key.now before now }
{
    let home = now?;
    let entry = Entry { key: *key, home };
    match before {
        Some(before) if is_same_home(before, home) => None,
        _ => Some(Change::Entry(entry)),
    }
}

/// A home that stands as it stood, without pointers.
fn emptied(home: Option<Home>) -> Option<Home>
    ensures { result ≡ emptied home }
{
    match home {
        None => None,
        Some(home) => Some(Home { count: 0, ..home }),
    }
}

/// Whether two homes agree in all four numbers.
fn is_same_home(a: Home, b: Home) -> bool
    ensures { result ≡ home_eq a b }
{
    a.place == b.place && a.birth == b.birth && a.since == b.since && a.count == b.count
}
