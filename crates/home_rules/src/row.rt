ghost use Rattle.std.specs.Prelude.{◌≡◌, ℕ, Bool, List, Option, ◌<◌};
ghost use Rattle.std.specs.Option.{option_map};
ghost use Rattle.ddt_entry.specs.declared.key.Key.{Key};
ghost use Rattle.pool_model.specs.declared.answers.WriteAnswer.TheVariants as written;
ghost use Rattle.pool_model.specs.Pool.{plain};
ghost use Rattle.pool_model.specs.Command.{Known, nowhere, at_fresh, row, new_row, home_row, table_row, verify_row};
ghost use Rattle.home_rules.specs.Rows.{row_of, IsCompared};

use ddt_entry::Home;
use pool_model::WriteAnswer;

/// Where a write puts its pointer. Moments are in seconds.
#[derive(Clone, Copy)]
pub enum Spot {
    Nowhere,
    /// At this home, and the table counts it since this moment.
    AtHome { home: Home, since: u64 },
    /// At a fresh place; the table counts it since this moment, or not at all.
    AtFresh { since: Option<u64> },
}

/// What a write answers, and where its pointer goes.
#[derive(Clone, Copy)]
pub struct Row {
    pub answer: WriteAnswer,
    pub spot: Spot,
}

/// The slot holds a pointer already.
pub fn taken_row() -> Row
    ensures { row_of result ≡ row written.Taken nowhere }
{
    Row {
        answer: WriteAnswer::Taken,
        spot: Spot::Nowhere,
    }
}

/// The lane doesn't use the table.
pub fn off_row() -> Row
    ensures { row_of result ≡ row written.Off (at_fresh plain) }
{
    Row {
        answer: WriteAnswer::Off,
        spot: Spot::AtFresh { since: None },
    }
}

/// A read of the device failed.
pub fn fault_row() -> Row
    ensures { row_of result ≡ row written.Fault nowhere }
{
    Row {
        answer: WriteAnswer::Fault,
        spot: Spot::Nowhere,
    }
}

/// Without a home: a new one, where the quota allows it.
pub fn new_row(allowed: bool, moment: u64) -> Row
    ensures { row_of result ≡ new_row allowed moment }
{
    if allowed {
        Row {
            answer: WriteAnswer::New,
            spot: Spot::AtFresh {
                since: Some(moment),
            },
        }
    } else {
        Row {
            answer: WriteAnswer::Quota,
            spot: Spot::AtFresh { since: None },
        }
    }
}

/// With a home whose block may be shared, or not.
pub fn home_row(home: Home, same: bool, allowed: bool, moment: u64) -> Row
    ensures { row_of result ≡ home_row home same allowed moment }
{
    if home.count > 0 {
        return counted_row(home, same);
    }
    if !allowed {
        return Row {
            answer: WriteAnswer::Quota,
            spot: Spot::AtFresh { since: None },
        };
    }
    Row {
        answer: WriteAnswer::New,
        spot: if same {
            Spot::AtHome {
                home,
                since: moment,
            }
        } else {
            Spot::AtFresh {
                since: Some(moment),
            }
        },
    }
}

/// With a home that is counted, whose block may be shared, or not.
fn counted_row(home: Home, same: bool) -> Row
    requires { 0 < home.count }
    ensures { (allowed : Bool) (moment : ℕ) → row_of result ≡ home_row home same allowed moment }
{
    if same {
        Row {
            answer: WriteAnswer::Hit,
            spot: Spot::AtHome {
                home,
                since: home.since,
            },
        }
    } else {
        Row {
            answer: WriteAnswer::Clash,
            spot: Spot::AtFresh { since: None },
        }
    }
}

/// By the key alone, with the home that it has.
pub fn table_row(home: Option<Home>, allowed: bool, moment: u64) -> Row
    ensures { (known : Option Known) → option_map (λ known. known.home) known ≡ home
        → row_of result ≡ table_row known allowed moment }
{
    match home {
        None => new_row(allowed, moment),
        Some(home) => home_row(home, true, allowed, moment),
    }
}

/// By the key and the bytes. The caller has compared the home's block with the content: whether it has
/// the content's key at all, and whether it is the same. Without a home neither is looked at.
pub fn verified_row(
    home: Option<Home>,
    has_key: bool,
    same: bool,
    allowed: bool,
    moment: u64,
) -> Row
    ensures { (key_of : List ℕ → Key) (known : Option Known) (content : List ℕ)
        → option_map (λ known. known.home) known ≡ home → IsCompared key_of known content has_key same
        → row_of result ≡ verify_row key_of known content allowed moment }
{
    let Some(home) = home else {
        return new_row(allowed, moment);
    };
    if has_key {
        home_row(home, same, allowed, moment)
    } else {
        Row {
            answer: WriteAnswer::Damaged(home.place),
            spot: Spot::Nowhere,
        }
    }
}
