//! A change as 72 bytes, and back.

ghost use Rattle.std.specs.Prelude.{◌≡◌};
ghost use Rattle.ddt_entry.specs.Changes.{key_in};
ghost use Rattle.ddt_entry.specs.Records.{fields_in, change_of, change_in};
ghost use Rattle.ddt_entry.specs.Spelling.{spelled, record_bytes, IsKeyLength, KeyFits, HomeFits, Fits};

use crate::entry::{Change, Entry, Home};
use crate::fields::{array_at, u32_at, u64_at};
use crate::key::Key;

/// The bytes of a record.
pub const RECORD_BYTES: usize = 72;

/// The most bytes that a block has.
pub const MAX_BLOCK_BYTES: u32 = 4_096;

/// The kind of a record that says an entry.
const ENTRY: u32 = 1;

/// The kind of a record that says that a key has gone.
const GONE: u32 = 2;

/// What stands in place of the home of a key that has gone.
const NO_HOME: Home = Home {
    place: 0,
    birth: 0,
    since: 0,
    count: 0,
};

/// The bytes are no change.
#[derive(Clone, Copy, Debug, PartialEq, Eq)]
pub struct Malformed;

/// The key that the fields say.
fn key_at(from: &[u8; RECORD_BYTES]) -> Key
    ensures { result ≡ (fields_in from.now).key }
{
    Key {
        digest: array_at(from, 8),
        len: u32_at(from, 4),
    }
}

/// The home that the fields say.
fn home_at(from: &[u8; RECORD_BYTES]) -> Home
    ensures { result ≡ (fields_in from.now).home }
{
    Home {
        place: u64_at(from, 40),
        birth: u64_at(from, 48),
        since: u64_at(from, 56),
        count: u64_at(from, 64),
    }
}

/// The change that fields say. `Malformed` where the key's length isn't from 1 to 4,096, where the kind is neither 1
/// nor 2, and where a key that has gone has another number than 0 behind it.
fn change_said(kind: u32, key: Key, home: Home) -> Result<Change, Malformed>
    ensures { result ≡ change_of (record { kind = kind; key = key; home = home }) }
{
    if key.len < 1 || key.len > MAX_BLOCK_BYTES {
        return Err(Malformed);
    }
    match kind {
        ENTRY => Ok(Change::Entry(Entry { key, home })),
        GONE if home == NO_HOME => Ok(Change::Gone(key)),
        _ => Err(Malformed),
    }
}

/// The change that a record says. `Malformed` where the key's length isn't from 1 to 4,096, where the kind is neither
/// 1 nor 2, and where a key that has gone has another number than 0 behind it. Takes no memory.
pub fn read_change(from: &[u8; RECORD_BYTES]) -> Result<Change, Malformed>
    ensures { result ≡ change_in from.now }
{
    change_said(u32_at(from, 0), key_at(from), home_at(from))
}

/// Writes the seven fields, one behind the other.
#[tactic(auto, unfolding(crate::specs::Bytes::number_bytes))]
fn write_fields(kind: u32, key: &Key, home: &Home, out: &mut [u8; RECORD_BYTES])
    ensures { out.new ≡ spelled (record { kind = kind; key = key.now; home = home.now }) }
{
    let (field, rest) = out.split_at_mut(4);
    field.copy_from_slice(&kind.to_le_bytes());
    let (field, rest) = rest.split_at_mut(4);
    field.copy_from_slice(&key.len.to_le_bytes());
    let (field, rest) = rest.split_at_mut(32);
    field.copy_from_slice(&key.digest);
    let (field, rest) = rest.split_at_mut(8);
    field.copy_from_slice(&home.place.to_le_bytes());
    let (field, rest) = rest.split_at_mut(8);
    field.copy_from_slice(&home.birth.to_le_bytes());
    let (field, rest) = rest.split_at_mut(8);
    field.copy_from_slice(&home.since.to_le_bytes());
    rest.copy_from_slice(&home.count.to_le_bytes());
}

/// Writes the one record of a change whose key's length is from 1 to 4,096. Takes no memory.
pub fn write_change(change: &Change, out: &mut [u8; RECORD_BYTES])
    requires { IsKeyLength (key_in change.now).len }
    ensures { out.new ≡ record_bytes change.now }
{
    match change {
        Change::Entry(entry) => write_fields(ENTRY, &entry.key, &entry.home, out),
        Change::Gone(key) => write_fields(GONE, key, &NO_HOME, out),
    }
}

/// A key by value fits, since its types say so; behind a reference the checker doesn't see it.
fn key_fits(key: Key)
    ensures { KeyFits key }
{}

/// The same of a home.
fn home_fits(home: Home)
    ensures { HomeFits home }
{}

/// Each part of a change fits its field, for whoever has a change at hand and wants a law of its record. It does
/// nothing.
pub fn change_fits(change: Change)
    ensures { Fits change }
{
    match change {
        Change::Entry(entry) => {
            key_fits(entry.key);
            home_fits(entry.home);
        }
        Change::Gone(key) => key_fits(key),
    }
}
