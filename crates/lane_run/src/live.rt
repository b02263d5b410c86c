ghost use Rattle.std.specs.Prelude.{◌≡◌, ℕ, ◌+◌, ◌<◌, ◌^◌, ◌++◌, [], ◌∷◌, List, length, map, IfOk, OnOk};
ghost use Rattle.std.specs.List.{list_any};
ghost use Rattle.pool_model.specs.Pool.{tracked};
ghost use Rattle.pool_model.specs.Plain.{reply_of, to_write};
ghost use Rattle.pool_model.specs.Mirrors.{stored_of};
ghost use Rattle.pool_model.specs.Command.{at_home, at_fresh};
ghost use Rattle.table_state.specs.Slots.{kind_of};
ghost use Rattle.home_rules.specs.Rows.{mark_since, spot_of};
ghost use Rattle.slot_table.specs.Slots.{is_slot_at};
ghost use Rattle.lane_run.specs.Live.{home_here, put_at, brought, with_first, noted, is_taken, is_change_at, IsShareable};

use ddt_entry::{Home, Key, Pointer, SlotKind};
use home_rules::Spot;
use plain_table::HomeMap;
use pool_model::{
    Answers, Block, CommandAnswer, Contents, SlotChange, SlotChanges, StoredBlock, WriteAnswer,
};
use reserved_list::ReservedList;
use slot_table::{SlotMap, SlotPlace};
use std::alloc::{AllocError, Global};
use std::marker::Model;
use table_state::Pool;

/// What a group has come to, beside the pool as the newest sealed group left it.
#[derive(Drop)]
pub struct LiveGroup {
    /// The changes of the slots, in the order of the writes.
    pub slots: SlotChanges,
    /// The blocks that were stored, each at the next fresh place.
    pub contents: Contents,
    /// The homes that the group made or changed, each key once.
    pub homes: HomeMap,
    /// The keys that were named, in the order of the writes.
    pub named: Vec<Key>,
    /// How many keys are counted.
    pub keys: u64,
    pub answers: Answers,
}

impl Model for LiveGroup {
    ghost use Rattle.lane_run.specs.Live.{Live};
    ghost use Rattle.std.specs.Prelude.{map};
    ghost use Rattle.pool_model.specs.Plain.{reply_of};
    ghost use Rattle.pool_model.specs.Mirrors.{stored_of};

    ghost Value = { Live };

    ghost view = { λ live. record {
      slots = live.slots.items;
      contents = map stored_of live.contents.items;
      homes = live.homes;
      named = live.named.items;
      keys = live.keys;
      replies = map reply_of live.answers.items;
    } };
}

/// Appends an item to a list. The error is want of memory, and comes only where the list has no room.
fn append<T: Drop>(list: &mut ReservedList<T>, value: T) -> Result<(), AllocError>
    ensures { OnOk result (list.new.items ≡ list.old.items ++ value ∷ []) }
{
    list.reserve(1)?;
    list.push(value);
    Ok(())
}

/// Whether a slot of lane 0 holds a pointer in the pool.
fn is_held(slots: &SlotMap, slot: u32) -> bool
    ensures { result ≡ list_any (is_slot_at 0 slot) slots.now }
{
    slots.get(SlotPlace { lane: 0, slot }).is_some()
}

/// Whether the group brought a pointer to a slot of lane 0.
fn is_brought(changes: &[SlotChange], slot: u32) -> bool
    ensures { result ≡ list_any (is_change_at slot) changes.now }
{
    changes
        .iter()
        .any(|change| change.lane == 0 && change.slot == slot)
}

/// The change that brings a pointer to a slot of lane 0.
fn brought(slot: u32, key: Key, place: u64, birth: u64, kind: SlotKind) -> SlotChange
    ensures { result ≡ record { lane = 0; slot = slot; pointer = Some (record { kind = kind; key = key; place = place; birth = birth }) } }
{
    SlotChange {
        lane: 0,
        slot,
        pointer: Some(Pointer {
            kind,
            key,
            place,
            birth,
        }),
    }
}

impl LiveGroup {
    /// A group before its first write, in a pool with so many counted keys. There is room for so many writes; the
    /// error is want of memory.
    pub fn opened(alloc: Global, keys: u64, room: u64) -> Result<LiveGroup, AllocError>
        ensures { IfOk result (λ live. live ≡ record { slots = []; contents = []; homes = []; named = []; keys = keys; replies = [] }) }
    {
        let mut slots = SlotChanges::new(alloc);
        slots.reserve(room)?;
        let mut contents = Contents::new(alloc);
        contents.reserve(room)?;
        let mut named = Vec::new(alloc);
        named.reserve(room as usize)?;
        let mut answers = Answers::new(alloc);
        answers.reserve(room)?;
        Ok(LiveGroup {
            slots,
            contents,
            homes: HomeMap::new(alloc),
            named,
            keys,
            answers,
        })
    }

    /// The home of a key: the group's, or else the table's.
    pub fn home_of(&self, pool: &Pool, key: &Key) -> Option<Home>
        ensures { result ≡ home_here pool.now.table self.now.homes key.now }
    {
        match self.homes.find(key) {
            Some(home) => Some(home),
            None => pool.table.found(key),
        }
    }

    /// Whether a slot of lane 0 holds a pointer.
    pub fn is_taken(&self, pool: &Pool, slot: u32) -> bool
        ensures { result ≡ is_taken pool.now self.now slot }
    {
        is_held(&pool.slots, slot) || is_brought(self.slots.as_slice(), slot)
    }

    /// With a pointer at a home that the key has, counted since this moment. The error is want of memory.
    pub fn at_home(
        mut self,
        slot: u32,
        key: Key,
        home: Home,
        since: u64,
    ) -> Result<LiveGroup, AllocError>
        requires count_fits { home.count < 2 ^ 63 }
        requires keys_fit { self.keys < 2 ^ 63 }
        ensures { (number place : ℕ) (content : List ℕ) → IfOk result (λ next.
            next ≡ put_at number place slot key content self (at_home home (tracked since))) }
    {
        let change = brought(slot, key, home.place, home.birth, SlotKind::Flagged);
        append(&mut self.slots, change)?;
        if home.count == 0 {
            self.keys += 1;
        }
        let home = Home {
            since,
            count: home.count + 1,
            ..home
        };
        self.homes.set(&key, home)?;
        Ok(self)
    }

    /// With a pointer and its block at a fresh place, in the group of this number, counted since this moment
    /// or not at all. The error is want of memory.
    pub fn at_fresh(
        mut self,
        slot: u32,
        key: Key,
        block: Block,
        place: u64,
        number: u64,
        since: Option<u64>,
    ) -> Result<LiveGroup, AllocError>
        requires { self.keys < 2 ^ 63 }
        ensures { IfOk result (λ next. next ≡ put_at number place slot key block.items self (at_fresh (mark_since since))) }
    {
        let kind = kind_since(since);
        append(&mut self.slots, brought(slot, key, place, number, kind))?;
        append(&mut self.contents, StoredBlock { place, block })?;
        let Some(since) = since else {
            return Ok(self);
        };
        let home = Home {
            place,
            birth: number,
            since,
            count: 1,
        };
        self.keys += 1;
        self.homes.set(&key, home)?;
        Ok(self)
    }

    /// With a key named, where the lane uses the table, and an answer. The error is want of memory.
    pub fn noted(
        mut self,
        uses_table: bool,
        key: Key,
        answer: WriteAnswer,
    ) -> Result<LiveGroup, AllocError>
        ensures { IfOk result (λ next. next ≡ noted uses_table key (to_write answer) self) }
    {
        if uses_table {
            self.named.push(key)?;
        }
        append(&mut self.answers, CommandAnswer::Write(answer))?;
        Ok(self)
    }

    /// With a write's pointer at its spot. The error is want of memory.
    pub fn put_at(
        self,
        slot: u32,
        key: Key,
        block: Block,
        place: u64,
        number: u64,
        spot: Spot,
    ) -> Result<LiveGroup, AllocError>
        requires count_fits { IsShareable (spot_of spot) }
        requires keys_fit { self.keys < 2 ^ 63 }
        ensures { IfOk result (λ next. next ≡ put_at number place slot key block.items self (spot_of spot)) }
    {
        match spot {
            Spot::Nowhere => Ok(self),
            Spot::AtHome { home, since } => self.at_home(slot, key, home, since),
            Spot::AtFresh { since } => self.at_fresh(slot, key, block, place, number, since),
        }
    }
}

/// How the slot's pointer is kept that the table counts since a moment, or not at all.
fn kind_since(since: Option<u64>) -> SlotKind
    ensures { result ≡ kind_of (mark_since since) }
{
    match since {
        None => SlotKind::Plain,
        Some(_) => SlotKind::Flagged,
    }
}
