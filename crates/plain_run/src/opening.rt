ghost use Rattle.std.specs.Prelude.{◌≡◌, ◌==◌, ℕ, List, IfOk, take};
ghost use Rattle.std.specs.List.{find};
ghost use Rattle.std.specs.Option.{option_copied, option_map};
ghost use Rattle.ddt_entry.specs.declared.key.Key.{Key};
ghost use Rattle.pool_model.specs.Table.{found};
ghost use Rattle.ddt_entry.specs.Keys.{key_eq};
ghost use Rattle.pool_model.specs.Command.{known_in_table, home_at, sight_at};
ghost use Rattle.pool_model.specs.Plain.{sight_of};
ghost use Rattle.plain_run.specs.Openings.{bytes_at, opening_by};
ghost use Rattle.plain_run.specs.Placed.{placed_of};

use ddt_entry::{Home, Key, KeyOf};
use plain_pool::{PlainPointer, copied_block};
use plain_table::PlainTable;
use pool_model::{Block, ReadAnswer};
use reserved_list::ReservedList;
use std::alloc::{AllocError, Global};
use std::marker::Model;

/// The bytes at a place.
#[derive(Drop)]
pub struct PlacedBlock {
    pub place: u64,
    pub content: Block,
}

impl Model for PlacedBlock {
    ghost use Rattle.plain_run.specs.Placed.{Placed};

    ghost Value = { Placed };

    ghost view = { λ block. record { place = block.place; content = block.content.items } };
}

impl PlacedBlock {
    /// Another block that says the same.
    fn copied(&self, alloc: Global) -> Result<PlacedBlock, AllocError>
        ensures { IfOk result (λ copy. copy ≡ self.now) }
    {
        Ok(PlacedBlock {
            place: self.place,
            content: copied_block(alloc, &self.content)?,
        })
    }
}

/// What a group finds when it opens: the table, the bytes at the places that are named, the group's
/// number and its moment in seconds.
#[derive(Drop)]
pub struct PlainOpening {
    pub table: PlainTable,
    pub blocks: Vec<PlacedBlock>,
    pub number: u64,
    pub moment: u64,
}

/// A home with its block's bytes.
#[derive(Drop)]
pub struct PlainKnown {
    pub home: Home,
    pub block: Block,
}

impl Model for PlainKnown {
    ghost use Rattle.pool_model.specs.Command.{Known};

    ghost Value = { Known };

    ghost view = { λ known. record { home = known.home; block = known.block.items } };
}

/// The home alone, without its block.
pub fn home_of(known: &Option<PlainKnown>) -> Option<Home>
    ensures { result ≡ option_map (λ known. known.home) known.now }
{
    match known {
        None => None,
        Some(known) => Some(known.home),
    }
}

impl PlainOpening {
    /// The home of a key in the table, with its block's bytes.
    pub fn known_in_table(&self, alloc: Global, key: &Key) -> Result<Option<PlainKnown>, AllocError>
        ensures { (key_of : List ℕ → Key) → IfOk result (λ known.
            known ≡ known_in_table (opening_by key_of self.now) key.now (found self.now.table key.now)) }
    {
        let Some(home) = self.table.found(key) else {
            return Ok(None);
        };
        let bytes = bytes_at(self.blocks.as_slice(), home.place);
        Ok(Some(PlainKnown {
            home,
            block: front_of(alloc, bytes, key.len as usize)?,
        }))
    }
}

/// Other blocks that say the same.
pub fn copied_blocks(alloc: Global, blocks: &[PlacedBlock]) -> Result<Vec<PlacedBlock>, AllocError>
    ensures { IfOk result (λ copies. copies.items ≡ blocks.now) }
{
    let mut copies = Vec::new(alloc);
    for block in blocks {
        copies.push(block.copied(alloc)?)?;
    }
    Ok(copies)
}

/// The bytes at a place, and none where the list doesn't name it.
fn bytes_at(blocks: &[PlacedBlock], place: u64) -> &[u8]
    ensures { result.now ≡ bytes_at blocks.now place }
{
    match block_at(blocks, place) {
        Some(block) => block.content.as_slice(),
        None => &[],
    }
}

/// The first block that the list names for a place.
fn block_at(blocks: &[PlacedBlock], place: u64) -> Option<&PlacedBlock>
    ensures { option_copied result ≡ find (λ block. block.place == place) blocks.now }
{
    blocks.iter().find(|block| block.place == place)
}

/// The first so many of some bytes.
fn front_of(alloc: Global, bytes: &[u8], most: usize) -> Result<Block, AllocError>
    ensures { IfOk result (λ front. front.items ≡ take most bytes.now) }
{
    let front = &bytes[..most.min(bytes.len())];
    Ok(ReservedList::from_vec(Vec::from_slice(alloc, front)?))
}

/// A pointer's home, where so many pointers share it, with its block's bytes.
pub fn known_at(alloc: Global, pointer: &PlainPointer, count: u64) -> Result<PlainKnown, AllocError>
    ensures { IfOk result (λ known.
        known ≡ record { home = home_at pointer.now count; block = pointer.now.content }) }
{
    let home = Home {
        place: pointer.place,
        birth: pointer.birth,
        since: pointer.since(),
        count,
    };
    Ok(PlainKnown {
        home,
        block: copied_block(alloc, &pointer.content)?,
    })
}

/// A pointer's bytes at its place.
pub fn placed(alloc: Global, pointer: &PlainPointer) -> Result<PlacedBlock, AllocError>
    ensures { IfOk result (λ block. block ≡ placed_of pointer.now) }
{
    Ok(PlacedBlock {
        place: pointer.place,
        content: copied_block(alloc, &pointer.content)?,
    })
}

/// What a read of a pointer tells, where reads of the device have failed or not.
pub fn sight<K: KeyOf>(
    alloc: Global,
    keyer: &K,
    pointer: &PlainPointer,
    _opening: &PlainOpening,
    failed: bool,
) -> Result<ReadAnswer, AllocError>
    ensures { IfOk result (λ sight. sight_of sight
        ≡ sight_at (Some pointer.now) (opening_by (K.keying keyer.now).key_of _opening.now) failed) }
{
    if failed {
        return Ok(ReadAnswer::Fault);
    }
    if !has_its_key(keyer, pointer) {
        return Ok(ReadAnswer::Damaged(pointer.place));
    }
    Ok(ReadAnswer::Bytes(copied_block(alloc, &pointer.content)?))
}

/// Whether a pointer's content has its key. One of another length never has.
fn has_its_key<K: KeyOf>(keyer: &K, pointer: &PlainPointer) -> bool
    ensures { result ≡ key_eq ((K.keying keyer.now).key_of pointer.now.content) pointer.now.key }
{
    if pointer.content.len() != u64::from(pointer.key.len) {
        return false;
    }
    keyer.key(pointer.content.as_slice()) == pointer.key
}
