ghost use Rattle.std.specs.Prelude.{◌≡◌, ◌^◌, ◌<◌, length};
ghost use Rattle.ddt_entry.specs.Keys.{key_eq};
ghost use Rattle.pool_model.specs.Command.{verify_row, mode_row};
ghost use Rattle.home_rules.specs.Rows.{row_of};
ghost use Rattle.plain_run.specs.Openings.{opening_by};

use crate::opening::{PlainKnown, PlainOpening, home_of};
use ddt_entry::KeyOf;
use home_rules::{Row, fault_row, new_row, off_row, table_row, verified_row};
use pool_model::Mode;

/// By the key and the bytes: the home's block must have the key at all, and only equal bytes are shared.
fn verify_row<K: KeyOf>(
    keyer: &K,
    known: &Option<PlainKnown>,
    content: &[u8],
    allowed: bool,
    moment: u64,
) -> Row
    requires some { 0 < length content.now }
    requires fits { length content.now < 2 ^ 32 }
    ensures { row_of result ≡ verify_row (K.keying keyer.now).key_of known.now content.now allowed moment }
{
    let Some(known) = known else {
        return new_row(allowed, moment);
    };
    let block = known.block.as_slice();
    verified_row(
        Some(known.home),
        shares_key(keyer, block, content),
        *block == *content,
        allowed,
        moment,
    )
}

/// Whether a block has the key of a content. Blocks of another length never have.
fn shares_key<K: KeyOf>(keyer: &K, block: &[u8], content: &[u8]) -> bool
    requires some { 0 < length content.now }
    requires fits { length content.now < 2 ^ 32 }
    ensures { result ≡ key_eq ((K.keying keyer.now).key_of block.now) ((K.keying keyer.now).key_of content.now) }
{
    if block.len() != content.len() {
        return false;
    }
    keyer.key(block) == keyer.key(content)
}

/// What a write into an empty slot answers in a mode, and where its pointer goes.
pub fn mode_row<K: KeyOf>(
    mode: Mode,
    keyer: &K,
    opening: &PlainOpening,
    known: &Option<PlainKnown>,
    content: &[u8],
    failed: bool,
    allowed: bool,
) -> Row
    requires some { 0 < length content.now }
    requires fits { length content.now < 2 ^ 32 }
    ensures { row_of result
        ≡ mode_row mode (opening_by (K.keying keyer.now).key_of opening.now) known.now content.now failed allowed }
{
    match mode {
        Mode::Off => off_row(),
        Mode::On if failed => fault_row(),
        Mode::On => table_row(home_of(known), allowed, opening.moment),
        Mode::Verify if failed => fault_row(),
        Mode::Verify => verify_row(keyer, known, content, allowed, opening.moment),
    }
}
