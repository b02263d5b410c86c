ghost use Rattle.std.specs.Prelude.{◌≡◌, ◌∷◌, []};
ghost use Rattle.std.specs.List.{list_all};
ghost use Rattle.hex.specs.Hex.{decode_of};
ghost use Rattle.pool_model.specs.File.{is_digit, is_number, number_in, each_in, repeated_in, block_in};
ghost use Rattle.cmd_file.specs.Faults.{Gives};
ghost use Rattle.cmd_file.specs.Progress.{spelt_of};
ghost use Rattle.cmd_file.specs.Words.{up_to, lawful};

use crate::fault::{FORM, LineFault, RANGE};
use hex::{FromHex, FromHexError};
use pool_model::{BadKind, Block, Payload};
use std::alloc::Global;
use std::str;

/// The most bytes that a block has.
const BLOCK_LIMIT: usize = 4096;

fn all_digits(word: &[u8]) -> bool
    ensures { result ≡ list_all is_digit word.now }
{
    word.iter().all(|byte| byte.is_ascii_digit())
}

/// Whether a word is `0`, or digits of which the first isn't 0.
pub fn is_number(word: &[u8]) -> bool
    ensures { result ≡ is_number word.now }
{
    match word {
        [] => false,
        [digit] => digit.is_ascii_digit(),
        [first, ..] => *first != b'0' && all_digits(word),
    }
}

/// The number that a word spells, where it isn't past the most.
pub fn number_to(most: u64, word: &[u8]) -> Result<u64, BadKind>
    ensures { result ≡ up_to most (number_in word.now) }
{
    if !is_number(word) {
        return Err(BadKind::Form);
    }
    let Ok(text) = str::from_utf8(word) else {
        return Err(BadKind::Form);
    };
    let Ok(number) = text.parse::<u64>() else {
        return Err(BadKind::Range);
    };
    if number > most {
        return Err(BadKind::Range);
    }
    Ok(number)
}

/// The byte of two hex digits, as a list of it alone.
fn byte_in(high: u8, low: u8) -> Result<[u8; 1], FromHexError>
    ensures { result ≡ decode_of (high ∷ low ∷ []) }
{
    <[u8; 1]>::from_hex([high, low].as_slice())
}

/// The byte of two hex digits, as many times as a number says.
fn repeated_in(high: u8, low: u8, times: &[u8]) -> Result<Payload, LineFault>
    ensures { Gives spelt_of result (lawful (repeated_in (decode_of (high ∷ low ∷ [])) (number_in times.now))) }
{
    let Ok(bytes) = byte_in(high, low) else {
        return Err(FORM);
    };
    let times = match number_to(BLOCK_LIMIT as u64, times) {
        Ok(times) => times,
        Err(kind) => return Err(LineFault::Bad(kind)),
    };
    if times == 0 {
        return Err(RANGE);
    }
    Ok(Payload::Repeat {
        byte: bytes[0],
        times: times as u32,
    })
}

/// The bytes that hex digits spell.
fn each_in(alloc: Global, digits: &[u8]) -> Result<Payload, LineFault>
    ensures { Gives spelt_of result (lawful (each_in (decode_of digits.now))) }
{
    let content = match hex::decode(alloc, digits) {
        Ok(content) => content,
        Err(FromHexError::OutOfMemory) => return Err(LineFault::Memory),
        Err(_) => return Err(FORM),
    };
    if content.is_empty() {
        return Err(FORM);
    }
    if content.len() > BLOCK_LIMIT {
        return Err(RANGE);
    }
    Ok(Payload::Bytes(Block::from_vec(content)))
}

/// The block that a word spells, of a lawful length.
pub fn payload_in(alloc: Global, word: &[u8]) -> Result<Payload, LineFault>
    ensures { Gives spelt_of result (lawful (block_in word.now)) }
{
    match word {
        [high, low, b'*', times @ ..] => repeated_in(*high, *low, times),
        _ => each_in(alloc, word),
    }
}
