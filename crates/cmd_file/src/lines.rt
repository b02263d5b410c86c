//! Lines by themselves: what they say, and whether their numbers are in their ranges.

ghost use Rattle.std.specs.Prelude.{◌≡◌, ◌∷◌, []};
ghost use Rattle.std.specs.List.{slice_split};
ghost use Rattle.pool_model.specs.File.{is_space, is_skipped, number_in, block_in, write_deed, group_line, command_line, item_line, step_line, tested};
ghost use Rattle.cmd_file.specs.Faults.{Gives};
ghost use Rattle.cmd_file.specs.Progress.{start_of, step_of};

use crate::cuts::{Words, words_of};
use crate::fault::{FORM, LineFault};
use crate::settings::{prune_in, quota_in, set_mode_in};
use crate::words::{is_number, number_to, payload_in};
use pool_model::{Command, Item, Verb};
use std::alloc::Global;

/// The last moment, in seconds.
pub const LAST_MOMENT: u64 = 1_099_511_627_775;

/// The last slot of a lane.
const LAST_SLOT: u64 = 65_535;

/// The last lane whose commands are run today.
const LAST_LANE: u64 = 0;

/// A good line where no group is open.
#[derive(Drop)]
pub enum Start {
    /// A group begins at a moment in seconds.
    Group(u64),
    /// The line is an item.
    Item(Item),
}

/// A good line of a group.
#[derive(Drop)]
pub enum Step {
    Command(Command),
    End,
}

/// Whether a line says nothing: it has no byte, or begins with `#`.
pub fn is_skipped(line: &[u8]) -> bool
    ensures { result ≡ is_skipped line.now }
{
    match line {
        [] => true,
        [first, ..] => *first == b'#',
    }
}

/// The line `group T`, by its last word.
fn group_in(moment: &[u8]) -> Result<Start, LineFault>
    ensures { Gives start_of result (tested (group_line (number_in moment.now))) }
{
    match number_to(LAST_MOMENT, moment) {
        Ok(moment) => Ok(Start::Group(moment)),
        Err(kind) => Err(LineFault::Bad(kind)),
    }
}

/// What a line of one word says where no group is open.
fn one_word(verb: &[u8]) -> Result<Start, LineFault>
    ensures { Gives start_of result (tested (item_line (verb.now ∷ []))) }
{
    if verb == b"stat".as_slice() {
        return Ok(Start::Item(Item::Stat));
    }
    if verb == b"import".as_slice() {
        return Ok(Start::Item(Item::Import));
    }
    Err(FORM)
}

/// What a line of two words says where no group is open.
fn two_words(verb: &[u8], word: &[u8]) -> Result<Start, LineFault>
    ensures { Gives start_of result (tested (item_line (verb.now ∷ word.now ∷ []))) }
{
    if verb == b"group".as_slice() {
        return group_in(word);
    }
    if verb == b"quota".as_slice() {
        return quota_in(word);
    }
    Err(FORM)
}

/// What a line says where no group is open.
pub fn item_in(line: &[u8]) -> Result<Start, LineFault>
    ensures { Gives start_of result (tested (item_line (slice_split is_space line.now))) }
{
    match words_of(line) {
        Words::One(verb) => one_word(verb),
        Words::Two(verb, word) => two_words(verb, word),
        Words::Three(verb, lane, word) => {
            if verb == b"mode".as_slice() {
                return set_mode_in(lane, word);
            }
            Err(FORM)
        }
        Words::Four(verb, moment, rule, number) => {
            if verb == b"prune".as_slice() {
                return prune_in(moment, rule, number);
            }
            Err(FORM)
        }
        _ => Err(FORM),
    }
}

/// The line `L write S B`, by its words but the second.
fn write_in(alloc: Global, lane: &[u8], slot: &[u8], block: &[u8]) -> Result<Step, LineFault>
    ensures { Gives step_of result
        (tested (command_line (number_in lane.now) (number_in slot.now) (write_deed (block_in block.now)))) }
{
    let Ok(lane) = number_to(LAST_LANE, lane) else {
        return Err(FORM);
    };
    if !is_number(slot) {
        return Err(FORM);
    }
    let payload = match payload_in(alloc, block) {
        Ok(payload) => payload,
        Err(fault) => return Err(fault),
    };
    match number_to(LAST_SLOT, slot) {
        Ok(slot) => Ok(Step::Command(Command {
            lane: lane as u32,
            slot: slot as u32,
            verb: Verb::Write(payload),
        })),
        Err(kind) => Err(LineFault::Bad(kind)),
    }
}

/// What a line of a group says.
pub fn step_in(alloc: Global, line: &[u8]) -> Result<Step, LineFault>
    ensures { Gives step_of result (tested (step_line (slice_split is_space line.now))) }
{
    match words_of(line) {
        Words::One(verb) => {
            if verb == b"end".as_slice() {
                return Ok(Step::End);
            }
            Err(FORM)
        }
        Words::Four(lane, verb, slot, block) => {
            if verb == b"write".as_slice() {
                return write_in(alloc, lane, slot, block);
            }
            Err(FORM)
        }
        _ => Err(FORM),
    }
}
