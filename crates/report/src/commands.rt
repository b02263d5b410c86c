ghost use Rattle.std.specs.Prelude.{◌≡◌, ◌≤◌, ◌<◌, [], ◌∷◌, ◌++◌, length, map, nat_le, IsTrue};
ghost use Rattle.std.specs.List.{join_with_byte};
ghost use Rattle.hex.specs.Hex.{encode_lower};
ghost use Rattle.pool_model.specs.Plain.{reply_of};
ghost use Rattle.pool_model.specs.Mirrors.{act_of, task_of};
ghost use Rattle.pool_model.specs.Text.{verb_word, write_words, free_words, reply_words, command_line};
ghost use Rattle.report.specs.Answered.{answered_words, is_short_answer};
ghost use Rattle.report.specs.Words.{FitsLine, word_text};
ghost use Rattle.report.specs.Writes.{Wrote};

use crate::words::{Word, write_line, write_words};
use hex::encode_to_slice;
use io_model::{Failed, Sink, write_whole};
use pool_model::{Command, CommandAnswer, FreeAnswer, ReadAnswer, Verb, WriteAnswer};

/// How many bytes are turned into digits at a time.
const PIECE: usize = 512;

/// How many digits they give.
const DIGITS: usize = 2 * PIECE;

/// How an answer is told.
#[derive(Clone, Copy)]
pub(crate) enum Answered<'a> {
    Named(&'static str),
    Damaged(u64),
    Bytes(&'a [u8]),
}

/// The word for what a command does.
fn verb_name(verb: &Verb) -> &'static str
    ensures name { result.now ≡ verb_word (act_of verb.now) }
    ensures short { length result.now ≤ 20 }
{
    match verb {
        Verb::Write(_) => "write",
        Verb::Read => "read",
        Verb::Free => "free",
    }
}

/// How a write's answer is told.
fn write_answered(answer: WriteAnswer) -> Answered<'static>
    ensures words { answered_words result ≡ write_words answer }
    ensures short { IsTrue (is_short_answer result) }
{
    match answer {
        WriteAnswer::New => Answered::Named("new"),
        WriteAnswer::Hit => Answered::Named("hit"),
        WriteAnswer::Quota => Answered::Named("quota"),
        WriteAnswer::Clash => Answered::Named("clash"),
        WriteAnswer::Off => Answered::Named("off"),
        WriteAnswer::Taken => Answered::Named("taken"),
        WriteAnswer::Fault => Answered::Named("fault"),
        WriteAnswer::Damaged(sector) => Answered::Damaged(sector),
    }
}

/// How a free's answer is told.
fn free_answered(answer: FreeAnswer) -> Answered<'static>
    ensures words { answered_words result ≡ free_words answer }
    ensures short { IsTrue (is_short_answer result) }
{
    match answer {
        FreeAnswer::Counted => Answered::Named("counted"),
        FreeAnswer::Loose => Answered::Named("loose"),
        FreeAnswer::Freed => Answered::Named("freed"),
        FreeAnswer::Empty => Answered::Named("empty"),
        FreeAnswer::Fault => Answered::Named("fault"),
        FreeAnswer::Damaged(sector) => Answered::Damaged(sector),
    }
}

/// How an answer is told.
fn reply_answered(answer: &CommandAnswer) -> Answered<'_>
    ensures words { answered_words result ≡ reply_words (reply_of answer.now) }
    ensures short { IsTrue (is_short_answer result) }
{
    match answer {
        CommandAnswer::Write(answer) => write_answered(*answer),
        CommandAnswer::Free(answer) => free_answered(*answer),
        CommandAnswer::Read(ReadAnswer::Bytes(block)) => Answered::Bytes(block.as_slice()),
        CommandAnswer::Read(ReadAnswer::Empty) => Answered::Named("empty"),
        CommandAnswer::Read(ReadAnswer::Fault) => Answered::Named("fault"),
        CommandAnswer::Read(ReadAnswer::Damaged(place)) => Answered::Damaged(*place),
    }
}

/// Writes a few bytes as hex digits.
fn write_piece<W: Sink>(out: &mut W, piece: &[u8]) -> Result<(), Failed>
    requires { length piece.now ≤ PIECE }
    ensures { Wrote (W.written out.old) (W.written out.new) (W.faults out.old) (W.faults out.new)
        (encode_lower piece.now) result }
{
    let mut buffer = [0u8; DIGITS];
    let digits = &mut buffer[..2 * piece.len()];
    encode_to_slice(piece, digits).unwrap();
    write_whole(out, digits)
}

/// Writes bytes as hex digits.
fn write_hex<W: Sink>(out: &mut W, content: &[u8]) -> Result<(), Failed>
    ensures { Wrote (W.written out.old) (W.written out.new) (W.faults out.old) (W.faults out.new)
        (encode_lower content.now) result }
{
    let mut rest = content;
    'pieces: while !rest.is_empty() {
        let (piece, others) = rest.split_at(PIECE.min(rest.len()));
        write_piece(out, piece)?;
        rest = others;
    }
    Ok(())
}

/// Writes a line of words and a block's bytes.
fn write_block<W: Sink>(out: &mut W, words: &[Word], content: &[u8]) -> Result<(), Failed>
    requires some { 0 < length words.now }
    requires fits { FitsLine words.now }
    ensures { Wrote (W.written out.old) (W.written out.new) (W.faults out.old) (W.faults out.new)
        (join_with_byte 32 (map word_text words.now ++ encode_lower content.now ∷ []) ++ 10 ∷ []) result }
{
    write_words(out, words, " ")?;
    write_hex(out, content)?;
    write_line(out, &[])
}

/// Writes the line of a command and its answer.
pub(crate) fn write_command<W: Sink>(
    out: &mut W,
    command: &Command,
    answer: &CommandAnswer,
) -> Result<(), Failed>
    ensures { Wrote (W.written out.old) (W.written out.new) (W.faults out.old) (W.faults out.new)
        (command_line (task_of command.now, reply_of answer.now)) result }
{
    let lane = Word::Number(u64::from(command.lane));
    let verb = Word::Text(verb_name(&command.verb));
    let slot = Word::Number(u64::from(command.slot));
    match reply_answered(answer) {
        Answered::Named(name) => write_line(out, &[lane, verb, slot, Word::Text(name)]),
        Answered::Damaged(sector) => {
            let words = [
                lane,
                verb,
                slot,
                Word::Text("damaged"),
                Word::Number(sector),
            ];
            write_line(out, &words)
        }
        Answered::Bytes(content) => {
            write_block(out, &[lane, verb, slot, Word::Text("bytes")], content)
        }
    }
}
