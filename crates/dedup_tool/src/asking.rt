ghost use Rattle.std.specs.Prelude.{◌≡◌, ℕ, List, true, false, None, Some, map, string_bytes, codes, option_map, IfOk, IfErr, IsErrOf, IsTrue};
ghost use Rattle.std.specs.List.{list_any};
ghost use Rattle.clap.specs.Words.{HasMatchesOf, found_of, first_value, kind_of, takes};
ghost use Rattle.session.specs.Words.{running_words, looking_words};
ghost use Rattle.dedup_tool.specs.declared.asking.Asked.{Asked};
ghost use Rattle.dedup_tool.specs.Asking.{asked_by, asked_for, command_line};

use clap::error::ErrorKind;
use clap::{Arg, ArgAction, ArgMatches, Command, Error};
use std::alloc::Global;

/// Which session the words ask for.
#[derive(Clone, Copy, Debug, PartialEq, Eq)]
pub enum Asked {
    /// One that runs the command file on standard input.
    RunsFile,
    /// One that runs none.
    RunsNone,
}

/// Why the words can't be told.
#[derive(Clone, Copy, Debug, PartialEq, Eq)]
pub enum Unasked {
    /// They ask for no session.
    Usage,
    /// There was no memory.
    Memory,
}

/// Which session these words ask for. Words that ask for none are told as such here, or are taken for those of a session,
/// which refuses them then.
pub fn read_words(alloc: Global, words: &[String]) -> Result<Asked, Unasked>
    ensures usage { IsErrOf result Unasked.Usage → (running_words (map string_bytes words.now) ≡ None) × (looking_words (map string_bytes words.now) ≡ None) }
    ensures runs { IfOk result (λ asked. asked ≡ Asked.RunsFile → looking_words (map string_bytes words.now) ≡ None) }
    ensures looks { IfOk result (λ asked. asked ≡ Asked.RunsNone → running_words (map string_bytes words.now) ≡ None) }
{
    if has_flag(words) {
        return Err(Unasked::Usage);
    }
    match parsed(alloc, words) {
        Ok(matches) => session_of(matches.get_str("word")),
        Err(error) => Err(refusal(error.kind())),
    }
}

/// Whether one of the words begins with `-`.
fn has_flag(words: &[String]) -> bool
    ensures runs { IsTrue result → running_words (map string_bytes words.now) ≡ None }
    ensures looks { IsTrue result → looking_words (map string_bytes words.now) ≡ None }
{
    words.iter().any(|word| word.as_str().starts_with('-'))
}

/// Reads the words as a simple command with one argument, which is required.
fn parsed<'a>(alloc: Global, words: &'a [String]) -> Result<ArgMatches<'a>, Error>
    ensures matches { IfOk result (HasMatchesOf command_line (map string_bytes words.now)) }
    ensures refusal { IfErr result (λ error. takes command_line (map string_bytes words.now) ≡ true → kind_of error ≡ ErrorKind.OutOfMemory) }
{
    let word = Arg::new(alloc, "word")
        .required(true)
        .action(ArgAction::Set);
    let command = Command::new(alloc, "dedup_tool")
        .no_binary_name(true)
        .arg(word)?;
    command.try_get_matches_from(words)
}

/// Why words of which `clap` says this ask for no session.
fn refusal(kind: ErrorKind) -> Unasked
    ensures { result ≡ Unasked.Usage → kind ≡ ErrorKind.OutOfMemory → ⊥ }
{
    match kind {
        ErrorKind::OutOfMemory => Unasked::Memory,
        _ => Unasked::Usage,
    }
}

/// The session that a word asks for.
fn session_of(word: Option<&str>) -> Result<Asked, Unasked>
    ensures usage { IsErrOf result Unasked.Usage → (text : List ℕ) → option_map (λ s. s.now) word.entry ≡ Some text → asked_by text ≡ None }
    ensures ok { IfOk result (λ told. (text : List ℕ) → option_map (λ s. s.now) word.entry ≡ Some text → asked_by text ≡ Some told) }
{
    match word {
        Some("run" | "make") => Ok(Asked::RunsFile),
        Some("create" | "stat") => Ok(Asked::RunsNone),
        _ => Err(Unasked::Usage),
    }
}
