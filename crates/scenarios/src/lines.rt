use pool_model::{Command, Mode, Payload, PruneRule, Verb};
use reserved_list::ReservedList;
use std::alloc::Global;
use std::test::Fail;

/// One line of a command file of the definitions, of which the program reads only some yet.
#[derive(Drop)]
pub(crate) enum Line {
    Group(u64),
    Command(Command),
    End,
    Prune(u64, PruneRule),
    Quota(u64),
    Mode(u32, Mode),
    Stat,
}

/// A line by its words. A content stands there as text.
pub(crate) fn line_of(alloc: Global, words: &[&str]) -> Result<Line, Fail> {
    match words {
        ["end"] => Ok(Line::End),
        ["stat"] => Ok(Line::Stat),
        [word, number] => setting_of(word, number),
        ["mode", lane, mode] => Ok(Line::Mode(lane.parse::<u32>()?, mode_of(mode))),
        ["prune", moment, rule, number] => prune_of(moment, rule, number),
        [lane, verb, slot, content @ ..] => command_of(alloc, lane, slot, verb, content),
        _ => Err("no such line")?,
    }
}

/// A line of a word and a number.
fn setting_of(word: &str, number: &str) -> Result<Line, Fail> {
    let number = number.parse::<u64>()?;
    match word {
        "group" => Ok(Line::Group(number)),
        "quota" => Ok(Line::Quota(number)),
        _ => Err("no such setting")?,
    }
}

/// A prune at a moment, by its rule.
fn prune_of(moment: &str, rule: &str, number: &str) -> Result<Line, Fail> {
    let moment = moment.parse::<u64>()?;
    let number = number.parse::<u64>()?;
    Ok(Line::Prune(moment, rule_of(rule, number)))
}

/// A command of a lane.
fn command_of(
    alloc: Global,
    lane: &str,
    slot: &str,
    verb: &str,
    content: &[&str],
) -> Result<Line, Fail> {
    Ok(Line::Command(Command {
        lane: lane.parse::<u32>()?,
        slot: slot.parse::<u32>()?,
        verb: verb_of(alloc, verb, content)?,
    }))
}

/// A verb by its word and its content.
fn verb_of(alloc: Global, word: &str, content: &[&str]) -> Result<Verb, Fail> {
    match content {
        [text] if word == "write" => {
            let bytes = Vec::from_slice(alloc, text.as_bytes())?;
            Ok(Verb::Write(Payload::Bytes(ReservedList::from_vec(bytes))))
        }
        [] if word == "read" => Ok(Verb::Read),
        [] if word == "free" => Ok(Verb::Free),
        _ => Err("no such verb")?,
    }
}

/// A mode by its word.
fn mode_of(word: &str) -> Mode {
    match word {
        "off" => Mode::Off,
        "verify" => Mode::Verify,
        _ => Mode::On,
    }
}

/// A rule by its word and its number.
fn rule_of(word: &str, number: u64) -> PruneRule {
    match word {
        "age" => PruneRule::Age(number),
        _ => PruneRule::Share(number),
    }
}
