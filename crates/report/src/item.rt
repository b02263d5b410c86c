ghost use Rattle.std.specs.Prelude.{◌≡◌, ◌≤◌, length, IfSome};
ghost use Rattle.std.specs.Option.{option_map, option_copied};
ghost use Rattle.pool_model.specs.declared.notes.Outcome.TheVariants as outcomes;
ghost use Rattle.pool_model.specs.Plain.{told_of};
ghost use Rattle.pool_model.specs.Mirrors.{part_of};
ghost use Rattle.pool_model.specs.Text.{group_text, noted_text};
ghost use Rattle.report.specs.ItemText.{group_in, item_word, text_of};
ghost use Rattle.report.specs.Writes.{Wrote};

use crate::lanes::write_lanes;
use crate::stat::{write_number, write_stat};
use crate::words::{Word, write_line};
use io_model::{Failed, Sink};
use pool_model::{GroupNote, Item, Outcome, Stats};

/// The word for an item.
fn kind_name(item: &Item) -> &'static str
    ensures name { result.now ≡ item_word (part_of item.now) }
    ensures short { length result.now ≤ 20 }
{
    match item {
        Item::Create => "create",
        Item::Lanes(_) => "group",
        Item::Prune { .. } => "prune",
        Item::Quota(_) => "quota",
        Item::SetMode { .. } => "mode",
        Item::Stat => "stat",
        Item::Import => "import",
    }
}

/// Writes the text of a group that was sealed.
fn write_sealed<W: Sink>(out: &mut W, item: &Item, note: &GroupNote) -> Result<(), Failed>
    ensures { IfSome (group_in (part_of item.now)) (λ group.
        Wrote (W.written out.old) (W.written out.new) (W.faults out.old) (W.faults out.new)
        (group_text group (told_of note.now) outcomes.Sealed) result) }
{
    let kind = Word::Text(kind_name(item));
    let number = Word::Number(note.number);
    let sealed = Word::Text("sealed");
    match item {
        Item::Prune { .. } => write_line(out, &[kind, number, sealed, Word::Number(note.taken)]),
        Item::Lanes(group) => {
            write_line(out, &[kind, number, sealed])?;
            write_lanes(out, group.commands.as_slice(), note.lanes.as_slice())
        }
        Item::Create | Item::Quota(_) | Item::SetMode { .. } | Item::Stat | Item::Import => {
            write_line(out, &[kind, number, sealed])
        }
    }
}

/// Writes the text of a group that ended.
fn write_group<W: Sink>(out: &mut W, item: &Item, note: &GroupNote) -> Result<(), Failed>
    ensures { IfSome (group_in (part_of item.now)) (λ group.
        Wrote (W.written out.old) (W.written out.new) (W.faults out.old) (W.faults out.new)
        (group_text group (told_of note.now) note.now.outcome) result) }
{
    match note.outcome {
        Outcome::Sealed => write_sealed(out, item, note),
        Outcome::NoSpace { need, free } => {
            let words = [
                Word::Text(kind_name(item)),
                Word::Number(note.number),
                Word::Text("nospace"),
                Word::Number(need),
                Word::Number(free),
            ];
            write_line(out, &words)
        }
        Outcome::Cut => Ok(()),
    }
}

/// Writes the text of a group by its note, and nothing without one.
fn write_noted<W: Sink>(out: &mut W, item: &Item, note: Option<&GroupNote>) -> Result<(), Failed>
    ensures { IfSome (group_in (part_of item.now)) (λ group.
        Wrote (W.written out.old) (W.written out.new) (W.faults out.old) (W.faults out.new)
        (noted_text group (option_map told_of (option_copied note.entry))) result) }
{
    match note {
        Some(note) => write_group(out, item, note),
        None => Ok(()),
    }
}

/// Writes the text of an item that ended: of a group by its note, of any other item by the statistics,
/// the group and the quota of the pool that stands after it. Takes no memory. The error is a write that
/// failed, after which some front of the text has been written.
pub fn write_item<W: Sink>(
    out: &mut W,
    item: &Item,
    note: Option<&GroupNote>,
    stats: &Stats,
    group: u64,
    quota: Option<u64>,
) -> Result<(), Failed>
    ensures { Wrote (W.written out.old) (W.written out.new) (W.faults out.old) (W.faults out.new)
        (text_of (part_of item.now) (option_map told_of (option_copied note.entry))
        stats.now group quota) result }
{
    match item {
        Item::Create => write_number(out, "create", 1),
        Item::Stat => write_stat(out, stats, group, quota),
        Item::Import => write_number(out, "import", group),
        Item::Lanes(_) | Item::Prune { .. } | Item::Quota(_) | Item::SetMode { .. } => {
            write_noted(out, item, note)
        }
    }
}
