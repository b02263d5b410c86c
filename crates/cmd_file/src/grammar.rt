ghost use Rattle.std.specs.Prelude.{◌≡◌, ◌<◌, ◌≤◌, ◌+◌, ◌^◌, ◌&&◌, ◌++◌, ◌∷◌, [], nat_le, if◌then◌else◌, fold, length, map, IfOk, Some, None, Ok};
ghost use Rattle.std.specs.List.{slice_split};
ghost use Rattle.pool_model.specs.Mirrors.{part_of};
ghost use Rattle.pool_model.specs.File.{is_line_feed, is_space, does, ends, step_line, item_line, is_read, tested, judged, read_line, after_line, first_progress, lines_of, file_limit, read_limit};
ghost use Rattle.pool_model.specs.File.{ended as ended_by};
ghost use Rattle.cmd_file.specs.Faults.{Gives, Tells, Parses};
ghost use Rattle.cmd_file.specs.Progress.{deed_of, start_of, open_group, progress_of, with_open};

use crate::cuts::split_line;
use crate::fault::{FileFault, LineFault, MANY, at_line};
use crate::lines::{Start, Step, is_skipped, item_in, step_in};
use crate::progress::{Done, OpenGroup, Progress};
use pool_model::{BadKind, Command, CommandFile, CommandList, Item, ItemList, LanesGroup, Verb};
use std::alloc::Global;

/// The most bytes that a file has.
pub const FILE_LIMIT: u64 = 67_108_864;

/// The most items that a file has.
const ITEM_LIMIT: usize = 10_000;

/// The most reads that a file has.
const READ_LIMIT: u64 = 262_144;

/// The most commands that a group has.
const COMMAND_LIMIT: usize = 65_536;

/// These items and one more, with no group open.
fn with_item(done: Done, item: Item) -> Result<Progress, LineFault>
    ensures { Gives progress_of result (Ok (record (with_open done None) {
      parts = map part_of done.items.items ++ part_of item ∷ [];
    })) }
{
    let Done {
        lines,
        mut items,
        reads,
    } = done;
    items.push(item)?;
    Ok(Progress {
        done: Done {
            lines,
            items,
            reads,
        },
        group: None,
    })
}

/// What is read once these items are, and then a good line that is an item or begins a group.
fn with_start(alloc: Global, done: Done, start: Start) -> Result<Progress, LineFault>
    ensures { Gives progress_of result (judged (with_open done None) (Ok (start_of start))) }
{
    if done.items.len() >= ITEM_LIMIT {
        return Err(MANY);
    }
    match start {
        Start::Group(moment) => Ok(Progress {
            done,
            group: Some(OpenGroup {
                moment,
                commands: Vec::new(alloc),
            }),
        }),
        Start::Item(item) => with_item(done, item),
    }
}

/// What is read once these items are, and then a line.
fn read_item(alloc: Global, done: Done, line: &[u8]) -> Result<Progress, LineFault>
    ensures { Gives progress_of result
        (judged (with_open done None) (tested (item_line (slice_split is_space line.now)))) }
{
    let start = item_in(line)?;
    with_start(alloc, done, start)
}

fn is_read(verb: &Verb) -> bool
    ensures { result ≡ is_read (deed_of verb.now) }
{
    matches!(verb, Verb::Read)
}

/// How many reads there are with this command, or none where it is a read too many.
fn reads_with(reads: u64, verb: &Verb) -> Option<u64>
    ensures { result ≡ (if is_read (deed_of verb.now) && nat_le read_limit reads then None
        else Some (if is_read (deed_of verb.now) then reads + 1 else reads)) }
{
    if !is_read(verb) {
        return Some(reads);
    }
    if reads >= READ_LIMIT {
        return None;
    }
    Some(reads + 1)
}

/// What is read once these items and a group's commands are, and then a good command.
fn with_command(done: Done, group: OpenGroup, command: Command) -> Result<Progress, LineFault>
    ensures { Gives progress_of result (judged (with_open done (Some (open_group group)))
        (Ok (does command.lane command.slot (deed_of command.verb)))) }
{
    let OpenGroup {
        moment,
        mut commands,
    } = group;
    let Done {
        lines,
        items,
        reads,
    } = done;
    if commands.len() >= COMMAND_LIMIT {
        return Err(MANY);
    }
    let Some(reads) = reads_with(reads, &command.verb) else {
        return Err(MANY);
    };
    commands.push(command)?;
    Ok(Progress {
        done: Done {
            lines,
            items,
            reads,
        },
        group: Some(OpenGroup { moment, commands }),
    })
}

/// These items and a group that ends.
fn with_group(done: Done, group: OpenGroup) -> Result<Progress, LineFault>
    ensures { Gives progress_of result (judged (with_open done (Some (open_group group))) (Ok ends)) }
{
    let OpenGroup { moment, commands } = group;
    let commands = CommandList::from_vec(commands);
    with_item(done, Item::Lanes(LanesGroup { moment, commands }))
}

/// What is read once these items and a group's commands are, and then a line.
fn read_step(
    alloc: Global,
    done: Done,
    group: OpenGroup,
    line: &[u8],
) -> Result<Progress, LineFault>
    ensures { Gives progress_of result
        (judged (with_open done (Some (open_group group))) (tested (step_line (slice_split is_space line.now)))) }
{
    let step = step_in(alloc, line)?;
    match step {
        Step::Command(command) => with_command(done, group, command),
        Step::End => with_group(done, group),
    }
}

/// What is read once a line is, behind those that were read before.
fn read_line(alloc: Global, progress: Progress, line: &[u8]) -> Result<Progress, LineFault>
    ensures { Gives progress_of result (read_line (progress_of progress) line.now) }
{
    if is_skipped(line) {
        return Ok(progress);
    }
    let Progress { done, group } = progress;
    match group {
        Some(group) => read_step(alloc, done, group, line),
        None => read_item(alloc, done, line),
    }
}

/// So much was read, of so many lines.
fn counted(lines: u64, progress: Progress) -> Progress
    ensures { progress_of result ≡ record (progress_of progress) { lines = lines } }
{
    let Progress { done, group } = progress;
    let Done {
        lines: _,
        items,
        reads,
    } = done;
    Progress {
        done: Done {
            lines,
            items,
            reads,
        },
        group,
    }
}

/// What is read with a further line of a file, behind lines of which none is bad.
fn after_line(alloc: Global, progress: Progress, line: &[u8]) -> Result<Progress, FileFault>
    requires few { progress.done.lines < 2 ^ 63 }
    ensures read { Tells progress_of result (after_line (Ok (progress_of progress)) line.now) }
    ensures number { IfOk result (λ next. next.done.lines ≡ progress.done.lines + 1) }
{
    let number = progress.done.lines + 1;
    match read_line(alloc, progress, line) {
        Ok(next) => Ok(counted(number, next)),
        Err(fault) => Err(at_line(number, fault)),
    }
}

/// The command file of what was read of all lines.
fn ended(progress: Progress) -> Result<CommandFile, FileFault>
    requires few { progress.done.lines < 2 ^ 63 }
    ensures { Tells (λ file. map part_of file.items.items) result (ended_by (Ok (progress_of progress))) }
{
    let Progress { done, group } = progress;
    if group.is_some() {
        return Err(FileFault::Bad {
            line: done.lines + 1,
            kind: BadKind::Open,
        });
    }
    Ok(CommandFile {
        items: ItemList::from_vec(done.items),
    })
}

/// The command file of these lines.
fn read_lines(alloc: Global, text: &[u8]) -> Result<CommandFile, FileFault>
    requires few { length text.now ≤ file_limit }
    ensures { Tells (λ file. map part_of file.items.items) result
        (ended_by (fold after_line (Ok first_progress) (lines_of (slice_split is_line_feed text.now)))) }
{
    let mut progress = Progress {
        done: Done {
            lines: 0,
            items: Vec::new(alloc),
            reads: 0,
        },
        group: None,
    };
    let mut rest = text;
    'lines: while !rest.is_empty() {
        let (line, more) = split_line(rest);
        progress = after_line(alloc, progress, line)?;
        rest = more;
    }
    ended(progress)
}

/// The command file that some bytes are.
pub fn parse(alloc: Global, bytes: &[u8]) -> Result<CommandFile, FileFault>
    ensures { Parses bytes.now result }
{
    if bytes.len() as u64 > FILE_LIMIT {
        return Err(FileFault::Bad {
            line: 0,
            kind: BadKind::Size,
        });
    }
    read_lines(alloc, bytes)
}
