ghost use Rattle.std.specs.Prelude.{◌<◌};

use crate::comparing::{assert_same, assert_same_at};
use cmd_file::{FileFault, read_file};
use io_model::MemSource;
use pool_model::{Command, CommandFile, Item, LanesGroup, Mode, Payload, PruneRule, Verb};
use std::alloc::{AllocError, Global};
use std::process::Abort;
use std::test::Fail;

/// Reads a file of these bytes from a source that gives at most `piece` of them at a call, and whose calls of these
/// numbers fail.
fn read_bytes(
    alloc: Global,
    bytes: Vec<u8>,
    piece: usize,
    fails: &[u64],
) -> Result<Result<CommandFile, FileFault>, AllocError>
    requires { 0 < piece }
{
    let mut source = MemSource::new(bytes, piece, fails.to_vec(alloc)?);
    Ok(read_file(alloc, &mut source))
}

/// The same of a text.
fn read(
    alloc: Global,
    text: &str,
    piece: usize,
    fails: &[u64],
) -> Result<Result<CommandFile, FileFault>, AllocError>
    requires { 0 < piece }
{
    read_bytes(alloc, text.as_bytes().to_vec(alloc)?, piece, fails)
}

/// Writes a number.
fn tell_number(text: &mut String, number: u64) -> Result<(), AllocError> {
    write!(text, "{number}")
}

/// Writes a block's bytes as numbers.
fn tell_bytes(text: &mut String, bytes: &[u8]) -> Result<(), AllocError> {
    write!(text, "{bytes:?}")
}

/// Writes a write of these bytes.
fn tell_write(text: &mut String, command: &Command, bytes: &[u8]) -> Result<(), AllocError> {
    tell_number(text, command.lane as u64)?;
    text.push_str(" write ")?;
    tell_number(text, command.slot as u64)?;
    text.push_str(" ")?;
    tell_bytes(text, bytes)?;
    text.push_str("; ")
}

/// Writes a write of this byte, so many times.
fn tell_repeat(
    text: &mut String,
    command: &Command,
    byte: u8,
    times: u32,
) -> Result<(), AllocError> {
    tell_number(text, command.lane as u64)?;
    text.push_str(" write ")?;
    tell_number(text, command.slot as u64)?;
    text.push_str(" ")?;
    tell_number(text, byte as u64)?;
    text.push_str(" times ")?;
    tell_number(text, times as u64)?;
    text.push_str("; ")
}

/// The byte that a command writes so many times.
fn repeat_of(command: &Command) -> Option<(u8, u32)> {
    match command.verb {
        Verb::Write(Payload::Repeat { byte, times }) => Some((byte, times)),
        _ => None,
    }
}

/// The bytes that a command writes, where they stand there one by one.
fn bytes_of(command: &Command) -> Option<&[u8]> {
    match &command.verb {
        Verb::Write(Payload::Bytes(block)) => Some(block.as_slice()),
        _ => None,
    }
}

/// Writes a command.
fn tell_command(text: &mut String, command: &Command) -> Result<(), AllocError> {
    if let Some((byte, times)) = repeat_of(command) {
        return tell_repeat(text, command, byte, times);
    }
    match bytes_of(command) {
        Some(bytes) => tell_write(text, command, bytes),
        None => text.push_str("another command; "),
    }
}

/// Writes a group.
fn tell_group(text: &mut String, group: &LanesGroup) -> Result<(), AllocError> {
    text.push_str("group ")?;
    tell_number(text, group.moment)?;
    text.push_str(": ")?;
    for command in group.commands.as_slice() {
        tell_command(text, command)?;
    }
    text.push_str("end. ")
}

/// Writes a quota.
fn tell_quota(text: &mut String, limit: Option<u64>) -> Result<(), AllocError> {
    match limit {
        Some(bytes) => write!(text, "quota {bytes}. "),
        None => text.push_str("quota none. "),
    }
}

/// Writes the mode of a lane.
fn tell_mode(text: &mut String, lane: u32, mode: Mode) -> Result<(), AllocError> {
    write!(text, "mode {lane} {mode:?}. ")
}

/// Writes a prune.
fn tell_prune(text: &mut String, moment: u64, rule: PruneRule) -> Result<(), AllocError> {
    match rule {
        PruneRule::Age(days) => write!(text, "prune {moment} age {days}. "),
        PruneRule::Share(share) => write!(text, "prune {moment} share {share}. "),
    }
}

/// Writes an item.
fn tell_item(text: &mut String, item: &Item) -> Result<(), AllocError> {
    match item {
        Item::Lanes(group) => tell_group(text, group),
        Item::Stat => text.push_str("stat. "),
        Item::Import => text.push_str("import. "),
        Item::Quota(limit) => tell_quota(text, *limit),
        Item::SetMode { lane, mode } => tell_mode(text, *lane, *mode),
        Item::Prune { moment, rule } => tell_prune(text, *moment, *rule),
        Item::Create => text.push_str("create. "),
    }
}

/// The items of a file, as text.
fn told_items(alloc: Global, file: &CommandFile) -> Result<String, AllocError> {
    let mut text = String::new(alloc);
    for item in file.items.as_slice() {
        tell_item(&mut text, item)?;
    }
    Ok(text)
}

/// A fault, as text: of a bad file the line and what is wrong with it.
fn told_fault(alloc: Global, fault: &FileFault) -> Result<String, AllocError> {
    match fault {
        FileFault::Bad { line, kind } => format!(in alloc; "{line} {kind:?}"),
        _ => format!(in alloc; "{fault:?}"),
    }
}

/// What was read, as text.
fn told(alloc: Global, answer: &Result<CommandFile, FileFault>) -> Result<String, AllocError> {
    match answer {
        Ok(file) => told_items(alloc, file),
        Err(fault) => told_fault(alloc, fault),
    }
}

/// A group of writes to slot 1, of blocks of these lengths, and a `stat`.
fn file_of_lengths(alloc: Global, moment: u64, lengths: &[u32]) -> Result<String, AllocError> {
    let mut text = String::from_str(alloc, "group ")?;
    tell_number(&mut text, moment)?;
    text.push_str("\n")?;
    for length in lengths {
        text.push_str("0 write 1 ")?;
        for _ in 0..*length {
            text.push_str("61")?;
        }
        text.push_str("\n")?;
    }
    text.push_str("end\nstat\n")?;
    Ok(text)
}

/// So many lines `stat`, and behind them other lines.
fn file_of_stats(alloc: Global, stats: u32, behind: &str) -> Result<String, AllocError> {
    let mut text = String::new(alloc);
    for _ in 0..stats {
        text.push_str("stat\n")?;
    }
    text.push_str(behind)?;
    Ok(text)
}

/// How many commands a group has, and how many bytes stand in their blocks.
fn size_of_group(group: &LanesGroup) -> (u64, u64) {
    let mut bytes = 0u64;
    for command in group.commands.as_slice() {
        let length = bytes_of(command).map_or(0, |block| block.len() as u64);
        bytes = bytes.saturating_add(length);
    }
    (group.commands.len(), bytes)
}

/// How many items, commands, and bytes in their blocks a file has.
fn size_of_file(file: &CommandFile) -> (u64, u64, u64) {
    let mut commands = 0u64;
    let mut bytes = 0u64;
    for item in file.items.as_slice() {
        if let Item::Lanes(group) = item {
            let (more, longer) = size_of_group(group);
            commands = commands.saturating_add(more);
            bytes = bytes.saturating_add(longer);
        }
    }
    (file.items.len(), commands, bytes)
}

/// These, as text.
fn told_size(alloc: Global, file: &CommandFile) -> Result<String, AllocError> {
    let (items, commands, bytes) = size_of_file(file);
    let mut text = String::new(alloc);
    tell_number(&mut text, items)?;
    text.push_str(" items, ")?;
    tell_number(&mut text, commands)?;
    text.push_str(" commands, ")?;
    tell_number(&mut text, bytes)?;
    text.push_str(" bytes")?;
    Ok(text)
}

/// How large what was read is, as text.
fn sizes(alloc: Global, answer: &Result<CommandFile, FileFault>) -> Result<String, AllocError> {
    match answer {
        Ok(file) => told_size(alloc, file),
        Err(fault) => told_fault(alloc, fault),
    }
}

/// Sees what is read of a text in pieces of so many bytes. A failure tells the text and the pieces.
pub fn assert_read(
    rt: &impl Abort,
    alloc: Global,
    text: &str,
    piece: usize,
    want: &str,
) -> Result<(), AllocError> {
    assert!(rt; piece > 0);
    let answer = read(alloc, text, piece, &[])?;
    let told = told(alloc, &answer)?;
    assert_same_at(rt, text, piece as u64, told.as_str(), want);
    Ok(())
}

/// Files, and what is read of them.
const FILES: [(&str, &str); 15] = [
    ("", ""),
    ("\n", ""),
    ("#", ""),
    ("stat", "stat. "),
    ("\n# group 1\nstat\n\n#\n#end\nimport\n\n", "stat. import. "),
    ("# \t\r \u{a0} \0 \u{fffd} line\nstat\n", "stat. "),
    (
        "group 2\n\n0 write 1 aBCd\n# in it\n0 write 2 Ff*1\n0 write 3 00*4096\nend",
        "group 2: 0 write 1 [171, 205]; 0 write 2 255 times 1; 0 write 3 0 times 4096; end. ",
    ),
    ("stat\n", "stat. "),
    ("import\n", "import. "),
    (
        "import\nimport\nstat\nstat\n",
        "import. import. stat. stat. ",
    ),
    ("group 7\nend\n", "group 7: end. "),
    (
        "group 1000\n0 write 1 61\nend\nstat\n",
        "group 1000: 0 write 1 [97]; end. stat. ",
    ),
    (
        "group 0\n0 write 65535 0aff\n0 write 0 00\n0 write 65535 7b7d\nend\n",
        "group 0: 0 write 65535 [10, 255]; 0 write 0 [0]; 0 write 65535 [123, 125]; end. ",
    ),
    (
        "group 1099511627775\n0 write 10 ab\nend\nimport\nstat\n",
        "group 1099511627775: 0 write 10 [171]; end. import. stat. ",
    ),
    (
        "group 9\n0 write 2 61\n0 write 1 62\nend\ngroup 8\n0 write 3 63\nend\nstat\n",
        "group 9: 0 write 2 [97]; 0 write 1 [98]; end. group 8: 0 write 3 [99]; end. stat. ",
    ),
];

#[test]
fn a_file_gives_its_items_in_any_pieces(rt: HostRuntime) -> Result<(), Fail> {
    for (text, want) in FILES {
        assert_read(&rt, rt.alloc(), text, 1, want)?;
        assert_read(&rt, rt.alloc(), text, 7, want)?;
        assert_read(&rt, rt.alloc(), text, 4096, want)?;
    }
    Ok(())
}

/// Sees the sizes of what is read of a text.
fn assert_sizes(
    rt: &impl Abort,
    alloc: Global,
    what: &str,
    text: &str,
    want: &str,
) -> Result<(), AllocError> {
    let answer = read(alloc, text, 4096, &[])?;
    let sizes = sizes(alloc, &answer)?;
    assert_same(rt, what, sizes.as_str(), want);
    Ok(())
}

/// Sees so of a group of writes at this moment, of blocks of these lengths.
fn assert_lengths(
    rt: &impl Abort,
    alloc: Global,
    what: &str,
    moment: u64,
    lengths: &[u32],
    want: &str,
) -> Result<(), AllocError> {
    let text = file_of_lengths(alloc, moment, lengths)?;
    assert_sizes(rt, alloc, what, text.as_str(), want)
}

#[test]
fn settings_and_prunes_are_items(rt: HostRuntime) -> Result<(), Fail> {
    let text =
        "quota 18446744073709551615\nquota none\nquota 0\nmode 15 verify\nmode 0 off\nmode 3 on\n";
    let want =
        "quota 18446744073709551615. quota none. quota 0. mode 15 Verify. mode 0 Off. mode 3 On. ";
    assert_read(&rt, rt.alloc(), text, 4096, want)?;
    let text =
        "prune 1099511627775 age 1000000\nprune 0 share 100\nprune 7 age 0\nprune 7 share 0\n";
    let want =
        "prune 1099511627775 age 1000000. prune 0 share 100. prune 7 age 0. prune 7 share 0. ";
    assert_read(&rt, rt.alloc(), text, 4096, want)?;
    Ok(())
}

#[test]
fn a_group_may_have_65536_commands_and_no_more(rt: HostRuntime) -> Result<(), Fail> {
    let alloc = rt.alloc();
    let many = vec![in alloc; 1u32; 65_537]?;
    let fits = many.split_at(65_536).0;
    let want = "2 items, 65536 commands, 65536 bytes";
    assert_lengths(&rt, alloc, "as many as may be", 1, fits, want)?;
    // The group's line is the first, so its command 65,537 is line 65,538.
    assert_lengths(&rt, alloc, "one more", 1, many.as_slice(), "65538 Many")?;
    Ok(())
}

#[test]
fn a_block_may_have_a_page_and_no_more(rt: HostRuntime) -> Result<(), Fail> {
    let alloc = rt.alloc();
    let want = "2 items, 1 commands, 4096 bytes";
    assert_lengths(&rt, alloc, "a page", 1, &[4_096], want)?;
    assert_lengths(&rt, alloc, "one byte more", 1, &[4_097], "2 Range")?;
    Ok(())
}

/// Sees what is read of a file of so many times this byte.
fn assert_filled(
    rt: &impl Abort,
    alloc: Global,
    what: &str,
    byte: u8,
    count: usize,
    want: &str,
) -> Result<(), AllocError> {
    let bytes = vec![in alloc; byte; count]?;
    let answer = read_bytes(alloc, bytes, 65_536, &[])?;
    let sizes = sizes(alloc, &answer)?;
    assert_same(rt, what, sizes.as_str(), want);
    Ok(())
}

#[test]
fn a_file_may_have_64_mebibytes(rt: HostRuntime) -> Result<(), Fail> {
    let none = "0 items, 0 commands, 0 bytes";
    assert_filled(&rt, rt.alloc(), "a comment", b'#', 67_108_864, none)?;
    Ok(())
}

#[test]
fn a_file_may_not_have_a_byte_more(rt: HostRuntime) -> Result<(), Fail> {
    // The line is bad too, but the size is judged before all lines.
    assert_filled(&rt, rt.alloc(), "a line", b'x', 67_108_865, "0 Size")?;
    Ok(())
}

/// How many times `stat` stands there, what stands behind it, and how large the file is.
const MANY: [(&str, u32, &str, &str); 10] = [
    (
        "all of them stat",
        10_000,
        "",
        "10000 items, 0 commands, 0 bytes",
    ),
    ("one stat more", 10_001, "", "10001 Many"),
    (
        "the last an import",
        9_999,
        "import\n",
        "10000 items, 0 commands, 0 bytes",
    ),
    ("one import more", 10_000, "import\n", "10001 Many"),
    (
        "the last a group",
        9_999,
        "group 1\n0 write 1 61\nend\n",
        "10000 items, 1 commands, 1 bytes",
    ),
    ("one group more", 10_000, "group 1\nend\n", "10001 Many"),
    (
        "one stat behind the last group",
        9_999,
        "group 1\nend\n\nstat\n",
        "10003 Many",
    ),
    ("no line there", 10_000, "hello\n", "10001 Form"),
    (
        "out of range there",
        10_000,
        "group 1099511627776\n",
        "10001 Range",
    ),
    (
        "nothing more",
        10_000,
        "\n# stat\n",
        "10000 items, 0 commands, 0 bytes",
    ),
];

/// Sees the sizes of what is read of so many lines `stat`, and of these lines behind them.
fn assert_stats(
    rt: &impl Abort,
    alloc: Global,
    what: &str,
    stats: u32,
    behind: &str,
    want: &str,
) -> Result<(), AllocError> {
    let text = file_of_stats(alloc, stats, behind)?;
    assert_sizes(rt, alloc, what, text.as_str(), want)
}

#[test]
fn a_file_has_at_most_ten_thousand_items(rt: HostRuntime) -> Result<(), Fail> {
    for (what, stats, behind, want) in MANY {
        assert_stats(&rt, rt.alloc(), what, stats, behind, want)?;
    }
    Ok(())
}

/// Sees what is told where this call of the source fails.
fn assert_unread(rt: &impl Abort, alloc: Global, fails: u64, want: &str) -> Result<(), AllocError> {
    let text = "group 1000\n0 write 1 61\nend\nstat\n";
    let answer = read(alloc, text, 11, &[fails])?;
    let told = told(alloc, &answer)?;
    assert_same_at(rt, "failing call", fails, told.as_str(), want);
    Ok(())
}

#[test]
fn a_failed_read_is_a_source_fault(rt: HostRuntime) -> Result<(), Fail> {
    // Three calls give the text and a fourth its end.
    let whole = "group 1000: 0 write 1 [97]; end. stat. ";
    assert_unread(&rt, rt.alloc(), 1, "SourceFault")?;
    assert_unread(&rt, rt.alloc(), 3, "SourceFault")?;
    assert_unread(&rt, rt.alloc(), 4, "SourceFault")?;
    assert_unread(&rt, rt.alloc(), 5, whole)?;
    Ok(())
}
