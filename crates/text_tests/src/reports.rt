use crate::comparing::{assert_same, assert_same_at};
use io_model::{Failed, MemSink};
use pool_model::{
    BUCKETS, Bucket, Command, CommandAnswer, FreeAnswer, GroupNote, Item, Kind, LaneNote,
    LanesGroup, Mode, Outcome, Payload, PruneRule, ReadAnswer, Stats, Verb, WriteAnswer,
};
use report::{NO_STATS, write_item};
use reserved_list::ReservedList;
use std::alloc::{AllocError, Global};
use std::process::Abort;
use std::test::Fail;

/// A lane's command.
fn command(lane: u32, slot: u32, verb: Verb) -> Command {
    Command { lane, slot, verb }
}

/// A write of one `a`.
fn write_of_a() -> Verb {
    Verb::Write(Payload::Repeat {
        byte: b'a',
        times: 1,
    })
}

/// A group of these commands.
fn lanes_group(commands: Vec<Command>) -> Item {
    Item::Lanes(LanesGroup {
        moment: 1000,
        commands: ReservedList::from_vec(commands),
    })
}

/// The note of a lane that gave these answers.
fn lane_note(alloc: Global, lane: u32, answers: Vec<CommandAnswer>) -> LaneNote {
    LaneNote {
        lane,
        answers: ReservedList::from_vec(answers),
        fresh: ReservedList::new(alloc),
        faults: 0,
    }
}

/// The note of a group with this number that ended so.
fn group_note(number: u64, outcome: Outcome, taken: u64, lanes: Vec<LaneNote>) -> GroupNote {
    GroupNote {
        number,
        kind: Kind::Lanes,
        outcome,
        taken,
        lanes: ReservedList::from_vec(lanes),
    }
}

/// A read of so many of this byte.
fn block_of(alloc: Global, byte: u8, count: usize) -> Result<CommandAnswer, AllocError> {
    let mut bytes = Vec::new(alloc);
    bytes.resize(count, byte)?;
    Ok(CommandAnswer::Read(ReadAnswer::Bytes(ReservedList::from_vec(bytes))))
}

/// A bucket without keys.
const NO_KEYS: Bucket = Bucket {
    low: 0,
    keys: 0,
    allocated: 0,
    referenced: 0,
};

/// Buckets without keys, each with its lowest count.
fn empty_buckets() -> [Bucket; BUCKETS] {
    let mut buckets = [NO_KEYS; BUCKETS];
    let mut low = 1;
    for bucket in buckets.iter_mut() {
        bucket.low = low;
        low = low.wrapping_mul(2);
    }
    buckets
}

/// Buckets, of which some have so many keys, bytes once, and bytes once for each pointer.
fn buckets_with(used: &[(usize, u64, u64, u64)]) -> [Bucket; BUCKETS] {
    let mut buckets = empty_buckets();
    for (at, keys, allocated, referenced) in used {
        if let Some(bucket) = buckets.get_mut(*at) {
            bucket.keys = *keys;
            bucket.allocated = *allocated;
            bucket.referenced = *referenced;
        }
    }
    buckets
}

/// Statistics of these sums, with these buckets.
fn stats_of(sums: [u64; 8], used: &[(usize, u64, u64, u64)]) -> Stats {
    let [
        keys,
        unique,
        duplicate,
        refs,
        loose,
        plain,
        allocated,
        referenced,
    ] = sums;
    Stats {
        keys,
        unique,
        duplicate,
        refs,
        loose,
        plain,
        allocated,
        referenced,
        buckets: buckets_with(used),
    }
}

/// Commands of several lanes, with the answers of lanes 0 and 13.
#[derive(Drop)]
struct Answered {
    commands: Vec<Command>,
    first: Vec<CommandAnswer>,
    last: Vec<CommandAnswer>,
}

impl Answered {
    /// No command.
    fn new(alloc: Global) -> Answered {
        Answered {
            commands: Vec::new(alloc),
            first: Vec::new(alloc),
            last: Vec::new(alloc),
        }
    }

    /// Lane 0 is given a command for this slot, and answers so.
    fn in_first(&mut self, slot: u32, verb: Verb, answer: CommandAnswer) -> Result<(), AllocError> {
        self.commands.push(command(0, slot, verb))?;
        self.first.push(answer)?;
        Ok(())
    }

    /// Lane 13 is given a command for this slot, and answers so.
    fn in_last(&mut self, slot: u32, verb: Verb, answer: CommandAnswer) -> Result<(), AllocError> {
        self.commands.push(command(13, slot, verb))?;
        self.last.push(answer)?;
        Ok(())
    }
}

/// Lane 13 frees the last slot, with each answer.
fn add_frees(answered: &mut Answered) -> Result<(), AllocError> {
    for answer in [
        FreeAnswer::Counted,
        FreeAnswer::Loose,
        FreeAnswer::Freed,
        FreeAnswer::Empty,
        FreeAnswer::Fault,
        FreeAnswer::Damaged(77),
    ] {
        answered.in_last(65535, Verb::Free, CommandAnswer::Free(answer))?;
    }
    Ok(())
}

/// Lane 0 writes, with each answer.
fn add_writes(answered: &mut Answered) -> Result<(), AllocError> {
    for (slot, answer) in [
        (1, WriteAnswer::New),
        (2, WriteAnswer::Hit),
        (2, WriteAnswer::Taken),
        (3, WriteAnswer::Quota),
        (4, WriteAnswer::Clash),
        (5, WriteAnswer::Off),
        (6, WriteAnswer::Fault),
        (7, WriteAnswer::Damaged(77)),
    ] {
        answered.in_first(slot, write_of_a(), CommandAnswer::Write(answer))?;
    }
    Ok(())
}

/// Both lanes read, with each answer.
fn add_reads(alloc: Global, answered: &mut Answered) -> Result<(), AllocError> {
    let fault = CommandAnswer::Read(ReadAnswer::Fault);
    answered.in_last(0, Verb::Read, fault)?;
    let one = block_of(alloc, 0x61, 1)?;
    answered.in_first(1, Verb::Read, one)?;
    let damage = CommandAnswer::Read(ReadAnswer::Damaged(77));
    answered.in_last(1, Verb::Read, damage)?;
    let empty = CommandAnswer::Read(ReadAnswer::Empty);
    answered.in_first(9, Verb::Read, empty)?;
    let three = block_of(alloc, 0xfa, 3)?;
    answered.in_first(10, Verb::Read, three)
}

/// Commands of each kind, with each answer.
fn all_answers(alloc: Global) -> Result<Answered, AllocError> {
    let mut answered = Answered::new(alloc);
    add_frees(&mut answered)?;
    add_writes(&mut answered)?;
    add_reads(alloc, &mut answered)?;
    Ok(answered)
}

/// Sees what is written of a group with this note.
fn assert_group(
    rt: &impl Abort,
    alloc: Global,
    what: &str,
    item: &Item,
    note: &GroupNote,
    want: &[u8],
) {
    let mut out = MemSink::new(alloc, Vec::new(alloc));
    let result = write_item(&mut out, item, Some(note), &NO_STATS, 1, None);
    assert_same(rt, what, result, Ok(()));
    assert_same(rt, what, out.bytes(), want);
}

/// What is told of all answers.
const ALL_ANSWERS: &str = "group 2 sealed\n\
    0 write 1 new\n\
    0 write 2 hit\n\
    0 write 2 taken\n\
    0 write 3 quota\n\
    0 write 4 clash\n\
    0 write 5 off\n\
    0 write 6 fault\n\
    0 write 7 damaged 77\n\
    0 read 1 bytes 61\n\
    0 read 9 empty\n\
    0 read 10 bytes fafafa\n\
    13 free 65535 counted\n\
    13 free 65535 loose\n\
    13 free 65535 freed\n\
    13 free 65535 empty\n\
    13 free 65535 fault\n\
    13 free 65535 damaged 77\n\
    13 read 0 fault\n\
    13 read 1 damaged 77\n";

/// Adds the note of a lane, where it gave answers.
fn add_lane(
    alloc: Global,
    lanes: &mut Vec<LaneNote>,
    lane: u32,
    answers: Vec<CommandAnswer>,
) -> Result<(), AllocError> {
    if answers.is_empty() {
        return Ok(());
    }
    lanes.push(lane_note(alloc, lane, answers))?;
    Ok(())
}

/// The item and the note of a group of these commands.
fn group_of(alloc: Global, answered: Answered) -> Result<(Item, GroupNote), AllocError> {
    let Answered {
        commands,
        first,
        last,
    } = answered;
    let mut lanes = Vec::new(alloc);
    add_lane(alloc, &mut lanes, 0, first)?;
    add_lane(alloc, &mut lanes, 13, last)?;
    let note = group_note(2, Outcome::Sealed, 0, lanes);
    Ok((lanes_group(commands), note))
}

#[test]
fn a_lanes_group_tells_each_command_lane_by_lane(rt: HostRuntime) -> Result<(), Fail> {
    let answered = all_answers(rt.alloc())?;
    let (item, note) = group_of(rt.alloc(), answered)?;
    let want = ALL_ANSWERS.as_bytes();
    assert_group(&rt, rt.alloc(), "all answers", &item, &note, want);
    Ok(())
}

/// A group of lanes of which no command is told.
fn no_commands(alloc: Global) -> Item {
    lanes_group(Vec::new(alloc))
}

/// A prune.
fn prune() -> Item {
    Item::Prune {
        moment: 2000,
        rule: PruneRule::Share(100),
    }
}

/// A setting of a lane's mode.
fn setting() -> Item {
    Item::SetMode {
        lane: 0,
        mode: Mode::Off,
    }
}

/// Want of room.
const NO_SPACE: Outcome = Outcome::NoSpace {
    need: 2024,
    free: 2012,
};

/// Sees what is told of a group with this number that ended so, with so many homes taken.
fn assert_outcome(
    rt: &impl Abort,
    alloc: Global,
    item: &Item,
    number: u64,
    outcome: Outcome,
    taken: u64,
    want: &str,
) {
    let note = group_note(number, outcome, taken, Vec::new(alloc));
    assert_group(rt, alloc, want, item, &note, want.as_bytes());
}

/// Sees what is told of a group of lanes.
fn assert_lanes_outcomes(rt: &impl Abort, alloc: Global) {
    let item = no_commands(alloc);
    let sealed = "group 4 sealed\n";
    assert_outcome(rt, alloc, &item, 4, Outcome::Sealed, 0, sealed);
    let refused = "group 2 nospace 2024 2012\n";
    assert_outcome(rt, alloc, &item, 2, NO_SPACE, 0, refused);
    assert_outcome(rt, alloc, &item, 2, Outcome::Cut, 0, "");
}

/// Sees what is told of a prune.
fn assert_prune_outcomes(rt: &impl Abort, alloc: Global) {
    let item = prune();
    let one = "prune 3 sealed 1\n";
    assert_outcome(rt, alloc, &item, 3, Outcome::Sealed, 1, one);
    let none = "prune 3 sealed 0\n";
    assert_outcome(rt, alloc, &item, 3, Outcome::Sealed, 0, none);
    let refused = "prune 3 nospace 2024 2012\n";
    assert_outcome(rt, alloc, &item, 3, NO_SPACE, 0, refused);
    assert_outcome(rt, alloc, &item, 2, Outcome::Cut, 0, "");
}

/// Sees what is told of a setting of the quota.
fn assert_quota_outcomes(rt: &impl Abort, alloc: Global) {
    let item = Item::Quota(Some(256));
    let sealed = "quota 2 sealed\n";
    assert_outcome(rt, alloc, &item, 2, Outcome::Sealed, 0, sealed);
    let refused = "quota 4 nospace 2024 2012\n";
    assert_outcome(rt, alloc, &item, 4, NO_SPACE, 0, refused);
}

/// Sees what is told of a setting of a mode.
fn assert_mode_outcomes(rt: &impl Abort, alloc: Global) {
    let item = setting();
    let sealed = "mode 2 sealed\n";
    assert_outcome(rt, alloc, &item, 2, Outcome::Sealed, 0, sealed);
    let refused = "mode 5 nospace 2024 2012\n";
    assert_outcome(rt, alloc, &item, 5, NO_SPACE, 0, refused);
}

#[test]
fn each_group_tells_its_number_and_outcome(rt: HostRuntime) {
    assert_lanes_outcomes(&rt, rt.alloc());
    assert_prune_outcomes(&rt, rt.alloc());
    assert_quota_outcomes(&rt, rt.alloc());
    assert_mode_outcomes(&rt, rt.alloc());
}

/// What `stat` tells of one key with one pointer.
const OF_ONE_KEY: &str =
    "stat 2\nquota none\nkeys 1\nunique 1\nduplicate 0\nrefs 1\nloose 0\nplain 0\n\
    allocated 1\nreferenced 1\nbucket 1 keys 1 allocated 1 referenced 1\n";

/// What it tells of keys in two buckets.
const OF_TWO_BUCKETS: &str = "stat 4\nquota 18446744073709551615\nkeys 3\nunique 2\nduplicate 1\n\
    refs 10\nloose 300\nplain 7\nallocated 4098\nreferenced 4105\n\
    bucket 1 keys 2 allocated 4097 referenced 4097\n\
    bucket 8 keys 1 allocated 1 referenced 8\n";

/// What it tells of no key.
const OF_NO_KEY: &str = "stat 1\nquota 0\nkeys 0\nunique 0\nduplicate 0\nrefs 0\nloose 0\nplain 0\n\
    allocated 0\nreferenced 0\n";

/// The statistics of one key with one pointer.
fn one_key() -> Stats {
    stats_of([1, 1, 0, 1, 0, 0, 1, 1], &[(0, 1, 1, 1)])
}

/// The statistics of keys in two buckets.
fn two_buckets() -> Stats {
    stats_of(
        [3, 2, 1, 10, 300, 7, 4098, 4105],
        &[(0, 2, 4097, 4097), (3, 1, 1, 8)],
    )
}

/// Sees what is told of an item that is no group, where these are the pool's statistics, its group and its quota.
fn assert_pool(
    rt: &impl Abort,
    alloc: Global,
    item: &Item,
    stats: &Stats,
    group: u64,
    quota: Option<u64>,
    want: &str,
) {
    let mut out = MemSink::new(alloc, Vec::new(alloc));
    let result = write_item(&mut out, item, None, stats, group, quota);
    assert_same(rt, want, result, Ok(()));
    assert_same(rt, want, out.bytes(), want.as_bytes());
}

#[test]
fn a_stat_tells_the_numbers_of_the_pool(rt: HostRuntime) {
    let alloc = rt.alloc();
    let stat = Item::Stat;
    assert_pool(&rt, alloc, &stat, &one_key(), 2, None, OF_ONE_KEY);
    let limit = Some(u64::MAX);
    assert_pool(&rt, alloc, &stat, &two_buckets(), 4, limit, OF_TWO_BUCKETS);
    assert_pool(&rt, alloc, &stat, &NO_STATS, 1, Some(0), OF_NO_KEY);
}

#[test]
fn each_other_item_tells_the_group_of_the_pool_or_nothing(rt: HostRuntime) {
    let alloc = rt.alloc();
    let stats = one_key();
    assert_pool(&rt, alloc, &Item::Import, &stats, 18, None, "import 18\n");
    assert_pool(&rt, alloc, &Item::Create, &NO_STATS, 1, None, "create 1\n");
    assert_pool(&rt, alloc, &Item::Quota(None), &stats, 2, None, "");
}

/// What is told of a read of so many bytes, each of which is b0.
fn told_of_read(alloc: Global, count: usize) -> Result<Vec<u8>, AllocError> {
    let mut want = Vec::from_slice(alloc, b"group 2 sealed\n0 read 1 bytes ")?;
    for _ in 0..count {
        want.extend_from_slice(b"b0")?;
    }
    want.push(b'\n')?;
    Ok(want)
}

/// A read of so many bytes in lane 0.
fn read_of(alloc: Global, count: usize) -> Result<Answered, AllocError> {
    let mut answered = Answered::new(alloc);
    let block = block_of(alloc, 0xb0, count)?;
    answered.in_first(1, Verb::Read, block)?;
    Ok(answered)
}

/// Sees what is told of it.
fn assert_block(rt: &impl Abort, alloc: Global, what: &str, count: usize) -> Result<(), Fail> {
    let (item, note) = group_of(alloc, read_of(alloc, count)?)?;
    let want = told_of_read(alloc, count)?;
    assert_group(rt, alloc, what, &item, &note, want.as_slice());
    Ok(())
}

#[test]
fn a_whole_block_is_told_in_hex(rt: HostRuntime) -> Result<(), Fail> {
    assert_block(&rt, rt.alloc(), "511 bytes", 511)?;
    assert_block(&rt, rt.alloc(), "512 bytes", 512)?;
    assert_block(&rt, rt.alloc(), "513 bytes", 513)?;
    assert_block(&rt, rt.alloc(), "4,096 bytes", 4096)
}

/// Two writes in lane 0.
fn two_writes(alloc: Global) -> Result<Answered, AllocError> {
    let mut answered = Answered::new(alloc);
    let made = CommandAnswer::Write(WriteAnswer::New);
    answered.in_first(1, write_of_a(), made)?;
    let shared = CommandAnswer::Write(WriteAnswer::Hit);
    answered.in_first(2, write_of_a(), shared)?;
    Ok(answered)
}

/// Sees what is told of a group where this call of the sink fails.
fn assert_front(
    rt: &impl Abort,
    alloc: Global,
    item: &Item,
    note: &GroupNote,
    failing: u64,
    want: &str,
) -> Result<(), AllocError> {
    let mut out = MemSink::new(alloc, vec![in alloc; failing]?);
    let result = write_item(&mut out, item, Some(note), &NO_STATS, 2, None);
    assert_same_at(rt, "failing write", failing, result, Err(Failed));
    let told = out.bytes();
    assert_same_at(rt, "before write", failing, told, want.as_bytes());
    Ok(())
}

#[test]
fn a_failed_write_leaves_the_lines_before_it(rt: HostRuntime) -> Result<(), Fail> {
    let alloc = rt.alloc();
    let (item, note) = group_of(alloc, two_writes(alloc)?)?;
    let two_lines = "group 2 sealed\n0 write 1 new\n";
    assert_front(&rt, alloc, &item, &note, 1, "")?;
    assert_front(&rt, alloc, &item, &note, 2, "group 2 sealed\n")?;
    assert_front(&rt, alloc, &item, &note, 3, two_lines)?;
    Ok(())
}
