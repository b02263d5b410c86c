use std::alloc::{AllocError, Global};

/// A command file, and the report of it over a new pool.
#[derive(Clone, Copy)]
pub(crate) struct Scenario {
    pub(crate) file: &'static str,
    pub(crate) report: &'static str,
}

/// What `stat` tells of a new pool.
pub(crate) const EMPTY_STAT: &str =
    "stat 1\nquota none\nkeys 0\nunique 0\nduplicate 0\nrefs 0\nloose 0\nplain 0\nallocated 0\nreferenced 0\n";

/// What `stat` tells of a pool of group 2, of which one slot holds a block of one byte.
pub(crate) const ONE_STAT: &str =
    "stat 2\nquota none\nkeys 1\nunique 1\nduplicate 0\nrefs 1\nloose 0\nplain 0\nallocated 1\nreferenced 1\nbucket 1 keys 1 allocated 1 referenced 1\n";

/// What `stat` tells of a pool of group 2, of which two slots share a block of one byte.
pub(crate) const SHARED_STAT: &str =
    "stat 2\nquota none\nkeys 1\nunique 0\nduplicate 1\nrefs 2\nloose 0\nplain 0\nallocated 1\nreferenced 2\nbucket 2 keys 1 allocated 1 referenced 2\n";

/// One block is written to one slot.
pub(crate) const ONE_WRITE: Scenario = Scenario {
    file: "group 1000\n0 write 1 61\nend\nstat\n",
    report: "group 2 sealed\n0 write 1 new\nstat 2\nquota none\nkeys 1\nunique 1\nduplicate 0\nrefs 1\nloose 0\nplain 0\nallocated 1\nreferenced 1\nbucket 1 keys 1 allocated 1 referenced 1\n",
};

/// Two slots share a block.
pub(crate) const SHARED_BLOCK: Scenario = Scenario {
    file: "group 1000\n0 write 1 61\n0 write 2 61\nend\nstat\n",
    report: "group 2 sealed\n0 write 1 new\n0 write 2 hit\nstat 2\nquota none\nkeys 1\nunique 0\nduplicate 1\nrefs 2\nloose 0\nplain 0\nallocated 1\nreferenced 2\nbucket 2 keys 1 allocated 1 referenced 2\n",
};

/// A slot that holds a block is written to again.
pub(crate) const TAKEN_SLOT: Scenario = Scenario {
    file: "group 1000\n0 write 1 61\n0 write 1 62\nend\nstat\n",
    report: "group 2 sealed\n0 write 1 new\n0 write 1 taken\nstat 2\nquota none\nkeys 1\nunique 1\nduplicate 0\nrefs 1\nloose 0\nplain 0\nallocated 1\nreferenced 1\nbucket 1 keys 1 allocated 1 referenced 1\n",
};

/// Blocks of one, two and three bytes, with one, two and five pointers, in slots from the first to the last.
pub(crate) const THREE_COUNTS: Scenario = Scenario {
    file: "group 1099511627775\n0 write 65535 636363\n0 write 0 61\n0 write 7 6262\n0 write 3 636363\n0 write 5 636363\n0 write 6 6262\n0 write 4 636363\n0 write 9 636363\nend\nstat\n",
    report: "group 2 sealed\n0 write 65535 new\n0 write 0 new\n0 write 7 new\n0 write 3 hit\n0 write 5 hit\n0 write 6 hit\n0 write 4 hit\n0 write 9 hit\nstat 2\nquota none\nkeys 3\nunique 1\nduplicate 2\nrefs 8\nloose 0\nplain 0\nallocated 6\nreferenced 20\nbucket 1 keys 1 allocated 1 referenced 1\nbucket 2 keys 1 allocated 2 referenced 4\nbucket 4 keys 1 allocated 3 referenced 15\n",
};

/// Blocks with two and three pointers are counted in one bucket.
pub(crate) const ONE_BUCKET: Scenario = Scenario {
    file: "group 0\n0 write 1 61\n0 write 2 61\n0 write 3 6262\n0 write 4 6262\n0 write 5 6262\nend\nstat\n",
    report: "group 2 sealed\n0 write 1 new\n0 write 2 hit\n0 write 3 new\n0 write 4 hit\n0 write 5 hit\nstat 2\nquota none\nkeys 2\nunique 0\nduplicate 2\nrefs 5\nloose 0\nplain 0\nallocated 3\nreferenced 8\nbucket 2 keys 2 allocated 3 referenced 8\n",
};

/// Groups with imports between, and a block that a later group shares with an earlier one.
pub(crate) const SEVERAL_GROUPS: Scenario = Scenario {
    file: "group 1000\n0 write 0 61\n0 write 1 6262\nend\nimport\ngroup 1001\nend\ngroup 1001\n0 write 2 61\nend\nimport\nstat\n",
    report: "group 2 sealed\n0 write 0 new\n0 write 1 new\nimport 2\ngroup 3 sealed\ngroup 4 sealed\n0 write 2 hit\nimport 4\nstat 4\nquota none\nkeys 2\nunique 1\nduplicate 1\nrefs 3\nloose 0\nplain 0\nallocated 3\nreferenced 4\nbucket 1 keys 1 allocated 2 referenced 2\nbucket 2 keys 1 allocated 1 referenced 2\n",
};

/// All of them.
pub(crate) const SCENARIOS: [Scenario; 6] = [
    ONE_WRITE,
    SHARED_BLOCK,
    TAKEN_SLOT,
    THREE_COUNTS,
    ONE_BUCKET,
    SEVERAL_GROUPS,
];

/// A file of a group at this moment that writes blocks of these lengths, of `a` alone, to slot 1.
pub(crate) fn file_of_lengths(
    alloc: Global,
    moment: u64,
    lengths: &[u32],
) -> Result<String, AllocError> {
    let mut text = format!(in alloc; "group {moment}\n")?;
    for length in lengths {
        text.push_str("0 write 1 ")?;
        for _ in 0..*length {
            text.push_str("61")?;
        }
        text.push_str("\n")?;
    }
    text.push_str("end\nstat\n")?;
    Ok(text)
}

/// A file of a group that writes so many blocks of two bytes, each with other bytes, to slots of their own.
pub(crate) fn file_of_writes(alloc: Global, writes: u32) -> Result<String, AllocError> {
    let mut text = String::from_str(alloc, "group 1000\n")?;
    for slot in 0..writes {
        write!(&mut text, "0 write {slot} {slot:04x}\n")?;
    }
    text.push_str("end\nstat\n")?;
    Ok(text)
}

/// The report of so many such writes.
pub(crate) fn report_of_writes(alloc: Global, writes: u32) -> Result<String, AllocError> {
    let mut text = String::from_str(alloc, "group 2 sealed\n")?;
    for slot in 0..writes {
        write!(&mut text, "0 write {slot} new\n")?;
    }
    let bytes = 2 * writes as u64;
    write!(
        &mut text,
        "stat 2\nquota none\nkeys {writes}\nunique {writes}\nduplicate 0\n"
    )?;
    write!(
        &mut text,
        "refs {writes}\nloose 0\nplain 0\nallocated {bytes}\nreferenced {bytes}\n"
    )?;
    write!(
        &mut text,
        "bucket 1 keys {writes} allocated {bytes} referenced {bytes}\n"
    )?;
    Ok(text)
}

/// A file of twenty groups, each of which writes the same block to a slot of its own.
pub(crate) fn file_of_twenty_groups(alloc: Global) -> Result<String, AllocError> {
    let mut text = String::new(alloc);
    for slot in 0..20u32 {
        write!(&mut text, "group 1000\n0 write {slot} 61\nend\n")?;
    }
    text.push_str("import\nstat\n")?;
    Ok(text)
}

/// The report of it.
pub(crate) fn report_of_twenty_groups(alloc: Global) -> Result<String, AllocError> {
    let mut text = String::from_str(alloc, "group 2 sealed\n0 write 0 new\n")?;
    for slot in 1..20u32 {
        let group = slot + 2;
        write!(&mut text, "group {group} sealed\n0 write {slot} hit\n")?;
    }
    text.push_str("import 21\n")?;
    text.push_str(TWENTY_STAT)?;
    Ok(text)
}

/// What `stat` tells behind twenty groups that wrote the same block of one byte.
pub(crate) const TWENTY_STAT: &str =
    "stat 21\nquota none\nkeys 1\nunique 0\nduplicate 1\nrefs 20\nloose 0\nplain 0\nallocated 1\nreferenced 20\nbucket 16 keys 1 allocated 1 referenced 20\n";
