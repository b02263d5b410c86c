use pool_model::{Bucket, CommandAnswer, FreeAnswer, ReadAnswer, Stats, WriteAnswer};
use std::alloc::AllocError;

/// The word of a write's answer.
fn write_word(answer: &WriteAnswer) -> &'static str {
    match answer {
        WriteAnswer::New => " new",
        WriteAnswer::Hit => " hit",
        WriteAnswer::Quota => " quota",
        WriteAnswer::Clash => " clash",
        WriteAnswer::Off => " off",
        WriteAnswer::Taken => " taken",
        WriteAnswer::Fault => " fault",
        WriteAnswer::Damaged(_) => " damaged",
    }
}

/// The word of a free's answer.
fn free_word(answer: &FreeAnswer) -> &'static str {
    match answer {
        FreeAnswer::Counted => " counted",
        FreeAnswer::Loose => " loose",
        FreeAnswer::Freed => " freed",
        FreeAnswer::Empty => " empty",
        FreeAnswer::Fault => " fault",
        FreeAnswer::Damaged(_) => " damaged",
    }
}

/// The word of a read's answer.
fn read_word(answer: &ReadAnswer) -> &'static str {
    match answer {
        ReadAnswer::Bytes(_) => " bytes ",
        ReadAnswer::Empty => " empty",
        ReadAnswer::Fault => " fault",
        ReadAnswer::Damaged(_) => " damaged",
    }
}

/// The word of an answer.
fn word_of(answer: &CommandAnswer) -> &'static str {
    match answer {
        CommandAnswer::Write(answer) => write_word(answer),
        CommandAnswer::Free(answer) => free_word(answer),
        CommandAnswer::Read(answer) => read_word(answer),
    }
}

/// The sector that an answer tells as damaged.
fn sector_of(answer: &CommandAnswer) -> Option<u64> {
    match answer {
        CommandAnswer::Write(WriteAnswer::Damaged(sector)) => Some(*sector),
        CommandAnswer::Free(FreeAnswer::Damaged(sector)) => Some(*sector),
        CommandAnswer::Read(ReadAnswer::Damaged(sector)) => Some(*sector),
        _ => None,
    }
}

/// The bytes that an answer tells.
fn bytes_of(answer: &CommandAnswer) -> &[u8] {
    match answer {
        CommandAnswer::Read(ReadAnswer::Bytes(block)) => block.as_slice(),
        _ => &[],
    }
}

/// Writes a number behind a space.
fn write_number(report: &mut String, number: u64) -> Result<(), AllocError> {
    write!(report, " {number}")
}

/// Writes bytes in hex.
fn write_bytes(report: &mut String, bytes: &[u8]) -> Result<(), AllocError> {
    for byte in bytes {
        write!(report, "{byte:02x}")?;
    }
    Ok(())
}

/// Writes an answer as a report has it.
pub(crate) fn write_answer(report: &mut String, answer: &CommandAnswer) -> Result<(), AllocError> {
    report.push_str(word_of(answer))?;
    if let Some(sector) = sector_of(answer) {
        write_number(report, sector)?;
    }
    write_bytes(report, bytes_of(answer))
}

/// Writes a name and a number.
pub(crate) fn write_named(report: &mut String, name: &str, number: u64) -> Result<(), AllocError> {
    report.push_str(name)?;
    write_number(report, number)
}

/// Writes a bucket that has keys.
fn write_bucket(report: &mut String, bucket: &Bucket) -> Result<(), AllocError> {
    for (name, number) in [
        (" bucket", bucket.low),
        (" keys", bucket.keys),
        (" allocated", bucket.allocated),
        (" referenced", bucket.referenced),
    ] {
        write_named(report, name, number)?;
    }
    Ok(())
}

/// Writes the sums of statistics.
fn write_sums(report: &mut String, stats: &Stats) -> Result<(), AllocError> {
    for (name, number) in [
        (" / keys", stats.keys),
        (" unique", stats.unique),
        (" duplicate", stats.duplicate),
        (" refs", stats.refs),
        (" loose", stats.loose),
        (" plain", stats.plain),
        (" allocated", stats.allocated),
        (" referenced", stats.referenced),
    ] {
        write_named(report, name, number)?;
    }
    Ok(())
}

/// Writes statistics, with the buckets that have keys.
pub(crate) fn write_stats(report: &mut String, stats: &Stats) -> Result<(), AllocError> {
    write_sums(report, stats)?;
    for bucket in &stats.buckets {
        if bucket.keys > 0 {
            write_bucket(report, bucket)?;
        }
    }
    Ok(())
}
