//! Bad command files: each with the number of its first bad line and what is wrong with that line.

use crate::command_files::assert_read;
use std::alloc::{AllocError, Global};
use std::process::Abort;
use std::test::Fail;

/// Sees what is told of bad files.
fn assert_bad(rt: &impl Abort, alloc: Global, files: &[(&str, &str)]) -> Result<(), AllocError> {
    for (text, want) in files {
        assert_read(rt, alloc, text, 4096, want)?;
    }
    Ok(())
}

/// Lines that may not stand where they are.
const MISPLACED: [(&str, &str); 20] = [
    ("hello\n", "1 Form"),
    ("create\n", "1 Form"),
    ("Stat\n", "1 Form"),
    ("stats\n", "1 Form"),
    ("stat \n", "1 Form"),
    (" stat\n", "1 Form"),
    ("stat 2\n", "1 Form"),
    ("import 2\n", "1 Form"),
    ("imports\n", "1 Form"),
    (" # a note\n", "1 Form"),
    ("end\n", "1 Form"),
    ("stat\nend\n", "2 Form"),
    ("0 write 1 61\n", "1 Form"),
    ("group 1\nend\n0 write 1 61\n", "3 Form"),
    ("group 1\n0 write 1 61\nstat\n", "3 Form"),
    ("group 1\nimport\nend\n", "2 Form"),
    ("group 1\ngroup 2\nend\n", "2 Form"),
    ("group 1\nend\nend\n", "3 Form"),
    ("group 1\nend \n", "2 Form"),
    ("group 1\nEND\n", "2 Form"),
];

#[test]
fn a_line_may_not_stand_everywhere(rt: HostRuntime) -> Result<(), Fail> {
    assert_bad(&rt, rt.alloc(), &MISPLACED)?;
    Ok(())
}

/// Lines with bytes that no line but a comment may have.
const STRANGE: [(&str, &str); 15] = [
    ("stat\r\n", "1 Form"),
    ("\r\n", "1 Form"),
    ("stat\n\r\nstat\n", "2 Form"),
    ("group 1\r\nend\r\n", "1 Form"),
    ("group 1\n0 write 1 61\r\nend\n", "2 Form"),
    ("\tstat\n", "1 Form"),
    ("group\t1\nend\n", "1 Form"),
    ("stat\u{a0}\n", "1 Form"),
    ("group\u{a0}1\nend\n", "1 Form"),
    ("stat\0\n", "1 Form"),
    ("\0\n", "1 Form"),
    ("group 1\n0 write 1 61\0\nend\n", "2 Form"),
    ("group \u{661}\nend\n", "1 Form"),
    ("\u{feff}stat\n", "1 Form"),
    ("# \0 \u{a0} \r\nstat\nx", "3 Form"),
];

#[test]
fn only_a_comment_has_strange_bytes(rt: HostRuntime) -> Result<(), Fail> {
    assert_bad(&rt, rt.alloc(), &STRANGE)?;
    Ok(())
}

/// A group's line.
const MOMENTS: [(&str, &str); 15] = [
    ("group\nend\n", "1 Form"),
    ("group \nend\n", "1 Form"),
    ("group  1\nend\n", "1 Form"),
    ("group 1 \nend\n", "1 Form"),
    ("group 1 2\nend\n", "1 Form"),
    ("group 01\nend\n", "1 Form"),
    ("group 00\nend\n", "1 Form"),
    ("group -1\nend\n", "1 Form"),
    ("group +1\nend\n", "1 Form"),
    ("group 1x\nend\n", "1 Form"),
    ("group x1\nend\n", "1 Form"),
    ("Group 1\nend\n", "1 Form"),
    ("group 1099511627776\nend\n", "1 Range"),
    ("group 18446744073709551616\nend\n", "1 Range"),
    (
        "group 100000000000000000000000000000000000000000000000000\nend\n",
        "1 Range",
    ),
];

#[test]
fn a_group_has_one_moment_in_its_range(rt: HostRuntime) -> Result<(), Fail> {
    assert_bad(&rt, rt.alloc(), &MOMENTS)?;
    Ok(())
}

/// Writes with a word out of its form or its range, and other commands.
const WRITES: [(&str, &str); 21] = [
    ("group 1\n0 write 1\nend\n", "2 Form"),
    ("group 1\n0 write 1 61 62\nend\n", "2 Form"),
    ("group 1\n0 write 1 61 \nend\n", "2 Form"),
    ("group 1\n0  write 1 61\nend\n", "2 Form"),
    ("group 1\n0 write  1 61\nend\n", "2 Form"),
    ("group 1\n 0 write 1 61\nend\n", "2 Form"),
    ("group 1\n0 Write 1 61\nend\n", "2 Form"),
    ("group 1\n0 writes 1 61\nend\n", "2 Form"),
    ("group 1\n0 write 01 61\nend\n", "2 Form"),
    ("group 1\n0 write 00 61\nend\n", "2 Form"),
    ("group 1\n0 write +1 61\nend\n", "2 Form"),
    ("group 1\n0 write 1x 61\nend\n", "2 Form"),
    ("group 1\n0 write 0x1 61\nend\n", "2 Form"),
    ("group 1\n0 write 65536 61\nend\n", "2 Range"),
    ("group 1\n0 write 18446744073709551617 61\nend\n", "2 Range"),
    ("group 1\n00 write 1 61\nend\n", "2 Form"),
    ("group 1\nx write 1 61\nend\n", "2 Form"),
    ("group 1\n1 write 1 61\nend\n", "2 Form"),
    ("group 1\n16 write 1 61\nend\n", "2 Form"),
    ("group 1\n0 read 1\nend\n", "2 Form"),
    ("group 1\n0 free 1\nend\n", "2 Form"),
];

#[test]
fn a_write_has_its_words_in_their_ranges(rt: HostRuntime) -> Result<(), Fail> {
    assert_bad(&rt, rt.alloc(), &WRITES)?;
    Ok(())
}

/// Writes of a block out of its form or its range.
const BLOCKS: [(&str, &str); 21] = [
    ("group 1\n0 write 1 \nend\n", "2 Form"),
    ("group 1\n0 write 1 6\nend\n", "2 Form"),
    ("group 1\n0 write 1 616\nend\n", "2 Form"),
    ("group 1\n0 write 1 6g\nend\n", "2 Form"),
    ("group 1\n0 write 1 G1\nend\n", "2 Form"),
    ("group 1\n0 write 1 0x61\nend\n", "2 Form"),
    ("group 1\n0 write 1 61*0\nend\n", "2 Range"),
    ("group 1\n0 write 1 61*4097\nend\n", "2 Range"),
    (
        "group 1\n0 write 1 61*18446744073709551616\nend\n",
        "2 Range",
    ),
    ("group 1\n0 write 1 61*00\nend\n", "2 Form"),
    ("group 1\n0 write 1 61*01\nend\n", "2 Form"),
    ("group 1\n0 write 1 6162*2\nend\n", "2 Form"),
    ("group 1\n0 write 1 6*2\nend\n", "2 Form"),
    ("group 1\n0 write 1 6g*2\nend\n", "2 Form"),
    ("group 1\n0 write 1 *2\nend\n", "2 Form"),
    ("group 1\n0 write 1 61*\nend\n", "2 Form"),
    ("group 1\n0 write 1 61**2\nend\n", "2 Form"),
    ("group 1\n0 write 1 61*2*2\nend\n", "2 Form"),
    ("group 1\n0 write 1 61*-1\nend\n", "2 Form"),
    ("group 1\n0 write 1 61*2a\nend\n", "2 Form"),
    ("group 1\n0 write 1 61 *2\nend\n", "2 Form"),
];

#[test]
fn a_block_has_its_form_and_its_length(rt: HostRuntime) -> Result<(), Fail> {
    assert_bad(&rt, rt.alloc(), &BLOCKS)?;
    Ok(())
}

/// Lines with two things wrong, and files with two bad lines.
const ORDERED: [(&str, &str); 9] = [
    ("group 1\n0 write 65536 6\nend\n", "2 Form"),
    ("group 1\n0 write x 61*0\nend\n", "2 Form"),
    ("group 1\n0 write 65536 61*00\nend\n", "2 Form"),
    ("group 1\n0 write 65536 61*0\nend\n", "2 Range"),
    ("group 1\n0 write 65536 61\nhello\n", "2 Range"),
    ("hello\ngroup 1099511627776\n", "1 Form"),
    ("group 1099511627776\nhello\n", "1 Range"),
    ("group 1\n0 write 1 61\n0 write 65536 61\n", "3 Range"),
    ("stat\n\n# x\nhello\nworld\n", "4 Form"),
];

#[test]
fn the_first_bad_line_counts_and_form_before_range(rt: HostRuntime) -> Result<(), Fail> {
    assert_bad(&rt, rt.alloc(), &ORDERED)?;
    Ok(())
}

/// Files that end inside a group.
const OPEN: [(&str, &str); 7] = [
    ("group 1", "2 Open"),
    ("group 1\n", "2 Open"),
    ("group 1\n\n", "3 Open"),
    ("group 1\n0 write 1 61\n", "3 Open"),
    ("group 1\n0 write 1 61", "3 Open"),
    ("group 1\n0 write 1 61\n# end", "4 Open"),
    ("stat\ngroup 1\nend\ngroup 2\n# x\n\n", "7 Open"),
];

#[test]
fn a_file_does_not_end_inside_a_group(rt: HostRuntime) -> Result<(), Fail> {
    assert_bad(&rt, rt.alloc(), &OPEN)?;
    Ok(())
}

/// Lines of settings.
const SETTINGS: [(&str, &str); 16] = [
    ("quota\n", "1 Form"),
    ("quota \n", "1 Form"),
    ("quota 01\n", "1 Form"),
    ("quota -1\n", "1 Form"),
    ("quota None\n", "1 Form"),
    ("quota 1 2\n", "1 Form"),
    ("quota 18446744073709551616\n", "1 Range"),
    ("quota 18446744073709551616\nhello\n", "1 Range"),
    ("mode 0\n", "1 Form"),
    ("mode 0 On\n", "1 Form"),
    ("mode 0 on on\n", "1 Form"),
    ("mode x on\n", "1 Form"),
    ("mode 16 maybe\n", "1 Form"),
    ("mode 16 on\n", "1 Range"),
    ("mode 18446744073709551616 off\n", "1 Range"),
    ("group 1\nquota 5\nend\n", "2 Form"),
];

#[test]
fn a_setting_has_its_words_in_their_ranges(rt: HostRuntime) -> Result<(), Fail> {
    assert_bad(&rt, rt.alloc(), &SETTINGS)?;
    Ok(())
}

/// Lines of prunes.
const PRUNES: [(&str, &str); 14] = [
    ("prune\n", "1 Form"),
    ("prune 1\n", "1 Form"),
    ("prune 1 age\n", "1 Form"),
    ("prune 1 share\n", "1 Form"),
    ("prune 1 old 1\n", "1 Form"),
    ("prune 01 age 1\n", "1 Form"),
    ("prune 1 age 01\n", "1 Form"),
    ("prune 1 age 1 1\n", "1 Form"),
    ("prune x age 1000001\n", "1 Form"),
    ("prune 1 age 1000001\n", "1 Range"),
    ("prune 1 share 101\n", "1 Range"),
    ("prune 1099511627776 age 1\n", "1 Range"),
    ("stat\nprune 1 share 101\nhello\n", "2 Range"),
    ("group 1\nprune 1 share 1\nend\n", "2 Form"),
];

#[test]
fn a_prune_has_its_words_in_their_ranges(rt: HostRuntime) -> Result<(), Fail> {
    assert_bad(&rt, rt.alloc(), &PRUNES)?;
    Ok(())
}
