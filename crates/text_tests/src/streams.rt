ghost use Rattle.std.specs.Prelude.{◌<◌};

use crate::comparing::{assert_same, assert_same_at};
use io_model::*;
use std::alloc::{AllocError, Global};
use std::io;
use std::io::{ErrorKind, Read, Write};
use std::process::Abort;
use std::test::Fail;

/// What the sources give and the sinks take.
const TEXT: &[u8; 5] = b"hello";

/// A reader of five bytes, one at each call, whose third call fails.
#[derive(Drop)]
struct Faulty {
    calls: u8,
}

impl Read for Faulty {
    fn read(&mut self, buf: &mut [u8]) -> io::Result<usize> {
        self.calls = self.calls.saturating_add(1);
        if self.calls == 3 {
            return Err(io::Error::from(ErrorKind::Other));
        }
        if buf.is_empty() || self.calls > 6 {
            return Ok(0);
        }
        buf[0] = b'x';
        Ok(1)
    }
}

/// A writer that takes two bytes at each call, and whose third call fails.
#[derive(Drop)]
struct Narrow {
    taken: Vec<u8>,
    calls: u8,
}

impl Write for Narrow {
    fn write(&mut self, buf: &[u8]) -> io::Result<usize> {
        self.calls = self.calls.saturating_add(1);
        if self.calls == 3 {
            return Err(io::Error::from(ErrorKind::Other));
        }
        let count = buf.len().min(2);
        self.taken.extend_from_slice(&buf[..count])?;
        Ok(count)
    }

    fn flush(&mut self) -> io::Result<()> {
        Ok(())
    }
}

/// A source of the text that gives at most `piece` bytes at a call, and whose calls of these numbers fail.
fn source_of_text(alloc: Global, piece: usize, fails: &[u64]) -> Result<MemSource, AllocError>
    requires { 0 < piece }
{
    let bytes = TEXT.to_vec(alloc)?;
    Ok(MemSource::new(bytes, piece, fails.to_vec(alloc)?))
}

/// Sees what a source in memory gives at a call for three bytes, and takes it over.
fn assert_gives(
    rt: &impl Abort,
    source: &mut MemSource,
    piece: u64,
    count: usize,
    given: &mut Vec<u8>,
) -> Result<(), Fail> {
    let mut buffer = [0u8; 3];
    let found = source.read(&mut buffer)?;
    assert_same_at(rt, "how many in pieces of", piece, found, count);
    given.extend_from_slice(&buffer[..found])?;
    Ok(())
}

/// Sees how many bytes a source in pieces of so many gives at each of six calls, and that they are the text.
fn assert_pieces(
    rt: &impl Abort,
    alloc: Global,
    piece: usize,
    counts: [usize; 6],
) -> Result<(), Fail> {
    assert!(rt; piece > 0);
    let mut source = source_of_text(alloc, piece, &[])?;
    let mut given = Vec::new(alloc);
    for count in counts {
        assert_gives(rt, &mut source, piece as u64, count, &mut given)?;
    }
    let given = given.as_slice();
    assert_same_at(rt, "in pieces of", piece as u64, given, TEXT.as_slice());
    Ok(())
}

#[test]
fn a_source_in_memory_gives_a_piece_at_each_call(rt: HostRuntime) -> Result<(), Fail> {
    assert_pieces(&rt, rt.alloc(), 1, [1, 1, 1, 1, 1, 0])?;
    assert_pieces(&rt, rt.alloc(), 2, [2, 2, 1, 0, 0, 0])?;
    assert_pieces(&rt, rt.alloc(), 9, [3, 2, 0, 0, 0, 0])
}

/// What a source in pieces of two, whose second call fails, answers to each call for four bytes, and what these are then.
const ANSWERS: [(u64, Result<usize, Failed>, &[u8; 4]); 5] = [
    (1, Ok(2), b"he--"),
    (2, Err(Failed), b"he--"),
    (3, Ok(2), b"ll--"),
    (4, Ok(1), b"ol--"),
    (5, Ok(0), b"ol--"),
];

/// Sees what a source answers to a call with this buffer, and what it holds then.
fn assert_answers(
    rt: &impl Abort,
    source: &mut MemSource,
    buffer: &mut [u8; 4],
    call: u64,
    answer: Result<usize, Failed>,
    after: &[u8; 4],
) {
    let found = source.read(buffer.as_mut_slice());
    assert_same_at(rt, "the answer of call", call, found, answer);
    let held = buffer.as_slice();
    assert_same_at(rt, "the buffer behind call", call, held, after.as_slice());
}

#[test]
fn a_source_in_memory_goes_on_after_a_failed_call(rt: HostRuntime) -> Result<(), Fail> {
    let mut source = source_of_text(rt.alloc(), 2, &[2])?;
    let mut buffer = [b'-'; 4];
    for (call, answer, after) in ANSWERS {
        assert_answers(&rt, &mut source, &mut buffer, call, answer, after);
    }
    Ok(())
}

/// Sees what is read of a source up to a limit.
fn assert_whole<S: Source>(
    rt: &impl Abort,
    alloc: Global,
    source: &mut S,
    what: &str,
    limit: u32,
    want: &[u8],
) -> Result<(), ReadFault> {
    let bytes = read_whole(alloc, source, limit as u64)?;
    assert_same(rt, what, bytes.as_slice(), want);
    Ok(())
}

/// Sees what is read of the text up to a limit, in pieces of so many bytes, and what behind it.
fn assert_cut(
    rt: &impl Abort,
    alloc: Global,
    limit: u32,
    piece: usize,
    front: &str,
    rest: &str,
) -> Result<(), Fail> {
    assert!(rt; piece > 0);
    let mut source = source_of_text(alloc, piece, &[])?;
    assert_whole(rt, alloc, &mut source, "the front", limit, front.as_bytes())?;
    assert_whole(rt, alloc, &mut source, "the rest", 9, rest.as_bytes())?;
    Ok(())
}

#[test]
fn a_source_is_read_to_one_byte_past_the_limit(rt: HostRuntime) -> Result<(), Fail> {
    let alloc = rt.alloc();
    assert_cut(&rt, alloc, 0, 9, "h", "ello")?;
    assert_cut(&rt, alloc, 3, 2, "hell", "o")?;
    assert_cut(&rt, alloc, 4, 2, "hello", "")?;
    assert_cut(&rt, alloc, 5, 1, "hello", "")?;
    assert_cut(&rt, alloc, 6, 9, "hello", "")
}

/// Sees that a source fails, and what is read of it then.
fn assert_fails<S: Source>(
    rt: &impl Abort,
    alloc: Global,
    source: &mut S,
    rest: &[u8],
) -> Result<(), ReadFault> {
    let fault = read_whole(alloc, source, 9).err();
    assert_same(rt, "the fault", fault, Some(ReadFault::Source));
    assert_whole(rt, alloc, source, "the rest", 9, rest)
}

#[test]
fn a_failed_read_of_a_source_in_memory_is_its_fault(rt: HostRuntime) -> Result<(), Fail> {
    let mut source = source_of_text(rt.alloc(), 2, &[2])?;
    assert_fails(&rt, rt.alloc(), &mut source, b"llo")?;
    Ok(())
}

#[test]
fn a_failed_read_of_a_reader_is_its_fault(rt: HostRuntime) -> Result<(), Fail> {
    let mut source = StdSource::new(Faulty { calls: 0 });
    assert_fails(&rt, rt.alloc(), &mut source, b"xxx")?;
    Ok(())
}

/// What a sink whose second and fourth call fail answers to each call, and what was written then.
const WRITES: [(&str, Result<usize, Failed>, &str); 5] = [
    ("ab", Ok(2), "ab"),
    ("cd", Err(Failed), "ab"),
    ("", Ok(0), "ab"),
    ("e", Err(Failed), "ab"),
    ("fg", Ok(2), "abfg"),
];

/// Sees what a sink answers to a part, and what was written then.
fn assert_takes(
    rt: &impl Abort,
    sink: &mut MemSink,
    part: &str,
    answer: Result<usize, Failed>,
    after: &str,
) {
    let found = sink.write(part.as_bytes());
    assert_same(rt, part, found, answer);
    assert_same(rt, part, sink.bytes(), after.as_bytes());
}

#[test]
fn a_sink_in_memory_drops_the_part_of_a_failed_call(rt: HostRuntime) -> Result<(), Fail> {
    let alloc = rt.alloc();
    let mut sink = MemSink::new(alloc, [2, 4].to_vec(alloc)?);
    for (part, answer, after) in WRITES {
        assert_takes(&rt, &mut sink, part, answer, after);
    }
    Ok(())
}

#[test]
fn a_text_is_written_to_memory_up_to_the_first_failed_call(rt: HostRuntime) -> Result<(), Fail> {
    let alloc = rt.alloc();
    let mut sink = MemSink::new(alloc, [2].to_vec(alloc)?);
    write_whole(&mut sink, TEXT)?;
    let lost = write_whole(&mut sink, b"lost");
    assert_same(&rt, "the second text", lost, Err(Failed));
    assert_same(&rt, "what was written", sink.bytes(), TEXT.as_slice());
    Ok(())
}

/// Writes the text twice, of which the first time fails, to any sink.
fn write_again<W: Sink>(rt: &impl Abort, sink: &mut W) -> Result<(), Failed> {
    let first = write_whole(sink, TEXT);
    assert_same(rt, "the first text", first, Err(Failed));
    write_whole(sink, TEXT)
}

#[test]
fn a_text_is_written_to_a_writer_up_to_the_first_failed_call(rt: HostRuntime) -> Result<(), Fail> {
    let mut writer = Narrow {
        taken: Vec::new(rt.alloc()),
        calls: 0,
    };
    let mut sink = StdSink::new(&mut writer);
    write_again(&rt, &mut sink)?;
    drop(sink);
    let taken = writer.taken.as_slice();
    assert_same(&rt, "what was written", taken, b"hellhello".as_slice());
    Ok(())
}

#[test]
fn a_reader_in_memory_is_passed_on(rt: HostRuntime) -> Result<(), Fail> {
    let text = TEXT.as_slice();
    let mut source = StdSource::new(text);
    assert_whole(&rt, rt.alloc(), &mut source, "the text", 5, text)?;
    Ok(())
}

#[test]
fn a_writer_in_memory_is_passed_on(rt: HostRuntime) -> Result<(), Fail> {
    let mut written = Vec::new(rt.alloc());
    let mut sink = StdSink::new(&mut written);
    write_whole(&mut sink, TEXT)?;
    drop(sink);
    assert_same(&rt, "the text", written.as_slice(), TEXT.as_slice());
    Ok(())
}

#[test]
fn a_full_slice_takes_nothing_more(rt: HostRuntime) -> Result<(), Fail> {
    let mut room = [0u8; 4];
    let mut sink = StdSink::new(room.as_mut_slice());
    let answer = write_whole(&mut sink, TEXT);
    drop(sink);
    assert_same(&rt, "the answer", answer, Err(Failed));
    assert_same(&rt, "what was written", room, *b"hell");
    Ok(())
}
