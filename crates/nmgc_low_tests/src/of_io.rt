//! Calls that fail, pieces that are short, and texts of numbers, as tables.
ghost use Rattle.std.specs.Prelude.{◌≤◌};

use nmgc_io::{
    Failed, MemorySink, MemorySource, ReadEnd, ReadSource, Sink, Source, StdSink, StdSource,
    WriteEnd, WriteSink, push_number, read_all, read_number, write_all,
};
use std::alloc::{AllocError, Global};
use std::collections::VecDeque;
use std::io;
use std::io::{ErrorKind, Read, Write};
use std::test::Fail;

// The answers of six calls with a buffer of four bytes.
fn six_reads<S: Source>(source: &mut S) -> [Result<usize, Failed>; 6] {
    let mut answers = [Ok(0); 6];
    for answer in answers.iter_mut() {
        *answer = source.read(&mut [0; 4]);
    }
    answers
}

// The answers of four calls with a piece of four bytes.
fn four_writes<K: Sink>(sink: &mut K) -> [Result<usize, Failed>; 4] {
    let mut answers = [Ok(0); 4];
    for answer in answers.iter_mut() {
        *answer = sink.write(b"abcd");
    }
    answers
}

fn source(
    alloc: Global,
    bytes: &[u8],
    chunk: usize,
    failing: &[u64],
) -> Result<MemorySource, AllocError>
    requires { 1 ≤ chunk }
{
    let bytes = Vec::from_slice(alloc, bytes)?;
    Ok(MemorySource::new(bytes, chunk, Vec::from_slice(alloc, failing)?))
}

#[test]
fn a_source_fails_at_the_listed_calls(rt: HostRuntime) -> Result<(), Fail> {
    let mut listed = source(rt.alloc(), b"abcdefg", 3, &[2, 5])?;
    let want = [Ok(3), Err(Failed), Ok(3), Ok(1), Err(Failed), Ok(0)];
    assert!(rt; six_reads(&mut listed) == want);

    let mut never = source(rt.alloc(), b"abcdefg", 9, &[])?;
    let want = [Ok(4), Ok(3), Ok(0), Ok(0), Ok(0), Ok(0)];
    assert!(rt; six_reads(&mut never) == want);
    Ok(())
}

#[test]
fn a_sink_fails_at_the_listed_calls_and_when_full(rt: HostRuntime) -> Result<(), Fail> {
    let failing = Vec::from_slice(rt.alloc(), &[1])?;
    let mut sink = MemorySink::new(rt.alloc(), 3, failing, 5)
        .ok()
        .ok_or("no memory")?;
    let want = [Err(Failed), Ok(3), Ok(2), Err(Failed)];
    assert!(rt; four_writes(&mut sink) == want);
    assert!(rt; sink.bytes() == b"abcab".as_slice());
    Ok(())
}

#[test]
fn reads_to_the_end_or_says_why_not(rt: HostRuntime) -> Result<(), Fail> {
    let rows: [(usize, u64, usize, Option<ReadEnd>); 8] = [
        (2, 9, 5, None),
        (9, 9, 5, None),
        (2, 5, 5, None),
        (2, 4, 5, Some(ReadEnd::ReadFault)),
        (2, 1, 5, Some(ReadEnd::ReadFault)),
        (2, 9, 4, Some(ReadEnd::TooLong)),
        (9, 9, 4, Some(ReadEnd::TooLong)),
        (1, 9, 0, Some(ReadEnd::TooLong)),
    ];
    for (chunk, failing, limit, want) in rows {
        assert!(rt; 1 <= chunk && limit < 9);
        let mut source = source(rt.alloc(), b"abcde", chunk, &[failing])?;
        match read_all(rt.alloc(), &mut source, limit) {
            Ok(bytes) => {
                assert!(rt; bytes.as_slice() == b"abcde".as_slice());
                assert!(rt; want == None);
            }
            Err(end) => assert!(rt; want == Some(end)),
        }
    }
    Ok(())
}

#[test]
fn writes_all_or_a_front(rt: HostRuntime) -> Result<(), Fail> {
    let rows: [(u64, usize, Result<(), WriteEnd>, &[u8]); 4] = [
        (9, 5, Ok(()), b"abcde"),
        (9, 4, Err(WriteEnd::WriteFault), b"abcd"),
        (2, 5, Err(WriteEnd::WriteFault), b"ab"),
        (1, 5, Err(WriteEnd::WriteFault), b""),
    ];
    for (failing, room, want, taken) in rows {
        let failing = Vec::from_slice(rt.alloc(), &[failing])?;
        let mut sink = MemorySink::new(rt.alloc(), 2, failing, room)
            .ok()
            .ok_or("no memory")?;
        assert!(rt; write_all(&mut sink, b"abcde") == want);
        assert!(rt; sink.bytes() == taken);
    }
    Ok(())
}

#[test]
fn numbers_have_one_text(rt: HostRuntime) -> Result<(), Fail> {
    let rows: [(&[u8], u64, Option<u64>); 14] = [
        (b"0", 0, Some(0)),
        (b"7", 7, Some(7)),
        (b"7", 6, None),
        (b"10", 9, None),
        (b"4096", 4096, Some(4096)),
        (b"", 9, None),
        (b"00", 9, None),
        (b"07", 9, None),
        (b"+7", 9, None),
        (b"1a", 99, None),
        (b"1 ", 99, None),
        (b"18446744073709551615", u64::MAX, Some(u64::MAX)),
        (b"18446744073709551616", u64::MAX, None),
        (b"184467440737095516150", u64::MAX, None),
    ];
    for (word, limit, want) in rows {
        assert!(rt; read_number(word, limit) == want);
    }

    let mut out = Vec::from_slice(rt.alloc(), b"r")?;
    for number in [0, 4096, u64::MAX] {
        push_number(&mut out, number).ok().ok_or("no memory")?;
    }
    assert!(rt; out.as_slice() == b"r0409618446744073709551615".as_slice());
    Ok(())
}

// A stream that gives or takes one byte at a time, `good` bytes in all, and then fails once and is at its end.
#[derive(Drop)]
struct Failing {
    good: u8,
    failed: bool,
}

impl Failing {
    // One byte, the one fault, or the end.
    fn turn(&mut self) -> io::Result<bool> {
        if self.good > 0 {
            self.good -= 1;
            return Ok(true);
        }
        if self.failed {
            return Ok(false);
        }
        self.failed = true;
        Err(io::Error::from(ErrorKind::ConnectionReset))
    }
}

impl Read for Failing {
    fn read(&mut self, buf: &mut [u8]) -> io::Result<usize> {
        match buf {
            [first, ..] if self.turn()? => {
                *first = b'r';
                Ok(1)
            }
            _ => Ok(0),
        }
    }
}

impl Write for Failing {
    fn write(&mut self, buf: &[u8]) -> io::Result<usize> {
        if !buf.is_empty() && self.turn()? {
            return Ok(1);
        }
        Ok(0)
    }

    fn flush(&mut self) -> io::Result<()> {
        Ok(())
    }
}

#[test]
fn a_stream_is_a_source_and_a_sink(rt: HostRuntime) -> Result<(), Fail> {
    let mut sink = WriteSink::new(VecDeque::new(rt.alloc()));
    assert!(rt; write_all(&mut sink, b"abcde") == Ok(()));

    let mut bytes = VecDeque::new(rt.alloc());
    bytes.write(b"abcde")?;
    let mut source = ReadSource::new(bytes);
    let all = read_all(rt.alloc(), &mut source, 9).ok().ok_or("not read")?;
    assert!(rt; all.as_slice() == b"abcde".as_slice());
    Ok(())
}

#[test]
fn a_fault_of_a_stream_is_a_fault(rt: HostRuntime) {
    let mut source = ReadSource::new(Failing {
        good: 1,
        failed: false,
    });
    let want = [Ok(1), Err(Failed), Ok(0), Ok(0), Ok(0), Ok(0)];
    assert!(rt; six_reads(&mut source) == want);

    // A write that takes nothing is a fault too.
    let mut sink = WriteSink::new(Failing {
        good: 1,
        failed: false,
    });
    let want = [Ok(1), Err(Failed), Err(Failed), Err(Failed)];
    assert!(rt; four_writes(&mut sink) == want);
}

// The reading side would wait for input, so the program's own run tests it.
#[test]
fn the_standard_streams_are_there(rt: HostRuntime) {
    let _source = StdSource::new(rt.stdin());
    let mut sink = StdSink::new(rt.stdout());
    assert!(rt; write_all(&mut sink, b"written\n") == Ok(()));
}
