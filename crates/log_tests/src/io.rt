//! Each source is read and each sink is written once in each way, with answers counted by hand.
ghost use Rattle.std.specs.Prelude.{◌≢◌, ◌≤◌, IfOk, IsOk};

use crate::calls::front;
use hy_io::*;
use std::alloc::{AllocError, Global};
use std::io;
use std::io::{ErrorKind, Read, Write};
use std::process::Abort;
use std::test::Fail;

const TEXT: &[u8] = b"transaction";

/// What one call of a stream does.
#[derive(Clone, Copy)]
enum Step {
    Move(usize),
    Interrupt,
    Break,
}

/// A stream that goes by its steps, and then is at its end.
#[derive(Drop)]
struct Stream<'a> {
    steps: &'a [Step],
    calls: usize,
    taken: Vec<u8>,
    breaks_at_flush: bool,
}

impl<'a> Stream<'a> {
    fn new(alloc: Global, steps: &'a [Step], breaks_at_flush: bool) -> Stream<'a> {
        Stream {
            steps,
            calls: 0,
            taken: Vec::new(alloc),
            breaks_at_flush,
        }
    }

    fn step(&mut self, len: usize) -> io::Result<usize>
        ensures { IfOk result (λ count. count ≤ len) }
    {
        let step = self.steps.get(self.calls);
        self.calls = self.calls.saturating_add(1);
        match step {
            Some(Step::Move(count)) => Ok(len.min(*count)),
            Some(Step::Interrupt) => Err(ErrorKind::Interrupted.into()),
            Some(Step::Break) => Err(ErrorKind::BrokenPipe.into()),
            None => Ok(0),
        }
    }
}

impl<'a> Read for Stream<'a> {
    fn read(&mut self, buf: &mut [u8]) -> io::Result<usize> {
        let count = self.step(buf.len())?;
        buf[..count].fill(b'x');
        Ok(count)
    }
}

impl<'a> Write for Stream<'a> {
    fn write(&mut self, buf: &[u8]) -> io::Result<usize> {
        let count = self.step(buf.len())?;
        self.taken.extend_from_slice(&buf[..count])?;
        Ok(count)
    }

    fn flush(&mut self) -> io::Result<()> {
        if self.breaks_at_flush {
            return Err(ErrorKind::BrokenPipe.into());
        }
        Ok(())
    }
}

fn check_read<S: Source>(
    rt: &impl Abort,
    alloc: Global,
    source: &mut S,
    limit: usize,
    want: Result<&[u8], ReadAllError>,
) {
    match read_all(alloc, source, limit) {
        Ok(bytes) => assert!(rt; Ok(bytes.as_slice()) == want),
        Err(error) => assert!(rt; Err(error) == want),
    }
}

/// What is read of a source of these bytes, of which so many come at a time, and of which these calls fail.
fn check_source(
    rt: &impl Abort,
    alloc: Global,
    bytes: &[u8],
    most: usize,
    fails: &[u64],
    limit: usize,
    want: Result<&[u8], ReadAllError>,
) -> Result<(), AllocError> {
    let mut source = MemSource::new(alloc, bytes, most.max(1), fails)?;
    check_read(rt, alloc, &mut source, limit, want);
    Ok(())
}

#[test]
fn a_source_in_memory_is_read(rt: HostRuntime) -> Result<(), Fail> {
    let fault = Err(ReadAllError::SourceFault);
    let too_long = Err(ReadAllError::TooLong);
    let rows: [(&[u8], usize, &[u64], usize, Result<&[u8], ReadAllError>); 12] = [
        (b"", 1, &[], 0, Ok(b"")),
        (b"", 9, &[], 5, Ok(b"")),
        (b"a", 9, &[], 0, too_long),
        (TEXT, 99, &[], 99, Ok(TEXT)),
        (TEXT, 1, &[], 11, Ok(TEXT)),
        (TEXT, 1, &[], 10, too_long),
        (TEXT, 99, &[], 10, too_long),
        (TEXT, 4, &[1], 11, fault),
        (TEXT, 4, &[2], 11, fault),
        (TEXT, 4, &[4], 11, fault),
        (TEXT, 4, &[5, 0], 11, Ok(TEXT)),
        (TEXT, 4, &[3], 7, too_long),
    ];
    for (bytes, most, fails, limit, want) in rows {
        check_source(&rt, rt.alloc(), bytes, most, fails, limit, want)?;
    }
    Ok(())
}

#[test]
fn a_fault_leaves_what_comes_next(rt: HostRuntime) -> Result<(), Fail> {
    let alloc = rt.alloc();
    let mut source = MemSource::new(alloc, TEXT, 4, &[2])?;
    check_read(&rt, alloc, &mut source, 11, Err(ReadAllError::SourceFault));
    check_read(&rt, alloc, &mut source, 11, Ok(b"saction"));
    check_read(&rt, alloc, &mut source, 11, Ok(b""));
    let mut source = MemSource::new(alloc, TEXT, 4, &[])?;
    check_read(&rt, alloc, &mut source, 5, Err(ReadAllError::TooLong));
    check_read(&rt, alloc, &mut source, 5, Ok(b"ction"));
    Ok(())
}

/// How many bytes had gone where the sink failed.
fn gone_at_fault<K: Sink>(sink: &mut K, bytes: &[u8]) -> Option<usize> {
    match write_all_counted(sink, bytes) {
        Ok(()) => None,
        Err(SinkFault { gone }) => Some(gone),
    }
}

/// Whether a sink with so much room, which takes so much at a time and of which these calls fail, takes the text up to a place.
fn takes_up_to(
    alloc: Global,
    room: usize,
    most: usize,
    fails: &[u64],
    gone: Option<usize>,
) -> Result<bool, AllocError> {
    let mut sink = MemSink::new(alloc, room, most.max(1), fails)?;
    let told = gone_at_fault(&mut sink, TEXT);
    Ok(told == gone && sink.taken() == front(TEXT, gone.unwrap_or(11)))
}

#[test]
fn a_sink_in_memory_is_written(rt: HostRuntime) -> Result<(), Fail> {
    let alloc = rt.alloc();
    let rows: [(usize, usize, &[u64], Option<usize>); 11] = [
        (11, 99, &[], None),
        (99, 1, &[], None),
        (99, 4, &[4], None),
        (99, 99, &[2], None),
        (99, 10, &[2], Some(10)),
        (99, 99, &[1], Some(0)),
        (99, 4, &[3], Some(8)),
        (99, 1, &[11], Some(10)),
        (9, 4, &[], Some(9)),
        (10, 99, &[], Some(10)),
        (0, 99, &[], Some(0)),
    ];
    for (room, most, fails, gone) in rows {
        assert!(rt; takes_up_to(alloc, room, most, fails, gone)?);
    }
    Ok(())
}

/// A `SureSource` answers no fault.
fn read_surely(
    alloc: Global,
    source: &mut SureSource,
    limit: usize,
) -> Result<Vec<u8>, ReadAllError>
    ensures { result ≢ Err ReadAllError.SourceFault }
{
    read_all(alloc, source, limit)
}

/// A `SureSink` answers no fault.
fn write_surely(sink: &mut SureSink, bytes: &[u8]) -> Result<(), SinkFault>
    ensures { IsOk result }
{
    write_all_counted(sink, bytes)
}

#[test]
fn sure_ends_never_fail(rt: HostRuntime) -> Result<(), Fail> {
    let alloc = rt.alloc();
    let mut source = SureSource::new(alloc, TEXT)?;
    let bytes = read_surely(alloc, &mut source, 11)?;
    assert_eq!(rt; bytes.as_slice(), TEXT);
    let mut source = SureSource::new(alloc, TEXT)?;
    check_read(&rt, alloc, &mut source, 10, Err(ReadAllError::TooLong));
    write_surely(&mut SureSink::new(), TEXT)?;
    Ok(())
}

#[test]
fn a_reader_is_a_source(rt: HostRuntime) {
    let alloc = rt.alloc();
    let fault = Err(ReadAllError::SourceFault);
    let rows: [(&[Step], usize, Result<&[u8], ReadAllError>); 5] = [
        (&[], 0, Ok(b"")),
        (
            &[Step::Move(1), Step::Interrupt, Step::Move(2)],
            3,
            Ok(b"xxx"),
        ),
        (&[Step::Move(3)], 2, Err(ReadAllError::TooLong)),
        (&[Step::Break, Step::Move(1)], 3, fault),
        (&[Step::Move(1), Step::Break, Step::Move(1)], 3, fault),
    ];
    for (steps, limit, want) in rows {
        let mut source = StdSource::new(Stream::new(alloc, steps, false));
        check_read(&rt, alloc, &mut source, limit, want);
    }
    check_read(&rt, alloc, &mut StdSource::new(TEXT), 11, Ok(TEXT));
}

#[test]
fn a_writer_is_a_sink(rt: HostRuntime) -> Result<(), Fail> {
    let alloc = rt.alloc();
    let rows: [(&[Step], bool, Option<usize>, &[u8]); 6] = [
        (&[Step::Move(9)], false, None, b"xyz"),
        (
            &[Step::Move(1), Step::Interrupt, Step::Move(2)],
            false,
            None,
            b"xyz",
        ),
        (&[Step::Break, Step::Move(3)], false, Some(0), b""),
        (
            &[Step::Move(2), Step::Break, Step::Move(1)],
            false,
            Some(2),
            b"xy",
        ),
        (
            &[Step::Move(2), Step::Move(0), Step::Move(1)],
            false,
            Some(2),
            b"xy",
        ),
        (&[Step::Move(3)], true, Some(0), b"xyz"),
    ];
    for (steps, breaks_at_flush, gone, taken) in rows {
        let mut stream = Stream::new(alloc, steps, breaks_at_flush);
        assert!(rt; gone_at_fault(&mut StdSink::new(&mut stream), b"xyz") == gone);
        assert!(rt; stream.taken.as_slice() == taken);
    }
    Ok(())
}
