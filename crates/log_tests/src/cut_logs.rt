//! Logs that were cut: worked bytes, positions, which devices may get such a header, and restarts.
ghost use Rattle.std.specs.Prelude.{◌≡◌, ◌≤◌, [], IfOk};

use crate::calls::{
    PUT, SHAPE, SHAPE_2, append, arm, close, cut_log_on, device, empty_log, front, log_on, look,
    reads, records, stop,
};
use crate::point_format::{FIRST_GROUP, ONE_BY_ONE, page};
use crate::saving::THREE_ENTRIES;
use hy_base::{Field, Pos, Shape};
use hy_formats::{OpenError, RestartError};
use hy_log::{AppendError, PageLog, PipelinedLog, is_unborn};
use hy_mem::MemDisk;
use hy_pipe::{OpenGate, Runtime};
use hy_restart::restart;
use std::alloc::{AllocError, Global};
use std::test::Fail;
use std::thread::Threads;

// The first bytes of a log that was cut at its second position, of at most eight, in version 1.
const HEAD: [u8; 24] = *b"GHYDERCUT\x01\x01\x01\x08\0\0\0\0\0\0\0\x02\0\0\0";

// At most three positions.
const SHORT: Shape = Shape {
    group: 1,
    window: 1,
    cap: 3,
    version: 1,
    horizon: None,
};

// An empty log that was cut at its second position.
fn empty_cut(alloc: Global) -> Result<PageLog<MemDisk>, Fail> {
    cut_log_on(alloc, MemDisk::new(alloc, &[], &[])?, ONE_BY_ONE, 2)
}

#[test]
fn one_put_behind_a_cut(rt: HostRuntime) -> Result<(), Fail> {
    let alloc = rt.alloc();
    let mut log = empty_cut(alloc)?;
    assert!(rt; log.from() == 2 && log.len() == 2);
    assert!(rt; append(&mut log, &PUT) == Some(Ok(3)));
    let disk = close(log);
    let plain = records(0x47, 1);
    assert!(rt; disk.bytes().len() == 513 && disk.bytes().starts_with(&HEAD));
    assert!(rt; &disk.bytes()[24..] == &plain[24..513]);
    drop(disk);
    Ok(())
}

#[test]
fn positions_begin_behind_the_cut(rt: HostRuntime) -> Result<(), Fail> {
    let alloc = rt.alloc();
    let mut log = empty_cut(alloc)?;
    let long = [7; 600];
    assert!(rt; append(&mut log, &PUT) == Some(Ok(3)));
    assert!(rt; append(&mut log, &long) == Some(Ok(4)));
    let mut again = log_on(alloc, close(log), ONE_BY_ONE)?;
    assert!(rt; again.from() == 2 && again.len() == 4);
    assert!(rt; reads(alloc, &mut again, 3, &PUT));
    assert!(rt; reads(alloc, &mut again, 4, &long));
    assert!(rt; !reads(alloc, &mut again, 2, &PUT) && !reads(alloc, &mut again, 5, &long));
    assert!(rt; append(&mut again, &PUT) == Some(Ok(5)));
    Ok(())
}

// The positions up to the cut count against the cap.
#[test]
fn a_cut_log_is_full_at_its_cap(rt: HostRuntime) -> Result<(), Fail> {
    let alloc = rt.alloc();
    let mut log = cut_log_on(alloc, MemDisk::new(alloc, &[], &[])?, SHORT, 2)?;
    assert!(rt; append(&mut log, &PUT) == Some(Ok(3)));
    assert!(rt; append(&mut log, &PUT) == Some(Err(AppendError::Full)));
    assert!(rt; look(alloc, close(log), None) == Ok(3));
    let mut last = cut_log_on(alloc, MemDisk::new(alloc, &[], &[])?, SHORT, 3)?;
    assert!(rt; append(&mut last, &PUT) == Some(Err(AppendError::Full)));
    drop(last);
    Ok(())
}

// What a stop in one of the four device calls of an append leaves.
fn left(alloc: Global, call: u64, pattern: u8) -> Result<Pos, Fail>
    requires call { 1 ≤ call }
    requires pattern { pattern ≤ 2 }
{
    let mut log = empty_cut(alloc)?;
    if append(&mut log, &PUT) != Some(Ok(3)) {
        return Err("not appended")?;
    }
    arm(&mut log, call);
    if append(&mut log, &PUT) != Some(Err(AppendError::Device)) || log.stopped() != Some(4) {
        return Err("not stopped")?;
    }
    let again = log_on(alloc, stop(log, pattern), ONE_BY_ONE)?;
    let len = again.len();
    drop(again);
    Ok(len)
}

#[test]
fn a_stop_leaves_the_cut(rt: HostRuntime) -> Result<(), Fail> {
    let alloc = rt.alloc();
    for call in 1..5 {
        let kept = if call < 3 { 3 } else { 4 };
        assert_eq!(rt; left(alloc, call, 0)?, 3, "call {call}");
        assert_eq!(rt; left(alloc, call, 1)?, kept, "call {call}");
        assert_eq!(rt; left(alloc, call, 2)?, 3, "call {call}");
    }
    Ok(())
}

// A log that was cut, whose batches are laid down ahead.
fn pipeline(alloc: Global) -> Result<PipelinedLog<MemDisk>, Fail>
    ensures waits { IfOk result (λ log. (log.laid ≡ []) × (log.batch ≡ [])) }
{
    let log = empty_cut(alloc)?;
    if log.batch_len() > 0 {
        return Err("something waits")?;
    }
    match PipelinedLog::over(alloc, log) {
        Ok(log) => Ok(log),
        Err(_) => Err(Fail::from(AllocError)),
    }
}

#[test]
fn batches_behind_a_cut(rt: HostRuntime) -> Result<(), Fail> {
    let alloc = rt.alloc();
    let mut log = pipeline(alloc)?;
    log.reserve(2)?;
    let is_put = log.add(&PUT).is_ok() && log.add(&PUT).is_ok();
    assert!(rt; is_put && log.from() == 2 && log.len() == 2);
    assert!(rt; log.flush() == Ok(3) && log.len() == 4);
    let mut log = log.into_log();
    assert!(rt; log.from() == 2 && reads(alloc, &mut log, 4, &PUT));
    drop(log);
    Ok(())
}

#[test]
fn where_a_log_was_cut_is_not_asked(rt: HostRuntime) -> Result<(), Fail> {
    let alloc = rt.alloc();
    let plain = cut_log_on(alloc, close(empty_log(alloc, SHAPE)?), SHAPE, 3)?;
    assert!(rt; plain.from() == 0 && plain.len() == 0);
    let later = cut_log_on(alloc, close(empty_cut(alloc)?), ONE_BY_ONE, 4)?;
    assert!(rt; later.from() == 2 && later.len() == 2);
    drop(later);
    let other = look(alloc, close(empty_cut(alloc)?), Some(SHAPE_2));
    assert!(rt;
        other
            == Err(OpenError::Config {
                field: Field::Cap,
                log: 8,
                asked: 16,
            })
    );
    Ok(())
}

// Whether a device is unborn that has these bytes.
fn tells_unborn(alloc: Global, bytes: &[u8]) -> Result<bool, AllocError> {
    let mut disk = device(alloc, bytes, 258, 7)?;
    Ok(is_unborn(&mut disk) == Ok(true))
}

#[test]
fn a_device_with_a_log_is_not_unborn(rt: HostRuntime) -> Result<(), Fail> {
    let alloc = rt.alloc();
    let bytes = records(0x47, 1);
    for (size, wanted) in [(0, true), (1, true), (2, false), (256, false), (513, false)] {
        assert!(rt;
            tells_unborn(alloc, front(&bytes, size))? == wanted,
            "{size} bytes"
        );
    }
    let cut = close(empty_cut(alloc)?);
    let head = front(cut.bytes(), 257);
    let mut torn = [0; 257];
    torn[..24].copy_from_slice(&HEAD);
    torn[0] = 9;
    let is_born = !tells_unborn(alloc, head)?;
    drop(cut);
    assert!(rt; is_born && tells_unborn(alloc, &torn)?);
    torn[20] = 9;
    assert!(rt; !tells_unborn(alloc, &torn)?);
    Ok(())
}

// A put of `a` at key 4, on the snapshot at position 2.
const THIRD: [u8; 22] = [
    1, 1, 1, 2, 0, 0, 0, 0, 0, 1, 4, 0, 0, 0, 0, 0, 0, 0, 1, 1, 0, b'a',
];

// That entry, behind a cut at the second.
fn third(alloc: Global) -> Result<PageLog<MemDisk>, Fail> {
    let mut log = empty_cut(alloc)?;
    if append(&mut log, &THIRD) != Some(Ok(3)) {
        return Err("not appended")?;
    }
    Ok(log)
}

// The position of the roller of that log, and how many entries the log has; or why it is not restarted.
fn restarted<R: Threads + Sync>(
    rt: &R,
    alloc: Global,
    points: &[u8],
    from_point: bool,
) -> Result<Result<(Pos, usize), RestartError>, Fail> {
    let mut log = third(alloc)?;
    let mut points = device(alloc, points, 0, 0)?;
    let runtime = Runtime::new(rt, alloc, 1, &OpenGate);
    let answer = restart(&runtime, &mut log, &mut points, from_point);
    drop(log);
    drop(points);
    Ok(answer.map(|r| (r.roller.at(), r.entries.len())))
}

#[test]
fn a_cut_log_is_restarted_from_a_point(rt: HostRuntime) -> Result<(), Fail> {
    let alloc = rt.alloc();
    let point = page(&THREE_ENTRIES);
    let found = restarted(&rt, alloc, &point, true)?;
    assert!(rt; matches!(found, Ok((3, 1))));
    Ok(())
}

#[test]
fn a_cut_log_needs_a_point(rt: HostRuntime) -> Result<(), Fail> {
    let alloc = rt.alloc();
    let none = restarted(&rt, alloc, &[], false)?;
    assert!(rt; matches!(none, Err(RestartError::Behind { base: 0, from: 2 })));
    let unborn = restarted(&rt, alloc, &[], true)?;
    assert!(rt; matches!(unborn, Err(RestartError::Behind { base: 0, from: 2 })));
    let other = restarted(&rt, alloc, &page(&FIRST_GROUP), true)?;
    assert!(rt; matches!(other, Err(RestartError::BadPoint(_))));
    Ok(())
}
