//! Batches: bodies that are written at once, and what a stop in each device call of that leaves.
ghost use Rattle.std.specs.Prelude.{◌≤◌};

use crate::calls::{
    PUT, SHAPE, add, append, arm, bad, close, device, empty_log, flush, front, log_on, open,
    records, stop,
};
use crate::damaged_devices::found;
use hy_base::Shape;
use hy_formats::Damage;
use hy_log::{AddError, PageLog};
use hy_mem::MemDisk;
use std::alloc::Global;
use std::test::Fail;

// Whether two puts go into the batch of a log.
fn adds_two(log: &mut PageLog<MemDisk>) -> bool {
    add(log, &PUT) == Some(Ok(())) && add(log, &PUT) == Some(Ok(()))
}

// An empty log, with two puts in its batch.
fn two_wait(alloc: Global) -> Result<PageLog<MemDisk>, Fail> {
    let mut log = empty_log(alloc, SHAPE)?;
    if adds_two(&mut log) {
        return Ok(log);
    }
    Err("not added")?
}

#[test]
fn two_bodies_take_a_page_each(rt: HostRuntime) -> Result<(), Fail> {
    let mut log = two_wait(rt.alloc())?;
    assert!(rt; log.len() == 0 && log.batch_len() == 2);
    arm(&mut log, 5);
    assert!(rt; flush(&mut log) == Some(Ok(1)));
    assert!(rt; log.len() == 2 && log.batch_len() == 0);
    let wanted = records(0x47, 2);
    assert!(rt; close(log).bytes() == front(&wanted, 769));
    Ok(())
}

// Whether a flush from position 1 on fails, and stops the log there.
fn is_stopped(log: &mut PageLog<MemDisk>) -> bool {
    let has_failed = match flush(log) {
        Some(answer) => answer.is_err(),
        None => false,
    };
    has_failed && log.stopped() == Some(1)
}

// How many bodies an empty log has after a stop in device call k of a flush of two.
fn kept(alloc: Global, k: u64, pattern: u8) -> Result<u32, Fail>
    requires k { 1 ≤ k }
    requires pattern { pattern ≤ 2 }
{
    let mut log = two_wait(alloc)?;
    arm(&mut log, k);
    if !is_stopped(&mut log) {
        return Err("not stopped")?;
    }
    let again = log_on(alloc, stop(log, pattern), SHAPE)?;
    let count = again.len();
    drop(again);
    Ok(count)
}

#[test]
fn a_stop_keeps_both_only_once_the_first_gate_is_written(rt: HostRuntime) -> Result<(), Fail> {
    for k in 1..5 {
        for pattern in 0..3 {
            let wanted = if k >= 3 && pattern == 1 { 2 } else { 0 };
            assert!(rt; kept(rt.alloc(), k, pattern)? == wanted);
        }
    }
    Ok(())
}

#[test]
fn what_waits_counts_against_the_cap(rt: HostRuntime) -> Result<(), Fail> {
    let mut log = empty_log(rt.alloc(), Shape { cap: 2, ..SHAPE })?;
    assert!(rt; append(&mut log, &PUT) == Some(Ok(1)));
    assert!(rt; add(&mut log, &PUT) == Some(Ok(())));
    assert!(rt; add(&mut log, &PUT) == Some(Err(AddError::Full)));
    assert!(rt; flush(&mut log) == Some(Ok(2)));
    Ok(())
}

#[test]
fn a_torn_gate_stands_before_at_most_eight_records(rt: HostRuntime) -> Result<(), Fail> {
    let torn = bad(1, Damage::Gate);
    for (gate, count, wanted) in [
        (0x46, 1, Ok(0)),
        (0x46, 2, Ok(0)),
        (0x46, 8, Ok(0)),
        (0x46, 9, Err(torn)),
        (0x47, 9, Ok(9)),
        (0x46, 0, Err(torn)),
        (0, 9, Ok(0)),
    ] {
        assert!(rt; found(rt.alloc(), &records(gate, count))? == wanted);
    }
    Ok(())
}

// A gate between the records that is torn too or closed, records past the last position, and one that the device ends behind.
#[test]
fn a_batch_stands_whole_behind_a_torn_gate(rt: HostRuntime) -> Result<(), Fail> {
    let torn = bad(1, Damage::Gate);
    for (place, byte, size, wanted) in [
        (512, 0x46, 2817, Err(torn)),
        (512, 0, 2817, Ok(0)),
        (12, 2, 2817, Err(torn)),
        (12, 3, 2817, Ok(0)),
        (1024, 0, 1024, Err(torn)),
        (1024, 0, 1025, Ok(0)),
    ] {
        let mut bytes = records(0x46, 3);
        bytes[place % 2817] = byte;
        assert!(rt; found(rt.alloc(), front(&bytes, size))? == wanted);
    }
    Ok(())
}

// Whether a flush of two bodies passes, with so much room more.
fn flushes_two(log: &mut PageLog<MemDisk>, bytes: usize, calls: usize) -> Result<bool, Fail> {
    log.room(bytes, calls)?;
    if !adds_two(log) {
        return Err("not added")?;
    }
    match flush(log) {
        Some(answer) => Ok(answer.is_ok()),
        None => Err("nothing waits")?,
    }
}

// The same on a device without other room.
fn flushes(alloc: Global, bytes: usize, calls: usize) -> Result<bool, Fail> {
    let disk = device(alloc, &records(0, 0), 0, 1)?;
    let Ok(mut log) = open(alloc, disk, None) else {
        return Err("not opened")?;
    };
    let flushes = flushes_two(&mut log, bytes, calls);
    drop(log);
    flushes
}

#[test]
fn a_flush_fits_its_room_exactly(rt: HostRuntime) -> Result<(), Fail> {
    for (bytes, calls, fits) in [(513, 4, true), (512, 4, false), (513, 3, false)] {
        assert!(rt; flushes(rt.alloc(), bytes, calls)? == fits);
    }
    Ok(())
}
