//! Appends, reads, refusals and stops.
ghost use Rattle.std.specs.Prelude.{◌≤◌};

use crate::calls::{
    PUT, PUT_2, SHAPE, SHAPE_2, append, arm, close, device, empty_log, front, log_on, look,
    one_put_2, reads, records, stop,
};
use hy_base::{Field, Shape};
use hy_log::{AppendError, OpenError, PageLog};
use hy_mem::MemDisk;
use std::alloc::Global;
use std::test::Fail;

// Of version 3, with a horizon.
const SHAPE_3: Shape = Shape {
    version: 3,
    horizon: Some(2),
    ..SHAPE
};

// The same with another horizon.
const LONGER: Shape = Shape {
    horizon: Some(3),
    ..SHAPE_3
};

const SMALL: Shape = Shape { cap: 1, ..SHAPE };

#[test]
fn one_put_takes_a_header_a_page_and_a_gate(rt: HostRuntime) -> Result<(), Fail> {
    let mut log = empty_log(rt.alloc(), SHAPE)?;
    assert!(rt; append(&mut log, &PUT) == Some(Ok(1)));
    let wanted = records(0x47, 1);
    assert!(rt; close(log).bytes() == front(&wanted, 513));
    Ok(())
}

#[test]
fn one_put_of_version_2(rt: HostRuntime) -> Result<(), Fail> {
    let alloc = rt.alloc();
    let mut log = empty_log(alloc, SHAPE_2)?;
    assert!(rt; append(&mut log, &PUT_2) == Some(Ok(1)));
    assert!(rt; reads(alloc, &mut log, 1, &PUT_2));
    let disk = close(log);
    let wanted = one_put_2();
    assert!(rt; disk.bytes() == wanted.as_slice());
    let other = look(alloc, disk, Some(SHAPE));
    assert!(rt;
        other
            == Err(OpenError::Config {
                field: Field::Version,
                log: 2,
                asked: 1,
            })
    );
    Ok(())
}

// Entries of version 3 are spelled as those of version 2.
#[test]
fn a_log_keeps_its_horizon(rt: HostRuntime) -> Result<(), Fail> {
    let alloc = rt.alloc();
    let mut log = empty_log(alloc, SHAPE_3)?;
    assert!(rt; append(&mut log, &PUT_2) == Some(Ok(1)));
    let disk = close(log);
    let head = b"GHYDERLOG\x03\x01\x01\x10\0\0\0\x02\0\0\0\0";
    assert!(rt; disk.bytes().starts_with(head));
    let other = look(alloc, disk, Some(LONGER));
    assert!(rt;
        other
            == Err(OpenError::Config {
                field: Field::Horizon,
                log: 2,
                asked: 3,
            })
    );
    let version = look(alloc, close(empty_log(alloc, SHAPE_2)?), Some(SHAPE_3));
    assert!(rt;
        version
            == Err(OpenError::Config {
                field: Field::Version,
                log: 2,
                asked: 3,
            })
    );
    let again = log_on(alloc, close(empty_log(alloc, SHAPE_3)?), SHAPE_3)?;
    assert!(rt; again.len() == 0);
    drop(again);
    Ok(())
}

// The most bytes of a body, and one more, in each version.
#[test]
fn the_longest_body_goes_by_the_version(rt: HostRuntime) -> Result<(), Fail> {
    let alloc = rt.alloc();
    for (shape, size, fits) in [
        (SHAPE, 18634, true),
        (SHAPE, 18635, false),
        (SHAPE_2, 18635, true),
        (SHAPE_2, 18636, false),
        (SHAPE_3, 18635, true),
        (SHAPE_3, 18636, false),
    ] {
        let mut log = empty_log(alloc, shape)?;
        log.room(18689, 4)?;
        let body = vec![in alloc; b'x'; size]?;
        let taken = append(&mut log, &body).is_some();
        drop(log);
        assert!(rt; taken == fits, "{size} bytes");
    }
    Ok(())
}

#[test]
fn what_was_appended_is_read(rt: HostRuntime) -> Result<(), Fail> {
    let alloc = rt.alloc();
    let mut log = empty_log(alloc, SHAPE)?;
    let long = [7; 600];
    assert!(rt; append(&mut log, &PUT) == Some(Ok(1)));
    assert!(rt; append(&mut log, &long) == Some(Ok(2)));
    let mut again = log_on(alloc, close(log), SHAPE)?;
    assert!(rt; again.len() == 2);
    assert!(rt; reads(alloc, &mut again, 1, &PUT));
    assert!(rt; reads(alloc, &mut again, 2, &long));
    Ok(())
}

#[test]
fn a_full_log_and_other_refusals(rt: HostRuntime) -> Result<(), Fail> {
    let alloc = rt.alloc();
    let mut log = empty_log(alloc, SMALL)?;
    assert!(rt; append(&mut log, &PUT) == Some(Ok(1)));
    assert!(rt; append(&mut log, &PUT) == Some(Err(AppendError::Full)));
    assert!(rt; log.len() == 1);
    let other = look(alloc, close(log), Some(SHAPE));
    assert!(rt;
        other
            == Err(OpenError::Config {
                field: Field::Cap,
                log: 1,
                asked: 16,
            })
    );
    let unborn = look(alloc, device(alloc, &[], 0, 1)?, None);
    assert!(rt; unborn == Err(OpenError::Unborn));
    Ok(())
}

// A log of no put or of one whose next append was stopped in device call k. Every later append fails.
fn stopped_log(alloc: Global, puts: u32, k: u64) -> Result<PageLog<MemDisk>, Fail>
    requires puts { puts ≤ 1 }
    requires k { 1 ≤ k }
{
    let mut log = empty_log(alloc, SHAPE)?;
    let begun = puts == 0 || append(&mut log, &PUT) == Some(Ok(1));
    arm(&mut log, k);
    let failed = append(&mut log, &[7; 300]) == Some(Err(AppendError::Device));
    let later = append(&mut log, &PUT) == Some(Err(AppendError::Stopped { at: puts + 1 }));
    if begun && failed && later && log.len() == puts {
        return Ok(log);
    }
    Err("not stopped")?
}

// How many bodies it has after the stop.
fn kept(alloc: Global, puts: u32, k: u64, pattern: u8) -> Result<u32, Fail>
    requires puts { puts ≤ 1 }
    requires k { 1 ≤ k }
    requires pattern { pattern ≤ 2 }
{
    let log = stopped_log(alloc, puts, k)?;
    let again = log_on(alloc, stop(log, pattern), SHAPE)?;
    let count = again.len();
    drop(again);
    Ok(count)
}

#[test]
fn a_stop_keeps_the_body_only_once_its_gate_is_written(rt: HostRuntime) -> Result<(), Fail> {
    for puts in 0..2 {
        for k in 1..5 {
            for pattern in 0..3 {
                let written = if k >= 3 && pattern == 1 { 1 } else { 0 };
                assert!(rt; kept(rt.alloc(), puts, k, pattern)? == puts + written);
            }
        }
    }
    Ok(())
}
