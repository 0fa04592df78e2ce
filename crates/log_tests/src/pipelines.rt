//! Pipelines: a batch that is committed by the sync that lays the next one down, and what a stop in each device call leaves.
ghost use Rattle.std.specs.Prelude.{◌≡◌, ◌≤◌, [], IfOk};

use crate::calls::{PUT, SHAPE, arm, close, empty_log, front, log_on, records, stop};
use hy_log::{PageLog, PipelinedLog};
use hy_mem::MemDisk;
use std::alloc::{AllocError, Global};
use std::test::Fail;

// An empty log whose device fails in its k-th write or sync.
fn pipeline(alloc: Global, k: u64) -> Result<PipelinedLog<MemDisk>, Fail>
    requires k { 1 ≤ k }
    ensures waits { IfOk result (λ log. log.batch ≡ []) }
{
    let mut log = empty_log(alloc, SHAPE)?;
    arm(&mut log, k);
    if log.batch_len() > 0 {
        return Err("something waits")?;
    }
    match PipelinedLog::over(alloc, log) {
        Ok(log) => Ok(log),
        Err(_) => Err(Fail::from(AllocError)),
    }
}

// Puts two bodies into the batch, and commits what is laid down. Whether it does.
fn lays_two(log: &mut PipelinedLog<MemDisk>) -> bool
    requires waits { log.old.batch ≡ [] }
    ensures waits { log.new.batch ≡ [] }
{
    if log.reserve(2).is_err() || log.add(&PUT).is_err() || log.add(&PUT).is_err() {
        log.forget();
        return false;
    }
    log.commit().is_ok()
}

// Commits what is laid down, if something is. Whether it does.
fn commits(log: &mut PipelinedLog<MemDisk>) -> bool
    requires waits { log.old.batch ≡ [] }
    ensures waits { log.new.batch ≡ [] }
{
    log.laid_len() > 0 && log.commit().is_ok()
}

#[test]
fn two_batches_take_three_syncs(rt: HostRuntime) -> Result<(), Fail> {
    let alloc = rt.alloc();
    let mut log = pipeline(alloc, 8)?;
    assert!(rt; lays_two(&mut log) && log.len() == 0 && log.laid_len() == 2);
    assert!(rt; lays_two(&mut log) && log.len() == 2 && log.laid_len() == 2);
    assert!(rt; commits(&mut log) && log.len() == 4 && log.laid_len() == 0);
    assert!(rt; !lays_two(&mut log) && log.stopped() == Some(5));
    let wanted = records(0x47, 4);
    let disk = stop(log.into_log(), 0);
    assert!(rt; disk.bytes() == front(&wanted, 1281));
    drop(disk);
    Ok(())
}

// How many bodies an empty log has after a stop in device call k of three commits, of which two lay down two bodies each.
fn kept(alloc: Global, k: u64, pattern: u8) -> Result<u32, Fail>
    requires k { 1 ≤ k }
    requires pattern { pattern ≤ 2 }
{
    let mut log = pipeline(alloc, k)?;
    if lays_two(&mut log) && lays_two(&mut log) && commits(&mut log) {
        return Err("not stopped")?;
    }
    let again = log_on(alloc, stop(log.into_log(), pattern), SHAPE)?;
    let count = again.len();
    drop(again);
    Ok(count)
}

#[test]
fn a_stop_keeps_what_was_laid_down_once_its_gate_is_written(rt: HostRuntime) -> Result<(), Fail> {
    for k in 1..8 {
        for pattern in 0..3 {
            let committed = if k > 5 { 2 } else { 0 };
            let written = if k > 2 && pattern == 1 { 2 } else { 0 };
            assert!(rt; kept(rt.alloc(), k, pattern)? == committed + written);
        }
    }
    Ok(())
}

// How many bodies the log on a device of a pipeline has once it is opened again.
fn opened_again(alloc: Global, log: PipelinedLog<MemDisk>) -> Result<u32, Fail> {
    let again = log_on(alloc, close(log.into_log()), SHAPE)?;
    let count = again.len();
    drop(again);
    Ok(count)
}

#[test]
fn what_is_laid_down_alone_is_no_part_of_the_log(rt: HostRuntime) -> Result<(), Fail> {
    let alloc = rt.alloc();
    let mut log = pipeline(alloc, 100)?;
    assert!(rt; lays_two(&mut log) && lays_two(&mut log));
    assert!(rt; opened_again(alloc, log)? == 2);
    let mut log = pipeline(alloc, 100)?;
    assert!(rt; lays_two(&mut log));
    log.forget();
    assert!(rt; lays_two(&mut log) && log.len() == 0);
    assert!(rt; commits(&mut log) && log.len() == 2);
    assert!(rt; opened_again(alloc, log)? == 2);
    Ok(())
}
