//! The calls that the tests make of a log, without clauses, so that a test holds few facts. What a call requires of a body, of
//! the batch and of memory is seen to as it runs: `None` where that isn't given.
ghost use Rattle.std.specs.Prelude.{◌≡◌, ◌≤◌, length, IfOk, IfSome};
ghost use Rattle.hy_base.specs.Shape.{IsGoodShape};
ghost use Rattle.hy_formats.specs.LogFormat.{IsGoodHeader, longest_record};

use crate::memory_device;
use hy_base::{Pos, Shape};
use hy_disk::{Disk, Failed, Tuned};
use hy_formats::{BadPage, Damage, LONGEST_RECORD, longest_body};
use hy_log::{AddError, AppendError, OpenError, PageLog, RefusedLog, open_cut, open_log};
use hy_mem::MemDisk;
use std::alloc::{AllocError, Global};
use std::test::Fail;

/// A put of `a` at key 1, on the empty snapshot.
pub const PUT: [u8; 22] = [
    1, 1, 1, 0, 0, 0, 0, 0, 0, 1, 1, 0, 0, 0, 0, 0, 0, 0, 1, 1, 0, b'a',
];

/// The same put in version 2.
pub const PUT_2: [u8; 23] = [
    1, 1, 1, 0, 0, 0, 0, 0, 0, 0, 1, 1, 0, 0, 0, 0, 0, 0, 0, 1, 1, 0, b'a',
];

/// Groups of one, and at most sixteen entries, in version 1.
pub const SHAPE: Shape = Shape {
    group: 1,
    window: 1,
    cap: 16,
    version: 1,
    horizon: None,
};

/// The same in version 2.
pub const SHAPE_2: Shape = Shape {
    version: 2,
    ..SHAPE
};

/// The device of a log of that shape with so many one-page records of the put, at most nine, all but the first behind open
/// gates, and a byte at the first gate.
pub fn records(gate: u8, count: usize) -> [u8; 2817] {
    let mut bytes = [0; 2817];
    bytes[..16].copy_from_slice(b"GHYDERLOG\x01\x01\x01\x10\0\0\0");
    for index in 0..count.min(9) {
        let at = 256 * (index + 1);
        bytes[at..at + 5].copy_from_slice(&[0x47, 22, 0, 0, 0]);
        bytes[at + 5..at + 27].copy_from_slice(&PUT);
    }
    bytes[256] = gate;
    bytes
}

/// The device of a log of version 2 with the put alone.
pub fn one_put_2() -> [u8; 513] {
    let mut bytes = [0; 513];
    bytes[..16].copy_from_slice(b"GHYDERLOG\x02\x01\x01\x10\0\0\0");
    bytes[256..261].copy_from_slice(&[0x47, 23, 0, 0, 0]);
    bytes[261..284].copy_from_slice(&PUT_2);
    bytes
}

/// So many bytes, or all where there are fewer.
pub fn front(bytes: &[u8], size: usize) -> &[u8] {
    &bytes[..bytes.len().min(size)]
}

/// A device with these bytes and so much room.
pub fn device(
    alloc: Global,
    bytes: &[u8],
    room: usize,
    calls: usize,
) -> Result<MemDisk, AllocError> {
    let mut disk = MemDisk::new(alloc, bytes, &[])?;
    disk.room(room, calls)?;
    Ok(disk)
}

/// Gives a device room for a few appends.
fn give_room(disk: &mut MemDisk) -> Result<(), AllocError> {
    disk.room(4096, 40)
}

/// The log on a device.
pub fn open<D: Disk>(
    alloc: Global,
    disk: D,
    asked: Option<Shape>,
) -> Result<PageLog<D>, RefusedLog<D>>
    requires { IfSome asked IsGoodShape }
{
    open_log(alloc, disk, asked)
}

/// How many bodies the log on a device has, or why it isn't opened.
pub fn look<D: Disk + Drop>(alloc: Global, disk: D, asked: Option<Shape>) -> Result<Pos, OpenError>
    requires { IfSome asked IsGoodShape }
{
    match open(alloc, disk, asked) {
        Ok(log) => Ok(log.len()),
        Err(refused) => Err(refused.error),
    }
}

/// The refusal of a page.
pub fn bad(page: u64, why: Damage) -> OpenError {
    OpenError::BadPage(BadPage { page, why })
}

/// The log of a shape on a device, which is given room for a few appends.
pub fn log_on(alloc: Global, disk: MemDisk, shape: Shape) -> Result<PageLog<MemDisk>, Fail>
    requires { IsGoodShape shape }
{
    let mut disk = disk;
    give_room(&mut disk)?;
    let Ok(log) = open(alloc, disk, Some(shape)) else {
        return Err("not opened")?;
    };
    Ok(log)
}

/// A log of a shape without bodies, with room for a few appends.
pub fn empty_log(alloc: Global, shape: Shape) -> Result<PageLog<MemDisk>, Fail>
    requires { IsGoodShape shape }
{
    log_on(alloc, MemDisk::new(alloc, &[], &[])?, shape)
}

/// The log on a device, which is given room for a few appends. An unborn one gets the header of a log that was cut.
pub fn cut_log_on(
    alloc: Global,
    disk: MemDisk,
    shape: Shape,
    from: Pos,
) -> Result<PageLog<MemDisk>, Fail>
    requires { IsGoodHeader (record { shape = shape; from = from }) }
{
    let mut disk = disk;
    give_room(&mut disk)?;
    match open_cut(alloc, disk, shape, from) {
        Ok(log) => Ok(log),
        Err(_) => Err("not opened")?,
    }
}

/// The device of a log.
pub fn close<D: Disk>(log: PageLog<D>) -> D {
    log.close()
}

/// The device of a log after a stop now.
pub fn stop(log: PageLog<MemDisk>, pattern: u8) -> MemDisk
    requires { pattern ≤ 2 }
{
    memory_device::stop(log.close(), pattern)
}

/// Orders that the k-th write or sync from now on fails.
pub fn arm(log: &mut PageLog<MemDisk>, k: u64)
    requires { 1 ≤ k }
{
    log.arm(k);
}

/// Appends a body.
pub fn append<D: Disk>(log: &mut PageLog<D>, body: &[u8]) -> Option<Result<Pos, AppendError>> {
    let longest = longest_body(log.shape().version);
    if body.is_empty() || body.len() > longest || log.batch_len() > 0 {
        return None;
    }
    log.reserve(1).ok()?;
    Some(log.append(body))
}

/// Puts a body into the batch.
pub fn add<D: Disk>(log: &mut PageLog<D>, body: &[u8]) -> Option<Result<(), AddError>> {
    let longest = longest_body(log.shape().version);
    if body.is_empty() || body.len() > longest || log.batch_len() > 7 {
        return None;
    }
    log.reserve(1).ok()?;
    Some(log.add(body))
}

/// Writes the batch.
pub fn flush<D: Disk>(log: &mut PageLog<D>) -> Option<Result<Pos, Failed>> {
    if log.batch_len() == 0 {
        return None;
    }
    Some(log.flush())
}

// Zeros, in number the most bytes of a record. `AllocError` where memory runs out.
fn body_buffer(alloc: Global) -> Result<Vec<u8>, AllocError>
    ensures { IfOk result (λ bytes. length bytes.items ≡ longest_record) }
{
    vec![in alloc; 0; LONGEST_RECORD]
}

/// Whether this body is read at a position.
pub fn reads<D: Disk>(alloc: Global, log: &mut PageLog<D>, pos: Pos, body: &[u8]) -> bool {
    if pos <= log.from() || pos > log.len() {
        return false;
    }
    let Ok(mut buffer) = body_buffer(alloc) else {
        return false;
    };
    match log.read(pos, &mut buffer) {
        Ok(len) => &buffer[..len] == body,
        Err(_) => false,
    }
}
