//! Each way to fail is tried on the same calls, with answers and bytes counted by hand.
ghost use Rattle.std.specs.Prelude.{◌≤◌};

use hy_disk::{Disk, Failed, Tuned};
use hy_mem::MemDisk;
use std::alloc::{AllocError, Global};
use std::test::Fail;

const FIRST: &[u8] = b"abcd";

/// How calls of a device are planned to fail.
#[derive(Clone, Copy)]
enum Plan<'a> {
    Numbers(&'a [u64]),
    Fuse(u64),
    Arm(u64),
}

/// Without its contract, as the calls below.
fn room<D: Tuned>(disk: &mut D, bytes: usize, calls: usize) -> Result<(), AllocError> {
    disk.room(bytes, calls)
}

fn length<D: Disk>(disk: &mut D) -> Result<u64, Failed> {
    disk.len()
}

fn sync<D: Disk>(disk: &mut D) -> Result<(), Failed> {
    disk.sync()
}

/// Writes up to nine bytes at one of the first nine places, or at the end where that is before it.
fn write(disk: &mut MemDisk, place: usize, bytes: &[u8]) -> Result<(), Failed> {
    let place = disk.bytes().len().min(place).min(9);
    disk.write_at(place as u64, &bytes[..bytes.len().min(9)])
}

/// What a stop by a pattern leaves of a device.
pub fn stop(disk: MemDisk, pattern: u8) -> MemDisk
    requires { pattern ≤ 2 }
{
    disk.stop(pattern)
}

fn fresh(alloc: Global, plan: Plan) -> Result<MemDisk, AllocError> {
    match plan {
        Plan::Numbers(fails) => MemDisk::new(alloc, FIRST, fails),
        Plan::Fuse(calls) => MemDisk::fused(alloc, FIRST, calls),
        Plan::Arm(_) => MemDisk::new(alloc, FIRST, &[]),
    }
}

fn arm<D: Tuned>(disk: &mut D, plan: Plan) {
    if let Plan::Arm(k) = plan {
        disk.arm(k.max(1));
    }
}

/// A device with room for so many bytes and calls.
fn planned(alloc: Global, plan: Plan, bytes: usize, calls: usize) -> Result<MemDisk, AllocError> {
    let mut disk = fresh(alloc, plan)?;
    room(&mut disk, bytes, calls)?;
    arm(&mut disk, plan);
    Ok(disk)
}

fn reads<D: Disk>(disk: &mut D) -> bool {
    disk.read(1, &mut [0; 9]).is_ok()
}

/// Makes two reads, two writes, each with a sync, and a read, and says which of them passed.
fn seven_calls(disk: &mut MemDisk) -> [bool; 7] {
    [
        length(disk).is_ok(),
        reads(disk),
        write(disk, 0, b"x").is_ok(),
        sync(disk).is_ok(),
        write(disk, 9, b"yz").is_ok(),
        sync(disk).is_ok(),
        length(disk).is_ok(),
    ]
}

/// Whether calls passed by these digits.
fn are_digits(passed: &[bool], digits: &str) -> bool {
    passed.len() == digits.len()
        && passed
            .iter()
            .zip(digits.bytes())
            .all(|(has_passed, digit)| *has_passed == (digit == b'1'))
}

fn holds(disk: &MemDisk, bytes: &[u8], faults: u64) -> bool {
    disk.bytes() == bytes && disk.faults() == faults
}

/// Whether calls pass by these digits, with so many faults, and leave these bytes to a stop.
fn is_as_planned(
    alloc: Global,
    plan: Plan,
    passes: &str,
    faults: u64,
    stable: &[u8],
) -> Result<bool, Fail> {
    let mut disk = planned(alloc, plan, 3, 4)?;
    let passed = seven_calls(&mut disk);
    let is_seen = holds(&disk, b"xbcdyz", faults);
    let mut stopped = stop(disk, 0);
    let is_long = length(&mut stopped) == Ok(stable.len() as u64);
    let is_stable = holds(&stopped, stable, faults);
    Ok(are_digits(&passed, passes) && is_seen && is_long && is_stable)
}

#[test]
fn calls_fail_as_planned(rt: HostRuntime) -> Result<(), Fail> {
    let rows: [(Plan, &str, u64, &[u8]); 19] = [
        (Plan::Numbers(&[]), "1111111", 0, b"xbcdyz"),
        (Plan::Numbers(&[1]), "0111111", 1, b"xbcdyz"),
        (Plan::Numbers(&[2]), "1011111", 1, b"xbcdyz"),
        (Plan::Numbers(&[3]), "1101111", 1, b"xbcdyz"),
        (Plan::Numbers(&[4]), "1110111", 1, b"xbcdyz"),
        (Plan::Numbers(&[6]), "1111101", 1, b"xbcd"),
        (Plan::Numbers(&[5, 6, 0]), "1111001", 2, b"xbcd"),
        (Plan::Numbers(&[6, 3, 4]), "1100101", 3, b"abcd"),
        (Plan::Numbers(&[8, 7]), "1111110", 1, b"xbcdyz"),
        (Plan::Fuse(0), "0000000", 7, b"abcd"),
        (Plan::Fuse(2), "1100000", 5, b"abcd"),
        (Plan::Fuse(4), "1111000", 3, b"xbcd"),
        (Plan::Fuse(6), "1111110", 1, b"xbcdyz"),
        (Plan::Fuse(7), "1111111", 0, b"xbcdyz"),
        (Plan::Arm(1), "1100000", 5, b"abcd"),
        (Plan::Arm(2), "1110000", 4, b"abcd"),
        (Plan::Arm(3), "1111000", 3, b"xbcd"),
        (Plan::Arm(4), "1111100", 2, b"xbcd"),
        (Plan::Arm(5), "1111111", 0, b"xbcdyz"),
    ];
    for (plan, passes, faults, stable) in rows {
        assert!(rt;
            is_as_planned(rt.alloc(), plan, passes, faults, stable)?,
            "{passes}"
        );
    }
    Ok(())
}

/// Whether a write over the bytes 0 and 1 and its sync pass, and then writes of the byte 0 and behind the end.
fn writes_pass(disk: &mut MemDisk) -> bool {
    write(disk, 0, b"xy").is_ok()
        && sync(disk).is_ok()
        && write(disk, 0, b"z").is_ok()
        && write(disk, 9, b"123").is_ok()
}

/// A device whose write over the bytes 0 and 1 is synced, and whose writes of the byte 0 and behind the end aren't.
fn written(alloc: Global) -> Result<MemDisk, Fail> {
    let mut disk = planned(alloc, Plan::Numbers(&[]), 6, 5)?;
    if writes_pass(&mut disk) {
        return Ok(disk);
    }
    Err("not written")?
}

/// Whether a stop leaves these bytes, with nothing pending and with the room that was left.
fn is_left(alloc: Global, pattern: u8, want: &[u8]) -> Result<bool, Fail>
    requires { pattern ≤ 2 }
{
    let mut stopped = stop(written(alloc)?, pattern);
    let is_seen = stopped.bytes() == want;
    let has_room = write(&mut stopped, 0, b"").is_ok();
    let has_more = sync(&mut stopped).is_ok();
    let is_same = stop(stopped, 0).bytes() == want;
    Ok(is_seen && has_room && !has_more && is_same)
}

#[test]
fn a_stop_leaves_its_pattern(rt: HostRuntime) -> Result<(), Fail> {
    let rows: [(u8, &[u8]); 3] = [(0, b"xycd"), (1, b"zycd123"), (2, b"\xffycd\xff\xff\xff")];
    for (pattern, want) in rows {
        assert!(rt; pattern <= 2);
        assert!(rt; is_left(rt.alloc(), pattern, want)?, "{pattern}");
    }
    Ok(())
}

/// Makes a write and a sync, and says which of them passed.
fn two_calls(disk: &mut MemDisk) -> [bool; 2] {
    [write(disk, 0, b"x").is_ok(), sync(disk).is_ok()]
}

/// Makes three writes and a sync, and says which of them passed.
fn four_calls(disk: &mut MemDisk) -> [bool; 4] {
    [
        write(disk, 0, b"xy").is_ok(),
        write(disk, 0, b"zz").is_ok(),
        write(disk, 0, b"z").is_ok(),
        sync(disk).is_ok(),
    ]
}

/// Whether no call passes without room, two pass with room for two, and a sync once there is room for it.
fn fills_its_room(disk: &mut MemDisk) -> bool {
    let without_room = two_calls(disk);
    let is_given = room(disk, 3, 2).is_ok();
    let with_room = four_calls(disk);
    let is_seen = holds(disk, b"zycd", 4);
    let is_synced = room(disk, 0, 1).is_ok() && sync(disk).is_ok();
    are_digits(&without_room, "00")
        && is_given
        && are_digits(&with_room, "1010")
        && is_seen
        && is_synced
}

#[test]
fn past_its_room_a_call_fails(rt: HostRuntime) -> Result<(), Fail> {
    let mut disk = fresh(rt.alloc(), Plan::Numbers(&[]))?;
    let is_filled = fills_its_room(&mut disk);
    let is_stable = holds(&stop(disk, 0), b"zycd", 4);
    assert!(rt; is_filled && is_stable);
    Ok(())
}

/// The bytes that a read puts in front of a buffer.
fn read_front<'a, D: Disk>(
    disk: &mut D,
    place: u64,
    into: &'a mut [u8],
) -> Result<&'a [u8], Failed> {
    let count = disk.read(place, into)?;
    Ok(&into[..count])
}

#[test]
fn a_read_ends_with_the_device(rt: HostRuntime) -> Result<(), Fail> {
    let rows: [(u64, usize, &[u8]); 6] = [
        (0, 4, b"abcd"),
        (0, 3, b"abc"),
        (1, 9, b"bcd"),
        (3, 1, b"d"),
        (4, 9, b""),
        (u64::MAX, 9, b""),
    ];
    let mut disk = fresh(rt.alloc(), Plan::Numbers(&[]))?;
    let mut into = [0; 9];
    for (place, asked, want) in rows {
        assert!(rt; asked <= 9);
        assert!(rt; read_front(&mut disk, place, &mut into[..asked])? == want);
    }
    Ok(())
}
