//! Saves over a device in memory, stopped in each device call.
ghost use Rattle.std.specs.Prelude.{◌≡◌, ◌≤◌, IfOk};
ghost use Rattle.hy_base.specs.Shape.{IsGoodShape};

use crate::calls::device;
use crate::entries::{letter, one_write};
use crate::memory_device::stop;
use crate::point_format::{FIRST_GROUP, ONE_BY_ONE, TWO_BY_TWO, changed, decoded, page};
use hy_base::{Entry, Key, Pos, Shape, Shared, Value};
use hy_disk::Tuned;
use hy_mem::MemDisk;
use hy_pipe::{OpenGate, Roller, Runtime, roll};
use hy_restart::{SaveError, save, save_point};
use std::alloc::{AllocError, Global};
use std::test::Fail;
use std::thread::Threads;

/// The log's third entry is saved as a flag, and the first two by their rows: key 4 deleted at 2, and "a" at key 9 by 1.
pub const THREE_ENTRIES: [u8; 57] = [
    0x47, 48, 0, 0, 0, 0, 0, 0, 0, // the gate and the length of the body
    1, 1, 3, 0, 0, 0, 2, 0, 0, 0, // group size, window, position, base
    2, 0, 0, 0, 0, 0, 0, 0, // two rows
    4, 0, 0, 0, 0, 0, 0, 0, 2, 0, 0, 0, 0, // a deletion
    9, 0, 0, 0, 0, 0, 0, 0, 1, 0, 0, 0, 1, 1, 0, 97, // a value
    1, // the flag
];

// The page of a point at a position up to 8, of whose entries the first alone committed.
fn point_at(position: u8) -> [u8; 256] {
    let longer = changed(&FIRST_GROUP, 1, position.saturating_add(18));
    changed(&longer, 11, position)
}

// A device with these bytes, and with room for a few saves.
fn roomy(alloc: Global, bytes: &[u8]) -> Result<MemDisk, AllocError> {
    device(alloc, bytes, 4096, 40)
}

// The position of the point that a device holds, or none.
fn held(alloc: Global, disk: &MemDisk) -> Result<Option<Pos>, Fail> {
    let Some(point) = decoded(alloc, disk.bytes(), TWO_BY_TWO)? else {
        return Ok(None);
    };
    let position = point.position();
    drop(point);
    Ok(Some(position))
}

// Saves the point at a position, and says whether the device did all of it.
fn save_at(alloc: Global, position: u8, disk: &mut MemDisk) -> Result<bool, Fail> {
    let Some(point) = decoded(alloc, &point_at(position), TWO_BY_TWO)? else {
        return Err("no point")?;
    };
    let saved = save_point(alloc, &point, disk);
    drop(point);
    match saved {
        Ok(()) => Ok(true),
        Err(SaveError::Device) => Ok(false),
        Err(SaveError::Memory) => Err("out of memory")?,
    }
}

// Whether saves of the points at 2 and then at 4 pass, and leave the page of each alone.
fn saves_both(alloc: Global, disk: &mut MemDisk) -> Result<bool, Fail> {
    let is_first = save_at(alloc, 2, disk)? && disk.bytes() == page(&FIRST_GROUP).as_slice();
    let is_second = save_at(alloc, 4, disk)? && disk.bytes() == point_at(4).as_slice();
    Ok(is_first && is_second)
}

// The point of a log's first group, which has no rows and a commit and a filler, takes one page; the next one stands over it.
#[test]
fn a_save_writes_one_record(rt: HostRuntime) -> Result<(), Fail> {
    let alloc = rt.alloc();
    let mut disk = roomy(alloc, &[])?;
    let saves = saves_both(alloc, &mut disk);
    drop(disk);
    assert!(rt; saves?);
    Ok(())
}

// A device that holds the point at 2, and whose write or sync of this number fails.
fn armed(alloc: Global, call: u64) -> Result<MemDisk, Fail> {
    if call < 1 {
        return Err("no such call")?;
    }
    let mut disk = roomy(alloc, &point_at(2))?;
    disk.arm(call);
    Ok(disk)
}

// A device that holds the point at 2, and that a save of the point at 4 was stopped on, in its write or sync of this
// number. It is left by a pattern.
fn stopped(alloc: Global, call: u64, pattern: u8) -> Result<MemDisk, Fail>
    requires { pattern ≤ 2 }
{
    let mut disk = armed(alloc, call)?;
    if save_at(alloc, 4, &mut disk)? {
        return Err("the save is not stopped")?;
    }
    Ok(stop(disk, pattern))
}

// The position of the point that a device holds, or none. The point at 6 can then be saved.
fn held_before_more(alloc: Global, disk: &mut MemDisk) -> Result<Option<Pos>, Fail> {
    let before = held(alloc, disk)?;
    if !save_at(alloc, 6, disk)? || held(alloc, disk)? != Some(6) {
        return Err("no further save")?;
    }
    Ok(before)
}

// The same after such a stop.
fn left(alloc: Global, call: u64, pattern: u8) -> Result<Option<Pos>, Fail>
    requires { pattern ≤ 2 }
{
    let mut disk = stopped(alloc, call, pattern)?;
    let left = held_before_more(alloc, &mut disk);
    drop(disk);
    left
}

// The point that is held after a stop in each call, by each pattern: the old one at 2, the new one at 4, or none.
#[test]
fn a_stop_leaves_the_old_point_the_new_one_or_none(rt: HostRuntime) -> Result<(), Fail> {
    let alloc = rt.alloc();
    let cases = [
        (1, Some(2), Some(2), Some(2)),
        (2, Some(2), None, None),
        (3, Some(2), None, None),
        (4, None, None, None),
        (5, None, None, None),
        (6, None, Some(4), None),
        (7, None, Some(4), None),
    ];
    for (call, synced, read, torn) in cases {
        assert_eq!(rt; left(alloc, call, 0)?, synced, "call {call}");
        assert_eq!(rt; left(alloc, call, 1)?, read, "call {call}");
        assert_eq!(rt; left(alloc, call, 2)?, torn, "call {call}");
    }
    Ok(())
}

// An entry that writes one key.
fn entry(
    alloc: Global,
    snap: Pos,
    key: Key,
    value: Option<Value>,
) -> Result<Shared<Entry>, AllocError> {
    Shared::new(alloc, one_write(alloc, snap, key, value)?)
}

// A roller further by these entries, if they are whole groups and have room.
fn further<R: Threads + Sync>(
    rt: &R,
    alloc: Global,
    shape: Shape,
    roller: &Roller,
    entries: &[Shared<Entry>],
) -> Result<Roller, Fail>
    requires good { IsGoodShape shape }
    requires same { roller.now.shape ≡ shape }
    ensures { IfOk result (λ r. r.shape ≡ shape) }
{
    if entries.len() % usize::from(shape.group) != 0 {
        return Err(Fail::new("a group is cut"));
    }
    let room = shape.cap.saturating_sub(roller.at()) as usize;
    if room < entries.len() || shape.cap < roller.at() {
        return Err(Fail::new("the log is full"));
    }
    Ok(roll(&Runtime::new(rt, alloc, 1, &OpenGate), roller, entries)?)
}

// What is saved of a roller.
fn saved(alloc: Global, shape: Shape, roller: &Roller) -> Result<MemDisk, Fail>
    requires { shape ≡ roller.now.shape }
{
    let mut disk = roomy(alloc, &[])?;
    match save(alloc, shape, roller, &mut disk) {
        Ok(()) => Ok(disk),
        Err(_) => Err("not saved")?,
    }
}

// What is saved of the roller of these entries.
fn rolled<R: Threads + Sync>(
    rt: &R,
    alloc: Global,
    shape: Shape,
    entries: &[Shared<Entry>],
) -> Result<MemDisk, Fail>
    requires { IsGoodShape shape }
{
    let start = Roller::new(alloc, shape)?;
    let roller = further(rt, alloc, shape, &start, entries);
    drop(start);
    let roller = roller?;
    let saved = saved(alloc, shape, &roller);
    drop(roller);
    saved
}

// An entry that puts the value `a`.
fn put(alloc: Global, snap: Pos, key: Key) -> Result<Shared<Entry>, AllocError> {
    entry(alloc, snap, key, letter(alloc)?)
}

#[test]
fn a_roller_is_saved_by_its_flags(rt: HostRuntime) -> Result<(), Fail> {
    let alloc = rt.alloc();
    let first = put(alloc, 0, 1)?;
    let filler = Shared::new(alloc, Entry::filler(1))?;
    let disk = rolled(&rt, alloc, TWO_BY_TWO, &[first, filler])?;
    assert_eq!(rt; disk.bytes(), page(&FIRST_GROUP).as_slice());
    Ok(())
}

// A put of key 9, a deletion of key 4, and a put of it.
fn three(alloc: Global) -> Result<[Shared<Entry>; 3], Fail> {
    let first = put(alloc, 0, 9)?;
    let second = entry(alloc, 1, 4, None)?;
    let third = put(alloc, 2, 4)?;
    Ok([first, second, third])
}

#[test]
fn a_roller_is_saved_by_the_rows_at_its_base(rt: HostRuntime) -> Result<(), Fail> {
    let alloc = rt.alloc();
    let disk = rolled(&rt, alloc, ONE_BY_ONE, &three(alloc)?)?;
    assert_eq!(rt; disk.bytes(), page(&THREE_ENTRIES).as_slice());
    Ok(())
}
