//! A real file is written, closed, damaged and read back, and each failure is counted.
use hy_disk::{Disk, Failed};
use hy_file::FileDisk;
use std::fs;
use std::rt::Files;
use std::test::Fail;

const PATH: &str = "hy_file_test.log";

const FOLDER: &str = "hy_file_test";

const INNER: &str = "hy_file_test/inner.log";

// Takes what may go to another thread.
fn crosses<T: Send>(value: T) -> T {
    value
}

// Whether this stands in the file, read by a device of its own.
fn has<R: Files>(rt: &R, want: &[u8]) -> bool {
    let mut disk = FileDisk::new(rt, PATH);
    let mut buffer = [b'.'; 16];
    disk.len() == Ok(want.len() as u64)
        && disk.read(0, &mut buffer) == Ok(want.len())
        && &buffer[..want.len().min(16)] == want
        && disk.faults() == 0
}

// Whether a device makes the file, and writes it.
fn writes<R: Files>(rt: &R) -> bool {
    let mut disk = FileDisk::new(rt, PATH);
    disk.len() == Ok(0)
        && disk.write_at(0, b"transaction") == Ok(())
        && disk.write_at(11, b" log") == Ok(())
        && disk.sync() == Ok(())
}

// Whether so many bytes are read at a place, and four bytes of room then hold these.
fn reads<D: Disk>(
    disk: &mut D,
    place: u64,
    count: usize,
    room: &mut [u8; 4],
    want: &[u8; 4],
) -> bool {
    disk.read(place, room) == Ok(count) && &*room == want
}

// Whether a device writes a byte of the file, and reads what stands there.
fn changes<R: Files>(rt: &R) -> bool {
    let mut disk = FileDisk::new(rt, PATH);
    let mut room = [b'.'; 4];
    disk.write_at(5, b"?") == Ok(())
        && reads(&mut disk, 4, 4, &mut room, b"s?ct")
        && reads(&mut disk, 12, 3, &mut room, b"logt")
        && reads(&mut disk, 15, 0, &mut room, b"logt")
        && reads(&mut disk, 99, 0, &mut room, b"logt")
}

#[test]
fn a_file_keeps_what_was_written(rt: HostRuntime) -> Result<(), Fail> {
    if fs::exists(&rt, PATH)? {
        fs::remove_file(&rt, PATH)?;
    }
    drop(crosses(FileDisk::new(rt, PATH)));
    assert!(rt; !fs::exists(&rt, PATH)?);
    assert!(rt; writes(&rt));
    assert!(rt; has(&rt, b"transaction log"));
    assert!(rt; changes(&rt));
    assert!(rt; has(&rt, b"trans?ction log"));
    fs::remove_file(&rt, PATH)?;
    Ok(())
}

// Whether the file has so many bytes.
fn is_long<R: Files>(rt: &R, bytes: u64) -> bool {
    match fs::metadata(rt, PATH) {
        Ok(about) => about.len() == bytes,
        Err(_) => false,
    }
}

// Whether a device writes zeros behind its end, which aren't of it.
fn fills_ahead<R: Files>(rt: &R) -> bool {
    let mut disk = FileDisk::preallocated(rt, PATH);
    let mut room = [b'.'; 4];
    disk.write_at(0, b"transaction") == Ok(())
        && disk.write_at(11, b" log") == Ok(())
        && disk.sync() == Ok(())
        && disk.len() == Ok(15)
        && reads(&mut disk, 12, 3, &mut room, b"log.")
        && is_long(rt, 11 + 65536)
}

#[test]
fn zeros_behind_the_end_are_cut_off(rt: HostRuntime) -> Result<(), Fail> {
    assert!(rt; fills_ahead(&rt));
    assert!(rt; is_long(&rt, 15));
    assert!(rt; has(&rt, b"transaction log"));
    fs::remove_file(&rt, PATH)?;
    Ok(())
}

// Whether each call of a device fails, and is counted, while there is no folder for its file.
fn fails_without_folder<D: Disk>(disk: &mut D) -> bool {
    disk.len() == Err(Failed)
        && disk.read(0, &mut [0; 4]) == Err(Failed)
        && disk.write_at(0, b"log") == Err(Failed)
        && disk.sync() == Err(Failed)
        && disk.faults() == 4
}

// Whether a device writes once there is a folder, and fails only where no file reaches.
fn goes_on<R: Files>(disk: &mut FileDisk<'_, R>) -> bool {
    disk.write_at(0, b"log") == Ok(())
        && disk.faults() == 4
        && disk.read(u64::MAX, &mut [0; 4]) == Err(Failed)
        && disk.write_at(u64::MAX - 9, b"log") == Err(Failed)
        && disk.faults() == 6
        && disk.len() == Ok(3)
}

#[test]
fn a_failure_is_counted_and_tried_again(rt: HostRuntime) -> Result<(), Fail> {
    let mut disk = FileDisk::new(rt, INNER);
    assert!(rt; fails_without_folder(&mut disk));
    fs::create_dir(&rt, FOLDER)?;
    assert!(rt; goes_on(&mut disk));
    fs::remove_file(&rt, INNER)?;
    fs::remove_dir(&rt, FOLDER)?;
    Ok(())
}
