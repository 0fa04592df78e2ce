//! A log on a real file is appended to, closed, opened again, damaged, and refused.
use crate::calls::{PUT, SHAPE, append, bad, close, look, open, reads};
use hy_disk::Disk;
use hy_file::FileDisk;
use hy_formats::Damage;
use std::alloc::Global;
use std::fs;
use std::rt::Files;
use std::test::Fail;

const PATH: &str = "log_on_file_test.log";

// Whether a new log on a device takes the put.
fn takes_put<D: Disk + Drop>(alloc: Global, disk: D) -> bool {
    match open(alloc, disk, Some(SHAPE)) {
        Ok(mut log) => append(&mut log, &PUT) == Some(Ok(1)),
        Err(_) => false,
    }
}

// The device of a log of the put alone.
fn read_back<D: Disk + Drop>(alloc: Global, disk: D) -> Option<D> {
    let Ok(mut log) = open(alloc, disk, None) else {
        return None;
    };
    if log.len() != 1 || !reads(alloc, &mut log, 1, &PUT) {
        return None;
    }
    Some(close(log))
}

// Whether the device of a log of the put alone is damaged: a byte of its page's fill is written.
fn is_damaged<R: Files + Drop>(alloc: Global, disk: FileDisk<'_, R>) -> bool {
    match read_back(alloc, disk) {
        Some(mut disk) => disk.write_at(300, &[1]) == Ok(()) && disk.sync() == Ok(()),
        None => false,
    }
}

#[test]
fn a_log_is_opened_again(rt: HostRuntime) -> Result<(), Fail> {
    let alloc = rt.alloc();
    if fs::exists(&rt, PATH)? {
        fs::remove_file(&rt, PATH)?;
    }
    assert!(rt; takes_put(alloc, FileDisk::new(&rt, PATH)));
    assert!(rt; is_damaged(alloc, FileDisk::new(&rt, PATH)));
    assert!(rt; look(alloc, FileDisk::new(&rt, PATH), None) == Err(bad(1, Damage::Fill)));
    fs::remove_file(&rt, PATH)?;
    Ok(())
}
