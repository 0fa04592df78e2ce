//! An open file that zeros are written behind, so that most writes don't make it longer.
ghost use Rattle.std.specs.Prelude.{◌≡◌, ◌+◌, ◌^◌, ◌<◌, ◌≤◌, length, max, take, IfOk, OnOk};
ghost use Rattle.std.specs.Io.{ReadsAtMost};
ghost use Rattle.std.specs.Io.KnownBytes.{Consumes, IsAtEnd};

use std::fs::OpenFile;
use std::io;
use std::io::{ErrorKind, Read, Seek, SeekFrom, Write};

// The zeros that one write puts behind the end, and how many such writes are made at once.
const BLOCK: [u8; 4096] = [0; 4096];

const BLOCKS: u64 = 16;

/// An open file, and how many bytes of it are the device's. Behind them stand zeros alone, which a write fills in advance
/// where it would make the file longer, and which are cut off when the file is closed: a sync after a write within
/// them doesn't wait for a new length of the file.
pub(crate) struct PreallocatedFile<F: Read + Write + Seek + OpenFile + Drop> {
    file: F,
    /// Where the device ends.
    end: u64,
    /// Where the file ends, at most.
    allocated: u64,
    /// Whether zeros are written behind the end.
    fills: bool,
}

// One read. It is tried again where a signal interrupts it.
fn read_some<F: Read>(file: &mut F, into: &mut [u8]) -> io::Result<usize>
    ensures bound { ReadsAtMost result into.new }
    ensures bytes { IfOk result (λ n. Consumes (F.remaining file.old) (F.remaining file.new) (take n into.new)) }
    ensures end { IfOk result (λ n. n ≡ 0 → 0 < length into.new → IsAtEnd (F.remaining file.new)) }
{
    for _ in 0..u64::MAX {
        match file.read(into) {
            Ok(count) => return Ok(count),
            Err(error) if error.kind() == ErrorKind::Interrupted => {}
            Err(error) => return Err(error),
        }
    }
    Err(ErrorKind::Interrupted.into())
}

// Reads on until the buffer is full or the file is at its end.
fn fill<F: Read>(file: &mut F, into: &mut [u8]) -> io::Result<usize>
    ensures bound { ReadsAtMost result into.new }
    ensures bytes { IfOk result (λ n. Consumes (F.remaining file.old) (F.remaining file.new) (take n into.new)) }
    ensures end { IfOk result (λ n. n < length into.new → IsAtEnd (F.remaining file.new)) }
{
    let mut count = 0;
    while count < into.len() {
        let more = read_some(file, &mut into[count..])?;
        if more == 0 {
            return Ok(count);
        }
        count += more;
    }
    Ok(count)
}

// Writes zeros where the file stands.
fn write_zeros<F: Write>(file: &mut F) -> io::Result<()> {
    for _ in 0..BLOCKS {
        file.write_all(&BLOCK)?;
    }
    Ok(())
}

impl<F: Read + Write + Seek + OpenFile + Drop> PreallocatedFile<F> {
    // The file with the bytes that it has.
    pub(crate) fn over(mut file: F, fills: bool) -> io::Result<PreallocatedFile<F>>
        ensures { IfOk result (λ opened. opened.allocated ≡ opened.end) }
    {
        let end = file.seek(SeekFrom::End(0))?;
        Ok(PreallocatedFile {
            file,
            end,
            allocated: end,
            fills,
        })
    }

    // How many bytes the device has.
    pub(crate) fn len(&self) -> u64
        ensures { result ≡ self.now.end }
    {
        self.end
    }

    // The bytes from a place on, to the end of the buffer or of the device.
    pub(crate) fn read(&mut self, place: u64, into: &mut [u8]) -> io::Result<usize>
        ensures bound { IfOk result (λ n. n ≤ length into.new) }
        ensures end { self.new.end ≡ self.old.end }
    {
        let left = self.end.saturating_sub(place) as usize;
        let count = into.len().min(left);
        self.file.seek(SeekFrom::Start(place))?;
        fill(&mut self.file, &mut into[..count])
    }

    // Writes all the bytes, from a place on.
    pub(crate) fn write_at(&mut self, place: u64, bytes: &[u8]) -> io::Result<()>
        requires fits { place + length bytes.now < 2 ^ 64 }
        ensures end { OnOk result (self.new.end ≡ max self.old.end (place + length bytes.now)) }
        ensures longer { self.old.end ≤ self.new.end }
    {
        self.file.seek(SeekFrom::Start(place))?;
        self.file.write_all(bytes)?;
        self.end = self.end.max(place + bytes.len() as u64);
        if self.fills && self.allocated < self.end {
            self.fill_ahead();
        }
        Ok(())
    }

    // Writes zeros behind the end. Where that fails, as on a full disk, some or none are written, and it isn't tried again.
    fn fill_ahead(&mut self)
        ensures end { self.new.end ≡ self.old.end }
        ensures allocated { self.old.end ≤ self.new.allocated }
    {
        self.allocated = self.end.saturating_add(BLOCKS * BLOCK.len() as u64);
        self.fills = write_zeros(&mut self.file).is_ok();
    }

    // Waits until the system has stored what was written, and the length.
    pub(crate) fn sync(&self) -> io::Result<()> {
        self.file.sync_data()
    }
}

impl<F: Read + Write + Seek + OpenFile + Drop> Drop for PreallocatedFile<F> {
    fn drop(self) {
        if self.end < self.allocated {
            // Where the zeros can't be cut off they stay: to a log they are what no write has reached.
            let _ = self.file.set_len(self.end);
        }
        let PreallocatedFile {
            file,
            end: _,
            allocated: _,
            fills: _,
        } = self;
        drop(file);
    }
}
