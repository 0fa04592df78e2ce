//! The file as a device, with its count of faults.
ghost use Rattle.std.specs.Prelude.{◌≡◌, Ok, IfOk};
ghost use Rattle.hy_base.specs.Faults.{HasCause};

use crate::late::LateFile;
use hy_disk::{Disk, Failed};
use std::io;
use std::rt::Files;

/// A file as a device, over the files of the runtime. No file is touched before the first call, which opens the file and
/// makes it where it is missing. Where that fails the call fails, and a later one tries again. A sync waits for the
/// system's.
///
/// Of a device that is [`preallocated`](FileDisk::preallocated) the file has zeros behind the device's end. They are cut off
/// when it is dropped, and are left in the file where the process is killed.
///
/// The file tells nothing of what it holds. Two devices over one file aren't covered.
#[derive(Drop)]
pub struct FileDisk<'a, R: Files> {
    file: LateFile<'a, R>,
    faults: u64,
}

// The answer of a call on the file, whose failure is counted. The count stops at its last value.
fn counted<T>(faults: &mut u64, answer: io::Result<T>) -> Result<T, Failed>
    ensures cause { HasCause faults.old faults.new result }
    ensures same { IfOk result (λ value. answer ≡ Ok value) }
    ensures kept { IfOk answer (λ value. (result ≡ Ok value) × (faults.new ≡ faults.old)) }
{
    match answer {
        Ok(value) => Ok(value),
        Err(_) => {
            *faults = faults.saturating_add(1);
            Err(Failed)
        }
    }
}

impl<'a, R: Files> FileDisk<'a, R> {
    ghost use Rattle.hy_file.specs.Files.{IsOpen, file_faults, file_path};

    /// A device over the file at a path, which isn't open, with no fault so far.
    pub fn new(files: R, path: &'a str) -> FileDisk<'a, R>
        ensures path { file_path result ≡ path.now }
        ensures closed { IsOpen result → ⊥ }
        ensures faults { file_faults result ≡ 0 }
    {
        FileDisk::over(files, path, false)
    }

    /// A device over a file that grows by more than is written: a write that ends past the file's end puts 64 KiB of zeros
    /// behind it, as far as the disk has room for them. So a sync after a write within them doesn't wait for the
    /// file's new length.
    pub fn preallocated(files: R, path: &'a str) -> FileDisk<'a, R>
        ensures path { file_path result ≡ path.now }
        ensures closed { IsOpen result → ⊥ }
        ensures faults { file_faults result ≡ 0 }
    {
        FileDisk::over(files, path, true)
    }

    // The one or the other.
    fn over(files: R, path: &'a str, fills: bool) -> FileDisk<'a, R>
        ensures path { file_path result ≡ path.now }
        ensures closed { IsOpen result → ⊥ }
        ensures faults { file_faults result ≡ 0 }
    {
        FileDisk {
            file: LateFile::new(files, path, fills),
            faults: 0,
        }
    }
}

impl<'a, R: Files> Disk for FileDisk<'a, R> {
    ghost use Rattle.std.specs.Prelude.{false, []};
    ghost use Rattle.std.proofs.Common.{rules};
    ghost use Rattle.hy_disk.specs.Content.{settled};
    ghost use Rattle.hy_file.specs.Files.{file_faults};

    ghost tells = { false };

    ghost content = { λ _. settled [] };

    ghost moment = { λ _. 0 };

    ghost left_since = { λ _ _ _. ⊥ };

    ghost faults_of = { λ disk. file_faults disk };

    ghost has_room = { λ _ _ _. ⊥ };

    ghost armed_at = { λ _ _. ⊥ };

    ghost seen_may_stay = { λ disk told. Prim.search rules };

    ghost counts_now = { λ disk t image told le now. Prim.search rules };

    ghost only_now = { λ disk image left. absurd left };

    ghost room_shrinks = { λ disk j k a b room fewer less. absurd room };

    fn len(&mut self) -> Result<u64, Failed> {
        let answer = self.file.len();
        counted(&mut self.faults, answer)
    }

    fn read(&mut self, place: u64, into: &mut [u8]) -> Result<usize, Failed> {
        let answer = self.file.read(place, into);
        counted(&mut self.faults, answer)
    }

    fn write_at(&mut self, place: u64, bytes: &[u8]) -> Result<(), Failed> {
        let answer = self.file.write_at(place, bytes);
        counted(&mut self.faults, answer)
    }

    fn sync(&mut self) -> Result<(), Failed> {
        let answer = self.file.sync();
        counted(&mut self.faults, answer)
    }

    fn faults(&self) -> u64 {
        self.faults
    }
}
