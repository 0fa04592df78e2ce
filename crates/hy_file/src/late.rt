//! A file that is opened in its first call.
ghost use Rattle.std.specs.Prelude.{◌≡◌, ◌+◌, ◌^◌, ◌<◌, ◌≤◌, length, None, IfOk, IsSome, OnOk};

use crate::preallocated::PreallocatedFile;
use std::fs::OpenOptions;
use std::io;
use std::rt::Files;

/// A file at a path. It is opened in the first call that succeeds in that, and stays open.
#[derive(Drop)]
pub(crate) struct LateFile<'a, R: Files> {
    files: R,
    path: &'a str,
    fills: bool,
    file: Option<PreallocatedFile<R::File>>,
}

impl<'a, R: Files> LateFile<'a, R> {
    // No file is touched here.
    pub(crate) fn new(files: R, path: &'a str, fills: bool) -> LateFile<'a, R>
        ensures path { result.path.now ≡ path.now }
        ensures closed { result.file ≡ None }
    {
        LateFile {
            files,
            path,
            fills,
            file: None,
        }
    }

    // Opens the file unless it is open, and makes it where it is missing.
    fn open(&mut self) -> io::Result<()>
        ensures { OnOk result (IsSome self.new.file) }
    {
        if self.file.is_some() {
            return Ok(());
        }
        let mut how = OpenOptions::new();
        how.read(true).write(true).create(true);
        let file = how.open(&self.files, self.path)?;
        self.file = Some(PreallocatedFile::over(file, self.fills)?);
        Ok(())
    }

    // How many bytes it has.
    pub(crate) fn len(&mut self) -> io::Result<u64>
        ensures { OnOk result (IsSome self.new.file) }
    {
        self.open()?;
        let Some(file) = &self.file else {
            unreachable!();
        };
        Ok(file.len())
    }

    // The bytes from a place on, to the end of the buffer or of the file.
    pub(crate) fn read(&mut self, place: u64, into: &mut [u8]) -> io::Result<usize>
        ensures opened { OnOk result (IsSome self.new.file) }
        ensures bound { IfOk result (λ n. n ≤ length into.new) }
    {
        self.open()?;
        let Some(file) = &mut self.file else {
            unreachable!();
        };
        file.read(place, into)
    }

    // Writes all the bytes, from a place on.
    pub(crate) fn write_at(&mut self, place: u64, bytes: &[u8]) -> io::Result<()>
        requires fits { place + length bytes.now < 2 ^ 64 }
        ensures { OnOk result (IsSome self.new.file) }
    {
        self.open()?;
        let Some(file) = &mut self.file else {
            unreachable!();
        };
        file.write_at(place, bytes)
    }

    // Waits until the system has stored what was written, and the length.
    pub(crate) fn sync(&mut self) -> io::Result<()>
        ensures { OnOk result (IsSome self.new.file) }
    {
        self.open()?;
        let Some(file) = &self.file else {
            unreachable!();
        };
        file.sync()
    }
}
