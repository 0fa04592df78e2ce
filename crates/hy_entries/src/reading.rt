//! The entries that the bodies of a log spell.
ghost use Rattle.std.specs.Prelude.{◌≡◌, ◌-◌, ◌≤◌, List, drop, length, IsTrue, IfOk, IfErr};
ghost use Rattle.hy_base.specs.declared.record.EntryKind.{EntryKind};
ghost use Rattle.hy_formats.specs.LogFormat.{longest_record};
ghost use Rattle.hy_formats.specs.EntryFormat.{entries_past};
ghost use Rattle.hy_log.specs.View.{header_of, position_count};
ghost use Rattle.hy_entries.specs.LogEntries.{AreFoundIn, IsSameLog, OnlyLooks, RefusesEntry};
ghost use Rattle.hy_entries.specs.Listing.{IsRead};

use crate::listing::{Listing, hand_over};
use crate::receiving::{KeepsNone, Receiver, Shares};
use hy_base::{Entry, Pos, Shared};
use hy_disk::Disk;
use hy_formats::{BadEntry, LONGEST_RECORD};
use hy_log::PageLog;
use std::alloc::{AllocError, Global};
use thiserror::Error;

/// Why the entries of a log are not read.
#[derive(Clone, Copy, Debug, Error)]
pub enum EntriesError {
    /// Out of memory.
    #[error("out of memory")]
    Memory,
    /// The device failed.
    #[error("the device failed")]
    Device,
    /// The body at this position is refused, the first that is: it spells no entry, or one whose snapshot isn't lawful there.
    #[error("entry {pos} of the log: {bad}")]
    BadEntry { pos: Pos, bad: BadEntry },
}

fn zeros(alloc: Global) -> Result<Vec<u8>, AllocError>
    ensures { IfOk result (λ bytes. length bytes.items ≡ longest_record) }
{
    vec![in alloc; 0; LONGEST_RECORD]
}

/// Hands over the entries of a log past a position at or past that where it was cut: what its bodies spell there, in order.
/// Each of these bodies is read once.
///
/// `BadEntry`: the first position whose body is refused, and why. `Device`: the device failed. `Memory`: out of
/// memory. The log is as it was, whatever comes of it; the receiver may have taken some of the entries.
pub fn read_into<D: Disk, R: Receiver>(
    alloc: Global,
    log: &mut PageLog<D>,
    after: Pos,
    receiver: &mut R,
) -> Result<(), EntriesError>
    requires first { log.old.from ≤ after }
    requires last { after ≤ position_count log.old }
    requires fits { R.fits receiver.old log.old.shape.version }
    ensures read { IfOk result (λ _. IsRead D.tells log.old.shape after (drop (after - log.old.from) log.old.bodies)
        (R.took receiver.old receiver.new after)) }
    ensures refused { IsTrue D.tells → IfErr result (λ error.
        RefusesEntry error (entries_past log.old.shape after (drop (after - log.old.from) log.old.bodies))) }
    ensures same { IsSameLog log.old log.new }
    ensures look { OnlyLooks D.content D.moment D.left_since D.faults_of D.has_room log.old.disk log.new.disk result }
{
    let Ok(mut buffer) = zeros(alloc) else {
        return Err(EntriesError::Memory);
    };
    match hand_over(alloc, log, after, receiver, &mut buffer) {
        Ok(Listing::Whole) => Ok(()),
        Ok(Listing::Bad(pos, bad)) => Err(EntriesError::BadEntry { pos, bad }),
        Ok(Listing::Memory) => Err(EntriesError::Memory),
        Err(_) => Err(EntriesError::Device),
    }
}

/// The entries of a log past a position at or past that where it was cut, by [`read_into`].
pub fn entries_past<D: Disk>(
    alloc: Global,
    log: &mut PageLog<D>,
    after: Pos,
) -> Result<Vec<Entry>, EntriesError>
    requires first { log.old.from ≤ after }
    requires last { after ≤ position_count log.old }
    ensures read { IfOk result (λ entries. AreFoundIn D.tells (record { shape = log.old.shape; from = after })
        (drop (after - log.old.from) log.old.bodies) entries.items) }
    ensures refused { IsTrue D.tells → IfErr result (λ error.
        RefusesEntry error (entries_past log.old.shape after (drop (after - log.old.from) log.old.bodies))) }
    ensures same { IsSameLog log.old log.new }
    ensures look { OnlyLooks D.content D.moment D.left_since D.faults_of D.has_room log.old.disk log.new.disk result }
{
    let mut entries = Vec::new(alloc);
    read_into(alloc, log, after, &mut entries)?;
    Ok(entries)
}

/// The entries of a log past the position where it was cut, each to be shared.
///
/// The errors are those of [`read_into`]. The log is as it was, whatever comes of it.
pub fn shared_entries_of<D: Disk>(
    alloc: Global,
    log: &mut PageLog<D>,
) -> Result<Vec<Shared<Entry>>, EntriesError>
    ensures read { IfOk result (λ entries. AreFoundIn D.tells (header_of log.old) log.old.bodies entries.items) }
    ensures refused { IsTrue D.tells
        → IfErr result (λ error. RefusesEntry error (entries_past log.old.shape log.old.from log.old.bodies)) }
    ensures same { IsSameLog log.old log.new }
    ensures look { OnlyLooks D.content D.moment D.left_since D.faults_of D.has_room log.old.disk log.new.disk result }
{
    let from = log.from();
    let mut shares = Shares {
        alloc,
        entries: Vec::new(alloc),
    };
    read_into(alloc, log, from, &mut shares)?;
    Ok(shares.entries)
}

/// Judges the entries of a log past the position where it was cut, and keeps none of them: it takes no memory for them.
///
/// The errors are those of [`entries_past`]. The log is as it was, whatever comes of it.
pub fn judge_entries<D: Disk>(alloc: Global, log: &mut PageLog<D>) -> Result<(), EntriesError>
    ensures read { IfOk result (λ _. (entries : List EntryKind)
        × AreFoundIn D.tells (header_of log.old) log.old.bodies entries) }
    ensures refused { IsTrue D.tells
        → IfErr result (λ error. RefusesEntry error (entries_past log.old.shape log.old.from log.old.bodies)) }
    ensures same { IsSameLog log.old log.new }
    ensures look { OnlyLooks D.content D.moment D.left_since D.faults_of D.has_room log.old.disk log.new.disk result }
{
    let from = log.from();
    read_into(alloc, log, from, &mut KeepsNone)
}
