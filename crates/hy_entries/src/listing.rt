//! Reading the entries of a log one after the other.
ghost use Rattle.std.specs.Prelude.{◌≡◌, ◌-◌, ◌<◌, ◌≤◌, ℕ, List, drop, length, IsTrue, IfOk, Some};
ghost use Rattle.hy_base.specs.Lists.{nth};
ghost use Rattle.hy_base.specs.Log.{HasLawfulSnap};
ghost use Rattle.hy_formats.specs.LogFormat.{longest_record};
ghost use Rattle.hy_formats.specs.EntryFormat.{decoded_at, spelling};
ghost use Rattle.hy_codec.specs.EntryReading.{Decodes};
ghost use Rattle.hy_log.specs.Looks.{IsLook};
ghost use Rattle.hy_log.specs.View.{position_count};
ghost use Rattle.hy_base.specs.Entry.{IsSoundEntry};
ghost use Rattle.hy_entries.specs.Listing.{IsListing};
ghost use Rattle.hy_entries.specs.LogEntries.{IsSameLog};

use crate::receiving::Receiver;
use hy_base::{Entry, Failed, Pos};
use hy_codec::{DecodeError, decode_at};
use hy_disk::Disk;
use hy_formats::BadEntry;
use hy_log::PageLog;
use std::alloc::Global;

/// What reading a log's entries comes to.
#[derive(Clone, Copy)]
pub enum Listing {
    /// All of them were handed over.
    Whole,
    /// The first position whose body is refused, and why.
    Bad(Pos, BadEntry),
    /// Out of memory.
    Memory,
}

/// The entry at a position, or why its body spells none.
fn read_entry<D: Disk>(
    alloc: Global,
    log: &mut PageLog<D>,
    pos: Pos,
    buffer: &mut [u8],
) -> Result<Result<Entry, DecodeError>, Failed>
    requires first { log.old.from < pos }
    requires last { pos ≤ position_count log.old }
    requires space { length buffer.old ≡ longest_record }
    ensures exact { IsTrue D.tells → IfOk result (λ read. (body : List ℕ) → nth log.old.bodies (pos - log.old.from) ≡ Some body
        → Decodes read (decoded_at log.old.shape pos body)) }
    ensures lawful { IfOk result (λ read. IfOk read (HasLawfulSnap log.old.shape pos)) }
    ensures sound { IfOk result (λ read. IfOk read (IsSoundEntry log.old.shape.version)) }
    ensures spelled { IsTrue D.tells → IfOk result (λ read.
        IfOk read (λ entry. nth log.old.bodies (pos - log.old.from) ≡ Some (spelling log.old.shape.version entry))) }
    ensures space { length buffer.new ≡ length buffer.old }
    ensures same { IsSameLog log.old log.new }
    ensures look { IsLook D.content D.moment D.left_since D.faults_of D.has_room log.old.disk log.new.disk result }
{
    let shape = log.shape();
    let len = log.read(pos, buffer)?;
    Ok(match decode_at(alloc, &buffer[..len], pos, shape) {
        Ok(entry) => {
            // The type of an entry keeps its ranges.
            let _kind = entry.kind();
            Ok(entry)
        }
        Err(error) => Err(error),
    })
}

/// Hands over the entries of a log past a position, in order, up to the first body that is refused.
pub fn hand_over<D: Disk, R: Receiver>(
    alloc: Global,
    log: &mut PageLog<D>,
    after: Pos,
    receiver: &mut R,
    buffer: &mut [u8],
) -> Result<Listing, Failed>
    requires first { log.old.from ≤ after }
    requires last { after ≤ position_count log.old }
    requires fits { R.fits receiver.old log.old.shape.version }
    requires space { length buffer.old ≡ longest_record }
    ensures listing { IfOk result (IsListing D.tells log.old.shape after (drop (after - log.old.from) log.old.bodies)
        (R.took receiver.old receiver.new after)) }
    ensures same { IsSameLog log.old log.new }
    ensures look { IsLook D.content D.moment D.left_since D.faults_of D.has_room log.old.disk log.new.disk result }
{
    for count in 0..log.len() - after {
        let pos = after + count + 1;
        match read_entry(alloc, log, pos, buffer)? {
            Ok(entry) => {
                if receiver.take(pos, entry).is_err() {
                    return Ok(Listing::Memory);
                }
            }
            Err(DecodeError::BadEntry(bad)) => return Ok(Listing::Bad(pos, bad)),
            Err(DecodeError::Memory) => return Ok(Listing::Memory),
        }
    }
    Ok(Listing::Whole)
}
