//! Appending entries to a log that has none yet.
ghost use Rattle.std.specs.Prelude.{◌≡◌, ◌+◌, ◌-◌, ◌≤◌, ◌++◌, [], length, map, None, Err, IsTrue, IfErr, OnOk};
ghost use Rattle.std.specs.List.{AllByRecursion};
ghost use Rattle.hy_base.specs.Entry.{IsSoundEntry};
ghost use Rattle.hy_base.specs.Faults.{Rose};
ghost use Rattle.hy_disk.specs.Content.{settled};
ghost use Rattle.hy_disk.specs.Moments.{LeavesOnly};
ghost use Rattle.hy_formats.specs.EntryFormat.{spelling};
ghost use Rattle.hy_formats.specs.LogDevice.{Holds};
ghost use Rattle.hy_formats.specs.LogFormat.{largest_batch, places_of};
ghost use Rattle.hy_log.specs.View.{HoldsUpTo, header_of};
ghost use Rattle.hy_compact.specs.Compaction.{HoldsFirst};
ghost use Rattle.hy_compact.specs.declared.error.CopyError.TheVariants as copying;

use crate::error::CopyError;
use hy_base::Entry;
use hy_codec::encode;
use hy_disk::Disk;
use hy_formats::LARGEST_BATCH;
use hy_log::PageLog;
use std::alloc::Global;

// Puts entries, no more than a batch takes, into the batch of a log, which is empty.
fn add_batch<D: Disk>(
    alloc: Global,
    entries: &[Entry],
    spare: &mut PageLog<D>,
) -> Result<(), CopyError>
    requires sound { AllByRecursion (IsSoundEntry spare.old.shape.version) entries.now }
    requires few { length entries.now ≤ largest_batch }
    requires waits { spare.old.batch ≡ [] }
    requires running { spare.old.stopped ≡ None }
    requires fits { length spare.old.bodies + length entries.now ≤ places_of (header_of spare.old) }
    requires places { length entries.now ≤ spare.old.spare }
    ensures added { OnOk result (spare.new ≡ record spare.old {
      batch = map (spelling spare.old.shape.version) entries.now;
      spare = spare.old.spare - length entries.now;
    }) }
    ensures same { (spare.new.disk ≡ spare.old.disk) × (header_of spare.new ≡ header_of spare.old) }
    ensures memory { IfErr result (λ error. error ≡ copying.Memory) }
{
    for count in 0..entries.len() {
        let body = encode(alloc, &entries[count], spare.shape().version)?;
        let Ok(()) = spare.add(&body) else {
            unreachable!();
        };
    }
    Ok(())
}

// Appends entries, some and no more than a batch takes, to a log that has positions for them.
fn append_batch<D: Disk>(
    alloc: Global,
    entries: &[Entry],
    spare: &mut PageLog<D>,
) -> Result<(), CopyError>
    requires some { 1 ≤ length entries.now }
    requires sound { AllByRecursion (IsSoundEntry spare.old.shape.version) entries.now }
    requires few { length entries.now ≤ largest_batch }
    requires waits { spare.old.batch ≡ [] }
    requires running { spare.old.stopped ≡ None }
    requires fits { length spare.old.bodies + length entries.now ≤ places_of (header_of spare.old) }
    requires places { length entries.now ≤ spare.old.spare }
    requires held { IsTrue D.tells
        → (D.content spare.old.disk ≡ settled (D.content spare.old.disk).seen)
        × Holds (header_of spare.old) spare.old.bodies (D.content spare.old.disk).seen }
    ensures grown { OnOk result ((length spare.new.bodies ≡ length spare.old.bodies + length entries.now)
        × (spare.new.stopped ≡ None)
        × (spare.new.batch ≡ [])
        × (spare.old.spare ≤ spare.new.spare + length entries.now)) }
    ensures appended { IsTrue D.tells
        → OnOk result ((spare.new.bodies ≡ spare.old.bodies ++ map (spelling spare.old.shape.version) entries.now)
        × (D.content spare.new.disk ≡ settled (D.content spare.new.disk).seen)
        × Holds (header_of spare.old) spare.new.bodies (D.content spare.new.disk).seen) }
    ensures any_moment { IsTrue D.tells
        → LeavesOnly D.moment D.left_since spare.old.disk spare.new.disk
        (HoldsUpTo (header_of spare.old) spare.old.bodies (map (spelling spare.old.shape.version) entries.now)) }
    ensures header { header_of spare.new ≡ header_of spare.old }
    ensures later { D.faults_of spare.old.disk ≤ D.faults_of spare.new.disk }
    ensures cause { result ≡ Err copying.Device → Rose (D.faults_of spare.old.disk) (D.faults_of spare.new.disk) }
    ensures no_use { result ≡ Err copying.InUse → ⊥ }
{
    add_batch(alloc, entries, spare)?;
    let Ok(_) = spare.flush() else {
        return Err(CopyError::Device);
    };
    Ok(())
}

/// Appends these entries to a log without bodies, which has memory and positions for them.
pub fn append_all<D: Disk>(
    alloc: Global,
    entries: &[Entry],
    spare: &mut PageLog<D>,
) -> Result<(), CopyError>
    requires blank { spare.old.bodies ≡ [] }
    requires waits { spare.old.batch ≡ [] }
    requires running { spare.old.stopped ≡ None }
    requires sound { AllByRecursion (IsSoundEntry spare.old.shape.version) entries.now }
    requires fits { length entries.now ≤ places_of (header_of spare.old) }
    requires places { length entries.now ≤ spare.old.spare }
    requires held { IsTrue D.tells
        → (D.content spare.old.disk ≡ settled (D.content spare.old.disk).seen)
        × Holds (header_of spare.old) [] (D.content spare.old.disk).seen }
    ensures running { OnOk result (spare.new.stopped ≡ None) }
    ensures copied { IsTrue D.tells → OnOk result ((D.content spare.new.disk ≡ settled (D.content spare.new.disk).seen)
        × Holds (header_of spare.old) (map (spelling spare.old.shape.version) entries.now) (D.content spare.new.disk).seen) }
    ensures any_moment { IsTrue D.tells
        → LeavesOnly D.moment D.left_since spare.old.disk spare.new.disk (HoldsFirst (header_of spare.old) entries.now) }
    ensures later { D.faults_of spare.old.disk ≤ D.faults_of spare.new.disk }
    ensures cause { result ≡ Err copying.Device → Rose (D.faults_of spare.old.disk) (D.faults_of spare.new.disk) }
    ensures no_use { result ≡ Err copying.InUse → ⊥ }
{
    let mut rest = entries;
    while !rest.is_empty() {
        let (batch, more) = rest.split_at(rest.len().min(LARGEST_BATCH));
        append_batch(alloc, batch, spare)?;
        rest = more;
    }
    Ok(())
}
