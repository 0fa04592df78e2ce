//! Compaction of a log to a spare device.
ghost use Rattle.std.specs.Prelude.{◌≡◌, ◌+◌, ◌≤◌, [], ℕ, List, length, map, true, Err, IsTrue, IfOk, IfErr};
ghost use Rattle.std.specs.List.{AllByRecursion};
ghost use Rattle.hy_base.specs.Entry.{IsSoundEntry};
ghost use Rattle.hy_base.specs.Faults.{Rose};
ghost use Rattle.hy_disk.specs.Content.{Image, settled};
ghost use Rattle.hy_disk.specs.Moments.{LeavesOnly};
ghost use Rattle.hy_formats.specs.EntryFormat.{spelling};
ghost use Rattle.hy_formats.specs.LogDevice.{Holds};
ghost use Rattle.hy_formats.specs.LogFormat.{IsGoodHeader, is_unborn};
ghost use Rattle.hy_log.specs.View.{header_of};
ghost use Rattle.hy_compact.specs.Compaction.{IsPartlyCopied, open_fault, spare_of};
ghost use Rattle.hy_compact.specs.declared.error.CopyError.TheVariants as copying;

use crate::copying::append_all;
use crate::error::{CopyError, RefusedCopy};
use hy_base::{Entry, Pos, Shape};
use hy_disk::Disk;
use hy_log::{OpenError, PageLog, open_cut};
use std::alloc::Global;

fn open_fault(error: OpenError) -> CopyError
    ensures { result ≡ open_fault error }
{
    match error {
        OpenError::Memory => CopyError::Memory,
        OpenError::Device => CopyError::Device,
        OpenError::BadPage(_) | OpenError::Config { .. } | OpenError::Unborn => CopyError::InUse,
    }
}

// Whether a log has this header and no bodies.
fn is_blank<D: Disk>(log: &PageLog<D>, shape: Shape, from: Pos) -> bool
    ensures is { result ≡ true → (header_of log.now ≡ record { shape = shape; from = from }) × (length log.now.bodies ≡ 0) }
    ensures always { (header_of log.now ≡ record { shape = shape; from = from }) → (log.now.bodies ≡ []) → result ≡ true }
{
    log.shape() == shape && log.from() == from && log.len() == from
}

/// Copies the entries of a log past a position, the end of a window up to its last position, to a spare device, which is
/// unborn. The log of these entries was of this shape, and its version has a spelling of each.
///
/// After Ok each image of the spare device holds a log that was cut there, with exactly these entries. A crash at any moment
/// of the call, with nothing pending before, leaves an unborn device, one without records, or the first of these entries behind
/// the cut. `Device`: the spare device failed. `InUse`: it isn't unborn. `Memory`: out of memory. Each hands the device back.
pub fn copy_past<D: Disk>(
    alloc: Global,
    entries: &[Entry],
    shape: Shape,
    base: Pos,
    spare: D,
) -> Result<D, RefusedCopy<D>>
    requires good { IsGoodHeader (record { shape = shape; from = base }) }
    requires fits { base + length entries.now ≤ shape.cap }
    requires sound { AllByRecursion (IsSoundEntry shape.version) entries.now }
    requires unborn { IsTrue D.tells → is_unborn (D.content spare).seen ≡ true }
    ensures copied { IsTrue D.tells → IfOk result (λ spare. (image : List ℕ) → Image (D.content spare) image
        → Holds (record { shape = shape; from = base }) (map (spelling shape.version) entries.now) image) }
    ensures any_moment { IsTrue D.tells → D.content spare ≡ settled (D.content spare).seen
        → LeavesOnly D.moment D.left_since spare (spare_of result)
        (IsPartlyCopied (record { shape = shape; from = base }) entries.now) }
    ensures later { D.faults_of spare ≤ D.faults_of (spare_of result) }
    ensures cause { IfErr result (λ refused. refused.error ≡ copying.Device
        → Rose (D.faults_of spare) (D.faults_of refused.spare)) }
    ensures in_use { IsTrue D.tells → IfErr result (λ refused. refused.error ≡ copying.InUse → ⊥) }
{
    let mut log = match open_cut(alloc, spare, shape, base) {
        Ok(log) => log,
        Err(refused) => {
            return Err(RefusedCopy {
                spare: refused.disk,
                error: open_fault(refused.error),
            });
        }
    };
    if !is_blank(&log, shape, base) {
        return Err(RefusedCopy {
            spare: log.close(),
            error: CopyError::InUse,
        });
    }
    if log.reserve(entries.len()).is_err() {
        return Err(RefusedCopy {
            spare: log.close(),
            error: CopyError::Memory,
        });
    }
    match append_all(alloc, entries, &mut log) {
        Ok(()) => Ok(log.close()),
        Err(error) => Err(RefusedCopy {
            spare: log.close(),
            error,
        }),
    }
}
