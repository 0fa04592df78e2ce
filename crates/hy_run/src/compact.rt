//! `compact`: the log past the saved point's base, copied to the spare device.
ghost use Rattle.std.specs.Prelude.{◌≡◌, ◌≢◌, ◌≤◌, ℕ, List, length, map, true, false, IsTrue, IfOk, IfErr, OnOk, Option, Some};
ghost use Rattle.std.specs.Prelude.{None};
ghost use Rattle.std.specs.List.{AllByRecursion};
ghost use Rattle.hy_base.specs.declared.record.EntryKind.{EntryKind};
ghost use Rattle.hy_base.specs.Entry.{IsSoundEntry};
ghost use Rattle.hy_base.specs.Spelling.{Text};
ghost use Rattle.hy_base.specs.Shape.{IsGoodShape};
ghost use Rattle.hy_rules.specs.CutLogs.{AreLawfulPast};
ghost use Rattle.hy_disk.specs.Content.{Image, settled};
ghost use Rattle.hy_disk.specs.Moments.{LeavesOnly, OnlyReads};
ghost use Rattle.hy_formats.specs.EntryFormat.{spelling};
ghost use Rattle.hy_formats.specs.LogDevice.{Holds};
ghost use Rattle.hy_formats.specs.LogFormat.{IsGoodHeader, is_unborn};
ghost use Rattle.hy_formats.specs.Texts.{compact_text};
ghost use Rattle.hy_formats.specs.declared.refusal.OpenError.TheVariants as opening;
ghost use Rattle.hy_compact.specs.Compaction.{IsPartlyCopied};
ghost use Rattle.hy_log.specs.LogOpening.{MayRefuse};
ghost use Rattle.hy_log.specs.View.{header_of};
ghost use Rattle.hy_run.specs.Copies.{FitsBase, IsBaseFault, IsCopyFault, IsCopyOf, IsFurther, IsPlan, IsPlanFault, IsRest};
ghost use Rattle.hy_run.specs.Copies.{copy_fault, unopened_fault};
ghost use Rattle.hy_run.specs.Handovers.{IsDone};
ghost use Rattle.hy_run.specs.Jobs.{compacts, meaning, only_point};
ghost use Rattle.hy_run.specs.Fates.{Fits, opened};
ghost use Rattle.hy_run.specs.Looking.{IsOnlySeen};
ghost use Rattle.hy_run.specs.Over.{over};

use crate::call::left_alone;
use crate::status::{Status, Which};
use hy_base::{Entry, Pos, Shape};
use hy_codec::bodies_are_read;
use hy_compact::{CopyError, copy_past};
use hy_disk::Disk;
use hy_entries::{entries_past, judge_entries};
use hy_formats::LogPlace;
use hy_log::{OpenError, PageLog, is_unborn, open_log};
use hy_points::Point;
use hy_restart::{a_copy_restarts, a_further_cut_keeps_logs, point_for};
use hy_text::write_compact;
use std::alloc::Global;

/// What a copy comes to: the text, or why there is none; the log's device, and the spare one; and the last position of the
/// log as it was closed, 0 where it was not opened.
#[derive(Drop)]
pub struct Compacted<D> {
    pub text: Result<Vec<u8>, Status>,
    pub log: D,
    pub spare: D,
    pub acked: Pos,
}

/// What comes of the spare device: the text, or why there is none, and the device.
#[derive(Drop)]
struct Copied<D> {
    text: Result<Vec<u8>, Status>,
    spare: D,
}

/// What is to be copied: the entries of the log past this point's base.
#[derive(Drop)]
struct Plan {
    rest: Vec<Entry>,
    point: Point,
}

// The saved point of a log, whose base is past the position up to which the log was cut.
fn further_point<D: Disk>(
    alloc: Global,
    points: &mut D,
    shape: Shape,
    from: Pos,
    len: Pos,
) -> Result<Point, Status>
    requires { IsGoodShape shape }
    ensures point { IfOk result (IsFurther D.tells shape from len (D.content points.old).seen) }
    ensures refused { IfErr result
        (IsBaseFault D.tells shape from len (D.content points.old).seen (D.faults_of points.old) (D.faults_of points.new)) }
    ensures comes_first { IfErr result FitsBase }
    ensures look { OnlyReads D.content D.moment D.left_since D.faults_of points.old points.new }
{
    match point_for(alloc, points, shape, len)? {
        None => Err(Status::NothingToCut { from, base: 0 }),
        Some(point) => {
            let base = point.base();
            if base <= from {
                return Err(Status::NothingToCut { from, base });
            }
            Ok(point)
        }
    }
}

// What is to be copied of a log. All its entries are judged, and only those to be copied are kept.
fn plan_copy<D: Disk>(alloc: Global, log: &mut PageLog<D>, points: &mut D) -> Result<Plan, Status>
    ensures plan { IfOk result (λ plan. (entries : List EntryKind)
        × IsPlan D.tells (header_of log.old) log.old.bodies (D.content points.old).seen entries plan.point
        × IsRest D.tells (header_of log.old) entries plan.point plan.rest.items) }
    ensures refused { IfErr result (IsPlanFault D.tells (header_of log.old) log.old.bodies (D.content points.old).seen
        (D.faults_of log.old.disk) (D.faults_of log.new.disk) (D.faults_of points.old) (D.faults_of points.new)) }
    ensures comes_first { IfErr result (λ status.
        Fits only_point true status (over D.tells D.content D.moment D.left_since D.faults_of points.old points.new)
        (opened (header_of log.old) log.old.bodies)) }
    ensures seen { IsOnlySeen D.content D.moment D.left_since D.faults_of log.old log.new }
    ensures look { OnlyReads D.content D.moment D.left_since D.faults_of points.old points.new }
{
    bodies_are_read();
    left_alone(points);
    let shape = log.shape();
    let from = log.from();
    let len = log.len();
    judge_entries(alloc, log)?;
    let point = further_point(alloc, points, shape, from, len)?;
    let rest = entries_past(alloc, log, point.base())?;
    Ok(Plan { rest, point })
}

// That the spare device is unborn.
fn find_unborn<D: Disk>(spare: &mut D) -> Result<(), Status>
    ensures unborn { IsTrue D.tells → OnOk result (is_unborn (D.content spare.old).seen ≡ true) }
    ensures refused { IfErr result
        (IsCopyFault D.tells (D.content spare.old).seen (D.faults_of spare.old) (D.faults_of spare.new)) }
    ensures look { OnlyReads D.content D.moment D.left_since D.faults_of spare.old spare.new }
{
    match is_unborn(spare) {
        Ok(true) => Ok(()),
        Ok(false) => Err(Status::SpareInUse),
        Err(_) => Err(Status::Device {
            which: Which::Spare,
        }),
    }
}

// Why the entries were not copied.
fn copy_fault(error: CopyError) -> Status
    ensures { result ≡ copy_fault error }
{
    match error {
        CopyError::Memory => Status::Memory,
        CopyError::Device => Status::Device {
            which: Which::Spare,
        },
        CopyError::InUse => Status::SpareInUse,
    }
}

// The line of a copy.
fn text_of(alloc: Global, base: Pos, count: usize) -> Result<Vec<u8>, Status>
    ensures text { IfOk result (λ text. text.items ≡ compact_text base count) }
    ensures memory { IfErr result (λ s. s ≡ Status.Memory) }
{
    Ok(write_compact(alloc, base, count)?)
}

// Copies these entries, behind a base, to the spare device.
fn copy_entries<D: Disk>(
    alloc: Global,
    entries: &[Entry],
    shape: Shape,
    base: Pos,
    mut spare: D,
) -> Copied<D>
    requires good { IsGoodHeader (record { shape = shape; from = base }) }
    requires lawful { AreLawfulPast shape base entries.now }
    requires sound { AllByRecursion (IsSoundEntry shape.version) entries.now }
    ensures text { IfOk result.text (λ text. text.items ≡ compact_text base (length entries.now)) }
    ensures held { IsTrue D.tells → IfOk result.text (λ _. (image : List ℕ) → Image (D.content result.spare) image
        → Holds (record { shape = shape; from = base }) (map (spelling shape.version) entries.now) image) }
    ensures unborn { IsTrue D.tells → IfOk result.text (λ _. is_unborn (D.content spare).seen ≡ true) }
    ensures refused { IfErr result.text
        (IsCopyFault D.tells (D.content spare).seen (D.faults_of spare) (D.faults_of result.spare)) }
    ensures in_use { IsTrue D.tells → is_unborn (D.content spare).seen ≡ false
        → OnlyReads D.content D.moment D.left_since D.faults_of spare result.spare }
    ensures any_moment { IsTrue D.tells → D.content spare ≡ settled (D.content spare).seen
        → is_unborn (D.content spare).seen ≡ true
        → LeavesOnly D.moment D.left_since spare result.spare
        (IsPartlyCopied (record { shape = shape; from = base }) entries.now) }
    ensures later { D.faults_of spare ≤ D.faults_of result.spare }
{
    if let Err(status) = find_unborn(&mut spare) {
        return Copied {
            text: Err(status),
            spare,
        };
    }
    match copy_past(alloc, entries, shape, base, spare) {
        Ok(spare) => Copied {
            text: text_of(alloc, base, entries.len()),
            spare,
        },
        Err(refused) => Copied {
            text: Err(copy_fault(refused.error)),
            spare: refused.spare,
        },
    }
}

// The copy of a log, or why there is none.
fn copy_of<D: Disk>(alloc: Global, log: &mut PageLog<D>, points: &mut D, spare: D) -> Copied<D>
    ensures copied { IsCopyOf (λ bytes. bytes.items) D.tells (header_of log.old) log.old.bodies (D.faults_of log.old.disk)
        (D.faults_of log.new.disk) (over D.tells D.content D.moment D.left_since D.faults_of points.old points.new)
        (over D.tells D.content D.moment D.left_since D.faults_of spare result.spare) result.text }
    ensures seen { IsOnlySeen D.content D.moment D.left_since D.faults_of log.old log.new }
    ensures look { OnlyReads D.content D.moment D.left_since D.faults_of points.old points.new }
    ensures later { D.faults_of spare ≤ D.faults_of result.spare }
{
    match plan_copy(alloc, log, points) {
        Ok(plan) => copy_entries(alloc, &plan.rest, log.shape(), plan.point.base(), spare),
        Err(status) => Copied {
            text: Err(status),
            spare,
        },
    }
}

// Why a log was not opened, of which nothing is known. An unborn one has nothing before a base.
fn unopened(error: OpenError) -> Status
    requires { MayRefuse None error }
    ensures { result ≡ unopened_fault error }
{
    match error {
        OpenError::Unborn => Status::NothingToCut { from: 0, base: 0 },
        OpenError::BadPage(bad) => Status::Log {
            place: LogPlace::Page(bad.page),
            why: bad.why,
        },
        OpenError::Device => Status::Device { which: Which::Log },
        OpenError::Memory => Status::Memory,
        OpenError::Config { .. } => unreachable!(),
    }
}

/// Opens the log, copies it past the saved point's base to the spare device, and closes it. What the log's device and that of
/// the point hold stays as it was.
pub fn compact<D: Disk>(alloc: Global, log: D, points: &mut D, spare: D) -> Compacted<D>
    ensures done { (told : Option Text) (faults : ℕ)
        → IsDone (λ bytes. bytes.items) (meaning compacts) told faults faults
        (over D.tells D.content D.moment D.left_since D.faults_of log result.log)
        (over D.tells D.content D.moment D.left_since D.faults_of points.old points.new)
        (over D.tells D.content D.moment D.left_since D.faults_of spare result.spare) result.text result.acked }
    ensures later { D.faults_of log ≤ D.faults_of result.log }
    ensures points_later { D.faults_of points.old ≤ D.faults_of points.new }
    ensures spare_later { D.faults_of spare ≤ D.faults_of result.spare }
{
    bodies_are_read();
    a_copy_restarts();
    a_further_cut_keeps_logs();
    match open_log(alloc, log, None) {
        Ok(mut opened) => {
            let acked = opened.len();
            let copy = copy_of(alloc, &mut opened, points, spare);
            Compacted {
                text: copy.text,
                log: opened.close(),
                spare: copy.spare,
                acked,
            }
        }
        Err(refused) => Compacted {
            text: Err(unopened(refused.error)),
            log: refused.disk,
            spare,
            acked: 0,
        },
    }
}
