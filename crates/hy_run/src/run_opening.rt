//! What a run opens with: the log restarted, and its tables looked at.
ghost use Rattle.std.specs.Prelude.{◌≡◌, ◌+◌, ◌-◌, ◌≤◌, length, drop, false, IfOk, IfErr};
ghost use Rattle.hy_base.specs.Shape.{whole_groups};
ghost use Rattle.hy_disk.specs.Moments.{OnlyReads};
ghost use Rattle.hy_entries.specs.LogEntries.{AreFoundIn};
ghost use Rattle.hy_log.specs.View.{header_of};
ghost use Rattle.hy_entries.specs.LogEntries.{IsSameLog};
ghost use Rattle.hy_roll_laws.specs.Rolling.{rolled_upto};
ghost use Rattle.hy_run.specs.Fates.{Fits, opened};
ghost use Rattle.hy_run.specs.Over.{over};
ghost use Rattle.hy_run.specs.RunningParts.{IsOpened, IsRanFault, fault_seen};

use crate::status::{RunOptions, Status};
use hy_base::{Entry, Key, Pos, Script, Shared};
use hy_disk::Disk;
use hy_log::PageLog;
use hy_pipe::{Gate, Runtime};
use hy_restart::{Restarted, restart};
use hy_table_look::{opening_fault, opening_looks_tell};
use hy_tables::opening_fault_tells;
use std::alloc::AllocError;
use std::thread::Threads;

// The entries behind a position, of those past a cut.
fn waiting(entries: &[Shared<Entry>], from: Pos, at: Pos) -> &[Shared<Entry>]
    requires { at ≤ from + length entries.now }
    ensures { result.now ≡ drop (at - from) entries.now }
{
    &entries[at.saturating_sub(from) as usize..]
}

// The least fault of a script's tables on a log that was restarted: of the rows of its whole groups, or of those that there
// would be once fillers completed the last group.
#[tactic(auto, using(crate::proofs::TableLooks::none_is_seen))]
fn fault_of<R: Threads + Sync, G: Gate + Sync>(
    runtime: &Runtime<R, G>,
    script: &Script,
    from: Pos,
    restarted: &Restarted,
) -> Result<Option<Key>, AllocError>
    requires shape { restarted.now.roller.shape ≡ script.now.shape }
    requires at { rolled_upto restarted.now.roller ≡ whole_groups script.now.shape (from + length restarted.now.entries.items) }
    requires within { from + length restarted.now.entries.items ≤ script.now.shape.cap }
    ensures { IfOk result (λ key. key ≡ fault_seen script.now.tables restarted.now.roller from restarted.now.entries.items) }
{
    let tables = script.tables();
    if tables == 0 {
        return Ok(None);
    }
    let _ = script.shape();
    let roller = &restarted.roller;
    let waits = waiting(&restarted.entries, from, roller.at());
    opening_fault(runtime, roller, waits, tables)
}

/// The log restarted, where its tables are sound if the script has some.
///
/// Errors: those of a restart; `Table`, the tables aren't sound; `Memory`, out of memory. Both devices are only read.
pub fn open_run<R: Threads + Sync, D: Disk, G: Gate + Sync>(
    runtime: &Runtime<R, G>,
    script: &Script,
    options: RunOptions,
    log: &mut PageLog<D>,
    points: &mut D,
) -> Result<Restarted, Status>
    requires shape { log.old.shape ≡ script.now.shape }
    ensures found { IfOk result (λ r. AreFoundIn D.tells (header_of log.old) log.old.bodies r.entries.items) }
    ensures opened { IfOk result (λ r.
        IsOpened D.tells options script.now (header_of log.old) (D.content points.old) r.entries.items r.roller) }
    ensures cause { IfErr result (IsRanFault options script.now (header_of log.old) log.old.bodies
        (over D.tells D.content D.moment D.left_since D.faults_of log.old.disk log.new.disk)
        (over D.tells D.content D.moment D.left_since D.faults_of points.old points.new)) }
    ensures comes_first { IfErr result (λ s.
        Fits options false s (over D.tells D.content D.moment D.left_since D.faults_of points.old points.new)
        (opened (header_of log.old) log.old.bodies)) }
    ensures same { IsSameLog log.old log.new }
    ensures log_look { OnlyReads D.content D.moment D.left_since D.faults_of log.old.disk log.new.disk }
    ensures points_look { OnlyReads D.content D.moment D.left_since D.faults_of points.old points.new }
    ensures unasked { options.from_point ≡ false → points.new ≡ points.old }
{
    opening_looks_tell();
    opening_fault_tells();
    let _ = script.shape();
    let restarted = restart(runtime, log, points, options.from_point)?;
    let _ = restarted.roller.base_tree();
    match fault_of(runtime, script, log.from(), &restarted)? {
        None => Ok(restarted),
        Some(key) => Err(Status::Table { key }),
    }
}
