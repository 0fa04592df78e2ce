//! The rows at the opening, and those that fillers would make of what waits.
ghost use Rattle.std.specs.Prelude.{◌≡◌, ◌+◌, ◌<◌, ◌≤◌, IfOk, length};
ghost use Rattle.hy_rules.specs.History.{pairs_of};
ghost use Rattle.hy_rules.specs.SoundTables.{table_fault};
ghost use Rattle.hy_roll_laws.specs.Rolling.{rolled_upto};
ghost use Rattle.hy_table_look.specs.Looks.{filled, looked, soon};

use hy_base::{Entry, Key, Shape, Shared, share_all};
use hy_pipe::{Gate, Runtime, roll};
use hy_roller::Roller;
use hy_tables::table_fault;
use std::alloc::{AllocError, Global};
use std::thread::Threads;

// The entries that wait, and fillers up to the end of their group.
fn filled(
    alloc: Global,
    shape: Shape,
    waiting: &[Shared<Entry>],
) -> Result<Vec<Shared<Entry>>, AllocError>
    requires some { 0 < length waiting.now }
    requires few { length waiting.now < shape.group }
    ensures { IfOk result (λ entries. entries.items ≡ filled shape waiting.now) }
{
    let mut entries = share_all(alloc, waiting)?;
    let lacks = usize::from(shape.group) - waiting.len();
    let mut fillers = Shared::new(alloc, Entry::filler(1))?.share_times(alloc, lacks)?;
    entries.append(&mut fillers)?;
    Ok(entries)
}

// The fault of the tables once fillers have completed the last group.
fn fault_soon<R: Threads + Sync, G: Gate + Sync>(
    runtime: &Runtime<R, G>,
    roller: &Roller,
    waiting: &[Shared<Entry>],
    tables: u8,
) -> Result<Option<Key>, AllocError>
    requires some { 0 < length waiting.now }
    requires few { length waiting.now < roller.now.shape.group }
    requires room { rolled_upto roller.now + roller.now.shape.group ≤ roller.now.shape.cap }
    ensures { IfOk result (λ key. key ≡ table_fault tables (pairs_of (soon roller.now waiting.now).rolled.tree)) }
{
    let entries = filled(runtime.alloc, roller.shape(), waiting)?;
    let ahead = roll(runtime, roller, entries.as_slice())?;
    Ok(table_fault(ahead.tree(), tables))
}

/// The least fault of the tables from 1 up to `tables` at the opening of a run: of the roller's rows, or else of those that the
/// log would give if fillers completed the group of the entries that wait. `AllocError` where memory runs out.
pub fn opening_fault<R: Threads + Sync, G: Gate + Sync>(
    runtime: &Runtime<R, G>,
    roller: &Roller,
    waiting: &[Shared<Entry>],
    tables: u8,
) -> Result<Option<Key>, AllocError>
    requires few { length waiting.now < roller.now.shape.group }
    requires room { 0 < length waiting.now → rolled_upto roller.now + roller.now.shape.group ≤ roller.now.shape.cap }
    ensures { IfOk result (λ key. key ≡ looked roller.now waiting.now tables) }
{
    let fault = table_fault(roller.tree(), tables);
    if fault.is_some() || waiting.is_empty() {
        return Ok(fault);
    }
    fault_soon(runtime, roller, waiting, tables)
}
