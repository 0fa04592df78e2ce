//! The verdicts and rows of a log, by the last rows of keys.
//!
//! No entry is compared with all that committed past its snapshot: whether a key was written since is told by its last row.
//! Three states of the rows are kept, that after all groups so far and those at the ends of the last two whole windows, the
//! earlier of which is the premeld base.
ghost use Rattle.std.specs.Prelude.{◌≡◌, ◌==◌, ◌+◌, ◌*◌, ◌/◌, ◌%◌, ◌^◌, ◌<◌, ◌≤◌, [], length, drop, ◌++◌, OnOk, IfOk};
ghost use Rattle.std.specs.Prelude.{if◌then◌else◌};
ghost use Rattle.hy_base.specs.Shape.{IsGoodShape};
ghost use Rattle.hy_base.specs.Log.{IsLawful};
ghost use Rattle.hy_base.specs.Lists.{put};
ghost use Rattle.hy_base.specs.Rows.{applied, purged, row_before};
ghost use Rattle.hy_base.specs.Verdicts.{is_commit};
ghost use Rattle.hy_rules.specs.History.{committed_at, history_from};
ghost use Rattle.hy_rules.specs.Validation.{verdicts, rows};
ghost use Rattle.hy_check.specs.Folds.{folded_after};

use crate::group::{add_rows, judge_group};
use hy_base::{Entry, EntryKind, Items, Pos, Row, Rows, Shape, Steps, Verdict, Verdicts};
use hy_tree::{Tree, View};
use std::alloc::{AllocError, Global};
use std::marker::Brand;
use std::sync::ledger::{Blank, Ledger};

/// What so many whole groups of a log decide: the verdict at each position, and the last row of each key, without the
/// tombstones at or below the line.
#[derive(Drop)]
pub struct Folded {
    pub groups: u32,
    pub verdicts: Verdicts,
    pub rows: Rows,
}

// Adds what an entry wrote, where it committed.
fn add_committed(
    rows: &mut Vec<Row>,
    pos: Pos,
    entry: &Entry,
    verdict: Option<Verdict>,
) -> Result<(), AllocError>
    ensures { OnOk result (rows.new.items ≡ rows.old.items ++ committed_at pos entry.now (is_commit verdict)) }
{
    if let (Some(Verdict::Commit), EntryKind::Txn(intention)) = (verdict, entry.kind()) {
        add_rows(rows, pos, intention.writes.as_slice())?;
    }
    Ok(())
}

// Adds the verdicts of a group, and what its members wrote that committed.
fn add_group(
    verdicts: &mut Vec<Option<Verdict>>,
    rows: &mut Vec<Row>,
    upto: Pos,
    group: &[Entry],
    judged: &[Option<Verdict>],
) -> Result<(), AllocError>
    requires fits { upto + length group.now < 2 ^ 32 }
    requires count { length judged.now ≡ length group.now }
    ensures verdicts { OnOk result (verdicts.new.items ≡ verdicts.old.items ++ judged.now) }
    ensures rows { OnOk result (rows.new.items ≡ rows.old.items ++ history_from (upto + 1) group.now judged.now) }
{
    let mut pos = upto;
    for at in 0..group.len() {
        pos += 1;
        add_committed(rows, pos, &group[at], judged[at])?;
        verdicts.push(judged[at])?;
    }
    Ok(())
}

fn with_row(alloc: Global, tree: &Tree, row: Row) -> Result<Tree, AllocError>
    ensures { IfOk result (λ t. t ≡ put row_before row tree.now) }
{
    let Row { key, writer, value } = row;
    tree.put(alloc, key, writer, value)
}

// The tree with these rows put in place, one after another.
fn with_rows(alloc: Global, tree: Tree, rows: Vec<Row>) -> Result<Tree, AllocError>
    ensures { IfOk result (λ t. t ≡ applied tree rows.items) }
{
    let mut tree = tree;
    for row in rows {
        tree = with_row(alloc, &tree, row)?;
    }
    Ok(tree)
}

// The last row of each key: after the groups so far, and at the ends of the last two whole windows.
#[derive(Drop)]
struct LastRows {
    now: Tree,
    kept: Tree,
    base: Tree,
}

impl LastRows {
    fn none() -> LastRows
        ensures { result ≡ record { now = []; kept = []; base = [] } }
    {
        LastRows {
            now: Tree::empty(),
            kept: Tree::empty(),
            base: Tree::empty(),
        }
    }

    // With what one more group committed. It may be the last group of a window.
    fn with_group(
        self,
        alloc: Global,
        rows: Vec<Row>,
        is_last: bool,
    ) -> Result<LastRows, AllocError>
        ensures now { IfOk result (λ after. after.now ≡ applied self.now rows.items) }
        ensures kept { IfOk result (λ after. after.kept ≡ (if is_last then applied self.now rows.items else self.kept)) }
        ensures base { IfOk result (λ after. after.base ≡ (if is_last then self.kept else self.base)) }
    {
        let LastRows { now, kept, base } = self;
        let now = with_rows(alloc, now, rows)?;
        if is_last {
            Ok(LastRows {
                base: kept,
                kept: now.share()?,
                now,
            })
        } else {
            Ok(LastRows { now, kept, base })
        }
    }
}

// Adds the rows of a tree without the tombstones at or below a line.
fn add_unpurged<L: Ledger>(
    rows: &mut Vec<Row>,
    tree: &Tree,
    line: Pos,
    steps: &mut Steps<L>,
) -> Result<(), AllocError>
    ensures { OnOk result (rows.new.items ≡ rows.old.items ++ purged line tree.now) }
{
    match tree.view(steps) {
        View::Empty => Ok(()),
        View::Row(row) => {
            if row.value.is_none() && row.writer <= line {
                return Ok(());
            }
            rows.push(row.clone()?)?;
            Ok(())
        }
        View::Fork { left, right, .. } => {
            add_unpurged(rows, left, line, steps)?;
            add_unpurged(rows, right, line, steps)
        }
    }
}

fn unpurged_counted<L: Ledger>(
    alloc: Global,
    tree: &Tree,
    line: Pos,
    blank: Blank,
) -> Result<Vec<Row>, AllocError>
    requires own { (blank.name ≡ L.name) × (blank.parts ≡ L.parts) }
    requires some { 0 < L.parts }
    ensures { IfOk result (λ rows. rows.items ≡ purged line tree.now) }
{
    let mut rows = Vec::new(alloc);
    add_unpurged(&mut rows, tree, line, &mut Steps::<L>::new(blank))?;
    Ok(rows)
}

// The rows of a tree without the tombstones at or below a line.
fn unpurged(alloc: Global, tree: &Tree, line: Pos) -> Result<Vec<Row>, AllocError>
    ensures { IfOk result (λ rows. rows.items ≡ purged line tree.now) }
{
    unpurged_counted::<Brand>(alloc, tree, line, Blank::new(1))
}

// What the whole groups of a log decide.
fn folded_after(alloc: Global, entries: &[Entry], shape: Shape) -> Result<Folded, AllocError>
    requires good { IsGoodShape shape }
    requires lawful { IsLawful shape entries.now }
    ensures { IfOk result (λ folded. folded ≡ folded_after shape entries.now (length entries.now / shape.group)) }
{
    let size = shape.group as usize;
    let mut groups = 0;
    let mut verdicts = Vec::new(alloc);
    let mut last = LastRows::none();
    let mut upto = 0;
    while upto + size <= entries.len() {
        let base = shape.base(groups + 1);
        let oldest = shape.oldest_snap(groups);
        let group = &entries[upto..upto + size];
        let judged = judge_group(
            alloc,
            &last.base,
            &last.now,
            oldest,
            base,
            upto as Pos,
            group,
        )?;
        let mut rows = Vec::new(alloc);
        add_group(&mut verdicts, &mut rows, upto as Pos, group, &judged)?;
        groups += 1;
        upto += size;
        let is_last = groups % shape.window as u32 == 0;
        last = last.with_group(alloc, rows, is_last)?;
    }
    Ok(Folded {
        groups,
        verdicts: Items::from_vec(verdicts),
        rows: Items::from_vec(unpurged(alloc, &last.now, shape.line(groups))?),
    })
}

/// The verdicts of a log's whole groups, and the rows after them: one entry after another is validated against what committed
/// before it, without marks, premeld or stages. `AllocError` where memory runs out.
pub fn plain_fold(alloc: Global, entries: &[Entry], shape: Shape) -> Result<Folded, AllocError>
    requires good { IsGoodShape shape }
    requires lawful { IsLawful shape entries.now }
    ensures verdicts { IfOk result (λ folded. folded.verdicts ≡ verdicts shape entries.now (length entries.now)) }
    ensures rows { IfOk result (λ folded. folded.rows ≡ rows shape entries.now (length entries.now)) }
    ensures folded { IfOk result (λ folded. folded ≡ folded_after shape entries.now (length entries.now / shape.group)) }
{
    folded_after(alloc, entries, shape)
}
