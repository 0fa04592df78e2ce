//! Takes out the tombstones at or below a line.
ghost use Rattle.std.specs.Prelude.{◌≡◌, ℕ, ◌+◌, ◌*◌, ◌≤◌, List, ◌++◌, IfOk};
ghost use Rattle.hy_base.specs.Rows.{AreDeletedAfterStart, purged};
ghost use Rattle.hy_tree.specs.TreeRows.{AreRows, InBlock, CanFork};
ghost use Rattle.hy_meld.specs.Purges.{IsPurgedPart, AreJoined, count_purgeable};

use hy_base::Pos;
use hy_tree::{Look, Meter, View};
use std::alloc::{AllocError, Global};

// The tree of what is left of both sides of a fork.
fn join<M: Meter, T: Look<M> + Drop>(
    alloc: Global,
    left: Option<T>,
    right: Option<T>,
) -> Result<Option<T>, AllocError>
    requires { (l : T) (r : T) → left ≡ Some l → right ≡ Some r → CanFork (T.rows l) (T.rows r) }
    ensures { IfOk result (AreJoined T.rows left right) }
{
    match (left, right) {
        (None, right) => Ok(right),
        (left, None) => Ok(left),
        (Some(left), Some(right)) => Ok(Some(T::fork(alloc, left, right)?)),
    }
}

// What is left of a tree, none where that is no row. It looks only where a tombstone is taken out.
fn purge_part<M: Meter, T: Look<M> + Drop>(
    alloc: Global,
    tree: &T,
    line: Pos,
    steps: &mut M,
) -> Result<Option<T>, AllocError>
    requires { AreDeletedAfterStart (T.rows tree.now) }
    ensures left { IfOk result (IsPurgedPart T.rows line (T.rows tree.now)) }
    ensures valid { AreRows (T.rows tree.now) }
    ensures cost { (bits prefix : ℕ) → InBlock bits prefix (T.rows tree.now)
        → M.count steps.new ≤ M.count steps.old + (bits + 1) * count_purgeable line (T.rows tree.now) }
{
    let low = tree.low();
    if low == 0 || line < low {
        return Ok(Some(tree.share()?));
    }
    match tree.view(steps) {
        View::Empty | View::Row(_) => Ok(None),
        View::Fork { left, right, .. } => {
            let left = purge_part(alloc, left, line, steps)?;
            let right = purge_part(alloc, right, line, steps)?;
            join(alloc, left, right)
        }
    }
}

/// The tree without the tombstones whose writers are at or below a line. It looks at no more places than 130 for each that it
/// takes out, and one more, and shares all other parts. `AllocError` where memory runs out.
pub fn purge<M: Meter, T: Look<M> + Drop>(
    alloc: Global,
    tree: &T,
    line: Pos,
    steps: &mut M,
) -> Result<T, AllocError>
    requires { AreDeletedAfterStart (T.rows tree.now) }
    ensures purged { IfOk result (λ t. T.rows t ≡ purged line (T.rows tree.now)) }
    ensures cost { M.count steps.new ≤ M.count steps.old + 1 + 130 * count_purgeable line (T.rows tree.now) }
{
    match purge_part(alloc, tree, line, steps)? {
        Some(tree) => Ok(tree),
        None => Ok(T::empty()),
    }
}
