//! A tree made at once, of rows that stand in the order of their keys.
ghost use Rattle.std.specs.Prelude.{◌≡◌, ◌<◌, ◌++◌, length, IfOk};
ghost use Rattle.hy_base.specs.Rows.{IsOrdered};
ghost use Rattle.hy_tree.specs.TreeRows.{CanFork};

use crate::tree::Tree;
use hy_base::Row;
use std::alloc::{AllocError, Global};
use std::sync::Arc;

// The rows without and with the highest bit in which their keys differ. It is the highest one in which the least key and
// the greatest differ, as all the others lie between.
fn halves(rows: &[Row]) -> (&[Row], &[Row])
    requires ordered { IsOrdered rows.now }
    requires several { 1 < length rows.now }
    ensures whole { rows.now ≡ result.0.now ++ result.1.now }
    ensures fork { CanFork result.0.now result.1.now }
{
    let first = rows[0].key;
    let last = rows[rows.len() - 1].key;
    let bit = (first ^ last).ilog2();
    let lower = first >> bit;
    rows.split_at(rows.partition_point(|row| row.key >> bit <= lower))
}

impl Tree {
    /// The tree of rows that stand in the order of their keys. It makes each part once, where a `put` for each row would copy
    /// the path to it, and shares the values. `AllocError` where memory runs out.
    pub fn of_rows(alloc: Global, rows: &[Row]) -> Result<Tree, AllocError>
        requires { IsOrdered rows.now }
        ensures { IfOk result (λ t. t ≡ rows.now) }
    {
        match rows {
            [] => Ok(Tree::empty()),
            [row] => Ok(Tree::leaf(Arc::new(alloc, row.clone()?)?)),
            _ => {
                let (lower, upper) = halves(rows);
                let left = Tree::of_rows(alloc, lower)?;
                let right = Tree::of_rows(alloc, upper)?;
                Ok(Tree::fork(alloc, left, right)?)
            }
        }
    }
}
