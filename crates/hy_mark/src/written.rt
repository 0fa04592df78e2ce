//! Writes as rows, in the order of their keys, each key at most once.
ghost use Rattle.std.specs.Prelude.{◌≡◌, ◌<◌, [], IfOk, OnOk, OnErr, IsTrue, MatchOption};
ghost use Rattle.std.specs.List.{AllByRecursion};
ghost use Rattle.hy_base.specs.declared.record.Row.{Row};
ghost use Rattle.hy_base.specs.Lists.{put};
ghost use Rattle.hy_base.specs.Rows.{IsOrdered, row_before, applied};
ghost use Rattle.hy_mark.specs.Orders.{IsFirstRow};

use hy_base::{Items, Key, Row, Rows};
use std::alloc::{AllocError, Global};
use std::marker::Model;

/// Rows in the order of their keys, each key at most once.
#[derive(Drop)]
pub struct Written {
    rows: Rows,
}

impl Model for Written {
    ghost use Rattle.std.specs.Prelude.{List};
    ghost use Rattle.hy_base.specs.declared.record.Row.{Row};
    ghost use Rattle.hy_base.specs.Rows.{IsOrdered};

    ghost Value = { List Row };

    ghost view = { λ w. w.rows };

    ghost invariant = { λ w. IsOrdered w.rows };
}

// What is left of two lists behind the first row of both.
#[derive(Clone, Copy)]
struct FirstRow<'a> {
    row: &'a Row,
    left: &'a [Row],
    right: &'a [Row],
}

// The first row of two lists in order. Of a key that both have it is the right one.
fn first_of<'a>(left: &'a [Row], right: &'a [Row]) -> Option<FirstRow<'a>>
    ensures { MatchOption result ((left.now ≡ []) × (right.now ≡ [])) (λ first. IsOrdered left.now → IsOrdered right.now
        → IsFirstRow left.now right.now first.row.now first.left.now first.right.now) }
{
    match (left.split_first(), right.split_first()) {
        (None, None) => None,
        (Some((row, rest)), None) => Some(FirstRow {
            row,
            left: rest,
            right,
        }),
        (None, Some((row, rest))) => Some(FirstRow {
            row,
            left,
            right: rest,
        }),
        (Some((low, left_rest)), Some((high, right_rest))) => {
            if low.key < high.key {
                Some(FirstRow {
                    row: low,
                    left: left_rest,
                    right,
                })
            } else if high.key < low.key {
                Some(FirstRow {
                    row: high,
                    left,
                    right: right_rest,
                })
            } else {
                Some(FirstRow {
                    row: high,
                    left: left_rest,
                    right: right_rest,
                })
            }
        }
    }
}

impl Written {
    /// No rows.
    pub fn new(alloc: Global) -> Written
        ensures { result ≡ [] }
    {
        Written {
            rows: Items::new(alloc),
        }
    }

    /// The rows, lent.
    pub fn as_slice(&self) -> &[Row]
        ensures rows { result.now ≡ self.now }
        ensures ordered { IsOrdered self.now }
    {
        self.rows.as_slice()
    }

    /// The rows with those of another list in place. It shares their values.
    pub fn joined(&self, alloc: Global, other: &Written) -> Result<Written, AllocError>
        ensures { IfOk result (λ w. w ≡ applied self.now other.now) }
    {
        let room = self.rows.len().saturating_add(other.rows.len());
        let mut rows = Items::from_vec(Vec::with_capacity(alloc, room)?);
        let mut left = self.as_slice();
        let mut right = other.as_slice();
        while let Some(first) = first_of(left, right) {
            rows.push(first.row.clone()?)?;
            left = first.left;
            right = first.right;
        }
        Ok(Written { rows })
    }

    /// The rows with those of another list in place, which is taken over.
    pub fn with(&self, alloc: Global, other: Written) -> Result<Written, AllocError>
        ensures { IfOk result (λ w. w ≡ applied self.now other) }
    {
        if self.rows.len() == 0 {
            let _ordered = other.as_slice();
            return Ok(other);
        }
        self.joined(alloc, &other)
    }

    // Whether each row has a lesser key.
    fn ends_before(&self, key: Key) -> bool
        ensures { IsTrue result → AllByRecursion (λ r. r.key < key) self.now }
    {
        match self.rows.as_slice().split_last() {
            None => true,
            Some((last, _)) => last.key < key,
        }
    }

    /// Puts a row in place.
    pub fn add(&mut self, alloc: Global, row: Row) -> Result<(), AllocError>
        ensures ok { OnOk result (self.new ≡ put row_before row self.old) }
        ensures err { OnErr result (self.new ≡ self.old) }
    {
        if self.ends_before(row.key) {
            self.rows.push(row)?;
            return Ok(());
        }
        let mut one = Items::new(alloc);
        one.push(row)?;
        *self = self.joined(alloc, &Written { rows: one })?;
        Ok(())
    }
}
