//! The marks of an intention, and of several.
ghost use Rattle.std.specs.Prelude.{◌≡◌, ℕ, ◌==◌, [], IfOk, OnOk};
ghost use Rattle.std.specs.List.{AllByRecursion, list_any};
ghost use Rattle.hy_base.specs.Entry.{is_in_span};
ghost use Rattle.hy_base.specs.Rows.{rows_at, newest};
ghost use Rattle.hy_base.specs.Marks.{AreMarks, IsRaised, IsMerged, known_to, lesser, dep};
ghost use Rattle.hy_mark.specs.Blocks.{IsBlock};
ghost use Rattle.hy_mark.specs.Orders.{IsMarkSet, known_if};

use crate::covering::cover;
use crate::pairs::MarkList;
use crate::written::Written;
use hy_base::{Intention, Key, Mark, Pos, Row, Span, Write};
use std::alloc::{AllocError, Global};
use std::marker::Model;

/// Up to which position the writers of some keys are known, and the writes that go with that.
///
/// The pairs of a block and a position stand in the order of the blocks, each block once, and the writes in the order of
/// their keys.
#[derive(Drop)]
pub struct Marks {
    pairs: MarkList,
    writes: Written,
}

impl Model for Marks {
    ghost use Rattle.hy_base.specs.Marks.{MarkSet};

    ghost Value = { MarkSet };

    ghost view = { λ m. record { pairs = m.pairs; writes = m.writes } };
}

fn one_key(key: Key) -> Span
    ensures block { IsBlock result }
    ensures holds { (other : ℕ) → is_in_span other result ≡ (key == other) }
{
    Span { lo: key, hi: key }
}

// Adds a mark of each block.
fn mark_blocks(
    alloc: Global,
    pairs: &mut MarkList,
    blocks: &[Span],
    dependency: Pos,
) -> Result<(), AllocError>
    requires { AllByRecursion IsBlock blocks.now }
    ensures ok { OnOk result ((key : ℕ)
        → dep pairs.new key ≡ lesser (known_if dependency (list_any (is_in_span key) blocks.now)) (dep pairs.old key)) }
{
    for &block in blocks {
        pairs.add(alloc, Mark { block, dependency })?;
    }
    Ok(())
}

// The marks of keys that were read by themselves.
fn of_points(alloc: Global, points: &[Key], dependency: Pos) -> Result<MarkList, AllocError>
    ensures { IfOk result (λ p. (key : ℕ) → dep p key ≡ known_if dependency (list_any (λ point. point == key) points.now)) }
{
    let mut pairs = MarkList::new(alloc);
    for &key in points {
        let block = one_key(key);
        pairs.add(alloc, Mark { block, dependency })?;
    }
    Ok(pairs)
}

// The marks of keys that are written.
fn of_writes(alloc: Global, writes: &[Write], dependency: Pos) -> Result<MarkList, AllocError>
    ensures { IfOk result (λ p. (key : ℕ) → dep p key ≡ known_if dependency (list_any (λ w. w.key == key) writes.now)) }
{
    let mut pairs = MarkList::new(alloc);
    for write in writes {
        let block = one_key(write.key);
        pairs.add(alloc, Mark { block, dependency })?;
    }
    Ok(pairs)
}

// The marks of a span that was scanned.
fn of_span(alloc: Global, span: Span, dependency: Pos) -> Result<MarkList, AllocError>
    ensures { IfOk result (λ p. (key : ℕ) → dep p key ≡ known_if dependency (is_in_span key span)) }
{
    let blocks = cover(alloc, span)?;
    let mut pairs = MarkList::new(alloc);
    mark_blocks(alloc, &mut pairs, blocks.as_slice(), dependency)?;
    Ok(pairs)
}

// The marks of spans that were scanned.
fn of_spans(alloc: Global, spans: &[Span], dependency: Pos) -> Result<MarkList, AllocError>
    ensures { IfOk result (λ p. (key : ℕ) → dep p key ≡ known_if dependency (list_any (is_in_span key) spans.now)) }
{
    let mut pairs = MarkList::new(alloc);
    for &span in spans {
        let more = of_span(alloc, span, dependency)?;
        pairs = pairs.into_joined(alloc, more)?;
    }
    Ok(pairs)
}

// The last write of each key, as rows of a position.
fn rows_of(alloc: Global, writes: &[Write], pos: Pos) -> Result<Written, AllocError>
    ensures { IfOk result (λ w. w ≡ newest (rows_at pos writes.now)) }
{
    let mut rows = Written::new(alloc);
    for write in writes {
        let row = Row::of_write(write, pos)?;
        rows.add(alloc, row)?;
    }
    Ok(rows)
}

impl Marks {
    /// No marks.
    pub fn new(alloc: Global) -> Marks
        ensures { result ≡ record { pairs = []; writes = [] } }
    {
        Marks {
            pairs: MarkList::new(alloc),
            writes: Written::new(alloc),
        }
    }

    /// The marks of an intention at a position: of each key that it touches the writers are known up to its snapshot. Its
    /// writes become rows of the position.
    pub fn of(alloc: Global, intention: &Intention, pos: Pos) -> Result<Marks, AllocError>
        ensures { IfOk result (AreMarks (known_to intention.now.snap intention.now) (rows_at pos intention.now.writes)) }
    {
        let snap = intention.snap;
        let writes = intention.writes.as_slice();
        let points = of_points(alloc, intention.points.as_slice(), snap)?;
        let spans = of_spans(alloc, intention.spans.as_slice(), snap)?;
        let written = of_writes(alloc, writes, snap)?;
        let pairs = points.into_joined(alloc, spans.into_joined(alloc, written)?)?;
        let writes = rows_of(alloc, writes, pos)?;
        Ok(Marks { pairs, writes })
    }

    /// The marks with each dependency raised to the base, where it is below.
    pub fn raise(self, alloc: Global, base: Pos) -> Result<Marks, AllocError>
        ensures { IfOk result (IsRaised base self) }
    {
        let pairs = self.pairs.raised(alloc, base)?;
        Ok(Marks {
            pairs,
            writes: self.writes,
        })
    }

    /// The pairs, in the order of their blocks, and the writes, in the order of their keys.
    pub fn view(&self) -> (&[Mark], &[Row])
        ensures pairs { result.0.now ≡ self.now.pairs }
        ensures writes { result.1.now ≡ self.now.writes }
        ensures valid { IsMarkSet self.now }
    {
        (self.pairs.as_slice(), self.writes.as_slice())
    }

    /// The marks and the writes of both. Of a key that both mark the lesser dependency holds, and of a key that both write
    /// the other's write stands.
    pub fn merge(&self, alloc: Global, other: Marks) -> Result<Marks, AllocError>
        ensures { IfOk result (IsMerged self.now other) }
    {
        let pairs = self.pairs.with(alloc, other.pairs)?;
        let writes = self.writes.with(alloc, other.writes)?;
        Ok(Marks { pairs, writes })
    }
}
