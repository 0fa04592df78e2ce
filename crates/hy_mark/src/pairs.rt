//! Marks in the order of their blocks, each block at most once.
ghost use Rattle.std.specs.Prelude.{◌≡◌, ℕ, ◌<◌, max, List, [], ◌∷◌, IfOk, OnOk, OnErr, IsTrue, MatchOption, option_map};
ghost use Rattle.std.specs.List.{AllByRecursion};
ghost use Rattle.hy_base.specs.declared.record.Mark.{Mark};
ghost use Rattle.hy_base.specs.Entry.{span_before};
ghost use Rattle.hy_base.specs.Marks.{lesser, dep};
ghost use Rattle.hy_mark.specs.Blocks.{IsBlock};
ghost use Rattle.hy_mark.specs.Orders.{IsBefore, AreOrdered, ArePairs, IsFirstBlock};

use hy_base::{Items, Mark, Pos, Span};
use std::alloc::{AllocError, Global};
use std::marker::Model;

/// Marks in the order of their blocks, each block at most once.
#[derive(Drop)]
pub struct MarkList {
    marks: Items<Mark>,
}

impl Model for MarkList {
    ghost use Rattle.std.specs.Prelude.{List};
    ghost use Rattle.hy_base.specs.declared.record.Mark.{Mark};
    ghost use Rattle.hy_mark.specs.Orders.{ArePairs};

    ghost Value = { List Mark };

    ghost view = { λ p. p.marks };

    ghost invariant = { λ p. ArePairs p.marks };
}

// What is left of two lists behind the first mark of both.
#[derive(Clone, Copy)]
struct First<'a> {
    mark: Mark,
    left: &'a [Mark],
    right: &'a [Mark],
}

fn is_before(left: Span, right: Span) -> bool
    ensures { result ≡ span_before left right }
{
    left.lo < right.lo || (left.lo == right.lo && left.hi < right.hi)
}

// The first mark of two lists in order. A block that both have has one mark, with the lesser dependency.
fn first_of<'a>(left: &'a [Mark], right: &'a [Mark]) -> Option<First<'a>>
    ensures { MatchOption result ((left.now ≡ []) × (right.now ≡ [])) (λ first. AreOrdered left.now → AreOrdered right.now
        → IsFirstBlock left.now right.now first.mark first.left.now first.right.now) }
{
    match (left.split_first(), right.split_first()) {
        (None, None) => None,
        (Some((&mark, rest)), None) => Some(First {
            mark,
            left: rest,
            right,
        }),
        (None, Some((&mark, rest))) => Some(First {
            mark,
            left,
            right: rest,
        }),
        (Some((&low, left_rest)), Some((&high, right_rest))) => {
            if is_before(low.block, high.block) {
                Some(First {
                    mark: low,
                    left: left_rest,
                    right,
                })
            } else if is_before(high.block, low.block) {
                Some(First {
                    mark: high,
                    left,
                    right: right_rest,
                })
            } else {
                let dependency = low.dependency.min(high.dependency);
                let block = low.block;
                Some(First {
                    mark: Mark { block, dependency },
                    left: left_rest,
                    right: right_rest,
                })
            }
        }
    }
}

impl MarkList {
    /// No marks.
    pub fn new(alloc: Global) -> MarkList
        ensures { result ≡ [] }
    {
        MarkList {
            marks: Items::new(alloc),
        }
    }

    /// The marks, lent.
    pub fn as_slice(&self) -> &[Mark]
        ensures marks { result.now ≡ self.now }
        ensures valid { ArePairs self.now }
    {
        self.marks.as_slice()
    }

    /// The marks of both. A block that both have has the lesser dependency.
    pub fn joined(&self, alloc: Global, other: &MarkList) -> Result<MarkList, AllocError>
        ensures { IfOk result (λ p. (key : ℕ) → dep p key ≡ lesser (dep self.now key) (dep other.now key)) }
    {
        let room = self.marks.len().saturating_add(other.marks.len());
        let mut marks = Items::from_vec(Vec::with_capacity(alloc, room)?);
        let mut left = self.as_slice();
        let mut right = other.as_slice();
        while let Some(first) = first_of(left, right) {
            marks.push(first.mark)?;
            left = first.left;
            right = first.right;
        }
        Ok(MarkList { marks })
    }

    /// The marks of both, where the others are taken over.
    pub fn with(&self, alloc: Global, other: MarkList) -> Result<MarkList, AllocError>
        ensures { IfOk result (λ p. (key : ℕ) → dep p key ≡ lesser (dep self.now key) (dep other key)) }
    {
        if self.marks.len() == 0 {
            return Ok(other);
        }
        self.joined(alloc, &other)
    }

    // These marks, and then others behind them.
    fn followed(self, other: MarkList) -> Result<MarkList, AllocError>
        requires { AllByRecursion (λ m. AllByRecursion (IsBefore m) other) self }
        ensures { IfOk result (λ p. (key : ℕ) → dep p key ≡ lesser (dep self key) (dep other key)) }
    {
        let mut marks = self.marks.into_vec();
        let mut behind = other.marks.into_vec();
        marks.append(&mut behind)?;
        Ok(MarkList {
            marks: Items::from_vec(marks),
        })
    }

    // Whether each mark stands before all of the others.
    fn stands_before(&self, other: &MarkList) -> bool
        ensures { IsTrue result → AllByRecursion (λ m. AllByRecursion (IsBefore m) other.now) self.now }
    {
        match other.as_slice().split_first() {
            None => true,
            Some((first, _)) => self.ends_before(first.block),
        }
    }

    /// The marks of both, which are taken over. Nothing is copied where one has none, or all of one stand before the other's.
    pub fn into_joined(self, alloc: Global, other: MarkList) -> Result<MarkList, AllocError>
        ensures { IfOk result (λ p. (key : ℕ) → dep p key ≡ lesser (dep self key) (dep other key)) }
    {
        if self.marks.len() == 0 {
            return Ok(other);
        }
        if self.stands_before(&other) {
            return self.followed(other);
        }
        self.joined(alloc, &other)
    }

    // Whether each mark stands before this block.
    fn ends_before(&self, block: Span) -> bool
        ensures { IsTrue result → AllByRecursion (λ m. IsTrue (span_before m.block block)) self.now }
    {
        match self.marks.as_slice().split_last() {
            None => true,
            Some((last, _)) => is_before(last.block, block),
        }
    }

    /// Adds a mark of a block.
    pub fn add(&mut self, alloc: Global, mark: Mark) -> Result<(), AllocError>
        requires { IsBlock mark.block }
        ensures ok { OnOk result ((key : ℕ) → dep self.new key ≡ dep (mark ∷ self.old) key) }
        ensures err { OnErr result (self.new ≡ self.old) }
    {
        if self.ends_before(mark.block) {
            self.marks.push(mark)?;
            return Ok(());
        }
        let mut one = Items::new(alloc);
        one.push(mark)?;
        *self = self.joined(alloc, &MarkList { marks: one })?;
        Ok(())
    }

    /// The marks with each dependency raised to the base.
    pub fn raised(&self, alloc: Global, base: Pos) -> Result<MarkList, AllocError>
        ensures { IfOk result (λ p. (key : ℕ) → dep p key ≡ option_map (λ d. max d base) (dep self.now key)) }
    {
        let mut marks = Items::from_vec(Vec::with_capacity(alloc, self.marks.len())?);
        for &Mark { block, dependency } in self.as_slice() {
            let dependency = dependency.max(base);
            marks.push(Mark { block, dependency })?;
        }
        Ok(MarkList { marks })
    }
}
