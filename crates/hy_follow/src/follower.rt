//! The follower.
ghost use Rattle.std.specs.Prelude.{◌≡◌, ◌+◌, ◌++◌, List, ℕ, [], length, IfOk, OnOk, None, Some, Err};
ghost use Rattle.hy_formats.specs.declared.damage.BadFrame.{BadFrame};
ghost use Rattle.hy_formats.specs.StreamFormat.{came, streamed, unless_bad};
ghost use Rattle.hy_rules.specs.History.{live_rows, pairs_of};
ghost use Rattle.hy_follow.specs.Following.{HasFollowed, IsRowsOf, answer_with, end_of, came_count, nothing_followed};
ghost use Rattle.hy_follow.specs.Following.{rows_held, shape_of, told_by_roll, upto, verdicts_held};
ghost use Rattle.hy_follow.specs.Steps.{IsJudged};
ghost use Rattle.hy_follow.specs.declared.follower.FeedError.TheVariants as feeding;

use crate::intake::Intake;
use hy_base::{Items, Pos, Shape, Verdicts};
use hy_formats::BadFrame;
use hy_pipe::{Gate, Runtime};
use hy_roller::Told;
use hy_tree::Tree;
use std::alloc::{AllocError, Global};
use std::marker::Model;
use std::thread::Threads;
use thiserror::Error;

/// Why a follower doesn't take a piece of a stream.
#[derive(Clone, Copy, Debug, Error)]
pub enum FeedError {
    /// Out of memory. The follower is as it was.
    #[error("out of memory")]
    Memory,
    /// The first header or frame that is refused. The follower keeps what it held before that place.
    #[error("{0}")]
    BadFrame(BadFrame),
}

impl From<AllocError> for FeedError {
    ghost from_gives = { λ _ error. error ≡ feeding.Memory };

    fn from(_: AllocError) -> Self {
        Self::Memory
    }
}

/// What follows a log by its stream: it has rolled the whole groups of the entries whose frames came.
#[derive(Drop)]
pub struct Follower {
    held: Intake,
    // The rows before the header was taken.
    empty: Tree,
}

impl Model for Follower {
    ghost use Rattle.std.specs.Prelude.{◌≡◌, []};
    ghost use Rattle.hy_follow.specs.Following.{Following};
    ghost use Rattle.hy_follow.specs.Steps.{IsJudged};

    ghost Value = { Following };

    ghost view = { λ f. f.held };

    ghost invariant = { λ f. IsJudged f.held × (f.empty ≡ []) };
}

// What is held after these bytes, made aside.
fn fed<R: Threads + Sync, G: Gate + Sync>(
    held: &Intake,
    runtime: &Runtime<R, G>,
    piece: &[u8],
) -> Result<Intake, AllocError>
    requires ready { IsJudged held.now }
    ensures ready { IfOk result IsJudged }
    ensures taken { IfOk result (λ next. (bytes : List ℕ) → HasFollowed bytes held.now
        → HasFollowed (bytes ++ piece.now) next) }
{
    let mut next = held.share(runtime.alloc)?;
    next.take(runtime, piece)?;
    next.roll_whole(runtime)?;
    Ok(next)
}

impl Follower {
    /// Before the first byte of a stream.
    pub fn new(alloc: Global) -> Follower
        ensures start { result ≡ nothing_followed }
        ensures followed { HasFollowed [] result }
    {
        Follower {
            held: Intake::new(alloc),
            empty: Tree::empty(),
        }
    }

    /// Takes the next bytes of a stream, and rolls the whole groups of the entries that they complete; each group enters the
    /// gate once.
    ///
    /// `BadFrame`: the first header or frame that is refused, by its place in the stream, once the bytes by which it is refused
    /// are there; then each later call answers the same, and the follower keeps what it held before that place. `Memory`: out
    /// of memory; the follower is as it was.
    pub fn feed<R: Threads + Sync, G: Gate + Sync>(
        &mut self,
        runtime: &Runtime<R, G>,
        piece: &[u8],
    ) -> Result<(), FeedError>
        ensures taken { (bytes : List ℕ) → HasFollowed bytes self.old → (result ≡ Err feeding.Memory → ⊥)
            → HasFollowed (bytes ++ piece.now) self.new }
        ensures fine { OnOk result (self.new.bad ≡ None) }
        ensures refused { (bad : BadFrame) → result ≡ Err (feeding.BadFrame bad) → self.new.bad ≡ Some bad }
        ensures again { (bad : BadFrame) → self.old.bad ≡ Some bad
            → (result ≡ Err (feeding.BadFrame bad)) × (self.new ≡ self.old) }
        ensures untouched { result ≡ Err feeding.Memory → self.new ≡ self.old }
    {
        if let Some(bad) = self.held.bad() {
            return Err(FeedError::BadFrame(bad));
        }
        if self.held.is_too_few(piece) {
            self.held.keep(piece)?;
            return Ok(());
        }
        self.held = fed(&self.held, runtime, piece)?;
        match self.held.bad() {
            None => Ok(()),
            Some(bad) => Err(FeedError::BadFrame(bad)),
        }
    }

    /// Whether the stream may end here: behind its header or a frame, or without a byte.
    ///
    /// `BadFrame`: the header or frame that was refused, or else, as `Short`, the place of the one that isn't whole.
    pub fn finish(&self) -> Result<(), BadFrame>
        ensures exact { result ≡ unless_bad (end_of self.now) tt }
        ensures whole { (bytes : List ℕ) → HasFollowed bytes self.now
            → streamed bytes ≡ answer_with ((came bytes).shape, (came bytes).entries) result }
    {
        match self.held.end() {
            None => Ok(()),
            Some(bad) => Err(bad),
        }
    }

    /// The end of the last whole group that came, 0 before the header was taken.
    pub fn at(&self) -> Pos
        ensures { result ≡ upto self.now.roll }
    {
        self.held.at()
    }

    /// How many entries came whose whole frames came.
    pub fn len(&self) -> Pos
        ensures exact { result ≡ came_count self.now }
        ensures came { (bytes : List ℕ) → HasFollowed bytes self.now → result ≡ length (came bytes).entries }
    {
        self.held.count()
    }

    /// The shape of the log, once the header was taken.
    pub fn shape(&self) -> Option<Shape>
        ensures { result ≡ shape_of self.now.roll }
    {
        self.held.shape()
    }

    /// What became of the entry at a position, as a roller tells it; before the header was taken as a roller at position 0.
    pub fn verdict(&self, pos: Pos) -> Told
        ensures { result ≡ told_by_roll self.now.roll pos }
    {
        match self.held.roller() {
            None => {
                if pos == 0 {
                    return Told::Past { from: 0 };
                }
                Told::NotYet { at: 0 }
            }
            Some(roller) => roller.verdict(pos),
        }
    }

    /// The verdicts of the positions up to that end, in order; a filler has none. `AllocError`: out of memory.
    pub fn verdicts(&self, alloc: Global) -> Result<Verdicts, AllocError>
        ensures { IfOk result (λ verdicts. verdicts ≡ verdicts_held self.now.roll) }
    {
        match self.held.roller() {
            None => Ok(Items::new(alloc)),
            Some(roller) => roller.kept_verdicts(alloc),
        }
    }

    /// The rows there, lent: all of them, and within a window perhaps tombstones at or below the line besides.
    pub fn tree(&self) -> &Tree
        ensures agrees { IsRowsOf self.now.roll result.now }
        ensures live { live_rows result.now ≡ live_rows (rows_held self.now.roll) }
        ensures pairs { pairs_of result.now ≡ pairs_of (rows_held self.now.roll) }
    {
        match self.held.roller() {
            None => &self.empty,
            Some(roller) => roller.tree(),
        }
    }
}
