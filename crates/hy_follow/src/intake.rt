//! What a follower holds, and how it takes bytes.
ghost use Rattle.std.specs.Prelude.{◌≡◌, ◌+◌, ◌<◌, ◌≤◌, [], ◌++◌, length, take, drop, nat_lt, IfOk, OnOk, OnErr, None};
ghost use Rattle.hy_base.specs.Shape.{IsGoodShape, largest_cap, whole_groups};
ghost use Rattle.hy_formats.specs.EntryFormat.{decoded_at};
ghost use Rattle.hy_formats.specs.StreamFormat.{head_judged, length_fault, told_length};
ghost use Rattle.hy_follow.specs.Following.{nothing_followed, upto, shape_of, came_count, end_of};
ghost use Rattle.hy_follow.specs.Steps.{due, IsSized, IsAwaited, IsJudged, TakesAll, TakesSome, after_head, after_length};
ghost use Rattle.hy_follow.specs.Steps.{after_body, after_frame, after_judging, after_rolling, holding, longest_frame};

use crate::framing::{length_fault, told_length};
use crate::heading::judge_head;
use hy_base::{Entry, Pos, Shape, Shared, both, share_all};
use hy_codec::{DecodeError, decode_at};
use hy_formats::{BadEntry, BadFrame, Damage};
use hy_pipe::{Gate, Runtime, roll, whole_groups};
use hy_roller::Roller;
use std::alloc::{AllocError, Global};
use std::marker::Model;
use std::thread::Threads;

/// What came of a stream, rolled.
#[derive(Drop)]
pub struct Intake {
    // None before the header was taken.
    roller: Option<Roller>,
    // The entries past the roller's position.
    rest: Vec<Shared<Entry>>,
    // Where the header or frame begins that isn't whole, and what came of it.
    place: u64,
    waiting: Vec<u8>,
    bad: Option<BadFrame>,
}

impl Model for Intake {
    ghost use Rattle.hy_follow.specs.Following.{Following};

    ghost Value = { Following };

    ghost view = { λ h.
        record { roll = h.roller; rest = h.rest.items; place = h.place; waiting = h.waiting.items; bad = h.bad } };
}

// How many entries are held at most before their whole groups are rolled: those of the largest window.
const WINDOW_ENTRIES: usize = 512;

fn share_roller(roller: &Option<Roller>) -> Result<Option<Roller>, AllocError>
    ensures { IfOk result (λ r. r ≡ roller.now) }
{
    match roller {
        None => Ok(None),
        Some(roller) => {
            let shared = roller.share()?;
            Ok(Some(shared))
        }
    }
}

// The entries of whole groups among these, and those after them.
fn split_whole(shape: Shape, entries: &[Shared<Entry>]) -> (&[Shared<Entry>], &[Shared<Entry>])
    requires { 1 ≤ shape.group }
    ensures whole { result.0.now ≡ take (whole_groups shape (length entries.now)) entries.now }
    ensures rest { result.1.now ≡ drop (whole_groups shape (length entries.now)) entries.now }
{
    entries.split_at(whole_groups(shape, entries.len()))
}

// The entry that the body of a frame spells at a position, or why it spells none.
fn read_body(
    alloc: Global,
    shape: Shape,
    pos: Pos,
    body: &[u8],
) -> Result<Result<Shared<Entry>, BadEntry>, AllocError>
    requires good { IsGoodShape shape }
    requires first { 1 ≤ pos }
    ensures exact { IfOk result (λ read. read ≡ decoded_at shape pos body.now) }
{
    match decode_at(alloc, body, pos, shape) {
        Ok(entry) => {
            let entry = Shared::new(alloc, entry)?;
            Ok(Ok(entry))
        }
        Err(DecodeError::BadEntry(bad)) => Ok(Err(bad)),
        Err(DecodeError::Memory) => Err(AllocError),
    }
}

impl Intake {
    /// Before the first byte.
    pub fn new(alloc: Global) -> Intake
        ensures { result ≡ nothing_followed }
    {
        Intake {
            roller: None,
            rest: Vec::new(alloc),
            place: 0,
            waiting: Vec::new(alloc),
            bad: None,
        }
    }

    /// The roller, lent, once the header was taken.
    pub fn roller(&self) -> &Option<Roller>
        ensures { result.now ≡ self.now.roll }
    {
        &self.roller
    }

    /// The first header or frame that was refused.
    pub fn bad(&self) -> Option<BadFrame>
        ensures { result ≡ self.now.bad }
    {
        self.bad
    }

    /// Why the stream can't end here.
    pub fn end(&self) -> Option<BadFrame>
        ensures { result ≡ end_of self.now }
    {
        if self.bad.is_some() {
            return self.bad;
        }
        if self.waiting.is_empty() {
            return None;
        }
        Some(BadFrame {
            place: self.place,
            why: Damage::Short,
        })
    }

    /// The shape, once the header was taken.
    pub fn shape(&self) -> Option<Shape>
        ensures { result ≡ shape_of self.now.roll }
    {
        match &self.roller {
            None => None,
            Some(roller) => Some(roller.shape()),
        }
    }

    /// The position up to which the entries are rolled.
    pub fn at(&self) -> Pos
        ensures { result ≡ upto self.now.roll }
    {
        match &self.roller {
            None => 0,
            Some(roller) => roller.at(),
        }
    }

    /// How many entries came.
    pub fn count(&self) -> Pos
        requires { IsSized self.now }
        ensures count { result ≡ came_count self.now }
        ensures most { result ≤ largest_cap }
    {
        let at = self.at();
        at + self.rest.len() as Pos
    }

    // How many bytes the header or frame that begins here has when it is judged next.
    fn due(&self) -> usize
        ensures { result ≡ due (shape_of self.now.roll) self.now.waiting }
    {
        match &self.roller {
            None => 19,
            Some(_) => {
                if self.waiting.len() < 4 {
                    return 4;
                }
                4 + told_length(&self.waiting)
            }
        }
    }

    /// One more of the same; entries and rows are shared.
    pub fn share(&self, alloc: Global) -> Result<Intake, AllocError>
        ensures { IfOk result (λ h. h ≡ self.now) }
    {
        let rest = share_all(alloc, &self.rest);
        let waiting = Vec::from_slice(alloc, &self.waiting);
        let lists = both(rest, waiting);
        let (roller, (rest, waiting)) = both(share_roller(&self.roller), lists)?;
        Ok(Intake {
            roller,
            rest,
            place: self.place,
            waiting,
            bad: self.bad,
        })
    }

    // The header is judged.
    fn take_head(&mut self, alloc: Global) -> Result<(), AllocError>
        requires { length self.old.waiting ≡ 19 }
        ensures { OnOk result (self.new ≡ after_head self.old (head_judged self.old.waiting)) }
    {
        match judge_head(&self.waiting) {
            Ok(shape) => {
                self.roller = Some(Roller::new(alloc, shape)?);
                self.rest = Vec::new(alloc);
                self.place = 19;
                self.waiting.clear();
                self.bad = None;
            }
            Err(bad) => self.bad = Some(bad),
        }
        Ok(())
    }

    // The length of a frame is judged.
    fn take_length(&mut self, shape: Shape, len: usize)
        requires { IsSized self.old }
        ensures { self.new ≡ after_length self.old (length_fault shape (came_count self.old) len) }
    {
        if let Some(why) = length_fault(shape, self.count(), len) {
            self.bad = Some(BadFrame {
                place: self.place,
                why,
            });
        }
    }

    // The body of a frame is judged.
    fn take_body(&mut self, alloc: Global, shape: Shape) -> Result<(), AllocError>
        requires good { IsGoodShape shape }
        requires sized { IsSized self.old }
        requires whole { 4 ≤ length self.old.waiting }
        requires few { length self.old.waiting ≤ longest_frame }
        ensures { OnOk result (self.new
            ≡ after_body self.old (decoded_at shape (came_count self.old + 1) (drop 4 self.old.waiting))) }
    {
        let pos = self.count() + 1;
        match read_body(alloc, shape, pos, &self.waiting[4..])? {
            Ok(entry) => {
                self.rest.reserve(1)?;
                self.rest.push_reserved(entry);
                self.place += self.waiting.len() as u64;
                self.waiting.clear();
                self.bad = None;
            }
            Err(bad) => {
                self.bad = Some(BadFrame {
                    place: self.place + 4 + bad.place as u64,
                    why: bad.why,
                });
            }
        }
        Ok(())
    }

    // What came of a frame is judged, if it is time.
    fn judge_frame(&mut self, alloc: Global, shape: Shape) -> Result<(), AllocError>
        requires good { IsGoodShape shape }
        requires sized { IsSized self.old }
        requires few { 4 < length self.old.waiting → length self.old.waiting ≤ longest_frame }
        ensures { OnOk result (self.new ≡ after_frame shape self.old) }
    {
        let came = self.waiting.len();
        if came < 4 {
            return Ok(());
        }
        let len = told_length(&self.waiting);
        if came == 4 {
            self.take_length(shape, len);
            return Ok(());
        }
        if came == 4 + len {
            return self.take_body(alloc, shape);
        }
        Ok(())
    }

    // What came of the header or frame is judged, if it is time.
    fn judge(&mut self, alloc: Global) -> Result<(), AllocError>
        requires { IsAwaited self.old }
        ensures { OnOk result (self.new ≡ after_judging self.old) }
    {
        match self.shape() {
            None => {
                if self.waiting.len() == 19 {
                    return self.take_head(alloc);
                }
                Ok(())
            }
            Some(shape) => self.judge_frame(alloc, shape),
        }
    }

    // Takes the first of these bytes, up to those that are due, and answers the others.
    fn take_some<'a>(&mut self, alloc: Global, bytes: &'a [u8]) -> Result<&'a [u8], AllocError>
        requires ready { IsJudged self.old }
        requires fine { self.old.bad ≡ None }
        requires some { 0 < length bytes.now }
        ensures ready { IfOk result (λ more. IsJudged self.new) }
        ensures fewer { IfOk result (λ more. length more.now < length bytes.now) }
        ensures taken { IfOk result (λ more. TakesSome self.old bytes.now self.new more.now) }
    {
        let open = self.due() - self.waiting.len();
        let (front, more) = bytes.split_at(open.min(bytes.len()));
        self.waiting.extend_from_slice(front)?;
        self.judge(alloc)?;
        Ok(more)
    }

    /// Rolls the whole groups of its entries.
    pub fn roll_whole<R: Threads + Sync, G: Gate + Sync>(
        &mut self,
        runtime: &Runtime<R, G>,
    ) -> Result<(), AllocError>
        requires sized { IsSized self.old }
        ensures { OnOk result (self.new ≡ after_rolling self.old) }
    {
        let Some(roller) = &self.roller else {
            return Ok(());
        };
        let (whole, rest) = split_whole(roller.shape(), &self.rest);
        let roller = roll(runtime, roller, whole)?;
        let rest = share_all(runtime.alloc, rest)?;
        self.roller = Some(roller);
        self.rest = rest;
        Ok(())
    }

    // Rolls the whole groups of its entries, where these may be many.
    fn roll_if_many<R: Threads + Sync, G: Gate + Sync>(
        &mut self,
        runtime: &Runtime<R, G>,
    ) -> Result<(), AllocError>
        requires ready { IsJudged self.old }
        ensures ready { OnOk result (IsJudged self.new) }
        ensures same { OnOk result (TakesAll self.old [] self.new) }
    {
        if self.rest.len() >= WINDOW_ENTRIES {
            return self.roll_whole(runtime);
        }
        Ok(())
    }

    /// Takes these bytes, up to the first header or frame that is refused.
    pub fn take<R: Threads + Sync, G: Gate + Sync>(
        &mut self,
        runtime: &Runtime<R, G>,
        bytes: &[u8],
    ) -> Result<(), AllocError>
        requires ready { IsJudged self.old }
        ensures ready { OnOk result (IsJudged self.new) }
        ensures taken { OnOk result (TakesAll self.old bytes.now self.new) }
    {
        let mut left = bytes;
        while self.bad.is_none() && !left.is_empty() {
            left = self.take_some(runtime.alloc, left)?;
            self.roll_if_many(runtime)?;
        }
        Ok(())
    }

    /// Whether what came of the header or frame isn't judged with these bytes yet.
    pub fn is_too_few(&self, bytes: &[u8]) -> bool
        requires ready { IsJudged self.now }
        requires fine { self.now.bad ≡ None }
        ensures { result ≡ nat_lt (length self.now.waiting + length bytes.now) (due (shape_of self.now.roll) self.now.waiting) }
    {
        bytes.len() < self.due() - self.waiting.len()
    }

    /// Keeps these bytes, with which nothing is judged yet. Where memory runs out nothing changes.
    pub fn keep(&mut self, bytes: &[u8]) -> Result<(), AllocError>
        ensures kept { OnOk result (self.new ≡ holding self.old (self.old.waiting ++ bytes.now)) }
        ensures same { OnErr result (self.new ≡ self.old) }
    {
        self.waiting.extend_from_slice(bytes)
    }
}
