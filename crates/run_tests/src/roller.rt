//! Small logs, rolled whole and in every cut.
ghost use Rattle.std.specs.Prelude.{◌≡◌, ◌%◌, ◌≤◌, IfOk};
ghost use Rattle.hy_base.specs.Shape.{IsGoodShape, IsWithin, before_horizon};
ghost use Rattle.hy_base.specs.Limits.{IsThreadCount};
ghost use Rattle.hy_base.specs.Rows.{Agrees, Each};
ghost use Rattle.hy_formats.specs.Checkpoint.{base_behind};

use crate::tree::{value, writer};
use hy_base::{
    Clash, Entry, Intention, Isolation, Key, Points, Pos, Shape, Shared, Span, Spans, Verdict,
    Write, Writes,
};
use hy_pipe::*;
use hy_roller::*;
use hy_tree::Tree;
use std::alloc::Global;
use std::sync::atomic::{AtomicU32, Ordering};
use std::test::Fail;
use std::thread;
use std::thread::Threads;

// A transaction's snapshot, the keys that it read, the key that it writes, and the byte that it puts there; none deletes it.
type Txn = (Pos, Key, Key, Key, Option<u8>);

// A position of a log. A filler is none.
type Item = Option<Txn>;

fn transaction(alloc: Global, txn: Txn) -> Result<Entry, Fail> {
    let (snap, lo, hi, key, byte) = txn;
    if hi < lo {
        return Err(Fail::new("the span has no keys"));
    }
    let value = value(alloc, byte)?;
    Ok(Entry::transaction(Intention {
        server: 1,
        client: 1,
        isolation: Isolation::Serializable,
        snap,
        points: Points::new(alloc),
        spans: Spans::from_vec(vec![in alloc; Span { lo, hi }]?),
        writes: Writes::from_vec(vec![in alloc; Write { key, value }]?),
    }))
}

fn entry(alloc: Global, item: Item) -> Result<Shared<Entry>, Fail> {
    let entry = match item {
        None => Entry::filler(1),
        Some(txn) => transaction(alloc, txn)?,
    };
    Ok(Shared::new(alloc, entry)?)
}

fn log(alloc: Global, items: &[Item]) -> Result<Vec<Shared<Entry>>, Fail> {
    let mut entries = Vec::new(alloc);
    for &item in items {
        entries.reserve(1)?;
        entries.push_reserved(entry(alloc, item)?);
    }
    Ok(entries)
}

// A roll further, if the entries are whole groups and have room.
fn further<R: Threads + Sync, G: Gate + Sync>(
    runtime: &Runtime<R, G>,
    shape: Shape,
    roller: &Roller,
    entries: &[Shared<Entry>],
) -> Result<Roller, Fail>
    requires good { IsGoodShape shape }
    requires same { roller.now.shape ≡ shape }
    ensures { IfOk result (λ r. r.shape ≡ shape) }
{
    if entries.len() % usize::from(shape.group) != 0 {
        return Err(Fail::new("a group is cut"));
    }
    let room = shape.cap.saturating_sub(roller.at()) as usize;
    if room < entries.len() || shape.cap < roller.at() {
        return Err(Fail::new("the log is full"));
    }
    Ok(roll(runtime, roller, entries)?)
}

fn checked(shape: Shape) -> Result<Shape, Fail>
    ensures { IfOk result IsGoodShape }
{
    match shape.check() {
        Ok(()) => Ok(shape),
        Err(_) => Err(Fail::new("the shape is refused")),
    }
}

fn shape(group: u8, window: u8, cap: Pos) -> Result<Shape, Fail>
    ensures { IfOk result IsGoodShape }
{
    checked(Shape {
        group,
        window,
        cap,
        version: 1,
        horizon: None,
    })
}

// Groups of one, windows of one, and a horizon.
fn shape_with(horizon: Pos) -> Result<Shape, Fail>
    ensures { IfOk result IsGoodShape }
{
    checked(Shape {
        group: 1,
        window: 1,
        cap: 8,
        version: 3,
        horizon: Some(horizon),
    })
}

// The entries rolled from the first one on.
fn rolled<R: Threads + Sync, G: Gate + Sync>(
    runtime: &Runtime<R, G>,
    shape: Shape,
    entries: &[Shared<Entry>],
) -> Result<Roller, Fail>
    requires good { IsGoodShape shape }
    ensures { IfOk result (λ r. r.shape ≡ shape) }
{
    let roller = Roller::new(runtime.alloc, shape)?;
    let end = further(runtime, shape, &roller, entries);
    drop(roller);
    end
}

// A log of these items, rolled from the first one on by two threads.
fn rolled_log<R: Threads + Sync, G: Gate + Sync>(
    rt: &R,
    alloc: Global,
    shape: Shape,
    items: &[Item],
    gate: &G,
) -> Result<Roller, Fail>
    requires { IsGoodShape shape }
{
    let entries = log(alloc, items)?;
    let roller = rolled(&Runtime::new(rt, alloc, 2, gate), shape, &entries);
    drop(entries);
    roller
}

// Whether these are the verdicts from position 1 on.
fn tells(roller: &Roller, verdicts: &[Option<Verdict>]) -> bool {
    let told = (1..).zip(verdicts.iter().copied());
    told.fold(true, |all, (pos, verdict)| {
        all && roller.verdict(pos) == Told::Known(verdict)
    })
}

// Whether these are the rows: key, writer, and whether there is a value.
fn has(tree: &Tree, rows: &[(Key, Pos, bool)]) -> bool {
    for &(key, writer, live) in rows {
        let Some(row) = tree.get(key) else {
            return false;
        };
        if row.writer != writer || row.value.is_some() != live {
            return false;
        }
    }
    tree.row_count() == rows.len() as u64
}

const ONE: Option<u8> = Some(b'1');

// Key 7 is read on the empty snapshot, and written.
const SUM: Item = Some((0, 7, 7, 7, ONE));

fn last(key: Key, by: Pos) -> Option<Verdict> {
    Some(Verdict::Final(Clash { key, by }))
}

fn early(key: Key, by: Pos) -> Option<Verdict> {
    Some(Verdict::Pre(Clash { key, by }))
}

const COMMIT: Option<Verdict> = Some(Verdict::Commit);

// Whether a log has these verdicts, and leaves these rows.
fn decides<R: Threads + Sync>(
    rt: &R,
    alloc: Global,
    shape: Shape,
    items: &[Item],
    verdicts: &[Option<Verdict>],
    rows: &[(Key, Pos, bool)],
) -> Result<bool, Fail>
    requires { IsGoodShape shape }
{
    let roller = rolled_log(rt, alloc, shape, items, &OpenGate)?;
    let decides = tells(&roller, verdicts) && has(roller.tree(), rows) && bounds(&roller, 0);
    drop(roller);
    Ok(decides)
}

// Whether it tells verdicts past this position alone, and up to the one that it has rolled to.
fn bounds(roller: &Roller, from: Pos) -> bool {
    let at = roller.at();
    let next = at.saturating_add(1);
    roller.verdict(from) == Told::Past { from } && roller.verdict(next) == Told::NotYet { at }
}

#[test]
fn later_sums_abort(rt: HostRuntime) -> Result<(), Fail> {
    let verdicts = [COMMIT, last(7, 1), early(7, 1)];
    let rows = [(7, 1, true)];
    let shape = shape(1, 1, 8)?;
    assert!(rt; decides(&rt, rt.alloc(), shape, &[SUM, SUM, SUM], &verdicts, &rows)?);
    Ok(())
}

// Key 15 is put, and deleted.
const PUT: Item = Some((0, 15, 15, 15, ONE));

const DELETE: Item = Some((1, 15, 15, 15, None));

// A scan on the empty snapshot.
const SCAN: Item = Some((0, 10, 20, 100, ONE));

#[test]
fn a_horizon_makes_a_snapshot_too_old(rt: HostRuntime) -> Result<(), Fail> {
    let log = [PUT, DELETE, SCAN];
    let old = [COMMIT, COMMIT, Some(Verdict::Old { snap: 0 })];
    let near = shape_with(1)?;
    assert!(rt; decides(&rt, rt.alloc(), near, &log, &old, &[])?);
    let clash = [COMMIT, COMMIT, early(15, 1)];
    let far = shape_with(2)?;
    assert!(rt; decides(&rt, rt.alloc(), far, &log, &clash, &[(15, 2, false)])?);
    Ok(())
}

#[test]
fn an_old_deletion_is_left_out(rt: HostRuntime) -> Result<(), Fail> {
    let log = [PUT, DELETE, Some((2, 1, 1, 1, ONE))];
    let near = shape_with(1)?;
    assert!(rt; decides(&rt, rt.alloc(), near, &log, &[COMMIT; 3], &[(1, 3, true)])?);
    let far = shape_with(2)?;
    let rows = [(1, 3, true), (15, 2, false)];
    assert!(rt; decides(&rt, rt.alloc(), far, &log, &[COMMIT; 3], &rows)?);
    Ok(())
}

// A log of 24 positions, with snapshots up to six positions back.
fn item(number: u32) -> Item
    requires { number ≤ 24 }
{
    if number % 7 == 6 {
        return None;
    }
    let snap = (number / 2 * 2).saturating_sub(number % 4 * 2);
    let read = Key::from(number * 5 % 6);
    let byte = if number % 5 == 4 { None } else { ONE };
    Some((snap, read, read, Key::from(number * 7 % 6), byte))
}

fn mixed(alloc: Global) -> Result<Vec<Shared<Entry>>, Fail> {
    let mut entries = Vec::new(alloc);
    for number in 0..24 {
        entries.reserve(1)?;
        entries.push_reserved(entry(alloc, item(number))?);
    }
    Ok(entries)
}

// Whether two rollers have the same rows, and tell the same past a position.
fn are_same(one: &Roller, other: &Roller, from: Pos) -> bool {
    let mut same = one.at() == other.at();
    for key in 0..6 {
        same = same && writer(one.tree(), key) == writer(other.tree(), key);
        same = same && writer(one.base_tree(), key) == writer(other.base_tree(), key);
    }
    for pos in from..25 {
        same = same && one.verdict(pos + 1) == other.verdict(pos + 1);
    }
    same
}

// Counts the groups that enter, and adds up their numbers.
#[derive(Drop)]
struct Counts {
    entered: AtomicU32,
    numbers: AtomicU32,
}

impl Gate for Counts {
    fn enter(&self, group: u32) {
        self.entered.fetch_add(1, Ordering::SeqCst);
        self.numbers.fetch_add(group, Ordering::SeqCst);
    }

    fn client(&self, _client: u32) {}
}

// The entries rolled in two parts, the first of so many.
fn in_parts<R: Threads + Sync, G: Gate + Sync>(
    runtime: &Runtime<R, G>,
    shape: Shape,
    entries: &[Shared<Entry>],
    place: usize,
) -> Result<Roller, Fail>
    requires good { IsGoodShape shape }
    ensures { IfOk result (λ r. r.shape ≡ shape) }
{
    if entries.len() < place {
        return Err(Fail::new("the log is shorter"));
    }
    let (front, back) = entries.split_at(place);
    let part = rolled(runtime, shape, front)?;
    let end = further(runtime, shape, &part, back);
    drop(part);
    end
}

// Keeps nothing, but might: so each run of groups is a task, however short it is.
#[derive(Clone, Copy, Drop)]
struct Passing;

impl Gate for Passing {
    fn enter(&self, _group: u32) {}

    fn client(&self, _client: u32) {}
}

// Whether one more of the roller of both parts, by so many threads, is the same as the whole.
fn is_as_whole<R: Threads + Sync>(
    rt: &R,
    alloc: Global,
    shape: Shape,
    entries: &[Shared<Entry>],
    whole: &Roller,
    place: usize,
    threads: usize,
) -> Result<bool, Fail>
    requires good { IsGoodShape shape }
    requires threads { IsThreadCount threads }
{
    let runtime = Runtime::new(rt, alloc, threads, &Passing);
    let both = in_parts(&runtime, shape, entries, place)?;
    let shared = both.share();
    drop(both);
    let shared = shared?;
    let same = are_same(whole, &shared, 0);
    drop(shared);
    Ok(same)
}

// Whether a cut of the log rolls as the whole, by any number of threads.
fn is_cut_well<R: Threads + Sync>(
    rt: &R,
    alloc: Global,
    shape: Shape,
    entries: &[Shared<Entry>],
    whole: &Roller,
    place: usize,
) -> Result<bool, Fail>
    requires { IsGoodShape shape }
{
    for threads in [1, 2, 16] {
        if !is_as_whole(rt, alloc, shape, entries, whole, place, threads)? {
            return Ok(false);
        }
    }
    Ok(true)
}

// Whether each cut of the log rolls as the whole.
fn are_cut_well<R: Threads + Sync>(
    rt: &R,
    alloc: Global,
    shape: Shape,
    entries: &[Shared<Entry>],
    whole: &Roller,
) -> Result<bool, Fail>
    requires { IsGoodShape shape }
{
    for place in [0, 2, 4, 6, 10, 12, 18, 24] {
        if !is_cut_well(rt, alloc, shape, entries, whole, place)? {
            return Ok(false);
        }
    }
    Ok(true)
}

fn is_mixed_cut_well<R: Threads + Sync>(rt: &R, alloc: Global) -> Result<bool, Fail> {
    let shape = shape(2, 2, 24)?;
    let entries = mixed(alloc)?;
    let whole = rolled(&Runtime::new(rt, alloc, 1, &OpenGate), shape, &entries)?;
    let well = are_cut_well(rt, alloc, shape, &entries, &whole);
    drop(whole);
    drop(entries);
    well
}

#[test]
fn each_cut_rolls_the_same(rt: HostRuntime) -> Result<(), Fail> {
    assert!(rt; is_mixed_cut_well(&rt, rt.alloc())?);
    Ok(())
}

// The position up to which the mixed log is rolled under a gate, in two parts.
fn mixed_upto<R: Threads + Sync, G: Gate + Sync>(
    rt: &R,
    alloc: Global,
    gate: &G,
) -> Result<Pos, Fail> {
    let shape = shape(2, 2, 24)?;
    let entries = mixed(alloc)?;
    let roller = in_parts(&Runtime::new(rt, alloc, 16, gate), shape, &entries, 6);
    drop(entries);
    let roller = roller?;
    let at = roller.at();
    drop(roller);
    Ok(at)
}

#[test]
fn each_group_enters_once(rt: HostRuntime) -> Result<(), Fail> {
    let gate = Counts {
        entered: AtomicU32::new(0),
        numbers: AtomicU32::new(0),
    };
    assert_eq!(rt; mixed_upto(&rt, rt.alloc(), &gate)?, 24);
    assert_eq!(rt; gate.entered.load(Ordering::SeqCst), 12);
    assert_eq!(rt; gate.numbers.load(Ordering::SeqCst), 78);
    Ok(())
}

// Keeps the first group until another one has entered. It gives up after a number of turns. It may say that it keeps none, and
// then threads are started only where they are worth it.
#[derive(Drop)]
struct Meeting {
    keeps: bool,
    other: u32,
    entered: AtomicU32,
    gave_up: AtomicU32,
}

impl Meeting {
    fn new(keeps: bool, other: u32) -> Meeting {
        Meeting {
            keeps,
            other,
            entered: AtomicU32::new(0),
            gave_up: AtomicU32::new(0),
        }
    }
}

impl Gate for Meeting {
    fn enter(&self, group: u32) {
        if group == self.other {
            self.entered.store(1, Ordering::SeqCst);
        }
        if group != 1 {
            return;
        }
        for _turn in 0..10000000 {
            if self.entered.load(Ordering::SeqCst) == 1 {
                return;
            }
            thread::yield_now();
        }
        self.gave_up.fetch_add(1, Ordering::SeqCst);
    }

    fn client(&self, _client: u32) {}

    fn keeps(&self) -> bool {
        self.keeps
    }
}

// Whether the second of two sums in one window clashes, rolled by two threads under a gate.
fn second_clashes<R: Threads + Sync, G: Gate + Sync>(
    rt: &R,
    alloc: Global,
    gate: &G,
) -> Result<bool, Fail> {
    let shape = shape(1, 2, 8)?;
    let roller = rolled_log(rt, alloc, shape, &[SUM, SUM], gate)?;
    let clashes = tells(&roller, &[COMMIT, last(7, 1)]);
    drop(roller);
    Ok(clashes)
}

#[test]
fn groups_of_a_window_are_staged_beside_each_other(rt: HostRuntime) -> Result<(), Fail> {
    let gate = Meeting::new(true, 2);
    assert!(rt; second_clashes(&rt, rt.alloc(), &gate)?);
    assert_eq!(rt; gate.gave_up.load(Ordering::SeqCst), 0);
    Ok(())
}

// A window of 64 groups of eight, rolled by two threads under a gate. Each entry reads a span and writes a key, so that it
// touches just as many as are worth threads.
fn roll_widely<R: Threads + Sync, G: Gate + Sync>(
    rt: &R,
    alloc: Global,
    gate: &G,
) -> Result<(), Fail> {
    let shape = shape(8, 64, 512)?;
    let sum = entry(alloc, SUM)?;
    let sums = sum.share_times(alloc, 512);
    drop(sum);
    let sums = sums?;
    let roller = rolled(&Runtime::new(rt, alloc, 2, gate), shape, &sums);
    drop(sums);
    drop(roller?);
    Ok(())
}

#[test]
fn a_wide_window_is_staged_by_two_threads(rt: HostRuntime) -> Result<(), Fail> {
    let gate = Meeting::new(false, 33);
    roll_widely(&rt, rt.alloc(), &gate)?;
    assert_eq!(rt; gate.gave_up.load(Ordering::SeqCst), 0);
    Ok(())
}

// The rows at a roller's base, the base, and the position up to which it has rolled.
fn start_of(shape: Shape, roller: &Roller) -> Result<(Tree, Pos, Pos), Fail>
    requires good { IsGoodShape shape }
    requires same { roller.now.shape ≡ shape }
    ensures whole { IfOk result (λ p. p.2 % shape.group ≡ 0) }
    ensures within { IfOk result (λ p. p.2 ≤ shape.cap) }
    ensures base { IfOk result (λ p. p.1 ≡ base_behind shape p.2) }
    ensures rows { IfOk result (λ p. Each (λ r. IsWithin 1 (base_behind shape p.2) r.writer) p.0) }
    ensures left { IfOk result (λ p. Agrees (before_horizon shape.horizon (base_behind shape p.2)) p.0 p.0) }
{
    let at = roller.at();
    let rows = roller.base_tree().share()?;
    let base = shape.base(at / u32::from(shape.group) + 1);
    Ok((rows, base, at))
}

// Which entries committed, from one position up to another.
fn committed(alloc: Global, roller: &Roller, base: Pos, at: Pos) -> Result<Vec<bool>, Fail> {
    let mut flags = Vec::new(alloc);
    for pos in base..at {
        flags.push(roller.verdict(pos + 1) == Told::Known(COMMIT))?;
    }
    Ok(flags)
}

// A roller that is resumed where another one is, from what that one has there.
fn resumed(
    alloc: Global,
    shape: Shape,
    entries: &[Shared<Entry>],
    roller: &Roller,
) -> Result<Roller, Fail>
    requires good { IsGoodShape shape }
    requires same { roller.now.shape ≡ shape }
    ensures { IfOk result (λ r. r.shape ≡ shape) }
{
    let (rows, base, at) = start_of(shape, roller)?;
    let flags = committed(alloc, roller, base, at)?;
    let (start, end) = (base as usize, at as usize);
    if entries.len() < end || end < start || flags.len() != end - start {
        return Err(Fail::new("the log is shorter"));
    }
    let (_, past) = entries[..end].split_at(start);
    let again = Roller::resume(alloc, shape, at, rows, past, &flags);
    drop(flags);
    Ok(again?)
}

// A roller that is resumed behind these entries.
fn resumed_behind<R: Threads + Sync>(
    rt: &R,
    alloc: Global,
    shape: Shape,
    entries: &[Shared<Entry>],
) -> Result<Roller, Fail>
    requires { IsGoodShape shape }
    ensures { IfOk result (λ r. r.shape ≡ shape) }
{
    let part = rolled(&Runtime::new(rt, alloc, 2, &OpenGate), shape, entries)?;
    let again = resumed(alloc, shape, entries, &part);
    drop(part);
    again
}

// Whether a roller that was resumed tells nothing up to there, nor does this one, which is the same as the whole past that.
fn is_end_of(end: &Roller, whole: &Roller, again: &Roller) -> bool {
    let from = again.at();
    bounds(again, from) && are_same(whole, end, from) && end.verdict(from) == Told::Past { from }
}

// Whether a roller that was resumed goes on by the rest of a log as the whole.
fn goes_on<R: Threads + Sync>(
    rt: &R,
    alloc: Global,
    shape: Shape,
    rest: &[Shared<Entry>],
    whole: &Roller,
    again: &Roller,
) -> Result<bool, Fail>
    requires good { IsGoodShape shape }
    requires same { again.now.shape ≡ shape }
{
    let end = further(&Runtime::new(rt, alloc, 2, &OpenGate), shape, again, rest)?;
    let is_end = is_end_of(&end, whole, again);
    drop(end);
    Ok(is_end)
}

fn goes_on_from<R: Threads + Sync>(
    rt: &R,
    alloc: Global,
    shape: Shape,
    entries: &[Shared<Entry>],
    whole: &Roller,
    place: usize,
) -> Result<bool, Fail>
    requires { IsGoodShape shape }
{
    if entries.len() < place {
        return Err(Fail::new("the log is shorter"));
    }
    let (front, rest) = entries.split_at(place);
    let again = resumed_behind(rt, alloc, shape, front)?;
    let goes = goes_on(rt, alloc, shape, rest, whole, &again);
    drop(again);
    goes
}

// The first place at which a resumed roller doesn't go on as the whole.
fn first_astray<R: Threads + Sync>(
    rt: &R,
    alloc: Global,
    shape: Shape,
    entries: &[Shared<Entry>],
    whole: &Roller,
) -> Result<Option<usize>, Fail>
    requires { IsGoodShape shape }
{
    for place in [0, 2, 4, 6, 12, 14, 22, 24] {
        if !goes_on_from(rt, alloc, shape, entries, whole, place)? {
            return Ok(Some(place));
        }
    }
    Ok(None)
}

fn first_place_astray<R: Threads + Sync>(rt: &R, alloc: Global) -> Result<Option<usize>, Fail> {
    let shape = shape(2, 2, 24)?;
    let entries = mixed(alloc)?;
    let whole = rolled(&Runtime::new(rt, alloc, 2, &OpenGate), shape, &entries)?;
    let astray = first_astray(rt, alloc, shape, &entries, &whole);
    drop(whole);
    drop(entries);
    astray
}

#[test]
fn a_resumed_roller_goes_on_as_the_whole(rt: HostRuntime) -> Result<(), Fail> {
    assert_eq!(rt; first_place_astray(&rt, rt.alloc())?, None);
    Ok(())
}
