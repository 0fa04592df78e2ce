//! Small hubs over devices in memory.
ghost use Rattle.std.specs.Prelude.{◌≡◌, ◌+◌, ◌<◌, ◌≤◌, All, IfOk, IfSome, IsTrue, length, ℕ, []};
ghost use Rattle.hy_base.specs.Shape.{IsGoodShape, IsWithin};
ghost use Rattle.hy_hub.specs.Calls.{IsIdle};
ghost use Rattle.run_tests.specs.Trial.{home_at, trial_homes, IsTrial, IsTrialShape, IsPutOf, TakesAll};
ghost use Rattle.hy_hub.specs.Origin.{hub_parts};

use crate::calls::empty;
use crate::courses::course_of;
use crate::slow_disk::SlowDisk;
use hy_base::{
    Entry, Event, Home, Intention, Isolation, Mode, Modes, Phase, Points, Pos, Shape, Spans, Value,
    Verdict, Write, Writes,
};
use hy_disk::{Disk, Tuned};
use hy_hist::Pass;
use hy_hub::*;
use hy_log::{PageLog, open_log};
use hy_mem::MemDisk;
use hy_pipe::{OpenGate, Runtime, roll};
use hy_roller::{Roller, Told};
use std::alloc::{AllocError, Global};
use std::marker::Brand;
use std::sync::Wait;
use std::test::Fail;
use std::thread;
use std::thread::Threads;

/// A hub, and a pass with all its parts.
pub type Trial<D, B> = (Hub<D, B>, Pass<Contents<D, B>>);

/// A log without entries on a device.
pub fn open_on<D: Disk + Drop>(alloc: Global, disk: D, shape: Shape) -> Result<PageLog<D>, Fail>
    requires { IsGoodShape shape }
    ensures { IfOk result (λ log. (log.stopped ≡ None)
        × (log.batch ≡ [])
        × (log.bodies ≡ [])
        × (log.from ≡ 0)
        × (log.shape ≡ shape)) }
{
    let Ok(log) = open_log(alloc, disk, Some(shape)) else {
        return Err("not opened")?;
    };
    if log.len() != 0 || log.shape() != shape {
        return Err("not an empty log of this shape")?;
    }
    Ok(log)
}

// The home of a client of a server, which has three programs.
fn home_at(alloc: Global, server: u8) -> Result<Home, AllocError>
    ensures { IfOk result (λ home. home ≡ home_at server) }
{
    let plain = Mode {
        isolation: Isolation::Serializable,
        as_of: None,
    };
    let programs = vec![in alloc; plain; 3]?;
    Ok(Home {
        server,
        programs: Modes::from_vec(programs),
    })
}

fn homes(alloc: Global) -> Result<Vec<Home>, AllocError>
    ensures { IfOk result (λ homes. homes.items ≡ trial_homes) }
{
    let mut homes = Vec::new(alloc);
    homes.push(home_at(alloc, 1)?)?;
    homes.push(home_at(alloc, 2)?)?;
    homes.push(home_at(alloc, 1)?)?;
    homes.push(home_at(alloc, 1)?)?;
    homes.push(home_at(alloc, 1)?)?;
    Ok(homes)
}

/// A hub of two servers. The second client is at the second, the other four are at the first, and each has three programs.
pub fn hub_on<D: Disk + Drop, B: Since>(
    alloc: Global,
    shape: Shape,
    log: PageLog<D>,
) -> Result<Trial<D, B>, Fail>
    requires log { IsGoodShape shape
        × (log.stopped ≡ None)
        × (log.batch ≡ [])
        × (log.bodies ≡ [])
        × (log.from ≡ 0)
        × (log.shape ≡ shape) }
    requires untold { IsTrue D.tells → ⊥ }
    requires least { B.least ≡ 0 }
    requires version { B.version ≡ shape.version }
    ensures trial { IfOk result (λ r. IsTrial r.0 shape r.1) }
    ensures parts { IfOk result (λ r. (r.0.parts ≡ hub_parts) × (r.1.parts ≡ hub_parts)) }
{
    let homes = homes(alloc)?;
    let setup = Setup {
        start: Roller::new(alloc, shape)?,
        servers: 2,
        homes,
        keeps: 1,
    };
    match Hub::new(alloc, log, Vec::new(alloc), setup) {
        Ok(made) => Ok(made),
        Err(_) => Err(Fail::from(AllocError)),
    }
}

// Such a hub on a device in memory that tells nothing, so that no clause looks back.
fn start_on(alloc: Global, shape: Shape, disk: MemDisk) -> Result<Trial<SlowDisk, Brand>, Fail>
    requires { IsTrialShape shape }
    ensures trial { IfOk result (λ r. IsTrial r.0 shape r.1) }
    ensures parts { IfOk result (λ r. (r.0.parts ≡ hub_parts) × (r.1.parts ≡ hub_parts)) }
{
    let log = open_on(alloc, SlowDisk::quiet(alloc, disk)?, shape)?;
    hub_on::<SlowDisk, Brand>(alloc, shape, log)
}

/// A put of a byte at key 1 by a client at its server. None where memory runs out.
pub fn put(alloc: Global, client: u8, snap: Pos, byte: u8) -> Option<Entry>
    requires { IsWithin 1 5 client }
    ensures { IfSome result (IsPutOf client) }
{
    let value = Value::new(vec![in alloc; byte; 1].ok()?).ok()?;
    let write = Write {
        key: 1,
        value: Some(value),
    };
    Some(Entry::transaction(Intention {
        server: if client == 2 { 2 } else { 1 },
        client,
        isolation: Isolation::Serializable,
        snap,
        points: Points::new(alloc),
        spans: Spans::new(alloc),
        writes: Writes::from_vec(vec![in alloc; write].ok()?),
    }))
}

// The client's next program begins.
fn begin<D: Disk, B: Since, R: Wait>(
    rt: &R,
    shape: Shape,
    hub: &Hub<D, B>,
    pass: &mut Pass<Contents<D, B>>,
    client: u8,
) -> Result<Begun, BeginRefusal>
    requires trial { IsTrial hub.now shape pass.old }
    requires client { IsWithin 1 5 client }
    ensures trial { IsTrial hub.now shape pass.new }
    ensures parts { pass.new.parts ≡ pass.old.parts }
{
    let _ = shape;
    hub.begin(rt, pass, client)
}

/// The number of the client's next program, where it begins.
pub fn begins<D: Disk, B: Since, R: Wait>(
    rt: &R,
    shape: Shape,
    hub: &Hub<D, B>,
    pass: &mut Pass<Contents<D, B>>,
    client: u8,
) -> Option<u32>
    requires trial { IsTrial hub.now shape pass.old }
    requires client { IsWithin 1 5 client }
    ensures trial { IsTrial hub.now shape pass.new }
    ensures parts { pass.new.parts ≡ pass.old.parts }
{
    let begun = begin(rt, shape, hub, pass, client).ok()?;
    let number = begun.number;
    drop(begun);
    Some(number)
}

/// The entry of the client's program of a number is appended.
pub fn append<D: Disk, B: Since, R: Wait>(
    rt: &R,
    shape: Shape,
    hub: &Hub<D, B>,
    pass: &mut Pass<Contents<D, B>>,
    client: u8,
    number: u32,
    entry: Entry,
) -> Result<Pos, AppendRefusal>
    requires free { TakesAll B.suits }
    requires trial { IsTrial hub.now shape pass.old }
    requires client { IsWithin 1 5 client }
    requires own { IsPutOf client entry }
    ensures trial { IsTrial hub.now shape pass.new }
    ensures parts { pass.new.parts ≡ pass.old.parts }
{
    let _ = shape;
    hub.append(rt, pass, client, number, entry)
}

// What a server's look gives, rolled and published.
fn catch_up<D: Disk, B: Since, R: Threads + Wait + Sync>(
    rt: &R,
    alloc: Global,
    shape: Shape,
    hub: &Hub<D, B>,
    pass: &mut Pass<Contents<D, B>>,
    server: u8,
) -> Option<Result<(), PublishRefusal>>
    requires trial { IsTrial hub.now shape pass.old }
    requires server { IsWithin 1 2 server }
    ensures trial { IsTrial hub.now shape pass.new }
    ensures parts { pass.new.parts ≡ pass.old.parts }
{
    let _ = shape;
    let look = hub.look(rt, pass, server).ok()?;
    let entries = look.entries.as_slice();
    let runtime = Runtime::new(rt, alloc, 1, &OpenGate);
    let rolled = roll(&runtime, &look.roller, entries).ok();
    drop(look);
    Some(hub.publish(rt, pass, server, rolled?))
}

/// How many writes and syncs the opening of a device without bytes takes.
pub const OPENING: u64 = 7;

/// Groups of one.
pub const SHAPE: Shape = Shape {
    group: 1,
    window: 1,
    cap: 8,
    version: 1,
    horizon: None,
};

const PAIRS: Shape = Shape { group: 2, ..SHAPE };

const FOURS: Shape = Shape { group: 4, ..SHAPE };

/// Groups of five.
pub const FIVES: Shape = Shape {
    group: 5,
    cap: 10,
    ..SHAPE
};

const SMALL: Shape = Shape { cap: 1, ..SHAPE };

/// The client's next program begins, and puts a byte.
pub fn put_once<D: Disk, B: Since, R: Wait>(
    rt: &R,
    alloc: Global,
    shape: Shape,
    hub: &Hub<D, B>,
    pass: &mut Pass<Contents<D, B>>,
    client: u8,
) -> Option<Result<Pos, AppendRefusal>>
    requires free { TakesAll B.suits }
    requires trial { IsTrial hub.now shape pass.old }
    requires client { IsWithin 1 5 client }
    ensures trial { IsTrial hub.now shape pass.new }
    ensures parts { pass.new.parts ≡ pass.old.parts }
{
    let begun = begin(rt, shape, hub, pass, client).ok()?;
    let (number, snap) = (begun.number, begun.snap);
    drop(begun);
    let entry = put(alloc, client, snap, b'a')?;
    Some(append(rt, shape, hub, pass, client, number, entry))
}

// A small hub, with the one pass that has all its parts.
#[derive(Drop)]
struct Bench {
    alloc: Global,
    shape: Shape,
    hub: Hub<SlowDisk, Brand>,
    pass: Pass<Contents<SlowDisk, Brand>>,
    ghost trial: { IsTrial hub shape pass },
    ghost whole: { hub.parts ≡ pass.parts },
}

impl Bench {
    fn new(alloc: Global, shape: Shape) -> Result<Bench, Fail>
        requires { IsTrialShape shape }
    {
        let (hub, pass) = start_on(alloc, shape, empty(alloc)?)?;
        Ok(Bench {
            alloc,
            shape,
            hub,
            pass,
        })
    }

    // Its device fails in its k-th write or sync.
    fn failing(alloc: Global, shape: Shape, k: u64) -> Result<Bench, Fail>
        requires { IsTrialShape shape × (1 ≤ k) × (k < 100) }
    {
        let mut disk = empty(alloc)?;
        disk.arm(OPENING + k);
        let (hub, pass) = start_on(alloc, shape, disk)?;
        Ok(Bench {
            alloc,
            shape,
            hub,
            pass,
        })
    }

    fn begin<R: Wait>(&mut self, rt: &R, client: u8) -> Result<Begun, BeginRefusal>
        requires { IsWithin 1 2 client }
    {
        begin(rt, self.shape, &self.hub, &mut self.pass, client)
    }

    // The snapshot of the client's next program, and how many rows its server's roller has there.
    fn begun<R: Wait>(&mut self, rt: &R, client: u8) -> Option<(Pos, u64)>
        requires { IsWithin 1 2 client }
    {
        let begun = self.begin(rt, client).ok()?;
        let found = (begun.snap, begun.roller.tree().row_count());
        drop(begun);
        Some(found)
    }

    // The client's next program begins, and puts a byte.
    fn put<R: Wait>(&mut self, rt: &R, client: u8) -> Option<Result<Pos, AppendRefusal>>
        requires { IsWithin 1 2 client }
    {
        let (alloc, shape) = (self.alloc, self.shape);
        put_once(rt, alloc, shape, &self.hub, &mut self.pass, client)
    }

    // A put of the client's program of a number on a snapshot, whether or not it began there.
    fn append<R: Wait>(
        &mut self,
        rt: &R,
        client: u8,
        number: u32,
        snap: Pos,
    ) -> Option<Result<Pos, AppendRefusal>>
        requires { IsWithin 1 2 client }
    {
        let entry = put(self.alloc, client, snap, b'b')?;
        let (hub, pass) = (&self.hub, &mut self.pass);
        Some(append(rt, self.shape, hub, pass, client, number, entry))
    }

    fn end<R: Wait>(&mut self, rt: &R, client: u8, number: u32, snap: Pos) -> Result<(), EndRefusal>
        requires { IsWithin 1 2 client }
    {
        self.hub.end(rt, &mut self.pass, client, number, snap)
    }

    fn pad<R: Wait>(&mut self, rt: &R, server: u8) -> Result<Pos, PadRefusal>
        requires { IsWithin 1 2 server }
    {
        self.hub.pad(rt, &mut self.pass, server)
    }

    fn catch_up<R: Threads + Wait + Sync>(
        &mut self,
        rt: &R,
        server: u8,
    ) -> Option<Result<(), PublishRefusal>>
        requires { IsWithin 1 2 server }
    {
        let (alloc, shape) = (self.alloc, self.shape);
        catch_up(rt, alloc, shape, &self.hub, &mut self.pass, server)
    }

    fn verdict<R: Wait>(&mut self, rt: &R, server: u8, pos: Pos) -> Told
        requires { IsWithin 1 2 server }
    {
        self.hub.verdict(rt, &mut self.pass, server, pos)
    }

    // Not where memory runs out.
    fn has_trace<R: Wait>(&mut self, rt: &R, wanted: &[Event]) -> bool {
        match self.hub.trace(rt, &mut self.pass) {
            Ok(trace) => trace.as_slice() == wanted,
            Err(_) => false,
        }
    }

    fn close(self) -> Closed<SlowDisk> {
        let Bench {
            alloc: _,
            shape: _,
            hub,
            pass,
        } = self;
        hub.close(pass)
    }
}

// The device of a hub that is closed.
fn device_of(closed: Closed<SlowDisk>) -> MemDisk {
    closed.log.close().into_disk()
}

// The refusal of a call that comes when its client is elsewhere.
fn running(snap: Pos) -> Phase {
    Phase::Begun { snap }
}

#[test]
fn a_program_is_begun_and_appended(rt: HostRuntime) -> Result<(), Fail> {
    let mut bench = Bench::new(rt.alloc(), SHAPE)?;
    assert!(rt; bench.put(&rt, 1) == Some(Ok(1)));
    let behind = BeginRefusal::Behind { last: 1, board: 0 };
    assert!(rt; bench.begin(&rt, 1).err() == Some(behind));
    assert!(rt; bench.pad(&rt, 1) == Err(PadRefusal::Even));
    let closed = bench.close();
    assert!(rt; closed.entries.len() == 1 && closed.occurrences.len() == 7);
    assert!(rt; device_of(closed).bytes().len() == 513);
    Ok(())
}

#[test]
fn the_turn_to_roll_is_given_back(rt: HostRuntime) -> Result<(), Fail> {
    let bench = Bench::new(rt.alloc(), SHAPE)?;
    for _time in 0..2 {
        assert!(rt; bench.hub.take_roll(&rt, 1) && bench.hub.take_roll(&rt, 2));
        bench.hub.end_roll(1);
        bench.hub.end_roll(2);
    }
    drop(bench);
    Ok(())
}

#[test]
fn an_entry_is_published(rt: HostRuntime) -> Result<(), Fail> {
    let mut bench = Bench::new(rt.alloc(), SHAPE)?;
    assert!(rt; bench.put(&rt, 1) == Some(Ok(1)));
    assert!(rt; bench.verdict(&rt, 1, 1) == Told::NotYet { at: 0 });
    assert!(rt; bench.catch_up(&rt, 1) == Some(Ok(())));
    assert!(rt; bench.verdict(&rt, 1, 1) == Told::Known(Some(Verdict::Commit)));
    assert!(rt; bench.verdict(&rt, 1, 0) == Told::Past { from: 0 });
    drop(bench);
    Ok(())
}

#[test]
fn a_board_is_published_once(rt: HostRuntime) -> Result<(), Fail> {
    let mut bench = Bench::new(rt.alloc(), SHAPE)?;
    assert!(rt; bench.put(&rt, 1) == Some(Ok(1)));
    assert!(rt; bench.catch_up(&rt, 1) == Some(Ok(())));
    let stale = PublishRefusal::Stale { board: 1 };
    assert!(rt; bench.catch_up(&rt, 1) == Some(Err(stale)));
    let wanted = [
        Event::Begin { client: 1 },
        Event::Append { client: 1 },
        Event::Publish { server: 1, upto: 1 },
    ];
    assert!(rt; bench.has_trace(&rt, &wanted));
    drop(bench);
    Ok(())
}

#[test]
fn a_call_out_of_turn_is_refused(rt: HostRuntime) -> Result<(), Fail> {
    let mut bench = Bench::new(rt.alloc(), SHAPE)?;
    let client = 1;
    assert!(rt; bench.put(&rt, 1) == Some(Ok(1)));
    assert!(rt; bench.catch_up(&rt, 1) == Some(Ok(())));
    assert!(rt; bench.begun(&rt, 1) == Some((1, 1)));
    let phase = running(1);
    let twice = BeginRefusal::OutOfTurn { client, phase };
    assert!(rt; bench.begin(&rt, 1).err() == Some(twice));
    let other = AppendRefusal::OutOfTurn { client, phase };
    assert!(rt; bench.append(&rt, 1, 2, 0) == Some(Err(other)));
    assert!(rt; bench.append(&rt, 1, 1, 1) == Some(Err(other)));
    assert!(rt; bench.append(&rt, 1, 3, 1) == Some(Err(other)));
    let busy = EndRefusal::OutOfTurn { client, phase };
    assert!(rt; bench.end(&rt, 1, 2, 0) == Err(busy));
    assert!(rt; bench.end(&rt, 1, 1, 1) == Err(busy));
    assert!(rt; bench.end(&rt, 1, 3, 1) == Err(busy));
    assert!(rt; bench.end(&rt, 1, 2, 1) == Ok(()));
    let phase = Phase::Idle;
    let idle = EndRefusal::OutOfTurn { client, phase };
    assert!(rt; bench.end(&rt, 1, 2, 1) == Err(idle));
    assert!(rt; bench.end(&rt, 1, 3, 1) == Err(idle));
    drop(bench);
    Ok(())
}

#[test]
fn a_pad_completes_a_group(rt: HostRuntime) -> Result<(), Fail> {
    let mut bench = Bench::new(rt.alloc(), PAIRS)?;
    assert!(rt; bench.put(&rt, 1) == Some(Ok(1)));
    assert!(rt; bench.pad(&rt, 2) == Ok(2));
    assert!(rt; bench.catch_up(&rt, 1) == Some(Ok(())));
    assert!(rt; bench.begun(&rt, 1) == Some((2, 1)));
    assert!(rt; bench.verdict(&rt, 1, 2) == Told::Known(None));
    drop(bench);
    Ok(())
}

#[test]
fn a_full_log_refuses_the_program(rt: HostRuntime) -> Result<(), Fail> {
    let mut bench = Bench::new(rt.alloc(), SMALL)?;
    assert!(rt; bench.put(&rt, 1) == Some(Ok(1)));
    assert!(rt; bench.put(&rt, 2) == Some(Err(AppendRefusal::Full)));
    let wanted = [
        Event::Begin { client: 1 },
        Event::Append { client: 1 },
        Event::Begin { client: 2 },
        Event::Refuse { client: 2 },
    ];
    assert!(rt; bench.has_trace(&rt, &wanted));
    drop(bench);
    Ok(())
}

#[test]
fn an_append_that_fails_stops_the_hub(rt: HostRuntime) -> Result<(), Fail> {
    let mut bench = Bench::failing(rt.alloc(), SHAPE, 3)?;
    assert!(rt; bench.put(&rt, 1) == Some(Err(AppendRefusal::Device)));
    let stopped = AppendRefusal::Stopped { at: 1 };
    assert!(rt; bench.put(&rt, 2) == Some(Err(stopped)));
    assert!(rt; bench.end(&rt, 1, 1, 0) == Ok(()));
    let wanted = [
        Event::Begin { client: 1 },
        Event::Begin { client: 2 },
        Event::End { client: 1 },
    ];
    assert!(rt; bench.has_trace(&rt, &wanted));
    let closed = bench.close();
    assert!(rt; closed.log.stopped() == Some(1) && closed.entries.len() == 0);
    assert!(rt; has_bodies(rt.alloc(), device_of(closed).stop(1), 1));
    Ok(())
}

// Whether a device holds a log of so many bodies.
fn has_bodies(alloc: Global, disk: MemDisk, count: Pos) -> bool {
    match open_log(alloc, disk, Some(SHAPE)) {
        Ok(log) => log.len() == count,
        Err(_) => false,
    }
}

#[test]
fn a_batch_that_is_not_laid_down_stops_the_hub(rt: HostRuntime) -> Result<(), Fail> {
    for k in 1..3 {
        let mut bench = Bench::failing(rt.alloc(), SHAPE, k)?;
        assert!(rt; bench.put(&rt, 1) == Some(Err(AppendRefusal::Device)));
        let closed = bench.close();
        assert!(rt; closed.log.stopped() == Some(1) && closed.entries.len() == 0);
        assert!(rt; has_bodies(rt.alloc(), device_of(closed).stop(1), 0));
    }
    Ok(())
}

#[test]
fn a_pad_that_fails_leaves_no_filler(rt: HostRuntime) -> Result<(), Fail> {
    let mut bench = Bench::failing(rt.alloc(), FOURS, 7)?;
    assert!(rt; bench.put(&rt, 1) == Some(Ok(1)));
    assert!(rt; bench.pad(&rt, 1) == Err(PadRefusal::Device));
    assert!(rt; bench.pad(&rt, 1) == Err(PadRefusal::Stopped { at: 2 }));
    let closed = bench.close();
    assert!(rt; closed.entries.len() == 1 && closed.log.len() == 1);
    drop(closed);
    Ok(())
}

#[test]
fn fillers_are_written_at_once(rt: HostRuntime) -> Result<(), Fail> {
    let mut bench = Bench::failing(rt.alloc(), FOURS, 9)?;
    assert!(rt; bench.put(&rt, 1) == Some(Ok(1)));
    assert!(rt; bench.pad(&rt, 1) == Ok(4));
    let closed = bench.close();
    assert!(rt; closed.entries.len() == 4 && closed.log.stopped().is_none());
    drop(closed);
    Ok(())
}

// A client's programs, one after another, each begun once its server has published the one before.
fn run_client<D: Disk, B: Since, R: Threads + Wait + Sync>(
    rt: &R,
    alloc: Global,
    hub: &Hub<D, B>,
    pass: &mut Pass<Contents<D, B>>,
    client: u8,
) -> Option<()>
    requires free { TakesAll B.suits }
    requires trial { IsTrial hub.now SHAPE pass.old }
    requires client { IsWithin 1 2 client }
    ensures trial { IsTrial hub.now SHAPE pass.new }
    ensures parts { pass.new.parts ≡ pass.old.parts }
{
    for _program in 0..3 {
        put_once(rt, alloc, SHAPE, hub, pass, client)?.ok()?;
        catch_up(rt, alloc, SHAPE, hub, pass, client)?.ok()?;
    }
    Some(())
}

// A client whose programs run on a thread, with a pass of its own.
#[derive(Drop)]
struct Errand<D: Disk, B: Since> {
    client: u8,
    pass: Pass<Contents<D, B>>,
    done: bool,
}

fn run_errand<D: Disk, B: Since, R: Threads + Wait + Sync>(
    rt: &R,
    alloc: Global,
    hub: &Hub<D, B>,
    errand: &mut Errand<D, B>,
)
    requires free { TakesAll B.suits }
    requires client { IsWithin 1 2 errand.old.client }
    requires trial { IsTrial hub.now SHAPE errand.old.pass }
    ensures trial { IsTrial hub.now SHAPE errand.new.pass }
{
    let client = errand.client;
    let ran = run_client(rt, alloc, hub, &mut errand.pass, client);
    errand.done = ran.is_some();
}

// Runs the errands concurrently, on two threads.
fn run_errands<D: Disk + Send, B: Since + Send, R: Threads + Wait + Sync>(
    rt: &R,
    alloc: Global,
    hub: &Hub<D, B>,
    errands: &mut [Errand<D, B>],
)
    requires free { TakesAll B.suits }
    requires clients { All (λ errand. IsWithin 1 2 errand.client) errands.old }
    requires trial { All (λ errand. IsTrial hub.now SHAPE errand.pass) errands.old }
    ensures trial { All (λ errand. IsTrial hub.now SHAPE errand.pass) errands.new }
    ensures count { length errands.new ≡ length errands.old }
{
    thread::for_each_mut(
        rt,
        errands,
        2,
        &|_, errand: &mut Errand<D, B>|
            requires { TakesAll B.suits × IsWithin 1 2 errand.now.client × IsTrial hub.now SHAPE errand.now.pass }
            ensures { IsTrial hub.entry.now SHAPE errand.exit.now.pass }
        { run_errand(rt, alloc, hub, errand) },
    );
}

// Takes in the pass of the last errand. Whether there was one, and its client is done.
fn join_last<D: Disk, B: Since>(
    hub: &Hub<D, B>,
    pass: &mut Pass<Contents<D, B>>,
    errands: &mut Vec<Errand<D, B>>,
) -> bool
    requires pass { IsIdle hub.now pass.old }
    requires trial { All (λ errand. IsTrial hub.now SHAPE errand.pass) errands.old.items }
    ensures pass { IsIdle hub.now pass.new }
    ensures trial { All (λ errand. IsTrial hub.now SHAPE errand.pass) errands.new.items }
{
    match errands.pop() {
        Some(errand) => {
            let Errand {
                client: _,
                pass: own,
                done,
            } = errand;
            hub.join(pass, own);
            done
        }
        None => false,
    }
}

// Both clients concurrently, each with a pass of its own.
fn run_beside<R: Threads + Wait + Sync>(rt: &R, alloc: Global) -> Result<Events, Fail> {
    let (hub, mut pass) = start_on(alloc, SHAPE, empty(alloc)?)?;
    let one = Errand {
        client: 1,
        pass: hub.split(&mut pass, 1),
        done: false,
    };
    let other = Errand {
        client: 2,
        pass: hub.split(&mut pass, 1),
        done: false,
    };
    let mut errands = vec![in alloc; one, other]?;
    run_errands(rt, alloc, &hub, &mut errands);
    let other_done = join_last(&hub, &mut pass, &mut errands);
    let one_done = join_last(&hub, &mut pass, &mut errands);
    let trace = hub.trace(rt, &mut pass);
    drop(errands);
    drop(pass);
    drop(hub);
    let trace = trace?;
    if !one_done || !other_done {
        return Err("a client is not done")?;
    }
    Ok(trace)
}

fn count_of(trace: &[Event], wanted: Event) -> usize {
    trace.iter().filter(|event| **event == wanted).count()
}

#[test]
fn two_threads_run_their_clients(rt: HostRuntime) -> Result<(), Fail> {
    let trace = run_beside(&rt, rt.alloc())?;
    for client in [1, 2] {
        assert_eq!(rt; count_of(trace.as_slice(), Event::Begin { client }), 3);
        assert_eq!(rt; count_of(trace.as_slice(), Event::Append { client }), 3);
    }
    let course = course_of(SHAPE, trace.as_slice()).expect(&rt, "a legal trace");
    assert_eq!(rt; course.len, 6);
    for side in [course.one, course.two] {
        assert!(rt; side.left == 0 && !side.runs && side.board >= side.last);
    }
    Ok(())
}
