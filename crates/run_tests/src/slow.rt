//! Calls that wait while a device syncs: none of them keeps others from their turns, entries that wait go together, and all
//! who wait are woken. A call that isn't woken is told by a limit, and its thread is left behind.
ghost use Rattle.std.specs.Prelude.{◌≡◌, ◌≤◌, ◌<◌, ◌+◌, length, ℕ};
ghost use Rattle.std.specs.Arc.{arc_value};
ghost use Rattle.hy_base.specs.Shape.{IsWithin};
ghost use Rattle.run_tests.specs.Trial.{IsTrial, IsTrialShape};
ghost use Rattle.hy_hub.specs.Origin.{hub_parts};

use crate::calls::empty;
use crate::hub::{FIVES, OPENING, append, begins, hub_on, open_on, put, put_once};
use crate::signals::{IN_SYNC, IN_TURN, KEEPS_TURN, QUIET, Signals, pause, reaches};
use crate::slow_disk::SlowDisk;
use hy_base::Shape;
use hy_disk::Tuned;
use hy_hist::Pass;
use hy_hub::{Contents, Hub};
use hy_mem::MemDisk;
use std::alloc::{AllocError, Global};
use std::marker::Brand;
use std::sync::atomic::Ordering;
use std::sync::{Arc, Wait};
use std::test::Fail;
use std::thread;
use std::thread::Threads;
use std::time::Clock;

// What a thread calls.
#[derive(Clone, Copy)]
enum Call {
    // Its client's program begins and puts a byte.
    Put,
    // Its client's program ends.
    End,
    Pad,
    Roll,
    AwaitLanding,
    // A turn.
    Verdict,
}

// A thread's call, with a pass of its own.
#[derive(Drop)]
struct Side {
    alloc: Global,
    hub: Arc<Hub<SlowDisk, Brand>, Global>,
    pass: Pass<Contents<SlowDisk, Brand>>,
    signals: Arc<Signals, Global>,
    call: Call,
    client: u8,
    // That of the client's program.
    number: u32,
    shape: Shape,
    ghost trial: { IsTrial (arc_value hub) shape pass },
    ghost client_within: { IsWithin 1 5 client },
}

impl Side {
    // The client's program begins. Where it doesn't, its put is refused.
    fn begin<R: Wait>(&mut self, rt: &R) {
        let (hub, pass) = (&self.hub, &mut self.pass);
        if let Some(number) = begins(rt, self.shape, hub, pass, self.client) {
            self.number = number;
        }
    }

    fn put<R: Wait>(&mut self, rt: &R) {
        if let Some(entry) = put(self.alloc, self.client, 0, b'a') {
            let (client, number) = (self.client, self.number);
            let (hub, pass) = (&self.hub, &mut self.pass);
            drop(append(rt, self.shape, hub, pass, client, number, entry));
        }
    }

    fn end<R: Wait>(&mut self, rt: &R) {
        let (client, number) = (self.client, self.number);
        drop(self.hub.end(rt, &mut self.pass, client, number, 0));
    }

    fn pad<R: Wait>(&mut self, rt: &R) {
        drop(self.hub.pad(rt, &mut self.pass, 1));
    }

    fn verdict<R: Wait>(&mut self, rt: &R) {
        drop(self.hub.verdict(rt, &mut self.pass, 1, 1));
    }

    fn await_landing<R: Wait>(&self, rt: &R) {
        let landings = self.hub.landings();
        let _came = self.hub.await_landing(rt, landings);
    }

    fn wait<R: Wait>(&mut self, rt: &R) {
        match self.call {
            Call::Put => self.put(rt),
            Call::End => self.end(rt),
            Call::Pad => self.pad(rt),
            Call::Verdict => self.verdict(rt),
            Call::AwaitLanding => self.await_landing(rt),
            Call::Roll => {
                let _taken = self.hub.take_roll(rt, 1);
            }
        }
    }

    // Makes the call. It is noted as it begins to wait, and once it is answered.
    fn make<R: Wait>(&mut self, rt: &R) {
        if let Call::Put = self.call {
            self.begin(rt);
        }
        self.signals.made.fetch_add(1, Ordering::SeqCst);
        self.wait(rt);
        self.signals.answered.fetch_add(1, Ordering::SeqCst);
    }
}

// How many passes are split off at most.
const MOST_SIDES: u64 = 100;

// How many calls wait for the device's sync: the leader's and three other puts, and four that wait for others.
const IN_FLIGHT: u64 = 8;

// With three that wait for a turn.
const CALLS: u64 = 11;

// A hub on a slow device, and the pass of which each side has a part.
#[derive(Drop)]
struct Crowd {
    alloc: Global,
    hub: Arc<Hub<SlowDisk, Brand>, Global>,
    pass: Pass<Contents<SlowDisk, Brand>>,
    signals: Arc<Signals, Global>,
    split: u64,
    shape: Shape,
    ghost trial: { IsTrial (arc_value hub) shape pass },
    ghost parts: { pass.parts + split ≡ hub_parts },
}

impl Crowd {
    fn new(alloc: Global, disk: MemDisk, shape: Shape) -> Result<Crowd, Fail>
        requires { IsTrialShape shape }
    {
        let signals = Arc::new(alloc, Signals::new())?;
        let slow = SlowDisk::new(disk, Arc::try_clone(&signals)?);
        let log = open_on(alloc, slow, shape)?;
        let (hub, pass) = hub_on::<SlowDisk, Brand>(alloc, shape, log)?;
        let hub = Arc::new(alloc, hub)?;
        Ok(Crowd {
            alloc,
            hub,
            pass,
            signals,
            split: 0,
            shape,
        })
    }

    // Has a thread make a call. The thread isn't joined: it may wait for ever.
    fn start<R: Threads + Wait + Copy + Send + 'static>(
        &mut self,
        rt: R,
        call: Call,
        client: u8,
    ) -> Result<(), AllocError>
        requires { IsWithin 1 5 client }
    {
        if MOST_SIDES <= self.split {
            return Err(AllocError);
        }
        let hub = Arc::try_clone(&self.hub)?;
        let signals = Arc::try_clone(&self.signals)?;
        let pass = self.hub.split(&mut self.pass, 1);
        self.split += 1;
        let mut side = Side {
            alloc: self.alloc,
            hub,
            pass,
            signals,
            call,
            client,
            number: 1,
            shape: self.shape,
        };
        let _thread = thread::spawn(&rt, move || side.make(&rt))?;
        Ok(())
    }

    // Three puts, and calls that wait: for the leader's entry, for the device, for the turn to roll, and for a landing.
    fn start_waiting<R: Threads + Wait + Copy + Send + 'static>(
        &mut self,
        rt: R,
    ) -> Result<(), AllocError> {
        for client in 3..6 {
            self.start(rt, Call::Put, client)?;
        }
        for call in [Call::End, Call::Pad, Call::Roll, Call::AwaitLanding] {
            self.start(rt, call, 2)?;
        }
        Ok(())
    }

    // An entry is appended, so that a group isn't whole, and the turn to roll is taken.
    fn prepare<R: Wait>(&mut self, rt: &R) -> bool {
        let first = put_once(rt, self.alloc, self.shape, &self.hub, &mut self.pass, 1);
        self.hub.take_roll(rt, 1) && first == Some(Ok(1))
    }

    // Waits until so many calls were made, and a little longer, so that they wait. Then the device goes on to a stage. Whether
    // so many were made.
    fn goes_on<R: Clock>(&self, rt: &R, made: u64, millis: u64, stage: u64) -> bool {
        let are_made = reaches(rt, &self.signals.made, made);
        pause(rt, millis);
        self.signals.stage.store(stage, Ordering::SeqCst);
        are_made
    }

    // The second client's put leads. It is kept in the device's sync until others wait for it, and then in its next turn until
    // others wait for a turn. Whether they came so far meanwhile.
    fn are_kept<R: Threads + Wait + Clock + Copy + Send + 'static>(
        &mut self,
        rt: R,
        millis: u64,
    ) -> Result<bool, AllocError> {
        self.signals.arm();
        self.start(rt, Call::Put, 2)?;
        let syncs = reaches(&rt, &self.signals.stage, IN_SYNC);
        self.start_waiting(rt)?;
        let made = self.goes_on(&rt, IN_FLIGHT, millis, KEEPS_TURN);
        let held = reaches(&rt, &self.signals.stage, IN_TURN);
        for _turn in 0..3 {
            self.start(rt, Call::Verdict, 2)?;
        }
        Ok(self.goes_on(&rt, CALLS, millis, QUIET) && syncs && made && held)
    }
}

// How often the device synced for the calls, where each that was kept came so far, and was answered in the end.
fn syncs_of<R: Threads + Wait + Clock + Copy + Send + 'static>(
    rt: R,
    alloc: Global,
    disk: MemDisk,
    shape: Shape,
    millis: u64,
) -> Result<Option<u64>, Fail>
    requires { IsTrialShape shape }
{
    let mut crowd = Crowd::new(alloc, disk, shape)?;
    let prepared = crowd.prepare(&rt);
    let kept = crowd.are_kept(rt, millis);
    crowd.hub.end_roll(1);
    let answered = reaches(&rt, &crowd.signals.answered, CALLS);
    let syncs = crowd.signals.syncs.load(Ordering::SeqCst);
    drop(crowd);
    let all = prepared && answered && kept?;
    Ok(all.then_some(syncs))
}

// By the first sync the leader's entry is laid down. By the second it is in the log, and the three that waited are laid down;
// by the third these are in the log.
const SYNCS: u64 = 3;

// How often it is tried that all wait at once. A thread may be slow.
const TRIES: u64 = 20;

#[test]
fn those_who_wait_go_together_and_are_woken(rt: HostRuntime) -> Result<(), Fail> {
    for millis in 1..TRIES {
        let disk = empty(rt.alloc())?;
        let syncs = syncs_of(rt, rt.alloc(), disk, FIVES, 2 * millis)?.expect(&rt, "all are woken");
        if syncs == SYNCS {
            return Ok(());
        }
    }
    Err(Fail::new("entries that wait at once are not written at once"))
}

#[test]
fn those_who_wait_are_woken_by_a_failure(rt: HostRuntime) -> Result<(), Fail> {
    // The first entry takes four calls. It is the leader's first sync that fails, or the last one, where it writes for others.
    for k in [6, 11] {
        let mut disk = empty(rt.alloc())?;
        disk.arm(OPENING + k);
        assert!(rt; syncs_of(rt, rt.alloc(), disk, FIVES, 5)?.is_some());
    }
    Ok(())
}

// One group of two.
const ONE_PAIR: Shape = Shape {
    group: 2,
    window: 1,
    cap: 2,
    version: 1,
    horizon: None,
};

#[test]
fn those_who_wait_are_woken_by_a_full_log(rt: HostRuntime) -> Result<(), Fail> {
    // The leader's entry is the last that the log takes. The landing wakes the first of the others alone, and each that is
    // refused wakes the next; the last one wakes the pad.
    let disk = empty(rt.alloc())?;
    assert!(rt; syncs_of(rt, rt.alloc(), disk, ONE_PAIR, 5)?.is_some());
    Ok(())
}
