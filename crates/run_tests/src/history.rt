//! A small user of the lock: it meets each condition, on one thread and on two.
ghost use Rattle.std.specs.Prelude.{◌≡◌, [], ◌+◌, ◌<◌, ◌^◌, length, true, false, Some, None, IfSome, IfNone, OnOk, OnErr};
ghost use Rattle.std.specs.Prelude.{slice_get};
ghost use mathlib.Core.List.{IsPrefix};
ghost use Rattle.run_tests.specs.Desk.{is_away, moves, CountsAt, IsReady};
ghost use Rattle.hy_hist.specs.Passes.{made, Makes};
ghost use Rattle.hy_hist.specs.Turns.{AddsItem, Turns};

use hy_hist::{Guarded, HistLock, Pass};
use std::alloc::Global;
use std::marker::Model;
use std::sync::Wait;
use std::test::Fail;
use std::thread;
use std::thread::Threads;

/// Numbers, and a tool that may be away. A mark is a number, or none where the tool moved.
#[derive(Drop)]
struct Desk {
    tool: Option<u64>,
    marks: Vec<Option<u64>>,
}

impl Model for Desk {
    ghost use Rattle.std.specs.Prelude.{◌≡◌, ℕ, List, Option, is_none};
    ghost use Rattle.run_tests.specs.Desk.{is_away};

    ghost Value = { List (Option ℕ) };

    ghost view = { λ d. d.marks.items };

    ghost invariant = { λ d. is_none d.tool ≡ is_away d.marks.items };
}

impl Guarded for Desk {
    type Item = Option<u64>;

    type Part = u64;

    ghost use Rattle.std.specs.Prelude.{[]};
    ghost use Rattle.run_tests.specs.Desk.{is_away, moves};

    ghost items = { λ d. d };

    ghost waiting = { λ d. [] };

    ghost out = { is_away };

    ghost part = { moves };

    fn count(&self) -> u64 {
        self.marks.len() as u64
    }
}

impl Desk {
    /// Counts a number, and answers its place.
    fn add(&mut self, number: u64) -> Option<u64>
        ensures added { AddsItem self.old self.new result (CountsAt number result) }
        ensures place { IfSome result (λ k. slice_get self.new k ≡ Some (Some number)) }
        ensures tool { (is_away self.new ≡ is_away self.old) × (moves self.new ≡ moves self.old) }
        ensures short { length self.new < 2 ^ 64 }
    {
        let place = self.marks.len() as u64;
        if self.marks.push(Some(number)).is_err() {
            return None;
        }
        Some(place)
    }

    /// Takes the tool, where it is here.
    fn lift(&mut self) -> Option<u64>
        ensures lifted { IfSome result (λ _. (is_away self.old ≡ false) × (is_away self.new ≡ true)) }
        ensures grown { IsPrefix self.old self.new }
        ensures none { IfNone result (self.new ≡ self.old) }
        ensures short { length self.new < 2 ^ 64 }
    {
        let tool = self.tool?;
        if self.marks.push(None).is_err() {
            return None;
        }
        self.tool = None;
        Some(tool)
    }

    /// Brings the tool back.
    fn land(&mut self, tool: u64) -> Result<(), u64>
        requires { is_away self.old ≡ true }
        ensures landed { OnOk result (is_away self.new ≡ false) }
        ensures grown { IsPrefix self.old self.new }
        ensures memory { OnErr result (self.new ≡ self.old) }
        ensures short { length self.new < 2 ^ 64 }
    {
        if self.marks.push(None).is_err() {
            return Err(tool);
        }
        self.tool = Some(tool);
        Ok(())
    }
}

/// Counts a number in a turn, and answers its place.
fn count<R: Wait>(rt: &R, lock: &HistLock<Desk>, pass: &mut Pass<Desk>, number: u64) -> Option<u64>
    requires { IsReady lock.now pass.old }
    ensures kept { IsReady lock.now pass.new × (pass.new.parts ≡ pass.old.parts) }
    ensures turn { Turns pass.old pass.new (CountsAt number result) }
    ensures own { IfSome result (λ k. Makes pass.new k (Some number)) }
    ensures more { IfSome result (λ _. length (made pass.new) ≡ length (made pass.old) + 1) }
{
    let mut desk = lock.hold(rt, pass);
    let place = desk.add(number);
    lock.give(pass, desk, place, None);
    place
}

/// Counts a number so many times, in a turn each, and answers its last place.
fn count_often<R: Wait>(
    rt: &R,
    lock: &HistLock<Desk>,
    pass: &mut Pass<Desk>,
    number: u64,
    times: u64,
) -> Option<u64>
    requires { IsReady lock.now pass.old × (0 < times) }
    ensures kept { IsReady lock.now pass.new × (pass.new.parts ≡ pass.old.parts) }
    ensures own { IfSome result (λ k. Makes pass.new k (Some number)) }
    ensures more { IfSome result (λ _. length (made pass.new) ≡ length (made pass.old) + times) }
{
    let mut last = count(rt, lock, pass, number)?;
    for _done in 1..times {
        last = count(rt, lock, pass, number)?;
    }
    Some(last)
}

/// Takes the tool in a turn, where it is there, and carries it from then on.
fn lift<R: Wait>(rt: &R, lock: &HistLock<Desk>, pass: &mut Pass<Desk>) -> Option<u64>
    requires { IsReady lock.now pass.old }
    ensures kept { (pass.new.lock ≡ pass.old.lock)
        × (pass.new.holds ≡ false)
        × (pass.new.parts ≡ pass.old.parts)
        × (pass.new.claim ≡ None) }
    ensures lifted { IfSome result (λ _. pass.new.carries ≡ true) }
    ensures none { IfNone result (pass.new.carries ≡ false) }
{
    let mut desk = lock.hold(rt, pass);
    let tool = desk.lift();
    lock.give(pass, desk, None, None);
    tool
}

/// Brings the tool back in a turn. It is still away, since no other pass can have moved it.
fn land<R: Wait>(rt: &R, lock: &HistLock<Desk>, pass: &mut Pass<Desk>, tool: u64) -> Result<(), u64>
    requires { (pass.old.lock ≡ lock.now.name)
        × (pass.old.holds ≡ false)
        × (pass.old.carries ≡ true)
        × (pass.old.claim ≡ None) }
    ensures kept { (pass.new.lock ≡ pass.old.lock)
        × (pass.new.holds ≡ false)
        × (pass.new.parts ≡ pass.old.parts)
        × (pass.new.claim ≡ None) }
    ensures landed { OnOk result (pass.new.carries ≡ false) }
    ensures memory { OnErr result (pass.new.carries ≡ true) }
{
    let mut desk = lock.hold(rt, pass);
    let landed = desk.land(tool);
    lock.give(pass, desk, None, None);
    landed
}

fn new_desk(alloc: Global) -> Desk
    ensures { result ≡ [] }
{
    Desk {
        tool: Some(7),
        marks: Vec::new(alloc),
    }
}

/// Each of two threads counts its number, and at the end each stands at the place that its thread was told.
fn count_both<R: Threads + Wait + Sync>(
    rt: &R,
    alloc: Global,
    x: u64,
    y: u64,
    times: u64,
) -> Option<(u64, u64, Vec<Option<u64>>)>
    requires { 0 < times }
    ensures { IfSome result (λ r. (slice_get r.2.items r.0 ≡ Some (Some x)) × (slice_get r.2.items r.1 ≡ Some (Some y))) }
{
    let Ok((lock, mut one)) = HistLock::new(alloc, new_desk(alloc), 2) else {
        return None;
    };
    let mut other = lock.split(&mut one, 1);
    let shared = &lock;
    let ((mut one, first), (other, second)) = thread::join(
        rt,
        move || -> (Pass<Desk>, Option<u64>)
            requires { IsReady shared.now one × (0 < times) }
            ensures { IsReady shared.entry.now result.0
                × (result.0.parts ≡ one.parts)
                × IfSome result.1 (λ k. Makes result.0 k (Some x)) }
        {
            let place = count_often(rt, shared, &mut one, x, times);
            (one, place)
        },
        move || -> (Pass<Desk>, Option<u64>)
            requires { IsReady shared.now other × (0 < times) }
            ensures { IsReady shared.entry.now result.0
                × (result.0.parts ≡ other.parts)
                × IfSome result.1 (λ k. Makes result.0 k (Some y)) }
        {
            let place = count_often(rt, shared, &mut other, y, times);
            (other, place)
        },
    );
    lock.join(&mut one, other);
    one.made_stands();
    let desk = lock.close(one);
    Some((first?, second?, desk.marks))
}

#[test]
fn one_thread_makes_each_call(rt: HostRuntime) -> Result<(), Fail> {
    let (lock, mut first) = HistLock::new(rt.alloc(), new_desk(rt.alloc()), 3)
        .ok()
        .expect(&rt, "memory");
    let mut second = lock.split(&mut first, 1);
    assert_eq!(rt; count(&rt, &lock, &mut first, 3), Some(0));
    let tool = lift(&rt, &lock, &mut second).expect(&rt, "the tool");
    assert_eq!(rt; count(&rt, &lock, &mut first, 5), Some(2));
    assert!(rt; land(&rt, &lock, &mut second, tool).is_ok());
    lock.join(&mut first, second);
    let desk = lock.close(first);
    assert!(rt; desk.tool == Some(7));
    assert!(rt; desk.marks.as_slice() == [Some(3), None, Some(5), None].as_slice());
    drop(desk);
    Ok(())
}

#[test]
fn two_threads_count(rt: HostRuntime) -> Result<(), Fail> {
    let (_, _, marks) = count_both(&rt, rt.alloc(), 3, 5, 1000).expect(&rt, "memory");
    for number in [3, 5] {
        let found = marks.iter().filter(|mark| **mark == Some(number)).count();
        assert_eq!(rt; found, 1000);
    }
    assert_eq!(rt; marks.len(), 2000);
    Ok(())
}
