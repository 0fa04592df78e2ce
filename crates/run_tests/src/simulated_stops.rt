//! What a stop in each device call and with each pattern leaves.
use crate::simulations::{Ended, end, scheduled};
use hy_base::Pos;
use std::alloc::Global;
use std::test::Fail;
use std::thread::Threads;

const APPEND: &str =
    "shape 1 1 8\nservers 1\nclient 1\nbegin\nput 1 a\nend\nbegin\nput 2 b\nend\nschedule\nb 1\na 1\nr 1 1\nb 1\n";

const PAD: &str = "shape 4 1 8\nservers 1\nclient 1\nbegin\nput 1 a\nend\nschedule\nb 1\na 1\n";

// A script with a stop that armed_at in an event: the length of the log then, and where the run ends.
fn stopped<R: Threads + Sync>(
    rt: &R,
    alloc: Global,
    before: &str,
    stop: (u8, u8),
    event: &str,
) -> Result<(usize, Ended), Fail> {
    let (call, pattern) = stop;
    let text = format!(in alloc; "{before}t {call} {pattern}\n{event}\n")?;
    let ran = scheduled(rt, alloc, text.as_bytes());
    drop(text);
    let (core, events) = ran?;
    let len = core.entries().len();
    Ok((len, end(rt, alloc, core, events)?))
}

// Whether such a stop leaves so long a log, of which the clients are told this in the end, with this board.
fn leaves<R: Threads + Sync>(
    rt: &R,
    alloc: Global,
    before: &str,
    stop: (u8, u8),
    event: &str,
    wanted: (usize, &str, Pos),
) -> Result<bool, Fail> {
    let (len, ended) = stopped(rt, alloc, before, stop, event)?;
    let leaves = len == wanted.0 && ended.told.as_str() == wanted.1 && ended.board == wanted.2;
    drop(ended);
    Ok(leaves)
}

#[test]
fn an_append_is_kept_by_some_stops(rt: HostRuntime) -> Result<(), Fail> {
    let alloc = rt.alloc();
    for call in 1..5u8 {
        for pattern in 0..3u8 {
            let kept = call >= 3 && pattern == 1;
            let wanted = if kept { (2, "cc ", 2) } else { (1, "cl ", 1) };
            let leaves = leaves(&rt, alloc, APPEND, (call, pattern), "a 1", wanted)?;
            assert!(rt; leaves, "call {call}, pattern {pattern}");
        }
    }
    Ok(())
}

#[test]
fn a_pad_adds_one_filler_or_none(rt: HostRuntime) -> Result<(), Fail> {
    let alloc = rt.alloc();
    for call in 1..5u8 {
        for pattern in 0..3u8 {
            let kept = call >= 3 && pattern == 1;
            let wanted = if kept { (2, "c ", 4) } else { (1, "c ", 4) };
            let leaves = leaves(&rt, alloc, PAD, (call, pattern), "p 1", wanted)?;
            assert!(rt; leaves, "call {call}, pattern {pattern}");
        }
    }
    Ok(())
}
