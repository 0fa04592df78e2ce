//! Calls in which a source, a sink or a device fails at each of its calls in turn, and what a crash then leaves.
ghost use Rattle.std.specs.Prelude.{◌≤◌};

use crate::calls::{
    CallAnswer, RUN, ask, ask_over, call, call_on, empty, ended, ensured, fine, is_answered,
    log_of, roomy, told, untouched,
};
use crate::logs::{DUMP, NO_CLIENT, NONE, ONE_PUT, one_put};
use hy_base::Pos;
use hy_disk::{Disk, Tuned};
use hy_io::{MemSink, MemSource};
use hy_mem::MemDisk;
use hy_pipe::OpenGate;
use hy_run::{Done, Status};
use std::alloc::Global;
use std::sync::Wait;
use std::test::Fail;
use std::thread::Threads;

const NO_CLIENT_AFTER_PUT: &[u8] = b"trace 0\nserver 1 at 1 rows 1\nrow 1 a by 1\n";

const THREE_CLIENTS: &[u8] =
    b"shape 2 1 20\nservers 2\nclient 1\nbegin\nput 1 a\nend\nbegin\nadd 7 1\nend\nclient 2\nbegin\nadd 7 1\nend\nbegin\n\
      get 7\nend\nclient 1\nbegin\ndel 1\nend\nbegin\nput 2 b\nend\n";

const SHORT_PUT: &[u8] = b"shape 1 1 8\nservers 1\nclient 1\nbegin\nput 1\nend\nschedule\n";

const TWO_SUMS: &[u8] =
    b"shape 1 1 8\nservers 1\nclient 1\nbegin\nadd 7 1\nend\nclient 1\nbegin\nadd 7 1\nend\nschedule\nb 1\nb 2\na 1\na 2\n";

const TWO_SUMS_OUT: &[u8] =
    b"trace 5\nb 1\nb 2\na 1\na 2\nr 1 2\nprogram 1 1\nsum 1\nat 1 commit\nprogram 2 1\nsum 1\nat 2 abort final 7 by 1\n\
      server 1 at 2 rows 1\nrow 7 1 by 1\n";

const SAVED: &[u8] = b"shape 2 2 8\nservers 1\nclient 1\nbegin\nput 1 a\nend\n";

// The device of a log, and that of its saved point.
type Devices = (MemDisk, MemDisk);

// A simulated run over devices without room, which hands them back as they were.
fn simulated_on<R: Threads + Wait + Sync>(
    rt: &R,
    alloc: Global,
    source: &mut MemSource,
    sink: &mut MemSink,
) -> Result<Done<MemDisk>, Fail> {
    let devices = (untouched(alloc)?, untouched(alloc)?, untouched(alloc)?);
    let done = call_on(rt, alloc, &["sim"], source, sink, devices, &OpenGate)?;
    let is_untouched = !is_touched(&done);
    ensured(done, is_untouched, "a device was used")
}

// Whether a device was called that fails at its first call.
fn is_touched(done: &Done<MemDisk>) -> bool {
    done.log.faults() != 0 || done.points.faults() != 0 || done.spare.faults() != 0
}

// A call that was refused, with no entry in its log, and its line.
fn refused(number: u8, text: &[u8]) -> CallAnswer<'_> {
    CallAnswer {
        number,
        acked: 0,
        text,
    }
}

// A simulated run of two sums, with pieces of these lengths, and the calls of the source and of the sink that fail.
fn two_sums<R: Threads + Wait + Sync>(
    rt: &R,
    alloc: Global,
    pieces: (usize, usize),
    source_fails: &[u64],
    sink_fails: &[u64],
) -> Result<(Done<MemDisk>, MemSink), Fail> {
    let mut source = MemSource::new(alloc, TWO_SUMS, pieces.0.max(1), source_fails)?;
    let mut sink = MemSink::new(alloc, 1000, pieces.1.max(1), sink_fails)?;
    let done = simulated_on(rt, alloc, &mut source, &mut sink);
    drop(source);
    Ok((done?, sink))
}

// Whether it ended as if nothing failed. None where it ended neither so nor with this refusal.
fn outcome(done: &Done<MemDisk>, sink: &MemSink, refusal: CallAnswer<'_>) -> Option<bool> {
    if is_answered(done, sink, fine(0, TWO_SUMS_OUT)) {
        return Some(true);
    }
    if is_answered(done, sink, refusal) {
        return Some(false);
    }
    None
}

// Whether a source, in pieces of this length, wasn't called so often; its call of this number fails.
fn source_fails<R: Threads + Wait + Sync>(
    rt: &R,
    alloc: Global,
    most: usize,
    number: u64,
) -> Result<Option<bool>, Fail> {
    let (done, sink) = two_sums(rt, alloc, (most, 1000), &[number], &[])?;
    let ended = outcome(&done, &sink, refused(3, b"hyder: source\n"));
    drop(done);
    drop(sink);
    Ok(ended)
}

// What a sink has taken in pieces of this length before its call of this number.
fn before(most: usize, number: u64) -> &'static [u8] {
    let taken = most.saturating_mul(number.saturating_sub(1) as usize);
    &TWO_SUMS_OUT[..taken.min(TWO_SUMS_OUT.len())]
}

// The same of a sink, which has the pieces before.
fn sink_fails<R: Threads + Wait + Sync>(
    rt: &R,
    alloc: Global,
    most: usize,
    number: u64,
) -> Result<Option<bool>, Fail> {
    let (done, sink) = two_sums(rt, alloc, (7, most), &[], &[number])?;
    let ended = outcome(&done, &sink, refused(4, before(most, number)));
    drop(done);
    drop(sink);
    Ok(ended)
}

// How many calls of a source, or of a sink, fail in turn until one isn't reached, in pieces of this length. None where a run
// ended otherwise.
fn failing_calls<R: Threads + Wait + Sync>(
    rt: &R,
    alloc: Global,
    of_source: bool,
    most: usize,
) -> Result<Option<u64>, Fail> {
    for number in 1..1000 {
        let ended = if of_source {
            source_fails(rt, alloc, most, number)?
        } else {
            sink_fails(rt, alloc, most, number)?
        };
        match ended {
            Some(true) => return Ok(Some(number - 1)),
            Some(false) => {}
            None => return Ok(None),
        }
    }
    Ok(None)
}

#[test]
fn a_source_and_a_sink_fail_at_each_call(rt: HostRuntime) -> Result<(), Fail> {
    for (of_source, wanted) in [(true, 366), (false, 467)] {
        let mut calls = 0u64;
        for most in 1..17 {
            let count = failing_calls(&rt, rt.alloc(), of_source, most)?;
            assert!(rt; count.is_some(), "pieces of {most}");
            calls = calls.wrapping_add(count.unwrap_or(0));
        }
        assert_eq!(rt; calls, wanted);
    }
    Ok(())
}

// Whether a script is refused over a sink whose second call fails.
fn is_refused<R: Threads + Wait + Sync>(
    rt: &R,
    alloc: Global,
    source: &mut MemSource,
    sink: &mut MemSink,
) -> Result<bool, Fail> {
    let done = simulated_on(rt, alloc, source, sink)?;
    let is_refused = is_answered(&done, sink, refused(2, b"hyder: scr"));
    drop(done);
    Ok(is_refused)
}

// A line that can't be written changes no answer.
#[test]
fn a_sink_of_a_refusal_fails(rt: HostRuntime) -> Result<(), Fail> {
    let alloc = rt.alloc();
    let mut source = MemSource::new(alloc, SHORT_PUT, 7, &[])?;
    let mut sink = MemSink::new(alloc, 1000, 10, &[2])?;
    let is_refused = is_refused(&rt, alloc, &mut source, &mut sink);
    drop(source);
    drop(sink);
    assert!(rt; is_refused?);
    Ok(())
}

// The log of one put, on a device whose call of this number fails.
fn one_put_failing(alloc: Global, number: u64) -> Result<MemDisk, Fail> {
    let mut log = MemDisk::new(alloc, &one_put(), &[number])?;
    log.room(258, 7)?;
    Ok(log)
}

// What `check` answers over it.
fn checked<R: Threads + Wait + Sync>(
    rt: &R,
    alloc: Global,
    sink: &mut MemSink,
    number: u64,
) -> Result<Done<MemDisk>, Fail> {
    let log = one_put_failing(alloc, number)?;
    let mut source = MemSource::new(alloc, b"", 7, &[1])?;
    let done = call(rt, alloc, &["check"], &mut source, sink, log, &OpenGate);
    drop(source);
    done
}

// Its exit status, and whether it writes that the log's device failed.
fn check_status<R: Threads + Wait + Sync>(
    rt: &R,
    alloc: Global,
    number: u64,
) -> Result<(u8, bool), Fail> {
    let mut sink = MemSink::new(alloc, 1000, 1000, &[])?;
    let done = checked(rt, alloc, &mut sink, number);
    let is_log = sink.taken() == b"hyder: device log\n".as_slice();
    drop(sink);
    let done = done?;
    let status = done.status.number();
    drop(done);
    Ok((status, is_log))
}

#[test]
fn a_device_fails_under_check(rt: HostRuntime) -> Result<(), Fail> {
    let alloc = rt.alloc();
    let mut last = 0;
    for number in 1..20 {
        let (status, is_log) = check_status(&rt, alloc, number)?;
        if status == 0 {
            break;
        }
        assert!(rt; status == 5 && is_log);
        last = number;
    }
    assert!(rt; last > 2 && last < 19);
    Ok(())
}

// Whether the device that fails is that of the log, and the line that is written then.
const FAILING: [(bool, &[u8]); 2] = [
    (true, b"hyder: device log\n"),
    (false, b"hyder: device points\n"),
];

// A device with ample room. Where it is to fail, it does so at its call of this number, or at that and all later ones.
fn planned(alloc: Global, number: u64, is_last: bool) -> Result<MemDisk, Fail> {
    let mut disk = if is_last {
        MemDisk::fused(alloc, b"", number.saturating_sub(1))?
    } else {
        MemDisk::new(alloc, b"", &[number])?
    };
    disk.room(65536, 200)?;
    Ok(disk)
}

// The devices of a log and of its point, of which one fails so.
fn one_planned(alloc: Global, of_log: bool, number: u64, is_last: bool) -> Result<Devices, Fail> {
    let one = planned(alloc, number, is_last)?;
    let other = empty(alloc)?;
    Ok(if of_log { (one, other) } else { (other, one) })
}

// Whether a call ended well.
fn ended_well(done: &Done<MemDisk>) -> bool {
    done.status.number() == 0
}

// Whether a call ended well, or for a device that failed, with this line.
fn is_fine_or_failed(done: &Done<MemDisk>, sink: &MemSink, line: &[u8]) -> bool {
    match done.status.number() {
        0 => true,
        5 => sink.taken() == line,
        _ => false,
    }
}

// A call over the devices of a log and of its point, with a source and a sink that don't fail. It leaves the spare device
// alone.
fn ask_on<R: Threads + Wait + Sync>(
    rt: &R,
    alloc: Global,
    asked: &[&str],
    script: &[u8],
    devices: Devices,
) -> Result<(Done<MemDisk>, MemSink), Fail> {
    let (log, points) = devices;
    let (done, sink) = ask_over(rt, alloc, asked, script, (log, points, untouched(alloc)?))?;
    let is_unused = done.spare.faults() == 0;
    Ok((ensured(done, is_unused, "the spare device was used")?, sink))
}

// A run that saves its point, over these devices. It ends well, or with this line.
fn saving<R: Threads + Wait + Sync>(
    rt: &R,
    alloc: Global,
    devices: Devices,
    line: &[u8],
) -> Result<Done<MemDisk>, Fail> {
    let (done, sink) = ask_on(rt, alloc, &["run", "--save"], SAVED, devices)?;
    let is_told = is_fine_or_failed(&done, &sink, line);
    drop(sink);
    ensured(done, is_told, "a device failed")
}

// Whether it ends well.
fn saves<R: Threads + Wait + Sync>(
    rt: &R,
    alloc: Global,
    devices: Devices,
    line: &[u8],
) -> Result<bool, Fail> {
    let done = saving(rt, alloc, devices, line)?;
    let is_fine = ended_well(&done);
    drop(done);
    Ok(is_fine)
}

// What a run without an entry of its own writes over a log and a point.
fn looked<R: Threads + Wait + Sync>(
    rt: &R,
    alloc: Global,
    asked: &[&str],
    log: &[u8],
    points: &[u8],
) -> Result<MemSink, Fail> {
    let devices = (roomy(alloc, log)?, roomy(alloc, points)?);
    let (done, sink) = ask_on(rt, alloc, asked, GET, devices)?;
    let is_fine = ended_well(&done);
    drop(done);
    ensured(sink, is_fine, "what a crash left is refused")
}

const GET: &[u8] = b"shape 2 2 8\nservers 1\nclient 1\nbegin\nget 1\nend\n";

// Whether a run that saves ended well, how many entries it acknowledged, and what a crash leaves of its devices.
fn left<R: Threads + Wait + Sync>(
    rt: &R,
    alloc: Global,
    devices: Devices,
    line: &[u8],
    pattern: u8,
) -> Result<(bool, Pos, Devices), Fail>
    requires { pattern ≤ 2 }
{
    let done = saving(rt, alloc, devices, line)?;
    let is_fine = ended_well(&done);
    let devices = (done.log.stop(pattern), done.points.stop(pattern));
    Ok((is_fine, done.acked, devices))
}

// Whether a run from the point writes what one from the start writes.
fn leads_there<R: Threads + Wait + Sync>(
    rt: &R,
    alloc: Global,
    log: &[u8],
    points: &[u8],
) -> Result<bool, Fail> {
    let from_point = looked(rt, alloc, &["run", "--point"], log, points)?;
    let from_start = looked(rt, alloc, &["run"], log, points)?;
    let is_same = from_point.taken() == from_start.taken();
    drop(from_point);
    drop(from_start);
    Ok(is_same)
}

// How many entries the log on a device has.
fn recovered<R: Threads + Wait + Sync>(rt: &R, alloc: Global, log: MemDisk) -> Result<Pos, Fail> {
    let (_, count) = ended(ask(rt, alloc, &["recover"], b"", log, &OpenGate)?);
    Ok(count)
}

// What a crash leaves of a run that saves: the entries that were acknowledged, and perhaps one batch more, which here is one
// entry; and a point from which a run comes to the same as from the start. It tells whether the run ended well.
fn is_left_whole<R: Threads + Wait + Sync>(
    rt: &R,
    alloc: Global,
    devices: Devices,
    line: &[u8],
    pattern: u8,
) -> Result<bool, Fail>
    requires { pattern ≤ 2 }
{
    let (is_fine, acked, (log, points)) = left(rt, alloc, devices, line, pattern)?;
    let leads = leads_there(rt, alloc, log.bytes(), points.bytes());
    drop(points);
    let log = ensured(log, leads?, "a point leads elsewhere")?;
    let count = recovered(rt, alloc, log)?;
    let is_whole = count == acked || count.checked_sub(1) == Some(acked);
    ensured(is_fine, is_whole, "an acknowledged entry is lost")
}

#[test]
fn each_device_fails_at_each_call_of_a_run_that_saves(rt: HostRuntime) -> Result<(), Fail> {
    let alloc = rt.alloc();
    let mut cases = 0u32;
    for (of_log, line) in FAILING {
        let mut is_fine = false;
        for number in 1..100 {
            let devices = one_planned(alloc, of_log, number, false)?;
            if saves(&rt, alloc, devices, line)? {
                is_fine = true;
                break;
            }
            cases = cases.wrapping_add(1);
        }
        assert!(rt; is_fine);
    }
    println!(rt; "{cases} failing calls of a device")?;
    assert!(rt; cases > 20);
    Ok(())
}

#[test]
fn a_device_fails_for_good_and_a_crash_follows(rt: HostRuntime) -> Result<(), Fail> {
    let alloc = rt.alloc();
    let mut cases = 0u32;
    for (of_log, line) in FAILING {
        for pattern in 0..3 {
            for number in 1..100 {
                let devices = one_planned(alloc, of_log, number, true)?;
                if is_left_whole(&rt, alloc, devices, line, pattern)? {
                    break;
                }
                cases = cases.wrapping_add(1);
            }
        }
    }
    println!(rt; "{cases} crashes after a device failed for good")?;
    assert!(rt; cases > 60);
    Ok(())
}

// An empty device that fails in its k-th write or sync.
fn failing(alloc: Global, k: u64) -> Result<MemDisk, Fail>
    requires { 1 ≤ k }
{
    let mut log = empty(alloc)?;
    log.arm(k);
    Ok(log)
}

// Runs one put over a device that fails in its k-th write or sync, which is one of its own.
fn stopped_log<R: Threads + Wait + Sync>(rt: &R, alloc: Global, k: u64) -> Result<MemDisk, Fail>
    requires { 1 ≤ k }
{
    told(
        rt,
        alloc,
        "the device failed",
        RUN,
        ONE_PUT,
        failing(alloc, k)?,
        refused(5, b"hyder: device log\n"),
    )
}

// The header takes seven writes and syncs, of which the first is a sync, and the record four: it, a sync, its gate, a sync.
#[test]
fn each_write_and_sync_fails(rt: HostRuntime) -> Result<(), Fail> {
    let alloc = rt.alloc();
    for k in 1..12 {
        let log = stopped_log(&rt, alloc, k)?;
        assert!(rt; k > 1 || log.bytes().is_empty());
        drop(log);
    }
    let (status, _) = ended(ask(&rt, alloc, RUN, ONE_PUT, failing(alloc, 12)?, &OpenGate)?);
    assert_eq!(rt; status, Status::Fine);
    Ok(())
}

// What a crash leaves after a write of a gate that failed: a log of so many entries, which is run again.
fn is_left<R: Threads + Wait + Sync>(
    rt: &R,
    alloc: Global,
    pattern: u8,
    dump: CallAnswer<'_>,
    again: CallAnswer<'_>,
) -> Result<(), Fail>
    requires { pattern ≤ 2 }
{
    let log = stopped_log(rt, alloc, 10)?.stop(pattern);
    let log = told(rt, alloc, "the dump", &["recover"], b"", log, dump)?;
    let log = told(rt, alloc, "the next run", RUN, NO_CLIENT, log, again)?;
    drop(log);
    Ok(())
}

#[test]
fn a_write_of_a_gate_fails(rt: HostRuntime) -> Result<(), Fail> {
    let alloc = rt.alloc();
    let none = fine(0, b"trace 0\nserver 1 at 0 rows 0\n");
    is_left(&rt, alloc, 0, fine(0, NONE), none)?;
    is_left(&rt, alloc, 1, fine(1, DUMP), fine(1, NO_CLIENT_AFTER_PUT))?;
    is_left(&rt, alloc, 2, fine(0, NONE), none)
}

// The least number of writes and syncs of a run of the three clients, whichever entries go together. The header takes seven.
// Two clients append twice each, the second time once the first entry has landed: four calls for the first entries, and four
// for the second. The five entries leave a group that isn't whole, and its filler takes four of its own.
const LEAST_CALLS: u64 = 19;

// Whether a run of the three clients ended as it should over a device that fails in its k-th write or sync: the device failed;
// or the run was over before, which no run is in its least number of calls.
fn is_failed_or_over(done: &Done<MemDisk>, sink: &MemSink, k: u64) -> bool {
    if LEAST_CALLS < k && done.log.faults() == 0 {
        return ended_well(done);
    }
    let wanted = CallAnswer {
        number: 5,
        acked: done.acked,
        text: b"hyder: device log\n",
    };
    is_answered(done, sink, wanted)
}

// How many entries are acknowledged where three clients run over a device that fails, and how many a crash then leaves.
fn crashed<R: Threads + Wait + Sync>(
    rt: &R,
    alloc: Global,
    k: u64,
    pattern: u8,
) -> Result<(Pos, Pos), Fail>
    requires call { 1 ≤ k }
    requires pattern { pattern ≤ 2 }
{
    let (done, sink) = ask(rt, alloc, RUN, THREE_CLIENTS, failing(alloc, k)?, &OpenGate)?;
    let acked = done.acked;
    let is_told = is_failed_or_over(&done, &sink, k);
    drop(sink);
    let log = ensured(log_of(done), is_told, "the device failed")?;
    let log = log.stop(pattern);
    let (status, left) = ended(ask(rt, alloc, &["check"], b"", log, &OpenGate)?);
    let is_fine = status == Status::Fine;
    ensured((acked, left), is_fine, "a log that can't be checked")
}

// A crash after a failure leaves the entries that were acknowledged, and at most one batch more: each client has at
// most one entry in it. How many calls a run makes depends on which entries go together, so a run may be over before
// the last of these calls.
#[test]
fn a_device_fails_under_three_clients(rt: HostRuntime) -> Result<(), Fail> {
    let alloc = rt.alloc();
    for k in 8..28 {
        for pattern in 0..3 {
            let (acked, left) = crashed(&rt, alloc, k, pattern)?;
            assert!(rt;
                left == acked
                    || left.checked_sub(1) == Some(acked)
                    || left.checked_sub(2) == Some(acked)
                    || left.checked_sub(3) == Some(acked)
            );
        }
    }
    Ok(())
}
