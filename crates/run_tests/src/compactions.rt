//! Calls of `compact` over devices in memory: a copy and a run on it; and the spare device failing at each of its calls, with
//! what a crash then leaves.
ghost use Rattle.std.specs.Prelude.{◌≤◌};

use crate::calls::{CallAnswer, ask_over, ensured, is_answered, roomy};
use hy_disk::{Disk, Tuned};
use hy_mem::MemDisk;
use std::alloc::Global;
use std::sync::Wait;
use std::test::Fail;
use std::thread::Threads;

const THREE_PUTS: &[u8] =
    b"shape 1 1 8\nservers 1\nclient 1\nbegin\nput 1 a\nend\nbegin\nput 2 b\nend\nbegin\nput 3 c\nend\n";

const FOURTH: &[u8] = b"shape 1 1 8\nservers 1\nclient 1\nbegin\nget 1\nput 4 d\nend\n";

const FOURTH_OUT: &[u8] =
    b"trace 3\nb 1\na 1\nr 1 4\nprogram 1 1\nvalue a\nok\nat 4 commit\nserver 1 at 4 rows 4\nrow 1 a by 1\nrow 2 b by 2\n\
      row 3 c by 3\nrow 4 d by 4\n";

const COPIED: CallAnswer<'static> = CallAnswer {
    number: 0,
    acked: 3,
    text: b"compact from 2 entries 1\n",
};

const IN_USE: CallAnswer<'static> = CallAnswer {
    number: 11,
    acked: 3,
    text: b"hyder: spare in use\n",
};

const SPARE_FAILED: &[u8] = b"hyder: device spare\n";

// The devices of a log, of its point and of a copy.
type Devices = (MemDisk, MemDisk, MemDisk);

// The devices after a call that has to answer this.
fn answered<R: Threads + Wait + Sync>(
    rt: &R,
    alloc: Global,
    asked: &[&str],
    script: &[u8],
    devices: Devices,
    wanted: CallAnswer<'_>,
) -> Result<Devices, Fail> {
    let (done, sink) = ask_over(rt, alloc, asked, script, devices)?;
    let is_told = is_answered(&done, &sink, wanted);
    drop(sink);
    let done = ensured(done, is_told, "another answer")?;
    Ok((done.log, done.points, done.spare))
}

// The devices of a log of three puts and its point, with this spare device.
fn three_puts<R: Threads + Wait + Sync>(
    rt: &R,
    alloc: Global,
    spare: MemDisk,
) -> Result<Devices, Fail> {
    let devices = (roomy(alloc, b"")?, roomy(alloc, b"")?, spare);
    let (done, sink) = ask_over(rt, alloc, &["run", "--save"], THREE_PUTS, devices)?;
    drop(sink);
    let is_fine = done.status.number() == 0;
    let done = ensured(done, is_fine, "a run failed")?;
    Ok((done.log, done.points, done.spare))
}

#[test]
fn a_run_goes_on_from_a_copy(rt: HostRuntime) -> Result<(), Fail> {
    let alloc = rt.alloc();
    let devices = three_puts(&rt, alloc, roomy(alloc, b"")?)?;
    let (log, points, spare) = answered(&rt, alloc, &["compact"], b"", devices, COPIED)?;
    assert!(rt; spare.bytes().len() == 513);
    let wanted = CallAnswer {
        number: 0,
        acked: 4,
        text: FOURTH_OUT,
    };
    let devices = (spare, points, log);
    let devices = answered(&rt, alloc, &["run", "--point"], FOURTH, devices, wanted)?;
    drop(devices);
    Ok(())
}

// A device in use is as it was: the first call that would write to it fails.
#[test]
fn a_spare_device_in_use_stays(rt: HostRuntime) -> Result<(), Fail> {
    let alloc = rt.alloc();
    let devices = three_puts(&rt, alloc, MemDisk::new(alloc, b"in use", &[])?)?;
    let (log, points, spare) = answered(&rt, alloc, &["compact"], b"", devices, IN_USE)?;
    drop(log);
    drop(points);
    assert!(rt; spare.bytes() == b"in use".as_slice() && spare.faults() == 0);
    drop(spare);
    Ok(())
}

// Whether a copy to a spare device that fails for good at its call of this number ended well. Else it is told as failed; and
// what a crash leaves there is unborn, or a log of which `recover` tells at most the one entry.
fn copies<R: Threads + Wait + Sync>(
    rt: &R,
    alloc: Global,
    number: u64,
    pattern: u8,
) -> Result<bool, Fail>
    requires { pattern ≤ 2 }
{
    let mut spare = MemDisk::fused(alloc, b"", number)?;
    spare.room(65536, 200)?;
    let devices = three_puts(rt, alloc, spare)?;
    let (done, sink) = ask_over(rt, alloc, &["compact"], b"", devices)?;
    let is_fine = done.status.number() == 0;
    let is_told = is_fine || sink.taken() == SPARE_FAILED;
    drop(sink);
    let spare = ensured(done, is_told, "a device failed")?.spare;
    let left = spare.stop(pattern);
    let is_left = recovers(rt, alloc, left)?;
    ensured(is_fine, is_left, "what a crash left is refused")
}

// Whether a device is unborn, or holds a log.
fn recovers<R: Threads + Wait + Sync>(rt: &R, alloc: Global, log: MemDisk) -> Result<bool, Fail> {
    let devices = (log, roomy(alloc, b"")?, roomy(alloc, b"")?);
    let (done, sink) = ask_over(rt, alloc, &["recover"], b"", devices)?;
    let is_fine = done.status.number() == 0 && done.acked <= 3;
    drop(sink);
    drop(done);
    Ok(is_fine)
}

#[test]
fn a_spare_device_fails_for_good_and_a_crash_follows(rt: HostRuntime) -> Result<(), Fail> {
    let alloc = rt.alloc();
    let mut cases = 0u32;
    for pattern in 0..3 {
        for number in 0..60 {
            if copies(&rt, alloc, number, pattern)? {
                break;
            }
            cases = cases.wrapping_add(1);
        }
    }
    println!(rt; "{cases} crashes after the spare device failed for good")?;
    assert!(rt; cases > 20);
    Ok(())
}
