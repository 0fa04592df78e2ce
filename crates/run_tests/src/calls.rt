//! Calls of the program, over devices in memory or others. One function makes them all: what it says of them
//! is the answer alone.
ghost use Rattle.std.specs.Prelude.{◌≡◌, IfOk};
ghost use Rattle.hy_disk.specs.Content.{settled};
ghost use Rattle.hy_mem.specs.MemDisk.{content_of, HasRoom};

use hy_base::Pos;
use hy_cli::Words;
use hy_disk::{Disk, Tuned};
use hy_io::{MemSink, MemSource};
use hy_mem::MemDisk;
use hy_pipe::{Gate, OpenGate};
use hy_run::{Done, Status, hyder_call};
use std::alloc::{AllocError, Global};
use std::sync::Wait;
use std::test::Fail;
use std::thread::Threads;

pub const RUN: &[&str] = &["run"];

/// A device with these bytes, all of them synced, and with room for 200 writes and syncs of 65,536 bytes. Out of memory is
/// the one error.
pub fn roomy(alloc: Global, bytes: &[u8]) -> Result<MemDisk, AllocError>
    ensures content { IfOk result (λ disk. content_of disk ≡ settled bytes.now) }
    ensures room { IfOk result (λ disk. HasRoom disk 200 65536) }
{
    let mut disk = MemDisk::new(alloc, bytes, &[])?;
    disk.room(65536, 200)?;
    Ok(disk)
}

/// An empty device with ample room.
pub fn empty(alloc: Global) -> Result<MemDisk, Fail> {
    Ok(roomy(alloc, b"")?)
}

/// The words of a call: the program's name, and these.
fn words_of(alloc: Global, asked: &[&str]) -> Result<Words, Fail> {
    let mut words = Words::new(alloc);
    words.push("hyder")?;
    for word in asked {
        words.push(word)?;
    }
    Ok(words)
}

/// A value, where what is said of it holds. The error says why not.
pub fn ensured<T: Drop>(value: T, holds: bool, why: &'static str) -> Result<T, Fail> {
    if holds {
        Ok(value)
    } else {
        Err(Fail::new(why))
    }
}

/// A call over the devices of a log, its point and a copy, with this source, sink and gate.
pub fn call_on<R: Threads + Wait + Sync, D: Disk + Drop + Send, G: Gate + Sync>(
    rt: &R,
    alloc: Global,
    asked: &[&str],
    source: &mut MemSource,
    sink: &mut MemSink,
    devices: (D, D, D),
    gate: &G,
) -> Result<Done<D>, Fail> {
    let words = words_of(alloc, asked)?;
    let (log, points, spare) = devices;
    let done = hyder_call(rt, alloc, &words, source, sink, log, points, spare, gate);
    drop(words);
    Ok(done)
}

/// Such a call over devices in memory, with a source and a sink that don't fail.
pub fn ask_over<R: Threads + Wait + Sync>(
    rt: &R,
    alloc: Global,
    asked: &[&str],
    script: &[u8],
    devices: (MemDisk, MemDisk, MemDisk),
) -> Result<(Done<MemDisk>, MemSink), Fail> {
    let mut source = MemSource::new(alloc, script, 1000, &[])?;
    let mut sink = MemSink::new(alloc, 1000, 1000, &[])?;
    let done = call_on(rt, alloc, asked, &mut source, &mut sink, devices, &OpenGate);
    drop(source);
    Ok((done?, sink))
}

/// A device that fails at its first call.
pub fn untouched(alloc: Global) -> Result<MemDisk, Fail> {
    Ok(MemDisk::new(alloc, b"untouched", &[1])?)
}

/// A call over a log in memory, with this source, sink and gate, which leaves the other devices alone.
pub fn call<R: Threads + Wait + Sync, G: Gate + Sync>(
    rt: &R,
    alloc: Global,
    asked: &[&str],
    source: &mut MemSource,
    sink: &mut MemSink,
    log: MemDisk,
    gate: &G,
) -> Result<Done<MemDisk>, Fail> {
    let devices = (log, untouched(alloc)?, untouched(alloc)?);
    let done = call_on(rt, alloc, asked, source, sink, devices, gate)?;
    let is_unused = done.points.faults() == 0 && done.spare.faults() == 0;
    ensured(done, is_unused, "another device was used")
}

/// A call over a log, with a source and a sink that don't fail.
pub fn ask<R: Threads + Wait + Sync, G: Gate + Sync>(
    rt: &R,
    alloc: Global,
    asked: &[&str],
    script: &[u8],
    log: MemDisk,
    gate: &G,
) -> Result<(Done<MemDisk>, MemSink), Fail> {
    let mut source = MemSource::new(alloc, script, 7, &[])?;
    let mut sink = MemSink::new(alloc, 1000, 1000, &[])?;
    let done = call(rt, alloc, asked, &mut source, &mut sink, log, gate);
    drop(source);
    Ok((done?, sink))
}

/// How such a call ended, and how many entries the log then has.
pub fn ended(call: (Done<MemDisk>, MemSink)) -> (Status, Pos) {
    let (done, sink) = call;
    drop(sink);
    let end = (done.status, done.acked);
    drop(done);
    end
}

/// The device of the log.
pub fn log_of<D: Drop>(done: Done<D>) -> D {
    done.log
}

/// What a call is to answer and to write: its exit status, and the rest.
#[derive(Clone, Copy)]
pub struct CallAnswer<'a> {
    pub number: u8,
    pub acked: Pos,
    pub text: &'a [u8],
}

/// What a call is to write that ends well over a log which then has so many entries.
pub fn fine(acked: Pos, text: &[u8]) -> CallAnswer<'_> {
    CallAnswer {
        number: 0,
        acked,
        text,
    }
}

/// Whether a call answered and wrote this.
pub fn is_answered<D>(done: &Done<D>, sink: &MemSink, wanted: CallAnswer<'_>) -> bool {
    done.status.number() == wanted.number
        && done.acked == wanted.acked
        && sink.taken() == wanted.text
}

/// A call over a log, which has to answer and to write this. It answers the device; the error says what the call shows.
pub fn told<R: Threads + Wait + Sync>(
    rt: &R,
    alloc: Global,
    what: &'static str,
    asked: &[&str],
    script: &[u8],
    log: MemDisk,
    wanted: CallAnswer<'_>,
) -> Result<MemDisk, Fail> {
    let (done, sink) = ask(rt, alloc, asked, script, log, &OpenGate)?;
    let is_told = is_answered(&done, &sink, wanted);
    drop(sink);
    ensured(log_of(done), is_told, what)
}
