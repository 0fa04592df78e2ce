//! A source and a sink in memory.
ghost use Rattle.std.specs.Prelude.{◌≡◌, ◌-◌, ◌<◌, ◌≤◌, ◌||◌, ◌&&◌, [], Some, IfOk, is_err, nat_lt, length, min, vec_capacity};
ghost use Rattle.std.specs.Io.{ReadsAtMost, WritesAtMost};
ghost use Rattle.std.specs.Io.KnownBytes.{ReadConsumes, WriteAppends};
ghost use Rattle.hy_base.specs.Faults.{HasCause};
ghost use Rattle.hy_io.specs.EndFailures.{after_call, fails_next, fresh_plan};

use crate::calls::Calls;
use crate::rest::Rest;
use crate::{Failed, Sink, Source};
use std::alloc::{AllocError, Global};

/// Gives its bytes, at most `most` a call. The calls numbered in `fails`, from 1, fail.
#[derive(Drop)]
pub struct MemSource {
    rest: Rest,
    calls: Calls,
}

impl MemSource {
    ghost use Rattle.hy_io.specs.Memory.{source_left, source_plan};

    /// A source of these bytes. Out of memory is the one error.
    pub fn new(
        alloc: Global,
        bytes: &[u8],
        most: usize,
        fails: &[u64],
    ) -> Result<MemSource, AllocError>
        requires { 1 ≤ most }
        ensures left { IfOk result (λ source. source_left source ≡ bytes.now) }
        ensures plan { IfOk result (λ source. source_plan source ≡ fresh_plan most fails.now) }
    {
        Ok(MemSource {
            rest: Rest::new(alloc, bytes)?,
            calls: Calls::new(alloc, most, fails)?,
        })
    }
}

impl Source for MemSource {
    ghost use Rattle.hy_io.specs.Memory.{source_left, source_plan};

    ghost left = { λ source. Some (source_left source) };

    ghost faults = { λ source. (source_plan source).faults };

    /// Fails exactly where the plan says so. Otherwise it gives as many bytes as it may.
    fn read(&mut self, into: &mut [u8]) -> Result<usize, Failed>
        ensures bound { ReadsAtMost result into.new }
        ensures bytes { ReadConsumes (Some (source_left self.old)) (Some (source_left self.new)) result into.new }
        ensures cause { HasCause (source_plan self.old).faults (source_plan self.new).faults result }
        ensures fails { is_err result ≡ fails_next (source_plan self.old) }
        ensures count { IfOk result (λ count.
            count ≡ min (length into.old) (min (source_plan self.old).most (length (source_left self.old)))) }
        ensures plan { source_plan self.new ≡ after_call (source_plan self.old) (is_err result) }
    {
        if self.calls.fails(false) {
            return Err(Failed);
        }
        Ok(self.rest.give(into, self.calls.most()))
    }
}

/// Keeps what it takes, at most `most` bytes a call and at most its room in all. The calls numbered in `fails`, from 1,
/// fail, and so does one that finds no room for a byte.
#[derive(Drop)]
pub struct MemSink {
    taken: Vec<u8>,
    room: usize,
    calls: Calls,
    ghost within: { length taken.items ≤ room },
    ghost reserved: { room ≤ vec_capacity taken },
}

impl MemSink {
    ghost use Rattle.hy_io.specs.Memory.{sink_plan, sink_room, sink_taken};

    /// A sink with room for so many bytes, which is taken from memory now. Out of memory is the one error.
    pub fn new(
        alloc: Global,
        room: usize,
        most: usize,
        fails: &[u64],
    ) -> Result<MemSink, AllocError>
        requires { 1 ≤ most }
        ensures taken { IfOk result (λ sink. sink_taken sink ≡ []) }
        ensures room { IfOk result (λ sink. sink_room sink ≡ room) }
        ensures plan { IfOk result (λ sink. sink_plan sink ≡ fresh_plan most fails.now) }
    {
        Ok(MemSink {
            taken: Vec::with_capacity(alloc, room)?,
            room,
            calls: Calls::new(alloc, most, fails)?,
        })
    }

    /// The bytes that it took.
    pub fn taken(&self) -> &[u8]
        ensures { result.now ≡ sink_taken self.now }
    {
        &self.taken
    }
}

impl Sink for MemSink {
    ghost use Rattle.hy_io.specs.Memory.{is_full, sink_plan, sink_room, sink_taken};

    ghost taken = { λ sink. Some (sink_taken sink) };

    ghost faults = { λ sink. (sink_plan sink).faults };

    /// Fails exactly where the plan says so and where it finds no room. Otherwise it takes as many bytes as it may.
    fn write(&mut self, piece: &[u8]) -> Result<usize, Failed>
        ensures bound { WritesAtMost result piece.now }
        ensures some { IfOk result (λ count. 0 < length piece.now → 0 < count) }
        ensures bytes { WriteAppends (Some (sink_taken self.old)) (Some (sink_taken self.new)) result piece.now }
        ensures cause { HasCause (sink_plan self.old).faults (sink_plan self.new).faults result }
        ensures fails { is_err result ≡ ((nat_lt 0 (length piece.now) && is_full self.old) || fails_next (sink_plan self.old)) }
        ensures count { IfOk result (λ count. count
            ≡ min (length piece.now) (min (sink_plan self.old).most (sink_room self.old - length (sink_taken self.old)))) }
        ensures plan { sink_plan self.new ≡ after_call (sink_plan self.old) (is_err result) }
        ensures room { sink_room self.new ≡ sink_room self.old }
    {
        let left = self.room - self.taken.len();
        let finds_no_room = !piece.is_empty() && left == 0;
        if self.calls.fails(finds_no_room) {
            return Err(Failed);
        }
        let count = piece.len().min(self.calls.most().min(left));
        if self.taken.extend_from_slice(&piece[..count]).is_err() {
            unreachable!();
        }
        Ok(count)
    }
}
