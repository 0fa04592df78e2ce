//! A device in memory.
ghost use Rattle.std.specs.Prelude.{◌≡◌, ◌+◌, ◌-◌, ◌^◌, ◌<◌, ◌≤◌, ◌||◌, ℕ, [], length, min, true, not, Some, None, IfOk, OnOk};
ghost use Rattle.std.specs.Prelude.{is_err, is_ok, if◌then◌else◌};
ghost use Rattle.hy_base.specs.Faults.{HasCause};
ghost use Rattle.hy_disk.specs.Content.{Image, settled, with_pending, read_into};
ghost use Rattle.hy_disk.specs.Moments.{Elapses};
ghost use Rattle.hy_disk.specs.Stops.{stopped};
ghost use Rattle.hy_disk.specs.Armed.{IsUnarmed};
ghost use Rattle.hy_mem.specs.DiskFailures.{fresh_device_plan, cleared, read_fails, change_fails, after_read, after_change};
ghost use Rattle.hy_mem.specs.Reserved.{IsReserved};
ghost use Rattle.hy_mem.specs.Room.{is_room_for, room_after, widened};

use crate::calls::DeviceCalls;
use crate::room::Room;
use crate::store::Store;
use hy_disk::{Disk, Failed, Tuned};
use std::alloc::{AllocError, Global};

/// A device in memory, whose calls fail as planned and past its room.
///
/// Contracts see what it holds, the plan of its calls, and its room. A write or a sync that is done takes one call of the
/// room, and a write its bytes.
#[derive(Drop)]
pub struct MemDisk {
    store: Store,
    calls: DeviceCalls,
    room: Room,
    ghost stays: { Image store.content store.content.seen },
    ghost reserved: { IsReserved room store },
}

impl MemDisk {
    ghost use Rattle.hy_mem.specs.MemDisk.{content_of, plan_of, room_of, HasRoom, ArmedAt};

    /// A device with these bytes, all of them synced, and without room. The calls numbered in `fails`, from 1, fail. Out
    /// of memory is the one error.
    pub fn new(alloc: Global, bytes: &[u8], fails: &[u64]) -> Result<MemDisk, AllocError>
        ensures content { IfOk result (λ disk. content_of disk ≡ settled bytes.now) }
        ensures plan { IfOk result (λ disk. plan_of disk ≡ fresh_device_plan fails.now None) }
        ensures room { IfOk result (λ disk. room_of disk ≡ record { calls = 0; bytes = 0 }) }
        ensures has_room { IfOk result (λ disk. fails.now ≡ [] → HasRoom disk 0 0) }
        ensures unarmed { IfOk result (λ disk. IsUnarmed (ArmedAt disk)) }
    {
        MemDisk::planned(alloc, bytes, fails, None)
    }

    /// A device with these bytes, all of them synced, and without room. It passes so many calls, and then fails every call.
    /// Out of memory is the one error.
    pub fn fused(alloc: Global, bytes: &[u8], calls: u64) -> Result<MemDisk, AllocError>
        ensures content { IfOk result (λ disk. content_of disk ≡ settled bytes.now) }
        ensures plan { IfOk result (λ disk. plan_of disk ≡ fresh_device_plan [] (Some calls)) }
        ensures room { IfOk result (λ disk. room_of disk ≡ record { calls = 0; bytes = 0 }) }
    {
        MemDisk::planned(alloc, bytes, &[], Some(calls))
    }

    fn planned(
        alloc: Global,
        bytes: &[u8],
        fails: &[u64],
        passes: Option<u64>,
    ) -> Result<MemDisk, AllocError>
        ensures content { IfOk result (λ disk. content_of disk ≡ settled bytes.now) }
        ensures plan { IfOk result (λ disk. plan_of disk ≡ fresh_device_plan fails.now passes) }
        ensures room { IfOk result (λ disk. room_of disk ≡ record { calls = 0; bytes = 0 }) }
    {
        Ok(MemDisk {
            store: Store::new(alloc, bytes)?,
            calls: DeviceCalls::new(alloc, fails, passes)?,
            room: Room { calls: 0, bytes: 0 },
        })
    }

    /// The bytes that a read gives.
    pub fn bytes(&self) -> &[u8]
        ensures { result.now ≡ (content_of self.now).seen }
    {
        self.store.bytes()
    }

    /// The device after a crash now, with nothing pending. Pattern 0 leaves the bytes of the last successful sync, 1 those
    /// that a read gives, and 2 these with 0xFF in place of each that was written since. Its room and its count of faults
    /// are kept, and no call fails any more but past the room. It takes no memory.
    pub fn stop(self, pattern: u8) -> MemDisk
        requires { pattern ≤ 2 }
        ensures content { content_of result ≡ settled (stopped pattern (content_of self)) }
        ensures image { Image (content_of self) (content_of result).seen }
        ensures plan { plan_of result ≡ cleared (plan_of self) }
        ensures room { room_of result ≡ room_of self }
        ensures has_room { (k b : ℕ) → k ≤ (room_of self).calls → b ≤ (room_of self).bytes → HasRoom result k b }
        ensures unarmed { IsUnarmed (ArmedAt result) }
    {
        let MemDisk {
            mut store,
            mut calls,
            room,
        } = self;
        store.stop(pattern);
        calls.clear();
        MemDisk { store, calls, room }
    }
}

impl Disk for MemDisk {
    ghost use Rattle.std.proofs.Common.{inl};
    ghost use Rattle.hy_mem.specs.DiskLaws.{only_now};
    ghost use Rattle.hy_mem.specs.MemDisk.{content_of, plan_of, room_of, moment_of, left_since_of, HasRoom, ArmedAt};
    ghost use Rattle.hy_mem.specs.RoomLaws.{room_shrinks};

    ghost tells = { true };

    ghost content = { content_of };

    ghost moment = { moment_of };

    ghost left_since = { left_since_of };

    ghost faults_of = { λ disk. (plan_of disk).faults };

    ghost has_room = { HasRoom };

    ghost armed_at = { ArmedAt };

    ghost seen_may_stay = { λ disk told. disk.stays };

    ghost counts_now = { λ disk t image told earlier now. inl now };

    ghost only_now = { λ disk image left. only_now disk.store.before (content_of disk) image left };

    ghost room_shrinks = { room_shrinks };

    /// Fails exactly where the plan says so.
    fn len(&mut self) -> Result<u64, Failed>
        ensures fails { is_err result ≡ read_fails (plan_of self.old) }
        ensures plan { plan_of self.new ≡ after_read (plan_of self.old) (is_err result) }
        ensures room_left { room_of self.new ≡ room_of self.old }
        ensures len { IfOk result (λ n. n ≡ length (content_of self.old).seen) }
        ensures same { content_of self.new ≡ content_of self.old }
        ensures time { Elapses (moment_of self.old) (moment_of self.new) (left_since_of self.old) (left_since_of self.new)
            (content_of self.new) }
        ensures cause { HasCause (plan_of self.old).faults (plan_of self.new).faults result }
    {
        self.calls.read()?;
        Ok(self.store.bytes().len() as u64)
    }

    /// Fails exactly where the plan says so.
    fn read(&mut self, place: u64, into: &mut [u8]) -> Result<usize, Failed>
        ensures fails { is_err result ≡ read_fails (plan_of self.old) }
        ensures plan { plan_of self.new ≡ after_read (plan_of self.old) (is_err result) }
        ensures room_left { room_of self.new ≡ room_of self.old }
        ensures bytes { IfOk result (λ n. (n ≡ min (length into.old) (length (content_of self.old).seen - place))
            × (into.new ≡ read_into (content_of self.old).seen place into.old)) }
        ensures same { content_of self.new ≡ content_of self.old }
        ensures time { Elapses (moment_of self.old) (moment_of self.new) (left_since_of self.old) (left_since_of self.new)
            (content_of self.new) }
        ensures cause { HasCause (plan_of self.old).faults (plan_of self.new).faults result }
    {
        self.calls.read()?;
        let bytes = self.store.bytes();
        let start = bytes.len().min(place as usize);
        let count = into.len().min(bytes.len() - start);
        into[..count].copy_from_slice(&bytes[start..start + count]);
        Ok(count)
    }

    /// Fails exactly where the plan says so and where it finds no room. Where it finds room it is done, also where it fails.
    fn write_at(&mut self, place: u64, bytes: &[u8]) -> Result<(), Failed>
        requires within { place ≤ length (content_of self.old).seen }
        requires fits { place + length bytes.now < 2 ^ 64 }
        ensures fails { is_err result
            ≡ (not (is_room_for (length bytes.now) (room_of self.old)) || change_fails (plan_of self.old)) }
        ensures plan { plan_of self.new ≡ after_change (plan_of self.old) (is_err result) }
        ensures after { content_of self.new ≡ (if is_room_for (length bytes.now) (room_of self.old)
            then with_pending (content_of self.old) place bytes.now
            else content_of self.old) }
        ensures room_left { room_of self.new ≡ (if is_room_for (length bytes.now) (room_of self.old)
            then room_after (length bytes.now) (room_of self.old)
            else room_of self.old) }
        ensures time { Elapses (moment_of self.old) (moment_of self.new) (left_since_of self.old) (left_since_of self.new)
            (content_of self.new) }
        ensures cause { HasCause (plan_of self.old).faults (plan_of self.new).faults result }
    {
        let has_room = self.room.is_for(bytes.len());
        let answer = self.calls.change(!has_room);
        if !has_room {
            return answer;
        }
        self.store.write(place as usize, bytes);
        self.room = self.room.after(bytes.len());
        answer
    }

    /// Fails exactly where the plan says so and where it finds no room.
    fn sync(&mut self) -> Result<(), Failed>
        ensures fails { is_err result ≡ (not (is_room_for 0 (room_of self.old)) || change_fails (plan_of self.old)) }
        ensures plan { plan_of self.new ≡ after_change (plan_of self.old) (is_err result) }
        ensures after { content_of self.new ≡ (if is_ok result then settled (content_of self.old).seen
            else content_of self.old) }
        ensures room_left { room_of self.new ≡ (if is_ok result then room_after 0 (room_of self.old) else room_of self.old) }
        ensures time { Elapses (moment_of self.old) (moment_of self.new) (left_since_of self.old) (left_since_of self.new)
            (content_of self.new) }
        ensures cause { HasCause (plan_of self.old).faults (plan_of self.new).faults result }
    {
        let has_room = self.room.is_for(0);
        self.calls.change(!has_room)?;
        self.store.sync();
        self.room = self.room.after(0);
        Ok(())
    }

    fn faults(&self) -> u64 {
        self.calls.faults()
    }
}

impl Tuned for MemDisk {
    ghost use Rattle.hy_mem.specs.MemDisk.{content_of, plan_of, room_of, moment_of, left_since_of, HasRoom, ArmedAt};

    /// The room grows to exactly so much, where it was less. Running out of memory leaves it as it was.
    fn room(&mut self, bytes: usize, calls: usize) -> Result<(), AllocError>
        ensures room_left { room_of self.new ≡ (if is_ok result then widened calls bytes (room_of self.old)
            else room_of self.old) }
        ensures before { OnOk result ((k : ℕ) → ArmedAt self.old (k + 1) → HasRoom self.old 0 0
            → HasRoom self.new (min (calls - 1) k) bytes) }
        ensures plan { plan_of self.new ≡ plan_of self.old }
        ensures same { content_of self.new ≡ content_of self.old }
        ensures time { Elapses (moment_of self.old) (moment_of self.new) (left_since_of self.old) (left_since_of self.new)
            (content_of self.new) }
    {
        self.store.reserve(calls, bytes)?;
        self.room = self.room.widened(calls, bytes);
        Ok(())
    }

    /// The calls that fail by their number stay planned.
    fn arm(&mut self, k: u64)
        ensures plan { plan_of self.new ≡ record (plan_of self.old) { armed = Some k } }
        ensures room_left { room_of self.new ≡ room_of self.old }
        ensures same { content_of self.new ≡ content_of self.old }
        ensures time { Elapses (moment_of self.old) (moment_of self.new) (left_since_of self.old) (left_since_of self.new)
            (content_of self.new) }
    {
        self.calls.arm(k);
    }
}
