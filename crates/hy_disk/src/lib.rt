//! A device of bytes, and what a crash leaves of it.
//!
//! The trait [`Disk`] is the whole model of a device. It says what a read gives, which bytes a crash now may leave, which
//! bytes a crash at any moment since a call's start might have left, and that a call fails only where the count of faults
//! rose. Where a device tells so, it also says how much can be written before a call may fail, and which call is ordered
//! to fail. A device that doesn't tell its content, as a real file, is safe and counts its faults; no clause on bytes
//! holds of it. The laws for runs of several calls are in `proofs/`, proved from the trait's definitions alone.
#![tactic(auto)]

ghost use Rattle.std.specs.Prelude.{◌≡◌, ◌+◌, ◌-◌, ◌^◌, ◌<◌, ◌≤◌, ℕ, Bool, List, length, min, IsTrue, IsOk, IsErr, IfOk, OnOk};
ghost use Rattle.std.specs.Prelude.{OnErr};
ghost use Rattle.hy_base.specs.Faults.{HasCause};
ghost use Rattle.hy_disk.specs.Content.{Content, Image, settled, with_pending, AfterFailedWrite, read_into};
ghost use Rattle.hy_disk.specs.Moments.{Elapses};
ghost use Rattle.hy_disk.specs.Armed.{IsUnarmed};

pub use hy_base::Failed;
use std::alloc::AllocError;

/// A device of bytes, with places counted from 0. Only a write changes what a read gives, and no call makes the device
/// shorter.
///
/// Each call can fail. `Failed` comes only where the count of faults rose in that call, and the count never falls.
pub trait Disk {
    /// Whether the device tells what it holds. Memory does, a real file doesn't. Where it doesn't, its content and its
    /// images mean nothing, and no clause on them holds.
    ghost tells: { Bool };

    /// What a read gives, what the last successful sync made stable, and where writes came since. What a crash now may
    /// leave is an `Image` of it.
    ghost content: { Self → Content };

    /// The device's clock, a number that never falls.
    ghost moment: { Self → ℕ };

    /// What a crash at that moment or a later one might have left, in the midst of a call or between two.
    ghost left_since: { Self → ℕ → List ℕ → Type 0 };

    /// The count of faults, a `u64`.
    ghost faults_of: { Self → ℕ };

    /// The next so many writes and syncs, of so many bytes in all, won't fail, nor will any other call before them and
    /// between them.
    ghost has_room: { Self → ℕ → ℕ → Type 0 };

    /// It is ordered that the k-th write or sync from now on fails, counted from 1, and every call after it. At 0 it has
    /// failed. A write that fails so is done, and isn't synced.
    ghost armed_at: { Self → ℕ → Type 0 };

    /// How many bytes the device has.
    ///
    /// `Failed`: a fault. The device is as it was.
    fn len(&mut self) -> Result<u64, Failed>
        ensures len { IsTrue tells → IfOk result (λ n. n ≡ length (content self.old).seen) }
        ensures same { content self.new ≡ content self.old }
        ensures time { Elapses (moment self.old) (moment self.new) (left_since self.old) (left_since self.new)
            (content self.new) }
        ensures cause { HasCause (faults_of self.old) (faults_of self.new) result }

        // Within its room it doesn't fail and takes none. After an ordered failure it fails.
        ensures room { (k b : ℕ) → has_room self.old k b → IsOk result × has_room self.new k b }
        ensures armed_at { (k : ℕ) → armed_at self.old k → armed_at self.new k }
        ensures unarmed { IsUnarmed (armed_at self.old) → IsUnarmed (armed_at self.new) }
        ensures due { armed_at self.old 0 → IsErr result };

    /// Puts the bytes from a place on in front of a buffer, and answers how many. They are fewer than the buffer holds
    /// exactly where the device ends there.
    ///
    /// `Failed`: a fault. The device is as it was, and the buffer may hold anything.
    fn read(&mut self, place: u64, into: &mut [u8]) -> Result<usize, Failed>
        ensures count { IfOk result (λ n. n ≤ length into.old) }
        ensures bytes { IsTrue tells → IfOk result (λ n. (n ≡ min (length into.old) (length (content self.old).seen - place))
            × (into.new ≡ read_into (content self.old).seen place into.old)) }
        ensures same { content self.new ≡ content self.old }
        ensures time { Elapses (moment self.old) (moment self.new) (left_since self.old) (left_since self.new)
            (content self.new) }
        ensures cause { HasCause (faults_of self.old) (faults_of self.new) result }

        // Within its room it doesn't fail and takes none. After an ordered failure it fails.
        ensures room { (k b : ℕ) → has_room self.old k b → IsOk result × has_room self.new k b }
        ensures armed_at { (k : ℕ) → armed_at self.old k → armed_at self.new k }
        ensures unarmed { IsUnarmed (armed_at self.old) → IsUnarmed (armed_at self.new) }
        ensures due { armed_at self.old 0 → IsErr result };

    /// Writes the bytes from a place on, over what stands there and past the end. A crash may leave any bytes in their
    /// range until a sync is done.
    ///
    /// `Failed`: a fault. Any bytes of the range may have changed, and none elsewhere.
    fn write_at(&mut self, place: u64, bytes: &[u8]) -> Result<(), Failed>
        requires within { IsTrue tells → place ≤ length (content self.old).seen }
        requires fits { place + length bytes.now < 2 ^ 64 }
        ensures written { IsTrue tells → OnOk result (content self.new ≡ with_pending (content self.old) place bytes.now) }
        ensures torn { IsTrue tells
            → OnErr result (AfterFailedWrite (content self.old) place (length bytes.now) (content self.new)) }
        ensures no_shorter { IsTrue tells → length (content self.old).seen ≤ length (content self.new).seen }
        ensures time { Elapses (moment self.old) (moment self.new) (left_since self.old) (left_since self.new)
            (content self.new) }
        ensures cause { HasCause (faults_of self.old) (faults_of self.new) result }

        // It takes one call of the room, and its bytes.
        ensures room { (k b : ℕ) → has_room self.old (k + 1) (b + length bytes.now) → IsOk result × has_room self.new k b }

        // It brings an ordered failure nearer, and fails where that is this call or an earlier one.
        ensures armed_at { (k : ℕ) → armed_at self.old (k + 1) → armed_at self.new k }
        ensures stays_due { armed_at self.old 0 → armed_at self.new 0 }
        ensures unarmed { IsUnarmed (armed_at self.old) → IsUnarmed (armed_at self.new) }
        ensures due { (k : ℕ) → k ≤ 1 → armed_at self.old k → IsErr result }
        ensures done { IsTrue tells → armed_at self.old 1 → (k : ℕ) → has_room self.old k (length bytes.now)
            → content self.new ≡ with_pending (content self.old) place bytes.now };

    /// Makes what a read gives stable: after it a crash leaves exactly that.
    ///
    /// `Failed`: a fault. Nothing was made stable.
    fn sync(&mut self) -> Result<(), Failed>
        ensures synced { IsTrue tells → OnOk result (content self.new ≡ settled (content self.old).seen) }
        ensures unsynced { OnErr result (content self.new ≡ content self.old) }
        ensures seen { (content self.new).seen ≡ (content self.old).seen }
        ensures time { Elapses (moment self.old) (moment self.new) (left_since self.old) (left_since self.new)
            (content self.new) }
        ensures cause { HasCause (faults_of self.old) (faults_of self.new) result }

        // It takes one call of the room.
        ensures room { (k b : ℕ) → has_room self.old (k + 1) b → IsOk result × has_room self.new k b }

        // It brings an ordered failure nearer, and fails where that is this call or an earlier one.
        ensures armed_at { (k : ℕ) → armed_at self.old (k + 1) → armed_at self.new k }
        ensures stays_due { armed_at self.old 0 → armed_at self.new 0 }
        ensures unarmed { IsUnarmed (armed_at self.old) → IsUnarmed (armed_at self.new) }
        ensures due { (k : ℕ) → k ≤ 1 → armed_at self.old k → IsErr result };

    /// The count of faults so far.
    fn faults(&self) -> u64
        ensures { result ≡ faults_of self.now };

    /// What a read gives is one of the images that a crash now may leave.
    ghost seen_may_stay: { (disk : Self) → IsTrue tells → Image (content disk) (content disk).seen };

    /// A crash now is a crash since each earlier moment.
    ghost counts_now: { (disk : Self) (t : ℕ) (image : List ℕ) → IsTrue tells → t ≤ moment disk → Image (content disk) image
        → left_since disk t image };

    /// A crash since now is a crash now.
    ghost only_now: { (disk : Self) (image : List ℕ) → left_since disk (moment disk) image → Image (content disk) image };

    /// Room for more is room for less.
    ghost room_shrinks: { (disk : Self) (j k a b : ℕ) → has_room disk k b → j ≤ k → a ≤ b → has_room disk j a };
}

/// A device in whose room calls don't fail, unless it is ordered.
pub trait Tuned: Disk {
    /// Reserves room for at least so many writes and syncs, of so many bytes in all. Where a failure is ordered, the
    /// room ends before it, and one call of the room is for the one that fails. A device on which other calls fail has no
    /// room, and gets none.
    ///
    /// Running out of memory leaves the device with the room that it had, or more.
    fn room(&mut self, bytes: usize, calls: usize) -> Result<(), AllocError>
        ensures room { OnOk result (IsUnarmed (Self.Disk.armed_at self.old) → Self.Disk.has_room self.old 0 0
            → Self.Disk.has_room self.new calls bytes) }
        ensures before { OnOk result ((k : ℕ) → Self.Disk.armed_at self.old (k + 1) → Self.Disk.has_room self.old 0 0
            → Self.Disk.has_room self.new (min (calls - 1) k) bytes) }
        ensures keeps { (k b : ℕ) → Self.Disk.has_room self.old k b → Self.Disk.has_room self.new k b }
        ensures armed_at { (k : ℕ) → Self.Disk.armed_at self.old k → Self.Disk.armed_at self.new k }
        ensures unarmed { IsUnarmed (Self.Disk.armed_at self.old) → IsUnarmed (Self.Disk.armed_at self.new) }
        ensures same { Self.Disk.content self.new ≡ Self.Disk.content self.old }
        ensures time { Elapses (Self.Disk.moment self.old) (Self.Disk.moment self.new) (Self.Disk.left_since self.old)
            (Self.Disk.left_since self.new) (Self.Disk.content self.new) }
        ensures faults { Self.Disk.faults_of self.new ≡ Self.Disk.faults_of self.old };

    /// Orders that the k-th write or sync from now on fails, and every call after it, in place of what was ordered before.
    /// The room ends before that call.
    fn arm(&mut self, k: u64)
        requires { 1 ≤ k }
        ensures armed_at { Self.Disk.armed_at self.new k }
        ensures room { (b : ℕ) → Self.Disk.has_room self.old k b → Self.Disk.has_room self.new (k - 1) b }
        ensures same { Self.Disk.content self.new ≡ Self.Disk.content self.old }
        ensures time { Elapses (Self.Disk.moment self.old) (Self.Disk.moment self.new) (Self.Disk.left_since self.old)
            (Self.Disk.left_since self.new) (Self.Disk.content self.new) }
        ensures faults { Self.Disk.faults_of self.new ≡ Self.Disk.faults_of self.old };
}
