//! The bytes of a device in memory, and what they were before.
ghost use Rattle.std.specs.Prelude.{◌≡◌, ◌+◌, ◌<◌, ◌≤◌, [], ◌∷◌, length, IfOk, OnOk};
ghost use Rattle.hy_disk.specs.Content.{settled, with_pending};
ghost use Rattle.hy_disk.specs.Stops.{stopped};

use crate::buffers::{fill_with_ff, overwrite, restore};
use crate::mark::SyncMark;
use std::alloc::{AllocError, Global};
use std::marker::Model;

/// The bytes that a read gives, the place and size of each write, the oldest first, and the bytes that these were over, one
/// after another. A write is over bytes of the last sync alone; what lay past them is told by how many they were. So what was
/// held at each sync is told from what is held now, and no byte is kept twice.
#[derive(Drop)]
pub struct Store {
    bytes: Vec<u8>,
    ranges: Vec<(usize, usize)>,
    covered: Vec<u8>,
    /// The last sync.
    last: SyncMark,
    /// Those before it, the oldest first.
    syncs: Vec<SyncMark>,
}

impl Model for Store {
    ghost use Rattle.std.specs.Prelude.{◌-◌, length, min, take, reverse, vec_capacity};
    ghost use Rattle.hy_mem.specs.Store.{Stored, IsStore};
    ghost use Rattle.hy_mem.specs.Undo.{content_at, contents_before};

    ghost Value = { Stored };

    ghost view = { λ s. record {
      content = content_at s.last s.bytes.items s.ranges.items s.covered.items;
      before = contents_before (reverse s.syncs.items) (content_at s.last s.bytes.items s.ranges.items s.covered.items).synced
          (take s.last.ranges s.ranges.items) (take s.last.covered s.covered.items);
      calls = min (vec_capacity s.ranges - length s.ranges.items) (vec_capacity s.syncs - length s.syncs.items);
      bytes = min (vec_capacity s.bytes - length s.bytes.items) (vec_capacity s.covered - length s.covered.items);
    } };

    ghost invariant = { λ s. IsStore s.last s.bytes.items s.ranges.items s.covered.items };
}

impl Store {
    /// These bytes, all of them synced.
    pub fn new(alloc: Global, bytes: &[u8]) -> Result<Store, AllocError>
        ensures content { IfOk result (λ store. store.content ≡ settled bytes.now) }
        ensures before { IfOk result (λ store. store.before ≡ []) }
    {
        Ok(Store {
            bytes: bytes.to_vec(alloc)?,
            ranges: Vec::new(alloc),
            covered: Vec::new(alloc),
            last: SyncMark {
                bytes: bytes.len(),
                ranges: 0,
                covered: 0,
            },
            syncs: Vec::new(alloc),
        })
    }

    /// The bytes that a read gives.
    pub fn bytes(&self) -> &[u8]
        ensures { result.now ≡ self.now.content.seen }
    {
        &self.bytes
    }

    /// Writes over what stands at a place, and past the end.
    pub fn write(&mut self, place: usize, piece: &[u8])
        requires within { place ≤ length self.old.content.seen }
        requires calls { 0 < self.old.calls }
        requires bytes { length piece.now ≤ self.old.bytes }
        ensures content { self.new.content ≡ with_pending self.old.content place piece.now }
        ensures before { self.new.before ≡ self.old.before }
        ensures calls { self.old.calls ≤ self.new.calls + 1 }
        ensures bytes { self.old.bytes ≤ self.new.bytes + length piece.now }
    {
        let count = piece.len().min(self.last.bytes.saturating_sub(place));
        if self
            .covered
            .extend_from_slice(&self.bytes[place..place + count])
            .is_err()
        {
            unreachable!();
        }
        if self.ranges.push((place, piece.len())).is_err() {
            unreachable!();
        }
        overwrite(&mut self.bytes, place, piece);
    }

    /// Syncs.
    pub fn sync(&mut self)
        requires { 0 < self.old.calls }
        ensures content { self.new.content ≡ settled self.old.content.seen }
        ensures before { self.new.before ≡ self.old.content ∷ self.old.before }
        ensures calls { self.old.calls ≤ self.new.calls + 1 }
        ensures bytes { self.old.bytes ≤ self.new.bytes }
    {
        if self.syncs.push(self.last).is_err() {
            unreachable!();
        }
        self.last = SyncMark {
            bytes: self.bytes.len(),
            ranges: self.ranges.len(),
            covered: self.covered.len(),
        };
    }

    /// Leaves what a crash does by a pattern: 0 the bytes of the last sync, 1 the present ones, and 2 the present ones with
    /// 0xFF for each that was written since.
    pub fn stop(&mut self, pattern: u8)
        ensures content { self.new.content ≡ settled (stopped pattern self.old.content) }
        ensures before { self.new.before ≡ [] }
        ensures calls { self.old.calls ≤ self.new.calls }
        ensures bytes { self.old.bytes ≤ self.new.bytes }
    {
        let pending = &self.ranges[self.last.ranges..];
        match pattern {
            0 => {
                self.bytes.truncate(self.last.bytes);
                restore(&mut self.bytes, pending, &self.covered[self.last.covered..]);
            }
            1 => {}
            _ => fill_with_ff(&mut self.bytes, pending),
        }
        self.ranges.clear();
        self.covered.clear();
        self.syncs.clear();
        self.last = SyncMark {
            bytes: self.bytes.len(),
            ranges: 0,
            covered: 0,
        };
    }

    /// Makes place for so many writes and syncs more, of so many bytes in all.
    pub fn reserve(&mut self, calls: usize, bytes: usize) -> Result<(), AllocError>
        ensures content { self.new.content ≡ self.old.content }
        ensures before { self.new.before ≡ self.old.before }
        ensures place { OnOk result ((calls ≤ self.new.calls) × (bytes ≤ self.new.bytes)) }
        ensures keeps { (self.old.calls ≤ self.new.calls) × (self.old.bytes ≤ self.new.bytes) }
    {
        self.ranges.reserve(calls)?;
        self.syncs.reserve(calls)?;
        self.covered.reserve(bytes)?;
        self.bytes.reserve(bytes)
    }
}
