//! A device in memory that may keep a call while other threads go on, and which tells nothing.
ghost use Rattle.std.specs.Prelude.{◌≡◌, ◌≤◌, ◌<◌, ◌+◌, length, ℕ};

use crate::signals::Signals;
use hy_base::Failed;
use hy_disk::Disk;
use hy_mem::MemDisk;
use std::alloc::{AllocError, Global};
use std::sync::Arc;

/// A device in memory that keeps a sync, or a count of its faults, where signals say so. It tells nothing.
#[derive(Drop)]
pub struct SlowDisk {
    disk: MemDisk,
    signals: Arc<Signals, Global>,
}

impl SlowDisk {
    /// The device with signals, which other threads may have too.
    pub fn new(disk: MemDisk, signals: Arc<Signals, Global>) -> SlowDisk {
        SlowDisk { disk, signals }
    }

    /// The device, which keeps no call. `AllocError` where memory runs out.
    pub fn quiet(alloc: Global, disk: MemDisk) -> Result<SlowDisk, AllocError> {
        let signals = Arc::new(alloc, Signals::new())?;
        Ok(SlowDisk { disk, signals })
    }

    /// The device in memory.
    pub fn into_disk(self) -> MemDisk {
        let SlowDisk { disk, signals: _ } = self;
        disk
    }
}

impl Disk for SlowDisk {
    ghost use Rattle.std.specs.Prelude.{false, []};
    ghost use Rattle.std.proofs.Common.{rules};
    ghost use Rattle.hy_disk.specs.Content.{settled};
    ghost use Rattle.hy_mem.specs.MemDisk.{plan_of};

    ghost tells = { false };

    ghost content = { λ _. settled [] };

    ghost moment = { λ _. 0 };

    ghost left_since = { λ _ _ _. ⊥ };

    ghost faults_of = { λ slow. (plan_of slow.disk).faults };

    ghost has_room = { λ _ _ _. ⊥ };

    ghost armed_at = { λ _ _. ⊥ };

    ghost seen_may_stay = { λ disk told. Prim.search rules };

    ghost counts_now = { λ disk t image told le now. Prim.search rules };

    ghost only_now = { λ disk image left. absurd left };

    ghost room_shrinks = { λ disk j k a b room fewer less. absurd room };

    fn len(&mut self) -> Result<u64, Failed> {
        self.disk.len()
    }

    fn read(&mut self, place: u64, into: &mut [u8]) -> Result<usize, Failed> {
        self.disk.read(place, into)
    }

    fn write_at(&mut self, place: u64, bytes: &[u8]) -> Result<(), Failed> {
        let Ok(len) = self.disk.len() else {
            return Err(Failed);
        };
        if len < place {
            return self.disk.sync();
        }
        self.disk.write_at(place, bytes)
    }

    fn sync(&mut self) -> Result<(), Failed> {
        self.signals.sync();
        self.disk.sync()
    }

    fn faults(&self) -> u64 {
        self.signals.ask();
        self.disk.faults()
    }
}
