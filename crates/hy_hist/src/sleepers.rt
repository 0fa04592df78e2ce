//! How many passes sleep until the turn is given up: where none does, whoever gives it up makes no call to wake one. No
//! clause speaks of it. A pass counts itself before it looks at the turn for the last time and sleeps, and the turn is given
//! up before the count is read; so, all of these in one order, either the pass is seen or it sees the turn free.
use std::sync::atomic::{AtomicU64, Ordering};

/// A count of those who sleep, or are about to.
#[derive(Drop)]
pub(crate) struct Sleepers {
    count: AtomicU64,
}

impl Sleepers {
    /// Nobody sleeps.
    pub(crate) fn none() -> Sleepers {
        Sleepers {
            count: AtomicU64::new(0),
        }
    }

    /// One more is about to sleep.
    pub(crate) fn begin(&self) {
        let _before = self.count.fetch_add(1, Ordering::SeqCst);
    }

    /// One of them is awake.
    pub(crate) fn end(&self) {
        let _before = self.count.fetch_sub(1, Ordering::SeqCst);
    }

    /// Whether some pass may sleep.
    pub(crate) fn are_some(&self) -> bool {
        self.count.load(Ordering::SeqCst) != 0
    }
}
