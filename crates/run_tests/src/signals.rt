//! What the threads of a test, and its device, tell each other.
use std::sync::atomic::{AtomicU64, Ordering};
use std::thread;
use std::time::{Clock, Duration};

// How often a thread looks for a number before it gives up, and for how many milliseconds it sleeps between two looks.
const LOOKS: u32 = 10_000;

const NAP: u64 = 1;

// How often a device looks before its call goes on by itself.
const TURNS: u32 = 20_000_000;

/// The device keeps no call.
pub const QUIET: u64 = 0;

/// The next sync is kept.
pub const KEEPS_SYNC: u64 = 1;

/// A sync is kept.
pub const IN_SYNC: u64 = 2;

/// Who asks for the count of faults next is kept, and the hub asks in its turns alone.
pub const KEEPS_TURN: u64 = 3;

/// A turn is kept.
pub const IN_TURN: u64 = 4;

/// What a device keeps, and how far the calls are that wait.
#[derive(Drop)]
pub struct Signals {
    /// What the device keeps.
    pub stage: AtomicU64,
    /// How often the device has synced since it was armed.
    pub syncs: AtomicU64,
    /// How many calls are about to wait.
    pub made: AtomicU64,
    /// How many of them are answered.
    pub answered: AtomicU64,
}

impl Signals {
    /// The device keeps nothing, and no call is made.
    pub fn new() -> Signals {
        Signals {
            stage: AtomicU64::new(QUIET),
            syncs: AtomicU64::new(0),
            made: AtomicU64::new(0),
            answered: AtomicU64::new(0),
        }
    }

    /// From now on syncs are counted, and the first of them is kept.
    pub fn arm(&self) {
        self.syncs.store(0, Ordering::SeqCst);
        self.stage.store(KEEPS_SYNC, Ordering::SeqCst);
    }

    /// The device syncs.
    pub fn sync(&self) {
        self.syncs.fetch_add(1, Ordering::SeqCst);
        self.keep(KEEPS_SYNC, IN_SYNC);
    }

    /// The device is asked for its count of faults.
    pub fn ask(&self) {
        self.keep(KEEPS_TURN, IN_TURN);
    }

    // Keeps the thread where that is wanted, until another thread lets it go.
    fn keep(&self, wanted: u64, kept: u64) {
        if self.stage.load(Ordering::SeqCst) != wanted {
            return;
        }
        self.stage.store(kept, Ordering::SeqCst);
        for _turn in 0..TURNS {
            if self.stage.load(Ordering::SeqCst) != kept {
                return;
            }
            thread::yield_now();
        }
    }
}

/// Waits until a number is there, some ten seconds at most. Whether it is.
pub fn reaches<R: Clock>(rt: &R, number: &AtomicU64, wanted: u64) -> bool {
    for _look in 0..LOOKS {
        if number.load(Ordering::SeqCst) == wanted {
            return true;
        }
        pause(rt, NAP);
    }
    false
}

/// Sleeps so many milliseconds.
pub fn pause<R: Clock>(rt: &R, millis: u64) {
    thread::sleep(rt, Duration::from_millis(millis));
}
