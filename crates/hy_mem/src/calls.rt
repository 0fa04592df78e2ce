//! The calls of a device in memory, some of which fail as planned.
ghost use Rattle.std.specs.Prelude.{◌≡◌, ◌-◌, ◌||◌, Some, IfOk, is_err, if◌then◌else◌};
ghost use Rattle.std.specs.Option.{option_map};
ghost use Rattle.hy_base.specs.Faults.{HasCause};
ghost use Rattle.hy_mem.specs.DiskFailures.{after_change, after_read, change_fails, cleared, counted_call, fails_by_number};
ghost use Rattle.hy_mem.specs.DiskFailures.{fresh_device_plan, read_fails, armed_within};

use hy_disk::Failed;
use std::alloc::{AllocError, Global};
use std::marker::Model;

/// Counts the calls and the faults, and says which calls fail.
#[derive(Drop)]
pub struct DeviceCalls {
    /// The numbers of the calls that fail, from 1.
    fails: Vec<u64>,
    /// The number of the last call that doesn't fail, if there is one.
    passes: Option<u64>,
    /// Which write or sync from now on fails, from 1, and every call after it. It is 0 where that one has failed.
    armed: Option<u64>,
    made: u64,
    faults: u64,
}

impl Model for DeviceCalls {
    ghost use Rattle.hy_mem.specs.DiskFailures.{DevicePlan};

    ghost Value = { DevicePlan };

    ghost view = { λ c.
        record { fails = c.fails.items; passes = c.passes; armed = c.armed; made = c.made; faults = c.faults } };
}

impl DeviceCalls {
    pub fn new(alloc: Global, fails: &[u64], passes: Option<u64>) -> Result<DeviceCalls, AllocError>
        ensures { IfOk result (λ calls. calls ≡ fresh_device_plan fails.now passes) }
    {
        Ok(DeviceCalls {
            fails: fails.to_vec(alloc)?,
            passes,
            armed: None,
            made: 0,
            faults: 0,
        })
    }

    pub fn faults(&self) -> u64
        ensures { result ≡ self.now.faults }
    {
        self.faults
    }

    /// Orders that the k-th write or sync from now on fails, and every call after it.
    pub fn arm(&mut self, k: u64)
        ensures { self.new ≡ record self.old { armed = Some k } }
    {
        self.armed = Some(k);
    }

    /// From now on no call fails by this plan.
    pub fn clear(&mut self)
        ensures { self.new ≡ cleared self.old }
    {
        self.fails.clear();
        self.passes = None;
        self.armed = None;
    }

    /// Counts a call that changes nothing.
    pub fn read(&mut self) -> Result<(), Failed>
        ensures fails { is_err result ≡ read_fails self.old }
        ensures after { self.new ≡ after_read self.old (is_err result) }
        ensures cause { HasCause self.old.faults self.new.faults result }
    {
        let fails = self.count() || self.armed == Some(0);
        self.answer(fails)
    }

    /// Counts a write or a sync, which fails besides where it's refused.
    pub fn change(&mut self, is_refused: bool) -> Result<(), Failed>
        ensures fails { is_err result ≡ (is_refused || change_fails self.old) }
        ensures after { self.new ≡ after_change self.old (is_err result) }
        ensures cause { HasCause self.old.faults self.new.faults result }
    {
        let by_number = self.count();
        let by_order = self.come_nearer();
        self.answer(is_refused || by_number || by_order)
    }

    /// Counts a call, and says whether it fails by its number.
    fn count(&mut self) -> bool
        ensures answer { result ≡ fails_by_number self.old }
        ensures after { self.new ≡ record self.old { made = counted_call self.old.made } }
    {
        self.made = self.made.saturating_add(1);
        let is_past = match self.passes {
            None => false,
            Some(last) => last < self.made,
        };
        self.fails.contains(&self.made) || is_past
    }

    /// Counts a write or a sync, and says whether it fails by order.
    fn come_nearer(&mut self) -> bool
        ensures answer { result ≡ armed_within 1 self.old.armed }
        ensures after { self.new ≡ record self.old { armed = option_map (λ at. at - 1) self.old.armed } }
    {
        match self.armed {
            None => false,
            Some(left) => {
                self.armed = Some(left.saturating_sub(1));
                left <= 1
            }
        }
    }

    /// The answer of a call, which is a fault where it fails.
    fn answer(&mut self, fails: bool) -> Result<(), Failed>
        ensures fails { is_err result ≡ fails }
        ensures after { self.new
            ≡ record self.old { faults = if fails then counted_call self.old.faults else self.old.faults } }
        ensures cause { HasCause self.old.faults self.new.faults result }
    {
        if fails {
            self.faults = self.faults.saturating_add(1);
            return Err(Failed);
        }
        Ok(())
    }
}
